//! A call of one context, packet by packet, with the settings of link 1 of the worked examples.

use rohc_context::{Context, Mode, Outcome, Reply, Settings};
use rohc_frame::{CidKind, cut};

pub(crate) const SETTINGS: Settings = Settings {
    size: CidKind::Small,
    max_cid: 15,
    mode: Mode::O,
    k1: 2,
    n1: 3,
    k2: 2,
    n2: 3,
    packet_ms: 20,
    static_nack_ms: 1000,
    idle_ms: 0,
};

/// What is told of an answer: its outcome, the sequence number of the rebuilt header, and the type octet of the feedback.
pub(crate) type Told = (Outcome, Option<u8>, Option<u8>);

/// The context after a first packet at this time.
pub(crate) fn first(moment: u64, packet: &[u8]) -> Option<Context> {
    let forward = cut(CidKind::Small, 15, packet).ok()?.forward?;
    match Context::first(&SETTINGS, moment, &forward) {
        Ok((context, _)) => Some(context),
        Err(_) => None,
    }
}

/// What is told of an answer.
fn told(reply: &Reply<'_>) -> Told {
    let sn = match &reply.packet {
        Some(packet) => packet.head.get(31).copied(),
        None => None,
    };
    let feedback = match &reply.feedback {
        Some(element) => element.first().copied(),
        None => None,
    };
    (reply.outcome, sn, feedback)
}

/// What is told of the answer to a packet.
pub(crate) fn answer(context: &mut Context, packet: &[u8]) -> Option<Told> {
    let forward = cut(CidKind::Small, 15, packet).ok()?.forward?;
    let reply = context.arrive(&SETTINGS, 0, &forward);
    Some(told(&reply))
}
