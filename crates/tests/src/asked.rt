//! What a context says of a packet's tries, compared with its answer to that packet.

use crate::call::SETTINGS;
use crate::examples::WHOLE_IR;
use rohc_context::{
    Context, ContextState, Outcome, Refusal, Reply, Settings, StateView, Tries, Untried,
};
use rohc_frame::{CidKind, Forward, HeadKind, cut};

const PACKETS: u32 = 100_000;

/// An IR of profile 0x0000.
const PLAIN_IR: &[u8] = &[0xfc, 0x00, 0xb7, 0x45, 0xaa];

/// Settings by which a context is forgotten after two seconds.
const FORGETFUL: Settings = Settings {
    idle_ms: 2000,
    ..SETTINGS
};

/// Random numbers, by Knuth's linear congruential generator of 64 bits.
#[derive(Clone, Copy)]
struct Random {
    state: u64,
}

impl Random {
    /// A number below `bound`, which isn't 0.
    fn below(&mut self, bound: u32) -> u32 {
        self.state = self
            .state
            .wrapping_mul(6_364_136_223_846_793_005)
            .wrapping_add(1_442_695_040_888_963_407);
        ((self.state >> 33) as u32) % bound.max(1)
    }

    /// A packet of kind Other: random octets, of which the first is mostly that of a UO-0.
    fn packet(&mut self) -> [u8; 8] {
        let mut octets = [0; 8];
        for octet in &mut octets {
            *octet = (self.below(256) % 256) as u8;
        }
        octets[0] = match self.below(8) {
            0 => octets[0] % 32 + 0xc0,
            1 => octets[0] % 64 + 0x80,
            _ => octets[0] % 128,
        };
        octets
    }
}

/// How often each case came.
#[derive(Clone, Copy, Default)]
struct Seen {
    first: u32,
    second: u32,
    third: u32,
    promoted: u32,
    misses: u32,
    refused: u32,
    forgotten: u32,
    low: u32,
    plain: u32,
    whole: u32,
}

/// Counts one more.
fn add(count: &mut u32) -> bool {
    *count = count.saturating_add(1);
    true
}

/// Whether a header and a payload were delivered.
fn is_delivered(reply: &Reply<'_>, head: &[u8], payload: &[u8]) -> bool {
    match &reply.packet {
        Some(packet) => {
            reply.outcome == Outcome::Delivered
                && packet.head.as_slice() == head
                && packet.payload == payload
        }
        None => false,
    }
}

impl Seen {
    /// Whether the first try that fits, if one does, leads to this answer. Counts it.
    fn agrees(&mut self, tries: &Tries<'_>, state: ContextState, reply: &Reply<'_>) -> bool {
        for (place, one) in tries.tries.iter().enumerate() {
            let Ok(meant) = &one.result else { continue };
            if meant.fits() {
                match (state, place) {
                    (ContextState::StaticContext, _) => add(&mut self.promoted),
                    (_, 0) => add(&mut self.first),
                    (_, 1) => add(&mut self.second),
                    _ => add(&mut self.third),
                };
                return is_delivered(reply, &meant.header.octets, tries.form.payload);
            }
        }
        add(&mut self.misses) && reply.outcome == Outcome::Refused(Refusal::Check)
    }

    /// Whether no try leads to this answer, for this reason. Counts it.
    fn agrees_untried(&mut self, why: Untried, forward: &Forward<'_>, reply: &Reply<'_>) -> bool {
        match why {
            Untried::Whole => add(&mut self.whole) && !matches!(forward.kind, HeadKind::Other),
            Untried::Plain => {
                add(&mut self.plain) && is_delivered(reply, &[forward.first], forward.rest)
            }
            Untried::Refused(refusal) => {
                match refusal {
                    Refusal::NoContext => add(&mut self.forgotten),
                    Refusal::StateTooLow => add(&mut self.low),
                    _ => add(&mut self.refused),
                };
                reply.outcome == Outcome::Refused(refusal)
            }
        }
    }

    /// Has a context take a packet, and returns whether the answer is what it said of the packet before.
    fn take(&mut self, context: &mut Context, moment: u64, octets: &[u8]) -> bool {
        let Ok(framed) = cut(CidKind::Small, 15, octets) else {
            return true;
        };
        let Some(forward) = framed.forward else {
            return true;
        };
        let tries = context.tries(&FORGETFUL, moment, &forward);
        let state = context.state();
        let reply = context.arrive(&FORGETFUL, moment, &forward);
        match tries {
            Ok(tries) => self.agrees(&tries, state, &reply),
            Err(why) => self.agrees_untried(why, &forward, &reply),
        }
    }
}

/// The context after this IR.
fn begun(octets: &[u8]) -> Option<Context> {
    let forward = cut(CidKind::Small, 15, octets).ok()?.forward?;
    match Context::first(&FORGETFUL, 0, &forward) {
        Ok((context, _)) => Some(context),
        Err(_) => None,
    }
}

#[test]
fn answers_are_what_the_tries_say(rt: HostRuntime) {
    let mut random = Random { state: 1 };
    let mut seen = Seen::default();
    let Some(mut context) = begun(WHOLE_IR) else {
        panic!(rt; "refused");
    };
    let mut moment = 0u64;
    for _ in 0..PACKETS {
        moment = moment.saturating_add(u64::from(random.below(250)));
        let agrees = match random.below(16) {
            0..=2 => seen.take(&mut context, moment, WHOLE_IR),
            3 if random.below(16) == 0 => seen.take(&mut context, moment, PLAIN_IR),
            4 if random.below(64) == 0 => {
                moment = moment.saturating_add(2000);
                true
            }
            _ => {
                let packet = random.packet();
                let length = 2 + random.below(7) as usize % 7;
                seen.take(&mut context, moment, &packet[..length])
            }
        };
        assert!(rt; agrees);
    }
    let counts = [
        seen.first,
        seen.second,
        seen.third,
        seen.promoted,
        seen.misses,
        seen.refused,
        seen.forgotten,
        seen.low,
        seen.plain,
        seen.whole,
    ];
    for count in counts {
        assert!(rt; count > 0);
    }
}
