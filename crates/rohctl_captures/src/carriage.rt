//! Which packets of a capture are taken, and how they lie in its frames.

use crate::sender::{Sender, sender_of};
use rohc_capture::{Framing, Record, Rule, packet_in};
use rohctl_ground::{Ending, Misuse};

/// Which frames of a capture carry packets, how, and whose are taken.
#[derive(Clone, Copy)]
pub struct Carriage<'a> {
    /// Which link a frame belongs to.
    pub rules: &'a [Rule],
    /// How packets lie in frames.
    pub framing: Framing,
    /// Who sent the packets that are taken; without one all are.
    pub(crate) sender: Option<Sender>,
}

impl<'a> Carriage<'a> {
    /// That of these rules, if there are some: only a capture has rules.
    pub fn of(rules: &'a Option<Vec<Rule>>, framing: Framing) -> Option<Carriage<'a>> {
        let rules = rules.as_ref()?;
        Some(Carriage {
            rules: rules.as_slice(),
            framing,
            sender: None,
        })
    }
}

impl Carriage<'_> {
    /// The link and the packet of a frame, if a rule speaks of it.
    pub(crate) fn packet_of<'f>(
        &self,
        record: &Record,
        frame: &'f [u8],
    ) -> Option<(u16, &'f [u8])> {
        let link_type = record.link_type;
        match packet_in(self.rules, &self.framing, link_type, record.original, frame) {
            Ok(found) => found,
            Err(_) => None,
        }
    }

    /// Whether a frame was sent by who is wanted.
    pub(crate) fn is_sent(&self, record: &Record, frame: &[u8]) -> bool {
        match &self.sender {
            Some(sender) => sender.sent(record.link_type, frame),
            None => true,
        }
    }
}

/// The sender that an option names, if it is given.
pub(crate) fn sender_in<'a>(from: Option<&'a str>) -> Result<Option<Sender>, Ending<'a>> {
    let Some(text) = from else {
        return Ok(None);
    };
    match sender_of(text) {
        Some(sender) => Ok(Some(sender)),
        None => Err(Ending::Misuse(Misuse::Value {
            word: "--from",
            given: text,
            expected: "an Ethernet address, as 02:00:00:00:00:01, or an IPv4 address, as 10.0.0.1",
        })),
    }
}
