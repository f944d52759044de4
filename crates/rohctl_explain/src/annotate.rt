//! What `decompress --pcapng` says of a packet: what it was, and what became of it.

use crate::explain_text::format_name;
use crate::packet::{Explained, Got, explain_into};
use rohc_concentrator::Concentrator;
use rohc_context::Outcome;
use rohc_explain::cause_of;
use rohctl_captures::{Annotator, Arrival, Payloads};
use std::alloc::{AllocError, Global};
use std::io;
use std::io::Write;

/// Writes what a packet was.
fn write_format<W: Write>(out: &mut W, explained: &Explained) -> io::Result<()> {
    write!(out, "{}, link {}", format_name(explained), explained.link)?;
    match explained.cid {
        Some(cid) => write!(out, ", CID {cid}"),
        None => Ok(()),
    }
}

/// Writes what became of a packet, and of a refused one the usual cause.
fn write_became<W: Write>(out: &mut W, explained: &Explained) -> io::Result<()> {
    match (explained.got, explained.fitting()) {
        (Got::Delivered(_), Some(1)) => write!(out, "delivered, repaired by the second attempt"),
        (Got::Delivered(_), Some(2)) => write!(out, "delivered, repaired by the third attempt"),
        (Got::Delivered(_), _) => write!(out, "delivered"),
        (Got::Stored, _) => write!(out, "stored, no packet to deliver"),
        (Got::OnlyFront, _) => write!(out, "only padding and feedback"),
        (Got::Refused(refusal), _) => {
            let cause = cause_of(refusal);
            write!(
                out,
                "refused {refusal}: {}; usual cause: {} ({})",
                cause.meaning, cause.usual, cause.section
            )
        }
    }
}

/// Writes what a packet was, and what became of it.
fn write_comment<W: Write>(out: &mut W, explained: &Explained) -> io::Result<()> {
    write_format(out, explained)?;
    write!(out, ": ")?;
    write_became(out, explained)
}

/// The outcome that is counted.
fn outcome_of(got: Got) -> Outcome {
    match got {
        Got::Delivered(_) => Outcome::Delivered,
        Got::Stored | Got::OnlyFront => Outcome::Stored,
        Got::Refused(refusal) => Outcome::Refused(refusal),
    }
}

/// Who explains the packets of a capture in a few words.
#[derive(Drop)]
pub struct Explainer {
    pub alloc: Global,
    /// How long the payloads of links are.
    pub payloads: Payloads,
}

impl Annotator for Explainer {
    fn alloc(&self) -> Global {
        self.alloc
    }

    fn payloads(&self) -> &Payloads {
        &self.payloads
    }

    fn arrive(
        &self,
        concentrator: &mut Concentrator,
        link: u16,
        moment: u64,
        octets: &[u8],
    ) -> Result<Arrival, AllocError> {
        let mut packet = Vec::new(self.alloc);
        let Ok(explained) = explain_into(
            self.alloc,
            concentrator,
            link,
            moment,
            octets,
            &mut packet,
        ) else {
            return Err(AllocError);
        };
        let mut feedback = Vec::new(self.alloc);
        if let Some(element) = &explained.feedback {
            feedback.extend_from_slice(element.as_slice())?;
        }
        let mut comment = Vec::new(self.alloc);
        if write_comment(&mut comment, &explained).is_err() {
            return Err(AllocError);
        }
        Ok(Arrival {
            outcome: outcome_of(explained.got),
            cid: explained.cid,
            renews: explained.is_ir() && !matches!(explained.got, Got::Refused(_)),
            packet,
            feedback,
            relayed: explained.relayed,
            comment,
        })
    }
}
