//! The lanes of a time line, from the state down to the feedback.

use crate::drawn::Cell;
use rohc_context::{ContextState, Refusal};

/// What finds a refusal.
#[derive(Clone, Copy, PartialEq, Eq)]
pub(crate) enum Finder {
    /// The framing.
    Frame,
    /// The reading of the header.
    Header,
    /// The state of the context, or its absence.
    Context,
    /// The check.
    Check,
}

/// What finds a refusal.
fn finder_of(refusal: Refusal) -> Finder {
    match refusal {
        Refusal::Empty
        | Refusal::FeedbackShort
        | Refusal::AfterAddCid
        | Refusal::Segment
        | Refusal::ReservedType
        | Refusal::AddCidOnLarge
        | Refusal::LargeCid
        | Refusal::CidRange
        | Refusal::NoHeader
        | Refusal::NoLink => Finder::Frame,
        Refusal::NoContext | Refusal::StateTooLow | Refusal::NoMemory => Finder::Context,
        Refusal::Check => Finder::Check,
        _ => Finder::Header,
    }
}

/// What is drawn in one colour.
#[derive(Clone, Copy, PartialEq, Eq)]
pub(crate) enum Lane {
    State(ContextState),
    Delivered,
    Repaired,
    Late,
    Refused(Finder),
    Ack,
    Nack,
    StaticNack,
}

/// The height of the lane of delivered packets.
const FULL: u64 = 24;

impl Lane {
    /// All, from the top.
    pub(crate) const ALL: [Lane; 13] = [
        Lane::State(ContextState::FullContext),
        Lane::State(ContextState::StaticContext),
        Lane::State(ContextState::NoContext),
        Lane::Delivered,
        Lane::Repaired,
        Lane::Late,
        Lane::Refused(Finder::Frame),
        Lane::Refused(Finder::Header),
        Lane::Refused(Finder::Context),
        Lane::Refused(Finder::Check),
        Lane::Ack,
        Lane::Nack,
        Lane::StaticNack,
    ];

    /// Its class in the style, and its name.
    pub(crate) fn names(self) -> (&'static str, &'static str) {
        match self {
            Lane::State(ContextState::FullContext) => ("full", "Full Context"),
            Lane::State(ContextState::StaticContext) => ("static", "Static Context"),
            Lane::State(ContextState::NoContext) => ("none", "No Context"),
            Lane::Delivered => ("delivered", "delivered"),
            Lane::Repaired => ("repaired", "repaired"),
            Lane::Late => ("late", "late"),
            Lane::Refused(Finder::Frame) => ("frame", "refused: framing"),
            Lane::Refused(Finder::Header) => ("header", "refused: header"),
            Lane::Refused(Finder::Context) => ("context", "refused: context"),
            Lane::Refused(Finder::Check) => ("check", "refused: CRC"),
            Lane::Ack => ("ack", "ACK"),
            Lane::Nack => ("nack", "NACK"),
            Lane::StaticNack => ("snack", "STATIC-NACK"),
        }
    }

    /// Where it ends at the bottom of the picture, of 104.
    pub(crate) fn base(self) -> u32 {
        match self {
            Lane::State(_) => 16,
            Lane::Delivered => 46,
            Lane::Repaired | Lane::Late => 62,
            Lane::Refused(Finder::Frame) => 79,
            Lane::Refused(Finder::Header) => 78,
            Lane::Refused(Finder::Context | Finder::Check) => 84,
            Lane::Ack | Lane::Nack | Lane::StaticNack => 102,
        }
    }

    /// How high a mark is in a cell, or 0 if there is none. `state` is the last one up to the cell.
    pub(crate) fn height(self, cell: &Cell, state: Option<ContextState>) -> u32 {
        match self {
            Lane::State(own) if state == Some(own) => match own {
                ContextState::FullContext => 12,
                ContextState::StaticContext => 8,
                ContextState::NoContext => 4,
            },
            Lane::Delivered if cell.delivered > 0 => share(cell),
            Lane::Repaired if cell.repaired > 0 => 11,
            Lane::Late if cell.late > 0 => 6,
            Lane::Refused(own) if cell.refusal.map(|refusal| finder_of(refusal)) == Some(own) => {
                match own {
                    Finder::Frame => 6,
                    Finder::Header | Finder::Context => 10,
                    Finder::Check => 16,
                }
            }
            Lane::Ack if cell.word == Some(0) => 4,
            Lane::Nack if cell.word == Some(1) => 8,
            Lane::StaticNack if cell.word == Some(2) => 12,
            _ => 0,
        }
    }
}

/// A height in proportion to how many packets of a cell were delivered, at least 3.
fn share(cell: &Cell) -> u32 {
    let delivered = u64::from(cell.delivered);
    let all = delivered.saturating_add(u64::from(cell.refused)).max(1);
    (delivered * FULL / all).clamp(3, FULL) as u32
}
