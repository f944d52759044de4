//! A call that is drawn: its time line in cells, and what is told of some of its packets.

ghost use Rattle.std.specs.Prelude.{◌≡◌, ◌≤◌, vec_len, IfOk};
ghost use Rattle.rohc_report.specs.declared.axis.TheConstants.{CELLS};

use crate::axis::{Axis, CELLS};
use crate::became::Became;
use rohc_context::{ContextState, Refusal};
use rohc_counts::Counts;
use std::alloc::{AllocError, Global};

/// How many of the first and of the last packets that weren't simply delivered are told.
const NOTABLE: usize = 12;

/// How many of the first and of the last other packets are told.
const PLAIN: usize = 4;

/// What happened in a cell of a time line.
#[derive(Clone, Copy)]
pub(crate) struct Cell {
    /// The packets that were delivered in all, and those of them that were late and that were repaired.
    pub(crate) delivered: u32,
    pub(crate) late: u32,
    pub(crate) repaired: u32,
    pub(crate) refused: u32,
    /// The last refusal.
    pub(crate) refusal: Option<Refusal>,
    /// The gravest feedback, by the number of its kind among the counts.
    pub(crate) word: Option<usize>,
    /// The lowest state.
    pub(crate) state: Option<ContextState>,
}

/// A cell in which nothing happened.
const EMPTY: Cell = Cell {
    delivered: 0,
    late: 0,
    repaired: 0,
    refused: 0,
    refusal: None,
    word: None,
    state: None,
};

/// A packet that is told.
#[derive(Drop)]
pub(crate) struct Told {
    /// The number of its line or frame.
    pub(crate) number: u64,
    pub(crate) moment: u64,
    pub(crate) became: Became,
    pub(crate) cell: usize,
    /// What is told of it.
    pub(crate) text: Vec<u8>,
}

/// The first and the last packets of a kind.
#[derive(Drop)]
pub(crate) struct Kept {
    most: usize,
    pub(crate) first: Vec<Told>,
    /// The last ones, in a circle.
    pub(crate) last: Vec<Told>,
    /// Where the oldest of the last ones stands, once there are enough.
    oldest: usize,
    ghost few_first: { vec_len first ≤ most },
    ghost few_last: { vec_len last ≤ most },
}

impl Kept {
    /// None so far, and at most so many of the first and of the last.
    fn new(alloc: Global, most: usize) -> Self {
        Kept {
            most,
            first: Vec::new(alloc),
            last: Vec::new(alloc),
            oldest: 0,
        }
    }

    /// Keeps a packet, in place of the oldest of the last ones if there are enough.
    fn keep(&mut self, told: Told) -> Result<(), AllocError> {
        if self.first.len() < self.most {
            self.first.push(told)?;
        } else if self.last.len() < self.most {
            self.last.push(told)?;
        } else {
            self.replace(told);
        }
        Ok(())
    }

    /// Puts a packet in place of the oldest of the last ones.
    fn replace(&mut self, told: Told) {
        let place = self.oldest;
        self.oldest = place.saturating_add(1);
        if self.oldest >= self.last.len() {
            self.oldest = 0;
        }
        if let Some(slot) = self.last.get_mut(place) {
            *slot = told;
        }
    }
}

/// A call that is drawn.
#[derive(Drop)]
pub struct Drawn {
    pub(crate) link: u16,
    pub(crate) cid: u16,
    pub(crate) axis: Axis,
    pub(crate) cells: Vec<Cell>,
    pub(crate) notable: Kept,
    pub(crate) plain: Kept,
    ghost whole: { vec_len cells ≡ CELLS },
}

/// The number of the kind of a feedback element for this CID, as answers are counted.
fn word_of(cid: u16, feedback: Option<&[u8]>) -> Option<usize> {
    let mut counts = Counts::new();
    counts.count_numbers(None, cid, feedback, 0);
    counts.words.iter().position(|count| *count > 0)
}

/// The graver of two kinds of feedback: the later in the order ACK, NACK, STATIC-NACK. FEEDBACK-1 is an ACK.
fn graver(one: Option<usize>, other: Option<usize>) -> Option<usize> {
    match (one, other) {
        (Some(one), Some(other)) => Some((one % 3).max(other % 3)),
        (Some(one), None) | (None, Some(one)) => Some(one % 3),
        (None, None) => None,
    }
}

/// How high a state is.
fn height(state: ContextState) -> u8 {
    match state {
        ContextState::NoContext => 0,
        ContextState::StaticContext => 1,
        ContextState::FullContext => 2,
    }
}

/// The lower of two states.
fn lower(one: Option<ContextState>, other: Option<ContextState>) -> Option<ContextState> {
    match (one, other) {
        (Some(one), Some(other)) if height(other) < height(one) => Some(other),
        (Some(one), _) => Some(one),
        (None, other) => other,
    }
}

impl Cell {
    /// Adds a packet.
    fn add(&mut self, became: Became, word: Option<usize>, state: Option<ContextState>) {
        match became {
            Became::Delivered => self.delivered = self.delivered.saturating_add(1),
            Became::Late => {
                self.delivered = self.delivered.saturating_add(1);
                self.late = self.late.saturating_add(1);
            }
            Became::Repaired => {
                self.delivered = self.delivered.saturating_add(1);
                self.repaired = self.repaired.saturating_add(1);
            }
            Became::Refused(refusal) => {
                self.refused = self.refused.saturating_add(1);
                self.refusal = Some(refusal);
            }
            Became::Stored | Became::Front => {}
        }
        self.word = graver(self.word, word);
        self.state = lower(self.state, state);
    }
}

/// So many empty cells.
fn empty_cells(alloc: Global) -> Result<Vec<Cell>, AllocError>
    ensures { IfOk result (λ cells. vec_len cells ≡ CELLS) }
{
    vec![in alloc; EMPTY; CELLS]
}

impl Drawn {
    /// A call of which no packet is drawn so far.
    pub fn new(alloc: Global, link: u16, cid: u16, axis: Axis) -> Result<Self, AllocError> {
        Ok(Drawn {
            link,
            cid,
            axis,
            cells: empty_cells(alloc)?,
            notable: Kept::new(alloc, NOTABLE),
            plain: Kept::new(alloc, PLAIN),
        })
    }

    /// Draws the packet with this number, and keeps what is told of it if it is among the first or the last of its kind.
    pub fn take(
        &mut self,
        number: u64,
        moment: u64,
        became: Became,
        feedback: Option<&[u8]>,
        state: Option<ContextState>,
        text: Vec<u8>,
    ) -> Result<(), AllocError> {
        let word = word_of(self.cid, feedback);
        let cell = self.axis.cell(moment);
        self.cells[cell].add(became, word, state);
        let told = Told {
            number,
            moment,
            became,
            cell,
            text,
        };
        if became == Became::Delivered && matches!(word, None | Some(0)) {
            self.plain.keep(told)
        } else {
            self.notable.keep(told)
        }
    }

    /// The packets that are told, in their order.
    pub(crate) fn told(&self, alloc: Global) -> Result<Vec<&Told>, AllocError> {
        let mut all = Vec::new(alloc);
        for kept in [&self.notable, &self.plain] {
            for told in &kept.first {
                all.push(told)?;
            }
            for told in &kept.last {
                all.push(told)?;
            }
        }
        all.sort_by_key(|told| told.number)?;
        Ok(all)
    }
}
