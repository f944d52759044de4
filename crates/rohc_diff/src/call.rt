//! The lines of one call in two texts, up to the first that differs.

use std::alloc::{AllocError, Global};

/// How many lines of a call one text may be ahead of the other.
const FARTHEST: usize = 64;

/// One of the two texts.
#[derive(Clone, Copy, PartialEq, Eq)]
pub enum Side {
    /// The first text.
    First,
    /// The second text.
    Second,
}

/// A line of a text.
#[derive(Drop)]
pub struct Seen {
    /// The number of the line of the script, if the text is a trace, else of the line of the text.
    pub number: u64,
    /// The line.
    pub text: Vec<u8>,
}

/// The first lines in which two texts differ. A text without such a line has none.
#[derive(Drop)]
pub struct Difference {
    /// The line of the first text.
    pub first: Option<Seen>,
    /// The line of the second text.
    pub second: Option<Seen>,
}

/// What became of a line.
#[derive(Clone, Copy, PartialEq, Eq)]
pub(crate) enum Taken {
    /// It waits for the other text.
    Waits,
    /// It was compared. So many lines of the other text wait no more: one if it was equal, all if it differs.
    Met(u64),
    /// Its text is too far ahead. So many of its lines that waited are let go.
    TooFar(u64),
}

/// The lines of one call.
#[derive(Drop)]
pub(crate) struct CallLines {
    /// The text that is ahead.
    side: Side,
    /// The lines that wait for the other text.
    waiting: Vec<Seen>,
    /// The first difference.
    difference: Option<Difference>,
}

/// A difference, by the text of its lines.
fn difference_of(side: Side, line: Option<Seen>, other: Option<Seen>) -> Difference {
    match side {
        Side::First => Difference {
            first: line,
            second: other,
        },
        Side::Second => Difference {
            first: other,
            second: line,
        },
    }
}

impl CallLines {
    /// A call without lines.
    pub(crate) fn new(alloc: Global) -> Self {
        CallLines {
            side: Side::First,
            waiting: Vec::new(alloc),
            difference: None,
        }
    }

    /// The first line that waits.
    fn next_waiting(&mut self) -> Option<Seen> {
        if self.waiting.is_empty() {
            None
        } else {
            Some(self.waiting.remove(0))
        }
    }

    /// Ends with a difference, and lets go the lines that wait, so many of them.
    fn end_with(&mut self, difference: Difference) -> u64 {
        let count = self.waiting.len() as u64;
        self.waiting.clear();
        self.difference = Some(difference);
        count
    }

    /// Lets a line wait, unless its text is too far ahead.
    fn wait(&mut self, side: Side, line: Seen) -> Result<Taken, AllocError> {
        if self.waiting.len() >= FARTHEST {
            let first = self.next_waiting();
            let count = self.end_with(difference_of(side, first, None));
            return Ok(Taken::TooFar(count.saturating_add(1)));
        }
        self.side = side;
        self.waiting.push(line)?;
        Ok(Taken::Waits)
    }

    /// Takes the next line of one text.
    pub(crate) fn take(&mut self, side: Side, line: Seen) -> Result<Taken, AllocError> {
        if self.difference.is_some() {
            return Ok(Taken::Met(0));
        }
        if self.waiting.is_empty() || self.side == side {
            return self.wait(side, line);
        }
        match self.next_waiting() {
            Some(other) if other.text.as_slice() == line.text.as_slice() => Ok(Taken::Met(1)),
            other => {
                let count = self.end_with(difference_of(side, Some(line), other));
                Ok(Taken::Met(count.saturating_add(1)))
            }
        }
    }

    /// The first difference, when both texts have ended: a line that still waits differs.
    pub(crate) fn end(self) -> Option<Difference> {
        let CallLines {
            side,
            mut waiting,
            difference,
        } = self;
        match difference {
            Some(difference) => Some(difference),
            None if waiting.is_empty() => None,
            None => Some(difference_of(side, Some(waiting.remove(0)), None)),
        }
    }
}
