//! Comparing two texts as they are read.

use crate::call::{Seen, Side};
use crate::calls::{Calls, Differences};
use crate::half::Half;
use rohc_totals::read_answer;
use std::alloc::Global;
use std::io::Read;
use thiserror::Error;

/// Why two texts weren't compared.
#[derive(Clone, Copy, Debug, PartialEq, Eq, Error)]
pub enum DiffFault {
    /// There is no memory.
    #[error("NoMemory")]
    NoMemory,
    /// A read failed.
    #[error("Read")]
    Read,
}

/// The number that stands before the shown line of a script, if the line begins so.
fn script_number(line: &[u8]) -> Option<u64> {
    let mut number = 0u64;
    let mut is_number = false;
    for octet in line {
        match octet {
            b'0'..=b'9' => {
                number = number
                    .saturating_mul(10)
                    .saturating_add(u64::from(*octet - b'0'));
                is_number = true;
            }
            b' ' if is_number => return Some(number),
            _ => return None,
        }
    }
    None
}

/// One text, with the numbers of its last line.
#[derive(Drop)]
struct Text {
    half: Half,
    side: Side,
    /// The number of the last line.
    number: u64,
    /// The number of the last line of the script, if the text is a trace.
    script: Option<u64>,
}

impl Text {
    /// Takes the next line into the lines of its call.
    fn step<R: Read>(
        &mut self,
        alloc: Global,
        reader: &mut R,
        calls: &mut Calls,
    ) -> Result<(), DiffFault> {
        let Some(text) = self.half.next_line(alloc, reader)? else {
            return Ok(());
        };
        self.number = self.number.saturating_add(1);
        if read_answer(text.as_slice()).is_none() {
            if let Some(number) = script_number(text.as_slice()) {
                self.script = Some(number);
                return Ok(());
            }
        }
        let line = Seen {
            number: self.script.unwrap_or(self.number),
            text,
        };
        match calls.take(self.side, line) {
            Ok(()) => Ok(()),
            Err(_) => Err(DiffFault::NoMemory),
        }
    }
}

/// A text of which nothing was read.
fn text_of(alloc: Global, side: Side) -> Result<Text, DiffFault> {
    match Half::new(alloc) {
        Ok(half) => Ok(Text {
            half,
            side,
            number: 0,
            script: None,
        }),
        Err(_) => Err(DiffFault::NoMemory),
    }
}

/// Compares two texts call by call, and gives the first difference of each call.
///
/// The texts are answers of one script, or traces of it. Memory grows with the calls: of each call at most 64 lines of
/// one text wait for the other, and a call that gets farther ahead differs.
pub fn diff<A: Read, B: Read>(
    alloc: Global,
    first: &mut A,
    second: &mut B,
) -> Result<Differences, DiffFault> {
    let mut calls = Calls::new(alloc);
    let mut one = text_of(alloc, Side::First)?;
    let mut other = text_of(alloc, Side::Second)?;
    for _ in 0..u64::MAX {
        if one.half.ended && other.half.ended {
            break;
        }
        let is_first = !one.half.ended && (other.half.ended || calls.next_side() == Side::First);
        if is_first {
            one.step(alloc, first, &mut calls)?;
        } else {
            other.step(alloc, second, &mut calls)?;
        }
    }
    match calls.end() {
        Ok(all) => Ok(all),
        Err(_) => Err(DiffFault::NoMemory),
    }
}
