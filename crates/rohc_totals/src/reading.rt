//! The totals of a text, as it is read.

ghost use Rattle.std.specs.Prelude.{◌≡◌, ◌≢◌, ◌<◌, ◌≤◌, ℕ, List, [], ◌∷◌, ◌++◌, length, IfOk, IfSome, OnOk};
ghost use Rattle.rohc_replay.specs.Script.{longest_line};
ghost use Rattle.rohc_replay.specs.Stream.{IsUnfinished};
ghost use Rattle.rohc_totals.specs.Answer.{IsSaid};
ghost use Rattle.rohc_totals.specs.Reading.{AreTotalsOf, StandsInAnswers};

use crate::kind::{AnswerLine, LineKind};
use crate::line::read_answer;
use crate::totals::Totals;
use rohc_links::zeros;
use std::alloc::{AllocError, Global};
use std::io::Read;
use thiserror::Error;

/// The longest line without its newline, in octets.
const LONGEST_LINE: usize = 131_200;

/// How many octets are asked for at once.
const PIECE: usize = 65_536;

/// The read call that counts as a fault, whatever it returns.
const LAST_READ: u64 = 1 << 40;

/// What is told of a line that is no answer line.
const NOTHING: AnswerLine = AnswerLine {
    link: None,
    cid: None,
    kind: LineKind::NoAnswer,
};

/// Why there are no totals.
#[derive(Clone, Copy, Debug, PartialEq, Eq, Error)]
pub enum TotalsFault {
    /// There is no memory.
    #[error("NoMemory")]
    NoMemory,
    /// A read failed.
    #[error("Read")]
    Read,
}

/// The totals of the finished lines, and what is kept of the unfinished one.
#[derive(Drop)]
pub(crate) struct Progress {
    totals: Totals,
    /// The unfinished line, or nothing of it if it is long.
    line: Vec<u8>,
    /// Whether the unfinished line is longer than the longest.
    long: bool,
}

/// What is told of a line of which this is kept.
fn told_of(line: &[u8], long: bool) -> AnswerLine
    requires { length line.now ≤ longest_line }
    ensures { (rest : List ℕ) → IsUnfinished long line.now rest → IsSaid rest result }
{
    if long {
        return NOTHING;
    }
    match read_answer(line) {
        Some(told) => told,
        None => NOTHING,
    }
}

impl Progress {
    /// Nothing was read.
    fn new(alloc: Global) -> Self
        ensures { StandsInAnswers [] result }
    {
        Progress {
            totals: Totals::new(alloc),
            line: Vec::new(alloc),
            long: false,
        }
    }

    /// Takes a newline.
    fn end_line(&mut self) -> Result<(), AllocError>
        requires { length self.old.line.items ≤ longest_line }
        ensures short { OnOk result (length self.new.line.items ≤ longest_line) }
        ensures stands { OnOk result ((seen : List ℕ) → StandsInAnswers seen self.old → StandsInAnswers (seen ++ 10 ∷ []) self.new) }
    {
        let told = told_of(&self.line, self.long);
        self.totals.add(&told)?;
        self.line.clear();
        self.long = false;
        Ok(())
    }

    /// Takes any other octet.
    fn keep(&mut self, octet: u8) -> Result<(), AllocError>
        requires other { octet ≢ 10 }
        requires room { length self.old.line.items ≤ longest_line }
        ensures short { OnOk result (length self.new.line.items ≤ longest_line) }
        ensures stands { OnOk result ((seen : List ℕ) → StandsInAnswers seen self.old → StandsInAnswers (seen ++ octet ∷ []) self.new) }
    {
        if self.long {
            return Ok(());
        }
        if self.line.len() >= LONGEST_LINE {
            self.line.clear();
            self.long = true;
            return Ok(());
        }
        self.line.push(octet)?;
        Ok(())
    }

    /// Takes one octet.
    fn take(&mut self, octet: u8) -> Result<(), AllocError>
        requires { length self.old.line.items ≤ longest_line }
        ensures short { OnOk result (length self.new.line.items ≤ longest_line) }
        ensures stands { OnOk result ((seen : List ℕ) → StandsInAnswers seen self.old → StandsInAnswers (seen ++ octet ∷ []) self.new) }
    {
        if octet == b'\n' {
            self.end_line()
        } else {
            self.keep(octet)
        }
    }

    /// Takes octets in their order.
    fn take_all(&mut self, octets: &[u8]) -> Result<(), AllocError>
        requires { length self.old.line.items ≤ longest_line }
        ensures short { OnOk result (length self.new.line.items ≤ longest_line) }
        ensures stands { OnOk result ((seen : List ℕ) → StandsInAnswers seen self.old → StandsInAnswers (seen ++ octets.now) self.new) }
    {
        for octet in octets {
            self.take(*octet)?;
        }
        Ok(())
    }

    /// Takes the last line, if it ends without a newline.
    fn end(&mut self) -> Result<(), AllocError>
        requires { length self.old.line.items ≤ longest_line }
        ensures { OnOk result ((seen : List ℕ) → StandsInAnswers seen self.old → AreTotalsOf seen self.new.totals) }
    {
        if self.long || !self.line.is_empty() {
            let told = told_of(&self.line, self.long);
            self.totals.add(&told)?;
        }
        Ok(())
    }
}

/// Who is shown the totals while a text is read.
pub trait Watcher {
    /// Sees the totals of the lines so far. `all` is whether the reader had no more at hand.
    fn see(&mut self, totals: &Totals, all: bool);
}

/// A watcher who looks at nothing.
#[derive(Clone, Copy)]
pub struct Nobody;

impl Watcher for Nobody {
    fn see(&mut self, _totals: &Totals, _all: bool) {}
}

/// The totals of all that a reader gives. After a fault nothing is known of the reader.
///
/// A buffer of 65,536 octets and one for a line are kept; else memory grows with the calls alone.
pub fn read_totals<R: Read>(alloc: Global, reader: &mut R) -> Result<Totals, TotalsFault>
    ensures whole { IfOk result (λ t. IfSome (R.remaining reader.old) (λ text. AreTotalsOf text t)) }
{
    watch_totals(alloc, reader, &mut Nobody)
}

/// The totals of all that a reader gives, as `read_totals` has them. The watcher sees them after each read.
pub fn watch_totals<R: Read, S: Watcher>(
    alloc: Global,
    reader: &mut R,
    watcher: &mut S,
) -> Result<Totals, TotalsFault>
    ensures whole { IfOk result (λ t. IfSome (R.remaining reader.old) (λ text. AreTotalsOf text t)) }
{
    let Ok(mut buffer) = zeros(alloc, PIECE) else {
        return Err(TotalsFault::NoMemory);
    };
    read_by(alloc, reader, watcher, buffer.as_mut_slice())
}

/// The totals of all that a reader gives, by way of this buffer.
fn read_by<R: Read, S: Watcher>(
    alloc: Global,
    reader: &mut R,
    watcher: &mut S,
    buffer: &mut [u8],
) -> Result<Totals, TotalsFault>
    requires { 0 < length buffer.old }
    ensures { IfOk result (λ t. IfSome (R.remaining reader.old) (λ text. AreTotalsOf text t)) }
{
    let mut progress = Progress::new(alloc);
    for _ in 1..LAST_READ {
        let Ok(count) = reader.read(buffer) else {
            return Err(TotalsFault::Read);
        };
        if count == 0 {
            let Ok(()) = progress.end() else {
                return Err(TotalsFault::NoMemory);
            };
            return Ok(progress.totals);
        }
        let Ok(()) = progress.take_all(&buffer[..count]) else {
            return Err(TotalsFault::NoMemory);
        };
        watcher.see(&progress.totals, count < buffer.len());
    }
    Err(TotalsFault::Read)
}
