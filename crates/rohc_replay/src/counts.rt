//! What a replay counts.

use crate::fault::RunFault;
use crate::output::Answers;
use crate::tally::Tally;

/// The counts of a replay, and its answers on their way to the writer.
#[derive(Drop)]
pub(crate) struct Counts {
    /// The good lines, and the bad and long ones.
    pub(crate) tally: Tally,
    /// The answers, with the number of octets that the writer took.
    pub(crate) answers: Answers,
}

impl Counts {
    ghost use Rattle.std.specs.Prelude.{◌≡◌};

    /// The counts before the first line.
    pub(crate) fn new() -> Self
        ensures tally { result.tally ≡ record { events = 0; bad = 0 } }
        ensures taken { result.answers.taken ≡ 0 }
    {
        Counts {
            tally: Tally { events: 0, bad: 0 },
            answers: Answers::new(),
        }
    }

    /// The fault if a read failed, with the number of octets that were written.
    pub(crate) fn read_fault(&self) -> RunFault
        ensures { result ≡ RunFault.Read self.now.answers.taken }
    {
        RunFault::Read {
            written: self.answers.taken,
        }
    }

    /// The fault if a write failed, with the number of octets that were written.
    pub(crate) fn write_fault(&self) -> RunFault
        ensures { result ≡ RunFault.Write self.now.answers.taken }
    {
        RunFault::Write {
            written: self.answers.taken,
        }
    }
}
