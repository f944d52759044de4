//! What can be wrong in a life.

use std::fmt;

/// What is wrong.
#[derive(Clone, Copy)]
pub(crate) enum Wrong {
    /// There was no memory.
    Memory,
    /// A gateway sent something else than the machines that run alone.
    Answers,
    /// It delivered a packet that wasn't sent.
    Delivered,
    /// Its file is none that it saved.
    State,
    /// Its counts aren't those of what it did.
    Counts,
}

impl fmt::Display for Wrong {
    fn fmt<W: fmt::Write>(&self, f: &mut fmt::Formatter<W>) -> fmt::Result {
        f.write_str(match self {
            Wrong::Memory => "out of memory",
            Wrong::Answers => "the answers are not those of contexts that run alone",
            Wrong::Delivered => "a packet was delivered that was not sent",
            Wrong::State => "the state file is none that was saved",
            Wrong::Counts => "the counts are not those of what was done",
        })
    }
}
