//! How a run of `rohc-gateway` ends: its exit status, and what is logged then.

use rohc_text::Reason;
use std::{fmt, io};

/// How a run of the program ends.
#[derive(Clone, Copy)]
pub enum Ending {
    /// It was stopped as told, or nothing was found.
    Good,
    /// A check found something.
    Findings,
    /// The words are not a command. What is wrong was printed.
    CommandLine,
    /// The gateway file, the links file or the state file is refused. What is wrong was printed.
    Refused,
    /// A socket can't be opened, or polled. What is wrong was printed.
    Socket,
    /// A write to standard output or standard error failed.
    Write(io::Error),
    /// There is no memory.
    Memory,
}

impl Ending {
    ghost use Rattle.std.specs.Prelude.{◌≡◌};
    ghost use Rattle.rohc_gateway_file.specs.Ending.{status_of, is_unsaid};

    /// Whether its text is still to be logged.
    pub fn is_unsaid(&self) -> bool
        ensures { result ≡ is_unsaid self.now }
    {
        matches!(self, Ending::Write(_) | Ending::Memory)
    }

    /// The exit status of the program.
    pub fn status(&self) -> u8
        ensures { result ≡ status_of self.now }
    {
        match self {
            Ending::Good => 0,
            Ending::Findings => 1,
            Ending::CommandLine => 2,
            Ending::Refused => 3,
            Ending::Socket | Ending::Write(_) => 4,
            Ending::Memory => 5,
        }
    }
}

impl fmt::Display for Ending {
    fn fmt<W: fmt::Write>(&self, f: &mut fmt::Formatter<W>) -> fmt::Result {
        match self {
            Ending::Good
            | Ending::Findings
            | Ending::CommandLine
            | Ending::Refused
            | Ending::Socket => Ok(()),
            Ending::Write(error) => write!(f, "standard output: {}", Reason::of(error)),
            Ending::Memory => {
                f.write_str("out of memory; rohctl plan --calls COUNT shows what calls need")
            }
        }
    }
}
