//! How a run of the program `rohcd` ends: its exit status, and the line that it prints on standard error.
#![tactic(auto)]

use std::fmt;

/// How a run of the program ends.
#[derive(Clone, Copy, Debug, PartialEq, Eq)]
pub enum End {
    /// All was done.
    Done,
    /// The words are not a command, or they ask for help.
    CommandLine,
    /// The links file can't be read, or it has the fault of this name.
    LinksFile(&'static str),
    /// A read failed.
    Read,
    /// A write failed.
    Write,
    /// No socket could be bound, or the clock couldn't be read.
    Socket,
    /// There is no memory.
    Memory,
}

impl End {
    ghost use Rattle.std.specs.Prelude.{◌≡◌};
    ghost use Rattle.rohc_end.specs.End.{status_of};

    /// The exit status of the program.
    pub fn status(&self) -> u8
        ensures { result ≡ status_of self.now }
    {
        match self {
            End::Done => 0,
            End::CommandLine => 2,
            End::LinksFile(_) => 3,
            End::Read | End::Write | End::Socket => 4,
            End::Memory => 5,
        }
    }
}

impl fmt::Display for End {
    fn fmt<W: fmt::Write>(&self, f: &mut fmt::Formatter<W>) -> fmt::Result {
        match self {
            End::Done => Ok(()),
            End::CommandLine => f.write_str("rohcd: command line"),
            End::LinksFile(name) => {
                f.write_str("rohcd: links file: ")?;
                f.write_str(name)
            }
            End::Read => f.write_str("rohcd: read"),
            End::Write => f.write_str("rohcd: write"),
            End::Socket => f.write_str("rohcd: socket"),
            End::Memory => f.write_str("rohcd: memory"),
        }
    }
}
