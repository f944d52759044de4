//! Why a file isn't written.

ghost use Rattle.rohc_loop.specs.Saving.{Says};

use rohc_text::Reason;
use rohc_world::Trouble;
use std::alloc::Global;
use std::fmt;

/// Why a file isn't written.
#[derive(Drop)]
pub enum Unwritten {
    /// It failed at the file or folder with this path.
    System { path: String, trouble: Trouble },
    /// There is no memory.
    Memory,
}

impl Unwritten {
    /// Why it failed at the file or folder with this path.
    pub fn new(alloc: Global, path: &str, trouble: Trouble) -> Unwritten
        ensures { Says result path.now trouble }
    {
        if trouble == Trouble::Failed(Reason::Memory) {
            return Unwritten::Memory;
        }
        match String::from_str(alloc, path) {
            Ok(path) => Unwritten::System { path, trouble },
            Err(_) => Unwritten::Memory,
        }
    }
}

impl fmt::Display for Unwritten {
    fn fmt<W: fmt::Write>(&self, f: &mut fmt::Formatter<W>) -> fmt::Result {
        match self {
            Unwritten::System { path, trouble } => write!(f, "{path}: {}", trouble.reason()),
            Unwritten::Memory => f.write_str("out of memory"),
        }
    }
}
