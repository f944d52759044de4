//! What is said of a copy that failed, and how a run ends by it.

use crate::places::Places;
use crate::save::Uncopied;
use rohc_loop::{Unwritten, folder_of};
use rohc_text::Reason;
use rohctl_ground::Ending;
use std::fmt;

/// A copy that failed, and why.
#[derive(Clone, Copy)]
pub(crate) struct Failure<'a> {
    pub(crate) places: Places<'a>,
    pub(crate) why: &'a Uncopied,
}

/// What is said of the copy that was made before.
const STAYS: &str = "any previous copy stays";

impl fmt::Display for Failure<'_> {
    fn fmt<W: fmt::Write>(&self, f: &mut fmt::Formatter<W>) -> fmt::Result {
        let Places { latest, kept } = self.places;
        match self.why {
            Uncopied::NotRead(reason) => write!(f, "{latest}: cannot read it: {reason}; {STAYS}"),
            Uncopied::NotWritten(Unwritten::System { path, trouble }) => {
                let reason = trouble.reason();
                if path.as_str() == folder_of(kept) {
                    write!(
                        f,
                        "{path}: cannot sync it: {reason}; a power failure may bring back the previous copy"
                    )
                } else {
                    write!(f, "{path}: cannot write to it: {reason}; {STAYS}")
                }
            }
            Uncopied::NotWritten(Unwritten::Memory) => {
                let reason = Reason::Memory;
                write!(f, "{kept}: cannot write to it: {reason}; {STAYS}")
            }
        }
    }
}

/// How a run ends by a copy that failed. What failed was printed.
pub(crate) fn ending_of(why: &Uncopied) -> Ending<'static> {
    match why {
        Uncopied::NotRead(Reason::Memory) | Uncopied::NotWritten(Unwritten::Memory) => {
            Ending::Memory
        }
        // It prints nothing, and has the status of a file that can't be read or written.
        _ => Ending::NoGateway,
    }
}
