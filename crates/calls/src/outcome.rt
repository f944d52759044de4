//! What calls return, in words.

use rohc_concentrator::{AddFault, ChangeFault, NoLink, PutFault};
use std::fmt;

/// What a call returned.
#[derive(Clone, Copy)]
pub(crate) enum Outcome {
    Done,
    /// The number of contexts that were removed.
    Gone(usize),
    Fault(&'static str),
}

impl fmt::Display for Outcome {
    fn fmt<W: fmt::Write>(&self, f: &mut fmt::Formatter<W>) -> fmt::Result {
        match self {
            Outcome::Done => f.write_str("done"),
            Outcome::Gone(count) => write!(f, "done {count}"),
            Outcome::Fault(name) => f.write_str(name),
        }
    }
}

impl From<Result<(), NoLink>> for Outcome {
    fn from(returned: Result<(), NoLink>) -> Self {
        match returned {
            Ok(()) => Outcome::Done,
            Err(NoLink) => Outcome::Fault("NoLink"),
        }
    }
}

impl From<Result<usize, NoLink>> for Outcome {
    fn from(returned: Result<usize, NoLink>) -> Self {
        match returned {
            Ok(count) => Outcome::Gone(count),
            Err(NoLink) => Outcome::Fault("NoLink"),
        }
    }
}

impl From<Result<(), AddFault>> for Outcome {
    fn from(returned: Result<(), AddFault>) -> Self {
        match returned {
            Ok(()) => Outcome::Done,
            Err(AddFault::TooManyLinks) => Outcome::Fault("TooManyLinks"),
            Err(AddFault::BadSetting) => Outcome::Fault("BadSetting"),
            Err(AddFault::DuplicateLink) => Outcome::Fault("DuplicateLink"),
            Err(AddFault::NoMemory) => Outcome::Fault("NoMemory"),
        }
    }
}

impl From<Result<usize, ChangeFault>> for Outcome {
    fn from(returned: Result<usize, ChangeFault>) -> Self {
        match returned {
            Ok(count) => Outcome::Gone(count),
            Err(ChangeFault::NoLink) => Outcome::Fault("NoLink"),
            Err(ChangeFault::BadSetting) => Outcome::Fault("BadSetting"),
        }
    }
}

impl From<Result<(), PutFault>> for Outcome {
    fn from(returned: Result<(), PutFault>) -> Self {
        match returned {
            Ok(()) => Outcome::Done,
            Err(PutFault::NoLink) => Outcome::Fault("NoLink"),
            Err(PutFault::CidRange) => Outcome::Fault("CidRange"),
            Err(PutFault::HasRecord) => Outcome::Fault("HasRecord"),
            Err(PutFault::NoMemory) => Outcome::Fault("NoMemory"),
        }
    }
}
