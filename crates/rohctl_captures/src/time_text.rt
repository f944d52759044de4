//! A moment as it is shown: the milliseconds of a script, or the clock of a capture.

use std::fmt;

/// How many milliseconds a second has.
const SECOND: u64 = 1000;

/// A moment that is shown.
#[derive(Clone, Copy, PartialEq, Eq)]
pub struct Shown {
    /// The milliseconds of a script, or since 1970.
    moment: u64,
    is_capture: bool,
}

impl Shown {
    /// A moment of a script or of a capture.
    pub fn new(moment: u64, is_capture: bool) -> Self {
        Shown { moment, is_capture }
    }
}

impl fmt::Display for Shown {
    fn fmt<W: fmt::Write>(&self, f: &mut fmt::Formatter<W>) -> fmt::Result {
        if !self.is_capture {
            return write!(f, "{}", self.moment);
        }
        let seconds = self.moment / SECOND;
        let millis = self.moment % SECOND;
        let hours = seconds / 3600 % 24;
        let minutes = seconds / 60 % 60;
        let second = seconds % 60;
        write!(
            f,
            "{seconds}.{millis:03} ({hours:02}:{minutes:02}:{second:02}.{millis:03})"
        )
    }
}
