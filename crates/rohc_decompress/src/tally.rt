//! What a run over a capture counts.

use rohc_capture::{FRAME_FAULTS, FrameFault};
use rohc_context::Outcome;
use std::fmt;

/// What a run over a capture counts. A count stays at the greatest u64.
#[derive(Clone, Copy, Default, PartialEq, Eq)]
pub struct Tally {
    /// The packets that were rebuilt.
    pub delivered: u64,
    /// The feedback elements that were due.
    pub feedback: u64,
    /// The feedback elements in the packets, for this side's compressor.
    pub relayed: u64,
    /// The packets that were refused.
    pub refused: u64,
    /// The packets that were taken and delivered nothing.
    pub silent: u64,
    /// The frames of which no rule speaks.
    pub no_rule: u64,
    /// The frames with a fault, in the order of `FrameFault::ALL`.
    pub faults: [u64; FRAME_FAULTS],
}

/// One more.
pub(crate) fn more(count: &mut u64) {
    *count = count.saturating_add(1);
}

impl Tally {
    /// Counts a packet by what became of it.
    pub fn add_outcome(&mut self, outcome: Outcome) {
        match outcome {
            Outcome::Delivered => more(&mut self.delivered),
            Outcome::Refused(_) => more(&mut self.refused),
            Outcome::Stored => more(&mut self.silent),
        }
    }

    /// The packets that arrived on a link.
    fn arrivals(&self) -> u64 {
        self.delivered
            .saturating_add(self.refused)
            .saturating_add(self.silent)
    }

    /// The frames that were read.
    fn frames(&self) -> u64 {
        let mut frames = self.arrivals().saturating_add(self.no_rule);
        for count in self.faults {
            frames = frames.saturating_add(count);
        }
        frames
    }

    /// Counts a frame with this fault.
    pub fn add_fault(&mut self, fault: FrameFault) {
        for (count, kind) in self.faults.iter_mut().zip(FrameFault::ALL.iter()) {
            if *kind == fault {
                *count = count.saturating_add(1);
            }
        }
    }
}

impl fmt::Display for Tally {
    fn fmt<W: fmt::Write>(&self, f: &mut fmt::Formatter<W>) -> fmt::Result {
        write!(f, "frames {} arrivals {} ", self.frames(), self.arrivals())?;
        write!(
            f,
            "delivered {} feedback {} ",
            self.delivered, self.feedback
        )?;
        write!(f, "relayed {} refused {} ", self.relayed, self.refused)?;
        write!(f, "no rule {}", self.no_rule)?;
        for (count, kind) in self.faults.iter().zip(FrameFault::ALL.iter()) {
            if *count > 0 {
                write!(f, " {} {}", kind.name(), count)?;
            }
        }
        Ok(())
    }
}
