//! The clocks of the system.

use rohc_disk::{answer_of, milliseconds};
use rohc_world::{Clocks, Traced, Trouble};
use std::time::{Clock, Instant, SystemTime};

/// The clocks of the system.
#[derive(Drop)]
pub(crate) struct RealClocks<'a, R> {
    rt: &'a R,
    /// When the run began: its uptime is 0 then.
    began: Instant,
}

impl<'a, R> RealClocks<'a, R> {
    /// The clocks of a system, and when the run began.
    pub(crate) fn of(rt: &'a R, began: Instant) -> Self {
        RealClocks { rt, began }
    }
}

impl<R> Traced for RealClocks<'_, R> {}

impl<R: Clock> Clocks for RealClocks<'_, R> {
    fn date(&mut self) -> Result<u64, Trouble> {
        Ok(milliseconds(answer_of(SystemTime::now(self.rt))?))
    }

    fn uptime(&mut self) -> Result<u64, Trouble> {
        let passed = answer_of(self.began.elapsed(self.rt))?;
        Ok(u64::try_from(passed.as_millis()).unwrap_or(u64::MAX))
    }
}
