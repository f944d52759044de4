//! The time of a gateway: its moments, and the system's clock beside them.

use crate::clocks::RealClocks;
use rohc_loop::{Before, Moments, Reading, Step, first_moment, step_between};
use rohc_world::Clocks;
use std::io;
use std::time::{Clock, Instant};

/// The time of a run.
#[derive(Clone, Copy)]
pub(crate) struct Time {
    began: Instant,
    pub(crate) moments: Moments,
    first: u64,
    /// What the system's clock and the moments showed last.
    shown: Reading,
}

impl Time {
    /// Begins a run that goes on from what was saved, or from the system's clock; `None` if the saved moment is too late. The
    /// error is that a clock can't be read.
    pub(crate) fn begin<R: Clock>(rt: &R, before: Option<Before>) -> io::Result<Option<Time>> {
        let began = Instant::now(rt)?;
        let mut clocks = RealClocks::of(rt, began);
        let date = clocks.date().ok();
        let Some(moment) = first_moment(date, before) else {
            return Ok(None);
        };
        let Ok(moments) = Moments::begin(&mut clocks, moment) else {
            return Err(io::Error::from(io::ErrorKind::Other));
        };
        let date = date.unwrap_or(0);
        Ok(Some(Time {
            began,
            moments,
            first: moment,
            shown: Reading { date, moment },
        }))
    }

    /// The first moment of the run.
    pub(crate) fn first(&self) -> u64 {
        self.first
    }

    /// The clocks of the system, for this run.
    pub(crate) fn clocks<'a, R: Clock>(&self, rt: &'a R) -> RealClocks<'a, R> {
        RealClocks::of(rt, self.began)
    }

    /// The moment that it is now.
    pub(crate) fn now<R: Clock>(&mut self, rt: &R) -> u64 {
        let mut clocks = self.clocks(rt);
        self.moments.now(&mut clocks)
    }

    /// The date, in milliseconds since 1970, for people; the one that was shown last if the clock can't be read.
    pub(crate) fn date<R: Clock>(&self, rt: &R) -> u64 {
        self.clocks(rt).date().unwrap_or(self.shown.date)
    }

    /// How the system's clock was set since the last time that this was asked. The moments take no notice.
    pub(crate) fn step<R: Clock>(&mut self, rt: &R, moment: u64) -> Option<Step> {
        let date = self.date(rt);
        let now = Reading { date, moment };
        let step = step_between(self.shown, now);
        self.shown = now;
        step
    }
}
