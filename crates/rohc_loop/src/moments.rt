//! The moments of a gateway.

ghost use Rattle.std.specs.Prelude.{◌≡◌, ◌≤◌, ◌-◌, [], ◌∷◌, Result, ℕ, MatchResult};
ghost use Rattle.rohc_world.specs.declared.trouble.Trouble.{Trouble};
ghost use Rattle.rohc_world.specs.Acts.{AddsActs, Timed};
ghost use Rattle.rohc_loop.specs.Moments.{absent, first_of, is_stale, last_of, moment_after, IsBegun, step_of};

use rohc_world::{Clocks, Trouble};

/// The longest absence that is counted, in milliseconds: every limit of a context is below it.
const LONGEST_ABSENCE: u64 = 0xffff_ffff;

/// Saved moments are below this one.
const TOO_LATE: u64 = 1 << 63;

/// By how much the system's clock may go another way than the moments, in milliseconds.
const DRIFT: u128 = 1000;

/// What a state file tells of the run before.
#[derive(Clone, Copy)]
pub struct Before {
    /// The moment at which it was saved.
    pub moment: u64,
    /// When it was written, by the system's clock of then, if that is known.
    pub modified: Option<u64>,
}

/// The time since a file was written, at most `LONGEST_ABSENCE`; 0 if it isn't known, or if the clock was set back.
fn absence(date: Option<u64>, modified: Option<u64>) -> u64
    ensures { result ≡ absent date modified }
{
    match (date, modified) {
        (Some(date), Some(modified)) => date.saturating_sub(modified).min(LONGEST_ABSENCE),
        _ => 0,
    }
}

/// The first moment of a run that begins at this date. Without saved contexts it is the date. With them the moments go on
/// from the saved one, by the time since then. `None` if the saved moment is 2^63 or more.
pub fn first_moment(date: Option<u64>, before: Option<Before>) -> Option<u64>
    ensures { result ≡ first_of date before }
{
    let Some(before) = before else {
        return Some(date.unwrap_or(0));
    };
    if before.moment >= TOO_LATE {
        return None;
    }
    Some(before.moment + absence(date, before.modified))
}

/// Whether what was saved at a moment is stale at the first moment of a run: at least `stale_ms` old. With a `stale_ms` of 0 it
/// never is.
pub fn is_stale(first: u64, saved: u64, stale_ms: u32) -> bool
    ensures { result ≡ is_stale stale_ms (first - saved) }
{
    stale_ms > 0 && first.saturating_sub(saved) >= u64::from(stale_ms)
}

/// Moments in milliseconds. They pass as the monotonic clock does, whatever becomes of the system's clock.
#[derive(Clone, Copy)]
pub struct Moments {
    /// The first moment, and the monotonic clock at that moment.
    first: u64,
    start: u64,
    /// The moment that was given last.
    last: u64,
}

impl Moments {
    /// Moments from this one on. The monotonic clock is asked once; if it can't be read, there are none.
    pub fn begin<W: Clocks>(world: &mut W, first: u64) -> Result<Moments, Trouble>
        ensures { (uptime : Result ℕ Trouble) × AddsActs (W.acts world.old) (W.acts world.new) (Timed uptime ∷ [])
            × IsBegun first uptime result }
    {
        let start = world.uptime()?;
        Ok(Moments {
            first,
            start,
            last: first,
        })
    }

    /// The moment that it is now. The monotonic clock is asked once; while it can't be read, no time passes.
    pub fn now<W: Clocks>(&mut self, world: &mut W) -> u64
        ensures never_back { last_of self.old ≤ result }
        ensures kept { self.new ≡ record self.old { last = result } }
        ensures told { (uptime : Result ℕ Trouble) × AddsActs (W.acts world.old) (W.acts world.new) (Timed uptime ∷ [])
            × (result ≡ moment_after self.old uptime) }
    {
        if let Ok(uptime) = world.uptime() {
            let passed = uptime.saturating_sub(self.start);
            self.last = self.last.max(self.first.saturating_add(passed));
        }
        self.last
    }
}

/// What the system's clock and the moments showed at the same time.
#[derive(Clone, Copy)]
pub struct Reading {
    pub date: u64,
    pub moment: u64,
}

/// How the system's clock was set, in milliseconds.
#[derive(Clone, Copy, PartialEq, Eq)]
pub enum Step {
    Ahead(u128),
    Back(u128),
}

/// How the system's clock was set between two readings, if it went another way than the moments by more than a second.
pub fn step_between(before: Reading, now: Reading) -> Option<Step>
    ensures { result ≡ step_of before now }
{
    let gone = u128::from(before.date) + u128::from(now.moment);
    let shown = u128::from(now.date) + u128::from(before.moment);
    if shown > gone + DRIFT {
        Some(Step::Ahead(shown - gone))
    } else if gone > shown + DRIFT {
        Some(Step::Back(gone - shown))
    } else {
        None
    }
}
