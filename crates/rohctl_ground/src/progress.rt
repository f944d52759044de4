//! How far the read of an input is, as it is shown on a terminal.

use std::fmt;
use std::time::Duration;

/// After how many milliseconds progress is first shown.
const PATIENCE: u64 = 1000;

/// How many milliseconds lie between two lines of progress at least.
const PAUSE: u64 = 250;

/// From how many seconds on the time left is shown in minutes.
const MANY_SECONDS: u64 = 120;

/// How far the read of an input is.
#[derive(Clone, Copy)]
pub(crate) struct Progress {
    /// The length of the input in octets, if it is a file.
    size: Option<u64>,
    /// Whether the input has lines. Those of a capture are none.
    has_lines: bool,
    octets: u64,
    lines: u64,
    /// When the read began.
    start: Duration,
    /// How many milliseconds have passed since, and how many had when progress was last shown.
    passed: u64,
    shown: u64,
}

/// How many of these octets end a line.
fn lines_in(octets: &[u8]) -> u64 {
    octets.iter().filter(|octet| **octet == b'\n').count() as u64
}

impl Progress {
    /// Nothing was read yet.
    pub(crate) fn new(size: Option<u64>, start: Duration) -> Self {
        Progress {
            size,
            has_lines: true,
            octets: 0,
            lines: 0,
            start,
            passed: 0,
            shown: 0,
        }
    }

    /// The input is a capture.
    pub(crate) fn without_lines(&mut self) {
        self.has_lines = false;
    }

    /// Takes what was read, up to this time. Returns whether progress is due to be shown.
    pub(crate) fn take(&mut self, read: &[u8], now: Duration) -> bool {
        self.octets = self.octets.saturating_add(read.len() as u64);
        if self.size.is_none() && self.has_lines {
            self.lines = self.lines.saturating_add(lines_in(read));
        }
        let passed = now.saturating_sub(self.start).as_millis();
        self.passed = u64::try_from(passed).unwrap_or(u64::MAX);
        let next = self.shown.saturating_add(PAUSE);
        let is_due = self.passed >= PATIENCE && self.passed >= next;
        if is_due {
            self.shown = self.passed;
        }
        is_due
    }

    /// Whether progress was shown.
    pub(crate) fn was_shown(&self) -> bool {
        self.shown > 0
    }

    /// How many of these there are in a second, if so many came up to now.
    fn rate(&self, count: u64) -> u64 {
        count
            .saturating_mul(1000)
            .checked_div(self.passed)
            .unwrap_or(0)
    }

    /// How many seconds are left of a file of this length.
    fn left(&self, size: u64) -> u64 {
        let rest = size.saturating_sub(self.octets);
        let millis = rest
            .saturating_mul(self.passed)
            .checked_div(self.octets)
            .unwrap_or(0);
        millis.saturating_add(999) / 1000
    }
}

/// Octets, shown in MB with one decimal.
#[derive(Clone, Copy)]
struct Millions(u64);

impl fmt::Display for Millions {
    fn fmt<W: fmt::Write>(&self, f: &mut fmt::Formatter<W>) -> fmt::Result {
        let tenths = self.0 / 100_000;
        write!(f, "{}.{}", tenths / 10, tenths % 10)
    }
}

/// Writes how far the read of a file of this length is.
fn write_file<W: fmt::Write>(
    f: &mut fmt::Formatter<W>,
    progress: &Progress,
    size: u64,
) -> fmt::Result {
    let percent = progress
        .octets
        .saturating_mul(100)
        .checked_div(size)
        .unwrap_or(100);
    write!(
        f,
        "{} of {} MB ({percent} %), {} MB/s, ",
        Millions(progress.octets),
        Millions(size),
        Millions(progress.rate(progress.octets))
    )?;
    let left = progress.left(size);
    if left < MANY_SECONDS {
        write!(f, "{left} s left")
    } else {
        write!(f, "{} min left", left / 60)
    }
}

impl fmt::Display for Progress {
    fn fmt<W: fmt::Write>(&self, f: &mut fmt::Formatter<W>) -> fmt::Result {
        if let Some(size) = self.size {
            return write_file(f, self, size);
        }
        if self.has_lines {
            return write!(f, "{} lines, {} lines/s", self.lines, self.rate(self.lines));
        }
        let octets = self.octets;
        write!(
            f,
            "{} MB, {} MB/s",
            Millions(octets),
            Millions(self.rate(octets))
        )
    }
}
