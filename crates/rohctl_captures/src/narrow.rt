//! Which packets of an input are shown: those of lines, frames or a call, and those between two times.

ghost use Rattle.std.specs.Prelude.{◌≡◌};
ghost use Rattle.rohctl_captures.specs.Times.{moment_of};
ghost use Rattle.rohctl_captures.specs.Which.{is_cid};
ghost use Rattle.rohctl_ground.specs.Ending.{status_of};

use crate::place::{Span, is_within};
use crate::time_text::Shown;
use rohctl_ground::{Ending, Nothing, Printable, input_name};

/// How many milliseconds a day has.
const DAY: u64 = 86_400_000;

/// A time, as it is given. A script has milliseconds; a capture has milliseconds since 1970, UTC.
#[derive(Clone, Copy, PartialEq, Eq)]
pub enum Time {
    /// A whole number: milliseconds of a script, seconds of a capture.
    Whole(u64),
    /// Seconds with a fraction, in milliseconds.
    Exact(u64),
    /// A time of the day on which the first packet came, in milliseconds after midnight.
    OfDay(u64),
}

impl Time {
    ghost use Rattle.std.specs.Prelude.{◌≡◌};
    ghost use Rattle.rohctl_captures.specs.Times.{moment_of};

    /// The moment of this time in milliseconds. `first` is the moment of the first packet.
    pub fn moment(self, is_capture: bool, first: u64) -> u64
        ensures { result ≡ moment_of self is_capture first }
    {
        match self {
            Time::Whole(seconds) if is_capture => seconds.saturating_mul(1000),
            Time::Whole(millis) | Time::Exact(millis) => millis,
            Time::OfDay(millis) => (first - first % DAY).saturating_add(millis),
        }
    }
}

/// The number of a text of so many digits, below a limit.
fn two_digits(text: &str, limit: u64) -> Option<u64> {
    let number: u64 = text.parse().ok()?;
    if text.len() == 2 && number < limit {
        Some(number)
    } else {
        None
    }
}

/// The milliseconds of one to three digits behind a point.
fn fraction_of(digits: &str) -> Option<u64> {
    let number: u64 = digits.parse().ok()?;
    match digits.len() {
        1 => Some(number.saturating_mul(100)),
        2 => Some(number.saturating_mul(10)),
        3 => Some(number),
        _ => None,
    }
}

/// The milliseconds after midnight of HH:MM:SS, if the text is one.
fn of_day(text: &str) -> Option<u64> {
    let (hours, rest) = text.split_once(":")?;
    let (minutes, seconds) = rest.split_once(":")?;
    let hours = two_digits(hours, 24)?;
    let minutes = two_digits(minutes, 60)?;
    let seconds = two_digits(seconds, 60)?;
    let minutes = hours.saturating_mul(60).saturating_add(minutes);
    let seconds = minutes.saturating_mul(60).saturating_add(seconds);
    Some(seconds.saturating_mul(1000))
}

/// The time that a text gives, as 1200, 1700000000.25, 22:13:20 or 22:13:20.25, if it gives one.
pub fn time_of(text: &str) -> Option<Time> {
    let (whole, fraction) = match text.split_once(".") {
        Some((whole, digits)) => (whole, Some(fraction_of(digits)?)),
        None => (text, None),
    };
    let millis = fraction.unwrap_or(0);
    if let Some(day) = of_day(whole) {
        return Some(Time::OfDay(day.saturating_add(millis)));
    }
    let number: u64 = whole.parse().ok()?;
    match fraction {
        Some(millis) => Some(Time::Exact(number.checked_mul(1000)?.checked_add(millis)?)),
        None => Some(Time::Whole(number)),
    }
}

/// The first and the last time of what is shown; without one it isn't bounded there.
#[derive(Clone, Copy, PartialEq, Eq)]
pub struct Times {
    pub since: Option<Time>,
    pub until: Option<Time>,
}

impl Times {
    /// Whether a time is given.
    fn are_given(&self) -> bool {
        self.since.is_some() || self.until.is_some()
    }
}

/// A packet, as far as it decides whether it is shown.
#[derive(Clone, Copy)]
pub struct Seen {
    /// Its line or frame.
    pub number: u64,
    pub link: u16,
    /// Its CID, if it can be read.
    pub cid: Option<u16>,
    /// When it came, in milliseconds.
    pub moment: u64,
}

/// Which packets of an input are shown.
#[derive(Clone, Copy, PartialEq, Eq)]
pub enum Which {
    /// All.
    All,
    /// Those in these lines or frames.
    Within(Span),
    /// Those of this link and CID.
    Call { link: u16, cid: u16 },
}

/// Whether the CID that can be read, if one can, is this one.
fn is_cid(cid: u16, own: Option<u16>) -> bool
    ensures { result ≡ is_cid cid own }
{
    match own {
        Some(own) => own == cid,
        None => false,
    }
}

impl Which {
    ghost use Rattle.std.specs.Prelude.{◌≡◌};
    ghost use Rattle.rohctl_captures.specs.Which.{has};

    /// Whether a packet is among these.
    pub fn has(self, seen: &Seen) -> bool
        ensures { result ≡ has self seen.now }
    {
        match self {
            Which::All => true,
            Which::Within(span) => is_within(span.first, span.last, seen.number),
            Which::Call { link, cid } => seen.link == link && is_cid(cid, seen.cid),
        }
    }
}

/// What is shown of an input, and what was seen of it.
#[derive(Clone, Copy)]
pub struct Narrow {
    which: Which,
    times: Times,
    is_capture: bool,
    /// The moment of the first packet, if one came.
    first: Option<u64>,
    /// The earliest and the latest moment so far.
    span: (u64, u64),
    /// How many packets were shown.
    shown: u64,
}

impl Narrow {
    /// Before the first packet.
    pub fn new(which: Which, times: Times, is_capture: bool) -> Self {
        Narrow {
            which,
            times,
            is_capture,
            first: None,
            span: (u64::MAX, 0),
            shown: 0,
        }
    }

    /// Whether a moment is between the times.
    fn is_timely(&self, first: u64, moment: u64) -> bool {
        let since = match self.times.since {
            Some(time) => time.moment(self.is_capture, first),
            None => 0,
        };
        let until = match self.times.until {
            Some(time) => time.moment(self.is_capture, first),
            None => u64::MAX,
        };
        is_within(since, until, moment)
    }

    /// Takes a packet. Returns whether it is shown.
    pub fn shows(&mut self, seen: &Seen) -> bool {
        let moment = seen.moment;
        let first = self.first.unwrap_or(moment);
        self.first = Some(first);
        self.span = (self.span.0.min(moment), self.span.1.max(moment));
        let shown = self.which.has(seen) && self.is_timely(first, moment);
        if shown {
            self.shown = self.shown.saturating_add(1);
        }
        shown
    }

    /// How many packets were shown.
    pub fn shown(&self) -> u64 {
        self.shown
    }

    /// Whether all packets are shown, whatever they are.
    pub fn shows_all(&self) -> bool {
        self.which == Which::All && !self.times.are_given()
    }

    /// Whether a packet came that isn't shown, and none that is.
    pub fn hid_all(&self) -> bool {
        self.shown == 0 && self.first.is_some()
    }

    /// The earliest and the latest moment, if times were given, there were packets, and none was shown.
    pub fn missed(&self) -> Option<(u64, u64)> {
        if self.times.are_given() && self.hid_all() {
            Some(self.span)
        } else {
            None
        }
    }
}

/// Prints that no packet of an input is shown, and its earliest and its latest moment. Returns the ending.
pub fn no_packet_between<R: Eprint>(
    rt: &R,
    path: &str,
    span: (u64, u64),
    is_capture: bool,
) -> Ending<'static>
    ensures { result ≡ Ending.NoFrame }
{
    let name = Printable(input_name(path));
    let earliest = Shown::new(span.0, is_capture);
    let latest = Shown::new(span.1, is_capture);
    let _ = eprintln!(rt;
        "rohctl: {name}: nothing to show: no packet matches --since and --until; its packets are at {earliest} to {latest}"
    );
    Ending::NoFrame
}

/// How a run over an input ends that has packets, none of which is shown.
pub fn unshown_end<'a, R: Eprint>(rt: &R, path: &'a str, narrow: &Narrow) -> Ending<'a>
    ensures { status_of result ≡ 6 }
{
    if let Some(span) = narrow.missed() {
        return no_packet_between(rt, path, span, narrow.is_capture);
    }
    match narrow.which {
        Which::Call { link, cid } => Ending::Nothing(path, Nothing::NoCall { link, cid }),
        Which::Within(_) | Which::All => Ending::Nothing(path, Nothing::NoPacket),
    }
}
