//! Where packets stand: in lines of a script, in frames of a capture, or among the words of the command line.

ghost use Rattle.std.specs.Prelude.{◌≡◌, ◌≤◌, IfSome};
ghost use Rattle.rohctl_captures.specs.Times.{is_within};

use crate::time_text::Shown;

/// What has the numbers of packets, from 1 on.
#[derive(Clone, Copy, PartialEq, Eq)]
pub enum Unit {
    /// The lines of a script.
    Line,
    /// The frames of a capture.
    Frame,
    /// The packets of the command line.
    Packet,
}

impl Unit {
    /// Its name.
    pub fn name(self) -> &'static str {
        match self {
            Unit::Line => "line",
            Unit::Frame => "frame",
            Unit::Packet => "packet",
        }
    }

    /// Its name in JSON, where a packet is what was rebuilt.
    pub fn key(self) -> &'static str {
        match self {
            Unit::Frame => "frame",
            Unit::Line | Unit::Packet => "line",
        }
    }
}

/// Where a packet stands.
#[derive(Clone, Copy, PartialEq, Eq)]
pub struct Place {
    pub unit: Unit,
    pub number: u64,
}

impl Place {
    /// A moment, as it is shown beside the packet.
    pub fn time(self, moment: u64) -> Shown {
        Shown::new(moment, self.unit == Unit::Frame)
    }
}

/// Whether a number is not before the first of these, nor after the last.
pub fn is_within(first: u64, last: u64, number: u64) -> bool
    ensures { result ≡ is_within first last number }
{
    first <= number && number <= last
}

/// Lines or frames, from the first to the last.
#[derive(Clone, Copy, PartialEq, Eq)]
pub struct Span {
    pub unit: Unit,
    pub first: u64,
    pub last: u64,
}

/// The numbers in a text: N, or A-B with A not after B. They are from 1 on.
pub fn numbers_of(text: &str) -> Option<(u64, u64)>
    ensures { IfSome result (λ numbers. (1 ≤ numbers.0) × (numbers.0 ≤ numbers.1)) }
{
    let (first, last) = text.split_once("-").unwrap_or((text, text));
    let first: u64 = first.parse().ok()?;
    let last: u64 = last.parse().ok()?;
    if 1 <= first && first <= last {
        Some((first, last))
    } else {
        None
    }
}
