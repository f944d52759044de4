//! How many lines there are of each kind.

use crate::kind::{KINDS, LineKind};

/// The number of lines of each kind. Each stays at the greatest `u64`.
#[derive(Clone, Copy)]
pub struct Counts {
    /// The numbers, by the kinds' numbers.
    lines: [u64; KINDS],
}

impl Counts {
    ghost use Rattle.std.specs.Prelude.{◌≡◌, ℕ, ◌==◌, if◌then◌else◌};
    ghost use Rattle.rohc_links.specs.Limits.{counted};
    ghost use Rattle.rohc_totals.specs.Kind.{kind_number};
    ghost use Rattle.rohc_totals.specs.Counted.{count_in};

    /// No lines.
    pub(crate) fn new() -> Self
        ensures { (k : ℕ) → count_in result k ≡ 0 }
    {
        Counts { lines: [0; KINDS] }
    }

    /// The number of lines of this kind.
    pub fn of(&self, kind: LineKind) -> u64
        ensures { result ≡ count_in self.now (kind_number kind) }
    {
        self.lines[kind.number()]
    }

    /// Counts a line of this kind.
    pub(crate) fn add(&mut self, kind: LineKind)
        ensures { (k : ℕ) → count_in self.new k ≡ (if kind_number kind == k then counted (count_in self.old k) 1 else count_in self.old k) }
    {
        let place = kind.number();
        self.lines[place] = self.lines[place].saturating_add(1);
    }
}
