//! The totals of one call.

use crate::counts::Counts;
use crate::kind::LineKind;
use rohc_context::Refusal;

/// The totals of a call: a CID of a link.
#[derive(Clone, Copy)]
pub struct CallTotals {
    /// The call's lines of each kind.
    pub counts: Counts,
    /// The number of the line of the first refusal since the last delivery, if there is one.
    pub since: Option<u64>,
    /// The refusals since the last delivery.
    pub refused: u64,
    /// The last refusal.
    pub last: Option<Refusal>,
}

impl CallTotals {
    ghost use Rattle.std.specs.Prelude.{◌≡◌, ℕ, None, ◌==◌, if◌then◌else◌};
    ghost use Rattle.rohc_links.specs.Limits.{counted};
    ghost use Rattle.rohc_totals.specs.Kind.{kind_number};
    ghost use Rattle.rohc_totals.specs.Counted.{count_in, since_after, refused_after, last_after};

    /// A call without lines.
    pub(crate) fn new() -> Self
        ensures counts { (k : ℕ) → count_in result.counts k ≡ 0 }
        ensures since { result.since ≡ None }
        ensures refused { result.refused ≡ 0 }
        ensures last { result.last ≡ None }
    {
        CallTotals {
            counts: Counts::new(),
            since: None,
            refused: 0,
            last: None,
        }
    }

    /// Counts the call's line with this number.
    pub(crate) fn add(&mut self, kind: LineKind, number: u64)
        ensures counts { (k : ℕ) → count_in self.new.counts k
            ≡ (if kind_number kind == k then counted (count_in self.old.counts k) 1 else count_in self.old.counts k) }
        ensures since { self.new.since ≡ since_after kind number self.old.since }
        ensures refused { self.new.refused ≡ refused_after kind self.old.refused }
        ensures last { self.new.last ≡ last_after kind self.old.last }
    {
        self.counts.add(kind);
        match kind {
            LineKind::Delivered => {
                self.since = None;
                self.refused = 0;
            }
            LineKind::Refused(refusal) => {
                self.since = self.since.or(Some(number));
                self.refused = self.refused.saturating_add(1);
                self.last = Some(refusal);
            }
            _ => {}
        }
    }
}
