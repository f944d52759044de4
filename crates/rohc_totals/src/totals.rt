//! The totals of all links.

use crate::call::CallTotals;
use crate::counts::Counts;
use crate::kind::{AnswerLine, LineKind};
use indexmap::IndexMap;
use std::alloc::{AllocError, Global};

/// The totals of a link.
#[derive(Drop)]
pub struct LinkTotals {
    /// The link's lines of each kind.
    pub counts: Counts,
    /// The totals of its calls by CID, in the order of their first lines.
    pub calls: IndexMap<u16, CallTotals>,
}

/// The totals of all lines.
#[derive(Drop)]
pub struct Totals {
    /// The number of lines, which stays at the greatest `u64`.
    pub lines: u64,
    /// The lines of each kind.
    pub counts: Counts,
    /// The number of the first line that is no answer line, if there is one.
    pub strange: Option<u64>,
    /// The totals of the links by number, in the order of their first lines.
    pub links: IndexMap<u16, LinkTotals>,
}

impl LinkTotals {
    ghost use Rattle.std.specs.Prelude.{◌≡◌, ◌≢◌, ℕ, OnOk, None};
    ghost use Rattle.rohc_totals.specs.Counted.{count_in, count_after};
    ghost use Rattle.rohc_totals.specs.Steps.{call_in, CallSteps, StepsTo};

    /// A link without lines.
    fn new(alloc: Global) -> Self
        ensures counts { (k : ℕ) → count_in result.counts k ≡ 0 }
        ensures calls { (c : ℕ) → call_in result c ≡ None }
    {
        LinkTotals {
            counts: Counts::new(),
            calls: IndexMap::new(alloc),
        }
    }

    /// Counts the link's line with this number.
    fn add(&mut self, line: &AnswerLine, number: u64) -> Result<(), AllocError>
        ensures counts { OnOk result ((k : ℕ) →
            count_in self.new.counts k ≡ count_after line.now.kind k (count_in self.old.counts k)) }
        ensures calls { OnOk result ((c : ℕ) → CallSteps line.now number c (call_in self.old c) (call_in self.new c)) }
    {
        self.counts.add(line.kind);
        match line.cid {
            Some(cid) => self.add_call(cid, line.kind, number),
            None => Ok(()),
        }
    }

    /// Counts a line of this call.
    fn add_call(&mut self, cid: u16, kind: LineKind, number: u64) -> Result<(), AllocError>
        ensures own { OnOk result (StepsTo kind number (call_in self.old cid) (call_in self.new cid)) }
        ensures others { OnOk result ((c : ℕ) → c ≢ cid → call_in self.new c ≡ call_in self.old c) }
        ensures counts { self.new.counts ≡ self.old.counts }
    {
        if let Some(call) = self.calls.get_mut(&cid) {
            call.add(kind, number);
            return Ok(());
        }
        let mut call = CallTotals::new();
        call.add(kind, number);
        self.calls.insert(cid, call)?;
        Ok(())
    }
}

impl Totals {
    ghost use Rattle.std.specs.Prelude.{◌≡◌, ◌≢◌, ℕ, OnOk, None, List, ◌++◌, ◌∷◌, []};
    ghost use Rattle.rohc_totals.specs.Counted.{count_in, count_after};
    ghost use Rattle.rohc_totals.specs.Steps.{link_totals, LinkStepsTo, TotalsStep};
    ghost use Rattle.rohc_totals.specs.Totals.{AreTotals};
    ghost use Rattle.rohc_totals.specs.declared.kind.AnswerLine.{AnswerLine};

    /// No lines.
    pub(crate) fn new(alloc: Global) -> Self
        ensures { AreTotals [] result }
    {
        Totals {
            lines: 0,
            counts: Counts::new(),
            strange: None,
            links: IndexMap::new(alloc),
        }
    }

    /// Counts one line more. At an error nothing is known of the totals.
    pub(crate) fn add(&mut self, line: &AnswerLine) -> Result<(), AllocError>
        ensures { OnOk result ((lines : List AnswerLine) → AreTotals lines self.old → AreTotals (lines ++ line.now ∷ []) self.new) }
    {
        self.step(line)?;
        Ok(())
    }

    /// Counts one line more, by its kind, its link and its CID.
    fn step(&mut self, line: &AnswerLine) -> Result<(), AllocError>
        ensures { OnOk result (TotalsStep line.now self.old self.new) }
    {
        self.lines = self.lines.saturating_add(1);
        self.counts.add(line.kind);
        if line.kind.number() == 0 {
            self.strange = self.strange.or(Some(self.lines));
        }
        match line.link {
            Some(link) => self.add_link(link, line),
            None => Ok(()),
        }
    }

    /// Counts a line of this link.
    fn add_link(&mut self, link: u16, line: &AnswerLine) -> Result<(), AllocError>
        ensures own { OnOk result (LinkStepsTo line.now self.old.lines (link_totals self.old link) (link_totals self.new link)) }
        ensures others { OnOk result ((l : ℕ) → l ≢ link → link_totals self.new l ≡ link_totals self.old l) }
        ensures rest { (self.new.lines ≡ self.old.lines) × (self.new.counts ≡ self.old.counts) × (self.new.strange ≡ self.old.strange) }
    {
        let number = self.lines;
        if let Some(totals) = self.links.get_mut(&link) {
            return totals.add(line, number);
        }
        let mut totals = LinkTotals::new(*self.links.allocator());
        totals.add(line, number)?;
        self.links.insert(link, totals)?;
        Ok(())
    }
}
