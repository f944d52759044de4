//! The tries of a packet in their order, and the header of the first that fits.

ghost use Rattle.std.specs.Prelude.{◌≡◌, ◌≤◌, length, IfSome, IfNone};
ghost use Rattle.rohc_checks.specs.Division.{check, poly3, poly7};
ghost use Rattle.rohc_header.specs.Original.{longest_payload};
ghost use Rattle.rohc_header.specs.Check.{all_ones, static_octets};
ghost use Rattle.rohc_chain.specs.Good.{IsGoodStatic};
ghost use Rattle.rohc_forms.specs.Packets.{content};
ghost use Rattle.rohc_context.specs.Saved.{IsKept};
ghost use Rattle.rohc_context.specs.Tries.{has_short_check, check_for, Fits, Misses};
ghost use Rattle.rohc_context.specs.Read.{explained_of, try_of, IsSound};

use crate::explain::{Explained, explain};
use crate::reference::Reference;
use crate::settings::Settings;
use crate::state::FullContext;
use rohc_forms::{Form, FormKind};
use rohc_header::{Static, check3_after, check7_after};

/// A header that was accepted, and the reference against which it was decoded.
#[derive(Clone, Copy)]
pub(crate) struct Accepted {
    pub reference: Reference,
    pub header: Explained,
}

/// Whether packets of this format carry a 3-bit check: UO-0 and the UO-1 formats.
pub(crate) fn is_short(kind: FormKind) -> bool
    ensures { result ≡ has_short_check kind }
{
    match kind {
        FormKind::Uo0 | FormKind::Uo1 | FormKind::Uo1Id | FormKind::Uo1Ts => true,
        FormKind::Uor2 | FormKind::Uor2Id | FormKind::Uor2Ts => false,
    }
}

/// The check of a header's 40 octets that packets of this format carry, from the registers of its static
/// octets.
#[inline(always)]
pub(crate) fn check_of(octets: &[u8], saved: (u8, u8), kind: FormKind) -> u8
    requires sized { length octets.now ≡ 40 }
    requires three { saved.0 ≡ check poly3 (all_ones poly3) (static_octets octets.now) }
    requires seven { saved.1 ≡ check poly7 (all_ones poly7) (static_octets octets.now) }
    ensures { result ≡ check_for kind octets.now }
{
    if is_short(kind) {
        check3_after(octets, saved.0)
    } else {
        check7_after(octets, saved.1)
    }
}

/// The header that the packet means by one try, if its check is the packet's.
///
/// The payload is at most 65,495 octets.
pub(crate) fn attempt(
    fixed: &Static,
    reference: &Reference,
    shift: u32,
    form: &Form<'_>,
) -> Option<Accepted>
    requires payload { length form.now.payload.now ≤ longest_payload }
    requires shift { shift ≤ 65536 }
    requires good { IsGoodStatic fixed.now }
    requires kept { IsKept fixed.now reference.now.moving reference.now.saved }
    ensures fits { IfSome result (λ a. Fits fixed.now (try_of reference.now shift) (content form.now) (explained_of a.header)) }
    ensures reference { IfSome result (λ a. a.reference ≡ reference.now) }
    ensures sound { IfSome result (λ a. IsSound fixed.now a) }
    ensures misses { IfNone result (Misses fixed.now (try_of reference.now shift) (content form.now)) }
{
    let explained = explain(fixed, reference, shift, form);
    if check_of(&explained.header.octets, explained.saved, form.kind) != form.check {
        return None;
    }
    Some(Accepted {
        reference: *reference,
        header: explained,
    })
}

impl FullContext {
    ghost use Rattle.std.specs.Prelude.{◌≡◌, ◌≤◌, ◌++◌, length, option_map, IfSome};
    ghost use Rattle.std.specs.Option.{ForSome};
    ghost use Rattle.rohc_header.specs.Original.{longest_payload};
    ghost use Rattle.rohc_forms.specs.Packets.{content};
    ghost use Rattle.rohc_context.specs.Settings.{AreGood, limits};
    ghost use Rattle.rohc_context.specs.Record.{reference_of, previous_of};
    ghost use Rattle.rohc_context.specs.Previous.{SharesNumbering};
    ghost use Rattle.rohc_context.specs.Tries.{Verdict, second_tries, third_tries, full_tries};
    ghost use Rattle.rohc_context.specs.Repaired.{IsRepaired};
    ghost use Rattle.rohc_context.specs.Read.{try_of, tries_of, verdict_of, IsSound};

    /// The third try: against the previous reference, if there is one and the packet has a 3-bit
    /// check.
    pub(crate) fn third_try(&self, form: &Form<'_>) -> Option<Accepted>
        requires payload { length form.now.payload.now ≤ longest_payload }
        ensures verdict { Verdict self.now.fixed (content form.now)
            (third_tries (previous_of self.now) (content form.now))
            (verdict_of (content form.now) result) }
        ensures sound { IfSome result (λ a. IsSound self.now.fixed a) }
        ensures near { IfSome result (λ a. SharesNumbering self.now.reference.moving a.reference.moving) }
    {
        match &self.previous {
            Some(previous) if is_short(form.kind) => {
                attempt(&self.fixed, &previous.beside(&self.reference), 0, form)
            }
            _ => None,
        }
    }

    /// How far the second try moves the sequence number on, if enough time has passed for it. `passed` is the time since
    /// the last accepted arrival, in milliseconds.
    #[inline(always)]
    pub(crate) fn second_shift(
        &self,
        settings: &Settings,
        passed: u64,
        form: &Form<'_>,
    ) -> Option<u32>
        requires good { AreGood settings.now }
        ensures tries { second_tries (limits settings.now) passed (reference_of self.now.reference) (content form.now)
            ≡ tries_of (option_map (try_of self.now.reference) result) }
        ensures few { ForSome result (λ shift. shift ≤ 65536) }
    {
        let wraps_after = u64::from(settings.packet_ms) << form.sn.count;
        if !is_short(form.kind) || passed < wraps_after {
            return None;
        }
        Some(1 << form.sn.count)
    }

    /// The header of the first try that fits of those after the first one.
    fn later_tries(&self, settings: &Settings, passed: u64, form: &Form<'_>) -> Option<Accepted>
        requires good { AreGood settings.now }
        requires payload { length form.now.payload.now ≤ longest_payload }
        ensures verdict { Verdict self.now.fixed (content form.now)
            (second_tries (limits settings.now) passed (reference_of self.now.reference) (content form.now)
            ++ third_tries (previous_of self.now) (content form.now))
            (verdict_of (content form.now) result) }
        ensures sound { IfSome result (λ a. IsSound self.now.fixed a) }
        ensures near { IfSome result (λ a. SharesNumbering self.now.reference.moving a.reference.moving) }
    {
        if let Some(shift) = self.second_shift(settings, passed, form) {
            let accepted = attempt(&self.fixed, &self.reference, shift, form);
            if accepted.is_some() {
                return accepted;
            }
        }
        self.third_try(form)
    }

    /// The header of the first try that fits, and whether the packet misses by the first try.
    pub(crate) fn accepted(
        &self,
        settings: &Settings,
        passed: u64,
        form: &Form<'_>,
    ) -> (Option<Accepted>, bool)
        requires good { AreGood settings.now }
        requires payload { length form.now.payload.now ≤ longest_payload }
        ensures verdict { Verdict self.now.fixed (content form.now)
            (full_tries (limits settings.now) passed (reference_of self.now.reference) (previous_of self.now) (content form.now))
            (verdict_of (content form.now) result.0) }
        ensures sound { IfSome result.0 (λ a. IsSound self.now.fixed a) }
        ensures near { IfSome result.0 (λ a. SharesNumbering self.now.reference.moving a.reference.moving) }
        ensures repaired { IsRepaired self.now.fixed (reference_of self.now.reference) (content form.now) result.1 }
    {
        match attempt(&self.fixed, &self.reference, 0, form) {
            Some(accepted) => (Some(accepted), false),
            None => (self.later_tries(settings, passed, form), true),
        }
    }
}
