//! The first try of a packet without an extension 3, which nearly every packet fits by. It writes only those fields of
//! the reference that such a packet changes.

use crate::explain::meant;
use crate::other::read_first;
use crate::reference::Previous;
use crate::reply::Delivered;
use crate::state::FullContext;
use crate::tries::{check_of, is_short};
use arrayvec::ArrayVec;
use rohc_forms::Form;
use rohc_frame::Forward;
use rohc_header::{Dynamic, head_of};

impl FullContext {
    ghost use Rattle.std.specs.Prelude.{◌≡◌, ◌≢◌, ◌<◌, ◌≤◌, ℕ, List, length, Some, is_some, Ok, Err, true, false, IfSome, IfNone};
    ghost use Rattle.rohc_header.specs.Original.{IsOriginal, longest_payload};
    ghost use Rattle.rohc_header.specs.Prepared.{IsPrepared};
    ghost use Rattle.rohc_chain.specs.Good.{IsGoodDynamic};
    ghost use Rattle.rohc_frame.specs.Reading.{header_of};
    ghost use Rattle.rohc_forms.specs.Content.{Content};
    ghost use Rattle.rohc_forms.specs.Packets.{IsOther, content};
    ghost use Rattle.rohc_context.specs.Settings.{Limits};
    ghost use Rattle.rohc_context.specs.declared.state.State.TheVariants.{Full as Level};
    ghost use Rattle.rohc_context.specs.Window.{and_outcome, outcomes};
    ghost use Rattle.rohc_context.specs.Record.{FullContext as Left, reference_of, previous_of, state_of};
    ghost use Rattle.rohc_context.specs.Saved.{AreRegisters};
    ghost use Rattle.rohc_context.specs.NextReference.{with_numbers};
    ghost use Rattle.rohc_context.specs.Explains.{Explained};
    ghost use Rattle.rohc_context.specs.Read.{try_of};
    ghost use Rattle.rohc_context.specs.declared.fault.Fault.TheVariants.{Unfit};
    ghost use Rattle.rohc_context.specs.Tries.{Acceptance, Fits, Misses, Verdict, check_for, third_tries, full_tries};
    ghost use Rattle.rohc_context.specs.Repaired.{IsRepaired};
    ghost use Rattle.rohc_context.specs.Update.{said_under, Judges, MissesFirst, updated};

    /// The header with these fields, if its check is the packet's, of the width that packets of this format carry.
    ///
    /// The payload is at most 65,495 octets. The registers of the reference are those of a header with these
    /// fields, and what is prepared stays of it.
    #[inline(always)]
    pub(crate) fn rebuild(&self, moving: &Dynamic, form: &Form<'_>) -> Option<ArrayVec<u8, 40>>
        requires payload { length form.now.payload.now ≤ longest_payload }
        requires good { IsGoodDynamic moving.now }
        requires registers { AreRegisters self.now.fixed moving.now self.now.reference.saved }
        requires prepared { IsPrepared self.now.fixed moving.now self.now.prepared }
        ensures fits { IfSome result (λ head. IsOriginal self.now.fixed moving.now (length form.now.payload.now) head.items
            × (check_for form.now.kind head.items ≡ form.now.check)) }
        ensures misses { IfNone result ((octets : List ℕ) × IsOriginal self.now.fixed moving.now (length form.now.payload.now) octets
            × (check_for form.now.kind octets ≢ form.now.check)) }
    {
        let head = head_of(
            &self.fixed,
            &self.prepared,
            moving,
            form.payload.len() as u16,
        );
        if check_of(head.as_slice(), self.reference.saved, form.kind) != form.check {
            return None;
        }
        Some(head)
    }

    /// Takes these numbers into the reference, and counts a success.
    #[inline(always)]
    fn step_to(&mut self, moving: &Dynamic)
        requires { IsGoodDynamic moving.now }
        ensures { state_of (Level self.new) ≡ Left self.old.fixed
            (record { moving = with_numbers self.old.reference.moving moving.now; carries_sum = self.old.reference.carries_sum })
            (previous_of self.old) (and_outcome false (outcomes self.old.windows.0)) }
    {
        self.reference.moving.sn = moving.sn;
        self.reference.moving.ts = moving.ts;
        self.reference.moving.id = moving.id;
        self.reference.moving.udp_sum = moving.udp_sum;
        self.windows.0.push(false);
    }

    /// Keeps the reference as the previous one, takes these numbers into the reference, and counts a success.
    #[inline(always)]
    pub(crate) fn follow(&mut self, moving: &Dynamic)
        requires { IsGoodDynamic moving.now }
        ensures { state_of (Level self.new) ≡ Left self.old.fixed
            (record { moving = with_numbers self.old.reference.moving moving.now; carries_sum = self.old.reference.carries_sum })
            (Some (reference_of self.old.reference)) (and_outcome false (outcomes self.old.windows.0)) }
    {
        Previous::keep(&mut self.previous, &self.reference);
        self.step_to(moving);
    }

    /// Takes a packet without an extension 3 by the try whose sequence number is moved on by `shift`, if it fits, and
    /// returns its header. Otherwise the context stays as it was.
    #[inline(always)]
    pub(crate) fn take_shifted(&mut self, shift: u32, form: &Form<'_>) -> Option<ArrayVec<u8, 40>>
        requires shift { shift ≤ 65536 }
        requires plain { is_some form.now.values ≡ false }
        requires payload { length form.now.payload.now ≤ longest_payload }
        ensures taken { IfSome result (λ head. (h : Explained)
            × Fits self.old.fixed (try_of self.old.reference shift) (content form.now) h × (head.items ≡ h.octets)
            × (state_of (Level self.new) ≡ updated self.old.fixed (reference_of self.old.reference) (outcomes self.old.windows.0)
            (record { content = content form.now; reference = reference_of self.old.reference; header = h }))) }
        ensures long { IfSome result (λ head. length head.items ≡ 40) }
        ensures misses { IfNone result (Misses self.old.fixed (try_of self.old.reference shift) (content form.now)) }
        ensures stays { IfNone result (self.new ≡ self.old) }
    {
        let moving = meant(&self.reference, shift, form);
        let Some(head) = self.rebuild(&moving, form) else {
            return None;
        };
        self.follow(&moving);
        Some(head)
    }

    /// Takes a packet without an extension 3 by the third try, if it fits, and returns its header. The previous reference,
    /// which differs from the reference only in its numbers, stays the previous one. Otherwise the context stays as it was.
    pub(crate) fn take_back(
        &mut self,
        previous: Previous,
        form: &Form<'_>,
    ) -> Option<ArrayVec<u8, 40>>
        requires previous { self.old.previous ≡ Some previous }
        requires alike { previous.alike ≡ true }
        requires plain { is_some form.now.values ≡ false }
        requires payload { length form.now.payload.now ≤ longest_payload }
        ensures taken { IfSome result (λ head. (a : Acceptance)
            × Verdict self.old.fixed (content form.now) (third_tries (previous_of self.old) (content form.now)) (Ok a)
            × (head.items ≡ a.header.octets) × (a.content ≡ content form.now)
            × (state_of (Level self.new) ≡ updated self.old.fixed (reference_of self.old.reference) (outcomes self.old.windows.0) a)) }
        ensures unfit { IfNone result (Verdict self.old.fixed (content form.now) (third_tries (previous_of self.old) (content form.now)) (Err Unfit)) }
        ensures stays { IfNone result (self.new ≡ self.old) }
    {
        if !is_short(form.kind) {
            return None;
        }
        let before = previous.beside(&self.reference);
        let moving = meant(&before, 0, form);
        let Some(head) = self.rebuild(&moving, form) else {
            return None;
        };
        self.step_to(&moving);
        Some(head)
    }

    /// Takes a UO-0 that fits by the first try, and returns what it was rebuilt to. Otherwise the context stays as it was.
    #[inline(always)]
    pub(crate) fn first_try<'a>(&mut self, forward: &Forward<'a>) -> Option<Delivered<'a>>
        requires first { forward.now.first < 0x80 }
        ensures taken { IfSome result (λ packet. (a : Acceptance)
            × ((l : Limits) (passed : ℕ) → Judges self.old.fixed (full_tries l passed (reference_of self.old.reference) (previous_of self.old))
            (said_under (header_of forward.now) (reference_of self.old.reference)) (Ok a))
            × (packet.head.items ≡ a.header.octets) × (packet.payload.now ≡ a.content.payload)
            × (state_of (Level self.new) ≡ updated self.old.fixed (reference_of self.old.reference) (outcomes self.old.windows.0) a)) }
        ensures first { IfSome result (λ packet. (c : Content) × (said_under (header_of forward.now) (reference_of self.old.reference) ≡ Ok c)
            × IsRepaired self.old.fixed (reference_of self.old.reference) c false) }
        ensures long { IfSome result (λ packet. length packet.head.items ≡ 40) }
        ensures missed { IfNone result (MissesFirst self.old.fixed (reference_of self.old.reference) (said_under (header_of forward.now) (reference_of self.old.reference))) }
        ensures stays { IfNone result (self.new ≡ self.old) }
    {
        let Ok(form) = read_first(forward, &self.reference) else {
            return None;
        };
        let Some(head) = self.take_shifted(0, &form) else {
            return None;
        };
        Some(Delivered {
            head,
            payload: form.payload,
        })
    }
}
