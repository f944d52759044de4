//! What a packet of kind Other leads to in profile 0x0001 (RFC 3095 5.7.1 to 5.7.5).

ghost use Rattle.std.specs.Prelude.{◌≡◌, ◌≢◌, ◌<◌, ◌≤◌, List, IfOk, IfErr, Ok, Err, false, is_some, length};
ghost use Rattle.std.specs.Result.{result_map_both};
ghost use Rattle.rohc_frame.specs.Reading.{header_of};
ghost use Rattle.rohc_header.specs.Original.{longest_payload};
ghost use Rattle.rohc_header.specs.declared.fields.Static.{Static};
ghost use Rattle.rohc_forms.specs.Content.{Content};
ghost use Rattle.rohc_forms.specs.Packets.{IsOther, content};
ghost use Rattle.rohc_context.specs.declared.fault.Fault.TheVariants.{Unfit};
ghost use Rattle.rohc_context.specs.Record.{reference_of};
ghost use Rattle.rohc_context.specs.Tries.{Try};
ghost use Rattle.rohc_context.specs.Update.{said_under, Judges};

use crate::fault::Fault;
use crate::next::{kept_previous, next_reference};
use crate::reference::Reference;
use crate::refusal::Refusal;
use crate::reply::{Delivered, Reply};
use crate::settings::Settings;
use crate::state::{FullContext, StaticContext};
use crate::tries::{Accepted, attempt};
use crate::window::Window;
use arrayvec::ArrayVec;
use rohc_forms::{Form, FormRefusal, read_form, read_uo_0};
use rohc_frame::Forward;
use rohc_header::{LONGEST_PAYLOAD, Prepared};

/// The content of a packet, or its fault: that of the reader, or that the rebuilt packet would be too long.
#[inline(always)]
fn short<'a>(form: Result<Form<'a>, FormRefusal>) -> Result<Form<'a>, Fault>
    ensures same { IfOk result (λ short. form.entry ≡ Ok short) }
    ensures short { IfOk result (λ short. length short.payload.now ≤ longest_payload) }
    ensures fault { IfErr result (λ e. (fixed : Static) (tries : Content → List Try) → Judges fixed tries (result_map_both content (λ e. e) form.entry) (Err e)) }
    ensures refused { IfErr result (λ e. e ≢ Unfit) }
{
    let form = form?;
    if form.payload.len() > LONGEST_PAYLOAD {
        return Err(Fault::Refused(Refusal::TooLong));
    }
    Ok(form)
}

/// Decodes a packet of kind Other with the reference's RND, UDP checksum and stride. It is a fault if the rebuilt
/// packet would be too long.
#[inline(always)]
pub(crate) fn read<'a>(forward: &Forward<'a>, reference: &Reference) -> Result<Form<'a>, Fault>
    requires { IsOther forward.now.kind }
    ensures read { IfOk result (λ form. said_under (header_of forward.now) (reference_of reference.now) ≡ Ok (content form)) }
    ensures short { IfOk result (λ form. length form.payload.now ≤ longest_payload) }
    ensures fault { IfErr result (λ e. (fixed : Static) (tries : Content → List Try) → Judges fixed tries (said_under (header_of forward.now) (reference_of reference.now)) (Err e)) }
    ensures refused { IfErr result (λ e. e ≢ Unfit) }
{
    let kept = &reference.moving;
    short(read_form(
        forward,
        kept.rnd,
        reference.carries_sum,
        kept.stride.is_some(),
    ))
}

/// Decodes a UO-0, which is tried first, as `read` does.
#[inline(always)]
pub(crate) fn read_first<'a>(
    forward: &Forward<'a>,
    reference: &Reference,
) -> Result<Form<'a>, Fault>
    requires { forward.now.first < 0x80 }
    ensures read { IfOk result (λ form. said_under (header_of forward.now) (reference_of reference.now) ≡ Ok (content form)) }
    ensures short { IfOk result (λ form. length form.payload.now ≤ longest_payload) }
    ensures plain { IfOk result (λ form. is_some form.values ≡ false) }
    ensures fault { IfErr result (λ e. (fixed : Static) (tries : Content → List Try) → Judges fixed tries (said_under (header_of forward.now) (reference_of reference.now)) (Err e)) }
{
    let kept = &reference.moving;
    short(read_uo_0(
        forward,
        kept.rnd,
        reference.carries_sum,
        kept.stride.is_some(),
    ))
}

/// The rebuilt packet, with this header.
fn packet<'a>(accepted: &Accepted, form: &Form<'a>) -> Delivered<'a>
    ensures head { result.head.items ≡ accepted.now.header.header.octets }
    ensures payload { result.payload.now ≡ form.now.payload.now }
{
    Delivered {
        head: ArrayVec::from(accepted.header.header.octets),
        payload: form.payload,
    }
}

impl FullContext {
    ghost use Rattle.std.specs.Prelude.{◌≡◌, ◌≤◌, Result, true, false, is_some, length, None, IfSome, IfNone, IfOk, IfErr, Ok, Err};
    ghost use Rattle.rohc_context.specs.declared.fault.Fault.{Fault};
    ghost use Rattle.rohc_frame.specs.Reading.{header_of};
    ghost use Rattle.rohc_header.specs.Original.{longest_payload};
    ghost use Rattle.rohc_forms.specs.Packets.{IsOther, content};
    ghost use Rattle.rohc_context.specs.declared.fault.Fault.TheVariants.{Unfit};
    ghost use Rattle.rohc_context.specs.declared.state.State.TheVariants.{Full as Level};
    ghost use Rattle.rohc_context.specs.Settings.{AreGood, limits};
    ghost use Rattle.rohc_context.specs.Window.{outcomes};
    ghost use Rattle.rohc_context.specs.Record.{reference_of, previous_of, state_of};
    ghost use Rattle.rohc_context.specs.Previous.{SharesNumbering};
    ghost use Rattle.rohc_context.specs.Response.{response_of, delivered};
    ghost use Rattle.rohc_context.specs.Read.{acceptance_of, IsSound};
    ghost use Rattle.rohc_context.specs.Tries.{Acceptance, Misses, Verdict, unshifted, third_tries, full_tries};
    ghost use Rattle.rohc_context.specs.Repaired.{IsRepaired};
    ghost use Rattle.rohc_context.specs.Update.{said_under, Judges, MissesFirst, updated};

    /// Takes a packet of kind Other, `passed` milliseconds after the last accepted arrival, and writes the rebuilt
    /// packet into the reply. Returns whether the packet misses by the first try. `tried` is whether it is known to do so. If
    /// it returns a fault, this context stays as it was, and what `reply` holds means nothing.
    pub(crate) fn update<'a>(
        &mut self,
        settings: &Settings,
        passed: u64,
        forward: &Forward<'a>,
        tried: bool,
        reply: &mut Reply<'a>,
    ) -> Result<bool, Fault>
        requires kind { IsOther forward.now.kind }
        requires good { AreGood settings.now }
        requires missed { tried ≡ true → MissesFirst self.old.fixed (reference_of self.old.reference) (said_under (header_of forward.now) (reference_of self.old.reference)) }
        ensures taken { IfOk result (λ _. (a : Acceptance)
            × Judges self.old.fixed (full_tries (limits settings.now) passed (reference_of self.old.reference) (previous_of self.old))
            (said_under (header_of forward.now) (reference_of self.old.reference)) (Ok a)
            × (response_of reply.new ≡ delivered a.header.octets a.content.payload None)
            × (state_of (Level self.new) ≡ updated self.old.fixed (reference_of self.old.reference) (outcomes self.old.windows.0) a)) }
        ensures repaired { IfOk result (λ repaired. (c : Content) × (said_under (header_of forward.now) (reference_of self.old.reference) ≡ Ok c)
            × IsRepaired self.old.fixed (reference_of self.old.reference) c repaired) }
        ensures fault { IfErr result (λ e.
            Judges self.old.fixed (full_tries (limits settings.now) passed (reference_of self.old.reference) (previous_of self.old))
            (said_under (header_of forward.now) (reference_of self.old.reference)) (Err e)) }
        ensures stays { IfErr result (λ e. self.new ≡ self.old) }
    {
        let form = read(forward, &self.reference)?;
        // Only copies are lent to what isn't inlined, so that on the likely way what was read stays in registers.
        if form.values.is_some() {
            let extended = form;
            let (accepted, repaired) = self.accepted(settings, passed, &extended);
            return self.take(&extended, accepted, repaired, reply);
        }
        if let Some((head, repaired)) = self.take_plain(settings, passed, &form, tried) {
            *reply = Reply::delivered(head, form.payload, None);
            return Ok(repaired);
        }
        let left = form;
        self.take_third(&left, reply)
    }

    /// Takes a packet without an extension 3 by the third try, and writes the rebuilt packet into the reply. Returns that it
    /// misses by the first try. If it doesn't fit, the fault is `Unfit`, and this context stays as it was.
    fn take_third<'a>(&mut self, form: &Form<'a>, reply: &mut Reply<'a>) -> Result<bool, Fault>
        requires plain { is_some form.now.values ≡ false }
        requires payload { length form.now.payload.now ≤ longest_payload }
        ensures taken { IfOk result (λ _. (a : Acceptance)
            × Verdict self.old.fixed (content form.now) (third_tries (previous_of self.old) (content form.now)) (Ok a)
            × (response_of reply.new ≡ delivered a.header.octets a.content.payload None)
            × (state_of (Level self.new) ≡ updated self.old.fixed (reference_of self.old.reference) (outcomes self.old.windows.0) a)) }
        ensures repaired { IfOk result (λ repaired. repaired ≡ true) }
        ensures unfit { IfErr result (λ e. Verdict self.old.fixed (content form.now) (third_tries (previous_of self.old) (content form.now)) (Err e)) }
        ensures stays { IfErr result (λ e. self.new ≡ self.old) }
    {
        let Some(previous) = self.previous else {
            return Err(Fault::Unfit);
        };
        if !previous.alike {
            let accepted = self.third_try(form);
            return self.take(form, accepted, true, reply);
        }
        let Some(head) = self.take_back(previous, form) else {
            return Err(Fault::Unfit);
        };
        *reply = Reply::delivered(head, form.payload, None);
        Ok(true)
    }

    /// Takes a packet without an extension 3 by the first or the second try, if one fits, and returns its header and whether
    /// it misses by the first. Otherwise the context stays as it was. `tried` is whether it is known to miss by the first.
    #[inline(always)]
    fn take_plain(
        &mut self,
        settings: &Settings,
        passed: u64,
        form: &Form<'_>,
        tried: bool,
    ) -> Option<(ArrayVec<u8, 40>, bool)>
        requires good { AreGood settings.now }
        requires plain { is_some form.now.values ≡ false }
        requires payload { length form.now.payload.now ≤ longest_payload }
        requires missed { tried ≡ true → Misses self.old.fixed (unshifted (reference_of self.old.reference)) (content form.now) }
        ensures taken { IfSome result (λ p. (a : Acceptance)
            × Verdict self.old.fixed (content form.now) (full_tries (limits settings.now) passed (reference_of self.old.reference) (previous_of self.old) (content form.now)) (Ok a)
            × (p.0.items ≡ a.header.octets) × (a.content ≡ content form.now)
            × (state_of (Level self.new) ≡ updated self.old.fixed (reference_of self.old.reference) (outcomes self.old.windows.0) a)) }
        ensures repaired { IfSome result (λ p. IsRepaired self.old.fixed (reference_of self.old.reference) (content form.now) p.1) }
        ensures first { IfNone result (Misses self.old.fixed (unshifted (reference_of self.old.reference)) (content form.now)) }
        ensures misses { IfNone result ((verdict : Result Acceptance Fault) → Verdict self.old.fixed (content form.now) (third_tries (previous_of self.old) (content form.now)) verdict
            → Verdict self.old.fixed (content form.now) (full_tries (limits settings.now) passed (reference_of self.old.reference) (previous_of self.old) (content form.now)) verdict) }
        ensures stays { IfNone result (self.new ≡ self.old) }
    {
        if !tried {
            if let Some(head) = self.take_shifted(0, form) {
                return Some((head, false));
            }
        }
        let Some(shift) = self.second_shift(settings, passed, form) else {
            return None;
        };
        let Some(head) = self.take_shifted(shift, form) else {
            return None;
        };
        Some((head, true))
    }

    /// Updates the reference by an accepted header, and writes the rebuilt packet into the reply. Returns `repaired`. Without
    /// a header, the fault is `Unfit`, and this context stays as it was.
    fn take<'a>(
        &mut self,
        form: &Form<'a>,
        accepted: Option<Accepted>,
        repaired: bool,
        reply: &mut Reply<'a>,
    ) -> Result<bool, Fault>
        requires sound { IfSome accepted (λ a. IsSound self.now.fixed a) }
        requires near { IfSome accepted (λ a. SharesNumbering self.now.reference.moving a.reference.moving) }
        ensures taken { IfSome accepted (λ a. (result ≡ Ok repaired)
            × (response_of reply.new ≡ delivered a.header.header.octets form.now.payload.now None)
            × (state_of (Level self.new) ≡ updated self.old.fixed (reference_of self.old.reference) (outcomes self.old.windows.0) (acceptance_of (content form.now) a))) }
        ensures unfit { IfNone accepted ((result ≡ Err Unfit) × (self.new ≡ self.old)) }
    {
        let Some(accepted) = accepted else {
            return Err(Fault::Unfit);
        };
        let next = next_reference(form, &accepted);
        let prepared = Prepared::of(&self.fixed, &next.moving);
        self.previous = kept_previous(&self.reference, &next, &accepted);
        self.reference = next;
        self.prepared = prepared;
        self.windows.0.push(false);
        let packet = packet(&accepted, form);
        *reply = Reply::delivered(packet.head, packet.payload, None);
        Ok(repaired)
    }
}

impl StaticContext {
    ghost use Rattle.std.specs.Prelude.{◌≡◌, IfOk, IfErr, Ok, Err};
    ghost use Rattle.rohc_frame.specs.Reading.{header_of};
    ghost use Rattle.rohc_forms.specs.Packets.{IsOther};
    ghost use Rattle.rohc_context.specs.declared.state.State.TheVariants.{Full as Level};
    ghost use Rattle.rohc_context.specs.Record.{reference_of, state_of};
    ghost use Rattle.rohc_context.specs.Saved.{IsKept};
    ghost use Rattle.rohc_context.specs.Tries.{Acceptance, static_tries};
    ghost use Rattle.rohc_context.specs.NextReference.{next_reference};
    ghost use Rattle.rohc_context.specs.Update.{said_under, Judges, promoted};

    /// Takes a packet of kind Other against this reference. Returns the Full Context that it leads to and the
    /// rebuilt packet, or its fault.
    pub(crate) fn promote<'a>(
        &self,
        reference: &Reference,
        forward: &Forward<'a>,
    ) -> Result<(FullContext, Delivered<'a>), Fault>
        requires kind { IsOther forward.now.kind }
        requires kept { IsKept self.now.fixed reference.now.moving reference.now.saved }
        ensures taken { IfOk result (λ x. (a : Acceptance)
            × Judges self.now.fixed (λ c. static_tries (reference_of reference.now))
            (said_under (header_of forward.now) (reference_of reference.now)) (Ok a)
            × (x.1.head.items ≡ a.header.octets) × (x.1.payload.now ≡ a.content.payload)
            × (state_of (Level x.0) ≡ promoted self.now.fixed a) × (reference_of x.0.reference ≡ next_reference a)) }
        ensures fault { IfErr result (λ e.
            Judges self.now.fixed (λ c. static_tries (reference_of reference.now))
            (said_under (header_of forward.now) (reference_of reference.now)) (Err e)) }
    {
        let form = read(forward, reference)?;
        let Some(accepted) = attempt(&self.fixed, reference, 0, &form) else {
            return Err(Fault::Unfit);
        };
        let next = next_reference(&form, &accepted);
        let context = FullContext {
            fixed: self.fixed,
            reference: next,
            prepared: Prepared::of(&self.fixed, &next.moving),
            previous: None,
            windows: (Window::empty(), Window::empty()),
        };
        Ok((context, packet(&accepted, &form)))
    }
}
