//! One event of one context.

use crate::due::Due;
use crate::failures::is_uor_2;
use crate::fault::Fault;
use crate::ir::renewal;
use crate::ir_dyn::{plain_refusal, refresh};
use crate::record::Context;
use crate::refusal::Refusal;
use crate::reply::{Delivered, Reply};
use crate::settings::Settings;
use crate::state::State;
use crate::window::Window;
use rohc_chain::ChainRefusal;
use rohc_frame::{Forward, HeadKind};

impl Context {
    ghost use Rattle.std.specs.Prelude.{◌≡◌, ◌≤◌, length, Some, None, option_map, true, false, IfSome, IfNone, IfOk, IfErr, if◌then◌else◌};
    ghost use Rattle.rohc_frame.specs.Reading.{header_of};
    ghost use Rattle.rohc_frame.specs.declared.header.HeadKind.TheVariants.{IrDyn as KindIrDyn, Other as KindOther};
    ghost use Rattle.rohc_chain.specs.Packets.{IsIr, IsIrDyn, ir_at};
    ghost use Rattle.rohc_forms.specs.Packets.{IsOther};
    ghost use Rattle.rohc_context.specs.declared.refusal.Refusal.TheVariants.{StateTooLow as IsStateTooLow};
    ghost use Rattle.rohc_context.specs.Settings.{AreGood, limits};
    ghost use Rattle.rohc_context.specs.Record.{record_of, state_of, is_static};
    ghost use Rattle.rohc_context.specs.declared.settings.Settings.{Settings as Set};
    ghost use Rattle.rohc_context.specs.Response.{Response, response_of, delivered, refused};
    ghost use Rattle.rohc_context.specs.Update.{MissesIn};
    ghost use Rattle.rohc_context.specs.Failures.{after_low_state};
    ghost use Rattle.rohc_context.specs.Faults.{fault_of_chain};
    ghost use Rattle.rohc_context.specs.Outcomes.{fails, ends};
    ghost use Rattle.rohc_context.specs.Renewal.{Renews};
    ghost use Rattle.rohc_context.specs.Repaired.{RepairsBy, Repairs};
    ghost use Rattle.rohc_context.specs.Step.{LoneStep, HasMissed, Steps, Gives, Answers, arrival, counts_within};

    /// Takes the first arrival for a CID without a record. Returns the record that an IR makes and the answer.
    ///
    /// The settings are good, and the header has their CID kind and a CID of at most `max_cid`. `moment` is the
    /// arrival time in milliseconds. If the result is an `Err`, the arrival is refused for this reason, and no
    /// record is made.
    #[tactic(auto, unfolding(crate::specs::Step::LoneStep, crate::specs::Repaired::Repairs, crate::specs::Record::record_of))]
    pub fn first<'a>(
        settings: &Settings,
        moment: u64,
        forward: &Forward<'a>,
    ) -> Result<(Context, Reply<'a>), Refusal>
        requires good { AreGood settings.now }
        requires sized { forward.now.size ≡ settings.now.size }
        requires within { forward.now.cid ≤ settings.now.max_cid }
        ensures made { IfOk result (λ made. LoneStep None settings.now moment (header_of forward.now) (response_of made.1) (Some (record_of made.0))) }
        ensures refusal { IfErr result (λ e. LoneStep None settings.now moment (header_of forward.now) (refused e) None) }
        ensures unrepaired { (response : Response) → Repairs None settings.now moment (header_of forward.now) response false }
    {
        let HeadKind::Ir { .. } = forward.kind else {
            return Err(Refusal::NoContext);
        };
        match renewal(settings, forward, None) {
            Ok((state, reply)) => {
                let context = Context {
                    accepted: moment,
                    state,
                };
                Ok((context, reply))
            }
            Err(fault) => Err(fault.refusal()),
        }
    }

    /// Takes an arrival for a CID that has this record, updates the record, and returns the answer.
    ///
    /// The settings are good, and the header has their CID kind and a CID of at most `max_cid`. `moment` is the
    /// arrival time in milliseconds.
    pub fn arrive<'a>(
        &mut self,
        settings: &Settings,
        moment: u64,
        forward: &Forward<'a>,
    ) -> Reply<'a>
        requires good { AreGood settings.now }
        requires sized { forward.now.size ≡ settings.now.size }
        requires within { forward.now.cid ≤ settings.now.max_cid }
        ensures { LoneStep (Some (record_of self.old)) settings.now moment (header_of forward.now) (response_of result) (Some (record_of self.new)) }
    {
        let mut reply = Reply::refused(Refusal::NoContext);
        self.step(settings, moment, forward, false, &mut reply);
        reply
    }

    /// Takes a packet that begins as a UO-0 does and fits by the first try, if the record counts and is in Full Context, as
    /// nearly every packet does, and returns what it was rebuilt to: behind a header of 40 octets, without feedback. For any
    /// other packet the record stays as it was, and `step` takes it.
    ///
    /// It is the first half of `arrive`, under any settings with this `idle_ms`. It lends nothing to a call, so what it reads
    /// stays in registers, and where the compiler knows how a packet begins, it drops all other formats.
    #[inline(always)]
    #[tactic(auto, unfolding(crate::specs::Step::LoneStep, crate::specs::Step::HasMissed, crate::specs::Repaired::Repairs, crate::specs::Record::record_of))]
    pub fn take_first<'a>(
        &mut self,
        idle_ms: u32,
        moment: u64,
        forward: &Forward<'a>,
    ) -> Option<Delivered<'a>>
        requires kind { IsOther forward.now.kind }
        ensures taken { IfSome result (λ packet. (s : Set) → s.idle_ms ≡ idle_ms → LoneStep (Some (record_of self.old)) s moment (header_of forward.now)
            (delivered packet.head.items packet.payload.now None) (Some (record_of self.new))) }
        ensures first { IfSome result (λ packet. (s : Set) → s.idle_ms ≡ idle_ms → Repairs (Some (record_of self.old)) s moment (header_of forward.now)
            (delivered packet.head.items packet.payload.now None) false) }
        ensures long { IfSome result (λ packet. length packet.head.items ≡ 40) }
        ensures missed { IfNone result (HasMissed idle_ms moment (record_of self.old) (header_of forward.now)) }
        ensures stays { IfNone result (self.new ≡ self.old) }
    {
        if forward.first >= 0x80 || !self.counts(idle_ms, moment) {
            return None;
        }
        let State::Full(context) = &mut self.state else {
            return None;
        };
        let Some(packet) = context.first_try(forward) else {
            return None;
        };
        self.accepted = moment;
        Some(packet)
    }

    /// Takes an arrival of any kind as `arrive` does, and writes the answer over what `reply` held. Returns whether the
    /// packet is repaired: delivered by the second or the third try. `tried` is whether `take_first` left the packet: then
    /// the first try isn't made again.
    ///
    /// The settings are good. `moment` is the arrival time in milliseconds.
    #[inline(never)]
    #[tactic(auto, unfolding(crate::specs::Step::LoneStep, crate::specs::Step::HasMissed, crate::specs::Repaired::Repairs, crate::specs::Record::record_of))]
    pub fn step<'a>(
        &mut self,
        settings: &Settings,
        moment: u64,
        forward: &Forward<'a>,
        tried: bool,
        reply: &mut Reply<'a>,
    ) -> bool
        requires good { AreGood settings.now }
        requires missed { tried ≡ true → HasMissed settings.now.idle_ms moment (record_of self.old) (header_of forward.now) }
        ensures repaired { Repairs (Some (record_of self.old)) settings.now moment (header_of forward.now) (response_of reply.new) result }
        ensures step { LoneStep (Some (record_of self.old)) settings.now moment (header_of forward.now) (response_of reply.new) (Some (record_of self.new)) }
    {
        let counts = self.counts(settings.idle_ms, moment);
        match forward.kind {
            HeadKind::Ir { .. } => {
                self.renew(settings, moment, forward, counts, reply);
                false
            }
            HeadKind::IrDyn | HeadKind::Other if !counts => {
                *reply = Reply::refused(Refusal::NoContext);
                false
            }
            HeadKind::IrDyn => {
                self.refresh(settings, moment, forward, reply);
                false
            }
            HeadKind::Other => {
                let tried = tried && forward.first < 0x80;
                self.update(settings, moment, forward, tried, reply)
            }
        }
    }

    /// Whether the record counts: fewer than `idle_ms` milliseconds have passed since its last accepted arrival,
    /// or `idle_ms` is 0.
    #[tactic(auto, unfolding(crate::specs::Record::record_of))]
    pub(crate) fn counts(&self, idle_ms: u32, moment: u64) -> bool
        ensures { result ≡ counts_within idle_ms moment (record_of self.now) }
    {
        idle_ms == 0 || moment.saturating_sub(self.accepted) < u64::from(idle_ms)
    }

    /// The state, if the record counts.
    fn counting(&self, counts: bool) -> Option<State>
        ensures { option_map state_of result ≡ (if counts then Some (state_of self.now.state) else None) }
    {
        if counts { Some(self.state) } else { None }
    }

    /// Takes an IR, whether the record counts or not, and writes the answer into the reply.
    #[tactic(auto, unfolding(crate::specs::Record::record_of))]
    #[inline(never)]
    fn renew<'a>(
        &mut self,
        settings: &Settings,
        moment: u64,
        forward: &Forward<'a>,
        counts: bool,
        reply: &mut Reply<'a>,
    )
        requires kind { IsIr forward.now.kind }
        requires good { AreGood settings.now }
        ensures { Answers settings.now (header_of forward.now) (Renews (arrival settings.now moment (header_of forward.now)) (if counts then Some (record_of self.old) else None) (Some (record_of self.old)) (ir_at (header_of forward.now)))
            (response_of reply.new) (Some (record_of self.new)) }
    {
        let renewed = renewal(settings, forward, self.counting(counts));
        match renewed {
            Ok((state, made)) => {
                self.state = state;
                self.accepted = moment;
                *reply = made;
            }
            Err(fault) => {
                if counts {
                    self.end(settings, moment, forward, fault, reply);
                } else {
                    *reply = Reply::refused(fault.refusal());
                }
            }
        }
    }

    /// Takes an IR-DYN, and writes the answer into the reply. The record counts.
    #[tactic(auto, unfolding(crate::specs::Record::record_of))]
    #[inline(never)]
    fn refresh<'a>(
        &mut self,
        settings: &Settings,
        moment: u64,
        forward: &Forward<'a>,
        reply: &mut Reply<'a>,
    )
        requires kind { IsIrDyn forward.now.kind }
        requires good { AreGood settings.now }
        ensures { Answers settings.now (header_of forward.now) (Steps KindIrDyn (Some (record_of self.old)) (Some (record_of self.old)) (arrival settings.now moment (header_of forward.now))) (response_of reply.new) (Some (record_of self.new)) }
    {
        match &self.state {
            State::NoContext(_) => self.refuse_low(settings, moment, forward, reply),
            State::Plain => {
                let refusal = plain_refusal(forward);
                self.end(settings, moment, forward, Fault::from(refusal), reply);
            }
            State::Static(context) => {
                let refreshed = refresh(
                    settings,
                    forward,
                    context.fixed,
                    context.reference,
                    Window::empty(),
                );
                self.settle(settings, moment, forward, refreshed, reply);
            }
            State::Full(context) => {
                let refreshed = refresh(
                    settings,
                    forward,
                    context.fixed,
                    Some(context.reference),
                    context.windows.0.and(false),
                );
                self.settle(settings, moment, forward, refreshed, reply);
            }
        }
    }

    /// Applies what an IR-DYN leads to, or its refusal, and writes the answer into the reply. The record counts.
    #[tactic(auto, unfolding(crate::specs::Record::record_of))]
    fn settle<'a>(
        &mut self,
        settings: &Settings,
        moment: u64,
        forward: &Forward<'a>,
        refreshed: Result<(State, Reply<'a>), ChainRefusal>,
        reply: &mut Reply<'a>,
    )
        requires good { AreGood settings.now }
        ensures reply { IfOk refreshed.entry (λ x. response_of reply.new ≡ response_of x.1) }
        ensures record { IfOk refreshed.entry (λ x. record_of self.new ≡ record { accepted = moment; state = state_of x.0 }) }
        ensures refused { IfErr refreshed.entry (λ e. Gives settings.now (header_of forward.now) (ends (arrival settings.now moment (header_of forward.now)) (Some (record_of self.old)) (Some (record_of self.old))
            (fault_of_chain e)) (response_of reply.new) (Some (record_of self.new))) }
    {
        match refreshed {
            Ok((state, made)) => {
                self.state = state;
                self.accepted = moment;
                *reply = made;
            }
            Err(refusal) => self.end(settings, moment, forward, Fault::from(refusal), reply),
        }
    }

    /// Takes a packet of kind Other, and writes the answer into the reply. Returns whether the packet is repaired. The record
    /// counts. `tried` is whether the packet is known to miss by the first try in Full Context.
    #[tactic(auto, unfolding(crate::specs::Record::record_of))]
    fn update<'a>(
        &mut self,
        settings: &Settings,
        moment: u64,
        forward: &Forward<'a>,
        tried: bool,
        reply: &mut Reply<'a>,
    ) -> bool
        requires kind { IsOther forward.now.kind }
        requires good { AreGood settings.now }
        requires missed { tried ≡ true → MissesIn (record_of self.old).state (header_of forward.now) }
        ensures repaired { RepairsBy (Some (record_of self.old)) KindOther (header_of forward.now) (response_of reply.new) result }
        ensures step { Answers settings.now (header_of forward.now) (Steps KindOther (Some (record_of self.old)) (Some (record_of self.old)) (arrival settings.now moment (header_of forward.now))) (response_of reply.new) (Some (record_of self.new)) }
    {
        let passed = moment.saturating_sub(self.accepted);
        match &mut self.state {
            State::Plain => {
                *reply = Reply::normal(forward.first, forward.rest);
                self.accepted = moment;
                false
            }
            State::NoContext(_) => {
                self.refuse_low(settings, moment, forward, reply);
                false
            }
            State::Static(_) => {
                self.promote(settings, moment, forward, reply);
                false
            }
            State::Full(context) => match context.update(settings, passed, forward, tried, reply) {
                Ok(repaired) => {
                    self.accepted = moment;
                    repaired
                }
                Err(found) => {
                    self.end(settings, moment, forward, found, reply);
                    false
                }
            },
        }
    }

    /// Takes a packet of kind Other in Static Context: a UOR-2 against the reference, if there is one.
    #[tactic(auto, unfolding(crate::specs::Record::record_of))]
    #[inline(never)]
    fn promote<'a>(
        &mut self,
        settings: &Settings,
        moment: u64,
        forward: &Forward<'a>,
        reply: &mut Reply<'a>,
    )
        requires kind { IsOther forward.now.kind }
        requires good { AreGood settings.now }
        requires state { is_static self.old.state ≡ true }
        ensures { Answers settings.now (header_of forward.now) (Steps KindOther (Some (record_of self.old)) (Some (record_of self.old)) (arrival settings.now moment (header_of forward.now))) (response_of reply.new) (Some (record_of self.new)) }
    {
        let State::Static(context) = &self.state else {
            return self.refuse_low(settings, moment, forward, reply);
        };
        let Some(reference) = &context.reference else {
            return self.refuse_low(settings, moment, forward, reply);
        };
        if !is_uor_2(forward.first) {
            return self.refuse_low(settings, moment, forward, reply);
        }
        match context.promote(reference, forward) {
            Ok((context, packet)) => {
                let due = Due::Ack(context.reference.moving.sn);
                let feedback = due.feedback(settings.mode, forward);
                self.state = State::Full(context);
                self.accepted = moment;
                *reply = Reply::delivered(packet.head, packet.payload, feedback);
            }
            Err(fault) => self.end(settings, moment, forward, fault, reply),
        }
    }

    /// Refuses a packet that the state doesn't take.
    #[tactic(auto, unfolding(crate::specs::Record::record_of))]
    #[inline(never)]
    fn refuse_low<'a>(
        &mut self,
        settings: &Settings,
        moment: u64,
        forward: &Forward<'a>,
        reply: &mut Reply<'a>,
    )
        requires good { AreGood settings.now }
        ensures { Answers settings.now (header_of forward.now) (λ ending. ending ≡ fails (record_of self.old) IsStateTooLow
            (after_low_state (limits settings.now) moment (record_of self.old).state)) (response_of reply.new) (Some (record_of self.new)) }
    {
        let (state, due) = self.state.after_low_state(settings, moment);
        self.state = state;
        *reply = Reply::failed(Refusal::StateTooLow, due.feedback(settings.mode, forward));
    }

    /// Applies a fault of an arrival. The record counts.
    #[tactic(auto, unfolding(crate::specs::Record::record_of))]
    #[inline(never)]
    fn end<'a>(
        &mut self,
        settings: &Settings,
        moment: u64,
        forward: &Forward<'a>,
        fault: Fault,
        reply: &mut Reply<'a>,
    )
        requires good { AreGood settings.now }
        ensures { Gives settings.now (header_of forward.now) (ends (arrival settings.now moment (header_of forward.now)) (Some (record_of self.old)) (Some (record_of self.old)) fault)
            (response_of reply.new) (Some (record_of self.new)) }
    {
        match fault {
            Fault::Refused(refusal) => *reply = Reply::refused(refusal),
            Fault::Unfit => {
                let (state, due) = self.state.after_check(settings, moment);
                self.state = state;
                *reply = Reply::failed(Refusal::Check, due.feedback(settings.mode, forward));
            }
        }
    }
}
