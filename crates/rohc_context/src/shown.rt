//! The tries of a packet in their order, each with what it gives or why it isn't made, without taking the packet (RFC 3095
//! 5.3.2.2.4, 5.3.2.2.5).

ghost use Rattle.std.specs.Prelude.{◌≡◌, ◌≤◌, [], ◌∷◌, map, length, Err};
ghost use Rattle.rohc_header.specs.declared.fields.Static.{Static};
ghost use Rattle.rohc_header.specs.Original.{longest_payload};
ghost use Rattle.rohc_chain.specs.Good.{IsGoodStatic};
ghost use Rattle.rohc_forms.specs.Content.{Content};
ghost use Rattle.rohc_forms.specs.Packets.{content};
ghost use Rattle.rohc_context.specs.Saved.{IsKept};
ghost use Rattle.rohc_context.specs.Read.{try_of};
ghost use Rattle.rohc_context.specs.Shown.{fits_by, Makes, IsShown, place_of, places, result_of};

use crate::explain::explain;
use crate::failures::is_uor_2;
use crate::fault::Fault;
use crate::other::read;
use crate::record::Context;
use crate::reference::Reference;
use crate::refusal::Refusal;
use crate::settings::Settings;
use crate::state::{FullContext, State, StaticContext};
use crate::tries::{check_of, is_short};
use rohc_forms::Form;
use rohc_frame::{Forward, HeadKind};
use rohc_header::{Dynamic, Header, Static};

/// The reference of a try.
#[derive(Clone, Copy, PartialEq, Eq)]
pub enum Against {
    /// The last accepted header.
    Reference,
    /// The one before it.
    Previous,
}

/// Why a try isn't made.
#[derive(Clone, Copy, PartialEq, Eq)]
pub enum NotMade {
    /// A try before it fits.
    Settled,
    /// Static Context has one try.
    OneTry,
    /// The packet has a check of 7 bits, and so one try.
    LongCheck,
    /// The SN bits take `needed` milliseconds to wrap around, and `passed` passed since the last accepted arrival.
    TooSoon { needed: u64, passed: u64 },
    /// There is no previous reference.
    NoPrevious,
}

/// What a packet means by a try.
#[derive(Clone, Copy)]
pub struct Meant {
    /// The fields of its header, with the RND, NBO and stride in force.
    pub moving: Dynamic,
    /// Its header.
    pub header: Header,
    /// The check of that header, of the width that packets of this format carry.
    pub has: u8,
    /// The check in the packet.
    pub needs: u8,
}

/// A try of a packet.
#[derive(Clone, Copy)]
pub struct Try {
    /// The reference.
    pub against: Against,
    /// How far the sequence number of the reference is moved on.
    pub shift: u32,
    /// What the packet means by it, or why it isn't made.
    pub result: Result<Meant, NotMade>,
}

/// What a context makes of a packet of kind Other.
#[derive(Clone, Copy)]
pub struct Tries<'a> {
    /// What the packet says under the reference.
    pub form: Form<'a>,
    /// The three tries in their order: against the reference, against the reference moved on, against the previous one.
    pub tries: [Try; 3],
}

/// Why a context makes no try of a packet.
#[derive(Clone, Copy, PartialEq, Eq)]
pub enum Untried {
    /// The packet is an IR or an IR-DYN.
    Whole,
    /// The context is of profile 0x0000, and delivers the packet as it is.
    Plain,
    /// The packet is refused first.
    Refused(Refusal),
}

impl From<Fault> for Untried {
    ghost use Rattle.std.specs.Prelude.{◌≡◌};
    ghost use Rattle.rohc_context.specs.declared.shown.Untried.TheVariants.{Refused};
    ghost use Rattle.rohc_context.specs.Outcomes.{refusal_of};

    ghost from_gives = { λ fault untried. untried ≡ Refused (refusal_of fault) };

    /// A packet that can't be read is refused.
    fn from(fault: Fault) -> Untried {
        Untried::Refused(fault.refusal())
    }
}

impl Meant {
    ghost use Rattle.std.specs.Prelude.{◌≡◌};
    ghost use Rattle.rohc_context.specs.Shown.{is_fit};

    /// Whether the header's check is the packet's.
    pub fn fits(&self) -> bool
        ensures { result ≡ is_fit self.now }
    {
        self.has == self.needs
    }
}

impl Try {
    ghost use Rattle.std.specs.Prelude.{◌≡◌};
    ghost use Rattle.rohc_context.specs.Shown.{fits_by};

    /// Whether it is made and fits.
    pub fn fits(&self) -> bool
        ensures { result ≡ fits_by self.now.result }
    {
        is_fit(&self.result)
    }
}

/// Whether a result is of a try that is made and fits.
fn is_fit(tried: &Result<Meant, NotMade>) -> bool
    ensures { result ≡ fits_by tried.now }
{
    match tried {
        Ok(meant) => meant.fits(),
        Err(_) => false,
    }
}

/// What the packet means against a reference whose sequence number is moved on by `shift`.
fn meant_by(fixed: &Static, reference: &Reference, shift: u32, form: &Form<'_>) -> Meant
    requires payload { length form.now.payload.now ≤ longest_payload }
    requires shift { shift ≤ 65536 }
    requires good { IsGoodStatic fixed.now }
    requires kept { IsKept fixed.now reference.now.moving reference.now.saved }
    ensures { Makes fixed.now (content form.now) (try_of reference.now shift) result }
{
    let explained = explain(fixed, reference, shift, form);
    Meant {
        moving: explained.moving,
        header: explained.header,
        has: check_of(&explained.header.octets, explained.saved, form.kind),
        needs: form.check,
    }
}

/// The result of a try that isn't made for this reason, or because a try before it fits.
fn not_made(settled: bool, reason: NotMade) -> Result<Meant, NotMade>
    ensures { (fixed : Static) (c : Content) → IsShown fixed c settled (Err reason) result }
{
    if settled {
        Err(NotMade::Settled)
    } else {
        Err(reason)
    }
}

/// The three tries with these results.
fn in_order(
    form: &Form<'_>,
    first: Result<Meant, NotMade>,
    second: Result<Meant, NotMade>,
    third: Result<Meant, NotMade>,
) -> [Try; 3]
    ensures placed { map place_of result ≡ places (content form.now) }
    ensures results { map result_of result ≡ first ∷ second ∷ third ∷ [] }
{
    [
        Try {
            against: Against::Reference,
            shift: 0,
            result: first,
        },
        Try {
            against: Against::Reference,
            shift: 1 << form.sn.count,
            result: second,
        },
        Try {
            against: Against::Previous,
            shift: 0,
            result: third,
        },
    ]
}

impl FullContext {
    ghost use Rattle.std.specs.Prelude.{◌≡◌, ◌≤◌, length};
    ghost use Rattle.rohc_frame.specs.Reading.{header_of};
    ghost use Rattle.rohc_header.specs.Original.{longest_payload};
    ghost use Rattle.rohc_forms.specs.Packets.{IsOther, content};
    ghost use Rattle.rohc_context.specs.declared.state.State.TheVariants.{Full as Level};
    ghost use Rattle.rohc_context.specs.Settings.{AreGood, limits};
    ghost use Rattle.rohc_context.specs.Record.{reference_of, previous_of, state_of};
    ghost use Rattle.rohc_context.specs.Tries.{second_tries, third_tries};
    ghost use Rattle.rohc_context.specs.Shown.{plan, no_second, no_third, IsShown, ShowsBy};

    /// The second try: the SN bits wrapped around once.
    fn second(
        &self,
        settings: &Settings,
        passed: u64,
        form: &Form<'_>,
        settled: bool,
    ) -> Result<Meant, NotMade>
        requires good { AreGood settings.now }
        requires payload { length form.now.payload.now ≤ longest_payload }
        ensures { IsShown self.now.fixed (content form.now) settled
            (plan (second_tries (limits settings.now) passed (reference_of self.now.reference) (content form.now)) (no_second (limits settings.now) passed (content form.now)))
            result }
    {
        if settled {
            return Err(NotMade::Settled);
        }
        if !is_short(form.kind) {
            return Err(NotMade::LongCheck);
        }
        match self.second_shift(settings, passed, form) {
            Some(shift) => Ok(meant_by(&self.fixed, &self.reference, shift, form)),
            None => Err(NotMade::TooSoon {
                needed: u64::from(settings.packet_ms) << form.sn.count,
                passed,
            }),
        }
    }

    /// The third try: the last packet was accepted wrongly.
    fn third(&self, form: &Form<'_>, settled: bool) -> Result<Meant, NotMade>
        requires payload { length form.now.payload.now ≤ longest_payload }
        ensures { IsShown self.now.fixed (content form.now) settled
            (plan (third_tries (previous_of self.now) (content form.now)) (no_third (content form.now))) result }
    {
        if settled {
            return Err(NotMade::Settled);
        }
        if !is_short(form.kind) {
            return Err(NotMade::LongCheck);
        }
        match &self.previous {
            Some(previous) => {
                let before = previous.beside(&self.reference);
                Ok(meant_by(&self.fixed, &before, 0, form))
            }
            None => Err(NotMade::NoPrevious),
        }
    }

    /// The tries in Full Context, `passed` milliseconds after the last accepted arrival.
    fn tries<'a>(
        &self,
        settings: &Settings,
        passed: u64,
        forward: &Forward<'a>,
    ) -> Result<Tries<'a>, Untried>
        requires kind { IsOther forward.now.kind }
        requires good { AreGood settings.now }
        ensures { ShowsBy (limits settings.now) passed (header_of forward.now) (state_of (Level self.now)) result }
    {
        let form = read(forward, &self.reference)?;
        let first = Ok(meant_by(&self.fixed, &self.reference, 0, &form));
        let settled = is_fit(&first);
        let second = self.second(settings, passed, &form, settled);
        let third = self.third(&form, settled | is_fit(&second));
        let tries = in_order(&form, first, second, third);
        Ok(Tries { form, tries })
    }
}

impl StaticContext {
    ghost use Rattle.std.specs.Prelude.{ℕ};
    ghost use Rattle.rohc_frame.specs.Reading.{header_of};
    ghost use Rattle.rohc_frame.specs.declared.header.HeadKind.TheVariants.{Other};
    ghost use Rattle.rohc_forms.specs.Packets.{IsOther};
    ghost use Rattle.rohc_context.specs.declared.state.State.TheVariants.{Static as Level};
    ghost use Rattle.rohc_context.specs.Settings.{Limits};
    ghost use Rattle.rohc_context.specs.Record.{reference_of, state_of};
    ghost use Rattle.rohc_context.specs.Saved.{IsKept};
    ghost use Rattle.rohc_context.specs.Step.{rule};
    ghost use Rattle.rohc_context.specs.Update.{said_under};
    ghost use Rattle.rohc_context.specs.Shown.{static_plans, ShowsRead, ShowsByRule};

    /// The one try in Static Context: a UOR-2 against the reference, if there is one.
    fn tries<'a>(&self, forward: &Forward<'a>) -> Result<Tries<'a>, Untried>
        requires kind { IsOther forward.now.kind }
        ensures { (l : Limits) (passed : ℕ) → ShowsByRule (rule (state_of (Level self.now)) Other (header_of forward.now).first) l passed
            (header_of forward.now) (state_of (Level self.now)) result }
    {
        let Some(reference) = &self.reference else {
            return Err(Untried::Refused(Refusal::StateTooLow));
        };
        if !is_uor_2(forward.first) {
            return Err(Untried::Refused(Refusal::StateTooLow));
        }
        self.one_try(reference, forward)
    }

    /// The one try against this reference.
    fn one_try<'a>(
        &self,
        reference: &Reference,
        forward: &Forward<'a>,
    ) -> Result<Tries<'a>, Untried>
        requires kind { IsOther forward.now.kind }
        requires kept { IsKept self.now.fixed reference.now.moving reference.now.saved }
        ensures { ShowsRead self.now.fixed (λ c. static_plans (reference_of reference.now))
            (said_under (header_of forward.now) (reference_of reference.now)) result }
    {
        let form = read(forward, reference)?;
        let first = Ok(meant_by(&self.fixed, reference, 0, &form));
        let second = not_made(is_fit(&first), NotMade::OneTry);
        let tries = in_order(&form, first, second, second);
        Ok(Tries { form, tries })
    }
}

impl Context {
    ghost use Rattle.std.specs.Prelude.{true};
    ghost use Rattle.rohc_frame.specs.Reading.{header_of};
    ghost use Rattle.rohc_forms.specs.Packets.{IsOther};
    ghost use Rattle.rohc_context.specs.Settings.{AreGood};
    ghost use Rattle.rohc_context.specs.Record.{record_of};
    ghost use Rattle.rohc_context.specs.Shown.{ShowsCounted, Shows};

    /// What the context makes of a packet, try by try: the header that it means by each try, and the check of that header,
    /// also if it isn't the packet's; or why the try isn't made. The context stays as it is. What `arrive` delivers is the
    /// header of the try that fits.
    ///
    /// The settings are good. `moment` is the arrival time in milliseconds. The error says why no try is made.
    #[tactic(auto, unfolding(crate::specs::Shown::Shows, crate::specs::Record::record_of))]
    pub fn tries<'a>(
        &self,
        settings: &Settings,
        moment: u64,
        forward: &Forward<'a>,
    ) -> Result<Tries<'a>, Untried>
        requires { AreGood settings.now }
        ensures { Shows (record_of self.now) settings.now moment (header_of forward.now) result }
    {
        match forward.kind {
            HeadKind::Ir { .. } | HeadKind::IrDyn => Err(Untried::Whole),
            HeadKind::Other if !self.counts(settings.idle_ms, moment) => {
                Err(Untried::Refused(Refusal::NoContext))
            }
            HeadKind::Other => self.state_tries(settings, moment, forward),
        }
    }

    /// What the state makes of a packet of kind Other. The record counts.
    #[tactic(auto, unfolding(crate::specs::Record::record_of))]
    fn state_tries<'a>(
        &self,
        settings: &Settings,
        moment: u64,
        forward: &Forward<'a>,
    ) -> Result<Tries<'a>, Untried>
        requires kind { IsOther forward.now.kind }
        requires good { AreGood settings.now }
        ensures { ShowsCounted true settings.now moment (header_of forward.now) (record_of self.now) result }
    {
        let passed = moment.saturating_sub(self.accepted);
        match &self.state {
            State::Plain => Err(Untried::Plain),
            State::NoContext(_) => Err(Untried::Refused(Refusal::StateTooLow)),
            State::Static(context) => context.tries(forward),
            State::Full(context) => context.tries(settings, passed, forward),
        }
    }
}
