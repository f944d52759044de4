//! Which state takes which packet, and what a packet that isn't accepted leads to (RFC 3095 5.3.2.2).

ghost use Rattle.std.specs.Prelude.{◌≡◌, nat_le, option_map};
ghost use Rattle.rohc_context.specs.Record.{reference_of};
ghost use Rattle.rohc_context.specs.Failures.{sn_of};

use crate::due::Due;
use crate::reference::Reference;
use crate::settings::Settings;
use crate::state::{FullContext, NoContext, State, StaticContext};
use crate::window::Window;

/// Whether a first octet of a packet of kind Other is that of a UOR-2 format.
pub(crate) fn is_uor_2(first: u8) -> bool
    ensures { result ≡ nat_le 192 first }
{
    first >= 0xc0
}

/// The sequence number of a reference, if there is one.
fn sn_of(reference: &Option<Reference>) -> Option<u16>
    ensures { result ≡ sn_of (option_map reference_of reference.now) }
{
    match reference {
        Some(reference) => Some(reference.moving.sn),
        None => None,
    }
}

impl State {
    ghost use Rattle.std.specs.Prelude.{◌≡◌, ◌<◌, ◌^◌};
    ghost use Rattle.rohc_context.specs.Settings.{AreGood, limits};
    ghost use Rattle.rohc_context.specs.Record.{state_of};
    ghost use Rattle.rohc_context.specs.Failures.{leads_to, after_check, after_low_state};

    /// The state after a packet whose check doesn't match, and the feedback that is due.
    pub(crate) fn after_check(&self, settings: &Settings, moment: u64) -> (State, Due)
        requires { AreGood settings.now }
        ensures { leads_to (state_of result.0) result.1 ≡ after_check (limits settings.now) moment (state_of self.now) }
    {
        match self {
            State::Plain | State::NoContext(_) => (*self, Due::Nothing),
            State::Static(context) => context.after_check(settings, moment),
            State::Full(context) => context.after_check(settings),
        }
    }

    /// The state after a packet that this state doesn't take, and the feedback that is due.
    pub(crate) fn after_low_state(&self, settings: &Settings, moment: u64) -> (State, Due)
        requires { AreGood settings.now }
        ensures { leads_to (state_of result.0) result.1 ≡ after_low_state (limits settings.now) moment (state_of self.now) }
    {
        match self {
            State::Plain | State::Full(_) => (*self, Due::Nothing),
            State::Static(context) => context.after_low_state(settings),
            State::NoContext(context) => {
                if moment.saturating_sub(context.nacked) >= u64::from(settings.static_nack_ms) {
                    let state = State::NoContext(NoContext { nacked: moment });
                    (state, Due::StaticNack)
                } else {
                    (*self, Due::Nothing)
                }
            }
        }
    }
}

impl StaticContext {
    ghost use Rattle.std.specs.Prelude.{◌≡◌, ℕ, option_map};
    ghost use Rattle.rohc_context.specs.Window.{outcomes};
    ghost use Rattle.rohc_context.specs.declared.state.State.TheVariants.{Static as Level};
    ghost use Rattle.rohc_context.specs.Settings.{AreGood, limits};
    ghost use Rattle.rohc_context.specs.Record.{reference_of, state_of, StaticContext as Seen};
    ghost use Rattle.rohc_context.specs.Failures.{leads_to, after_check, after_low_state};

    /// The state of this context with these windows in place of its own.
    fn with(&self, first: Window, second: Window) -> State
        ensures { state_of result ≡ Seen self.now.fixed (option_map reference_of self.now.reference) (outcomes first) (outcomes second) }
    {
        State::Static(StaticContext {
            fixed: self.fixed,
            reference: self.reference,
            windows: (first, second),
        })
    }

    fn after_check(&self, settings: &Settings, moment: u64) -> (State, Due)
        requires { AreGood settings.now }
        ensures { leads_to (state_of result.0) result.1 ≡ after_check (limits settings.now) moment (state_of (Level self.now)) }
    {
        let first = self.windows.0.and(true);
        let second = self.windows.1.and(true);
        if second.is_filled(settings.k2, settings.n2) {
            let state = State::NoContext(NoContext { nacked: moment });
            return (state, Due::StaticNack);
        }
        if first.is_filled(settings.k1, settings.n1) {
            let due = Due::Nack(sn_of(&self.reference));
            return (self.with(Window::empty(), second), due);
        }
        (self.with(first, second), Due::Nothing)
    }

    fn after_low_state(&self, settings: &Settings) -> (State, Due)
        requires { AreGood settings.now }
        ensures { (moment : ℕ) → leads_to (state_of result.0) result.1 ≡ after_low_state (limits settings.now) moment (state_of (Level self.now)) }
    {
        let first = self.windows.0.and(true);
        let second = self.windows.1;
        if first.is_filled(settings.k1, settings.n1) {
            let due = Due::Nack(sn_of(&self.reference));
            return (self.with(Window::empty(), second), due);
        }
        (self.with(first, second), Due::Nothing)
    }
}

impl FullContext {
    ghost use Rattle.std.specs.Prelude.{◌≡◌, ℕ};
    ghost use Rattle.rohc_context.specs.declared.state.State.TheVariants.{Full as Level};
    ghost use Rattle.rohc_context.specs.Settings.{AreGood, limits};
    ghost use Rattle.rohc_context.specs.Record.{state_of};
    ghost use Rattle.rohc_context.specs.Failures.{leads_to, after_check};

    fn after_check(&self, settings: &Settings) -> (State, Due)
        requires { AreGood settings.now }
        ensures { (moment : ℕ) → leads_to (state_of result.0) result.1 ≡ after_check (limits settings.now) moment (state_of (Level self.now)) }
    {
        let window = self.windows.0.and(true);
        if window.is_filled(settings.k1, settings.n1) {
            let due = Due::Nack(Some(self.reference.moving.sn));
            return (State::Static(self.fallen()), due);
        }
        let stays = FullContext {
            fixed: self.fixed,
            reference: self.reference,
            prepared: self.prepared,
            previous: self.previous,
            windows: (window, self.windows.1),
        };
        (State::Full(stays), Due::Nothing)
    }
}
