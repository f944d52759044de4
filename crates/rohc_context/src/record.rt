//! What is kept of a context between two arrivals.

ghost use Rattle.std.specs.Prelude.{◌<◌, ◌^◌};

use crate::state::State;
use crate::window::Window;

/// A context: its state, and the time of its last accepted arrival.
#[derive(Clone, Copy, Drop)]
pub struct Context {
    /// The time of the last accepted arrival, in milliseconds.
    pub(crate) accepted: u64,
    pub(crate) state: State,
    ghost in_range: { accepted < 2 ^ 64 },
}

impl Context {
    ghost use Rattle.std.specs.Prelude.{◌≡◌, option_map};
    ghost use Rattle.rohc_context.specs.Window.{outcomes};
    ghost use Rattle.rohc_context.specs.Record.{record_of};
    ghost use Rattle.rohc_context.specs.Lent.{windows_in, Saves};

    /// The windows of recent outcomes, or `None` in No Context and for profile 0x0000. In Full Context the second
    /// window is empty.
    #[tactic(auto, unfolding(crate::specs::Record::record_of))]
    pub fn windows(&self) -> Option<&(Window, Window)>
        ensures { option_map (λ w. (outcomes w.now.0, outcomes w.now.1)) result ≡ windows_in (record_of self.now).state }
    {
        match &self.state {
            State::Plain | State::NoContext(_) => None,
            State::Static(context) => Some(&context.windows),
            State::Full(context) => Some(&context.windows),
        }
    }

    /// The registers of the 3-bit and the 7-bit check after the static octets, which are kept with the reference;
    /// `None` without a reference.
    #[tactic(auto, unfolding(crate::specs::Record::record_of))]
    pub fn saved(&self) -> Option<&(u8, u8)>
        ensures { Saves (record_of self.now).state (option_map (λ s. s.now) result) }
    {
        match &self.state {
            State::Plain | State::NoContext(_) => None,
            State::Static(context) => match &context.reference {
                Some(reference) => Some(&reference.saved),
                None => None,
            },
            State::Full(context) => Some(&context.reference.saved),
        }
    }
}
