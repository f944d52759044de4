//! What a context comes back as whose reference is too old to be trusted with a 3-bit check.

use crate::record::Context;
use crate::state::{FullContext, State, StaticContext};
use crate::window::Window;

impl FullContext {
    ghost use Rattle.std.specs.Prelude.{◌≡◌};
    ghost use Rattle.rohc_context.specs.declared.state.State.TheVariants.{Static as Level, Full as Above};
    ghost use Rattle.rohc_context.specs.Record.{state_of};
    ghost use Rattle.rohc_context.specs.Fallen.{fallen_state};

    /// The Static Context to which it falls, with its reference and empty windows.
    pub(crate) fn fallen(&self) -> StaticContext
        ensures { state_of (Level result) ≡ fallen_state (state_of (Above self.now)) }
    {
        StaticContext {
            fixed: self.fixed,
            reference: Some(self.reference),
            windows: (Window::empty(), Window::empty()),
        }
    }
}

impl Context {
    ghost use Rattle.std.specs.Prelude.{◌≡◌};
    ghost use Rattle.rohc_context.specs.Record.{record_of};
    ghost use Rattle.rohc_context.specs.Fallen.{fallen};

    /// This context, fallen from Full Context to Static Context as after failed checks (RFC 3095 5.3.2.2.3): it keeps its
    /// reference, and the time of its last accepted arrival. In the other states it stays as it is.
    #[tactic(auto, unfolding(crate::specs::Record::record_of, crate::specs::Fallen::fallen))]
    pub fn fallen(&self) -> Context
        ensures { record_of result ≡ fallen (record_of self.now) }
    {
        let state = match &self.state {
            State::Full(context) => State::Static(context.fallen()),
            State::Plain | State::NoContext(_) | State::Static(_) => self.state,
        };
        Context {
            accepted: self.accepted,
            state,
        }
    }
}
