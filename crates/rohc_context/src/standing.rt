//! What a caller may see of a context: its profile, its state and the time of its last accepted arrival.

ghost use Rattle.std.specs.Prelude.{◌≡◌};
ghost use Rattle.rohc_context.specs.Record.{record_of};
ghost use Rattle.rohc_context.specs.Standing.{profile_of, context_state_of};

use crate::record::Context;
use crate::state::State;

/// The profile of a context (RFC 3095 8).
#[derive(Clone, Copy, Debug, PartialEq, Eq)]
pub enum Profile {
    /// Profile 0x0000: packets are sent as they are (RFC 3095 5.10).
    Uncompressed,
    /// Profile 0x0001: RTP over UDP over IPv4.
    Rtp,
}

/// The state of a decompressor for one context (RFC 3095 4.3.2).
#[derive(Clone, Copy, Debug, PartialEq, Eq)]
pub enum ContextState {
    /// Nothing of the header is known: only an IR is taken.
    NoContext,
    /// The static part is known.
    StaticContext,
    /// Every packet may be taken. A context of profile 0x0000 is always in this state (RFC 3095 5.10.3).
    FullContext,
}

impl Context {
    /// The profile of the IR that made or last renewed the context.
    #[tactic(auto, unfolding(crate::specs::Record::record_of))]
    pub fn profile(&self) -> Profile
        ensures { result ≡ profile_of (record_of self.now).state }
    {
        match &self.state {
            State::Plain => Profile::Uncompressed,
            State::NoContext(_) | State::Static(_) | State::Full(_) => Profile::Rtp,
        }
    }

    /// The state of the decompressor for this context.
    #[tactic(auto, unfolding(crate::specs::Record::record_of))]
    pub fn state(&self) -> ContextState
        ensures { result ≡ context_state_of (record_of self.now).state }
    {
        match &self.state {
            State::NoContext(_) => ContextState::NoContext,
            State::Static(_) => ContextState::StaticContext,
            State::Plain | State::Full(_) => ContextState::FullContext,
        }
    }

    /// The time of the last accepted arrival, in milliseconds.
    #[tactic(auto, unfolding(crate::specs::Record::record_of))]
    pub fn accepted(&self) -> u64
        ensures { result ≡ (record_of self.now).accepted }
    {
        self.accepted
    }
}
