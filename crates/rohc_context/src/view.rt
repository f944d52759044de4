//! What a context holds, as plain values.

ghost use Rattle.std.specs.Prelude.{◌≡◌, option_map};
ghost use Rattle.rohc_context.specs.Record.{reference_of};
ghost use Rattle.rohc_context.specs.View.{reference_view_of};

use crate::record::Context;
use crate::reference::Reference;
use crate::state::{FullContext, State};
use crate::window::Window;
use rohc_header::{Dynamic, Static};

/// The fields of an accepted header, as later packets are decoded against them.
#[derive(Clone, Copy)]
pub struct ReferenceView {
    /// The fields, without the marker, and with the RND, NBO and stride in force.
    pub moving: Dynamic,
    /// Whether packets carry a UDP checksum.
    pub carries_sum: bool,
}

/// What a context holds in its state (RFC 3095 4.3.2).
#[derive(Clone, Copy)]
pub enum StateView {
    /// Profile 0x0000, which holds nothing.
    Plain,
    /// Profile 0x0001 in No Context.
    NoContext {
        /// The time of the last STATIC-NACK, in milliseconds.
        nacked: u64,
    },
    /// Profile 0x0001 in Static Context.
    Static {
        /// The static part.
        fixed: Static,
        /// The reference that Full Context had, if the context fell from there.
        reference: Option<ReferenceView>,
        /// The outcomes that make a NACK due, and those that lead to No Context.
        windows: (Window, Window),
    },
    /// Profile 0x0001 in Full Context.
    Full {
        /// The static part.
        fixed: Static,
        /// The reference, against which packets are decoded.
        reference: ReferenceView,
        /// The reference before it, if the last packet left RND, NBO and stride as they were.
        previous: Option<ReferenceView>,
        /// The outcomes that lead to Static Context.
        window: Window,
    },
}

/// What a context holds.
#[derive(Clone, Copy)]
pub struct View {
    /// The time of the last accepted arrival, in milliseconds.
    pub accepted: u64,
    /// What it holds in its state.
    pub state: StateView,
}

impl Reference {
    ghost use Rattle.std.specs.Prelude.{◌≡◌};
    ghost use Rattle.rohc_context.specs.Record.{reference_of};
    ghost use Rattle.rohc_context.specs.View.{reference_view_of};

    /// Its fields.
    fn view(&self) -> ReferenceView
        ensures { reference_view_of result ≡ reference_of self.now }
    {
        ReferenceView {
            moving: self.moving,
            carries_sum: self.carries_sum,
        }
    }
}

/// The fields of a reference, if there is one.
fn held(reference: &Option<Reference>) -> Option<ReferenceView>
    ensures { option_map reference_view_of result ≡ option_map reference_of reference.now }
{
    match reference {
        Some(reference) => Some(reference.view()),
        None => None,
    }
}

impl FullContext {
    ghost use Rattle.std.specs.Prelude.{◌≡◌, option_map};
    ghost use Rattle.rohc_context.specs.Record.{previous_of};
    ghost use Rattle.rohc_context.specs.View.{reference_view_of};

    /// The fields of the previous reference, if there is one.
    fn previous_view(&self) -> Option<ReferenceView>
        ensures { option_map reference_view_of result ≡ previous_of self.now }
    {
        match &self.previous {
            Some(previous) => Some(previous.beside(&self.reference).view()),
            None => None,
        }
    }
}

impl State {
    ghost use Rattle.std.specs.Prelude.{◌≡◌};
    ghost use Rattle.rohc_context.specs.Record.{state_of};
    ghost use Rattle.rohc_context.specs.View.{state_view_of};

    /// What a context holds in this state.
    fn view(&self) -> StateView
        ensures { state_view_of result ≡ state_of self.now }
    {
        match self {
            State::Plain => StateView::Plain,
            State::NoContext(context) => StateView::NoContext {
                nacked: context.nacked,
            },
            State::Static(context) => StateView::Static {
                fixed: context.fixed,
                reference: held(&context.reference),
                windows: context.windows,
            },
            State::Full(context) => StateView::Full {
                fixed: context.fixed,
                reference: context.reference.view(),
                previous: context.previous_view(),
                window: context.windows.0,
            },
        }
    }
}

impl Context {
    ghost use Rattle.std.specs.Prelude.{◌≡◌};
    ghost use Rattle.rohc_context.specs.Record.{record_of};
    ghost use Rattle.rohc_context.specs.View.{view_of};

    /// What the context holds.
    #[tactic(auto, unfolding(crate::specs::Record::record_of))]
    pub fn view(&self) -> View
        ensures { view_of result ≡ record_of self.now }
    {
        View {
            accepted: self.accepted,
            state: self.state.view(),
        }
    }
}
