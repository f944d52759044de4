//! What is shown of a context: its profile, its state, its reference and the static part, in its view.

ghost use Rattle.std.specs.Prelude.{◌≡◌, option_map};
ghost use Rattle.rohctl_explain.specs.Held.{profile_of, state_of, fixed_of};

use rohc_context::{ContextState, Profile, ReferenceView, StateView, View};
use rohc_header::Static;

/// The profile.
pub(crate) fn profile_in(view: &View) -> Profile
    ensures { result ≡ profile_of view.now.state }
{
    match &view.state {
        StateView::Plain => Profile::Uncompressed,
        StateView::NoContext { .. } | StateView::Static { .. } | StateView::Full { .. } => {
            Profile::Rtp
        }
    }
}

/// The state. A context of profile 0x0000 is always in Full Context (RFC 3095 5.10.3).
pub fn state_in(view: &View) -> ContextState
    ensures { result ≡ state_of view.now.state }
{
    match &view.state {
        StateView::NoContext { .. } => ContextState::NoContext,
        StateView::Static { .. } => ContextState::StaticContext,
        StateView::Plain | StateView::Full { .. } => ContextState::FullContext,
    }
}

/// The reference, if the context keeps one.
pub(crate) fn reference_in(view: &View) -> Option<&ReferenceView> {
    match &view.state {
        StateView::Plain | StateView::NoContext { .. } => None,
        StateView::Static { reference, .. } => reference.as_ref(),
        StateView::Full { reference, .. } => Some(reference),
    }
}

/// The SN of the last accepted header, if the context keeps it.
pub(crate) fn sn_in(view: &View) -> Option<u16> {
    Some(reference_in(view)?.moving.sn)
}

/// The addresses, the ports and the SSRC of the call, if the context keeps them.
pub fn fixed_in(view: &View) -> Option<&Static>
    ensures { option_map (λ r. r.now) result ≡ fixed_of view.now.state }
{
    match &view.state {
        StateView::Plain | StateView::NoContext { .. } => None,
        StateView::Static { fixed, .. } | StateView::Full { fixed, .. } => Some(fixed),
    }
}
