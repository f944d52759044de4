//! What an IR-DYN leads to (RFC 3095 5.7.7.2).

ghost use Rattle.std.specs.Prelude.{◌≡◌, ℕ, IfOk, IfErr, Ok, Err, Some, option_map};
ghost use Rattle.std.specs.Option.{ForSome};
ghost use Rattle.rohc_frame.specs.Reading.{header_of};
ghost use Rattle.rohc_chain.specs.Good.{IsGoodStatic};
ghost use Rattle.rohc_chain.specs.Packets.{IsIrDyn, DynContent};
ghost use Rattle.rohc_context.specs.Window.{outcomes};
ghost use Rattle.rohc_context.specs.Record.{reference_of, state_of};
ghost use Rattle.rohc_context.specs.Response.{response_of};
ghost use Rattle.rohc_context.specs.Saved.{IsKept};
ghost use Rattle.rohc_context.specs.Renewal.{Delivers};
ghost use Rattle.rohc_context.specs.Step.{Answers, arrival};
ghost use Rattle.rohc_context.specs.Refresh.{kept_by, dyn_said, PlainRefuses};

use crate::reference::Reference;
use crate::reply::Reply;
use crate::settings::Settings;
use crate::state::{FullContext, State};
use crate::window::Window;
use rohc_chain::{ChainRefusal, read_ir_dyn};
use rohc_frame::Forward;
use rohc_header::Static;

/// Why a context of profile 0x0000 refuses an IR-DYN: it takes none, whatever its Profile octet.
#[tactic(auto, unfolding(rohc_bits::specs::Reading::next_octet))]
pub(crate) fn plain_refusal(forward: &Forward<'_>) -> ChainRefusal
    ensures { PlainRefuses (header_of forward.now) result }
{
    match forward.rest {
        [] => ChainRefusal::Truncated,
        [0x01, ..] => ChainRefusal::ProfileChange,
        [_, ..] => ChainRefusal::Profile,
    }
}

/// RTP's X and the stride, which stay if an IR-DYN doesn't give them: those of the reference, or `false`
/// and none without a reference.
pub(crate) fn kept(reference: Option<Reference>) -> (bool, Option<u32>)
    ensures { result ≡ kept_by (option_map reference_of reference) }
{
    match reference {
        Some(reference) => (reference.moving.extension, reference.moving.stride),
        None => (false, None),
    }
}

/// The state and the answer that an IR-DYN leads to in profile 0x0001, with this window of Full Context;
/// or its refusal.
///
/// `forward` is the header of an IR-DYN.
pub(crate) fn refresh<'a>(
    settings: &Settings,
    forward: &Forward<'a>,
    fixed: Static,
    reference: Option<Reference>,
    window: Window,
) -> Result<(State, Reply<'a>), ChainRefusal>
    requires kind { IsIrDyn forward.now.kind }
    requires fixed { IsGoodStatic fixed }
    requires kept { ForSome reference (λ r. IsKept fixed r.moving r.saved) }
    ensures taken { IfOk result (λ x. (d : DynContent)
        × (dyn_said (header_of forward.now) (option_map reference_of reference) ≡ Ok d)
        × ((moment : ℕ) → Answers settings.now (header_of forward.now) (Delivers (arrival settings.now moment (header_of forward.now)) fixed d.moving d.payload (outcomes window))
        (response_of x.1) (Some (record { accepted = moment; state = state_of x.0 })))) }
    ensures fault { IfErr result (λ e. dyn_said (header_of forward.now) (option_map reference_of reference) ≡ Err e) }
{
    let (extension, stride) = kept(reference);
    let packet = read_ir_dyn(forward, 1, extension, stride)?;
    Ok(FullContext::begin(
        settings,
        forward,
        fixed,
        packet.moving,
        packet.payload,
        window,
    ))
}
