//! What an IR leads to (RFC 3095 5.7.7.1, 5.10.1).

ghost use Rattle.std.specs.Prelude.{◌≡◌, ℕ, IfOk, IfErr, Ok, Err, Some, option_map};
ghost use Rattle.rohc_frame.specs.Reading.{header_of};
ghost use Rattle.rohc_chain.specs.Packets.{IsIr, IrContent, ir_at};
ghost use Rattle.rohc_chain.specs.declared.refusal.ChainRefusal.{ChainRefusal};
ghost use Rattle.rohc_context.specs.Window.{outcomes};
ghost use Rattle.rohc_context.specs.Record.{state_of, State as StateSeen};
ghost use Rattle.rohc_context.specs.Response.{response_of};
ghost use Rattle.rohc_context.specs.Faults.{fault_of_chain};
ghost use Rattle.rohc_context.specs.declared.due.Due.TheVariants.{PlainAck as IsPlainAck};
ghost use Rattle.rohc_context.specs.Due.{sent};
ghost use Rattle.rohc_context.specs.Step.{Answers, arrival};
ghost use Rattle.rohc_context.specs.Renewal.{plain_answer, full_window, static_windows, Renewed};

use crate::due::Due;
use crate::fault::Fault;
use crate::reply::Reply;
use crate::settings::Settings;
use crate::state::{FullContext, State, StaticContext};
use crate::window::Window;
use arrayvec::ArrayVec;
use rohc_chain::{Ir, read_ir};
use rohc_frame::Forward;

/// The answer to an IR of profile 0x0000 with this IP packet. If it has no octets, the context is stored
/// and nothing is delivered.
fn plain_reply<'a>(settings: &Settings, forward: &Forward<'a>, packet: &'a [u8]) -> Reply<'a>
    ensures { response_of result ≡ record (plain_answer packet.entry.now) { feedback = sent settings.now.mode (header_of forward.now) IsPlainAck } }
{
    let feedback = Due::PlainAck.feedback(settings.mode, forward);
    if packet.is_empty() {
        Reply::stored(feedback)
    } else {
        Reply::delivered(ArrayVec::new(), packet, feedback)
    }
}

/// The window of Full Context after an IR: from Full Context its window with one more success, from every
/// other state an empty one.
fn full_window(counting: Option<State>) -> Window
    ensures { outcomes result ≡ full_window (option_map state_of counting) }
{
    match counting {
        Some(State::Full(context)) => context.windows.0.and(false),
        _ => Window::empty(),
    }
}

/// The windows of Static Context after an IR: from Static Context its windows with one more success each,
/// from every other state empty ones.
fn static_windows(counting: Option<State>) -> (Window, Window)
    ensures { (outcomes result.0, outcomes result.1) ≡ static_windows (option_map state_of counting) }
{
    match counting {
        Some(State::Static(context)) => (
            context.windows.0.and(false),
            context.windows.1.and(false),
        ),
        _ => (Window::empty(), Window::empty()),
    }
}

/// The state and the answer that an IR leads to, or its fault. `counting` is the state before, if there
/// is a record and it counts.
///
/// `forward` is the header of an IR.
#[inline(always)]
pub(crate) fn renewal<'a>(
    settings: &Settings,
    forward: &Forward<'a>,
    counting: Option<State>,
) -> Result<(State, Reply<'a>), Fault>
    requires { IsIr forward.now.kind }
    ensures taken { IfOk result (λ x. (content : IrContent) × (ir_at (header_of forward.now) ≡ Ok content)
        × ((moment : ℕ) → Answers settings.now (header_of forward.now) (Renewed (arrival settings.now moment (header_of forward.now)) (option_map state_of counting) content)
        (response_of x.1) (Some (record { accepted = moment; state = state_of x.0 })))) }
    ensures fault { IfErr result (λ e. (refusal : ChainRefusal) × (ir_at (header_of forward.now) ≡ Err refusal) × (e ≡ fault_of_chain refusal)) }
{
    match read_ir(forward)? {
        Ir::Plain { packet } => Ok((State::Plain, plain_reply(settings, forward, packet))),
        Ir::StaticOnly { fixed } => {
            let context = StaticContext {
                fixed,
                reference: None,
                windows: static_windows(counting),
            };
            Ok((State::Static(context), Reply::stored(None)))
        }
        Ir::Whole {
            fixed,
            moving,
            payload,
        } => {
            let window = full_window(counting);
            Ok(FullContext::begin(settings, forward, fixed, moving, payload, window))
        }
    }
}
