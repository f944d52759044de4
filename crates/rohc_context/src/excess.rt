//! The octets that a layer below adds behind a packet, as Ethernet pads short frames. ROHC has no length field (RFC 3095 4.1
//! leaves that to the layer below).

ghost use Rattle.std.specs.Prelude.{◌≡◌, option_map, None};
ghost use Rattle.rohc_frame.specs.Reading.{header_of};
ghost use Rattle.rohc_chain.specs.Packets.{IsIr, IsIrDyn, ir_at};
ghost use Rattle.rohc_forms.specs.Packets.{IsOther};
ghost use Rattle.rohc_context.specs.Record.{reference_of};
ghost use Rattle.rohc_context.specs.Refresh.{dyn_said};
ghost use Rattle.rohc_context.specs.Update.{said_under};
ghost use Rattle.rohc_context.specs.Excess.{ip_total, normal_excess, plain_excess, ir_excess, dyn_read, form_read, excess_in};

use crate::ir_dyn::kept;
use crate::record::Context;
use crate::reference::Reference;
use crate::state::State;
use rohc_chain::{ChainRefusal, Ir, read_ir, read_ir_dyn};
use rohc_forms::read_form;
use rohc_frame::{Forward, HeadKind};

/// The octets of an IR of profile 0x0001 without a dynamic chain, behind its first octet and CID: the Profile octet, the check
/// octet and the static chain.
const STATIC_ONLY: usize = 20;

/// The total length of an IPv4 packet, by the octets behind its first one.
fn ip_total(rest: &[u8]) -> Option<usize>
    ensures { result ≡ ip_total rest.now }
{
    match rest {
        [_, high, low, ..] => Some(usize::from(*high) * 256 + usize::from(*low)),
        _ => None,
    }
}

/// How many octets follow the IP packet at the start of these octets.
fn plain_excess(packet: &[u8]) -> usize
    ensures { result ≡ plain_excess packet.now }
{
    let Some((_, rest)) = packet.split_first() else {
        return 0;
    };
    match ip_total(rest) {
        Some(total) => packet.len().saturating_sub(total),
        None => 0,
    }
}

/// How many octets follow an IR.
fn ir_excess(forward: &Forward<'_>, payload: usize) -> usize
    requires { IsIr forward.now.kind }
    ensures { result ≡ ir_excess payload (header_of forward.now) (ir_at (header_of forward.now)) }
{
    match read_ir(forward) {
        Ok(Ir::Plain { packet }) => plain_excess(packet),
        Ok(Ir::StaticOnly { .. }) => 0,
        Ok(Ir::Whole { payload: has, .. }) => has.len().saturating_sub(payload),
        Err(ChainRefusal::Trailing) => forward.rest.len().saturating_sub(STATIC_ONLY),
        Err(_) => 0,
    }
}

/// How many octets follow an IR-DYN, against this reference or none.
fn dyn_excess(forward: &Forward<'_>, reference: Option<Reference>, payload: usize) -> usize
    requires { IsIrDyn forward.now.kind }
    ensures { result ≡ dyn_read payload (dyn_said (header_of forward.now) (option_map reference_of reference)) }
{
    let (extension, stride) = kept(reference);
    match read_ir_dyn(forward, 1, extension, stride) {
        Ok(packet) => packet.payload.len().saturating_sub(payload),
        Err(_) => 0,
    }
}

/// How many octets follow a packet of kind Other, against this reference.
fn form_excess(forward: &Forward<'_>, reference: &Reference, payload: usize) -> usize
    requires { IsOther forward.now.kind }
    ensures { result ≡ form_read payload (said_under (header_of forward.now) (reference_of reference.now)) }
{
    let moving = &reference.moving;
    match read_form(
        forward,
        moving.rnd,
        reference.carries_sum,
        moving.stride.is_some(),
    ) {
        Ok(form) => form.payload.len().saturating_sub(payload),
        Err(_) => 0,
    }
}

/// How many octets follow a Normal packet, by those behind its first octet.
fn normal_excess(rest: &[u8]) -> usize
    ensures { result ≡ normal_excess rest.now }
{
    match ip_total(rest) {
        Some(total) => rest.len().saturating_sub(total.saturating_sub(1)),
        None => 0,
    }
}

impl State {
    ghost use Rattle.std.specs.Prelude.{◌≡◌, Some};
    ghost use Rattle.rohc_frame.specs.Reading.{header_of};
    ghost use Rattle.rohc_chain.specs.Packets.{IsIrDyn};
    ghost use Rattle.rohc_forms.specs.Packets.{IsOther};
    ghost use Rattle.rohc_context.specs.Record.{state_of};
    ghost use Rattle.rohc_context.specs.Excess.{dyn_excess, other_excess};

    /// How many octets follow an IR-DYN.
    fn dyn_excess(&self, forward: &Forward<'_>, payload: usize) -> usize
        requires { IsIrDyn forward.now.kind }
        ensures { result ≡ dyn_excess payload (header_of forward.now) (Some (state_of self.now)) }
    {
        match self {
            State::Plain | State::NoContext(_) => 0,
            State::Static(context) => dyn_excess(forward, context.reference, payload),
            State::Full(context) => dyn_excess(forward, Some(context.reference), payload),
        }
    }

    /// How many octets follow a packet of kind Other.
    fn other_excess(&self, forward: &Forward<'_>, payload: usize) -> usize
        requires { IsOther forward.now.kind }
        ensures { result ≡ other_excess payload (header_of forward.now) (Some (state_of self.now)) }
    {
        match self {
            State::Plain => normal_excess(forward.rest),
            State::NoContext(_) => 0,
            State::Static(context) => match &context.reference {
                Some(reference) => form_excess(forward, reference, payload),
                None => 0,
            },
            State::Full(context) => form_excess(forward, &context.reference, payload),
        }
    }
}

impl Context {
    ghost use Rattle.std.specs.Prelude.{◌≡◌, Some};
    ghost use Rattle.rohc_frame.specs.Reading.{header_of};
    ghost use Rattle.rohc_context.specs.Record.{record_of};
    ghost use Rattle.rohc_context.specs.Excess.{excess_in};

    /// How many octets follow a packet for this context, if its payload has at most `payload` octets: those that a layer below
    /// added. A packet that can't be read has none, whatever follows it; one of profile 0x0000 ends where its IP header says.
    #[tactic(auto, unfolding(crate::specs::Record::record_of, crate::specs::Excess::excess_in))]
    pub fn excess(&self, forward: &Forward<'_>, payload: u16) -> usize
        ensures { result ≡ excess_in payload (header_of forward.now) (Some (record_of self.now)) }
    {
        let payload = usize::from(payload);
        match forward.kind {
            HeadKind::Ir { .. } => ir_excess(forward, payload),
            HeadKind::IrDyn => self.state.dyn_excess(forward, payload),
            HeadKind::Other => self.state.other_excess(forward, payload),
        }
    }
}

/// How many octets follow a packet for a CID without a context, as `Context::excess` counts them.
#[tactic(auto, unfolding(crate::specs::Excess::excess_in))]
pub fn first_excess(forward: &Forward<'_>, payload: u16) -> usize
    ensures { result ≡ excess_in payload (header_of forward.now) None }
{
    match forward.kind {
        HeadKind::Ir { .. } => ir_excess(forward, usize::from(payload)),
        HeadKind::IrDyn | HeadKind::Other => 0,
    }
}
