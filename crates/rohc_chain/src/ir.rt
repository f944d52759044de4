//! The IR packet (RFC 3095 5.7.7.1 and 5.10.1).

ghost use Rattle.std.specs.Prelude.{◌≡◌, All, IfOk, IfErr};
ghost use Rattle.std.specs.Result.{result_map_both};
ghost use Rattle.rohc_frame.specs.Laws.{IsOctet};
ghost use Rattle.rohc_frame.specs.Reading.{header_of};
ghost use Rattle.rohc_chain.specs.Packets.{IsIr, IrContent, ir_content, plain_at, static_only_at, whole_at, ir_at};
ghost use Rattle.rohc_chain.specs.Good.{IsGoodContent};
ghost use Rattle.rohc_chain.specs.Texts.{IsIrText, IsShort, ir_fault};

use crate::cover::{fits_chains, fits_plain};
use crate::dynamic_chain::dynamic_chain;
use crate::octets::octet;
use crate::packet::Ir;
use crate::parts::Kept;
use crate::refusal::ChainRefusal;
use crate::static_chain::static_chain;
use rohc_bits::Cursor;
use rohc_bits::reading::cursor_over;
use rohc_frame::{Forward, HeadKind};
use rohc_header::LONGEST_PAYLOAD;

/// The Profile octets of the two profiles.
const UNCOMPRESSED: u8 = 0x00;

const RTP: u8 = 0x01;

/// Reads an IR of profile 0x0000 after its check octet.
fn read_plain<'a>(
    forward: &Forward<'a>,
    check: u8,
    packet: &'a [u8],
) -> Result<Ir<'a>, ChainRefusal>
    ensures { result_map_both ir_content (λ e. e) result ≡ plain_at (header_of forward.now) check packet.entry.now }
{
    if !fits_plain(forward, check) {
        return Err(ChainRefusal::Check);
    }
    Ok(Ir::Plain { packet })
}

/// Reads an IR without a dynamic chain after its check octet.
#[tactic(auto, unfolding(crate::specs::Packets::static_only_at))]
fn read_static_only<'a>(
    forward: &Forward<'a>,
    check: u8,
    chains: &'a [u8],
) -> Result<Ir<'a>, ChainRefusal>
    ensures { result_map_both ir_content (λ e. e) result ≡ static_only_at (header_of forward.now) check chains.entry.now }
{
    let mut cursor = Cursor::new(chains);
    let fixed = static_chain(&mut cursor)?;
    if !cursor.rest().is_empty() {
        return Err(ChainRefusal::Trailing);
    }
    if !fits_chains(forward, check, chains) {
        return Err(ChainRefusal::Check);
    }
    Ok(Ir::StaticOnly { fixed })
}

/// Reads an IR with both chains after its check octet.
#[tactic(auto, unfolding(crate::specs::Packets::whole_at))]
fn read_whole<'a>(
    forward: &Forward<'a>,
    check: u8,
    octets: &'a [u8],
) -> Result<Ir<'a>, ChainRefusal>
    ensures { result_map_both ir_content (λ e. e) result ≡ whole_at (header_of forward.now) check octets.entry.now }
{
    let mut cursor = Cursor::new(octets);
    let fixed = static_chain(&mut cursor)?;
    let moving = dynamic_chain(Kept::NOTHING, &mut cursor)?;
    let payload = cursor.rest();
    if payload.len() > LONGEST_PAYLOAD {
        return Err(ChainRefusal::TooLong);
    }
    let chains = &octets[..octets.len() - payload.len()];
    if !fits_chains(forward, check, chains) {
        return Err(ChainRefusal::Check);
    }
    Ok(Ir::Whole {
        fixed,
        moving,
        payload,
    })
}

/// Reads an IR, by its Profile octet.
#[tactic(auto, unfolding(crate::specs::Packets::ir_at))]
fn read_by_profile<'a>(forward: &Forward<'a>) -> Result<Ir<'a>, ChainRefusal>
    ensures reads { result_map_both ir_content (λ e. e) result ≡ ir_at (header_of forward.now) }
    ensures octets { All IsOctet forward.now.rest.now }
{
    let dynamic = matches!(forward.kind, HeadKind::Ir { dynamic: true });
    let mut cursor = cursor_over(forward.rest);
    match (octet(&mut cursor)?, dynamic) {
        (UNCOMPRESSED, false) => read_plain(forward, octet(&mut cursor)?, cursor.rest()),
        (RTP, false) => read_static_only(forward, octet(&mut cursor)?, cursor.rest()),
        (RTP, true) => read_whole(forward, octet(&mut cursor)?, cursor.rest()),
        _ => Err(ChainRefusal::Profile),
    }
}

/// Decodes an IR (RFC 3095 5.7.7.1 and 5.10.1).
///
/// `forward` is the header of an IR. The error is the first fault: the faults of the fields in the
/// order of their octets, then `TooLong`, then `Check`.
pub fn read_ir<'a>(forward: &Forward<'a>) -> Result<Ir<'a>, ChainRefusal>
    requires { IsIr forward.now.kind }
    ensures text { IfOk result (λ ir. IsIrText (header_of forward.now) (ir_content ir)) }
    ensures short { IfOk result (λ ir. IsShort (ir_content ir)) }
    ensures good { IfOk result (λ ir. IsGoodContent (ir_content ir)) }
    ensures only { (content : IrContent) → IsIrText (header_of forward.now) content → IsShort content → result_map_both ir_content (λ e. e) result ≡ Ok content }
    ensures fault { IfErr result (λ e. ir_fault (header_of forward.now) ≡ Some e) }
    ensures reads { result_map_both ir_content (λ e. e) result ≡ ir_at (header_of forward.now) }
{
    read_by_profile(forward)
}
