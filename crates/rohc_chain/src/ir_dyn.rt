//! The IR-DYN packet (RFC 3095 5.7.7.2).

ghost use Rattle.std.specs.Prelude.{◌≡◌, ◌≤◌, length, All, IfOk, IfErr};
ghost use Rattle.std.specs.Result.{result_map_both};
ghost use Rattle.rohc_frame.specs.Laws.{IsOctet};
ghost use Rattle.rohc_frame.specs.Reading.{header_of};
ghost use Rattle.rohc_chain.specs.Good.{IsGoodStride, IsGoodDynamic};
ghost use Rattle.rohc_chain.specs.Packets.{IsIrDyn, DynContent, dyn_content, kept_values, longest_payload, ir_dyn_at};
ghost use Rattle.rohc_chain.specs.Texts.{IsIrDynText, ir_dyn_fault};

use crate::cover::fits_chains;
use crate::dynamic_chain::dynamic_chain;
use crate::octets::octet;
use crate::packet::IrDyn;
use crate::parts::Kept;
use crate::refusal::ChainRefusal;
use rohc_bits::reading::cursor_over;
use rohc_frame::Forward;
use rohc_header::LONGEST_PAYLOAD;

/// Reads an IR-DYN from left to right.
#[tactic(auto, unfolding(crate::specs::Packets::ir_dyn_at))]
fn in_order<'a>(forward: &Forward<'a>, profile: u8, kept: Kept) -> Result<IrDyn<'a>, ChainRefusal>
    ensures reads { result_map_both dyn_content (λ e. e) result ≡ ir_dyn_at (header_of forward.now) profile kept }
    ensures octets { All IsOctet forward.now.rest.now }
{
    let mut cursor = cursor_over(forward.rest);
    match (octet(&mut cursor)?, profile) {
        (0x01, 0) => return Err(ChainRefusal::ProfileChange),
        (0x01, _) => {}
        _ => return Err(ChainRefusal::Profile),
    }
    let check = octet(&mut cursor)?;
    let octets = cursor.rest();
    let moving = dynamic_chain(kept, &mut cursor)?;
    let payload = cursor.rest();
    if payload.len() > LONGEST_PAYLOAD {
        return Err(ChainRefusal::TooLong);
    }
    let chains = &octets[..octets.len() - payload.len()];
    if !fits_chains(forward, check, chains) {
        return Err(ChainRefusal::Check);
    }
    Ok(IrDyn { moving, payload })
}

/// Decodes an IR-DYN for a context of profile 0 or 1 (RFC 3095 5.7.7.2).
///
/// `forward` is the header of an IR-DYN. `extension` and `stride` are RTP's X and TS_STRIDE of the
/// context, which stay if the dynamic chain doesn't give them. The error is the first fault: the
/// faults of the fields in the order of their octets, then `TooLong`, then `Check`.
pub fn read_ir_dyn<'a>(
    forward: &Forward<'a>,
    profile: u8,
    extension: bool,
    stride: Option<u32>,
) -> Result<IrDyn<'a>, ChainRefusal>
    requires kind { IsIrDyn forward.now.kind }
    requires profile { profile ≤ 1 }
    ensures text { IfOk result (λ packet. IsIrDynText (header_of forward.now) profile (kept_values extension stride) (dyn_content packet)) }
    ensures short { IfOk result (λ packet. length packet.payload.now ≤ longest_payload) }
    ensures good { IfOk result (λ packet. IsGoodStride stride → IsGoodDynamic packet.moving) }
    ensures only { (content : DynContent) → IsIrDynText (header_of forward.now) profile (kept_values extension stride) content → length content.payload ≤ longest_payload
        → result_map_both dyn_content (λ e. e) result ≡ Ok content }
    ensures fault { IfErr result (λ e. ir_dyn_fault (header_of forward.now) profile ≡ Some e) }
    ensures reads { result_map_both dyn_content (λ e. e) result ≡ ir_dyn_at (header_of forward.now) profile (kept_values extension stride) }
{
    in_order(forward, profile, Kept { extension, stride })
}
