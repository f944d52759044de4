//! The dynamic chain: the fields that change from header to header (RFC 3095 5.7.7.4 to 5.7.7.6).

ghost use Rattle.std.specs.Prelude.{◌≤◌, length};
ghost use Rattle.rohc_bits.specs.Reading.{Reads};
ghost use Rattle.rohc_chain.specs.Octets.{read};
ghost use Rattle.rohc_chain.specs.Chains.{ip_dynamic_at, stride_at, behind_time_stride, flags_at, rtp_dynamic_at, dynamic_at};

use crate::octets::{is_set, octet, quad, value, word};
use crate::parts::{IpDynamic, Kept, RtpDynamic};
use crate::refusal::ChainRefusal;
use rohc_bits::Cursor;
use rohc_header::Dynamic;

/// Reads the dynamic chain of IPv4. The low five bits of its flags are ignored.
#[tactic(auto, unfolding(crate::specs::Chains::ip_dynamic_at))]
#[inline(always)]
fn ip_dynamic(cursor: &mut Cursor<'_>) -> Result<IpDynamic, ChainRefusal>
    ensures reads { Reads result cursor.new (read ip_dynamic_at cursor.old) }
    ensures shorter { length cursor.new ≤ length cursor.old }
{
    let tos = octet(cursor)?;
    let ttl = octet(cursor)?;
    let id = word(cursor)?;
    let flags = octet(cursor)?;
    let extensions = octet(cursor)?;
    if extensions != 0 {
        return Err(ChainRefusal::ExtensionList);
    }
    Ok(IpDynamic {
        tos,
        ttl,
        id,
        df: is_set(flags, 7),
        rnd: is_set(flags, 6),
        nbo: is_set(flags, 5),
    })
}

/// Reads TS_STRIDE if the flag TSS announces it, and else returns the stride that is kept.
#[tactic(auto, unfolding(crate::specs::Chains::stride_at))]
#[inline(always)]
fn stride(
    kept: Option<u32>,
    flags: u8,
    cursor: &mut Cursor<'_>,
) -> Result<Option<u32>, ChainRefusal>
    ensures reads { Reads result cursor.new (read (stride_at kept flags) cursor.old) }
    ensures shorter { length cursor.new ≤ length cursor.old }
{
    if !is_set(flags, 0) {
        return Ok(kept);
    }
    match value(cursor)? {
        0 => Err(ChainRefusal::ZeroStride),
        stride => Ok(Some(stride)),
    }
}

/// Reads TIME_STRIDE if the flag TIS announces it, and drops it.
#[tactic(auto, unfolding(crate::specs::Chains::behind_time_stride))]
#[inline(always)]
fn skip_time_stride(flags: u8, cursor: &mut Cursor<'_>) -> Result<(), ChainRefusal>
    ensures reads { Reads result cursor.new (read (behind_time_stride flags) cursor.old) }
    ensures shorter { length cursor.new ≤ length cursor.old }
{
    if is_set(flags, 1) {
        value(cursor)?;
    }
    Ok(())
}

/// Reads the octet of flags if RX announces it, for the flag X and the stride, and else returns
/// those that are kept. Modes 0, 1 and 2 have no effect.
#[tactic(auto, unfolding(crate::specs::Chains::flags_at))]
#[inline(always)]
fn flags(kept: Kept, present: bool, cursor: &mut Cursor<'_>) -> Result<Kept, ChainRefusal>
    ensures reads { Reads result cursor.new (read (flags_at kept present) cursor.old) }
    ensures shorter { length cursor.new ≤ length cursor.old }
{
    if !present {
        return Ok(kept);
    }
    let flags = octet(cursor)?;
    if (flags >> 2) & 0x03 == 3 {
        return Err(ChainRefusal::ReliableMode);
    }
    let stride = stride(kept.stride, flags, cursor)?;
    skip_time_stride(flags, cursor)?;
    Ok(Kept {
        extension: is_set(flags, 4),
        stride,
    })
}

/// Reads the dynamic chain of RTP.
#[tactic(auto, unfolding(crate::specs::Chains::rtp_dynamic_at))]
#[inline(always)]
fn rtp_dynamic(kept: Kept, cursor: &mut Cursor<'_>) -> Result<RtpDynamic, ChainRefusal>
    ensures reads { Reads result cursor.new (read (rtp_dynamic_at kept) cursor.old) }
    ensures shorter { length cursor.new ≤ length cursor.old }
{
    let first = octet(cursor)?;
    if first >> 6 != 2 {
        return Err(ChainRefusal::RtpVersion);
    }
    if first & 0x0f != 0 {
        return Err(ChainRefusal::Csrc);
    }
    let second = octet(cursor)?;
    let sn = word(cursor)?;
    let ts = quad(cursor)?;
    let sources = octet(cursor)?;
    if sources != 0 {
        return Err(ChainRefusal::Csrc);
    }
    let given = flags(kept, is_set(first, 4), cursor)?;
    Ok(RtpDynamic {
        padding: is_set(first, 5),
        extension: given.extension,
        marker: is_set(second, 7),
        payload_type: second & 0x7f,
        sn,
        ts,
        stride: given.stride,
    })
}

/// Reads the dynamic chains of IPv4, UDP and RTP.
#[tactic(auto, unfolding(crate::specs::Chains::dynamic_at))]
#[inline(always)]
pub(crate) fn dynamic_chain(kept: Kept, cursor: &mut Cursor<'_>) -> Result<Dynamic, ChainRefusal>
    ensures reads { Reads result cursor.new (read (dynamic_at kept) cursor.old) }
    ensures shorter { length cursor.new ≤ length cursor.old }
{
    let ip = ip_dynamic(cursor)?;
    let udp_sum = word(cursor)?;
    let rtp = rtp_dynamic(kept, cursor)?;
    Ok(Dynamic {
        tos: ip.tos,
        ttl: ip.ttl,
        id: ip.id,
        df: ip.df,
        rnd: ip.rnd,
        nbo: ip.nbo,
        udp_sum,
        padding: rtp.padding,
        extension: rtp.extension,
        marker: rtp.marker,
        payload_type: rtp.payload_type,
        sn: rtp.sn,
        ts: rtp.ts,
        stride: rtp.stride,
    })
}
