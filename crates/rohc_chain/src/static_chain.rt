//! The static chain: the fields that are the same in all headers of a call (RFC 3095 5.7.7.4 to
//! 5.7.7.6).

ghost use Rattle.std.specs.Prelude.{◌≤◌, length};
ghost use Rattle.rohc_bits.specs.Reading.{Reads};
ghost use Rattle.rohc_chain.specs.Octets.{read};
ghost use Rattle.rohc_chain.specs.Chains.{ip_static_at, static_at};

use crate::octets::{four_octets, octet, quad, word};
use crate::refusal::ChainRefusal;
use rohc_bits::Cursor;
use rohc_header::Static;

/// The protocol number of UDP.
const UDP: u8 = 17;

/// Reads the static chain of IPv4, and returns the source and the destination address. The low four
/// bits of the version octet are ignored.
#[tactic(auto, unfolding(crate::specs::Chains::ip_static_at))]
#[inline(always)]
fn ip_static(cursor: &mut Cursor<'_>) -> Result<([u8; 4], [u8; 4]), ChainRefusal>
    ensures reads { Reads result cursor.new (read ip_static_at cursor.old) }
    ensures shorter { length cursor.new ≤ length cursor.old }
{
    let version = octet(cursor)?;
    if version >> 4 != 4 {
        return Err(ChainRefusal::IpVersion);
    }
    let protocol = octet(cursor)?;
    if protocol != UDP {
        return Err(ChainRefusal::Protocol);
    }
    let source = four_octets(cursor)?;
    let destination = four_octets(cursor)?;
    Ok((source, destination))
}

/// Reads the static chains of IPv4, UDP and RTP.
#[tactic(auto, unfolding(crate::specs::Chains::static_at))]
#[inline(always)]
pub(crate) fn static_chain(cursor: &mut Cursor<'_>) -> Result<Static, ChainRefusal>
    ensures reads { Reads result cursor.new (read static_at cursor.old) }
    ensures shorter { length cursor.new ≤ length cursor.old }
{
    let (source, destination) = ip_static(cursor)?;
    let source_port = word(cursor)?;
    let destination_port = word(cursor)?;
    let ssrc = quad(cursor)?;
    Ok(Static {
        source,
        destination,
        source_port,
        destination_port,
        ssrc,
    })
}
