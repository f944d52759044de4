//! What stays of a header while only its numbers change.

ghost use Rattle.std.specs.Prelude.{◌≡◌, ◌+◌, ◌*◌, ◌%◌, ◌<◌, ◌^◌, get_or, sum};
ghost use Rattle.rohc_checks.specs.Sum.{words};
ghost use Rattle.rohc_header.specs.Original.{flag as flag_octet};
ghost use Rattle.rohc_header.specs.Prepared.{IsPrepared};

use crate::{Dynamic, Static};
use rohc_checks::with_carries;

/// Parts of a header that are the same in all headers with the same static fields, TOS, TTL, DF, P and X, whatever
/// their numbers, marker and payload type.
#[derive(Clone, Copy)]
pub struct Prepared {
    /// The one's complement sum of the words that these fields fill in the IPv4 header, with their octets exchanged.
    pub(crate) sum: u16,
    /// The octets 6 to 9: flags, fragment offset, TTL and protocol.
    pub(crate) middle: [u8; 4],
    /// The octet 28: RTP's version, P, X and CC.
    pub(crate) rtp: u8,
}

impl Prepared {
    /// What stays of the headers with these fields.
    pub fn of(fixed: &Static, moving: &Dynamic) -> Prepared
        ensures { IsPrepared fixed.now moving.now result }
    {
        let middle = [flag(moving.df, 0x40), 0x00, moving.ttl, 17];
        let total = 0x45
            + u32::from(moving.tos) * 256
            + two_exchanged(&middle)
            + two_exchanged(&fixed.source)
            + two_exchanged(&fixed.destination);
        Prepared {
            sum: with_carries(total),
            middle,
            rtp: 0x80 + flag(moving.padding, 0x20) + flag(moving.extension, 0x10),
        }
    }
}

/// The sum of two words, each with its octets exchanged.
fn two_exchanged(octets: &[u8; 4]) -> u32
    ensures rest { result * 256 ≡ sum (words octets.now) + (get_or octets.now 1 0 + get_or octets.now 3 0) * 65535 }
    ensures few { result < 2 ^ 17 }
{
    let [a, b, c, d] = *octets;
    u32::from(u16::from_le_bytes([a, b])) + u32::from(u16::from_le_bytes([c, d]))
}

/// `value` if the flag is set, else 0.
pub(crate) fn flag(set: bool, value: u8) -> u8
    ensures { result ≡ flag_octet set value }
{
    if set { value } else { 0x00 }
}
