//! The parts of a header. Each function appends one to the octets that are there.

ghost use Rattle.std.specs.Prelude.{◌≡◌, ◌+◌, ◌*◌, ◌%◌, ◌^◌, ◌<◌, ◌≤◌, ◌++◌, length};
ghost use Rattle.rohc_header.specs.Original.{word as word_octets, quad as quad_octets, longest_payload, ip_front, ip_part, ip_sum, addresses, udp_part, rtp_part};
ghost use Rattle.rohc_header.specs.Prepared.{IsPrepared};

use crate::prepared::{Prepared, flag};
use crate::{Dynamic, Static};
use arrayvec::ArrayVec;
use rohc_checks::sum_of_exchanged;

/// The octets of a header, as far as they have been written.
pub(crate) type Octets = ArrayVec<u8, 40>;

/// Appends the IPv4 header (RFC 791 3.1).
#[inline(always)]
pub(crate) fn put_ip(
    octets: &mut Octets,
    fixed: &Static,
    prepared: &Prepared,
    moving: &Dynamic,
    payload_len: u16,
)
    requires room { length octets.old.items + 20 ≤ 40 }
    requires fits { payload_len ≤ longest_payload }
    requires prepared { IsPrepared fixed.now moving.now prepared.now }
    ensures { octets.new.items ≡ octets.old.items ++ ip_part fixed.now moving.now payload_len (ip_sum fixed.now moving.now payload_len) }
{
    put_ip_front(octets, fixed, prepared, moving, payload_len);
    put_word(octets, checksum(fixed, prepared, moving, payload_len));
    put_addresses(octets, fixed);
}

/// The IPv4 checksum, computed from the sum of the words that stay and the other two as numbers; no octet is read back.
/// They are taken with their octets exchanged, as the processor reads them.
#[inline(always)]
fn checksum(fixed: &Static, prepared: &Prepared, moving: &Dynamic, payload_len: u16) -> u16
    requires fits { payload_len ≤ longest_payload }
    requires prepared { IsPrepared fixed.now moving.now prepared.now }
    ensures { result ≡ ip_sum fixed.now moving.now payload_len }
{
    sum_of_exchanged(u32::from(prepared.sum) + exchanged(40 + payload_len) + exchanged(moving.id))
}

/// A word with its octets exchanged.
fn exchanged(word: u16) -> u32
    ensures rest { result * 256 ≡ word + word % 256 * 65535 }
    ensures few { result < 2 ^ 16 }
{
    u32::from(u16::from_le_bytes(word.to_be_bytes()))
}

/// Appends the IPv4 header up to its checksum.
#[inline(always)]
fn put_ip_front(
    octets: &mut Octets,
    fixed: &Static,
    prepared: &Prepared,
    moving: &Dynamic,
    payload_len: u16,
)
    requires room { length octets.old.items + 10 ≤ 40 }
    requires fits { payload_len ≤ longest_payload }
    requires prepared { IsPrepared fixed.now moving.now prepared.now }
    ensures { octets.new.items ≡ octets.old.items ++ ip_front moving.now payload_len }
{
    octets.push(0x45);
    octets.push(moving.tos);
    put_word(octets, 40 + payload_len);
    put_word(octets, moving.id);
    put(octets, &prepared.middle);
}

/// Appends the two addresses, which follow the IPv4 checksum.
#[inline(always)]
fn put_addresses(octets: &mut Octets, fixed: &Static)
    requires { length octets.old.items + 8 ≤ 40 }
    ensures { octets.new.items ≡ octets.old.items ++ addresses fixed.now }
{
    put(octets, &fixed.source);
    put(octets, &fixed.destination);
}

/// Appends the UDP header (RFC 768).
#[inline(always)]
pub(crate) fn put_udp(octets: &mut Octets, fixed: &Static, moving: &Dynamic, payload_len: u16)
    requires room { length octets.old.items + 8 ≤ 40 }
    requires fits { payload_len ≤ longest_payload }
    ensures { octets.new.items ≡ octets.old.items ++ udp_part fixed.now moving.now payload_len }
{
    put_word(octets, fixed.source_port);
    put_word(octets, fixed.destination_port);
    put_word(octets, 20 + payload_len);
    put_word(octets, moving.udp_sum);
}

/// Appends the RTP header (RFC 3550 5.1).
#[inline(always)]
pub(crate) fn put_rtp(octets: &mut Octets, fixed: &Static, prepared: &Prepared, moving: &Dynamic)
    requires room { length octets.old.items + 12 ≤ 40 }
    requires prepared { IsPrepared fixed.now moving.now prepared.now }
    requires narrow { moving.now.payload_type < 128 }
    ensures { octets.new.items ≡ octets.old.items ++ rtp_part fixed.now moving.now }
{
    let marked = flag(moving.marker, 0x80) + moving.payload_type;
    octets.push(prepared.rtp);
    octets.push(marked);
    put_word(octets, moving.sn);
    put_quad(octets, moving.ts);
    put_quad(octets, fixed.ssrc);
}

fn put_word(octets: &mut Octets, word: u16)
    requires { length octets.old.items + 2 ≤ 40 }
    ensures { octets.new.items ≡ octets.old.items ++ word_octets word }
{
    put(octets, &word.to_be_bytes());
}

fn put_quad(octets: &mut Octets, quad: u32)
    requires { length octets.old.items + 4 ≤ 40 }
    ensures { octets.new.items ≡ octets.old.items ++ quad_octets quad }
{
    put(octets, &quad.to_be_bytes());
}

fn put(octets: &mut Octets, more: &[u8])
    requires { length octets.old.items + length more.now ≤ 40 }
    ensures { octets.new.items ≡ octets.old.items ++ more.now }
{
    octets.try_extend_from_slice(more).unwrap();
}
