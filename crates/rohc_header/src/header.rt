//! Rebuilt headers and their checks.

ghost use Rattle.std.specs.Prelude.{◌≡◌, ◌+◌, ◌*◌, ◌<◌, ◌≤◌, ◌↔◌, length, get_or, bit_xor, IfSome, IsNone};
ghost use Rattle.rohc_checks.specs.Division.{check, poly3, poly7};
ghost use Rattle.rohc_header.specs.Original.{IsOriginal, longest_payload};
ghost use Rattle.rohc_header.specs.Polynomial.{coefficients};
ghost use Rattle.rohc_header.specs.Prepared.{IsPrepared};
ghost use Rattle.rohc_header.specs.Check.{all_ones, header_check, static_octets, dynamic_octets};

use crate::parts::{put_ip, put_rtp, put_udp};
use crate::polynomial::Polynomial::{self, Seven, Three};
use crate::prepared::Prepared;
use crate::{Dynamic, Static};
use arrayvec::ArrayVec;
use rohc_checks::{crc3, crc7};

/// The longest payload of a packet, in octets: with its header of 40 octets the packet has 65,535.
pub const LONGEST_PAYLOAD: usize = 65_495;

/// A rebuilt RTP/UDP/IPv4 header.
#[derive(Clone, Copy)]
pub struct Header {
    /// Its octets: 20 of IPv4, 8 of UDP, 12 of RTP.
    pub octets: [u8; 40],
}

impl Header {
    /// Rebuilds the header of a packet with these fields and `payload_len` octets of payload. Returns `None` if the
    /// packet would be longer than 65,535 octets. The payload type is below 128.
    pub fn build(fixed: &Static, moving: &Dynamic, payload_len: usize) -> Option<Header>
        requires { moving.now.payload_type < 128 }
        ensures header { IfSome result (λ header. IsOriginal fixed.now moving.now payload_len header.octets) }
        ensures none { IsNone result ↔ (longest_payload < payload_len) }
    {
        Header::with_prepared(fixed, &Prepared::of(fixed, moving), moving, payload_len)
    }

    /// Rebuilds a header as `build` does, where what stays of such headers is at hand.
    pub fn with_prepared(
        fixed: &Static,
        prepared: &Prepared,
        moving: &Dynamic,
        payload_len: usize,
    ) -> Option<Header>
        requires prepared { IsPrepared fixed.now moving.now prepared.now }
        requires narrow { moving.now.payload_type < 128 }
        ensures header { IfSome result (λ header. IsOriginal fixed.now moving.now payload_len header.octets) }
        ensures none { IsNone result ↔ (longest_payload < payload_len) }
    {
        if payload_len > LONGEST_PAYLOAD {
            return None;
        }
        let head = head_of(fixed, prepared, moving, payload_len as u16);
        let octets = head.into_inner().unwrap();
        Some(Header { octets })
    }

    /// The 3-bit check of the header: over its static octets, then its dynamic ones (RFC 3095 5.9.2).
    pub fn check3(&self) -> u8
        ensures { result ≡ header_check poly3 self.now.octets }
    {
        self.check3_from(self.static_register(Three))
    }

    /// The 7-bit check of the header: over its static octets, then its dynamic ones (RFC 3095 5.9.2).
    pub fn check7(&self) -> u8
        ensures { result ≡ header_check poly7 self.now.octets }
    {
        self.check7_from(self.static_register(Seven))
    }

    /// The registers of the 3-bit and the 7-bit check after the header's static octets. It isn't inlined, so that it reads
    /// the octets one by one where they lie.
    #[inline(never)]
    pub fn registers(&self) -> (u8, u8)
        ensures three { result.0 ≡ check poly3 (all_ones poly3) (static_octets self.now.octets) }
        ensures seven { result.1 ≡ check poly7 (all_ones poly7) (static_octets self.now.octets) }
    {
        (self.static_register(Three), self.static_register(Seven))
    }

    /// The 3-bit check, from the register `reg` after the static octets. With the first of `registers` it is
    /// `check3`.
    pub fn check3_from(&self, reg: u8) -> u8
        ensures { result ≡ check poly3 reg (dynamic_octets self.now.octets) }
    {
        self.check_from(Three, reg)
    }

    /// The 7-bit check, from the register `reg` after the static octets. With the second of `registers` it is
    /// `check7`.
    pub fn check7_from(&self, reg: u8) -> u8
        ensures { result ≡ check poly7 reg (dynamic_octets self.now.octets) }
    {
        self.check_from(Seven, reg)
    }

    /// The register after the static octets, starting from all ones.
    ///
    /// As for the dynamic octets in `check7_after`, they are added without carry in groups of seven, counted from their
    /// end. Both polynomials divide x^56 + 1.
    fn static_register(&self, polynomial: Polynomial) -> u8
        ensures { result ≡ check (coefficients polynomial) (all_ones (coefficients polynomial)) (static_octets self.now.octets) }
    {
        let octets = &self.octets;
        let folded = [
            octets[6] ^ octets[15] ^ octets[22],
            octets[7] ^ octets[16] ^ octets[23],
            octets[8] ^ octets[17] ^ octets[28],
            octets[9] ^ octets[18] ^ octets[36],
            octets[12] ^ octets[19] ^ octets[37],
            ones(polynomial) ^ octets[0] ^ octets[13] ^ octets[20] ^ octets[38],
            octets[1] ^ octets[14] ^ octets[21] ^ octets[39],
        ];
        crc(polynomial, 0x00, &folded)
    }

    /// The check, from the register after the static octets.
    fn check_from(&self, polynomial: Polynomial, reg: u8) -> u8
        ensures { result ≡ check (coefficients polynomial) reg (dynamic_octets self.now.octets) }
    {
        dynamic_check(polynomial, &self.octets, reg)
    }
}

/// The octets of the header of a packet with these fields and `payload_len` octets of payload. `prepared` is what stays
/// of such headers, `payload_len` is at most 65,495, and the payload type is below 128.
#[inline(always)]
pub fn head_of(
    fixed: &Static,
    prepared: &Prepared,
    moving: &Dynamic,
    payload_len: u16,
) -> ArrayVec<u8, 40>
    requires prepared { IsPrepared fixed.now moving.now prepared.now }
    requires fits { payload_len ≤ longest_payload }
    requires narrow { moving.now.payload_type < 128 }
    ensures { IsOriginal fixed.now moving.now payload_len result.items }
{
    // Copied first, so that the compiler knows that the fields don't overlap the octets.
    let fixed = *fixed;
    let prepared = *prepared;
    let mut octets = ArrayVec::new();
    put_ip(&mut octets, &fixed, &prepared, moving, payload_len);
    put_udp(&mut octets, &fixed, moving, payload_len);
    put_rtp(&mut octets, &fixed, &prepared, moving);
    octets
}

/// The 3-bit check of a header's 40 octets, from the register `reg` after its static octets (RFC 3095 5.9.2).
///
/// It takes one look-up. Since 1 + x + x^3 divides x^7 + 1, bits may be added without carry in groups of seven. So
/// each dynamic field is shifted by the bits before it modulo seven, where the Total Length starts at bit 4. Two words
/// with the same shift are added first.
#[inline(always)]
pub fn check3_after(octets: &[u8], reg: u8) -> u8
    requires { length octets.now ≡ 40 }
    ensures { result ≡ check poly3 reg (dynamic_octets octets.now) }
{
    let reg = reg & 0x07;
    let total_length = added_first(octets[2], octets[3], reg) << 4;
    let id = word(octets[4], octets[5]) << 6;
    let ip_checksum_and_sn = (word(octets[10], octets[11]) ^ word(octets[30], octets[31])) << 1;
    let (udp_length_and_ts, udp_sum_and_ts) = added(
        [octets[24], octets[25], octets[26], octets[27]],
        [octets[32], octets[33], octets[34], octets[35]],
    );
    let marker_and_type = u32::from(octets[29]);
    let bits = total_length
        ^ id
        ^ ip_checksum_and_sn
        ^ (udp_length_and_ts << 3)
        ^ (udp_sum_and_ts << 5)
        ^ marker_and_type;
    let two = bits ^ (bits >> 14);
    let one = two ^ (two >> 7);
    crc3(0x00, &[(one % 128) as u8 * 2])
}

/// The check of a header's 40 octets, from the register after its static octets. The dynamic octets are at indexes
/// 2 to 5 (IPv4 Total Length and Identification), 10 and 11 (IPv4 checksum), 24 to 27 (UDP Length and checksum) and
/// 29 to 35 (RTP M and PT, SN and TS).
fn dynamic_check(polynomial: Polynomial, octets: &[u8], reg: u8) -> u8
    requires { length octets.now ≡ 40 }
    ensures { result ≡ check (coefficients polynomial) reg (dynamic_octets octets.now) }
{
    match polynomial {
        Three => check3_after(octets, reg),
        Seven => check7_after(octets, reg),
    }
}

/// Two octets as a number, with the first in its low bits: a check takes the low bit of an octet first.
fn word(first: u8, second: u8) -> u32
    ensures { result ≡ first + second * 256 }
{
    u32::from(u16::from_le_bytes([first, second]))
}

/// Two octets as `word` gives them, with a register of three bits added to the first without carry.
fn added_first(first: u8, second: u8, reg: u8) -> u32
    requires { reg < 8 }
    ensures { result ≡ bit_xor first reg + second * 256 }
{
    word(first, second) ^ u32::from(reg)
}

/// The first words of both, added without carry, and so the second words. A word's first octet is in its low bits.
///
/// Each four octets are read at once, since they were written at once: what was just written in parts and is read as a
/// whole makes the processor wait.
fn added(these: [u8; 4], those: [u8; 4]) -> (u32, u32)
    ensures first { result.0 ≡ bit_xor (get_or these 0 0 + get_or these 1 0 * 256) (get_or those 0 0 + get_or those 1 0 * 256) }
    ensures second { result.1 ≡ bit_xor (get_or these 2 0 + get_or these 3 0 * 256) (get_or those 2 0 + get_or those 3 0 * 256) }
{
    let both = u32::from_le_bytes(these) ^ u32::from_le_bytes(those);
    (both % 65_536, both / 65_536)
}

/// The 7-bit check of a header's 40 octets, from the register `reg` after its static octets (RFC 3095 5.9.2).
///
/// The dynamic octets are added without carry in groups of seven, counted from their end, and the register is added to
/// the first of them. That is allowed because the polynomial divides x^56 + 1.
pub fn check7_after(octets: &[u8], reg: u8) -> u8
    requires { length octets.now ≡ 40 }
    ensures { result ≡ check poly7 reg (dynamic_octets octets.now) }
{
    let folded = [
        octets[5] ^ octets[29],
        octets[10] ^ octets[30],
        octets[11] ^ octets[31],
        octets[24] ^ octets[32],
        (reg & 0x7f) ^ octets[2] ^ octets[25] ^ octets[33],
        octets[3] ^ octets[26] ^ octets[34],
        octets[4] ^ octets[27] ^ octets[35],
    ];
    crc7(0x00, &folded)
}

/// A register of all ones, of as many bits as the polynomial's check.
#[tactic(auto, using(crate::proofs::Checks::ones3, crate::proofs::Checks::ones7))]
fn ones(polynomial: Polynomial) -> u8
    ensures { result ≡ all_ones (coefficients polynomial) }
{
    match polynomial {
        Three => 0x07,
        Seven => 0x7f,
    }
}

/// The check of the octets by this polynomial, from the register `reg`.
fn crc(polynomial: Polynomial, reg: u8, octets: &[u8]) -> u8
    ensures { result ≡ check (coefficients polynomial) reg octets.now }
{
    match polynomial {
        Three => crc3(reg, octets),
        Seven => crc7(reg, octets),
    }
}
