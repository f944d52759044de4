//! Writing a payload into a buffer.

ghost use Rattle.std.specs.Prelude.{◌≡◌, ℕ, ◌≤◌, ◌+◌, ◌++◌, length, take, drop};

use rohc_bits::put_behind;

/// How many octets a processor moves at once.
const PART: usize = 16;

/// 16 octets of a payload, after its first `from`. They are a value, so that the compiler knows that writing them changes
/// nothing that is still to be read.
#[inline(always)]
fn part_after(payload: &[u8], from: usize) -> [u8; PART]
    requires { from + 16 ≤ length payload.now }
    ensures { result ≡ take 16 (drop from payload.now) }
{
    let Some(part) = payload[from..from + PART].first_chunk::<PART>() else {
        unreachable!();
    };
    *part
}

/// Writes 16 octets of a payload, after its first `from`, where they stand if the payload follows the first `at` octets of
/// the buffer.
#[inline(always)]
fn put_part(place: &mut [u8], at: usize, payload: &[u8], from: usize)
    requires octets { from + 16 ≤ length payload.now }
    requires room { at + (from + 16) ≤ length place.old }
    ensures len { length place.new ≡ length place.old }
    ensures before { take at place.new ≡ take at place.old }
    ensures put { (done : ℕ) → from ≤ done → take (at + done) place.old ≡ take at place.old ++ take done payload.now →
        take (at + (from + 16)) place.new ≡ take at place.old ++ take (from + 16) payload.now }
{
    let part = part_after(payload, from);
    place[at + from..at + from + PART].copy_from_slice(&part);
}

/// Writes a payload into a buffer after its first `at` octets. Speech has payloads of 20 to 40 octets: these take three
/// moves, which may overlap, and no call, and no jump depends on their length.
#[inline(always)]
pub(crate) fn put_payload(place: &mut [u8], at: usize, payload: &[u8])
    requires { at + length payload.now ≤ length place.old }
    ensures len { length place.new ≡ length place.old }
    ensures put { take (at + length payload.now) place.new ≡ take at place.old ++ payload.now }
{
    let len = payload.len();
    if len < PART || len > 3 * PART {
        return put_behind(place, at, payload);
    }
    put_part(place, at, payload, 0);
    put_part(place, at, payload, PART.min(len - PART));
    put_part(place, at, payload, len - PART);
}
