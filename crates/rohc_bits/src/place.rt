//! Octets in a buffer.

ghost use Rattle.std.specs.Prelude.{◌≡◌, ◌≤◌, ◌+◌, ◌++◌, length, take, drop};

/// Writes octets into a buffer behind its first `at` octets. The others stay.
#[inline(always)]
pub fn put_behind(place: &mut [u8], at: usize, octets: &[u8])
    requires room { at + length octets.now ≤ length place.old }
    ensures len { length place.new ≡ length place.old }
    ensures put { take (at + length octets.now) place.new ≡ take at place.old ++ octets.now }
    ensures behind { drop (at + length octets.now) place.new ≡ drop (at + length octets.now) place.old }
{
    place[at..at + octets.len()].copy_from_slice(octets);
}
