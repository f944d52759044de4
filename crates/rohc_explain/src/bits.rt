//! Numbers from the bits of octets, by their place.

ghost use Rattle.std.specs.Prelude.{◌≡◌, ◌<◌, ◌≤◌, ◌+◌, ◌*◌, false, length, get_or, IfSome};
ghost use Rattle.rohc_bits.specs.Bits.{bits_of};
ghost use Rattle.rohc_explain.specs.Told.{number_at};

/// The bit at a place, if it is there. Places count from the most significant bit of the first octet.
fn bit_at(octets: &[u8], place: u32) -> Option<bool>
    ensures bit { IfSome result (λ b. b ≡ get_or (bits_of octets.now) place false) }
    ensures within { IfSome result (λ b. place < 8 * length octets.now) }
{
    let index = (place / 8) as usize;
    if index >= octets.len() {
        return None;
    }
    let octet = u32::from(octets[index]);
    Some((octet >> (7 - place % 8)) % 2 == 1)
}

/// The number of the `count` bits from a place on. `None` if they aren't all there.
pub(crate) fn number_at(octets: &[u8], first: u32, count: u8) -> Option<u32>
    requires { count ≤ 32 }
    ensures { IfSome result (λ n. n ≡ number_at octets.now first count) }
{
    let mut value = 0u32;
    for k in 0..count {
        let bit = bit_at(octets, first.checked_add(u32::from(k))?)?;
        value = value.checked_mul(2)?.checked_add(u32::from(bit))?;
    }
    Some(value)
}
