//! The names of refusals.

ghost use Rattle.std.specs.Prelude.{◌≡◌, ◌+◌, ◌≤◌, ◌<◌, [], ◌∷◌, ◌++◌, length};
ghost use Rattle.rohc_c.specs.Written.{StandsIn};

use rohc_bits::put_behind;

/// Writes a name, followed by an octet 0, into a buffer that has room for both.
pub(crate) fn put_name(name: &[u8], place: &mut [u8])
    requires { length name.now < length place.old }
    ensures { StandsIn (name.now ++ 0 ∷ []) (length name.now + 1) place.new }
{
    put_behind(place, 0, name);
    put_behind(place, name.len(), &[0]);
}
