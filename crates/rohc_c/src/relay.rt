//! Writing feedback for this side's compressor into a buffer.

ghost use Rattle.std.specs.Prelude.{◌≡◌, ◌≤◌, ◌+◌, ◌++◌, length, take};
ghost use Rattle.rohc_frame.specs.Reading.{elements_of};
ghost use Rattle.rohc_c.specs.Relay.{told, FitsInRoom};
ghost use Rattle.rohc_c.specs.Written.{StandsIn};

use rohc_bits::put_behind;
use rohc_frame::Elements;

/// What was written into the buffer for feedback.
#[derive(Clone, Copy)]
pub(crate) struct Relayed {
    /// How many elements.
    pub(crate) count: usize,
    /// How many octets.
    pub(crate) length: usize,
}

/// Writes the data of each element into a buffer, after one octet that counts it.
#[inline(always)]
pub(crate) fn put_elements(elements: Elements<'_>, place: &mut [u8]) -> Relayed
    requires { FitsInRoom (elements_of elements) (length place.old) }
    ensures count { result.count ≡ length (elements_of elements.entry) }
    ensures told { StandsIn (told (elements_of elements.entry)) result.length place.new }
{
    let mut count = 0;
    let mut at = 0;
    for data in elements {
        put_behind(place, at, &[data.len() as u8]);
        put_behind(place, at + 1, data);
        at = at + 1 + data.len();
        count += 1;
    }
    Relayed { count, length: at }
}
