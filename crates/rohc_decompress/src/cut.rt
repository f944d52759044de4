//! Cutting a rebuilt packet at its IPv4 total length.

ghost use Rattle.std.specs.Prelude.{◌≡◌, take, min, length, true};
ghost use Rattle.rohc_decompress.specs.Cut.{octet_at, total_of, shown};

/// The octet at a place of a packet in two parts.
#[inline(always)]
fn octet_at(front: &[u8], rest: &[u8], place: usize) -> Option<u8>
    ensures { result ≡ octet_at front.now rest.now place }
{
    if place < front.len() {
        return front.get(place).copied();
    }
    rest.get(place - front.len()).copied()
}

/// The IPv4 total length of a packet in two parts, if it has one.
#[inline(always)]
fn total_of(front: &[u8], rest: &[u8]) -> Option<usize>
    ensures { result ≡ total_of front.now rest.now }
{
    let first = octet_at(front, rest, 0)?;
    let high = octet_at(front, rest, 2)?;
    let low = octet_at(front, rest, 3)?;
    if first / 16 != 4 {
        return None;
    }
    Some(usize::from(high) * 256 + usize::from(low))
}

/// The second part of a packet, up to its IPv4 total length, if that is at least a header's and within the packet.
#[inline(always)]
pub(crate) fn without_padding<'a>(front: &[u8], rest: &'a [u8]) -> &'a [u8]
    ensures { result.now ≡ shown true front.now rest.entry.now }
{
    let size = match total_of(front, rest) {
        Some(total) if total >= 20 && total >= front.len() => total - front.len(),
        _ => rest.len(),
    };
    front_of(rest, size)
}

/// At most `size` octets from the front.
#[inline(always)]
fn front_of(octets: &[u8], size: usize) -> &[u8]
    ensures { result.now ≡ take size octets.entry.now }
{
    match octets.get(..size) {
        Some(front) => front,
        None => octets,
    }
}
