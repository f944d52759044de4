//! Octets of a frame, from the left.

ghost use Rattle.std.specs.Prelude.{◌≡◌};
ghost use Rattle.std.specs.Result.{result_map_both};
ghost use Rattle.rohc_capture.specs.Octets.{octet_at, word_at, after, cut};

use crate::fault::FrameFault;

/// The octet at the front, and what follows.
#[inline(always)]
pub(crate) fn octet(octets: &[u8]) -> Result<(u8, &[u8]), FrameFault>
    ensures { result_map_both (λ w. (w.0, w.1.now)) (λ e. e) result ≡ octet_at octets.now }
{
    match octets.split_first() {
        Some((first, rest)) => Ok((*first, rest)),
        None => Err(FrameFault::Short),
    }
}

/// The two octets at the front as a number, and what follows.
#[tactic(auto, unfolding(crate::specs::Octets::word_at))]
#[inline(always)]
pub(crate) fn word(octets: &[u8]) -> Result<(u16, &[u8]), FrameFault>
    ensures { result_map_both (λ w. (w.0, w.1.now)) (λ e. e) result ≡ word_at octets.now }
{
    match octets.split_first_chunk::<2>() {
        Some((two, rest)) => Ok((u16::from_be_bytes(*two), rest)),
        None => Err(FrameFault::Short),
    }
}

/// What follows the first `count` octets.
#[tactic(auto, unfolding(crate::specs::Octets::after))]
#[inline(always)]
pub(crate) fn after(octets: &[u8], count: usize) -> Result<&[u8], FrameFault>
    ensures { result_map_both (λ r. r.now) (λ e. e) result ≡ after count octets.now }
{
    if octets.len() < count {
        return Err(FrameFault::Short);
    }
    Ok(&octets[count..])
}

/// The octets from `start` up to `end`, or the fault if they aren't there.
#[tactic(auto, unfolding(crate::specs::Octets::cut))]
#[inline(always)]
pub(crate) fn cut(
    octets: &[u8],
    start: usize,
    end: usize,
    fault: FrameFault,
) -> Result<&[u8], FrameFault>
    ensures { result_map_both (λ r. r.now) (λ e. e) result ≡ cut start end fault octets.now }
{
    if end < start || octets.len() < end {
        return Err(fault);
    }
    let (front, _) = octets.split_at(end);
    Ok(&front[start..])
}
