//! Times of a capture of pcapng, in nanoseconds.

/// Nanoseconds in a second.
const SECOND: u128 = 1_000_000_000;

/// A time in units of an interface, in whole nanoseconds, up to the greatest u64. The unit is 10^-n seconds for n below 128,
/// and 2^-n for 128 + n.
pub(crate) fn nanos_of(ticks: u64, resolution: u8) -> u64 {
    match resolution {
        6 => ticks.saturating_mul(1000),
        9 => ticks,
        _ => match u64::try_from(slow_nanos(ticks, resolution)) {
            Ok(nanos) => nanos,
            Err(_) => u64::MAX,
        },
    }
}

/// The same for any unit, with no bound.
fn slow_nanos(ticks: u64, resolution: u8) -> u128 {
    let mut nanos = u128::from(ticks) * SECOND;
    let (count, base) = if resolution < 128 {
        (resolution, 10)
    } else {
        (resolution - 128, 2)
    };
    for _ in 0..count {
        nanos /= base;
    }
    nanos
}
