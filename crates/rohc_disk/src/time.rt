//! Times of the system, in milliseconds since 1970.

ghost use Rattle.std.specs.Prelude.{◌≡◌, ◌*◌, ◌/◌, min};
ghost use Rattle.std.specs.Time.{system_time_nanos};

use std::time::{Duration, SystemTime, UNIX_EPOCH};

/// A time in milliseconds since 1970, rounded down; the greatest `u64` if there are more.
pub fn milliseconds(time: SystemTime) -> u64
    ensures { result ≡ min (system_time_nanos time / 1_000_000) 18_446_744_073_709_551_615 }
{
    match time.duration_since(UNIX_EPOCH) {
        Ok(passed) => u64::try_from(passed.as_millis()).unwrap_or(u64::MAX),
        Err(_) => 0,
    }
}

/// The time that is so many milliseconds after the begin of 1970. The system's times reach further than any `u64`.
pub fn time_of(milliseconds: u64) -> SystemTime
    ensures { system_time_nanos result ≡ milliseconds * 1_000_000 }
{
    let passed = Duration::from_millis(milliseconds);
    UNIX_EPOCH.checked_add(passed).unwrap_or(UNIX_EPOCH)
}
