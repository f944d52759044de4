//! Tests of dates.

use rohc_gateway_file::civil_at;
use std::alloc::AllocError;

/// Dates as `date -u -d @SECONDS` prints them. The last two are beyond the year 9999.
#[test]
fn dates_are_those_of_the_calendar(rt: HostRuntime) -> Result<(), AllocError> {
    for (milliseconds, date) in [
        (0, "1970-01-01T00:00:00Z"),
        (68_169_599_999, "1972-02-28T23:59:59Z"),
        (951_782_400_000, "2000-02-29T00:00:00Z"),
        (1_078_012_800_000, "2004-02-29T00:00:00Z"),
        (1_796_060_463_001, "2026-11-30T17:41:03Z"),
        (4_107_542_399_000, "2100-02-28T23:59:59Z"),
        (4_107_542_400_000, "2100-03-01T00:00:00Z"),
        (253_402_300_799_999, "9999-12-31T23:59:59Z"),
        (253_402_300_800_000, "9999-12-31T23:59:59Z"),
        (u64::MAX, "9999-12-31T23:59:59Z"),
    ] {
        let shown = format!(in rt.alloc(); "{}", civil_at(milliseconds))?;
        assert!(rt; shown.as_str() == date);
    }
    Ok(())
}
