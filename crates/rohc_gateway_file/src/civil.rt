//! The date and the time of day of a moment, in UTC.

ghost use Rattle.std.specs.Prelude.{◌≡◌, ◌≤◌, ◌/◌, min};
ghost use Rattle.rohc_gateway_file.specs.Civil.{days_to, seconds_to, IsDate, IsCivil};

use std::fmt;

/// The last second of the year 9999, in seconds since 1970.
const LAST_SECOND: u64 = 253_402_300_799;

/// The days from the first of March of the year 0 to the first of January 1970.
const DAYS_BEFORE_1970: u64 = 719_468;

/// A date of the Gregorian calendar, from 1970 to 9999, and a time of day, in UTC.
#[derive(Clone, Copy)]
pub struct Civil {
    /// The year, from 1970 to 9999.
    pub year: u64,
    /// The month, from 1 to 12.
    pub month: u64,
    /// The day of the month, from 1.
    pub day: u64,
    /// The hour, from 0 to 23.
    pub hour: u64,
    /// The minute, from 0 to 59.
    pub minute: u64,
    /// The second, from 0 to 59. A leap second is the second after it.
    pub second: u64,
}

/// The year, the month and the day of the month of a day, counted from 1970. Years begin in March here, so that a leap day
/// ends one: 400 years have 146,097 days, a century 36,524 or one more, four years 1,461 or one less.
fn date_of(day: u64) -> (u64, u64, u64)
    requires { day ≤ 2932896 }
    ensures day { days_to result.0 result.1 result.2 ≡ day }
    ensures date { IsDate result.0 result.1 result.2 }
{
    let passed = day + DAYS_BEFORE_1970;
    let in_cycle = passed % 146_097;
    let century = (in_cycle / 36_524).min(3);
    let in_century = in_cycle - century * 36_524;
    let four = in_century / 1_461;
    let in_four = in_century % 1_461;
    let one = (in_four / 365).min(3);
    let in_year = in_four - one * 365;
    let year = passed / 146_097 * 400 + century * 100 + four * 4 + one;
    // Five months from March or August on have 153 days.
    let month = (5 * in_year + 2) / 153;
    let in_month = in_year - (153 * month + 2) / 5 + 1;
    if month < 10 {
        (year, month + 3, in_month)
    } else {
        (year + 1, month - 9, in_month)
    }
}

/// The date and the time of day of a moment in milliseconds since 1970. A moment after the year 9999 is shown as the last
/// second of that year, since RFC 3339 has four digits for a year.
pub fn civil_at(milliseconds: u64) -> Civil
    ensures seconds { seconds_to result ≡ min (milliseconds / 1000) 253402300799 }
    ensures civil { IsCivil result }
{
    let seconds = (milliseconds / 1000).min(LAST_SECOND);
    let (year, month, day) = date_of(seconds / 86_400);
    let in_day = seconds % 86_400;
    Civil {
        year,
        month,
        day,
        hour: in_day / 3_600,
        minute: in_day / 60 % 60,
        second: in_day % 60,
    }
}

/// The form of RFC 3339, in UTC: `2026-11-29T17:41:03Z`.
impl fmt::Display for Civil {
    fn fmt<W: fmt::Write>(&self, f: &mut fmt::Formatter<W>) -> fmt::Result {
        let Civil {
            year,
            month,
            day,
            hour,
            minute,
            second,
        } = *self;
        write!(
            f,
            "{year:04}-{month:02}-{day:02}T{hour:02}:{minute:02}:{second:02}Z"
        )
    }
}
