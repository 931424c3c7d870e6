//! Days: the dates that texts name, and the days of moments.
ghost use Rattle.std.specs.Prelude.{◌≡◌, ◌<◌, option_map};
ghost use Rattle.jiff.specs.Words.{epoch_day};
ghost use Rattle.fv_datum.specs.Days.{has_date_form, calendar_day, day_of, day_at};
ghost use Rattle.fv_datum.specs.Moments.{IsMoment};

use crate::decimal::{are_digits, digits_value};
use jiff::ToSpan;
use jiff::civil::{Date, date};

/// The seconds of a day.
const DAY: i64 = 86400;

/// The day that a text names: `YYYY-MM-DD`, of the years 0001 to 9999, and no other form.
pub fn day_of(text: &str) -> Option<Date>
    ensures { option_map epoch_day result ≡ day_of text.now }
{
    let bytes = text.as_bytes();
    if !has_date_form(bytes) {
        return None;
    }
    let year = digits_value(&bytes[..4]);
    let month = digits_value(&bytes[5..7]);
    let day = digits_value(&bytes[8..10]);
    calendar_day(year, month, day)
}

/// The day of the calendar with these numbers, in the year 1 or a later one.
fn calendar_day(year: u64, month: u64, day: u64) -> Option<Date>
    requires year { year < 10000 }
    requires month { month < 100 }
    requires day { day < 100 }
    ensures { option_map epoch_day result ≡ calendar_day year month day }
{
    if year == 0 {
        return None;
    }
    match Date::new(year as i16, month as i8, day as i8) {
        Ok(day) => Some(day),
        Err(_) => None,
    }
}

/// Ten bytes: four digits, `-`, two digits, `-`, two digits.
fn has_date_form(bytes: &[u8]) -> bool
    ensures { result ≡ has_date_form bytes.now }
{
    if bytes.len() != 10 {
        return false;
    }
    if !are_digits(&bytes[..4]) || bytes[4] != b'-' {
        return false;
    }
    if !are_digits(&bytes[5..7]) || bytes[7] != b'-' {
        return false;
    }
    are_digits(&bytes[8..10])
}

/// The day, in UTC, of a moment: whole seconds since 1970-01-01T00:00:00Z.
pub fn today(now: i64) -> Date
    requires { IsMoment now }
    ensures { epoch_day result ≡ day_at now }
{
    let days = now.div_euclid(DAY);
    date(1970, 1, 1).checked_add(days.days()).unwrap()
}
