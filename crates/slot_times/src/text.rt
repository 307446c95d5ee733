//! The text of a time.

ghost use Rattle.std.specs.Prelude.{◌≡◌, ◌<◌, ◌≤◌, pos};
ghost use Rattle.slot_times.specs.Calendar.{day_of_month, month_of, year_of};
ghost use Rattle.slot_times.specs.SlotTime.{digit, instant_text, slot_begin, slot_time};

use crate::start::Start;
use jiff_core::civil::Date;

/// How many days 1970-01-01 comes after the first date that the calendar's library has.
const EPOCH: u32 = 4_371_587;

/// A slot takes 24480 / 13 milliseconds: eight multiframes of 51 frames of 120 / 26 milliseconds.
const MICROSECONDS_OF_13_SLOTS: u64 = 24_480_000;

/// The milliseconds of a day.
const DAY: u64 = 86_400_000;

/// The milliseconds from 1970-01-01T00:00:00Z to the begin of a slot, cut to whole ones.
fn slot_begin(start: Start, slot: u32) -> u64
    ensures value { result ≡ slot_begin start.microseconds slot }
    ensures bound { result < 12379500998585 }
{
    (13 * start.microseconds + MICROSECONDS_OF_13_SLOTS * u64::from(slot)) / 13_000
}

/// The last decimal digit of a number.
fn digit(number: u64) -> u8
    ensures { result ≡ digit number }
{
    b'0' + (number % 10) as u8
}

/// The date of a day that is numbered from 1970-01-01.
fn date_of(day: u32) -> Date
    requires { day ≤ 2000000 }
    ensures year { result.year ≡ pos (year_of day) }
    ensures month { result.month ≡ month_of day }
    ensures day { result.day ≡ day_of_month day }
{
    Date::from_days_since_min(EPOCH + day)
}

/// The text of a time, by its milliseconds since 1970-01-01T00:00:00Z.
fn instant_text(milliseconds: u64) -> [u8; 24]
    requires { milliseconds < 12379500998585 }
    ensures { result ≡ instant_text milliseconds }
{
    let date = date_of((milliseconds / DAY) as u32);
    let year = date.year as u64;
    let month = u64::from(date.month);
    let day = u64::from(date.day);
    let rest = milliseconds % DAY;
    let (hour, minute, second) = (rest / 3_600_000, rest / 60_000 % 60, rest / 1000 % 60);
    let fraction = rest % 1000;
    [
        digit(year / 1000),
        digit(year / 100),
        digit(year / 10),
        digit(year),
        b'-',
        digit(month / 10),
        digit(month),
        b'-',
        digit(day / 10),
        digit(day),
        b'T',
        digit(hour / 10),
        digit(hour),
        b':',
        digit(minute / 10),
        digit(minute),
        b':',
        digit(second / 10),
        digit(second),
        b'.',
        digit(fraction / 100),
        digit(fraction / 10),
        digit(fraction),
        b'Z',
    ]
}

/// The time in UTC at which a slot begins, of which slot 0 begins at a start, cut to the millisecond, as
/// `2026-11-29T18:30:01.883Z` (ISO 8601, RFC 3339). Each year has four digits, since slot 4,294,967,295 of the latest
/// start begins in 2362.
#[tactic(auto, unfolding(crate::specs::SlotTime::slot_time))]
pub fn slot_time(start: Start, slot: u32) -> [u8; 24]
    ensures { result ≡ slot_time start slot }
{
    instant_text(slot_begin(start, slot))
}
