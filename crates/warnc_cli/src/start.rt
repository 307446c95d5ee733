//! When the tapes of a capture, or a run, begin, as the command line says it.

ghost use Rattle.std.specs.Prelude.{IfSome, map};
ghost use Rattle.warnc_cli.specs.CommandLine.{GivesSlotStart, GivesStart, IsClockTime, IsSlotStart};

use crate::command::{is_given, value_of};
use gsmtap::Start;
use jiff::Timestamp;
use std::convert::AsStr;

/// The seconds of 2106-01-01T00:00:00Z. From then on the 32 bits that a capture has for the seconds of a packet could
/// go round within a tape.
const END: i64 = 4_291_747_200;

/// When the tapes begin, by the words: at 1970-01-01T00:00:00Z if they don't say it.
pub(crate) fn start_in<S: AsStr>(words: &[S]) -> Option<Start>
    ensures { IfSome result (GivesStart (map S.text words.now)) }
{
    if !is_given(words, "--start") {
        return Some(Start {
            second: 0,
            microsecond: 0,
        });
    }
    start_of(value_of(words, "--start")?)
}

/// The time that a text writes as RFC 3339 has it, cut to the microsecond. None if it is before 1970 or after 2105.
fn start_of(text: &str) -> Option<Start>
    ensures { IfSome result (IsClockTime text.now) }
{
    let time = text.parse::<Timestamp>().ok()?;
    let microseconds = time.as_microsecond();
    if microseconds < 0 || microseconds >= 1_000_000 * END {
        return None;
    }
    Some(Start {
        second: (microseconds / 1_000_000) as u32,
        microsecond: (microseconds % 1_000_000) as u32,
    })
}

/// When slot 0 begins, if the words say it.
pub(crate) fn slot_start_in<S: AsStr>(words: &[S]) -> Option<Option<slot_times::Start>>
    ensures { IfSome result (GivesSlotStart (map S.text words.now)) }
{
    if !is_given(words, "--start") {
        return Some(None);
    }
    let start = slot_start_of(value_of(words, "--start")?)?;
    Some(Some(start))
}

/// The time that a text writes as RFC 3339 has it, cut to the microsecond. None if it is before 1970 or after 2105.
fn slot_start_of(text: &str) -> Option<slot_times::Start>
    ensures { IfSome result (IsSlotStart text.now) }
{
    let time = text.parse::<Timestamp>().ok()?;
    let microseconds = time.as_microsecond();
    if microseconds < 0 {
        return None;
    }
    slot_times::Start::new(microseconds as u64)
}
