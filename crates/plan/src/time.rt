//! Times in a plan: AT and PERIOD in hours, minutes and seconds.

ghost use Rattle.std.specs.Prelude.{◌≡◌, ◌≤◌, ◌==◌, drop, take, length, map, position, IfOk, IfSome};
ghost use Rattle.std.specs.List.{position_or_len};
ghost use Rattle.plan.specs.PlanTime.{clock_seconds, first_of, seconds_from, seconds_of, slots_of, time_text, times};
ghost use Rattle.plan.specs.PlanTime.{is_no_digit, unit_of, unit_seconds};

use crate::number::number_within;
use crate::octets::{Octets, after_first, before_first, copy_of, without_front};
use itoa::Buffer;
use std::alloc::{AllocError, Global};

/// The seconds of hours, minutes and seconds, if all are there.
fn seconds_from(hours: Option<u64>, minutes: Option<u64>, seconds: Option<u64>) -> Option<u64>
    requires hours { IfSome hours (λ h. h ≤ 65535) }
    requires minutes { IfSome minutes (λ m. m ≤ 59) }
    requires seconds { IfSome seconds (λ s. s ≤ 59) }
    ensures value { result ≡ seconds_from hours minutes seconds }
    ensures bound { IfSome result (λ s. s ≤ 235929600) }
{
    match (hours, minutes, seconds) {
        (Some(hours), Some(minutes), Some(seconds)) => Some(hours * 3600 + minutes * 60 + seconds),
        _ => None,
    }
}

/// The seconds of a time as `h:mm:ss`.
fn clock_seconds(text: &[u8]) -> Option<u64>
    ensures value { result ≡ clock_seconds text.now }
    ensures bound { IfSome result (λ s. s ≤ 235929600) }
{
    let rest = after_first(text, b':');
    seconds_from(
        number_within(before_first(text, b':'), 0, 65535),
        number_within(before_first(rest, b':'), 0, 59),
        number_within(after_first(rest, b':'), 0, 59),
    )
}

/// How many seconds a unit has.
fn unit_of(word: &[u8]) -> Option<u64>
    ensures value { result ≡ unit_of word.now }
    ensures bound { IfSome result (λ s. s ≤ 3600) }
{
    if word == b"s".as_slice() {
        Some(1)
    } else if word == b"min".as_slice() {
        Some(60)
    } else if word == b"h".as_slice() {
        Some(3600)
    } else {
        None
    }
}

/// Whether an octet is no ASCII digit.
fn is_no_digit(octet: u8) -> bool
    ensures { result ≡ is_no_digit octet }
{
    !octet.is_ascii_digit()
}

/// Where the first octet is that is no digit.
fn first_after_digits(text: &[u8]) -> Option<usize>
    ensures { result ≡ position is_no_digit text.now }
{
    text.iter().position(|octet| is_no_digit(*octet))
}

/// How many digits a text begins with.
fn count_digits(text: &[u8]) -> usize
    ensures value { result ≡ position_or_len is_no_digit text.now }
    ensures bound { result ≤ length text.now }
{
    match first_after_digits(text) {
        Some(place) => place,
        None => text.len(),
    }
}

/// The seconds of so many units.
fn times(number: Option<u64>, unit: Option<u64>) -> Option<u64>
    requires number { IfSome number (λ n. n ≤ 65535) }
    requires unit { IfSome unit (λ u. u ≤ 3600) }
    ensures value { result ≡ times number unit }
    ensures bound { IfSome result (λ s. s ≤ 235929600) }
{
    match (number, unit) {
        (Some(number), Some(unit)) => Some(number * unit),
        _ => None,
    }
}

/// The seconds of a number with a unit behind it.
fn unit_seconds(alloc: Global, text: &[u8]) -> Result<Option<u64>, AllocError>
    ensures value { IfOk result (λ s. s ≡ unit_seconds text.now) }
    ensures bound { IfOk result (λ s. IfSome s (λ n. n ≤ 235929600)) }
{
    let (digits, rest) = text.split_at(count_digits(text));
    let word = without_front(rest).to_ascii_lowercase(alloc)?;
    Ok(times(number_within(digits, 0, 65535), unit_of(&word)))
}

/// The seconds of a time.
fn seconds_of(alloc: Global, text: &[u8]) -> Result<Option<u64>, AllocError>
    ensures value { IfOk result (λ s. s ≡ seconds_of text.now) }
    ensures bound { IfOk result (λ s. IfSome s (λ n. n ≤ 235929600)) }
{
    match clock_seconds(text) {
        Some(seconds) => Ok(Some(seconds)),
        None => unit_seconds(alloc, text),
    }
}

/// How many slots a time has, the last one maybe in part.
fn slots_of(seconds: u64) -> u64
    requires { seconds ≤ 235929600 }
    ensures { result ≡ slots_of seconds }
{
    (seconds * 13000 + 24479) / 24480
}

/// What stands in the book for a field of AT or PERIOD: the slots of a time, but no less than these, or else the field.
pub(crate) fn time_text(alloc: Global, least: u64, text: &[u8]) -> Result<Octets, AllocError>
    ensures { IfOk result (λ field. field ≡ time_text least text.now) }
{
    match seconds_of(alloc, text)? {
        Some(seconds) => {
            let mut buffer = Buffer::new();
            copy_of(
                alloc,
                buffer.format(slots_of(seconds).max(least)).as_bytes(),
            )
        }
        None => copy_of(alloc, text),
    }
}
