//! Elements taken from the front of octets.

ghost use Rattle.std.specs.Prelude.{◌≡◌, ◌<◌, ◌∷◌, [], length, IfOk, IfErr, IfSome, MatchOption, Ok, Err};
ghost use Rattle.cbsp_wire.specs.Element as Number;
ghost use Rattle.cbsp_wire.specs.Element.{bodies_of};
ghost use Rattle.cbsp_wire.specs.Table.{presence_of, size_of};
ghost use Rattle.cbsp_wire.specs.Walk.{front_of, walk_of};

use crate::message::iei;
use crate::message::message_type::{MessageType, Presence};

/// Why no more elements are taken.
#[derive(Clone, Copy, Debug, PartialEq, Eq)]
pub(crate) enum WalkEnd {
    /// The octets are at their end.
    Complete,
    /// The next element isn't of this message.
    UnexpectedElement,
    /// The next element goes past the end.
    CutOff,
}

/// Hands the table of elements to another macro, in the order in which they are written: number, size of the body, what
/// each type of message needs in the order of `MessageType` (M mandatory, O optional, A absent), and the field's form
/// and name.
macro_rules! elements {
    ($reader:ident, $($argument:expr),*) => {
        $reader!($($argument),*;
            iei::MESSAGE_IDENTIFIER, fixed 2, M M M M M M, number id;
            iei::NEW_SERIAL_NUMBER, fixed 2, M M M A A A, number new_serial;
            iei::OLD_SERIAL_NUMBER, fixed 2, O O O M M M, number old_serial;
            iei::FAILURE_LIST, listed 2, A A M A A M, list failures;
            iei::BROADCASTS_COMPLETED, listed 2, A O O A O O, list completed;
            iei::CELL_LIST, listed 2, M O O M O O, list cells;
            iei::CHANNEL_INDICATOR, fixed 1, O O O O O O, octet channel;
            iei::CATEGORY, fixed 1, O A A A A A, octet category;
            iei::REPETITION_PERIOD, fixed 2, M A A A A A, number period;
            iei::BROADCASTS_REQUESTED, fixed 2, M A A A A A, number broadcasts;
            iei::NUMBER_OF_PAGES, fixed 1, M A A A A A, pages pages;
            iei::DATA_CODING, fixed 1, M A A A A A, octet dcs;
            iei::MESSAGE_CONTENT, fixed 83, M A A A A A, contents contents;
        )
    };
}

pub(crate) use elements;

macro_rules! presence {
    (M) => { Presence::Mandatory };
    (O) => { Presence::Optional };
    (A) => { Presence::Absent };
}

macro_rules! presence_for {
    ($message_type:expr, $number:expr; $($row:path, $form:ident $size:literal,
        $write:ident $write_done:ident $write_failed:ident $kill:ident $kill_done:ident $kill_failed:ident,
        $writer:ident $field:ident;)*) => {
        match $number {
            $($row => match $message_type {
                MessageType::Write => presence!($write),
                MessageType::WriteDone => presence!($write_done),
                MessageType::WriteFailed => presence!($write_failed),
                MessageType::Kill => presence!($kill),
                MessageType::KillDone => presence!($kill_done),
                MessageType::KillFailed => presence!($kill_failed),
            },)*
            _ => Presence::Absent,
        }
    };
}

macro_rules! size_by {
    ($octets:expr, fixed $size:literal) => { $size };
    ($octets:expr, listed $size:literal) => { $size + usize::from(u16_from_be($octets)) };
}

macro_rules! size_for {
    ($octets:expr, $number:expr; $($row:path, $form:ident $size:literal,
        $write:ident $write_done:ident $write_failed:ident $kill:ident $kill_done:ident $kill_failed:ident,
        $writer:ident $field:ident;)*) => {
        match $number {
            $($row => size_by!($octets, $form $size),)*
            _ => 0,
        }
    };
}

macro_rules! numbers_of {
    (; $($row:path, $form:ident $size:literal,
        $write:ident $write_done:ident $write_failed:ident $kill:ident $kill_done:ident $kill_failed:ident,
        $writer:ident $field:ident;)*) => {
        [$($row),*]
    };
}

/// The elements of messages, in the order in which they are written.
pub(crate) const NUMBERS: [u8; 13] = elements!(numbers_of,);

/// Whether a type of message has the element.
#[tactic(auto, unfolding(crate::specs::Table::table, crate::specs::Table::presence_of))]
pub(crate) fn presence(message_type: MessageType, number: u8) -> Presence
    ensures { result ≡ presence_of message_type number }
{
    elements!(presence_for, message_type, number)
}

/// The number that the first two octets are, the high one first; 0 if there are fewer.
pub(crate) fn u16_from_be(octets: &[u8]) -> u16
    ensures { result ≡ Number.u16_from_be octets.now }
{
    match octets {
        [high, low, ..] => u16::from(*high) * 256 + u16::from(*low),
        _ => 0,
    }
}

/// The first octet; 0 if there is none.
pub(crate) fn first_octet(octets: &[u8]) -> u8
    ensures { result ≡ Number.first_octet octets.now }
{
    match octets {
        [octet, ..] => *octet,
        [] => 0,
    }
}

/// How many octets the element's body takes, of the octets after its number.
#[tactic(auto, unfolding(crate::specs::Table::table, crate::specs::Table::size_of))]
fn size(number: u8, octets: &[u8]) -> usize
    ensures { result ≡ size_of number octets.now }
{
    elements!(size_for, octets, number)
}

/// The element at the front: its number, its body, and the octets after it.
pub(crate) fn front(message_type: MessageType, octets: &[u8]) -> Result<(u8, &[u8], &[u8]), WalkEnd>
    ensures taken { IfOk result
        (λ x. front_of message_type octets.now ≡ Ok (record { number = x.0; body = x.1.now }, x.2.now)) }
    ensures ended { IfErr result (λ s. front_of message_type octets.now ≡ Err s) }
    ensures shorter { IfOk result (λ x. length x.2.now < length octets.now) }
    ensures sized { IfOk result (λ x. length x.1.now ≡ size_of x.0 x.1.now) }
    ensures low { IfOk result (λ x. x.0 < 20) }
{
    let [number, after @ ..] = octets else {
        return Err(WalkEnd::Complete);
    };
    if presence(message_type, *number) == Presence::Absent {
        return Err(WalkEnd::UnexpectedElement);
    }
    let size = size(*number, after);
    if after.len() < size {
        return Err(WalkEnd::CutOff);
    }
    let (body, rest) = after.split_at(size);
    Ok((*number, body, rest))
}

/// The first element taken with this number: its body, and the octets after it.
pub(crate) fn find(message_type: MessageType, number: u8, octets: &[u8]) -> Option<(&[u8], &[u8])>
    ensures bodies { MatchOption result (bodies_of number (walk_of message_type octets.now).elements ≡ [])
        (λ x. bodies_of number (walk_of message_type octets.now).elements
        ≡ x.0.now ∷ bodies_of number (walk_of message_type x.1.now).elements) }
    ensures shorter { IfSome result (λ x. length x.1.now < length octets.now) }
    ensures sized { IfSome result (λ x. length x.0.now ≡ size_of number x.0.now) }
{
    let mut left = octets;
    'walk: loop {
        match front(message_type, left) {
            Ok((found, body, rest)) => {
                if found == number {
                    return Some((body, rest));
                }
                left = rest;
            }
            Err(_) => return None,
        }
    }
}
