//! The messages that the octets of a stream are.

ghost use Rattle.std.specs.Prelude.{◌≡◌, ◌<◌, ◌≤◌, drop, length, OnOk};
ghost use Rattle.link_streams.specs.Directions.{is_type, may_be_messages};
ghost use Rattle.link_streams.specs.Stream.{cut_of, is_message, message_length, with_octet, with_octets};

use crate::message::{LinkOctets, LinkPacket, Way};
use byteorder::{BigEndian, ByteOrder};
use std::alloc::{AllocError, Global};
use std::mem;

/// How many octets say how long a message is.
const HEADER: usize = 4;

/// Which packet octets come in.
#[derive(Clone, Copy, Debug, PartialEq, Eq)]
pub struct Heading {
    /// The packet's number, from 1.
    pub number: u64,
    /// When it came, in nanoseconds from 1970-01-01T00:00:00Z on, if that is known.
    pub time: Option<u64>,
    /// From where to where they go.
    pub way: Way,
}

/// How many octets a message has, by its first four.
fn message_length(octets: &[u8]) -> usize
    requires { 4 ≤ length octets.now }
    ensures value { result ≡ message_length octets.now }
    ensures some { 0 < result }
{
    HEADER + BigEndian::read_u24(&octets[1..]) as usize
}

/// Whether octets are a whole message.
fn is_message(octets: &[u8]) -> bool
    ensures { result ≡ is_message octets.now }
{
    octets.len() >= HEADER && octets.len() == message_length(octets)
}

/// Whether a message may have this type.
fn is_type(number: u8) -> bool
    ensures { result ≡ is_type number }
{
    number >= 0x01 && number <= 0x17
}

/// Whether octets may be messages, from the first one on.
pub(crate) fn may_be_messages(octets: &[u8]) -> bool
    ensures { result ≡ may_be_messages (length octets.now) octets.now }
{
    let mut left = octets;
    for _ in 0..octets.len() {
        if left.is_empty() {
            return true;
        }
        let is_known = is_type(left[0]);
        if !is_known {
            return false;
        }
        left = after_message(left);
    }
    true
}

/// What follows the message that octets begin with; nothing if it isn't whole.
fn after_message(octets: &[u8]) -> &[u8]
    ensures { result.now ≡ drop (message_length octets.now) octets.now }
{
    if octets.len() < HEADER {
        return &[];
    }
    let length = message_length(octets);
    if octets.len() < length {
        return &[];
    }
    &octets[length..]
}

/// Takes one octet more of a stream.
fn take_octet(
    alloc: Global,
    begun: &mut LinkOctets,
    messages: &mut Vec<LinkPacket>,
    heading: Heading,
    octet: u8,
) -> Result<(), AllocError>
    ensures { OnOk result (cut_of begun.new messages.new.items
        ≡ with_octet heading (cut_of begun.old messages.old.items) octet) }
{
    begun.list.push(octet)?;
    if is_message(&begun.list) {
        let list = mem::replace(&mut begun.list, Vec::new(alloc));
        messages.push(LinkPacket {
            number: heading.number,
            time: heading.time,
            way: heading.way,
            octets: LinkOctets { list },
        })?;
    }
    Ok(())
}

/// Takes octets more of a stream, and the messages that are whole by them.
pub(crate) fn take_octets(
    alloc: Global,
    begun: &mut LinkOctets,
    messages: &mut Vec<LinkPacket>,
    heading: Heading,
    octets: &[u8],
) -> Result<(), AllocError>
    ensures { OnOk result (cut_of begun.new messages.new.items
        ≡ with_octets heading (cut_of begun.old messages.old.items) octets.now) }
{
    for octet in octets {
        take_octet(alloc, begun, messages, heading, *octet)?;
    }
    Ok(())
}
