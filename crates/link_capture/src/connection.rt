//! A connection as packets of a capture.

ghost use Rattle.std.specs.Prelude.{◌≡◌, ◌++◌, OnOk};
ghost use Rattle.link_capture.specs.Connection.{connection_packets, opening, packets_from, past, place_of};
ghost use Rattle.link_capture.specs.Connection.{places_after, message_segment, segment_with};
ghost use Rattle.link_capture.specs.Segment.{segment_packet};

use crate::segment::{LinkSide, Segment, other_side, push_packet};
use gsmtap::Start;
use std::alloc::AllocError;
use std::marker::Model;

/// Flags of TCP (RFC 9293, 3.1).
const SYN: u8 = 0x02;

const ACK: u8 = 0x10;

const PSH: u8 = 0x08;

/// The octets of a message: `MessageOctets { list }` of a `Vec`. In clauses they are the list itself.
#[derive(Debug, Drop)]
pub struct MessageOctets {
    /// The octets.
    pub list: Vec<u8>,
}

impl Model for MessageOctets {
    ghost use Rattle.std.specs.Prelude.{ℕ, List};

    ghost Value = { List ℕ };

    ghost view = { λ octets. octets.list.items };
}

/// A message that is sent over a connection.
#[derive(Debug, Drop)]
pub struct LinkSent {
    /// The slot at whose begin it is sent.
    pub slot: u16,
    /// Who sends it.
    pub sender: LinkSide,
    /// Its octets, at most 65,495: the length of a packet that has more goes round after 16 bits.
    pub octets: MessageOctets,
}

/// The places of the sides' next octets.
#[derive(Clone, Copy)]
pub(crate) struct Places {
    pub(crate) centre: u32,
    pub(crate) controller: u32,
}

/// The place of the next octet of a side.
fn place_of(side: LinkSide, places: Places) -> u32
    ensures { result ≡ place_of side places }
{
    match side {
        LinkSide::Centre => places.centre,
        LinkSide::Controller => places.controller,
    }
}

/// The place after octets.
fn past(place: u32, octets: &[u8]) -> u32
    ensures { result ≡ past place octets.now }
{
    ((u64::from(place) + octets.len() as u64) % 0x1_0000_0000) as u32
}

/// The places after a side sent octets.
fn places_after(side: LinkSide, octets: &[u8], places: Places) -> Places
    ensures { result ≡ places_after side octets.now places }
{
    match side {
        LinkSide::Centre => Places {
            centre: past(places.centre, octets),
            controller: places.controller,
        },
        LinkSide::Controller => Places {
            centre: places.centre,
            controller: past(places.controller, octets),
        },
    }
}

/// A segment.
fn segment_with(connection: u8, sender: LinkSide, sequence: u32, awaited: u32, flags: u8) -> Segment
    ensures { result ≡ segment_with connection sender sequence awaited flags }
{
    Segment {
        connection,
        sender,
        sequence,
        awaited,
        flags,
    }
}

/// Appends the segments that open a connection. The only error is out of memory, here and below.
#[tactic(auto, unfolding(crate::specs::Connection::opening))]
fn push_opening(
    output: &mut Vec<u8>,
    start: Start,
    slot: u16,
    connection: u8,
) -> Result<(), AllocError>
    ensures { OnOk result (output.new.items ≡ output.old.items ++ opening start slot connection) }
{
    let asked = segment_with(connection, LinkSide::Centre, 0, 0, SYN);
    push_packet(output, start, slot, asked, &[])?;
    let answered = segment_with(connection, LinkSide::Controller, 0, 1, SYN + ACK);
    push_packet(output, start, slot, answered, &[])?;
    let known = segment_with(connection, LinkSide::Centre, 1, 1, ACK);
    push_packet(output, start, slot, known, &[])
}

/// The segment of a message.
fn message_segment(connection: u8, places: Places, sender: LinkSide) -> Segment
    ensures { result ≡ message_segment connection places sender }
{
    segment_with(
        connection,
        sender,
        place_of(sender, places),
        place_of(other_side(sender), places),
        PSH + ACK,
    )
}

/// Appends the packet of a message.
fn push_sent(
    output: &mut Vec<u8>,
    start: Start,
    connection: u8,
    places: Places,
    sent: &LinkSent,
) -> Result<(), AllocError>
    ensures { OnOk result (output.new.items ≡ output.old.items
        ++ segment_packet start sent.now.slot (message_segment connection places sent.now.sender) sent.now.octets) }
{
    let segment = message_segment(connection, places, sent.sender);
    push_packet(output, start, sent.slot, segment, &sent.octets.list)
}

/// Appends the packets of messages.
fn push_all(
    output: &mut Vec<u8>,
    start: Start,
    connection: u8,
    all: &[LinkSent],
) -> Result<(), AllocError>
    ensures { OnOk result (output.new.items ≡ output.old.items
        ++ packets_from start connection (record { centre = 1; controller = 1 }) all.now) }
{
    let mut places = Places {
        centre: 1,
        controller: 1,
    };
    for sent in all {
        push_sent(output, start, connection, places, sent)?;
        places = places_after(sent.sender, &sent.octets.list, places);
    }
    Ok(())
}

/// Appends the packets of a connection on which these messages are sent one after the other, each in one packet, at the
/// begin of its slot, where slot 0 begins at this time. Three packets before them open the connection. There is none
/// for no message. The centre has port 40,000 and the number of the connection, the controller 48,049.
///
/// # Errors
///
/// Out of memory, and then a part of the packets may be there.
pub fn push_connection(
    output: &mut Vec<u8>,
    start: Start,
    connection: u8,
    all: &[LinkSent],
) -> Result<(), AllocError>
    ensures { OnOk result (output.new.items ≡ output.old.items ++ connection_packets start connection all.now) }
{
    match all.first() {
        Some(first) => {
            push_opening(output, start, first.slot, connection)?;
            push_all(output, start, connection, all)
        }
        None => Ok(()),
    }
}
