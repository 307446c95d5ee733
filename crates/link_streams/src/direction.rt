//! One direction of a connection, as far as its packets came.

ghost use Rattle.std.specs.Prelude.{◌≡◌, OnOk};
ghost use Rattle.link_streams.specs.Segment.{segment_found};
ghost use Rattle.link_streams.specs.Stream.{carried_of, is_new_part, joined, with_data};
ghost use Rattle.link_streams.specs.Directions.{begins_direction, begins_messages, begun_by, first_place};
ghost use Rattle.link_streams.specs.Directions.{with_segment};

use crate::message::{LinkOctets, LinkPacket, Way};
use crate::messages::{Heading, may_be_messages, take_octets};
use crate::segment::SegmentFound;
use crate::waiting::{
    Waiting, WaitingList, distance, is_past, keep_past, octets_from, sequence_after,
};
use std::alloc::{AllocError, Global};

/// How many segments may wait past a gap.
const MOST_WAITING: usize = 256;

/// What is known of a direction.
#[derive(Drop)]
pub struct Direction {
    /// From where to where it goes.
    pub way: Way,
    /// The sequence number of the next octet of the stream.
    pub next: u32,
    /// The data that wait past a gap.
    pub waiting: WaitingList,
    /// The octets of the message that isn't whole yet.
    pub begun: LinkOctets,
}

impl Direction {
    /// A direction that begins with a segment.
    pub fn new(alloc: Global, segment: &SegmentFound) -> Direction
        ensures { result ≡ begun_by (segment_found segment.now) }
    {
        Direction {
            way: segment.way,
            next: first_place(segment),
            waiting: WaitingList {
                list: Vec::new(alloc),
            },
            begun: LinkOctets {
                list: Vec::new(alloc),
            },
        }
    }

    /// Takes a segment, and the messages that are whole by it.
    pub fn take_segment(
        &mut self,
        alloc: Global,
        messages: &mut Vec<LinkPacket>,
        heading: Heading,
        segment: &SegmentFound,
    ) -> Result<(), AllocError>
        ensures { OnOk result (carried_of self.new messages.new.items
            ≡ with_segment heading (segment_found segment.now) self.old messages.old.items) }
    {
        if segment.syn {
            *self = Direction::new(alloc, segment);
        }
        self.take_data(
            alloc,
            messages,
            heading,
            first_place(segment),
            segment.octets,
        )
    }

    /// Takes data whose first octet has this sequence number.
    #[tactic(auto, unfolding(crate::specs::Stream::with_data))]
    fn take_data(
        &mut self,
        alloc: Global,
        messages: &mut Vec<LinkPacket>,
        heading: Heading,
        first: u32,
        octets: &[u8],
    ) -> Result<(), AllocError>
        ensures { OnOk result (carried_of self.new messages.new.items
            ≡ with_data heading self.old messages.old.items (record { first = first; octets = octets.now })) }
    {
        if !self.is_new_part(first, octets) {
            return Ok(());
        }
        let list = Vec::from_slice(alloc, octets)?;
        self.waiting.list.push(Waiting {
            first,
            octets: LinkOctets { list },
        })?;
        self.join(alloc, messages, heading)
    }

    /// Whether data are kept.
    fn is_new_part(&self, first: u32, octets: &[u8]) -> bool
        ensures { result ≡ is_new_part self.now (record { first = first; octets = octets.now }) }
    {
        let count = octets.len();
        count > 0
            && is_past(self.next, first, count)
            && ((distance(first, self.next) as usize) < count
                || self.waiting.list.len() < MOST_WAITING)
    }

    /// Goes on with all octets that are there, up to the first gap.
    #[tactic(auto, unfolding(crate::specs::Stream::joined))]
    fn join(
        &mut self,
        alloc: Global,
        messages: &mut Vec<LinkPacket>,
        heading: Heading,
    ) -> Result<(), AllocError>
        ensures { OnOk result (carried_of self.new messages.new.items
            ≡ joined heading self.old messages.old.items) }
    {
        let octets = octets_from(alloc, &self.waiting.list, self.next)?;
        self.next = sequence_after(self.next, octets.len());
        keep_past(&mut self.waiting.list, self.next);
        take_octets(alloc, &mut self.begun, messages, heading, &octets)
    }
}

/// The sequence number of the first octet of a segment's data.
fn first_place(segment: &SegmentFound) -> u32
    ensures { result ≡ first_place (segment_found segment.now) }
{
    sequence_after(segment.sequence, usize::from(segment.syn))
}

/// Whether data may be messages, one at least.
fn begins_messages(octets: &[u8]) -> bool
    ensures { result ≡ begins_messages octets.now }
{
    !octets.is_empty() && may_be_messages(octets)
}

/// Whether a direction begins with a segment.
pub(crate) fn begins_direction(segment: &SegmentFound) -> bool
    ensures { result ≡ begins_direction (segment_found segment.now) }
{
    segment.syn || begins_messages(segment.octets)
}
