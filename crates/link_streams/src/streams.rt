//! The messages of the link in a capture file, packet by packet.

ghost use Rattle.std.specs.Prelude.{◌≡◌, ◌+◌, ◌<◌, ◌^◌, [], ℕ, length, IfErr, IfOk, OnOk, None, Ok};
ghost use Rattle.gsmtap.specs.PieceSteps.{packet_of};
ghost use Rattle.link_streams.specs.Segment.{segment_found};
ghost use Rattle.link_streams.specs.Streams.{AreMessagesIn, IsLinkFault, after_segment, after_segment_at, follow};
ghost use Rattle.link_streams.specs.Streams.{is_way, direction_place};
ghost use Rattle.link_streams.specs.StreamsSteps.{HaveFollowed, IsUnfollowed};
ghost use Rattle.link_streams.specs.StreamsSteps.{followed_by};

use crate::direction::{Direction, begins_direction};
use crate::message::{LinkPacket, Way};
use crate::messages::Heading;
use crate::segment::{SegmentFound, segment_in};
use gsmtap::file::link_numbered;
use gsmtap::tape::{fault_at, opened};
use gsmtap::{AirFault, AirFaultKind, Captured, TakesPackets, take_all};
use std::alloc::{AllocError, Global};

/// The directions of all connections of the link, and its messages, in the packets that came so far.
#[derive(Drop)]
pub struct LinkStreams {
    alloc: Global,
    directions: Vec<Direction>,
    messages: Vec<LinkPacket>,
}

impl LinkStreams {
    /// No packet came.
    pub fn new(alloc: Global) -> LinkStreams
        ensures { HaveFollowed [] result }
    {
        LinkStreams {
            alloc,
            directions: Vec::new(alloc),
            messages: Vec::new(alloc),
        }
    }

    /// Takes a packet, before which so many came.
    ///
    /// # Errors
    ///
    /// Returns the fault of a packet whose link type isn't known, and out of memory.
    pub fn follow(&mut self, before: u64, packet: &Captured) -> Result<(), AirFault>
        requires { before < 2 ^ 45 }
        ensures followed { OnOk result (follow (followed_by before self.old) (packet_of packet.now)
            ≡ Ok (followed_by (before + 1) self.new)) }
        ensures fault { IfErr result (IsUnfollowed before self.old (packet_of packet.now)) }
    {
        let Some(link) = link_numbered(packet.link) else {
            return Err(fault_at(before + 1, AirFaultKind::OtherLink(packet.link)));
        };
        let Some(segment) = segment_in(link, packet.octets) else {
            return Ok(());
        };
        self.take_segment(before + 1, packet.time, &segment)?;
        Ok(())
    }

    /// Takes a segment, in the packet of this number.
    #[tactic(auto, unfolding(crate::specs::Streams::after_segment))]
    fn take_segment(
        &mut self,
        number: u64,
        time: Option<u64>,
        segment: &SegmentFound,
    ) -> Result<(), AllocError>
        ensures { OnOk result ((packets : ℕ) → followed_by packets self.new
            ≡ after_segment number time (followed_by packets self.old) (segment_found segment.now)) }
    {
        let heading = Heading {
            number,
            time,
            way: segment.way,
        };
        match direction_place(segment.way, &self.directions) {
            Some(place) => {
                let direction = &mut self.directions[place];
                direction.take_segment(self.alloc, &mut self.messages, heading, segment)
            }
            None => self.begin(heading, segment),
        }
    }

    /// Takes the first segment of a direction, if it begins one.
    fn begin(&mut self, heading: Heading, segment: &SegmentFound) -> Result<(), AllocError>
        ensures { OnOk result ((packets : ℕ) → followed_by packets self.new
            ≡ after_segment_at heading (followed_by packets self.old) (segment_found segment.now) None) }
    {
        if !begins_direction(segment) {
            return Ok(());
        }
        let mut direction = Direction::new(self.alloc, segment);
        direction.take_segment(self.alloc, &mut self.messages, heading, segment)?;
        self.directions.push(direction)?;
        Ok(())
    }

    /// The messages of the packets that came.
    pub fn messages(self) -> Vec<LinkPacket>
        ensures { result.items ≡ (followed_by 0 self).messages }
    {
        self.messages
    }
}

impl TakesPackets for LinkStreams {
    ghost use Rattle.link_streams.specs.Streams.{Followed, for_messages};
    ghost use Rattle.link_streams.specs.StreamsSteps.{HaveFollowed};

    ghost Given = { Unit {0} };

    ghost State = { Followed };

    ghost taking = { λ _. for_messages };

    ghost HasTaken = { λ _. HaveFollowed };

    fn take(&mut self, before: u64, packet: &Captured) -> Result<(), AirFault> {
        self.follow(before, packet)
    }
}

/// The place of a direction, if it is there.
fn direction_place(way: Way, directions: &[Direction]) -> Option<usize>
    ensures { result ≡ direction_place way directions.now }
{
    directions.iter().position(|one| is_way(way, one.way))
}

/// Whether two directions are one.
fn is_way(a: Way, b: Way) -> bool
    ensures { result ≡ is_way a b }
{
    a == b
}

/// The messages of the link in a capture file, in the order in which they came: by the packets by which they became
/// whole, and in a packet as they stand in the stream.
///
/// # Errors
///
/// Returns the fault of the first packet or block that has one, or of the file's begin, which is packet 0, and out of
/// memory.
pub fn messages_of_capture(alloc: Global, input: &[u8]) -> Result<Vec<LinkPacket>, AirFault>
    requires { length input.now < 2 ^ 48 }
    ensures messages { IfOk result (λ messages. AreMessagesIn input.now messages.items) }
    ensures fault { IfErr result (IsLinkFault input.now) }
{
    let (reader, octets) = match opened(alloc, input) {
        Ok(opened) => opened,
        Err(kind) => return Err(fault_at(0, kind)),
    };
    match take_all(reader, octets, LinkStreams::new(alloc)) {
        Ok(streams) => Ok(streams.messages()),
        Err(fault) => Err(fault),
    }
}
