//! One block as a packet of a capture.

ghost use Rattle.std.specs.Prelude.{◌≡◌, ◌+◌, ◌*◌, ◌<◌, ◌^◌, ◌++◌, OnOk};
ghost use Rattle.gsmtap.specs.Packet.{channel_number, checksum, clock_time, datagram_header, first_frame};
ghost use Rattle.gsmtap.specs.Packet.{frame_number, internet_header};
ghost use Rattle.gsmtap.specs.Packet.{microseconds, packet, record_header, tap_header, words_after, words_before};

use byteorder::{BigEndian, ByteOrder, LittleEndian};
use cbsp_wire::Cell;
use std::alloc::AllocError;

/// The port of GSMTAP.
const PORT: u16 = 4729;

/// How many octets a packet has from its IPv4 header on.
const LENGTH: u32 = 67;

/// How many seconds a file can say before they go round.
const SECONDS: u64 = 0x1_0000_0000;

/// The cell broadcast channel that blocks are said to come from. It stands beside other SDCCHs, in place of their
/// number 2 (3GPP TS 45.002, clause 7).
#[derive(Clone, Copy, Debug, PartialEq, Eq)]
pub enum Channel {
    /// That beside SDCCH/4: CBCH51, number 15.
    BesideSdcch4,
    /// That beside SDCCH/8: CBCH52, number 12.
    BesideSdcch8,
}

impl Channel {
    /// The channel's number in GSMTAP.
    pub fn number(self) -> u8
        ensures { result ≡ channel_number self }
    {
        match self {
            Channel::BesideSdcch4 => 15,
            Channel::BesideSdcch8 => 12,
        }
    }

    /// The first of the four frames of a 51-multiframe in which it sends a block.
    fn first_frame(self) -> u32
        ensures { result ≡ first_frame self }
    {
        match self {
            Channel::BesideSdcch4 => 32,
            Channel::BesideSdcch8 => 8,
        }
    }
}

/// When the first slot of a tape begins, on the clock of a capture: the time since 1970-01-01T00:00:00Z.
#[derive(Clone, Copy, Debug, PartialEq, Eq)]
pub struct Start {
    /// Its seconds. A file has 32 bits for the seconds of a packet, and later times go round.
    pub second: u32,
    /// Microseconds beside them.
    pub microsecond: u32,
}

/// Where a block stands on the air.
#[derive(Clone, Copy, Debug, PartialEq, Eq)]
pub struct Place {
    /// The number of its tape, from 0.
    pub tape: u16,
    /// The cell that sends it.
    pub cell: Cell,
    /// Its slot, from 0.
    pub slot: u16,
    /// Which block of the slot it is, 0 to 3.
    pub block: u8,
}

/// Appends a block as a packet. The only error is out of memory, and then a part of the packet may be there.
#[tactic(auto, unfolding(crate::specs::Packet::packet))]
pub fn push_packet(
    output: &mut Vec<u8>,
    start: Start,
    channel: Channel,
    place: &Place,
    block: &[u8; 23],
) -> Result<(), AllocError>
    ensures { OnOk result (output.new.items ≡ output.old.items ++ packet start channel place.now block.now) }
{
    output.extend_from_slice(&record_header(start, place))?;
    output.extend_from_slice(&internet_header(place))?;
    output.extend_from_slice(&datagram_header())?;
    output.extend_from_slice(&tap_header(channel, place))?;
    output.extend_from_slice(block)
}

/// When a block is sent, in microseconds.
fn microseconds(place: &Place) -> u64
    ensures time { result ≡ microseconds place.now }
    ensures bound { result < 2 ^ 37 }
{
    (8 * u64::from(place.slot) + u64::from(place.block)) * 51 * 120_000 / 26
}

/// When a block is sent, in microseconds of the clock.
fn clock_time(start: Start, place: &Place) -> u64
    ensures { result ≡ clock_time start place.now }
{
    1_000_000 * u64::from(start.second) + u64::from(start.microsecond) + microseconds(place)
}

/// The number of a block's first frame.
fn frame_number(channel: Channel, place: &Place) -> u32
    ensures { result ≡ frame_number channel place.now }
{
    let multiframe = 8 * u64::from(place.slot) + u64::from(place.block);
    ((multiframe * 51 + u64::from(channel.first_frame())) % 2_715_648) as u32
}

/// The header of a packet in the file.
#[tactic(auto, unfolding(crate::specs::Packet::record_header))]
fn record_header(start: Start, place: &Place) -> [u8; 16]
    ensures { result ≡ record_header start place.now }
{
    let time = clock_time(start, place);
    let mut octets = [0; 16];
    let words = [
        (time / 1_000_000 % SECONDS) as u32,
        (time % 1_000_000) as u32,
        LENGTH,
        LENGTH,
    ];
    LittleEndian::write_u32_into(&words, &mut octets);
    octets
}

/// The IPv4 header.
#[tactic(auto, unfolding(crate::specs::Packet::internet_header))]
fn internet_header(place: &Place) -> [u8; 20]
    ensures { result ≡ internet_header place.now }
{
    let mut words = [
        0x4500,
        LENGTH as u16,
        place.slot,
        0,
        0x4011,
        0,
        place.cell.lac,
        place.cell.ci,
        0x0A00,
        place.tape,
    ];
    words[5] = checksum(&words);
    let mut octets = [0; 20];
    BigEndian::write_u16_into(&words, &mut octets);
    octets
}

/// The checksum of a header's words, among which it still is 0.
#[tactic(auto, unfolding(crate::specs::Packet::checksum))]
fn checksum(words: &[u16; 10]) -> u16
    ensures { result ≡ checksum words.now }
{
    let mut sum = 0;
    for word in words {
        sum += u32::from(*word);
    }
    ((655_350 - sum) % 65_535) as u16
}

/// The UDP header.
#[tactic(auto, unfolding(crate::specs::Packet::datagram_header))]
fn datagram_header() -> [u8; 8]
    ensures { result ≡ datagram_header }
{
    let mut octets = [0; 8];
    BigEndian::write_u16_into(&[PORT, PORT, 47, 0], &mut octets);
    octets
}

/// The GSMTAP header.
#[tactic(auto, unfolding(crate::specs::Packet::tap_header))]
fn tap_header(channel: Channel, place: &Place) -> [u8; 16]
    ensures { result ≡ tap_header channel place.now }
{
    let [first, second, third, fourth] = frame_number(channel, place).to_be_bytes();
    [
        2,
        4,
        1,
        0,
        0,
        0,
        0,
        0,
        first,
        second,
        third,
        fourth,
        channel.number(),
        0,
        2,
        0,
    ]
}
