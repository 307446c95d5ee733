//! A segment of TCP as a packet of a capture.

ghost use Rattle.std.specs.Prelude.{◌≡◌, ◌++◌, ◌<◌, ◌^◌, length, OnOk};
ghost use Rattle.gsmtap.specs.Capture.{file_header};
ghost use Rattle.link_capture.specs.Segment.{address_low, internet_header_of, internet_words, other_side};
ghost use Rattle.link_capture.specs.Segment.{packet_header, port_of, pseudo_sum, segment_length, segment_packet};
ghost use Rattle.link_capture.specs.Segment.{link_time, transport_checksum, transport_header, transport_words};
ghost use Rattle.link_capture.specs.Segment.{whole_length};

use crate::sums::{complement, octet_sum, sum_of};
use byteorder::{BigEndian, ByteOrder, LittleEndian};
use gsmtap::Start;
use std::alloc::AllocError;

/// How many seconds a file can say before they go round.
const SECONDS: u64 = 0x1_0000_0000;

/// Who sends.
#[derive(Clone, Copy, Debug, PartialEq, Eq)]
pub enum LinkSide {
    /// The cell broadcast centre, at 10.0.0.1.
    Centre,
    /// The base station controller, at 10.0.0.2.
    Controller,
}

/// What a segment says beside its octets.
#[derive(Clone, Copy)]
pub(crate) struct Segment {
    /// The number of its connection.
    pub(crate) connection: u8,
    /// Who sends it.
    pub(crate) sender: LinkSide,
    /// The place of its first octet (RFC 9293, 3.4).
    pub(crate) sequence: u32,
    /// The place of the octet that is awaited of the other side.
    pub(crate) awaited: u32,
    /// Its flags.
    pub(crate) flags: u8,
}

/// The other side.
pub(crate) fn other_side(side: LinkSide) -> LinkSide
    ensures { result ≡ other_side side }
{
    match side {
        LinkSide::Centre => LinkSide::Controller,
        LinkSide::Controller => LinkSide::Centre,
    }
}

/// The low word of a side's address.
fn address_low(side: LinkSide) -> u16
    ensures value { result ≡ address_low side }
    ensures bound { result < 3 }
{
    match side {
        LinkSide::Centre => 1,
        LinkSide::Controller => 2,
    }
}

/// The port of a side.
fn port_of(side: LinkSide, connection: u8) -> u16
    ensures { result ≡ port_of side connection }
{
    match side {
        LinkSide::Centre => 40_000 + u16::from(connection),
        LinkSide::Controller => 48_049,
    }
}

/// The file's header.
#[tactic(auto, unfolding(gsmtap::specs::Capture::file_header))]
pub fn file_header() -> [u8; 24]
    ensures { result ≡ file_header }
{
    let mut octets = [0; 24];
    LittleEndian::write_u32_into(&[0xA1B2_C3D4, 0x0004_0002, 0, 0, 65_535, 228], &mut octets);
    octets
}

/// When a slot begins, in microseconds of the clock.
fn link_time(start: Start, slot: u16) -> u64
    ensures { result ≡ link_time start slot }
{
    let after = (u64::from(slot) * 24_480_000 + 12) / 13;
    1_000_000 * u64::from(start.second) + u64::from(start.microsecond) + after
}

/// The header of a packet in the file.
#[tactic(auto, unfolding(crate::specs::Segment::packet_header))]
fn packet_header(start: Start, slot: u16, size: u16) -> [u8; 16]
    ensures { result ≡ packet_header start slot size }
{
    let time = link_time(start, slot);
    let mut octets = [0; 16];
    let words = [
        (time / 1_000_000 % SECONDS) as u32,
        (time % 1_000_000) as u32,
        u32::from(size),
        u32::from(size),
    ];
    LittleEndian::write_u32_into(&words, &mut octets);
    octets
}

/// The words of the IPv4 header.
#[tactic(auto, unfolding(crate::specs::Segment::internet_words))]
fn internet_words(sender: LinkSide, size: u16, checksum: u16) -> [u16; 10]
    ensures { result ≡ internet_words sender size checksum }
{
    [
        0x4500,
        size,
        0,
        0,
        0x4006,
        checksum,
        0x0A00,
        address_low(sender),
        0x0A00,
        address_low(other_side(sender)),
    ]
}

/// The IPv4 header.
#[tactic(auto, unfolding(crate::specs::Segment::internet_header_of))]
fn internet_header_of(sender: LinkSide, size: u16) -> [u8; 20]
    ensures { result ≡ internet_header_of sender size }
{
    let checksum = complement(sum_of(&internet_words(sender, size, 0)));
    let words = internet_words(sender, size, checksum);
    let mut octets = [0; 20];
    BigEndian::write_u16_into(&words, &mut octets);
    octets
}

/// The words of the TCP header.
#[tactic(auto, unfolding(crate::specs::Segment::transport_words))]
fn transport_words(segment: Segment, checksum: u16) -> [u16; 10]
    ensures { result ≡ transport_words segment checksum }
{
    [
        port_of(segment.sender, segment.connection),
        port_of(other_side(segment.sender), segment.connection),
        (segment.sequence / 65_536) as u16,
        (segment.sequence % 65_536) as u16,
        (segment.awaited / 65_536) as u16,
        (segment.awaited % 65_536) as u16,
        0x5000 + u16::from(segment.flags),
        65_535,
        checksum,
        0,
    ]
}

/// The sum of the words of the pseudo header.
fn pseudo_sum(sender: LinkSide, size: u16) -> u32
    ensures value { result ≡ pseudo_sum sender size }
    ensures bound { result < 2 ^ 18 }
{
    0x0A00
        + u32::from(address_low(sender))
        + 0x0A00
        + u32::from(address_low(other_side(sender)))
        + 6
        + u32::from(size)
}

/// How many octets a packet has from its IPv4 header on.
fn whole_length(octets: &[u8]) -> u16
    ensures { result ≡ whole_length octets.now }
{
    ((40 + octets.len() as u64) % 65_536) as u16
}

/// How many octets a segment has from its header on.
fn segment_length(octets: &[u8]) -> u16
    ensures { result ≡ segment_length octets.now }
{
    ((20 + octets.len() as u64) % 65_536) as u16
}

/// The checksum of a segment with its octets.
fn transport_checksum(segment: Segment, octets: &[u8]) -> u16
    ensures { result ≡ transport_checksum segment octets.now }
{
    let head = sum_of(&transport_words(segment, 0));
    let around = pseudo_sum(segment.sender, segment_length(octets));
    complement(around + head + octet_sum(octets))
}

/// The TCP header.
#[tactic(auto, unfolding(crate::specs::Segment::transport_header))]
fn transport_header(segment: Segment, octets: &[u8]) -> [u8; 20]
    ensures { result ≡ transport_header segment octets.now }
{
    let words = transport_words(segment, transport_checksum(segment, octets));
    let mut header = [0; 20];
    BigEndian::write_u16_into(&words, &mut header);
    header
}

/// Appends a segment with its octets as a packet. The only error is out of memory, and then a part of it may be there.
#[tactic(auto, unfolding(crate::specs::Segment::segment_packet))]
pub(crate) fn push_packet(
    output: &mut Vec<u8>,
    start: Start,
    slot: u16,
    segment: Segment,
    octets: &[u8],
) -> Result<(), AllocError>
    ensures { OnOk result (output.new.items ≡ output.old.items ++ segment_packet start slot segment octets.now) }
{
    let size = whole_length(octets);
    output.extend_from_slice(&packet_header(start, slot, size))?;
    output.extend_from_slice(&internet_header_of(segment.sender, size))?;
    output.extend_from_slice(&transport_header(segment, octets))?;
    output.extend_from_slice(octets)
}
