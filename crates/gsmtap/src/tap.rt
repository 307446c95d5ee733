//! The block that a packet carries in GSMTAP.

ghost use Rattle.std.specs.Prelude.{◌≡◌, ◌≤◌, length, option_copied, option_map, true, IfSome};
ghost use Rattle.gsmtap.specs.Heard.{channel_of, is_heard, station_in};
ghost use Rattle.gsmtap.specs.Tap.{after_cooked_two, after_family, after_header, after_type, block_of, datagram_of};
ghost use Rattle.gsmtap.specs.Tap.{internet_of, is_from, is_marked, is_on, is_tag, payload_of, sent_in, without_tag};

use crate::file::Link;
use crate::tape::{ChannelType, Sender};
use crate::track::place_in;
use byteorder::{BigEndian, ByteOrder, LittleEndian};

/// The port of GSMTAP.
const PORT: u16 = 4729;

/// The type of IPv4 in a header of Ethernet.
const INTERNET: u16 = 0x0800;

/// The number of IPv4 in a header of the loopback device.
const FAMILY: u32 = 2;

/// A block that was sent.
#[derive(Clone, Copy, Debug, PartialEq, Eq)]
pub struct Sent {
    /// The number of its first frame.
    pub frame: u32,
    /// Its octets.
    pub block: [u8; 23],
}

/// A sender of blocks of a cell broadcast channel, as its packets name it.
#[derive(Clone, Copy, Debug, PartialEq, Eq)]
pub struct Station {
    /// The IPv4 address that they come from.
    pub address: u32,
    /// The number of the radio channel (ARFCN), in 14 bits.
    pub arfcn: u16,
    /// How they mark a block of a cell broadcast channel.
    pub channel: ChannelType,
}

/// The block that a packet carries: one of a cell broadcast channel, from the wanted sender.
#[tactic(auto, unfolding(crate::specs::Tap::sent_in))]
pub fn sent_in(link: Link, from: Sender, octets: &[u8]) -> Option<Sent>
    ensures { result ≡ sent_in link from octets.now }
{
    let internet = internet_of(link, octets)?;
    let datagram = datagram_of(from.address, internet)?;
    let payload = payload_of(datagram)?;
    block_of(from, payload)
}

/// The IPv4 packet in a packet.
#[tactic(auto, unfolding(crate::specs::Tap::internet_of))]
pub fn internet_of(link: Link, octets: &[u8]) -> Option<&[u8]>
    ensures { option_copied result ≡ internet_of link octets.now }
{
    match link {
        Link::Internet => Some(octets),
        Link::Ethernet => after_header(12, octets),
        Link::Cooked => after_header(14, octets),
        Link::CookedTwo => after_cooked_two(octets),
        Link::Loopback => after_family(octets),
    }
}

/// Whether a type is that of a tag of a virtual network (IEEE 802.1Q).
fn is_tag(number: u16) -> bool
    ensures { result ≡ is_tag number }
{
    number == 0x8100 || number == 0x88A8
}

/// What follows a tag of a virtual network, if octets begin with one.
#[tactic(auto, unfolding(crate::specs::Tap::without_tag))]
fn without_tag(octets: &[u8]) -> &[u8]
    ensures { result.now ≡ without_tag octets.now }
{
    if octets.len() >= 4 && is_tag(BigEndian::read_u16(octets)) {
        &octets[4..]
    } else {
        octets
    }
}

/// What follows the type of IPv4.
#[tactic(auto, unfolding(crate::specs::Tap::after_type))]
fn after_type(octets: &[u8]) -> Option<&[u8]>
    ensures { option_copied result ≡ after_type octets.now }
{
    if octets.len() >= 2 && BigEndian::read_u16(octets) == INTERNET {
        Some(&octets[2..])
    } else {
        None
    }
}

/// What follows a header of this many octets, two tags at most, and the type of IPv4.
#[tactic(auto, unfolding(crate::specs::Tap::after_header))]
fn after_header(header: usize, octets: &[u8]) -> Option<&[u8]>
    ensures { option_copied result ≡ after_header header octets.now }
{
    if octets.len() < header {
        return None;
    }
    after_type(without_tag(without_tag(&octets[header..])))
}

/// What follows a cooked header of the second version, which begins with the type.
#[tactic(auto, unfolding(crate::specs::Tap::after_cooked_two))]
fn after_cooked_two(octets: &[u8]) -> Option<&[u8]>
    ensures { option_copied result ≡ after_cooked_two octets.now }
{
    if octets.len() >= 20 && BigEndian::read_u16(octets) == INTERNET {
        Some(&octets[20..])
    } else {
        None
    }
}

/// What follows the number of IPv4 in a header of the loopback device. The machine that took it chose the order of its
/// octets.
#[tactic(auto, unfolding(crate::specs::Tap::after_family))]
fn after_family(octets: &[u8]) -> Option<&[u8]>
    ensures { option_copied result ≡ after_family octets.now }
{
    if octets.len() >= 4
        && (LittleEndian::read_u32(octets) == FAMILY || BigEndian::read_u32(octets) == FAMILY)
    {
        Some(&octets[4..])
    } else {
        None
    }
}

/// The UDP datagram in an IPv4 packet.
#[tactic(auto, unfolding(crate::specs::Tap::datagram_of))]
fn datagram_of(from: Option<u32>, octets: &[u8]) -> Option<&[u8]>
    ensures datagram { option_copied result ≡ datagram_of from octets.now }
    ensures long { IfSome result (λ datagram. 20 ≤ length octets.now) }
{
    if octets.len() < 20 {
        return None;
    }
    let header = 4 * usize::from(octets[0] % 16);
    let is_whole = BigEndian::read_u16(&octets[6..]) % 0x4000 == 0;
    if octets[0] / 16 == 4
        && header >= 20
        && header <= octets.len()
        && is_whole
        && octets[9] == 17
        && is_from(from, octets)
    {
        Some(&octets[header..])
    } else {
        None
    }
}

/// Whether an IPv4 packet comes from the wanted address.
fn is_from(from: Option<u32>, octets: &[u8]) -> bool
    requires { 20 ≤ length octets.now }
    ensures { result ≡ is_from from octets.now }
{
    match from {
        None => true,
        Some(address) => BigEndian::read_u32(&octets[12..]) == address,
    }
}

/// What a datagram to GSMTAP's port carries.
#[tactic(auto, unfolding(crate::specs::Tap::payload_of))]
fn payload_of(octets: &[u8]) -> Option<&[u8]>
    ensures { option_copied result ≡ payload_of octets.now }
{
    if octets.len() < 8 {
        return None;
    }
    let length = usize::from(BigEndian::read_u16(&octets[4..]));
    if BigEndian::read_u16(&octets[2..]) == PORT && length >= 8 && length <= octets.len() {
        Some(&octets[8..length])
    } else {
        None
    }
}

/// Whether GSMTAP names the wanted radio channel, in the low 14 bits of its number.
fn is_on(arfcn: Option<u16>, octets: &[u8]) -> bool
    requires { 16 ≤ length octets.now }
    ensures { result ≡ is_on arfcn octets.now }
{
    match arfcn {
        None => true,
        Some(number) => BigEndian::read_u16(&octets[4..]) % 0x4000 == number,
    }
}

/// Whether GSMTAP marks a block of a cell broadcast channel so.
fn is_marked(channel: ChannelType, octets: &[u8]) -> bool
    requires { 16 ≤ length octets.now }
    ensures { result ≡ is_marked channel octets.now }
{
    match channel {
        ChannelType::Cbch => octets[12] == 12 || octets[12] == 15,
        ChannelType::Sdcch => (octets[12] == 7 || octets[12] == 8) && octets[14] == 2,
    }
}

/// The block in GSMTAP.
#[tactic(auto, unfolding(crate::specs::Tap::block_of))]
fn block_of(from: Sender, octets: &[u8]) -> Option<Sent>
    ensures block { result ≡ block_of from octets.now }
    ensures long { IfSome result (λ sent. 16 ≤ length octets.now) }
{
    if octets.len() < 16 {
        return None;
    }
    let header = 4 * usize::from(octets[1]);
    if octets[0] == 2
        && octets[1] >= 4
        && octets[2] == 1
        && octets[4] / 64 % 2 == 0
        && is_on(from.arfcn, octets)
        && is_marked(from.channel, octets)
        && octets.len() == header + 23
    {
        let mut block = [0; 23];
        block.copy_from_slice(&octets[header..]);
        Some(Sent {
            frame: BigEndian::read_u32(&octets[8..]),
            block,
        })
    } else {
        None
    }
}

/// Whether GSMTAP has a block of the basic channel that is marked so.
fn is_heard(channel: ChannelType, octets: &[u8]) -> bool
    ensures heard { result ≡ is_heard channel octets.now }
    ensures long { result ≡ true → 16 ≤ length octets.now }
{
    let from = Sender {
        address: None,
        arfcn: None,
        channel,
    };
    match block_of(from, octets) {
        Some(sent) => place_in(sent.frame) < 4,
        None => false,
    }
}

/// How the block of the basic channel in GSMTAP is marked, if it has one.
fn channel_of(octets: &[u8]) -> Option<ChannelType>
    ensures channel { result ≡ channel_of octets.now }
    ensures long { IfSome result (λ channel. 16 ≤ length octets.now) }
{
    if is_heard(ChannelType::Cbch, octets) {
        Some(ChannelType::Cbch)
    } else if is_heard(ChannelType::Sdcch, octets) {
        Some(ChannelType::Sdcch)
    } else {
        None
    }
}

/// The sender of the block that a packet carries, if it carries one of the basic channel, marked in either way.
#[tactic(auto, unfolding(crate::specs::Heard::station_in))]
pub fn station_in(link: Link, octets: &[u8]) -> Option<Station>
    ensures { result ≡ station_in link octets.now }
{
    let internet = internet_of(link, octets)?;
    let datagram = datagram_of(None, internet)?;
    let payload = payload_of(datagram)?;
    let channel = channel_of(payload)?;
    Some(Station {
        address: BigEndian::read_u32(&internet[12..]),
        arfcn: BigEndian::read_u16(&payload[4..]) % 0x4000,
        channel,
    })
}
