//! The TCP segment that a packet carries.

ghost use Rattle.std.specs.Prelude.{◌≡◌, ◌≤◌, length, option_copied, option_map, IfSome};
ghost use Rattle.link_streams.specs.Carrying.{has_syn, is_of_link, segment_in, segment_of, transport_of, way_of};
ghost use Rattle.link_streams.specs.Segment.{segment_found};

use crate::message::{PORT, Way};
use byteorder::{BigEndian, ByteOrder};
use gsmtap::file::Link;
use gsmtap::internet_of;

/// A segment of the link.
#[derive(Clone, Copy)]
pub struct SegmentFound<'a> {
    /// From where to where it goes.
    pub way: Way,
    /// Its sequence number.
    pub sequence: u32,
    /// Whether it has the flag SYN.
    pub syn: bool,
    /// Its data.
    pub octets: &'a [u8],
}

/// The segment of the link that a packet carries, if it does.
#[tactic(auto, unfolding(crate::specs::Carrying::segment_in))]
pub fn segment_in(link: Link, octets: &[u8]) -> Option<SegmentFound>
    ensures { option_map segment_found result ≡ segment_in link octets.now }
{
    let internet = internet_of(link, octets)?;
    let transport = transport_of(internet)?;
    segment_of(internet, transport)
}

/// The TCP octets in an IPv4 packet.
#[tactic(auto, unfolding(crate::specs::Carrying::transport_of))]
fn transport_of(octets: &[u8]) -> Option<&[u8]>
    ensures transport { option_copied result ≡ transport_of octets.now }
    ensures long { IfSome result (λ transport. 20 ≤ length octets.now) }
{
    if octets.len() < 20 {
        return None;
    }
    let header = 4 * usize::from(octets[0] % 16);
    let total = usize::from(BigEndian::read_u16(&octets[2..]));
    let is_message = BigEndian::read_u16(&octets[6..]) % 0x4000 == 0;
    if octets[0] / 16 == 4
        && header >= 20
        && header <= total
        && total <= octets.len()
        && is_message
        && octets[9] == 6
    {
        Some(&octets[header..total])
    } else {
        None
    }
}

/// From where to where a segment goes.
fn way_of(internet: &[u8], transport: &[u8]) -> Way
    requires internet { 20 ≤ length internet.now }
    requires transport { 20 ≤ length transport.now }
    ensures { result ≡ way_of internet.now transport.now }
{
    Way {
        source: BigEndian::read_u32(&internet[12..]),
        source_port: BigEndian::read_u16(transport),
        destination: BigEndian::read_u32(&internet[16..]),
        destination_port: BigEndian::read_u16(&transport[2..]),
    }
}

/// Whether one of the two ends has the link's port.
fn is_of_link(way: Way) -> bool
    ensures { result ≡ is_of_link way }
{
    way.source_port == PORT || way.destination_port == PORT
}

/// Whether TCP octets have the flag SYN.
fn has_syn(transport: &[u8]) -> bool
    requires { 20 ≤ length transport.now }
    ensures { result ≡ has_syn transport.now }
{
    transport[13] / 2 % 2 == 1
}

/// The segment of the link that TCP octets are.
#[tactic(auto, unfolding(crate::specs::Carrying::segment_of))]
fn segment_of<'a>(internet: &[u8], transport: &'a [u8]) -> Option<SegmentFound<'a>>
    requires { 20 ≤ length internet.now }
    ensures { option_map segment_found result ≡ segment_of internet.now transport.now }
{
    if transport.len() < 20 {
        return None;
    }
    let offset = 4 * usize::from(transport[12] / 16);
    let way = way_of(internet, transport);
    if offset >= 20 && offset <= transport.len() && is_of_link(way) {
        Some(SegmentFound {
            way,
            sequence: BigEndian::read_u32(&transport[4..]),
            syn: has_syn(transport),
            octets: &transport[offset..],
        })
    } else {
        None
    }
}
