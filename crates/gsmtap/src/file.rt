//! Capture files: their numbers and link types, and the header of the classic format of libpcap.

ghost use Rattle.std.specs.Prelude.{◌≡◌, ◌<◌, ◌≤◌, length};
ghost use Rattle.gsmtap.specs.File.{half_in, is_magic, is_pcapng, link_number, link_numbered, number_in};
ghost use Rattle.gsmtap.specs.File.{nanoseconds_in, octet_order_of, packet_time, unit_of};

use byteorder::{BigEndian, ByteOrder, LittleEndian};

/// Which octet of a number stands first.
#[derive(Clone, Copy, Debug, PartialEq, Eq)]
pub enum OctetOrder {
    /// The lowest.
    LowFirst,
    /// The highest.
    HighFirst,
}

/// The unit of the fractions of a second in a file of the classic format.
#[derive(Clone, Copy, Debug, PartialEq, Eq)]
pub enum Unit {
    /// A thousandth of a thousandth of a second.
    Microsecond,
    /// A thousandth of that.
    Nanosecond,
}

/// What packets begin with.
#[derive(Clone, Copy, Debug, PartialEq, Eq)]
pub enum Link {
    /// A header of Ethernet, link type 1.
    Ethernet,
    /// A header of IPv4, link types 101 and 228.
    Internet,
    /// A header that Linux makes in place of that of any device, link type 113.
    Cooked,
    /// The second version of such a header, link type 276.
    CookedTwo,
    /// A header of BSD's loopback device, link types 0 and 108.
    Loopback,
}

/// The number in the first four octets.
pub fn number_in(order: OctetOrder, octets: &[u8]) -> u32
    requires { 4 ≤ length octets.now }
    ensures { result ≡ number_in order octets.now }
{
    match order {
        OctetOrder::LowFirst => LittleEndian::read_u32(octets),
        OctetOrder::HighFirst => BigEndian::read_u32(octets),
    }
}

/// The number in the first two octets.
pub fn half_in(order: OctetOrder, octets: &[u8]) -> u16
    requires { 2 ≤ length octets.now }
    ensures { result ≡ half_in order octets.now }
{
    match order {
        OctetOrder::LowFirst => LittleEndian::read_u16(octets),
        OctetOrder::HighFirst => BigEndian::read_u16(octets),
    }
}

/// How many nanoseconds a unit has.
fn nanoseconds_in(unit: Unit) -> u64
    ensures value { result ≡ nanoseconds_in unit }
    ensures bound { result ≤ 1000 }
{
    match unit {
        Unit::Microsecond => 1000,
        Unit::Nanosecond => 1,
    }
}

/// When a packet came, in nanoseconds from 1970-01-01T00:00:00Z on, by its header in the classic format.
pub fn packet_time(order: OctetOrder, unit: Unit, header: &[u8]) -> u64
    requires { 8 ≤ length header.now }
    ensures { result ≡ packet_time order unit header.now }
{
    let (second, fraction) = (number_in(order, header), number_in(order, &header[4..]));
    u64::from(second) * 1_000_000_000 + u64::from(fraction) * nanoseconds_in(unit)
}

/// Whether a file begins with this number: one for microseconds, one for nanoseconds.
fn is_magic(number: u32) -> bool
    ensures { result ≡ is_magic number }
{
    number == 0xA1B2_C3D4 || number == 0xA1B2_3C4D
}

/// Whether octets begin as a file of pcapng does, and each section header in it.
pub fn is_pcapng(octets: &[u8]) -> bool
    ensures { result ≡ is_pcapng octets.now }
{
    octets.len() >= 4 && BigEndian::read_u32(octets) == 0x0A0D_0D0A
}

/// The order of the octets of a file's numbers, by its header.
pub fn order_of(header: &[u8]) -> Option<OctetOrder>
    requires { length header.now ≡ 24 }
    ensures { result ≡ octet_order_of header.now }
{
    if is_magic(LittleEndian::read_u32(header)) {
        Some(OctetOrder::LowFirst)
    } else if is_magic(BigEndian::read_u32(header)) {
        Some(OctetOrder::HighFirst)
    } else {
        None
    }
}

/// The unit of the fractions of a file's seconds, by its header.
pub fn unit_of(order: OctetOrder, header: &[u8]) -> Unit
    requires { length header.now ≡ 24 }
    ensures { result ≡ unit_of order header.now }
{
    if number_in(order, header) == 0xA1B2_3C4D {
        Unit::Nanosecond
    } else {
        Unit::Microsecond
    }
}

/// The number of a file's link type, by its header.
pub fn link_number(order: OctetOrder, header: &[u8]) -> u32
    requires { length header.now ≡ 24 }
    ensures { result ≡ link_number order header.now }
{
    number_in(order, &header[20..])
}

/// The link type of this number.
pub fn link_numbered(number: u32) -> Option<Link>
    ensures { result ≡ link_numbered number }
{
    match number {
        1 => Some(Link::Ethernet),
        101 | 228 => Some(Link::Internet),
        113 => Some(Link::Cooked),
        276 => Some(Link::CookedTwo),
        0 | 108 => Some(Link::Loopback),
        _ => None,
    }
}
