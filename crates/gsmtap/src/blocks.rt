//! The blocks of pcapng: how long one is, and what it says.

ghost use Rattle.std.specs.Prelude.{◌≡◌, ◌≤◌, length, slice_get, IfOk};
ghost use Rattle.gsmtap.specs.Blocks.{block_length, block_meaning, brings, brings_of, interface_meaning};
ghost use Rattle.gsmtap.specs.Blocks.{interface_number, kept_of, magic_order, meaning_by_type, order_in};
ghost use Rattle.gsmtap.specs.Blocks.{packet_meaning, section_meaning, simple_meaning, ticks_in, time_by};
ghost use Rattle.gsmtap.specs.PieceSteps.{meant, section_of};
ghost use Rattle.gsmtap.specs.Section.{Section};

use crate::file::{OctetOrder, half_in, is_pcapng, number_in};
use crate::options::tick_in;
use crate::pieces::{Captured, Found, Interface, Reader};
use byteorder::{BigEndian, ByteOrder, LittleEndian};
use std::alloc::AllocError;

/// The number by which a section header says the order of the section's numbers.
const MAGIC: u32 = 0x1A2B_3C4D;

/// How many octets a block has around its body: its type and its length, and the length again.
const FRAME: usize = 12;

/// The types of blocks that are read.
const SECTION: u32 = 0x0A0D_0D0A;

const INTERFACE: u32 = 1;

const OLD_PACKET: u32 = 2;

const SIMPLE_PACKET: u32 = 3;

const PACKET: u32 = 6;

/// The order of a section's numbers, by its magic number.
fn magic_order(octets: &[u8]) -> Option<OctetOrder>
    requires { 4 ≤ length octets.now }
    ensures { result ≡ magic_order octets.now }
{
    if LittleEndian::read_u32(octets) == MAGIC {
        Some(OctetOrder::LowFirst)
    } else if BigEndian::read_u32(octets) == MAGIC {
        Some(OctetOrder::HighFirst)
    } else {
        None
    }
}

/// The order of the numbers of a block in a section of this order: a section header says its own.
fn order_in(order: OctetOrder, octets: &[u8]) -> Option<OctetOrder>
    requires { 12 ≤ length octets.now }
    ensures { result ≡ order_in order octets.now }
{
    if is_pcapng(octets) {
        magic_order(&octets[8..])
    } else {
        Some(order)
    }
}

/// How many octets the block at the front has; none if its first octets contradict themselves.
pub fn block_length(order: OctetOrder, octets: &[u8]) -> Option<usize>
    requires { 12 ≤ length octets.now }
    ensures { result ≡ block_length order octets.now }
{
    let order = order_in(order, octets)?;
    let length = number_in(order, &octets[4..]) as usize;
    if length >= FRAME && length % 4 == 0 {
        Some(length)
    } else {
        None
    }
}

impl Reader {
    /// Takes in a block.
    #[tactic(auto, unfolding(crate::specs::Blocks::block_meaning))]
    pub fn enter_block<'a>(&mut self, octets: &'a [u8]) -> Result<Found<'a>, AllocError>
        requires { 12 ≤ length octets.now }
        ensures { IfOk result (λ found. meant (section_of self.new) found
            ≡ block_meaning (section_of self.old) octets.now) }
    {
        let Some(order) = order_in(self.order, octets) else {
            return Ok(Found::Wrong);
        };
        let again = number_in(order, &octets[octets.len() - 4..]) as usize;
        if again != octets.len() {
            return Ok(Found::Wrong);
        }
        self.enter_body(
            order,
            number_in(order, octets),
            &octets[8..octets.len() - 4],
        )
    }

    /// Takes in a block of this type, by its body.
    fn enter_body<'a>(
        &mut self,
        order: OctetOrder,
        kind: u32,
        body: &'a [u8],
    ) -> Result<Found<'a>, AllocError>
        ensures { IfOk result (λ found. meant (section_of self.new) found
            ≡ meaning_by_type (section_of self.old) order kind body.now) }
    {
        match kind {
            SECTION => Ok(self.enter_section(order, body)),
            INTERFACE => self.enter_interface(body),
            SIMPLE_PACKET => Ok(self.simple_packet(body)),
            OLD_PACKET | PACKET => Ok(self.packet(kind, body)),
            _ => Ok(Found::Nothing),
        }
    }

    /// Begins a section: none of its interfaces is described yet.
    #[tactic(auto, unfolding(crate::specs::Blocks::section_meaning))]
    fn enter_section<'a>(&mut self, order: OctetOrder, body: &'a [u8]) -> Found<'a>
        ensures { meant (section_of self.new) result ≡ section_meaning (section_of self.old) order body.now }
    {
        if body.len() < 16 {
            return Found::Wrong;
        }
        self.order = order;
        self.interfaces.clear();
        Found::Nothing
    }

    /// Takes in the description of an interface.
    #[tactic(auto, unfolding(crate::specs::Blocks::interface_meaning))]
    fn enter_interface<'a>(&mut self, body: &'a [u8]) -> Result<Found<'a>, AllocError>
        ensures { IfOk result (λ found. meant (section_of self.new) found
            ≡ interface_meaning (section_of self.old) body.now) }
    {
        if body.len() < 8 {
            return Ok(Found::Wrong);
        }
        self.interfaces.push(Interface {
            link: half_in(self.order, body),
            snap_length: number_in(self.order, &body[4..]),
            tick: tick_in(self.order, &body[8..]),
        })?;
        Ok(Found::Nothing)
    }

    /// The packet in a packet block, enhanced or obsolete.
    #[tactic(auto, unfolding(crate::specs::Blocks::packet_meaning))]
    fn packet<'a>(&self, kind: u32, body: &'a [u8]) -> Found<'a>
        ensures { meant (section_of self.now) result ≡ packet_meaning (section_of self.now) kind body.now }
    {
        if body.len() < 20 {
            return Found::Wrong;
        }
        let length = number_in(self.order, &body[12..]) as usize;
        if length > body.len() - 20 {
            return Found::Wrong;
        }
        let number = interface_number(self.order, kind, body);
        self.packet_of(number, body, &body[20..20 + length])
    }

    /// A packet of the interface of this number, in a block of this body.
    fn packet_of<'a>(&self, number: usize, body: &[u8], octets: &'a [u8]) -> Found<'a>
        requires { 12 ≤ length body.now }
        ensures { meant (section_of self.now) result ≡ brings_of (section_of self.now) body.now octets.now
            (slice_get (section_of self.now).interfaces number) }
    {
        match self.interfaces.get(number) {
            Some(interface) => found(
                interface.link,
                time_by(interface.tick, ticks_in(self.order, body)),
                octets,
            ),
            None => Found::Wrong,
        }
    }

    /// The packet in a simple packet block, which is of the first interface.
    #[tactic(auto, unfolding(crate::specs::Blocks::simple_meaning))]
    fn simple_packet<'a>(&self, body: &'a [u8]) -> Found<'a>
        ensures { meant (section_of self.now) result ≡ simple_meaning (section_of self.now) body.now }
    {
        if body.len() < 4 {
            return Found::Wrong;
        }
        let Some(interface) = self.interfaces.first() else {
            return Found::Wrong;
        };
        let length = kept_of(number_in(self.order, body), interface.snap_length) as usize;
        if length > body.len() - 4 {
            return Found::Wrong;
        }
        found(interface.link, None, &body[4..4 + length])
    }
}

/// The number of a packet's interface.
fn interface_number(order: OctetOrder, kind: u32, body: &[u8]) -> usize
    requires { 4 ≤ length body.now }
    ensures { result ≡ interface_number order kind body.now }
{
    if kind == OLD_PACKET {
        usize::from(half_in(order, body))
    } else {
        number_in(order, body) as usize
    }
}

/// The ticks that a packet's block has.
fn ticks_in(order: OctetOrder, body: &[u8]) -> u64
    requires { 12 ≤ length body.now }
    ensures { result ≡ ticks_in order body.now }
{
    u64::from(number_in(order, &body[4..])) * 0x1_0000_0000
        + u64::from(number_in(order, &body[8..]))
}

/// The nanoseconds of these ticks, if it is known how long one lasts, and 64 bits have so many.
fn time_by(tick: Option<u32>, ticks: u64) -> Option<u64>
    ensures { result ≡ time_by tick ticks }
{
    ticks.checked_mul(u64::from(tick?))
}

/// A packet that was found.
fn found<'a>(link: u16, time: Option<u64>, octets: &'a [u8]) -> Found<'a>
    ensures { (section : Section) → meant section result ≡ brings section link time octets.now }
{
    Found::Packet(Captured {
        link: u32::from(link),
        time,
        octets,
    })
}

/// How many octets are kept of a packet of an interface that keeps this many at most, or, if that is 0, all.
fn kept_of(length: u32, snap_length: u32) -> u32
    ensures { result ≡ kept_of length snap_length }
{
    if snap_length == 0 {
        length
    } else {
        length.min(snap_length)
    }
}
