//! A message of the link that was captured.

ghost use Rattle.std.specs.Prelude.{◌≡◌, ◌==◌};
ghost use Rattle.link_streams.specs.Carrying.{link_port};
ghost use Rattle.link_streams.specs.Sides.{centre_of, controller_of, sender_of, sender_of_type};

use std::marker::Model;

/// The port of the link.
pub(crate) const PORT: u16 = 48_049;

/// Octets. In clauses they are the list itself.
#[derive(Debug, Drop)]
pub struct LinkOctets {
    /// The octets.
    pub list: Vec<u8>,
}

impl Model for LinkOctets {
    ghost use Rattle.std.specs.Prelude.{ℕ, List};

    ghost Value = { List ℕ };

    ghost view = { λ octets. octets.list.items };
}

/// From where to where octets go: one direction of a TCP connection.
#[derive(Clone, Copy, Debug, PartialEq, Eq)]
pub struct Way {
    /// The IPv4 address that they come from.
    pub source: u32,
    /// The port that they come from.
    pub source_port: u16,
    /// The IPv4 address that they go to.
    pub destination: u32,
    /// The port that they go to.
    pub destination_port: u16,
}

/// A side of the link.
#[derive(Clone, Copy, Debug, PartialEq, Eq)]
pub enum Side {
    /// The cell broadcast centre.
    Centre,
    /// The base station controller.
    Controller,
}

/// A message of the link, as a capture has it.
#[derive(Debug, Drop)]
pub struct LinkPacket {
    /// The number of the packet by which it became whole, from 1.
    pub number: u64,
    /// When that packet came, in nanoseconds from 1970-01-01T00:00:00Z on, if the file says it.
    pub time: Option<u64>,
    /// From where to where it went.
    pub way: Way,
    /// Its octets: its type, how many octets follow the fourth, in three octets, and these (3GPP TS 48.049, 5.2).
    pub octets: LinkOctets,
}

impl LinkPacket {
    /// Whether it came from the side that has the link's port, 48049. Either side may have it: equipment of some makers
    /// has the controller wait for the centre there, that of others the other way round.
    pub fn is_from_port(&self) -> bool
        ensures { result ≡ (self.now.way.source_port == link_port) }
    {
        self.way.source_port == PORT
    }

    /// Which side sent it, if its type says it.
    pub fn sender(&self) -> Option<Side>
        ensures { result ≡ sender_of self.now.octets }
    {
        match self.octets.list.first() {
            Some(number) => sender_of_type(*number),
            None => None,
        }
    }

    /// The IPv4 address of the controller, if the message's type says who sent it.
    pub fn controller(&self) -> Option<u32>
        ensures { result ≡ controller_of self.now (sender_of self.now.octets) }
    {
        match self.sender() {
            Some(Side::Centre) => Some(self.way.destination),
            Some(Side::Controller) => Some(self.way.source),
            None => None,
        }
    }

    /// The IPv4 address of the centre, if the message's type says who sent it.
    pub fn centre(&self) -> Option<u32>
        ensures { result ≡ centre_of self.now (sender_of self.now.octets) }
    {
        match self.sender() {
            Some(Side::Centre) => Some(self.way.source),
            Some(Side::Controller) => Some(self.way.destination),
            None => None,
        }
    }
}

/// Which side sends messages of a type (3GPP TS 48.049, 8.2.2). None of ERROR INDICATION, 15, which either may send,
/// and of types that there aren't.
pub fn sender_of_type(number: u8) -> Option<Side>
    ensures { result ≡ sender_of_type number }
{
    match number {
        0x01 | 0x04 | 0x07 | 0x0A | 0x0D | 0x10 | 0x16 => Some(Side::Centre),
        0x02 | 0x03 | 0x05 | 0x06 | 0x08 | 0x09 => Some(Side::Controller),
        0x0B | 0x0C | 0x0E | 0x0F | 0x11 | 0x12 => Some(Side::Controller),
        0x13 | 0x14 | 0x17 => Some(Side::Controller),
        _ => None,
    }
}
