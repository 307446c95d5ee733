//! The pieces of a capture file: packets with their headers in the classic format, and blocks in pcapng.

ghost use Rattle.std.specs.Prelude.{◌≡◌, ◌<◌, ◌≤◌, ◌^◌, length, [], IfOk};
ghost use Rattle.std.specs.Prelude.{MatchOption, MatchResult};
ghost use Rattle.gsmtap.specs.PieceSteps.{BeginsWithPiece, meant, section_of};
ghost use Rattle.gsmtap.specs.Pieces.{IsCutPiece, IsWrongPiece, least, meaning, piece_length};
ghost use Rattle.gsmtap.specs.Taken.{no_section};
ghost use Rattle.gsmtap.specs.declared.fault.AirFaultKind.TheVariants as kinds;

use crate::blocks::block_length;
use crate::fault::AirFaultKind;
use crate::file::{OctetOrder, Unit, number_in, packet_time};
use std::alloc::{AllocError, Global};

/// How many octets the header of a packet has in the classic format.
const PACKET_HEADER: usize = 16;

/// How many octets of a block say how long it is.
const BLOCK_HEAD: usize = 12;

/// The format of a capture file.
#[derive(Clone, Copy, Debug, PartialEq, Eq)]
pub enum Format {
    /// The classic format of libpcap: packets, all of this link type, and the unit of the fractions of their
    /// seconds.
    Classic(u32, Unit),
    /// pcapng: blocks, of which some describe interfaces, and some are packets.
    Pcapng,
}

/// An interface of a section of pcapng.
#[derive(Clone, Copy, Debug, PartialEq, Eq)]
pub struct Interface {
    /// The number of its link type.
    pub link: u16,
    /// How many octets of a packet are kept at most; 0 if all are.
    pub snap_length: u32,
    /// How many nanoseconds a tick of its clock lasts, if that is known.
    pub tick: Option<u32>,
}

/// A packet that was captured.
#[derive(Clone, Copy)]
pub struct Captured<'a> {
    /// The number of its link type.
    pub link: u32,
    /// When it came, in nanoseconds from 1970-01-01T00:00:00Z on, if that is known.
    pub time: Option<u64>,
    /// Its octets.
    pub octets: &'a [u8],
}

/// What a piece of a file has.
#[derive(Clone, Copy)]
pub enum Found<'a> {
    /// A packet.
    Packet(Captured<'a>),
    /// No packet.
    Nothing,
    /// It contradicts itself.
    Wrong,
}

/// What is known of a file where one of its pieces begins.
#[derive(Drop)]
pub struct Reader {
    /// Its format.
    pub format: Format,
    /// The order of its numbers, in pcapng of the section's.
    pub order: OctetOrder,
    /// The interfaces that the section has described. The classic format has none.
    pub interfaces: Vec<Interface>,
}

impl Reader {
    /// What is known of a classic file after its header.
    pub fn of_packets(alloc: Global, order: OctetOrder, link: u32, unit: Unit) -> Reader
        ensures { section_of result
            ≡ record { format = Format.Classic link unit; order = order; interfaces = [] } }
    {
        Reader {
            format: Format::Classic(link, unit),
            order,
            interfaces: Vec::new(alloc),
        }
    }

    /// What is known of a file of pcapng at its begin. Its first block is a section header, which says the order.
    pub fn of_blocks(alloc: Global) -> Reader
        ensures { section_of result ≡ no_section }
    {
        Reader {
            format: Format::Pcapng,
            order: OctetOrder::LowFirst,
            interfaces: Vec::new(alloc),
        }
    }

    /// The first piece of octets, if it is whole, and what follows it.
    ///
    /// # Errors
    ///
    /// Returns [`AirFaultKind::WrongBlock`] if a block's first octets contradict themselves.
    pub fn next_piece<'a>(
        &self,
        octets: &'a [u8],
    ) -> Result<Option<(&'a [u8], &'a [u8])>, AirFaultKind>
        requires { 0 < length octets.now }
        ensures { MatchResult result
            (λ next. MatchOption next (IsCutPiece (section_of self.now) octets.now)
            (λ it. BeginsWithPiece (section_of self.now) octets.now it.0.now it.1.now))
            (λ kind. (kind ≡ kinds.WrongBlock) × IsWrongPiece (section_of self.now) octets.now) }
    {
        if octets.len() < self.least() {
            return Ok(None);
        }
        let Some(length) = self.length_of(octets) else {
            return Err(AirFaultKind::WrongBlock);
        };
        if octets.len() < length {
            return Ok(None);
        }
        Ok(Some(octets.split_at(length)))
    }

    /// How many octets say how long a piece is.
    fn least(&self) -> usize
        ensures { result ≡ least self.now.format }
    {
        match self.format {
            Format::Classic(..) => PACKET_HEADER,
            Format::Pcapng => BLOCK_HEAD,
        }
    }

    /// How many octets the piece at the front has, by its first octets; none if they contradict themselves.
    fn length_of(&self, octets: &[u8]) -> Option<usize>
        requires { least self.now.format ≤ length octets.now }
        ensures { result ≡ piece_length (section_of self.now) octets.now }
    {
        match self.format {
            Format::Classic(..) => {
                Some(PACKET_HEADER + number_in(self.order, &octets[8..]) as usize)
            }
            Format::Pcapng => block_length(self.order, octets),
        }
    }

    /// Takes in a piece: what it describes is known from now on.
    ///
    /// # Errors
    ///
    /// Returns the error of the memory. Nothing is known then.
    pub fn enter<'a>(&mut self, piece: &'a [u8]) -> Result<Found<'a>, AllocError>
        requires { least self.old.format ≤ length piece.now }
        ensures { IfOk result (λ found. meant (section_of self.new) found
            ≡ meaning (section_of self.old) piece.now) }
    {
        match self.format {
            Format::Classic(link, unit) => Ok(Found::Packet(Captured {
                link,
                time: Some(packet_time(self.order, unit, piece)),
                octets: &piece[PACKET_HEADER..],
            })),
            Format::Pcapng => self.enter_block(piece),
        }
    }
}
