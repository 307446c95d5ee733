//! The tape that a capture file is.

ghost use Rattle.std.specs.Prelude.{◌≡◌, ◌+◌, ◌*◌, ◌<◌, ◌≤◌, ◌^◌, ◌++◌, ℕ, length, IfErr, IfOk, MatchResult, OnOk, Ok};
ghost use Rattle.std.specs.Prelude.{Err, []};
ghost use Rattle.handset.specs.Tape.{octets_of_blocks, tape_octets};
ghost use Rattle.gsmtap.specs.PieceSteps.{packet_of, section_of};
ghost use Rattle.gsmtap.specs.Taken.{Opens};
ghost use Rattle.gsmtap.specs.TapeOfCapture.{IsAirFault, IsTapeOfCapture, after_packet, blocks_in};
ghost use Rattle.gsmtap.specs.TapeOfCapture.{most_slots, nothing_known, slots_filled, slots_taken};
ghost use Rattle.gsmtap.specs.TapeOfCapture.{tape_of_known};
ghost use Rattle.gsmtap.specs.TapeSteps.{IsBeginFault, IsPacketKind, known_of, last_slot};

use crate::fault::{AirFault, AirFaultKind};
use crate::file::{is_pcapng, link_number, link_numbered, order_of, unit_of};
use crate::pieces::{Captured, Reader};
use crate::tap::sent_in;
use crate::tapes::tapes_of_capture;
use crate::track::Air;
use cbch_blocks::idle;
use cbsp_wire::Cell;
use handset::MAX_SLOTS;
use std::alloc::{AllocError, Global};
use std::slice;

/// How many octets the header of a capture file has in the classic format.
pub(crate) const FILE_HEADER: usize = 24;

/// As blocks of which channel the blocks of a cell broadcast channel are marked.
#[derive(Clone, Copy, Debug, PartialEq, Eq)]
pub enum ChannelType {
    /// A cell broadcast channel, beside SDCCH/4 or SDCCH/8: GSMTAP's types 15 and 12.
    Cbch,
    /// SDCCH/4 or SDCCH/8 number 2, in whose place it stands: types 7 and 8, and sub-slot 2. Some receivers know no
    /// cell broadcast channel.
    Sdcch,
}

/// Whose packets are taken.
#[derive(Clone, Copy, Debug, PartialEq, Eq)]
pub struct Sender {
    /// The IPv4 address that they come from, if one alone is wanted.
    pub address: Option<u32>,
    /// The number of the radio channel (ARFCN) that they name, 0 to 1,023, if one alone is wanted: base stations on one
    /// host have one address.
    pub arfcn: Option<u16>,
    /// How they mark a block of a cell broadcast channel.
    pub channel: ChannelType,
}

/// Which tape is wanted of a capture file.
#[derive(Clone, Copy, Debug, PartialEq, Eq)]
pub struct Wanted {
    /// The cell that the tape names.
    pub cell: Cell,
    /// How many slots it has; if no number is wanted, as many as there are up to the last block, at most 65,535.
    pub slots: Option<u16>,
    /// In which of them the first block is, as a receiver may begin to listen when the run is under way.
    pub first_slot: u16,
    /// Whose packets are taken.
    pub from: Sender,
}

/// The tape that a capture file is, in the classic format of libpcap or in pcapng: four blocks for each slot, idle
/// where the file has none. The first block stands in the slot that is wanted; blocks after the last slot are passed
/// over.
///
/// # Errors
///
/// Returns the fault of the first packet or block that has one, or of the file's begin, which is packet 0; else
/// [`AirFaultKind::NoBlock`] if no packet has a block of the wanted sender's; and out of memory.
pub fn tape_of_capture(alloc: Global, input: &[u8], wanted: &Wanted) -> Result<Vec<u8>, AirFault>
    requires { length input.now < 2 ^ 48 }
    ensures tape { IfOk result (λ output. IsTapeOfCapture wanted.now input.now output.items) }
    ensures fault { IfErr result (IsAirFault wanted.now input.now) }
{
    match tapes_of_capture(alloc, input, slice::from_ref(wanted)) {
        Ok(output) => Ok(output),
        Err(fault) => Err(fault.alone()),
    }
}

/// What is known of a capture file at its first packet or block, and the octets from there on.
pub fn opened(alloc: Global, input: &[u8]) -> Result<(Reader, &[u8]), AirFaultKind>
    ensures { MatchResult result (λ it. Opens input.now (section_of it.0) it.1.now) (IsBeginFault input.now) }
{
    if is_pcapng(input) {
        return Ok((Reader::of_blocks(alloc), input));
    }
    if input.len() < FILE_HEADER {
        return Err(AirFaultKind::NoCapture);
    }
    let (header, packets) = input.split_at(FILE_HEADER);
    let Some(order) = order_of(header) else {
        return Err(AirFaultKind::NoCapture);
    };
    let number = link_number(order, header);
    match link_numbered(number) {
        Some(_) => Ok((
            Reader::of_packets(alloc, order, number, unit_of(order, header)),
            packets,
        )),
        None => Err(AirFaultKind::OtherLink(number)),
    }
}

/// A fault of a packet.
pub fn fault_at(packet: u64, kind: AirFaultKind) -> AirFault
    ensures { result ≡ record { packet = packet; kind = kind } }
{
    AirFault { packet, kind }
}

/// No block of a tape.
pub(crate) fn air_for(alloc: Global, wanted: &Wanted) -> Result<Air, AllocError>
    ensures { IfOk result (λ air. known_of air ≡ nothing_known (slots_taken wanted.now)) }
{
    Air::new(
        alloc,
        most_slots(wanted.slots).saturating_sub(wanted.first_slot),
    )
}

/// How many slots a tape may have: as many as are wanted, or as many as a tape can have.
fn most_slots(wanted: Option<u16>) -> u16
    ensures { result ≡ most_slots wanted }
{
    match wanted {
        Some(slots) => slots,
        None => MAX_SLOTS as u16,
    }
}

/// Places the block that a packet carries, if it does.
#[tactic(auto, unfolding(crate::specs::TapeOfCapture::after_packet))]
pub(crate) fn take_packet(
    air: &mut Air,
    from: Sender,
    packet: &Captured,
) -> Result<(), AirFaultKind>
    requires { last_slot air.old.track < 2 ^ 60 }
    ensures placed { OnOk result (after_packet from (known_of air.old) (packet_of packet.now) ≡ Ok (known_of air.new)) }
    ensures long { length air.new.blocks.items ≡ length air.old.blocks.items }
    ensures bound { OnOk result (last_slot air.new.track ≤ last_slot air.old.track + 3328) }
    ensures fault { IfErr result (λ kind. after_packet from (known_of air.old) (packet_of packet.now) ≡ Err kind) }
    ensures kinds { IfErr result IsPacketKind }
{
    let Some(link) = link_numbered(packet.link) else {
        return Err(AirFaultKind::OtherLink(packet.link));
    };
    match sent_in(link, from, packet.octets) {
        Some(sent) => air.place(&sent),
        None => Ok(()),
    }
}

/// The octets of the tape of which this is known.
pub(crate) fn tape_of(alloc: Global, wanted: &Wanted, air: &Air) -> Result<Vec<u8>, AllocError>
    requires { length air.now.blocks.items ≡ 4 * slots_taken wanted.now }
    ensures { IfOk result (λ output. output.items ≡ tape_of_known wanted.now air.now.blocks.items) }
{
    let before = wanted.first_slot.min(most_slots(wanted.slots));
    let filled = slots_filled(&air.blocks);
    let (slots, known) = match wanted.slots {
        Some(slots) => (slots, air.blocks.len()),
        None => (wanted.first_slot + filled as u16, 4 * filled),
    };
    let mut output = Vec::new(alloc);
    output.extend_from_slice(&header_of(wanted.cell, slots))?;
    push_blocks(&mut output, &vec![in alloc; None; 4 * usize::from(before)]?)?;
    push_blocks(&mut output, &air.blocks[..known])?;
    Ok(output)
}

/// How many slots the blocks fill up to the last one that is known.
pub(crate) fn slots_filled(blocks: &[Option<[u8; 23]>]) -> usize
    ensures { result ≡ slots_filled blocks.now }
{
    match blocks.iter().rposition(|block| block.is_some()) {
        Some(last) => last / 4 + 1,
        None => 0,
    }
}

/// The header of a tape.
fn header_of(cell: Cell, slots: u16) -> [u8; 8]
    ensures { result ≡ tape_octets cell slots [] }
{
    let [lac_high, lac_low] = cell.lac.to_be_bytes();
    let [ci_high, ci_low] = cell.ci.to_be_bytes();
    let [first, second, third, fourth] = u32::from(slots).to_be_bytes();
    [
        lac_high, lac_low, ci_high, ci_low, first, second, third, fourth,
    ]
}

/// Appends the blocks of a tape, idle ones where none is known.
fn push_blocks(output: &mut Vec<u8>, blocks: &[Option<[u8; 23]>]) -> Result<(), AllocError>
    ensures { OnOk result (output.new.items ≡ output.old.items ++ octets_of_blocks (blocks_in blocks.now)) }
{
    let [idle, ..] = idle();
    for block in blocks {
        match block {
            Some(octets) => output.extend_from_slice(octets)?,
            None => output.extend_from_slice(&idle)?,
        }
    }
    Ok(())
}
