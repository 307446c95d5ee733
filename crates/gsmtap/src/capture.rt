//! The capture of tapes.

ghost use Rattle.std.specs.Prelude.{◌≡◌, ◌≢◌, ◌+◌, ◌*◌, ◌<◌, ◌≤◌, ◌++◌, ℕ, length, take, drop, IfErr, IfOk, OnOk};
ghost use Rattle.std.specs.Simd.{first_chunks};
ghost use Rattle.handset.specs.Tape.{cell_in, slots_in};
ghost use Rattle.gsmtap.specs.Capture.{IsCapture, IsCaptureFault, file_header, is_in, packets_of_slot};
ghost use Rattle.gsmtap.specs.Capture.{packets_of_slots};
ghost use Rattle.gsmtap.specs.CaptureSteps.{IsNextFault, PushesTape};
ghost use Rattle.gsmtap.specs.declared.capture.CaptureFault.TheVariants.{Refused};

use crate::packet::{Channel, Place, Start, push_packet};
use byteorder::{BigEndian, ByteOrder, LittleEndian};
use cbch_blocks::idle;
use cbsp_wire::Cell;
use handset::{MAX_SLOTS, MAX_TAPES};
use std::alloc::{AllocError, Global};
use thiserror::Error;

/// How many octets the header of a tape has.
const HEADER: usize = 8;

/// How many octets the blocks of a slot have.
const SLOT: usize = 92;

/// Which slots of a tape are in its capture.
#[derive(Clone, Copy, Debug, PartialEq, Eq)]
pub enum Slots {
    /// All.
    All,
    /// All but the idle ones, whose blocks are those of [`cbch_blocks::idle`].
    Used,
}

/// How the capture of tapes is made.
#[derive(Clone, Copy, Debug, PartialEq, Eq)]
pub struct Settings {
    /// The channel that each packet names.
    pub channel: Channel,
    /// Which slots are in it.
    pub slots: Slots,
    /// When the tapes begin, all at one time.
    pub start: Start,
}

/// Why an input has no capture.
#[derive(Clone, Copy, Debug, PartialEq, Eq, Error)]
pub enum CaptureFault {
    /// The input ends inside a tape.
    #[error("tape is short")]
    Short,
    /// The input goes on after the 64th tape, or a tape says that it has more than 65,535 slots.
    #[error("tape is long")]
    Long,
    /// Out of memory.
    #[error("out of memory")]
    Refused,
}

// By hand: a derived conversion has no contract, and `?` is to give a fault that clauses name.
impl From<AllocError> for CaptureFault {
    ghost from_gives = { λ _ fault. fault ≡ Refused };

    fn from(_error: AllocError) -> CaptureFault {
        CaptureFault::Refused
    }
}

/// The capture of 0 to 64 tapes, one after another: the file's header, and then a packet for each block, tapes, slots
/// and blocks in order.
///
/// # Errors
///
/// Returns [`CaptureFault::Short`] if the input ends inside a tape, [`CaptureFault::Long`] if it goes on after the 64th
/// or a header says more than 65,535 slots, and [`CaptureFault::Refused`] if out of memory.
pub fn capture_of(alloc: Global, input: &[u8], settings: Settings) -> Result<Vec<u8>, CaptureFault>
    ensures capture { IfOk result (λ output. IsCapture settings input.now output.items) }
    ensures fault { IfErr result (IsCaptureFault input.now) }
{
    let mut output = Vec::new(alloc);
    output.extend_from_slice(&file_header())?;
    let mut left = input;
    let mut number = 0;
    'tapes: while usize::from(number) < MAX_TAPES && !left.is_empty() {
        left = push_next(&mut output, settings, number, left)?;
        number += 1;
    }
    if left.is_empty() {
        Ok(output)
    } else {
        Err(CaptureFault::Long)
    }
}

/// The file's header.
#[tactic(auto, unfolding(crate::specs::Capture::file_header))]
fn file_header() -> [u8; 24]
    ensures { result ≡ file_header }
{
    let mut octets = [0; 24];
    LittleEndian::write_u32_into(&[0xA1B2_C3D4, 0x0004_0002, 0, 0, 65_535, 228], &mut octets);
    octets
}

/// Appends the packets of the tape at the front of an input, and returns what follows it.
fn push_next<'a>(
    output: &mut Vec<u8>,
    settings: Settings,
    number: u16,
    left: &'a [u8],
) -> Result<&'a [u8], CaptureFault>
    requires { 0 < length left.now }
    ensures pushed { IfOk result (λ rest. PushesTape settings number left.now rest.now output.old.items
        output.new.items) }
    ensures fault { IfErr result (IsNextFault left.now) }
{
    if left.len() < HEADER {
        return Err(CaptureFault::Short);
    }
    let (header, after) = left.split_at(HEADER);
    let slots = slots_of(header);
    if slots > MAX_SLOTS {
        return Err(CaptureFault::Long);
    }
    let length = SLOT * slots as usize;
    if after.len() < length {
        return Err(CaptureFault::Short);
    }
    let (body, rest) = after.split_at(length);
    let (slots, _) = body.as_chunks::<92>();
    push_slots(output, settings, number, cell_of(header), slots)?;
    Ok(rest)
}

/// The cell that a header names.
fn cell_of(header: &[u8]) -> Cell
    requires { 4 ≤ length header.now }
    ensures { result ≡ cell_in header.now }
{
    Cell {
        lac: BigEndian::read_u16(header),
        ci: BigEndian::read_u16(&header[2..]),
    }
}

/// How many slots a header says.
fn slots_of(header: &[u8]) -> u32
    requires { 8 ≤ length header.now }
    ensures { result ≡ slots_in header.now }
{
    BigEndian::read_u32(&header[4..])
}

/// Appends the packets of a tape's slots.
fn push_slots(
    output: &mut Vec<u8>,
    settings: Settings,
    tape: u16,
    cell: Cell,
    slots: &[[u8; 92]],
) -> Result<(), AllocError>
    requires { length slots.now ≤ 65535 }
    ensures { OnOk result (output.new.items
        ≡ output.old.items ++ packets_of_slots settings tape cell 0 slots.now) }
{
    for (slot, octets) in slots.iter().enumerate() {
        if is_in(settings.slots, octets) {
            push_slot(output, settings, tape, cell, slot as u16, octets)?;
        }
    }
    Ok(())
}

/// Whether a slot is in the capture.
fn is_in(slots: Slots, octets: &[u8; 92]) -> bool
    ensures { result ≡ is_in slots octets.now }
{
    match slots {
        Slots::All => true,
        Slots::Used => octets.as_slice() != idle().as_flattened(),
    }
}

/// Appends the packets of a slot's blocks.
#[tactic(auto, unfolding(crate::specs::Capture::packets_of_slot))]
fn push_slot(
    output: &mut Vec<u8>,
    settings: Settings,
    tape: u16,
    cell: Cell,
    slot: u16,
    octets: &[u8; 92],
) -> Result<(), AllocError>
    ensures { OnOk result (output.new.items
        ≡ output.old.items ++ packets_of_slot settings.start settings.channel tape cell slot octets.now) }
{
    let (blocks, _) = octets.as_chunks::<23>();
    for (block, octets) in blocks.iter().enumerate() {
        let place = Place {
            tape,
            cell,
            slot,
            block: block as u8,
        };
        push_packet(output, settings.start, settings.channel, &place, octets)?;
    }
    Ok(())
}
