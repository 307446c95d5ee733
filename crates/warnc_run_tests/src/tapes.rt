//! What is read of the tapes that a call wrote.

use device_ends::Source;
use device_ends::memory::MemoryReader;
use handset::{Reading, Shown, read_tapes};
use std::alloc::{AllocError, Global};
use std::test::Fail;
use test_support::digits_of;

/// How much octets are of worked ones: `worked` if they are the same, `N of M` if they are the first N of M.
pub fn part_of(alloc: Global, octets: &[u8], worked: &[u8]) -> Result<String, Fail> {
    if octets == worked {
        return Ok(String::from_str(alloc, "worked")?);
    }
    if worked.starts_with(octets) {
        return Ok(format!(in alloc; "{} of {}", octets.len(), worked.len())?);
    }
    Ok(digits_of(alloc, octets)?)
}

/// The octets after the type in the first block of each slot of a tape: serial number and message identifier, or
/// 2b2b2b2b if the slot is idle.
pub fn aired(alloc: Global, tape: &[u8]) -> Result<String, Fail> {
    let mut text = String::new(alloc);
    let Some(slots) = tape.get(8..) else {
        return Ok(text);
    };
    for slot in slots.chunks(92) {
        let name = slot.get(1..5).unwrap_or(&[]);
        if !text.is_empty() {
            text.push(' ')?;
        }
        text.push_str(&digits_of(alloc, name)?)?;
    }
    Ok(text)
}

/// The readings of tapes.
fn readings_of(alloc: Global, tapes: &[u8]) -> Result<Vec<Reading>, Fail> {
    let mut reader = MemoryReader::new(tapes, 1000, None);
    match read_tapes(alloc, &mut Source::new(&mut reader)) {
        Ok(readings) => Ok(readings),
        Err(fault) => Err(Fail::new(fault)),
    }
}

/// Adds a message.
fn push_message(alloc: Global, text: &mut String, message: &Shown) -> Result<(), Fail> {
    if !text.is_empty() {
        text.push_str(", ")?;
    }
    let serial = message.serial.number();
    text.push_str(&format!(in alloc; "{} {serial:04x} {}", message.id, message.text)?)?;
    Ok(())
}

/// Adds the cells of readings.
fn push_cells(alloc: Global, text: &mut String, readings: &[Reading]) -> Result<(), AllocError> {
    for reading in readings {
        let cell = reading.cell;
        text.push_str(&format!(in alloc; "{}-{} ", cell.lac, cell.ci)?)?;
    }
    Ok(())
}

/// The cells whose tapes these are.
pub fn cells(alloc: Global, tapes: &[u8]) -> Result<String, Fail> {
    let mut text = String::new(alloc);
    let readings = readings_of(alloc, tapes)?;
    push_cells(alloc, &mut text, &readings)?;
    Ok(String::from_str(alloc, text.trim_end())?)
}

/// Adds messages.
fn push_messages(alloc: Global, text: &mut String, messages: &[Shown]) -> Result<(), Fail> {
    for message in messages {
        push_message(alloc, text, message)?;
    }
    Ok(())
}

/// The messages that a handset shows of the tape of this place, from 1.
pub fn shown(alloc: Global, tapes: &[u8], place: u16) -> Result<String, Fail> {
    let mut text = String::new(alloc);
    let readings = readings_of(alloc, tapes)?;
    if let Some(reading) = readings.get(usize::from(place).saturating_sub(1)) {
        push_messages(alloc, &mut text, &reading.shown)?;
    }
    Ok(text)
}
