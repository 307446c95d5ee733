//! What a message says, as a line of a table lists it, and what is written of it.

use cbs_page::{Content, Serial};
use cbsp_wire::{Cell, Count, Failure, Message, WireFault, read, write};
use std::alloc::{AllocError, Global};
use std::fmt::Write;
use test_support::{Drought, Words, digits_of};

/// What any message may say, as a row lists it.
#[derive(Clone, Copy)]
struct Columns<'a> {
    kind: &'a str,
    id: u16,
    new: Option<Serial>,
    old: Option<Serial>,
    failures: &'a [Failure],
    completed: &'a [Count],
    cells: &'a [Cell],
    channel: Option<u8>,
}

/// Puts a serial number under its name, or `-` for none.
fn put_serial(row: &mut String, name: &str, serial: Option<Serial>) -> Result<(), AllocError> {
    match serial {
        Some(serial) => write!(row, " {name}={:04x}", serial.number()),
        None => write!(row, " {name}=-"),
    }
}

/// Puts an octet under its name, as a decimal number, or `-` for none.
fn put_octet(row: &mut String, name: &str, octet: Option<u8>) -> Result<(), AllocError> {
    match octet {
        Some(octet) => write!(row, " {name}={octet}"),
        None => write!(row, " {name}=-"),
    }
}

/// Puts the failures, or `-` for none.
fn put_failures(row: &mut String, failures: &[Failure]) -> Result<(), AllocError> {
    row.push_str(" failures=")?;
    let mut before = "";
    for failure in failures {
        let Failure { cell, cause } = *failure;
        write!(row, "{before}{}-{}:{cause:02x}", cell.lac, cell.ci)?;
        before = ",";
    }
    row.push_str(if failures.is_empty() { "-" } else { "" })
}

/// Puts the completed broadcasts, or `-` for none.
fn put_completed(row: &mut String, completed: &[Count]) -> Result<(), AllocError> {
    row.push_str(" completed=")?;
    let mut before = "";
    for count in completed {
        let Count { cell, number, info } = *count;
        write!(row, "{before}{}-{}:{number}:{info}", cell.lac, cell.ci)?;
        before = ",";
    }
    row.push_str(if completed.is_empty() { "-" } else { "" })
}

/// Puts the cells, or `-` for none.
fn put_cells(row: &mut String, cells: &[Cell]) -> Result<(), AllocError> {
    row.push_str(" cells=")?;
    let mut before = "";
    for cell in cells {
        write!(row, "{before}{}-{}", cell.lac, cell.ci)?;
        before = ",";
    }
    row.push_str(if cells.is_empty() { "-" } else { "" })
}

/// Puts the contents.
fn put_contents(row: &mut String, contents: &[Content]) -> Result<(), AllocError> {
    let mut before = " contents=";
    for content in contents {
        write!(row, "{before}{}:", content.used)?;
        for octet in content.octets.as_slice() {
            write!(row, "{octet:02x}")?;
        }
        before = ",";
    }
    Ok(())
}

/// The columns of a message.
fn columns_of(message: &Message) -> Columns<'_> {
    match message {
        Message::Write {
            id,
            new_serial,
            old_serial,
            cells,
            channel,
            ..
        } => Columns {
            kind: "write",
            id: *id,
            new: Some(*new_serial),
            old: *old_serial,
            failures: &[],
            completed: &[],
            cells: &cells.list,
            channel: *channel,
        },
        Message::WriteDone {
            id,
            new_serial,
            old_serial,
            completed,
            cells,
            channel,
        } => Columns {
            kind: "write-done",
            id: *id,
            new: Some(*new_serial),
            old: *old_serial,
            failures: &[],
            completed: &completed.list,
            cells: &cells.list,
            channel: *channel,
        },
        Message::WriteFailed {
            id,
            new_serial,
            old_serial,
            failures,
            completed,
            cells,
            channel,
        } => Columns {
            kind: "write-failed",
            id: *id,
            new: Some(*new_serial),
            old: *old_serial,
            failures: &failures.list,
            completed: &completed.list,
            cells: &cells.list,
            channel: *channel,
        },
        Message::Kill {
            id,
            old_serial,
            cells,
            channel,
        } => Columns {
            kind: "kill",
            id: *id,
            new: None,
            old: Some(*old_serial),
            failures: &[],
            completed: &[],
            cells: &cells.list,
            channel: *channel,
        },
        Message::KillDone {
            id,
            old_serial,
            completed,
            cells,
            channel,
        } => Columns {
            kind: "kill-done",
            id: *id,
            new: None,
            old: Some(*old_serial),
            failures: &[],
            completed: &completed.list,
            cells: &cells.list,
            channel: *channel,
        },
        Message::KillFailed {
            id,
            old_serial,
            failures,
            completed,
            cells,
            channel,
        } => Columns {
            kind: "kill-failed",
            id: *id,
            new: None,
            old: Some(*old_serial),
            failures: &failures.list,
            completed: &completed.list,
            cells: &cells.list,
            channel: *channel,
        },
    }
}

/// Puts the columns that any message may have.
fn put_columns(row: &mut String, columns: Columns<'_>) -> Result<(), AllocError> {
    let (kind, id) = (columns.kind, columns.id);
    write!(row, "{kind} id={id}")?;
    put_serial(row, "new", columns.new)?;
    put_serial(row, "old", columns.old)?;
    put_failures(row, columns.failures)?;
    put_completed(row, columns.completed)?;
    put_cells(row, columns.cells)?;
    put_octet(row, "channel", columns.channel)
}

/// Puts what a message says.
fn put_message(row: &mut String, message: &Message) -> Result<(), AllocError> {
    put_columns(row, columns_of(message))?;
    let Message::Write {
        category,
        period,
        broadcasts,
        dcs,
        contents,
        ..
    } = message
    else {
        return Ok(());
    };
    put_octet(row, "category", *category)?;
    write!(
        row,
        " period={period} broadcasts={broadcasts} dcs={:02x}",
        dcs.0
    )?;
    put_contents(row, contents.as_slice())
}

/// What a fault is called in a row, and in the answers to malformed messages.
pub fn names_of(fault: WireFault) -> (&'static str, &'static str) {
    match fault {
        WireFault::Truncated => ("truncated", "T"),
        WireFault::TrailingBytes => ("trailing octets", "B"),
        WireFault::Cause(0x00) => ("cause 00", "C00"),
        WireFault::Cause(0x01) => ("cause 01", "C01"),
        WireFault::Cause(0x04) => ("cause 04", "C04"),
        WireFault::Cause(0x05) => ("cause 05", "C05"),
        WireFault::Cause(_) => ("another cause", "another cause"),
        WireFault::Refused => ("Refused", "out of memory"),
    }
}

/// What octets are read as, where memory can be scarce.
fn read_in(alloc: Global, drought: &mut Drought, octets: &[u8]) -> Result<Message, WireFault> {
    drought.begin(alloc);
    let outcome = read(alloc, octets);
    drought.end();
    outcome
}

/// The octets that are written of a message, where memory can be scarce.
pub fn written_in(
    alloc: Global,
    drought: &mut Drought,
    message: &Message,
) -> Result<Vec<u8>, WireFault> {
    drought.begin(alloc);
    let outcome = write(alloc, message);
    drought.end();
    outcome
}

/// Puts what octets say, and gives the octets that are written of it. Memory can be scarce for the reader and for the
/// writer.
fn said(
    alloc: Global,
    drought: &mut Drought,
    octets: &[u8],
    row: &mut String,
) -> Result<Vec<u8>, WireFault> {
    let message = read_in(alloc, drought, octets)?;
    let put = put_message(row, &message);
    let written = written_in(alloc, drought, &message);
    drop(message);
    match put {
        Ok(()) => written,
        Err(AllocError) => Err(WireFault::Refused),
    }
}

/// Puts what octets say, or why they are refused. As many are written of it, which say the same and are written as they
/// are. Gives whether they are the first ones.
fn is_put(
    alloc: Global,
    drought: &mut Drought,
    octets: &[u8],
    row: &mut String,
) -> Result<bool, AllocError> {
    match said(alloc, drought, octets, row) {
        Ok(written) => {
            // What was written is read and written with all memory.
            let _ = drought.verb(&mut Words::of(""), 0);
            let mut again = String::new(alloc);
            let is_same = match said(alloc, drought, &written, &mut again) {
                Ok(rewritten) => rewritten == written,
                Err(_) => false,
            };
            if !is_same || again != *row {
                row.push_str(" but not again")?;
            }
            if written.len() != octets.len() {
                row.push_str(" but of another length")?;
            }
            Ok(written.as_slice() == octets)
        }
        Err(fault) => {
            row.clear();
            row.push_str(names_of(fault).0)?;
            Ok(false)
        }
    }
}

/// `says OCTETS`: what they say, or why they are refused; and `in_order OCTETS`: they are also what is written of it.
/// Memory can be scarce for the reader and for the writer.
pub fn says(
    alloc: Global,
    drought: &mut Drought,
    verb: &str,
    octets: &[u8],
) -> Result<String, AllocError> {
    let mut row = String::new(alloc);
    if !is_put(alloc, drought, octets, &mut row)? && verb == "in_order" {
        row.push_str(" but not in order")?;
    }
    Ok(row)
}

/// `writes OCTETS`: the octets that are written of what they say, or how many these are if they are the same. Memory
/// can be scarce for the reader and for the writer.
pub fn writes(alloc: Global, drought: &mut Drought, octets: &[u8]) -> Result<String, AllocError> {
    match said(alloc, drought, octets, &mut String::new(alloc)) {
        Ok(written) if written.as_slice() == octets => {
            format!(in alloc; "{} octets, the same", written.len())
        }
        Ok(written) => digits_of(alloc, &written),
        Err(fault) => String::from_str(alloc, names_of(fault).0),
    }
}

/// `read OCTETS`: why they are refused, or `read`.
pub fn reading(alloc: Global, octets: &[u8]) -> &'static str {
    match read(alloc, octets) {
        Ok(message) => {
            drop(message);
            "read"
        }
        Err(fault) => names_of(fault).0,
    }
}

/// `fronts OCTETS`: how many of their fronts are truncated.
pub fn fronts(alloc: Global, octets: &[u8]) -> Result<String, AllocError> {
    let mut truncated = 0_u16;
    for length in 0..octets.len() {
        if reading(alloc, &octets[..length]) == "truncated" {
            truncated = truncated.saturating_add(1);
        }
    }
    format!(in alloc; "{truncated} of {} are truncated", octets.len())
}
