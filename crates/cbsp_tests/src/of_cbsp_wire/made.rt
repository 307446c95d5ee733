//! Messages that are made for the writer: a message of few lists, or one that no octets mean.

use crate::of_cbsp_wire::rows::{names_of, reading, written_in};
use cbs_page::{Content, Dcs, Serial};
use cbsp_wire::{Cell, Cells, Contents, Counts, Failures, Message, WireFault};
use std::alloc::{AllocError, Global};
use std::test::Fail;
use test_support::{Drought, Words};

/// So many cells, with cell identities from 0.
fn cells(alloc: Global, count: u16) -> Result<Cells, AllocError> {
    let mut list = Vec::new(alloc);
    for ci in 0..count {
        list.push(Cell { lac: 1, ci })?;
    }
    Ok(Cells { list })
}

/// So many contents, of which so many octets are used.
fn contents(alloc: Global, count: u16, used: u8) -> Result<Contents, AllocError> {
    let mut list = Vec::new(alloc);
    for _ in 0..count {
        list.push(Content {
            used,
            octets: [0x0D; 82],
        })?;
    }
    Contents::new(list)
}

/// An order to write, a kill, a reply to a kill that says of a failure and names none, or else a reply to a kill that
/// no cell refused and no cell took, of a channel that there isn't.
fn message_of(alloc: Global, kind: &str, cells: Cells, contents: Contents) -> Message {
    let (failures, completed) = (Vec::new(alloc), Vec::new(alloc));
    let (failures, completed) = (Failures { list: failures }, Counts { list: completed });
    let (id, old_serial) = (4370, Serial::of(0x0020));
    match kind {
        "write" => Message::Write {
            id,
            new_serial: Serial::of(0x0010),
            old_serial: Some(old_serial),
            cells,
            channel: Some(0),
            category: Some(2),
            period: 1024,
            broadcasts: 65535,
            dcs: Dcs::UCS2,
            contents,
        },
        "kill" => Message::Kill {
            id,
            old_serial,
            cells,
            channel: None,
        },
        "kill-failed" => Message::KillFailed {
            id,
            old_serial,
            failures,
            completed,
            cells,
            channel: None,
        },
        _ => Message::KillDone {
            id,
            old_serial,
            completed,
            cells,
            channel: Some(2),
        },
    }
}

/// The octets that are written of a message, where memory can be scarce.
fn written(alloc: Global, drought: &mut Drought, message: Message) -> Result<Vec<u8>, WireFault> {
    let written = written_in(alloc, drought, &message);
    drop(message);
    written
}

/// `make KIND CELLS CONTENTS USED`: how many octets are written of the message, and how they are read; or why none are.
/// Memory can be scarce for the writer.
pub fn make(alloc: Global, drought: &mut Drought, words: &mut Words<'_>) -> Result<String, Fail> {
    let kind = words.word();
    let cells = cells(alloc, words.number16()?)?;
    let contents = contents(alloc, words.number16()?, words.word().parse::<u8>()?)?;
    match written(alloc, drought, message_of(alloc, kind, cells, contents)) {
        Ok(octets) => Ok(format!(in alloc; "{} octets {}", octets.len(), reading(alloc, &octets))?),
        Err(fault) => Ok(String::from_str(alloc, names_of(fault).0)?),
    }
}
