//! What the session of a group's book sends, where each cell accepts each message: of a write its serial number, and
//! `over` the one that it replaces, of a stop `stop` and the number; its slot, its row, and its cells.

use alert_book::{Book, Session};
use cbs_page::Serial;
use cbsp_wire::{Cell, Cells, Count, Counts, Message, read, write};
use std::alloc::Global;
use std::test::Fail;

/// Tells the name of a cell.
fn tell_cell(told: &mut String, cell: Option<&Cell>) -> Result<(), Fail> {
    match cell {
        Some(cell) => write!(told, "{}-{}", cell.lac, cell.ci)?,
        None => told.push_str("none")?,
    }
    Ok(())
}

/// Tells the names of cells.
fn tell_each(told: &mut String, cells: &[Cell]) -> Result<(), Fail> {
    for (place, cell) in cells.iter().enumerate() {
        if place > 0 {
            told.push_str(" ")?;
        }
        tell_cell(told, Some(cell))?;
    }
    Ok(())
}

/// Tells cells: their names, or of more than four their number, the first and the last.
pub fn tell_cells(told: &mut String, cells: &[Cell]) -> Result<(), Fail> {
    if cells.is_empty() {
        return tell_cell(told, None);
    }
    if cells.len() <= 4 {
        return tell_each(told, cells);
    }
    write!(told, "{} cells ", cells.len())?;
    tell_cell(told, cells.first())?;
    told.push_str(" to ")?;
    tell_cell(told, cells.last())
}

/// The cells, each with no broadcast.
fn counts_of(alloc: Global, cells: &[Cell]) -> Result<Counts, Fail> {
    let mut list = Vec::new(alloc);
    for cell in cells {
        list.push(Count {
            cell: *cell,
            number: 0,
            info: 0,
        })?;
    }
    Ok(Counts { list })
}

/// The reply to a write that all its cells accept.
fn written(
    alloc: Global,
    id: u16,
    new_serial: Serial,
    old_serial: Option<Serial>,
    cells: &[Cell],
) -> Result<Message, Fail> {
    let (counted, listed) = match old_serial {
        Some(_) => (cells, &cells[..0]),
        None => (&cells[..0], cells),
    };
    Ok(Message::WriteDone {
        id,
        new_serial,
        old_serial,
        completed: counts_of(alloc, counted)?,
        cells: Cells {
            list: Vec::from_slice(alloc, listed)?,
        },
        channel: None,
    })
}

/// The reply of cells that all accept a message.
fn reply_to(alloc: Global, message: &Message) -> Result<Message, Fail> {
    match message {
        Message::Write {
            id,
            new_serial,
            old_serial,
            cells,
            ..
        } => written(alloc, *id, *new_serial, *old_serial, &cells.list),
        Message::Kill {
            id,
            old_serial,
            cells,
            ..
        } => Ok(Message::KillDone {
            id: *id,
            old_serial: *old_serial,
            completed: counts_of(alloc, &cells.list)?,
            cells: Cells {
                list: Vec::new(alloc),
            },
            channel: None,
        }),
        _ => Err(Fail::new("a session sent a reply")),
    }
}

/// Tells what a message is, of which slot and row, and to which cells.
fn tell_message(told: &mut String, message: &Message, slot: u16, row: u32) -> Result<(), Fail> {
    let cells = match message {
        Message::Write {
            new_serial,
            old_serial,
            cells,
            ..
        } => {
            write!(told, "; {:04X}", new_serial.number())?;
            if let Some(old) = old_serial {
                write!(told, " over {:04X}", old.number())?;
            }
            cells
        }
        Message::Kill {
            old_serial,
            cells,
            ..
        } => {
            write!(told, "; stop {:04X}", old_serial.number())?;
            cells
        }
        _ => return Err(Fail::new("a session sent a reply")),
    };
    write!(told, " at slot {slot} of row {row} to ")?;
    tell_cells(told, &cells.list)
}

/// The octets of the reply of cells that all accept a message.
fn octets_of_reply(alloc: Global, message: &Message) -> Result<Vec<u8>, Fail> {
    let reply = reply_to(alloc, message)?;
    let octets = write(alloc, &reply);
    drop(reply);
    match octets {
        Ok(octets) => Ok(octets),
        Err(_) => Err(Fail::new("a reply that can't be written")),
    }
}

/// Tells a message that was read, and gives the octets of the reply to it.
fn answered(
    alloc: Global,
    told: &mut String,
    message: &Message,
    slot: u16,
    row: u32,
) -> Result<Vec<u8>, Fail> {
    tell_message(told, message, slot, row)?;
    octets_of_reply(alloc, message)
}

/// Reads a message and tells it, and gives the octets of the reply to it.
fn reply_of(
    alloc: Global,
    told: &mut String,
    octets: &[u8],
    slot: u16,
    row: u32,
) -> Result<Vec<u8>, Fail> {
    let Ok(message) = read(alloc, octets) else {
        return Err(Fail::new("a message that can't be read"));
    };
    let reply = answered(alloc, told, &message, slot, row);
    drop(message);
    reply
}

/// Tells the next message of a session after a reply, if there is one, and gives the octets of the reply to it.
fn tell_turn(
    alloc: Global,
    told: &mut String,
    session: &mut Session,
    last: Option<&[u8]>,
) -> Result<Option<Vec<u8>>, Fail> {
    let Some((slot, octets)) = session.next(last)? else {
        return Ok(None);
    };
    let reply = reply_of(alloc, told, &octets, slot, session.row());
    drop(octets);
    match reply {
        Ok(reply) => Ok(Some(reply)),
        Err(fail) => Err(fail),
    }
}

/// Tells the messages of a session that begins.
fn tell_turns(alloc: Global, told: &mut String, session: &mut Session) -> Result<(), Fail> {
    let mut last = None;
    for _ in 0..20 {
        last = tell_turn(alloc, told, session, last_of(&last))?;
        if last.is_none() {
            return Ok(());
        }
    }
    Err(Fail::new("a session of over 20 messages"))
}

/// Tells the messages of a book's one session, one after the other.
pub fn tell_served(alloc: Global, told: &mut String, book: &Book) -> Result<(), Fail> {
    let mut session = Session::new(alloc, book, 0, 1)?;
    let served = tell_turns(alloc, told, &mut session);
    drop(session);
    served
}

/// The octets of the last reply.
fn last_of(last: &Option<Vec<u8>>) -> Option<&[u8]> {
    match last {
        Some(octets) => Some(octets.as_slice()),
        None => None,
    }
}
