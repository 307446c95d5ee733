//! How the lines of a table, `action -> wanted`, are carried out. Messages are `@SLOT.PACKET.CONNECTION` and the octets
//! of the message each, of which `10*8d46` stands for `8d46` ten times.
//!
//! - `orders LAC-CI MESSAGES`: the rows of the cell, each after the number of its packet and a colon.
//! - `emergencies LAC-CI MESSAGES`: how many messages are emergency messages to the cell.
//! - `names LAC-CI MESSAGES`: whether each item of the lists of the messages names the cell. Of RESET alone.
//! - `scarce ACTION -> refused; WANTED`: the action is refused with hardly any memory, with one block more each time,
//!   until it has enough.

use cbsp_link::{LinkMessage, read};
use cbsp_wire::Cell;
use cell_orders::{Heard, OrderRow, emergencies_to, names, orders_text, rows_of};
use std::alloc::{AllocError, Global};
use std::fmt::Write;
use std::process::Abort;
use std::test::Fail;
use test_support::{Drought, Row, Words, after_refusals, is_refused, octets_of};

/// The cell of a word, `LAC-CI`.
fn cell_in(word: &str) -> Result<Cell, Fail> {
    let (lac, ci) = word.split_once('-').unwrap_or((word, ""));
    Ok(Cell {
        lac: lac.parse::<u16>()?,
        ci: ci.parse::<u16>()?,
    })
}

/// The message at a place, `SLOT.PACKET.CONNECTION`, with these octets.
fn message_at(alloc: Global, place: &str, octets: &[u8]) -> Result<Heard, Fail> {
    let (slot, rest) = place.split_once('.').unwrap_or((place, ""));
    let (packet, connection) = rest.split_once('.').unwrap_or((rest, ""));
    match read(alloc, octets) {
        Ok((message, _)) => Ok(Heard {
            slot: slot.parse::<u64>()?,
            time: packet.parse::<u64>()?,
            packet: packet.parse::<u64>()?,
            connection: connection.parse::<u64>()?,
            message,
        }),
        Err(error) => Err(Fail::new(format_args!("{place}: {error}"))),
    }
}

/// The octets of all the words that are left.
fn octets_in(alloc: Global, words: &mut Words<'_>) -> Result<Vec<u8>, Fail> {
    let mut digits = String::new(alloc);
    for _ in 0..1000_u16 {
        let word = words.word();
        let (times, repeated) = word.split_once('*').unwrap_or(("1", word));
        for _ in 0..times.parse::<u16>()? {
            digits.push_str(repeated)?;
        }
    }
    octets_of(alloc, &digits)
}

/// The messages of an action.
fn heard_in(alloc: Global, action: &str) -> Result<Vec<Heard>, Fail> {
    let mut heard = Vec::new(alloc);
    for part in action.split('@') {
        let mut words = Words::of(part);
        let place = words.word();
        // what stands before the first message has no place
        if place.contains(".") {
            let octets = octets_in(alloc, &mut words)?;
            heard.push(message_at(alloc, place, &octets)?)?;
        }
    }
    Ok(heard)
}

/// The rows of a cell and their text, where memory can be scarce.
fn rows_in(
    alloc: Global,
    drought: &mut Drought,
    cell: Cell,
    heard: &[Heard],
) -> Result<(Vec<OrderRow>, Vec<u8>), AllocError> {
    drought.begin(alloc);
    let rows = rows_of(alloc, cell, heard);
    let text = match &rows {
        Ok(rows) => orders_text(alloc, rows),
        Err(_) => Err(AllocError),
    };
    drought.end();
    Ok((rows?, text?))
}

/// `orders LAC-CI MESSAGES`.
fn orders(
    alloc: Global,
    drought: &mut Drought,
    cell: Cell,
    heard: &[Heard],
) -> Result<String, Fail> {
    let Ok((rows, text)) = rows_in(alloc, drought, cell, heard) else {
        return Ok(String::from_str(alloc, "AllocError")?);
    };
    let text = str::from_utf8(&text)?;
    let mut lines = text.split('\n');
    let mut found = String::new(alloc);
    for row in &rows {
        let line = lines.next().unwrap_or("no line");
        let space = if found.is_empty() { "" } else { " " };
        write!(found, "{space}{}:{line}", row.packet)?;
    }
    if rows.is_empty() {
        found.push_str("none")?;
    }
    if lines.next() != Some("") {
        found.push_str(" and more")?;
    }
    Ok(found)
}

/// `names LAC-CI MESSAGES`.
fn names_in(alloc: Global, cell: Cell, heard: &[Heard]) -> Result<String, Fail> {
    let mut found = String::new(alloc);
    for one in heard {
        if let LinkMessage::Reset { cells } = &one.message {
            for named in &cells.list {
                let space = if found.is_empty() { "" } else { " " };
                let is = if names(*named, cell) { "yes" } else { "no" };
                write!(found, "{space}{is}")?;
            }
        }
    }
    Ok(found)
}

/// What comes of an action, for which so many blocks of memory are left if it is `scarce`.
fn carried_out(
    alloc: Global,
    drought: &mut Drought,
    action: &str,
    blocks: u16,
) -> Result<String, Fail> {
    let mut words = Words::of(action);
    let verb = drought.verb(&mut words, blocks);
    let cell = cell_in(words.word())?;
    let heard = heard_in(alloc, action)?;
    match verb {
        "orders" => orders(alloc, drought, cell, &heard),
        "emergencies" => Ok(format!(in alloc; "{}", emergencies_to(cell, &heard))?),
        "names" => names_in(alloc, cell, &heard),
        _ => Ok(String::from_str(alloc, "no such action")?),
    }
}

/// Expects what a row says. If memory is refused, the action has one block more than before.
fn expect_row(alloc: Global, drought: &mut Drought, row: Row) -> Result<(), Fail> {
    for refused in 0..Drought::MOST {
        let found = carried_out(alloc, drought, row.action, refused)?;
        if !is_refused(&found) {
            let found = after_refusals(alloc, refused, found)?;
            if found.as_str() == row.wanted {
                return Ok(());
            }
            return Err(Fail::new(format_args!("{} -> {found}", row.action)));
        }
    }
    Err(Fail::new("it is refused to the end"))
}

/// Expects what the lines of a table say, which are as many.
pub fn expect_rows(rt: &impl Abort, alloc: Global, table: &str, count: u16) -> Result<(), Fail> {
    let mut drought = Drought::new(alloc)?;
    let mut rows = 0_u16;
    for line in table.split('\n') {
        if let Some(row) = Row::of(line) {
            expect_row(alloc, &mut drought, row)?;
            rows = rows.saturating_add(1);
        }
    }
    drop(drought);
    assert!(rt; rows == count);
    Ok(())
}
