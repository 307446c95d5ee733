//! What a message says, in the words of a row. These are numbers under short names: `cl` cells, `nc` completed
//! broadcasts, `fl` a failure, each with its discriminator before a colon; `pg` a page.

use cbs_page::{Content, Serial};
use cbsp_link::{Answered, LinkCell, LinkCount, LinkFailure, LinkMessage, Plmn};
use std::alloc::AllocError;
use std::fmt::Write;

/// Puts the digits of a network: the country code, the network code, and whether that has three digits.
fn put_plmn(row: &mut String, plmn: Plmn) -> Result<(), AllocError> {
    let (first, second) = (u16::from(plmn.0 % 16), u16::from(plmn.0 / 16));
    let country = first * 100 + second * 10 + u16::from(plmn.1 % 16);
    let two = u16::from(plmn.2 % 16) * 10 + u16::from(plmn.2 / 16);
    match plmn.1 / 16 {
        15 => write!(row, "{country}.{two}.0"),
        third => write!(row, "{country}.{}.1", two * 10 + u16::from(third)),
    }
}

/// Puts the numbers that name a cell.
fn put_cell(row: &mut String, cell: LinkCell) -> Result<(), AllocError> {
    match cell {
        LinkCell::Global { plmn, lac, ci } => {
            put_plmn(row, plmn)?;
            write!(row, ".{lac}.{ci}")
        }
        LinkCell::LacCi { lac, ci } => write!(row, "{lac}.{ci}"),
        LinkCell::Ci { ci } => write!(row, "{ci}"),
        LinkCell::Area { plmn, lac } => {
            put_plmn(row, plmn)?;
            write!(row, ".{lac}")
        }
        LinkCell::Lac { lac } => write!(row, "{lac}"),
        LinkCell::Nothing | LinkCell::All => Ok(()),
    }
}

/// The discriminator of a cell.
fn discriminator(cell: LinkCell) -> u8 {
    match cell {
        LinkCell::Global { .. } => 0,
        LinkCell::LacCi { .. } => 1,
        LinkCell::Ci { .. } => 2,
        LinkCell::Nothing => 3,
        LinkCell::Area { .. } => 4,
        LinkCell::Lac { .. } => 5,
        LinkCell::All => 6,
    }
}

/// Puts the cells, if there are some.
fn put_cells(row: &mut String, cells: &[LinkCell]) -> Result<(), AllocError> {
    let mut is_first = true;
    for cell in cells {
        if is_first {
            write!(row, " cl={}:", discriminator(*cell))?;
        } else {
            row.push_str(",")?;
        }
        put_cell(row, *cell)?;
        is_first = false;
    }
    Ok(())
}

/// Puts the completed broadcasts, if there are some.
fn put_counts(row: &mut String, counts: &[LinkCount]) -> Result<(), AllocError> {
    let mut is_first = true;
    for count in counts {
        if is_first {
            write!(row, " nc={}:", discriminator(count.cell))?;
        } else {
            row.push_str(",")?;
        }
        put_cell(row, count.cell)?;
        write!(row, "/{}/{}", count.number, count.info)?;
        is_first = false;
    }
    Ok(())
}

/// Puts the failures.
fn put_failures(row: &mut String, failures: &[LinkFailure]) -> Result<(), AllocError> {
    for failure in failures {
        write!(row, " fl={}:", discriminator(failure.cell))?;
        put_cell(row, failure.cell)?;
        write!(row, "/{}", failure.cause)?;
    }
    Ok(())
}

/// Puts an octet under its name, if there is one.
fn put_octet(row: &mut String, name: &str, octet: Option<u8>) -> Result<(), AllocError> {
    match octet {
        Some(octet) => write!(row, " {name}={octet}"),
        None => Ok(()),
    }
}

/// Puts the serial numbers of an order to write.
fn put_serials(row: &mut String, new: Serial, old: Option<Serial>) -> Result<(), AllocError> {
    write!(row, " new={}", new.number())?;
    match old {
        Some(old) => write!(row, " old={}", old.number()),
        None => Ok(()),
    }
}

/// Puts the type of a reply, its identifier and the order that it answers.
fn put_answered(
    row: &mut String,
    kinds: [u8; 2],
    id: u16,
    order: Answered,
) -> Result<(), AllocError> {
    let [write_kind, kill_kind] = kinds;
    match order {
        Answered::Write {
            new_serial,
            old_serial,
        } => {
            write!(row, "type={write_kind} id={id}")?;
            put_serials(row, new_serial, old_serial)
        }
        Answered::Kill { old_serial } => {
            write!(row, "type={kill_kind} id={id} old={}", old_serial.number())
        }
    }
}

/// Puts the pages.
fn put_pages(row: &mut String, contents: &[Content]) -> Result<(), AllocError> {
    for content in contents {
        write!(row, " pg={}:", content.used)?;
        for octet in content.octets.as_slice() {
            write!(row, "{octet:02x}")?;
        }
    }
    Ok(())
}

/// Puts what an order says.
fn put_order(row: &mut String, message: &LinkMessage) -> Result<(), AllocError> {
    match message {
        LinkMessage::Write {
            id,
            new_serial,
            old_serial,
            cells,
            channel,
            category,
            period,
            broadcasts,
            dcs,
            contents,
        } => {
            write!(row, "type=1 id={id}")?;
            put_serials(row, *new_serial, *old_serial)?;
            put_cells(row, &cells.list)?;
            put_octet(row, "ch", Some(*channel))?;
            put_octet(row, "cat", *category)?;
            write!(row, " per={period} num={broadcasts} dcs={}", dcs.0)?;
            put_pages(row, contents.as_slice())
        }
        LinkMessage::Emergency {
            id,
            new_serial,
            old_serial,
            cells,
        } => {
            write!(row, "type=1 id={id}")?;
            put_serials(row, *new_serial, *old_serial)?;
            put_cells(row, &cells.list)?;
            row.push_str(" emergency")
        }
        LinkMessage::Kill {
            id,
            old_serial,
            cells,
            channel,
        } => {
            write!(row, "type=4 id={id} old={}", old_serial.number())?;
            put_cells(row, &cells.list)?;
            put_octet(row, "ch", *channel)
        }
        _ => Ok(()),
    }
}

/// Puts what takes messages away.
fn put_loss(row: &mut String, message: &LinkMessage) -> Result<(), AllocError> {
    match message {
        LinkMessage::Reset { cells } => {
            row.push_str("type=16")?;
            put_cells(row, &cells.list)
        }
        LinkMessage::ResetDone { cells } => {
            row.push_str("type=17")?;
            put_cells(row, &cells.list)
        }
        LinkMessage::ResetFailed { failures, cells } => {
            row.push_str("type=18")?;
            put_failures(row, &failures.list)?;
            put_cells(row, &cells.list)
        }
        LinkMessage::Restart {
            cells,
            broadcast_type,
            recovery,
        } => {
            row.push_str("type=19")?;
            put_cells(row, &cells.list)?;
            write!(row, " bt={broadcast_type} ri={recovery}")
        }
        LinkMessage::Failure {
            failures,
            broadcast_type,
        } => {
            row.push_str("type=20")?;
            put_failures(row, &failures.list)?;
            write!(row, " bt={broadcast_type}")
        }
        _ => Ok(()),
    }
}

/// Puts what a message says.
pub fn put_message(row: &mut String, message: &LinkMessage) -> Result<(), AllocError> {
    match message {
        LinkMessage::Done {
            id,
            order,
            completed,
            cells,
            channel,
        } => {
            put_answered(row, [2, 5], *id, *order)?;
            put_counts(row, &completed.list)?;
            put_cells(row, &cells.list)?;
            put_octet(row, "ch", *channel)
        }
        LinkMessage::Failed {
            id,
            order,
            failures,
            completed,
            cells,
            channel,
        } => {
            put_answered(row, [3, 6], *id, *order)?;
            put_failures(row, &failures.list)?;
            put_counts(row, &completed.list)?;
            put_cells(row, &cells.list)?;
            put_octet(row, "ch", *channel)
        }
        LinkMessage::Other { message_type } => write!(row, "type={message_type}, passed over"),
        _ => {
            put_order(row, message)?;
            put_loss(row, message)
        }
    }
}
