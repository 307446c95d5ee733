//! The messages of the link, by the entries of a record.

ghost use Rattle.std.specs.Prelude.{◌≡◌, ◌++◌, IfOk, OnOk};
ghost use Rattle.record_link.specs.Sent.{answer_message, cell_reply, counted_broadcasts, done_message};
ghost use Rattle.record_link.specs.Sent.{failed_message, named_cell, only, order_message, sent_message, sent_of_entry};

use bsc_table::{Answer, Command, Entry};
use cbsp_link::{
    Answered, LinkCell, LinkCells, LinkCount, LinkCounts, LinkError, LinkFailure, LinkFailures,
    LinkMessage, write,
};
use cbsp_wire::Cell;
use link_capture::{LinkSent, LinkSide, MessageOctets};
use record_orders::category_number;
use std::alloc::{AllocError, Global};

/// The basic channel (3GPP TS 48.049, 8.2.20).
const BASIC_CHANNEL: u8 = 0;

/// A cell, by its location area code and cell identity.
fn named_cell(cell: Cell) -> LinkCell
    ensures { result ≡ named_cell cell }
{
    LinkCell::LacCi {
        lac: cell.lac,
        ci: cell.ci,
    }
}

/// The list of one cell. The only error is out of memory, here and below.
fn only(alloc: Global, cell: Cell) -> Result<LinkCells, AllocError>
    ensures { IfOk result (λ cells. cells ≡ only cell) }
{
    let mut list = Vec::new(alloc);
    list.push(named_cell(cell))?;
    Ok(LinkCells { list })
}

/// What a cell is asked.
fn order_message(
    alloc: Global,
    cell: Cell,
    command: &Command,
) -> Result<Option<LinkMessage>, AllocError>
    ensures { IfOk result (λ message. message ≡ order_message cell command.now) }
{
    match command {
        Command::Write {
            id,
            serial,
            replaces,
            category,
            dcs,
            period,
            broadcasts,
            contents,
        } => {
            let cells = only(alloc, cell)?;
            let contents = contents.copy(alloc)?;
            Ok(Some(LinkMessage::Write {
                id: *id,
                new_serial: *serial,
                old_serial: *replaces,
                cells,
                channel: BASIC_CHANNEL,
                category: Some(category_number(*category)),
                period: *period,
                broadcasts: *broadcasts,
                dcs: *dcs,
                contents,
            }))
        }
        Command::Kill { id, serial } => {
            let cells = only(alloc, cell)?;
            Ok(Some(LinkMessage::Kill {
                id: *id,
                old_serial: *serial,
                cells,
                channel: Some(BASIC_CHANNEL),
            }))
        }
        Command::Status { .. } => Ok(None),
    }
}

/// The completed broadcasts of one cell.
fn counted_broadcasts(alloc: Global, cell: Cell, number: u16) -> Result<LinkCounts, AllocError>
    ensures { IfOk result (λ counts. counts ≡ counted_broadcasts cell number) }
{
    let mut list = Vec::new(alloc);
    list.push(LinkCount {
        cell: named_cell(cell),
        number,
        info: 0,
    })?;
    Ok(LinkCounts { list })
}

/// That a cell took an order.
fn done_message(
    alloc: Global,
    cell: Cell,
    id: u16,
    order: Answered,
    completed: LinkCounts,
) -> Result<LinkMessage, AllocError>
    ensures { IfOk result (λ message. message ≡ done_message cell id order completed) }
{
    let cells = only(alloc, cell)?;
    Ok(LinkMessage::Done {
        id,
        order,
        completed,
        cells,
        channel: Some(BASIC_CHANNEL),
    })
}

/// That a cell refused an order.
fn failed_message(
    alloc: Global,
    cell: Cell,
    id: u16,
    order: Answered,
    cause: u8,
) -> Result<LinkMessage, AllocError>
    ensures { IfOk result (λ message. message ≡ failed_message cell id order cause) }
{
    let mut list = Vec::new(alloc);
    list.push(LinkFailure {
        cell: named_cell(cell),
        cause,
    })?;
    Ok(LinkMessage::Failed {
        id,
        order,
        failures: LinkFailures { list },
        completed: LinkCounts {
            list: Vec::new(alloc),
        },
        cells: LinkCells {
            list: Vec::new(alloc),
        },
        channel: Some(BASIC_CHANNEL),
    })
}

/// What a cell answers to an order.
fn cell_reply(
    alloc: Global,
    cell: Cell,
    id: u16,
    order: Answered,
    answer: Answer,
) -> Result<Option<LinkMessage>, AllocError>
    ensures { IfOk result (λ message. message ≡ cell_reply cell id order answer) }
{
    match answer {
        Answer::Started { .. } => {
            let none = LinkCounts {
                list: Vec::new(alloc),
            };
            let message = done_message(alloc, cell, id, order, none)?;
            Ok(Some(message))
        }
        Answer::Replaced { completed, .. } | Answer::Stopped { completed } => {
            let completed = counted_broadcasts(alloc, cell, completed)?;
            let message = done_message(alloc, cell, id, order, completed)?;
            Ok(Some(message))
        }
        Answer::Cause(cause) => {
            let message = failed_message(alloc, cell, id, order, cause)?;
            Ok(Some(message))
        }
        Answer::Told { .. } | Answer::Unknown | Answer::Refused => Ok(None),
    }
}

/// What a cell answers to a command.
fn answer_message(
    alloc: Global,
    cell: Cell,
    command: &Command,
    answer: Answer,
) -> Result<Option<LinkMessage>, AllocError>
    ensures { IfOk result (λ message. message ≡ answer_message cell command.now answer) }
{
    match command {
        Command::Write {
            id,
            serial,
            replaces,
            ..
        } => {
            let order = Answered::Write {
                new_serial: *serial,
                old_serial: *replaces,
            };
            cell_reply(alloc, cell, *id, order, answer)
        }
        Command::Kill { id, serial } => {
            let order = Answered::Kill {
                old_serial: *serial,
            };
            cell_reply(alloc, cell, *id, order, answer)
        }
        Command::Status { .. } => Ok(None),
    }
}

/// Appends a message that is sent, if there is one, and it is one that is written.
fn push_message(
    alloc: Global,
    sent: &mut Vec<LinkSent>,
    slot: u16,
    sender: LinkSide,
    message: Option<LinkMessage>,
) -> Result<(), AllocError>
    ensures { OnOk result (sent.new.items ≡ sent.old.items ++ sent_message slot sender message) }
{
    let Some(message) = message else {
        return Ok(());
    };
    match write(alloc, &message) {
        Ok(list) => {
            let octets = MessageOctets { list };
            sent.push(LinkSent {
                slot,
                sender,
                octets,
            })?;
            Ok(())
        }
        // which no message of a record has (`whole_link_law`)
        Err(LinkError::Fault(_)) => Ok(()),
        Err(LinkError::OutOfMemory) => Err(AllocError),
    }
}

/// Appends the messages of an entry.
pub(crate) fn push_entry(
    alloc: Global,
    sent: &mut Vec<LinkSent>,
    cell: Cell,
    entry: &Entry,
) -> Result<(), AllocError>
    ensures { OnOk result (sent.new.items ≡ sent.old.items ++ sent_of_entry cell entry.now) }
{
    let order = order_message(alloc, cell, &entry.command)?;
    push_message(alloc, sent, entry.slot, LinkSide::Centre, order)?;
    let answer = answer_message(alloc, cell, &entry.command, entry.answer)?;
    push_message(alloc, sent, entry.slot, LinkSide::Controller, answer)
}
