//! What is said of an order, by what became of it in the cells of a run.

ghost use Rattle.std.specs.Prelude.{◌≡◌, ◌++◌, count_by, filter, find, map, IfOk, OnOk};
ghost use Rattle.std.specs.List.{list_all, list_any};
ghost use Rattle.std.specs.Option.{option_copied};
ghost use Rattle.std.specs.Str.{chars};
ghost use Rattle.alert_book.specs.Book.{sending_of};
ghost use Rattle.alert_book.specs.Row.{is_write};
ghost use Rattle.book_remarks.specs.Remarks.{cause_says, cells_left_out, is_answer, is_answered, is_blank};
ghost use Rattle.book_remarks.specs.Remarks.{is_left_out, is_omission, is_refusal, is_refused, is_same, is_write_with};
ghost use Rattle.book_remarks.specs.Remarks.{late_says, latest, new_cause_says, order_says, past_says, refused_says};
ghost use Rattle.book_remarks.specs.Remarks.{blank_says, coding_says, is_dear, same_says, slot_done, text_says};
ghost use Rattle.book_remarks.specs.Remarks.{is_in_vain, unasked_says, unshown_count, unshown_says};

use crate::mark::Mark;
use alert_book::{Action, Alert, Order, Sending};
use asked_orders::is_write;
use book_texts::{
    cost_of_text, first_forcing, forcing_count, pages_needed, pages_without_forcing,
    place_of_forcing,
};
use cbsp_wire::cause::CELL_BROADCAST_NOT_OPERATIONAL;
use cbsp_wire::{Cell, Cells};
use std::alloc::{AllocError, Global};

/// What became of an order in one of the cells of a run.
#[derive(Clone, Copy, Debug, PartialEq, Eq)]
pub struct CellMark {
    /// The cell.
    pub cell: Cell,
    /// What became of the order there.
    pub mark: Mark,
}

/// What is said of an order.
#[derive(Debug, Drop)]
pub enum Says {
    /// No cell was asked: no version of the alert is live in any that the order names.
    OrdersNothing,
    /// These of its cells weren't asked.
    LeavesOut(Cells),
    /// It was done later than at its slot: the latest slot at which a cell did it.
    DoneAt {
        /// The slot.
        slot: u16,
    },
    /// Cells refused it.
    Refused {
        /// In how many cells.
        cells: usize,
        /// The cause (3GPP TS 48.049, 8.2, Cause).
        cause: u8,
    },
    /// The run was over in a cell.
    PastTheEnd,
    /// Cells accepted its message, and no broadcast of it is whole, so that no phone shows it.
    NeverShown {
        /// In how many cells.
        cells: usize,
    },
    /// An earlier row has written an alert of the same identifier and serial number.
    SameAs {
        /// The first of these rows.
        row: u32,
    },
    /// Its text has spaces and line feeds alone.
    OnlySpaces,
    /// A few characters have its text sent in UCS-2, in which it takes more pages: GSM 7-bit (3GPP TS 23.038) lacks
    /// these, and has more than half of its characters.
    ForcesUcs2 {
        /// The first of them.
        character: char,
        /// How many characters stand before it.
        place: usize,
        /// How many pages the text takes.
        pages: usize,
        /// How many it would take without these characters.
        without: usize,
    },
}

/// Whether an order asked a cell.
fn is_answer(mark: Mark) -> bool
    ensures { result ≡ is_answer mark }
{
    match mark {
        Mark::Elsewhere | Mark::LeftOut => false,
        Mark::Done { .. } | Mark::Refused { .. } => true,
    }
}

/// Whether an order asked one of these cells.
fn is_any_answered(in_cells: &[CellMark]) -> bool
    ensures { result ≡ list_any is_answered in_cells.now }
{
    for m in in_cells {
        if is_answer(m.mark) {
            return true;
        }
    }
    false
}

/// Whether an order named a cell, and didn't ask it.
fn is_omission(mark: Mark) -> bool
    ensures { result ≡ is_omission mark }
{
    match mark {
        Mark::LeftOut => true,
        Mark::Elsewhere | Mark::Done { .. } | Mark::Refused { .. } => false,
    }
}

/// The cells that an order named and didn't ask.
fn cells_left_out(alloc: Global, in_cells: &[CellMark]) -> Result<Vec<Cell>, AllocError>
    ensures { IfOk result (λ cells. cells.items ≡ cells_left_out in_cells.now) }
{
    let mut cells = Vec::new(alloc);
    for m in in_cells {
        if is_omission(m.mark) {
            cells.push(m.cell)?;
        }
    }
    Ok(cells)
}

/// Appends what is said of the cells that an order didn't ask.
fn push_unasked(
    alloc: Global,
    said: &mut Vec<Says>,
    in_cells: &[CellMark],
) -> Result<(), AllocError>
    ensures { OnOk result (said.new.items ≡ said.old.items ++ unasked_says in_cells.now) }
{
    if !is_any_answered(in_cells) {
        said.push(Says::OrdersNothing)?;
        return Ok(());
    }
    let list = cells_left_out(alloc, in_cells)?;
    if list.is_empty() {
        return Ok(());
    }
    said.push(Says::LeavesOut(Cells { list }))?;
    Ok(())
}

/// The slot at which a cell did what was ordered; 0 if it didn't.
fn slot_done(mark: Mark) -> u16
    ensures { result ≡ slot_done mark }
{
    match mark {
        Mark::Done { slot, .. } => slot,
        Mark::Elsewhere | Mark::LeftOut | Mark::Refused { .. } => 0,
    }
}

/// The latest slot at which a cell did what was ordered.
fn latest(in_cells: &[CellMark]) -> u16
    ensures { result ≡ latest in_cells.now }
{
    let mut last = 0;
    for m in in_cells {
        last = slot_done(m.mark).max(last);
    }
    last
}

/// Appends what is said of an order of a slot that was done later.
fn push_late(said: &mut Vec<Says>, at: u16, in_cells: &[CellMark]) -> Result<(), AllocError>
    ensures { OnOk result (said.new.items ≡ said.old.items ++ late_says at in_cells.now) }
{
    let slot = latest(in_cells);
    if at >= slot {
        return Ok(());
    }
    said.push(Says::DoneAt { slot })?;
    Ok(())
}

/// Whether a cell refused an order with this cause.
fn is_refusal(cause: u8, mark: Mark) -> bool
    ensures { result ≡ is_refusal cause mark }
{
    match mark {
        Mark::Refused { cause: of } => of == cause,
        Mark::Elsewhere | Mark::LeftOut | Mark::Done { .. } => false,
    }
}

/// In how many cells an order was refused with this cause.
fn count_refused(cause: u8, in_cells: &[CellMark]) -> usize
    ensures { result ≡ count_by (is_refused cause) in_cells.now }
{
    let mut count = 0;
    for m in in_cells {
        count += usize::from(is_refusal(cause, m.mark));
    }
    count
}

/// Whether an order was refused with this cause in one of these cells.
fn is_any_refused(cause: u8, in_cells: &[CellMark]) -> bool
    ensures { result ≡ list_any (is_refused cause) in_cells.now }
{
    for m in in_cells {
        if is_refusal(cause, m.mark) {
            return true;
        }
    }
    false
}

/// Appends what is said of an order that was refused with this cause, if no cell before has that.
fn push_new_cause(
    said: &mut Vec<Says>,
    before: &[CellMark],
    in_cells: &[CellMark],
    cause: u8,
) -> Result<(), AllocError>
    ensures { OnOk result (said.new.items ≡ said.old.items ++ new_cause_says before.now in_cells.now cause) }
{
    if cause == CELL_BROADCAST_NOT_OPERATIONAL {
        return Ok(());
    }
    if is_any_refused(cause, before) {
        return Ok(());
    }
    said.push(Says::Refused {
        cells: count_refused(cause, in_cells),
        cause,
    })?;
    Ok(())
}

/// Appends what is said of an order of which this became in a cell, after those before it.
fn push_cause(
    said: &mut Vec<Says>,
    before: &[CellMark],
    in_cells: &[CellMark],
    mark: Mark,
) -> Result<(), AllocError>
    ensures { OnOk result (said.new.items ≡ said.old.items ++ cause_says before.now in_cells.now mark) }
{
    match mark {
        Mark::Refused { cause } => push_new_cause(said, before, in_cells, cause),
        Mark::Elsewhere => Ok(()),
        Mark::LeftOut => Ok(()),
        Mark::Done { .. } => Ok(()),
    }
}

/// Appends what is said of an order that was refused.
fn push_refused(said: &mut Vec<Says>, in_cells: &[CellMark]) -> Result<(), AllocError>
    ensures { OnOk result (said.new.items ≡ said.old.items ++ refused_says in_cells.now) }
{
    for (place, m) in in_cells.iter().enumerate() {
        push_cause(said, &in_cells[..place], in_cells, m.mark)?;
    }
    Ok(())
}

/// Appends what is said of an order that comes after the run's end.
fn push_past(said: &mut Vec<Says>, in_cells: &[CellMark]) -> Result<(), AllocError>
    ensures { OnOk result (said.new.items ≡ said.old.items ++ past_says in_cells.now) }
{
    if !is_any_refused(CELL_BROADCAST_NOT_OPERATIONAL, in_cells) {
        return Ok(());
    }
    said.push(Says::PastTheEnd)?;
    Ok(())
}

/// Whether a cell accepted a message that is never shown.
fn is_in_vain(mark: Mark) -> bool
    ensures { result ≡ is_in_vain mark }
{
    match mark {
        Mark::Done { unseen, .. } => unseen,
        Mark::Elsewhere | Mark::LeftOut | Mark::Refused { .. } => false,
    }
}

/// In how many cells the message of an order is never shown.
fn count_unshown(in_cells: &[CellMark]) -> usize
    ensures { result ≡ unshown_count in_cells.now }
{
    let mut count = 0;
    for m in in_cells {
        count += usize::from(is_in_vain(m.mark));
    }
    count
}

/// Appends what is said of an order whose message is never shown.
fn push_unshown(said: &mut Vec<Says>, in_cells: &[CellMark]) -> Result<(), AllocError>
    ensures { OnOk result (said.new.items ≡ said.old.items ++ unshown_says in_cells.now) }
{
    let cells = count_unshown(in_cells);
    if cells == 0 {
        return Ok(());
    }
    said.push(Says::NeverShown { cells })?;
    Ok(())
}

/// Whether an order is a `write` of an alert of this identifier, scope and code.
fn is_write_with(alert: Alert, order: &Order) -> bool
    ensures { result ≡ is_write_with alert order.now }
{
    let Alert { id, scope, code } = order.alert;
    is_write(order) && (alert.id == id && (alert.scope == scope && alert.code == code))
}

/// The first of some orders that is a `write` of an alert of this identifier, scope and code.
fn first_write_with(alert: Alert, earlier: &[Order]) -> Option<&Order>
    ensures { option_copied result ≡ find (is_write_with alert) earlier.now }
{
    for order in earlier {
        if is_write_with(alert, order) {
            return Some(order);
        }
    }
    None
}

/// Appends what is said of a `write` whose identifier and serial number an earlier row has.
fn push_same(said: &mut Vec<Says>, earlier: &[Order], order: &Order) -> Result<(), AllocError>
    ensures { OnOk result (said.new.items ≡ said.old.items ++ same_says earlier.now order.now) }
{
    if !is_write(order) {
        return Ok(());
    }
    match first_write_with(order.alert, earlier) {
        None => Ok(()),
        Some(first) => {
            said.push(Says::SameAs { row: first.row })?;
            Ok(())
        }
    }
}

/// Whether a text has spaces and line feeds alone.
fn is_blank(text: &[u8]) -> bool
    ensures { result ≡ list_all is_blank text.now }
{
    for octet in text {
        if !(*octet == b' ' || *octet == b'\n') {
            return false;
        }
    }
    true
}

/// What an order has cells send, if it does.
fn sending_of(order: &Order) -> Option<&Sending>
    ensures { option_copied result ≡ sending_of order.now.action }
{
    match &order.action {
        Action::Write(sending) => Some(sending),
        Action::Update { sending, .. } => Some(sending),
        Action::Stop(_) => None,
    }
}

/// Appends what is said of a text that shows nothing.
fn push_blank(said: &mut Vec<Says>, text: &str) -> Result<(), AllocError>
    ensures { OnOk result (said.new.items ≡ said.old.items ++ blank_says text.now) }
{
    if !is_blank(text.as_bytes()) {
        return Ok(());
    }
    said.push(Says::OnlySpaces)?;
    Ok(())
}

/// Whether GSM 7-bit has more than half of a text's characters, and those that it has take fewer pages than the text.
fn is_dear(text: &str) -> bool
    ensures { result ≡ is_dear (chars text.now) }
{
    let forcing = forcing_count(text);
    let others = cost_of_text(text).characters.saturating_sub(forcing);
    forcing < others && pages_without_forcing(text) < pages_needed(text)
}

/// Appends what is said of a text that a few characters have sent in UCS-2.
fn push_coding(said: &mut Vec<Says>, text: &str) -> Result<(), AllocError>
    ensures { OnOk result (said.new.items ≡ said.old.items ++ coding_says (chars text.now)) }
{
    let (Some(character), Some(place)) = (first_forcing(text), place_of_forcing(text)) else {
        return Ok(());
    };
    if !is_dear(text) {
        return Ok(());
    }
    said.push(Says::ForcesUcs2 {
        character,
        place,
        pages: pages_needed(text),
        without: pages_without_forcing(text),
    })?;
    Ok(())
}

/// Appends what is said of an order's text.
fn push_text(said: &mut Vec<Says>, order: &Order) -> Result<(), AllocError>
    ensures { OnOk result (said.new.items ≡ said.old.items ++ text_says (sending_of order.now.action)) }
{
    match sending_of(order) {
        None => Ok(()),
        Some(sending) => {
            let text = sending.text.text.as_str();
            push_blank(said, text)?;
            push_coding(said, text)
        }
    }
}

/// All that is said of an order, by the orders before it and by what became of it in the cells of the run.
pub(crate) fn says_of(
    alloc: Global,
    earlier: &[Order],
    order: &Order,
    in_cells: &[CellMark],
) -> Result<Vec<Says>, AllocError>
    ensures { IfOk result (λ said. said.items ≡ order_says earlier.now order.now in_cells.now) }
{
    let mut said = Vec::new(alloc);
    push_unasked(alloc, &mut said, in_cells)?;
    push_late(&mut said, order.at, in_cells)?;
    push_refused(&mut said, in_cells)?;
    push_past(&mut said, in_cells)?;
    push_unshown(&mut said, in_cells)?;
    push_same(&mut said, earlier, order)?;
    push_text(&mut said, order)?;
    Ok(said)
}
