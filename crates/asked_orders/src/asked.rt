//! Which orders of a book asked a cell, by the cell's log.

ghost use Rattle.std.specs.Prelude.{◌≡◌, ◌==◌, ◌++◌, [], IfOk, OnOk};
ghost use Rattle.std.specs.List.{list_any, slice_get};
ghost use Rattle.std.specs.Option.{option_copied};
ghost use Rattle.alert_book.specs.Row.{is_write};
ghost use Rattle.asked_orders.specs.Asked.{asked_in, asks, cells_named, is_entry_of, is_ordered, is_taken, is_taken_by};
ghost use Rattle.asked_orders.specs.Asked.{kills_alert, may_ask, names, places_from, taken_after, writes_version};

use alert_book::{Action, Alert, Order};
use bsc_table::{Answer, CellRecord, Command, Entry};
use cbsp_wire::Cell;
use cbsp_wire::cells::contains;
use report::AskedCell;
use std::alloc::{AllocError, Global};

/// The cells that an order names.
fn cells_named(action: &Action) -> &[Cell]
    ensures { result.now ≡ cells_named action.now }
{
    match action {
        Action::Write(sending) => sending.cells.list.as_slice(),
        Action::Update { sending, .. } => sending.cells.list.as_slice(),
        Action::Stop(cells) => cells.list.as_slice(),
    }
}

/// Whether an order names a cell.
pub fn names(order: &Order, cell: Cell) -> bool
    ensures { result ≡ names order.now cell }
{
    contains(cells_named(&order.action), cell)
}

/// Whether a command writes this version of an alert.
fn writes_version(alert: Alert, version: u8, command: &Command) -> bool
    ensures { result ≡ writes_version alert version command.now }
{
    let Alert { id, scope, code } = alert;
    let number = u32::from(scope) * 16384 + u32::from(code) * 16 + u32::from(version);
    match command {
        Command::Write {
            id: of_id,
            serial,
            ..
        } => *of_id == id && u32::from(serial.number()) == number,
        Command::Kill { .. } => false,
        Command::Status { .. } => false,
    }
}

/// Whether a command stops some version of an alert.
fn kills_alert(alert: Alert, command: &Command) -> bool
    ensures { result ≡ kills_alert alert command.now }
{
    let Alert { id, scope, code } = alert;
    match command {
        Command::Write { .. } => false,
        Command::Kill { id: of_id, serial } => {
            *of_id == id
                && u32::from(serial.number()) / 16 == u32::from(scope) * 1024 + u32::from(code)
        }
        Command::Status { .. } => false,
    }
}

/// Whether a command is one that an order has cells carry out.
fn is_ordered(alert: Alert, action: &Action, command: &Command) -> bool
    ensures { result ≡ is_ordered alert action.now command.now }
{
    match action {
        Action::Write(_) => writes_version(alert, 0, command),
        Action::Update { update, .. } => writes_version(alert, *update, command),
        Action::Stop(_) => kills_alert(alert, command),
    }
}

/// Whether the next entry of a log, if there is one, is an order's.
pub fn is_entry_of(order: &Order, next: Option<&Entry>) -> bool
    ensures { result ≡ is_entry_of order.now (option_copied next.entry) }
{
    match next {
        Some(entry) => is_ordered(order.alert, &order.action, &entry.command),
        None => false,
    }
}

/// Whether an order is a `write`.
pub fn is_write(order: &Order) -> bool
    ensures { result ≡ is_write order.now }
{
    match &order.action {
        Action::Write(_) => true,
        Action::Update { .. } => false,
        Action::Stop(_) => false,
    }
}

/// Whether a number is among these.
fn has_number(numbers: &[u16], wanted: u16) -> bool
    ensures { result ≡ list_any (λ number. number == wanted) numbers.now }
{
    for number in numbers {
        if *number == wanted {
            return true;
        }
    }
    false
}

/// Whether an order may ask a cell that has accepted the first versions of these alerts.
pub fn may_ask(accepted: &[u16], order: &Order) -> bool
    ensures { result ≡ may_ask accepted.now order.now }
{
    is_write(order) || has_number(accepted, order.number)
}

/// Whether an order asked a cell whose log goes on with this entry. The entry is looked at first, since most orders of
/// a long book have another one.
pub fn asks(order: &Order, cell: Cell, accepted: &[u16], next: Option<&Entry>) -> bool
    ensures { result ≡ asks order.now cell accepted.now (option_copied next.entry) }
{
    is_entry_of(order, next) && names(order, cell) && may_ask(accepted, order)
}

/// Whether a cell answered an entry by doing what it orders.
fn is_taken_by(answer: Answer) -> bool
    ensures { result ≡ is_taken_by answer }
{
    match answer {
        Answer::Cause(_) => false,
        Answer::Started { .. }
        | Answer::Replaced { .. }
        | Answer::Stopped { .. }
        | Answer::Told { .. }
        | Answer::Unknown
        | Answer::Refused => true,
    }
}

/// Whether there is an entry that the cell answered so.
pub(crate) fn is_taken(next: Option<&Entry>) -> bool
    ensures { result ≡ is_taken (option_copied next.entry) }
{
    match next {
        Some(entry) => is_taken_by(entry.answer),
        None => false,
    }
}

/// Keeps the alerts of which a cell accepted the first version, after one more order, which asked it by this entry.
pub(crate) fn keep_taken(
    accepted: &mut Vec<u16>,
    order: &Order,
    next: Option<&Entry>,
) -> Result<(), AllocError>
    ensures { OnOk result (accepted.new.items ≡ taken_after accepted.old.items order.now (option_copied next.entry)) }
{
    if !is_write(order) || !is_taken(next) {
        return Ok(());
    }
    accepted.push(order.number)?;
    Ok(())
}

/// The entry at a place of a log, if it is so long.
pub(crate) fn entry_at(log: &[Entry], place: usize) -> Option<&Entry>
    ensures { option_copied result ≡ slice_get log.now place }
{
    match log.get(place) {
        Some(entry) => Some(entry),
        None => None,
    }
}

/// The places of those orders that asked a cell with this log.
fn places_of(
    alloc: Global,
    cell: Cell,
    log: &[Entry],
    orders: &[Order],
) -> Result<Vec<usize>, AllocError>
    ensures { IfOk result (λ places. places.items ≡ places_from cell log.now 0 0 [] orders.now) }
{
    let mut places = Vec::new(alloc);
    let mut accepted = Vec::new(alloc);
    for (place, order) in orders.iter().enumerate() {
        let next = entry_at(log, places.len());
        if asks(order, cell, accepted.as_slice(), next) {
            places.push(place)?;
            keep_taken(&mut accepted, order, next)?;
        }
    }
    Ok(places)
}

/// The orders that asked a cell of a run, by its record.
///
/// # Errors
///
/// Out of memory.
pub(crate) fn asked_in(
    alloc: Global,
    orders: &[Order],
    run: &CellRecord,
) -> Result<AskedCell, AllocError>
    ensures { IfOk result (λ asked. asked ≡ asked_in orders.now run.now) }
{
    let cell = run.cell();
    Ok(AskedCell {
        cell,
        places: places_of(alloc, cell, run.log(), orders)?,
    })
}
