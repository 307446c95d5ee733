//! What a row means after the rows before it.

ghost use Rattle.std.specs.Prelude.{◌≡◌, ◌≢◌, ◌≤◌, Ok, Err, All, IfErr, IfOk, count_by, length};
ghost use Rattle.csv.specs.Records.{fields_of};
ghost use Rattle.alert_book.specs.Fields.{column};
ghost use Rattle.alert_book.specs.SendableSteps.{HasSerials, IsSendable};
ghost use Rattle.alert_book.specs.NameSteps.{AreNames};
ghost use Rattle.alert_book.specs.RowSteps.{IsFine};
ghost use Rattle.alert_book.specs.Row.{cell_row, columns_of, is_update_of, is_write, row_after_verb_by, row_of};
ghost use Rattle.alert_book.specs.Row.{row_of_verb_by, stop_row_by, update_row_by, update_with, verb_of, write_row_by};

use crate::book::cells::is_among;
use crate::book::declared::Declared;
use crate::book::fields::{
    alert_at, check_new_name, column, copy_of, known_name, number, sending_at, texts_of,
};
use crate::book::names::Names;
use crate::book::order::{Action, Order, Sending};
use crate::fault::RowFault;
use cbsp_wire::Cell;
use csv::{ByteRecord, StringRecord};
use std::alloc::Global;

/// The most rows of a book.
pub(crate) const MAX_ROWS: u32 = 4096;

/// The most rows that declare cells.
pub(crate) const MAX_CELLS: usize = 64;

/// The most updates of a name.
pub(crate) const MAX_UPDATES: usize = 15;

/// What a row does.
#[derive(Debug, Drop)]
pub enum Row {
    /// It declares a cell.
    Declare(Cell),
    /// It gives an order.
    Give(Order),
}

/// The first column of a row.
#[derive(Clone, Copy, Debug, PartialEq, Eq)]
pub enum Verb {
    /// A cell is declared.
    Cell,
    /// An alert is written.
    Write,
    /// It is updated.
    Update,
    /// It is stopped.
    Stop,
}

/// The verb that a word is.
#[tactic(auto, unfolding(crate::specs::Row::verb_of))]
pub(crate) fn verb_of(word: &str) -> Option<Verb>
    ensures { result ≡ verb_of word.now }
{
    match word {
        "cell" => Some(Verb::Cell),
        "write" => Some(Verb::Write),
        "update" => Some(Verb::Update),
        "stop" => Some(Verb::Stop),
        _ => None,
    }
}

/// How many columns a row of a verb has, the verb's own among them.
pub fn columns_of(verb: Verb) -> usize
    ensures { result ≡ columns_of verb }
{
    match verb {
        Verb::Cell => 3,
        Verb::Write => 12,
        Verb::Update => 9,
        Verb::Stop => 4,
    }
}

/// What the row of this number means, if the rows before it declare these cells and give these orders.
pub(crate) fn row_of(
    alloc: Global,
    row: u32,
    declared: &Vec<Cell>,
    orders: &[Order],
    names: &Names,
    fields: ByteRecord,
) -> Result<Row, RowFault>
    requires few { length orders.now ≤ 4096 }
    requires names { AreNames names.now orders.now }
    ensures ok { IfOk result (λ meant. row_of row declared.now.items orders.now (fields_of fields) ≡ Ok meant) }
    ensures sendable { IfOk result (λ meant. All IsSendable orders.now → IsFine meant) }
    ensures err { IfErr result (λ fault. fault ≢ RowFault.Refused →
        row_of row declared.now.items orders.now (fields_of fields) ≡ Err fault) }
{
    if row > MAX_ROWS {
        return Err(RowFault::TooManyRows);
    }
    let fields = texts_of(fields)?;
    row_after_verb(alloc, row, declared, orders, names, &fields)
}

/// `row_of` for a row whose columns are text.
pub(crate) fn row_after_verb<D: Declared>(
    alloc: Global,
    row: u32,
    declared: &D,
    orders: &[Order],
    names: &Names,
    fields: &StringRecord,
) -> Result<Row, RowFault>
    requires few { length orders.now ≤ 4096 }
    requires names { AreNames names.now orders.now }
    ensures ok { IfOk result (λ meant.
        row_after_verb_by (verb_of (column (fields_of fields.now) 0)) (D.declares declared.now (fields_of fields.now))
        row (D.field_cells declared.now) orders.now (fields_of fields.now)
        ≡ Ok meant) }
    ensures sendable { IfOk result (λ meant. All IsSendable orders.now → IsFine meant) }
    ensures err { IfErr result (λ fault. fault ≢ RowFault.Refused →
        row_after_verb_by (verb_of (column (fields_of fields.now) 0)) (D.declares declared.now (fields_of fields.now))
        row (D.field_cells declared.now) orders.now (fields_of fields.now)
        ≡ Err fault) }
{
    let Some(verb) = verb_of(column(fields, 0)) else {
        return Err(RowFault::Verb);
    };
    if fields.len() != columns_of(verb) {
        return Err(RowFault::Columns);
    }
    match verb {
        Verb::Cell => declared.cell_row(fields),
        Verb::Write => write_row(alloc, row, declared, orders, names, fields),
        Verb::Update => update_row(alloc, row, declared, orders, names, fields),
        Verb::Stop => stop_row(alloc, row, declared, orders, names, fields),
    }
}

/// A row of a book that declares a cell.
pub(crate) fn cell_row(declared: &[Cell], fields: &StringRecord) -> Result<Row, RowFault>
    ensures ok { IfOk result (λ meant. cell_row declared.now (fields_of fields.now) ≡ Ok meant) }
    ensures fine { IfOk result IsFine }
    ensures err { IfErr result (λ fault. cell_row declared.now (fields_of fields.now) ≡ Err fault) }
{
    if declared.len() >= MAX_CELLS {
        return Err(RowFault::TooManyRows);
    }
    let lac = number(column(fields, 1), 0, u16::MAX)?;
    let ci = number(column(fields, 2), 0, u16::MAX)?;
    let cell = Cell { lac, ci };
    if is_among(declared, cell) {
        return Err(RowFault::TwiceNamed);
    }
    Ok(Row::Declare(cell))
}

/// How many orders write a name.
fn count_of_writes(orders: &[Order]) -> usize
    ensures count { result ≡ count_by is_write orders.now }
    ensures bound { result ≤ length orders.now }
{
    orders
        .iter()
        .filter(|order| matches!(order.action, Action::Write(_)))
        .count()
}

/// How many orders update a name.
#[tactic(auto, using(crate::proofs::NameLaws::none_updates))]
pub(crate) fn count_of_updates(orders: &[Order], names: &Names, name: &str) -> usize
    requires { AreNames names.now orders.now }
    ensures { result ≡ count_by (is_update_of name.now) orders.now }
{
    match names.known(name) {
        Some(known) => usize::from(known.updates),
        None => 0,
    }
}

/// A row that writes an alert.
fn write_row<D: Declared>(
    alloc: Global,
    row: u32,
    declared: &D,
    orders: &[Order],
    names: &Names,
    fields: &StringRecord,
) -> Result<Row, RowFault>
    requires few { length orders.now ≤ 4096 }
    requires names { AreNames names.now orders.now }
    ensures ok { IfOk result (λ meant. write_row_by row (D.field_cells declared.now) orders.now (fields_of fields.now)
        ≡ Ok meant) }
    ensures sendable { IfOk result (λ meant. All IsSendable orders.now → IsFine meant) }
    ensures err { IfErr result (λ fault. fault ≢ RowFault.Refused →
        write_row_by row (D.field_cells declared.now) orders.now (fields_of fields.now) ≡ Err fault) }
{
    let at = number(column(fields, 1), 0, u16::MAX)?;
    let name = column(fields, 2);
    check_new_name(orders, names, name)?;
    let alert = alert_at(fields, 3)?;
    let sending = sending_at(alloc, declared, fields, 6)?;
    Ok(Row::Give(Order {
        row,
        at,
        name: copy_of(alloc, name)?,
        number: count_of_writes(orders) as u16,
        alert,
        action: Action::Write(sending),
    }))
}

/// A row that updates an alert.
fn update_row<D: Declared>(
    alloc: Global,
    row: u32,
    declared: &D,
    orders: &[Order],
    names: &Names,
    fields: &StringRecord,
) -> Result<Row, RowFault>
    requires { AreNames names.now orders.now }
    ensures ok { IfOk result (λ meant. update_row_by row (D.field_cells declared.now) orders.now (fields_of fields.now)
        ≡ Ok meant) }
    ensures sendable { IfOk result (λ meant. All IsSendable orders.now → IsFine meant) }
    ensures err { IfErr result (λ fault. fault ≢ RowFault.Refused →
        update_row_by row (D.field_cells declared.now) orders.now (fields_of fields.now) ≡ Err fault) }
{
    let at = number(column(fields, 1), 0, u16::MAX)?;
    let name = column(fields, 2);
    let first = known_name(orders, names, name)?;
    let sending = sending_at(alloc, declared, fields, 3)?;
    let earlier = count_of_updates(orders, names, name);
    let meant = update_with(alloc, row, at, name, first, earlier, sending)?;
    Ok(meant)
}

/// An update of a name with this first order, if it isn't one too many.
fn update_with(
    alloc: Global,
    row: u32,
    at: u16,
    name: &str,
    first: &Order,
    earlier: usize,
    sending: Sending,
) -> Result<Row, RowFault>
    ensures ok { IfOk result (λ meant. update_with row at name.now first.now earlier sending ≡ Ok meant) }
    ensures sendable { IfOk result (λ meant. HasSerials first.now.alert → IsFine meant) }
    ensures err { IfErr result (λ fault. fault ≢ RowFault.Refused →
        update_with row at name.now first.now earlier sending ≡ Err fault) }
{
    if earlier >= MAX_UPDATES {
        return Err(RowFault::TooManyUpdates);
    }
    let update = earlier as u8 + 1;
    Ok(Row::Give(Order {
        row,
        at,
        name: copy_of(alloc, name)?,
        number: first.number,
        alert: first.alert,
        action: Action::Update { update, sending },
    }))
}

/// A row that stops an alert.
fn stop_row<D: Declared>(
    alloc: Global,
    row: u32,
    declared: &D,
    orders: &[Order],
    names: &Names,
    fields: &StringRecord,
) -> Result<Row, RowFault>
    requires { AreNames names.now orders.now }
    ensures ok { IfOk result (λ meant. stop_row_by row (D.field_cells declared.now) orders.now (fields_of fields.now) ≡
        Ok meant) }
    ensures sendable { IfOk result (λ meant. All IsSendable orders.now → IsFine meant) }
    ensures err { IfErr result (λ fault. fault ≢ RowFault.Refused →
        stop_row_by row (D.field_cells declared.now) orders.now (fields_of fields.now) ≡ Err fault) }
{
    let at = number(column(fields, 1), 0, u16::MAX)?;
    let name = column(fields, 2);
    let first = known_name(orders, names, name)?;
    let cells = declared.cells_of_field(alloc, column(fields, 3))?;
    Ok(Row::Give(Order {
        row,
        at,
        name: copy_of(alloc, name)?,
        number: first.number,
        alert: first.alert,
        action: Action::Stop(cells),
    }))
}
