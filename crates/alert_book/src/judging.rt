//! A book or a network book with faults: what each of its rows comes to beside the rows that have none.

ghost use Rattle.std.specs.Prelude.{◌≡◌, ◌≢◌, ◌+◌, ◌≤◌, ◌<◌, Ok, Err, false, find, length, option_map, IfErr, IfOk};
ghost use Rattle.std.specs.Prelude.{IsErr, OnErr, OnOk};
ghost use Rattle.std.specs.Option.{option_copied};
ghost use Rattle.std.specs.Result.{result_ok};
ghost use Rattle.csv.specs.Records.{fields_of};
ghost use Rattle.alert_book.specs.Book.{with_row};
ghost use Rattle.alert_book.specs.Fields.{are_texts, column, new_name};
ghost use Rattle.alert_book.specs.Judging.{counted_after, counted_with, is_past, is_undeclared, name_written};
ghost use Rattle.alert_book.specs.Judging.{next_found, next_meant, no_text_column, none_counted, none_within};
ghost use Rattle.alert_book.specs.Judging.{row_with_name, stand_in, text_or_none, undeclared_in, verb_in, with_name};
ghost use Rattle.alert_book.specs.Judging.{FoundIsFault, IsVerdict, IsVerdictOfRow};
ghost use Rattle.alert_book.specs.JudgingSteps.{HasRoom, IsWithin};
ghost use Rattle.alert_book.specs.NameSteps.{AreNames};
ghost use Rattle.alert_book.specs.Network.{groups_of};
ghost use Rattle.alert_book.specs.RowSteps.{IsFine};
ghost use Rattle.alert_book.specs.SendableSteps.{IsSendable};
ghost use Rattle.alert_book.specs.declared.book.row.Row.TheVariants as rows;

use crate::book::cells::{cells_listed, list_of};
use crate::book::fields::{check_new_name, copy_of, first_order, texts_of};
use crate::book::names::Names;
use crate::book::order::{Action, Alert, Order, Sending, Text};
use crate::book::packing::pages_of;
use crate::book::row::{MAX_ROWS, Row, Verb, row_after_verb, verb_of};
use crate::fault::RowFault;
use crate::judging::bounds::Bounds;
use crate::judging::cells::JudgedCells;
use crate::judging::columns::{Found, found_after_verb};
use crate::network::{MAX_ORDERS, declares_cell, groups_of};
use cbs_page::TextFault;
use cbsp_wire::{Cell, Cells};
use csv::ByteRecord;
use std::alloc::{AllocError, Global};
use std::marker::Model;
use std::str;

pub mod bounds;
pub(crate) mod cells;
pub mod columns;

/// The most rows of a network book that are judged: one more than it may have.
const MAX_JUDGED: u32 = 69_633;

/// What a row of a book with faults comes to.
#[derive(Clone, Copy, Debug, PartialEq, Eq)]
pub enum Verdict {
    /// It is right.
    Right,
    /// It has this fault.
    Wrong(Found),
    /// It is right, but its text can't be sent.
    Unsendable(TextFault),
}

/// What counts of the rows so far of a book, or of a network book: their number, the cells that the right ones declare,
/// the orders that the right ones give, and the names that wrong ones write. The orders of a network book are for no
/// cells here, as no row is judged by them.
#[derive(Debug, Drop)]
pub struct Judge {
    rows: u32,
    declared: JudgedCells,
    orders: Vec<Order>,
    names: Names,
}

impl Model for Judge {
    ghost use Rattle.alert_book.specs.Book.{rows_with};
    ghost use Rattle.alert_book.specs.Judging.{Counted, counted_with};

    ghost Value = { Counted };

    ghost view = { λ judge. counted_with judge.declared.bounds judge.rows
        (rows_with judge.declared.cells judge.orders.items) };

    ghost use Rattle.std.specs.Prelude.{◌≤◌, All, length};
    ghost use Rattle.alert_book.specs.JudgingSteps.{IsWithin};
    ghost use Rattle.alert_book.specs.NameSteps.{AreNames};
    ghost use Rattle.alert_book.specs.SendableSteps.{IsSendable};

    ghost invariant = { λ judge. All IsSendable judge.orders.items × AreNames judge.names judge.orders.items
        × IsWithin judge.declared.bounds judge.rows (length judge.orders.items)
        × (length judge.declared.cells ≤ 65536) };
}

impl Judge {
    /// Nothing counts before the first row of a book.
    pub fn new(alloc: Global) -> Judge
        ensures { result ≡ none_counted }
    {
        Judge::within(alloc, Bounds::Book)
    }

    /// Nothing counts before the first row of what is bounded so.
    pub fn within(alloc: Global, bounds: Bounds) -> Judge
        ensures { result ≡ none_within bounds }
    {
        Judge {
            rows: 0,
            declared: JudgedCells::new(alloc, bounds),
            orders: Vec::new(alloc),
            names: Names::new(alloc),
        }
    }

    /// What bounds the rows.
    pub fn bounds(&self) -> Bounds
        ensures { result ≡ self.now.bounds }
    {
        self.declared.bounds()
    }

    /// How many rows count: all so far, but no more than 4,096 of a book, and 69,633 of a network book.
    pub fn rows(&self) -> u32
        ensures rows { result ≡ self.now.rows }
        ensures few { result ≤ 69633 }
        ensures book { self.now.bounds ≡ Bounds.Book → result ≤ 4096 }
    {
        self.rows
    }

    /// How many groups a network has that declares the cells that count.
    pub fn groups(&self) -> u16
        ensures { result ≡ groups_of (length self.now.known.cells) }
    {
        groups_of(self.declared.list().len() as u32)
    }

    /// Whether the next row is one too many: of a book after 4,096 rows that count, and of a network book after 4,096
    /// orders that do if it declares no cell, or after 69,633 rows. It doesn't count, and no row after it need be
    /// judged.
    pub fn is_past(&self, fields: &ByteRecord) -> bool
        ensures { result ≡ is_past self.now (fields_of fields.now) }
    {
        match self.declared.bounds() {
            Bounds::Book => self.rows >= MAX_ROWS,
            Bounds::Network => {
                self.rows >= MAX_JUDGED
                    || (!declares_cell(fields) && self.orders.len() >= MAX_ORDERS)
            }
        }
    }

    /// Judges the next row by those that count, and has it count.
    ///
    /// # Errors
    ///
    /// Out of memory. What counts is as it was then.
    pub fn judge(&mut self, alloc: Global, fields: &ByteRecord) -> Result<Verdict, AllocError>
        ensures verdict { IfOk result (IsVerdict self.old (fields_of fields.now)) }
        ensures counted { OnOk result (self.new ≡ counted_after self.old (fields_of fields.now)) }
        ensures refused { OnErr result (self.new ≡ self.old) }
    {
        if self.is_past(fields) {
            return Ok(Verdict::Wrong(Found {
                column: 1,
                fault: RowFault::TooManyRows,
            }));
        }
        let copy = fields.clone()?;
        match self.next_meant(alloc, copy) {
            Ok(Row::Declare(cell)) => self.take_cell(cell),
            Ok(Row::Give(order)) => self.take_order(alloc, order),
            Err(RowFault::Refused) => Err(AllocError),
            Err(_) => self.refuse(alloc, fields),
        }
    }

    /// What the next row comes to, which isn't one too many.
    fn next_meant(&self, alloc: Global, fields: ByteRecord) -> Result<Row, RowFault>
        requires { is_past self.now (fields_of fields) ≡ false }
        ensures ok { IfOk result (λ meant. next_meant self.now (fields_of fields) ≡ Ok meant) }
        ensures fine { IfOk result IsFine }
        ensures room { IfOk result (HasRoom self.now) }
        ensures err { IfErr result (λ fault. fault ≢ RowFault.Refused →
            next_meant self.now (fields_of fields) ≡ Err fault) }
    {
        let texts = texts_of(fields)?;
        row_after_verb(
            alloc,
            self.rows + 1,
            &self.declared,
            &self.orders,
            &self.names,
            &texts,
        )
    }

    /// Has a row count that declares a cell.
    fn take_cell(&mut self, cell: Cell) -> Result<Verdict, AllocError>
        requires room { HasRoom self.old (rows.Declare cell) }
        ensures verdict { IfOk result (IsVerdictOfRow (rows.Declare cell)) }
        ensures counted { OnOk result (self.new ≡ counted_with self.old.bounds (self.old.rows + 1)
            (with_row self.old.known (rows.Declare cell))) }
        ensures refused { OnErr result (self.new ≡ self.old) }
    {
        self.declared.add(cell)?;
        self.rows += 1;
        Ok(Verdict::Right)
    }

    /// Has a row count that gives an order.
    fn take_order(&mut self, alloc: Global, order: Order) -> Result<Verdict, AllocError>
        requires fine { IsSendable order }
        requires room { HasRoom self.old (rows.Give order) }
        ensures verdict { IfOk result (IsVerdictOfRow (rows.Give order)) }
        ensures counted { OnOk result (self.new ≡ counted_with self.old.bounds (self.old.rows + 1)
            (with_row self.old.known (rows.Give order))) }
        ensures refused { OnErr result (self.new ≡ self.old) }
    {
        let verdict = text_verdict(alloc, &order)?;
        self.add(alloc, order)?;
        Ok(verdict)
    }

    /// Has an order count, and its row.
    fn add(&mut self, alloc: Global, order: Order) -> Result<(), AllocError>
        requires fine { IsSendable order }
        requires room { HasRoom self.old (rows.Give order) }
        ensures counted { OnOk result (self.new ≡ counted_with self.old.bounds (self.old.rows + 1)
            (with_row self.old.known (rows.Give order))) }
        ensures refused { OnErr result (self.new ≡ self.old) }
    {
        self.orders.reserve(1)?;
        self.names.add(alloc, &self.orders, &order)?;
        self.orders.push_reserved(order);
        self.rows += 1;
        Ok(())
    }

    /// Tells the fault of a wrong row, and has the name count that it writes.
    fn refuse(&mut self, alloc: Global, fields: &ByteRecord) -> Result<Verdict, AllocError>
        requires past { is_past self.old (fields_of fields.now) ≡ false }
        requires wrong { IsErr (next_meant self.old (fields_of fields.now)) }
        ensures verdict { IfOk result (IsVerdict self.old (fields_of fields.now)) }
        ensures counted { OnOk result (self.new ≡ counted_after self.old (fields_of fields.now)) }
        ensures refused { OnErr result (self.new ≡ self.old) }
    {
        let found = self.found_in(alloc, fields)?;
        self.count_wrong(alloc, fields)?;
        match found {
            Some(found) => Ok(Verdict::Wrong(found)),
            None => Ok(Verdict::Right),
        }
    }

    /// The fault of the next row.
    fn found_in(&self, alloc: Global, fields: &ByteRecord) -> Result<Option<Found>, AllocError>
        requires { is_past self.now (fields_of fields.now) ≡ false }
        ensures { IfOk result (λ found. found ≡ next_found self.now (fields_of fields.now)) }
    {
        match texts_of(fields.clone()?) {
            Ok(texts) => {
                found_after_verb(alloc, &self.declared, &self.orders, &self.names, &texts)
            }
            Err(_) => Ok(Some(Found {
                column: no_text_column(fields),
                fault: RowFault::Columns,
            })),
        }
    }

    /// Has a wrong row count: the name that it writes, if it writes one.
    fn count_wrong(&mut self, alloc: Global, fields: &ByteRecord) -> Result<(), AllocError>
        requires { is_past self.old (fields_of fields.now) ≡ false }
        ensures counted { OnOk result (self.new ≡ counted_with self.old.bounds (self.old.rows + 1)
            (with_name (self.old.rows + 1) self.old.known
            (name_written self.old.known.orders (fields_of fields.now)))) }
        ensures refused { OnErr result (self.new ≡ self.old) }
    {
        match name_written(&self.orders, &self.names, fields) {
            Some(name) => {
                let order = stand_in(alloc, self.rows + 1, name)?;
                self.add(alloc, order)
            }
            None => {
                self.rows += 1;
                Ok(())
            }
        }
    }

    /// The row that first has a name, if one has.
    pub fn row_with_name(&self, name: &str) -> Option<u32>
        ensures { result ≡ row_with_name self.now.known.orders name.now }
    {
        match first_order(&self.orders, &self.names, name) {
            Some(order) => Some(order.row),
            None => None,
        }
    }

    /// The first of the cells that a field lists that isn't declared.
    ///
    /// # Errors
    ///
    /// Out of memory.
    pub fn undeclared_in(&self, alloc: Global, field: &str) -> Result<Option<Cell>, AllocError>
        ensures { IfOk result (λ cell. cell ≡ undeclared_in self.now.known.cells field.now) }
    {
        match cells_listed(alloc, field)? {
            Some(cells) => Ok(first_undeclared(&self.declared, list_of(&cells)).copied()),
            None => Ok(None),
        }
    }
}

/// The first of some cells that isn't declared.
fn first_undeclared<'a>(declared: &JudgedCells, cells: &'a [Cell]) -> Option<&'a Cell>
    ensures { option_copied result ≡ find (is_undeclared declared.now.cells) cells.now }
{
    cells.iter().find(|cell| !declared.has(**cell))
}

/// What an order's text comes to.
fn text_verdict(alloc: Global, order: &Order) -> Result<Verdict, AllocError>
    ensures { IfOk result (IsVerdictOfRow (rows.Give order.now)) }
{
    match pages_of(alloc, order) {
        Ok(_) => Ok(Verdict::Right),
        Err(TextFault::Refused) => Err(AllocError),
        Err(why) => Ok(Verdict::Unsendable(why)),
    }
}

/// The text of a field, if it is UTF-8.
fn text_in(field: &[u8]) -> Option<&str>
    ensures { option_map (λ text. text.now) result ≡ text_or_none field.now }
{
    match str::from_utf8(field) {
        Ok(text) => Some(text),
        Err(_) => None,
    }
}

/// The text of a column, if it is UTF-8.
pub fn text_at(fields: &ByteRecord, place: usize) -> Option<&str>
    ensures { option_map (λ text. text.now) result ≡ text_or_none (column (fields_of fields.now) place) }
{
    text_in(octets_at(fields, place))
}

/// The octets of a column; none if there is no such column.
pub fn octets_at(fields: &ByteRecord, place: usize) -> &[u8]
    ensures { result.now ≡ column (fields_of fields.now) place }
{
    match fields.get(place) {
        Some(field) => field,
        None => b"",
    }
}

/// The verb of a row, if it has one.
pub fn verb_in(fields: &ByteRecord) -> Option<Verb>
    ensures { result ≡ verb_in (fields_of fields.now) }
{
    match text_at(fields, 0) {
        Some(word) => verb_of(word),
        None => None,
    }
}

/// The name that a row writes, whatever else is wrong with it.
fn name_written<'a>(orders: &[Order], names: &Names, fields: &'a ByteRecord) -> Option<&'a str>
    requires { AreNames names.now orders.now }
    ensures { option_map (λ name. name.now) result ≡ name_written orders.now (fields_of fields.now) }
{
    match verb_in(fields) {
        Some(Verb::Write) => good_name(orders, names, text_at(fields, 2)?),
        Some(_) | None => None,
    }
}

/// The name, if a row may write it.
fn good_name<'a>(orders: &[Order], names: &Names, name: &'a str) -> Option<&'a str>
    requires { AreNames names.now orders.now }
    ensures { option_map (λ name. name.now) result ≡ result_ok (new_name orders.now name.now) }
{
    match check_new_name(orders, names, name) {
        Ok(()) => Some(name),
        Err(_) => None,
    }
}

/// The order that stands for a wrong row that writes a name.
fn stand_in(alloc: Global, row: u32, name: &str) -> Result<Order, AllocError>
    ensures order { IfOk result (λ order. order ≡ stand_in row name.now) }
    ensures fine { IfOk result IsSendable }
{
    Ok(Order {
        row,
        at: 0,
        name: copy_of(alloc, name)?,
        number: 0,
        alert: Alert {
            id: 0,
            scope: 0,
            code: 0,
        },
        action: Action::Write(Sending {
            language: copy_of(alloc, "")?,
            category: 0,
            period: 0,
            broadcasts: 0,
            cells: Cells {
                list: Vec::new(alloc),
            },
            text: copy_of(alloc, "")?,
        }),
    })
}

/// The first column that isn't UTF-8, counted from 1; 1 if there is none.
fn no_text_column(fields: &ByteRecord) -> usize
    ensures { result ≡ no_text_column (fields_of fields.now) }
{
    for place in 0..fields.len() {
        match text_at(fields, place) {
            Some(_) => {}
            None => return place + 1,
        }
    }
    1
}

/// Whether each column is UTF-8.
pub fn are_texts(fields: &ByteRecord) -> bool
    ensures { result ≡ are_texts (fields_of fields.now) }
{
    for place in 0..fields.len() {
        match text_at(fields, place) {
            Some(_) => {}
            None => return false,
        }
    }
    true
}

/// A row has a fault by its columns exactly if it has that fault. It does nothing: its contract is the law.
pub fn judging_laws()
    ensures { FoundIsFault }
{}
