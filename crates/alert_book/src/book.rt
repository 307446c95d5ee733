//! Books as they are read.

ghost use Rattle.std.specs.Prelude.{◌≡◌, ◌≢◌, ◌⊎◌, ◌↔◌, ◌+◌, ◌≤◌, Some, None, false, true, length, IfErr, IfOk};
ghost use Rattle.std.specs.Prelude.{All, IsErrOf, IsTrue, OnErr, OnOk};
ghost use Rattle.device_ends.specs.Source.{reader_of, source_failed};
ghost use Rattle.alert_book.specs.Book.{fault_at, kind_of, refused, unread, AreRowsOf, IsBook, IsRowFault, IsWrong};
ghost use Rattle.alert_book.specs.Book.{RefusesOctets, ReadsBook, RefusesBook};
ghost use Rattle.alert_book.specs.SendableSteps.{IsSendable};

use crate::book::names::Names;
use crate::book::order::Order;
use crate::book::packing::{all_pages, all_pages_in_turn};
use crate::book::row::{Row, row_of};
use crate::fault::{BookFault, BookFaultKind, RowFault, fault_of_book};
use cbs_page::Paged;
use cbsp_wire::Cell;
use csv::{ByteRecord, ReaderBuilder};
use device_ends::{ReadFault, Source, read_up_to};
use std::alloc::{AllocGlobal, Global};
use std::io::Read;
use std::marker::Model;
use std::thread::Threads;

pub(crate) mod cells;
pub(crate) mod declared;
pub(crate) mod fields;
pub(crate) mod names;
pub(crate) mod number;
pub mod order;
pub(crate) mod packing;
pub(crate) mod row;

/// The most octets of a book: 16 MiB.
pub const MAX_INPUT: usize = 0x100_0000;

/// A book: the cells that its rows declare, and the orders that they give, in the order of the rows.
#[derive(Debug, Drop)]
pub struct Book {
    pub(crate) cells: Vec<Cell>,
    pub(crate) orders: Vec<Order>,
    pub(crate) pages: Vec<Option<Paged>>,
}

impl Model for Book {
    ghost use Rattle.alert_book.specs.Book.{Contents};

    ghost Value = { Contents };

    ghost view = { λ book.
        record { cells = book.cells.items; orders = book.orders.items; pages = book.pages.items } };

    ghost use Rattle.std.specs.Prelude.{◌≡◌, All, length};
    ghost use Rattle.alert_book.specs.SendableSteps.{IsSendable};

    ghost invariant = { λ book. All IsSendable book.orders.items
        × (length book.pages.items ≡ length book.orders.items) };
}

impl Book {
    /// The cells that the book declares, in the order of its rows.
    pub fn cells(&self) -> &[Cell]
        ensures { result.now ≡ self.now.cells }
    {
        &self.cells
    }

    /// The orders that its rows give, in their order.
    pub fn given(&self) -> &[Order]
        ensures { result.now ≡ self.now.orders }
    {
        &self.orders[..]
    }

    /// The same, and what the book keeps of them.
    pub(crate) fn orders(&self) -> &[Order]
        ensures orders { result.now ≡ self.now.orders }
        ensures sendable { All IsSendable result.now }
        ensures paged { length self.now.pages ≡ length result.now }
    {
        &self.orders
    }

    /// The pages of each order's text.
    pub(crate) fn pages(&self) -> &[Option<Paged>]
        ensures { result.now ≡ self.now.pages }
    {
        &self.pages
    }
}

/// The rows of a book, in their order: the cells that they declare, and the orders that they give. No text of them is
/// judged.
#[derive(Debug, Drop)]
pub struct BookRows {
    cells: Vec<Cell>,
    orders: Vec<Order>,
    names: Names,
}

impl Model for BookRows {
    ghost use Rattle.alert_book.specs.Book.{Rows};

    ghost Value = { Rows };

    ghost view = { λ known. record { cells = known.cells.items; orders = known.orders.items } };

    ghost use Rattle.std.specs.Prelude.{All};
    ghost use Rattle.alert_book.specs.NameSteps.{AreNames};
    ghost use Rattle.alert_book.specs.SendableSteps.{IsSendable};

    ghost invariant = { λ known. All IsSendable known.orders.items × AreNames known.names known.orders.items };
}

impl BookRows {
    ghost use Rattle.std.specs.Prelude.{Ok, Err};
    ghost use Rattle.csv.specs.Records.{fields_of};
    ghost use Rattle.alert_book.specs.Book.{with_row};
    ghost use Rattle.alert_book.specs.Row.{row_of};
    ghost use Rattle.alert_book.specs.declared.book.row.Row.{Row};

    /// The orders that the rows give.
    pub fn orders(&self) -> &[Order]
        ensures { result.now ≡ self.now.orders }
    {
        self.orders.as_slice()
    }

    /// Reads the row of this number.
    fn read(&mut self, alloc: Global, row: u32, fields: ByteRecord) -> Result<(), RowFault>
        requires { length self.old.orders ≤ 4096 }
        ensures ok { OnOk result ((meant : Row) ×
            (row_of row self.old.cells self.old.orders (fields_of fields) ≡ Ok meant)
            × (self.new ≡ with_row self.old meant)) }
        ensures err { IfErr result (λ fault. fault ≢ RowFault.Refused →
            row_of row self.old.cells self.old.orders (fields_of fields) ≡ Err fault) }
    {
        match row_of(alloc, row, &self.cells, &self.orders, &self.names, fields)? {
            Row::Declare(cell) => self.cells.push(cell)?,
            Row::Give(order) => {
                self.orders.reserve(1)?;
                self.names.add(alloc, &self.orders, &order)?;
                self.orders.push_reserved(order);
            }
        }
        Ok(())
    }
}

/// The fault of a book whose row of this number has one.
pub(crate) fn fault_of_row(row: u32, fault: RowFault) -> BookFault
    ensures { (result ≡ refused) ⊎ ((fault ≢ RowFault.Refused) × (result ≡ fault_at row (kind_of fault))) }
{
    match fault {
        RowFault::Refused => fault_of_book(BookFaultKind::Refused),
        _ => BookFault {
            row,
            kind: fault.kind(),
        },
    }
}

/// The rows of a book's octets. [`read_book`] reads the same, and judges the texts, too.
///
/// # Errors
///
/// The first fault of a row, or out of memory.
//
// It stays a function of its own, so that the stack of its reader is free for what comes after it.
#[inline(never)]
pub fn read_rows(alloc: Global, octets: &[u8]) -> Result<BookRows, BookFault>
    ensures ok { IfOk result (λ known. AreRowsOf octets.now known) }
    ensures err { IfErr result (λ fault. (fault ≡ refused) ⊎ IsRowFault octets.now fault) }
{
    let mut known = BookRows {
        cells: Vec::new(alloc),
        orders: Vec::new(alloc),
        names: Names::new(alloc),
    };
    let mut row = 0;
    let reader = ReaderBuilder::new()
        .has_headers(false)
        .flexible(true)
        .from_reader(alloc, octets);
    for record in reader.into_byte_records() {
        let Ok(fields) = record else {
            return Err(fault_of_book(BookFaultKind::Refused));
        };
        row += 1;
        match known.read(alloc, row, fields) {
            Ok(()) => {}
            Err(fault) => return Err(fault_of_row(row, fault)),
        }
    }
    Ok(known)
}

/// The book that octets are, if they are one.
fn book_of<T: AllocGlobal + Threads + Sync>(rt: &T, octets: &[u8]) -> Result<Book, BookFault>
    requires { length octets.now ≤ 16777216 }
    ensures ok { IfOk result (λ book. IsBook octets.now book) }
    ensures err { IfErr result (λ fault. (fault ≡ refused) ⊎ IsWrong octets.now fault) }
    ensures unread { IfErr result (λ fault. fault ≢ unread) }
{
    let known = read_rows(rt.alloc(), octets)?;
    let pages = all_pages(rt, &known.orders)?;
    Ok(Book {
        cells: known.cells,
        orders: known.orders,
        pages,
    })
}

/// The same, of texts that are packed one after the other.
fn book_in_turn(alloc: Global, octets: &[u8]) -> Result<Book, BookFault>
    requires { length octets.now ≤ 16777216 }
    ensures ok { IfOk result (λ book. IsBook octets.now book) }
    ensures err { IfErr result (λ fault. (fault ≡ refused) ⊎ IsWrong octets.now fault) }
{
    let known = read_rows(alloc, octets)?;
    let pages = all_pages_in_turn(alloc, &known.orders)?;
    Ok(Book {
        cells: known.cells,
        orders: known.orders,
        pages,
    })
}

/// The book that octets are, as [`read_book`] has it of a reader's. The texts are packed one after the other, so it
/// takes no thread.
///
/// # Errors
///
/// The first fault of the book, as of [`read_book`]: `TooManyRows` of row 0 if there are over 16 MiB of octets.
pub fn read_octets(alloc: Global, octets: &[u8]) -> Result<Book, BookFault>
    ensures ok { IfOk result (λ book. IsBook octets.now book) }
    ensures err { IfErr result (RefusesOctets octets.now) }
{
    if octets.len() <= MAX_INPUT {
        book_in_turn(alloc, octets)
    } else {
        Err(fault_of_book(BookFaultKind::TooManyRows))
    }
}

/// Reads a book to its end. The texts are packed side by side, in as many threads as there are processors.
///
/// `cell,1,1` and then `write,0,a,4370,0,1,en,2,2,0,*,One` is a book of one cell and one order; `cell,1` alone has
/// the fault `BookFault { row: 1, kind: BookFaultKind::Columns }`. docs/formats.md has all verbs and columns.
///
/// # Errors
///
/// The first fault of the book: those of rows come before those of texts, and out of memory may come at any point.
pub fn read_book<T: AllocGlobal + Threads + Sync, R: Read>(
    rt: &T,
    source: &mut Source<R>,
) -> Result<Book, BookFault>
    ensures ok { IfOk result (λ book.
        ReadsBook (R.remaining (reader_of source.old)) (R.remaining (reader_of source.new)) book) }
    ensures err { IfErr result (λ fault.
        RefusesBook (R.remaining (reader_of source.old)) (R.remaining (reader_of source.new)) fault) }

    // The device, at any reader.
    ensures device { IsErrOf result unread ↔ IsTrue (source_failed source.new) }
    ensures not_failed { OnOk result (source_failed source.new ≡ false) }
    ensures failed_stays { source_failed source.old ≡ true → source.new ≡ source.old }
{
    let alloc = rt.alloc();
    let octets = match read_up_to(source, alloc, MAX_INPUT) {
        Ok(octets) => octets,
        Err(ReadFault::Device) => return Err(fault_of_book(BookFaultKind::ReadFailed)),
        Err(ReadFault::Refused) => return Err(fault_of_book(BookFaultKind::Refused)),
    };
    if octets.len() > MAX_INPUT {
        return Err(fault_of_book(BookFaultKind::TooManyRows));
    }
    book_of(rt, &octets)
}
