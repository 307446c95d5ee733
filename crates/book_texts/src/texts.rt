//! The command `texts`: a book, a network book or a group of one to a table of what its texts cost.

ghost use Rattle.std.specs.Prelude.{◌≡◌, ◌≢◌, ◌≤◌, ◌+◌, ◌++◌, ℕ, List, length, IfErr, IfOk, OnOk};
ghost use Rattle.std.specs.Io.KnownBytes.{IsAtEnd};
ghost use Rattle.device_ends.specs.Moves.{ConsumesSome};
ghost use Rattle.device_ends.specs.Source.{reader_of};
ghost use Rattle.device_ends.specs.Stream.{FaultOfInput, IsStreamBetween, OutputOfInput};
ghost use Rattle.alert_book.specs.Extent.{bounds_of, most_octets};
ghost use Rattle.alert_book.specs.declared.fault.BookFaultKind.TheVariants as kind;
ghost use Rattle.alert_book.specs.declared.judging.bounds.Extent.TheVariants as extents;
ghost use Rattle.book_texts.specs.TextsOutput.{header_line, AreLinesOf, IsOfRow, IsTextsFault, IsTextsOutput};
ghost use Rattle.book_texts.specs.TextsOutput.{IsTextsWriteFault};
ghost use Rattle.book_texts.specs.TextsSteps.{IsNoTable};
ghost use Rattle.book_texts.specs.declared.texts.TextsFault.TheVariants as faults;

use crate::table::Table;
use alert_book::{
    BookFault, BookFaultKind, Extent, GroupFault, Order, group_orders, network_orders, read_rows,
};
use device_ends::{Failed, ReadFault, Sink, Source, read_up_to, write_all};
use std::alloc::{AllocError, Global};
use std::io::{Read, Write};
use thiserror::Error;

/// Why `texts` writes no table. If several of the first four apply, it is the first of them.
#[derive(Clone, Copy, Debug, PartialEq, Eq, Error)]
pub enum TextsFault {
    /// The reader failed.
    #[error("read failed")]
    ReadFailed,
    /// There are more than 16,777,216 octets, or of a network book more than 67,108,864, which is a fault of no one
    /// row.
    #[error("row 0: too many rows")]
    TooLong,
    /// A row is none of a book: the first such row.
    #[error("{0}")]
    Row(BookFault),
    /// The rows are right, and the network has this many groups, numbered from 0, among which the one that is asked for
    /// isn't.
    #[error("no such group: the network has {0}")]
    NoGroup(u16),
    /// Out of memory.
    #[error("out of memory")]
    Refused,
    /// The writer failed. Some of the table may be out.
    #[error("write failed")]
    WriteFailed,
}

/// Reads a book or a network book, and writes a table of what its texts cost, as CSV: a row of the columns' names, and
/// then a row for each order that sends a text, in order; of a group for each that is for some of its cells. The texts
/// needn't be such as can be sent. With `pages` the last column is to how many characters each text is cut so that it
/// takes that many pages at most ([`cut_for`](crate::cut_for)). Nothing is written before all of the table is made.
///
/// # Errors
///
/// The first [`TextsFault`] that applies, with nothing written but after `WriteFailed`.
pub fn texts_stream<R: Read, W: Write>(
    alloc: Global,
    what: Extent,
    source: &mut Source<R>,
    sink: &mut Sink<W>,
    pages: Option<u16>,
) -> Result<(), TextsFault>
    // What was written is the table of the texts that were read, at any reader of some book.
    ensures ok { OnOk result (OutputOfInput R.remaining W.contents (IsTextsOutput what pages) source.old sink.old
        sink.new) }
    ensures err { IfErr result (FaultOfInput R.remaining W.contents (IsTextsFault what pages) source.old sink.old
        sink.new) }

    // The book was read to its end, and no more than one octet past the bound.
    ensures whole { OnOk result (IsAtEnd (R.remaining (reader_of source.new))) }
    ensures whole_with_row { IfErr result (λ fault. IsOfRow fault → IsAtEnd (R.remaining (reader_of source.new))) }
    ensures reads { ConsumesSome (R.remaining (reader_of source.old)) (R.remaining (reader_of source.new))
        (most_octets (bounds_of what) + 1) }

    // At any reader and any writer.
    ensures any_ends { IsStreamBetween TextsFault.ReadFailed IsTextsWriteFault result W.contents source.old source.new
        sink.old sink.new }
{
    let most = what.bounds().most_octets();
    let input = match read_up_to(source, alloc, most) {
        Ok(input) => input,
        Err(ReadFault::Device) => return Err(TextsFault::ReadFailed),
        Err(ReadFault::Refused) => return Err(TextsFault::Refused),
    };
    if input.len() > most {
        return Err(TextsFault::TooLong);
    }
    let output = match texts_output(alloc, what, &input, pages) {
        Ok(output) => output,
        Err(fault) => return Err(fault),
    };
    match write_all(sink, &output) {
        Ok(()) => Ok(()),
        Err(Failed) => Err(TextsFault::WriteFailed),
    }
}

/// The table of octets.
fn texts_output(
    alloc: Global,
    what: Extent,
    input: &[u8],
    pages: Option<u16>,
) -> Result<Vec<u8>, TextsFault>
    requires { length input.now ≤ most_octets (bounds_of what) }
    ensures ok { IfOk result (λ output. IsTextsOutput what pages input.now output.items) }
    ensures err { IfErr result (IsNoTable what input.now) }
{
    match what {
        Extent::Book => texts_of_book(alloc, input, pages),
        Extent::Network => texts_of_network(alloc, input, pages),
        Extent::Group(group) => texts_of_group(alloc, input, group, pages),
    }
}

/// The table of a book's octets.
fn texts_of_book(alloc: Global, input: &[u8], pages: Option<u16>) -> Result<Vec<u8>, TextsFault>
    requires { length input.now ≤ 16777216 }
    ensures ok { IfOk result (λ output. IsTextsOutput extents.Book pages input.now output.items) }
    ensures err { IfErr result (IsNoTable extents.Book input.now) }
{
    let rows = match read_rows(alloc, input) {
        Ok(rows) => rows,
        Err(fault) => return Err(fault_of_row(fault)),
    };
    match table_of(alloc, rows.orders(), pages) {
        Ok(output) => Ok(output),
        Err(_) => Err(TextsFault::Refused),
    }
}

/// The table of a network book's octets.
fn texts_of_network(alloc: Global, input: &[u8], pages: Option<u16>) -> Result<Vec<u8>, TextsFault>
    requires { length input.now ≤ 67108864 }
    ensures ok { IfOk result (λ output. IsTextsOutput extents.Network pages input.now output.items) }
    ensures err { IfErr result (IsNoTable extents.Network input.now) }
{
    let orders = match network_orders(alloc, input) {
        Ok(orders) => orders,
        Err(fault) => return Err(fault_of_row(fault)),
    };
    match table_of(alloc, &orders, pages) {
        Ok(output) => Ok(output),
        Err(_) => Err(TextsFault::Refused),
    }
}

/// The table of the group of a network book's octets.
fn texts_of_group(
    alloc: Global,
    input: &[u8],
    group: u16,
    pages: Option<u16>,
) -> Result<Vec<u8>, TextsFault>
    requires { length input.now ≤ 67108864 }
    ensures ok { IfOk result (λ output. IsTextsOutput (extents.Group group) pages input.now output.items) }
    ensures err { IfErr result (IsNoTable (extents.Group group) input.now) }
{
    let orders = match group_orders(alloc, input, group) {
        Ok(orders) => orders,
        Err(GroupFault::Network(fault)) => return Err(fault_of_row(fault)),
        Err(GroupFault::NoGroup(groups)) => return Err(TextsFault::NoGroup(groups)),
    };
    match table_of(alloc, &orders, pages) {
        Ok(output) => Ok(output),
        Err(_) => Err(TextsFault::Refused),
    }
}

/// The fault that a fault of a book's rows is.
fn fault_of_row(fault: BookFault) -> TextsFault
    ensures refused { fault.kind ≡ kind.Refused → result ≡ faults.Refused }
    ensures row { fault.kind ≢ kind.Refused → result ≡ faults.Row fault }
{
    match fault.kind {
        BookFaultKind::Refused => TextsFault::Refused,
        _ => TextsFault::Row(fault),
    }
}

/// The table of orders.
fn table_of(alloc: Global, orders: &[Order], pages: Option<u16>) -> Result<Vec<u8>, AllocError>
    ensures { IfOk result (λ octets. (lines : List ℕ) × AreLinesOf pages orders.now lines
        × (octets.items ≡ header_line pages ++ lines)) }
{
    let mut table = Table::new(alloc, pages)?;
    for order in orders {
        table.push_order(order, pages)?;
    }
    table.into_octets()
}
