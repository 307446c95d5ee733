//! The command `check`: a book, or a network book, to the faults of all its rows.

ghost use Rattle.std.specs.Prelude.{◌≡◌, ◌↔◌, ◌+◌, ◌<◌, ◌≤◌, ◌++◌, ℕ, List, false, true, length, IfErr, IfOk, IfSome};
ghost use Rattle.std.specs.Prelude.{IsErrOf, IsTrue, OnOk};
ghost use Rattle.std.specs.Io.KnownBytes.{IsAtEnd};
ghost use Rattle.csv.specs.Records.{fields_of};
ghost use Rattle.device_ends.specs.Moves.{ConsumesSome};
ghost use Rattle.device_ends.specs.Sink.{sink_failed, writer_of};
ghost use Rattle.device_ends.specs.Source.{reader_of, source_failed};
ghost use Rattle.device_ends.specs.Stream.{OutputOfInput};
ghost use Rattle.alert_book.specs.Extent.{bounds_of, most_octets};
ghost use Rattle.book_check.specs.Checked.{HasTold, HasWritten, IsCheckFault, IsCheckedBy, IsCleanFor};
ghost use Rattle.book_check.specs.CheckSteps.{missing, IsCheckedWith, IsReadFault, IsToldOf, Tells};
ghost use Rattle.book_check.specs.TableSteps.{IsTable};
ghost use Rattle.book_check.specs.Told.{fault_row, is_told, told_of_row};
ghost use Rattle.book_check.specs.declared.fault.CheckFault.TheVariants as faults;

use crate::fault::CheckFault;
use crate::lines::{Cursor, Within, pass_record, without_mark};
use crate::says::{says_of_row, says_of_text};
use crate::table::Table;
use crate::value::shown_value;
use crate::words::{field_name, place_of_text};
use alert_book::{Bounds, Extent, Judge, Verdict, octets_at, verb_in};
use csv::{ByteRecord, ReaderBuilder};
use device_ends::{Failed, ReadFault, Sink, Source, read_up_to, write_all};
use itoa::Buffer;
use std::alloc::{AllocError, Global};
use std::io::{Read, Write};

/// The beginning of a text.
const START: Cursor = Cursor {
    at: 0,
    ended: 0,
    within: Within::Start,
};

/// What is told of the rows of a book.
#[derive(Drop)]
struct Told {
    table: Table,
    /// How many rows have a fault.
    count: usize,
}

/// The table of a check.
#[derive(Drop)]
pub struct Checked {
    /// The table, as CSV.
    pub text: Vec<u8>,
    /// How many rows have a fault.
    pub count: usize,
    /// How many groups a network has that declares the cells of the rows without a fault.
    pub groups: u16,
}

/// Where a row is.
#[derive(Clone, Copy, Debug)]
struct Place {
    /// Its number.
    row: u32,
    /// The line on which it begins.
    line: usize,
}

/// How many groups a network has without a fault, if the one that is asked for isn't among them.
fn missing(what: Extent, faults: usize, groups: u16) -> Option<u16>
    ensures { result ≡ missing what faults groups }
{
    match what {
        Extent::Group(group) if faults == 0 && group >= groups => Some(groups),
        Extent::Book | Extent::Network | Extent::Group(_) => None,
    }
}

/// Reads a book or a network book up to its end, and writes a table as CSV: a row of the columns' names, and then a row
/// for each row of the book that has a fault. It is told once that there are more rows than there may be, and no later
/// row is judged. Nothing is written before all is known. Of the book no more is kept than its octets, its cells, its
/// orders, and the table.
///
/// # Errors
///
/// [`CheckFault::Faults`] if there is one row or more: all of them are written then, as is the row of the columns'
/// names alone if there is none. [`CheckFault::NoGroup`] if a network has no fault, and not the group that is asked
/// for. With any other fault nothing is written, but after [`CheckFault::WriteFailed`] a front of the table may be out.
pub fn check_stream<R: Read, W: Write>(
    alloc: Global,
    what: Extent,
    source: &mut Source<R>,
    sink: &mut Sink<W>,
) -> Result<(), CheckFault>
    // What was written is what is told of the book that was read, at any reader.
    ensures ok { OnOk result (OutputOfInput R.remaining W.contents (IsCleanFor what) source.old sink.old sink.new) }
    ensures err { IfErr result (IsCheckFault what (R.remaining (reader_of source.old)) (W.contents (writer_of sink.old))
        (W.contents (writer_of sink.new))) }

    // The book was read to its end, and no more than one octet past the bound.
    ensures whole { OnOk result (IsAtEnd (R.remaining (reader_of source.new))) }
    ensures whole_with_faults { IfErr result (λ fault.
        HasTold fault → IsAtEnd (R.remaining (reader_of source.new))) }
    ensures reads { ConsumesSome (R.remaining (reader_of source.old)) (R.remaining (reader_of source.new))
        (most_octets (bounds_of what) + 1) }

    // At any reader and any writer: which end failed is reported, and what failed before is as it was.
    ensures read_failed { IsErrOf result faults.ReadFailed ↔ IsTrue (source_failed source.new) }
    ensures write_failed { IsErrOf result faults.WriteFailed → sink_failed sink.new ≡ true }
    ensures written { OnOk result (sink_failed sink.new ≡ false) }
    ensures faults_written { IfErr result (λ fault. HasTold fault → sink_failed sink.new ≡ false) }
    ensures nothing_written { IfErr result (λ fault. (HasWritten fault → ⊥) → sink.new ≡ sink.old) }
    ensures source_stays { source_failed source.old ≡ true → source.new ≡ source.old }
    ensures sink_stays { sink_failed sink.old ≡ true → sink.new ≡ sink.old }
{
    let bounds = what.bounds();
    let octets = read_octets(alloc, bounds, source)?;
    let Ok(checked) = table_within(alloc, bounds, &octets) else {
        return Err(CheckFault::Refused);
    };
    match missing(what, checked.count, checked.groups) {
        Some(groups) => return Err(CheckFault::NoGroup(groups)),
        None => {}
    }
    if let Err(Failed) = write_all(sink, &checked.text) {
        return Err(CheckFault::WriteFailed);
    }
    match checked.count {
        0 => Ok(()),
        count => Err(CheckFault::Faults(count)),
    }
}

/// All octets of what is bounded so.
fn read_octets<R: Read>(
    alloc: Global,
    bounds: Bounds,
    source: &mut Source<R>,
) -> Result<Vec<u8>, CheckFault>
    ensures all { IfOk result (λ octets. IfSome (R.remaining (reader_of source.old)) (λ input. input ≡ octets.items)) }
    ensures bound { IfOk result (λ octets. length octets.items ≤ most_octets bounds) }
    ensures ended { OnOk result (IsAtEnd (R.remaining (reader_of source.new))) }
    ensures reads { ConsumesSome (R.remaining (reader_of source.old)) (R.remaining (reader_of source.new))
        (most_octets bounds + 1) }
    ensures fault { IfErr result (IsReadFault bounds (R.remaining (reader_of source.old))) }
    ensures failed { IsErrOf result faults.ReadFailed ↔ IsTrue (source_failed source.new) }
    ensures stays { source_failed source.old ≡ true → source.new ≡ source.old }
{
    let most = bounds.most_octets();
    let octets = match read_up_to(source, alloc, most) {
        Ok(octets) => octets,
        Err(ReadFault::Device) => return Err(CheckFault::ReadFailed),
        Err(ReadFault::Refused) => return Err(CheckFault::Refused),
    };
    if octets.len() > most {
        return Err(CheckFault::TooLong);
    }
    Ok(octets)
}

/// The table of the faults of the rows of a book, or of a network book.
///
/// # Errors
///
/// Out of memory.
pub fn table_of(alloc: Global, bounds: Bounds, octets: &[u8]) -> Result<Checked, AllocError>
    requires { length octets.now ≤ most_octets bounds }
    ensures { IfOk result (λ checked. IsCheckedBy bounds octets.now checked.count checked.text.items) }
{
    table_within(alloc, bounds, octets)
}

/// The table of the faults of the rows of what is bounded so.
fn table_within(alloc: Global, bounds: Bounds, octets: &[u8]) -> Result<Checked, AllocError>
    requires { length octets.now ≤ most_octets bounds }
    ensures { IfOk result (λ checked.
        IsCheckedWith bounds octets.now checked.count checked.text.items checked.groups) }
{
    let (told, judge) = told_of(alloc, bounds, octets)?;
    let text = told.table.into_octets()?;
    Ok(Checked {
        text,
        count: told.count,
        groups: judge.groups(),
    })
}

/// What is told of the rows of what is bounded so, and what counts after them.
fn told_of(alloc: Global, bounds: Bounds, octets: &[u8]) -> Result<(Told, Judge), AllocError>
    ensures { IfOk result (λ all. IsToldOf bounds octets.now all.0 all.1) }
{
    let text = without_mark(octets);
    let mut told = Told {
        table: Table::new(alloc)?,
        count: 0,
    };
    let mut judge = Judge::within(alloc, bounds);
    let mut cursor = START;
    let reader = ReaderBuilder::new()
        .has_headers(false)
        .flexible(true)
        .from_reader(alloc, octets);
    for record in reader.into_byte_records() {
        let Ok(fields) = record else {
            return Err(AllocError);
        };
        let is_last = judge.is_past(&fields);
        let passed = pass_record(text, cursor);
        cursor = passed.cursor;
        tell(alloc, &mut told, &mut judge, passed.line, &fields)?;
        if is_last {
            return Ok((told, judge));
        }
    }
    Ok((told, judge))
}

/// Judges a row that begins on this line, and tells its fault, if it has one.
fn tell(
    alloc: Global,
    told: &mut Told,
    judge: &mut Judge,
    line: usize,
    fields: &ByteRecord,
) -> Result<(), AllocError>
    requires { told.old.count ≤ judge.old.rows }
    ensures told { OnOk result (Tells judge.old judge.new line (fields_of fields.now) told.old told.new) }
{
    let row = judge.rows() + 1;
    let verdict = judge.judge(alloc, fields)?;
    push_verdict(
        alloc,
        &mut told.table,
        judge,
        Place { row, line },
        fields,
        verdict,
    )?;
    told.count += usize::from(is_told(verdict));
    Ok(())
}

/// Whether something is told of a row.
fn is_told(verdict: Verdict) -> bool
    ensures { result ≡ is_told verdict }
{
    match verdict {
        Verdict::Right => false,
        Verdict::Wrong(_) | Verdict::Unsendable(_) => true,
    }
}

/// Appends what is told of a row that counts.
fn push_verdict(
    alloc: Global,
    table: &mut Table,
    judge: &Judge,
    place: Place,
    fields: &ByteRecord,
    verdict: Verdict,
) -> Result<(), AllocError>
    ensures { OnOk result ((octets : List ℕ) → IsTable table.old octets → IsTable table.new (octets
        ++ told_of_row place.row place.line judge.now (fields_of fields.now) verdict)) }
{
    let verb = verb_in(fields);
    match verdict {
        Verdict::Right => Ok(()),
        Verdict::Wrong(found) => {
            let says = says_of_row(alloc, place.row, judge, fields, verb, found)?;
            push_fault(alloc, table, place, found.column, fields, &says)
        }
        Verdict::Unsendable(why) => {
            let column = place_of_text(verb, why);
            let says = says_of_text(alloc, fields, column - 1, why)?;
            push_fault(alloc, table, place, column, fields, &says)
        }
    }
}

/// Appends the row of a fault in a column.
fn push_fault(
    alloc: Global,
    table: &mut Table,
    place: Place,
    column: usize,
    fields: &ByteRecord,
    says: &str,
) -> Result<(), AllocError>
    ensures { OnOk result ((octets : List ℕ) → IsTable table.old octets → IsTable table.new (octets
        ++ fault_row place.row place.line column (fields_of fields.now) says.now)) }
{
    let value = shown_value(alloc, octets_at(fields, column.saturating_sub(1)))?;
    let name = field_name(verb_in(fields), column);
    let mut row_buffer = Buffer::new();
    let mut line_buffer = Buffer::new();
    let mut column_buffer = Buffer::new();
    table.push_fault(
        row_buffer.format(place.row),
        line_buffer.format(place.line),
        column_buffer.format(column),
        name,
        &value,
        says,
    )
}
