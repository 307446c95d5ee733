//! Tables of cells, as CSV: which sender's packets make the tape of which cell.

ghost use Rattle.std.specs.Prelude.{◌≡◌, ◌<◌, ◌≤◌, Ok, Err, None, Some, false, true, length, IfErr, IfOk, IfSome};
ghost use Rattle.std.specs.Prelude.{OnOk};
ghost use Rattle.std.specs.Char.{is_ascii_digit};
ghost use Rattle.std.specs.List.{list_all, list_any};
ghost use Rattle.std.specs.Option.{ok_or};
ghost use Rattle.std.specs.Str.{is_utf8};
ghost use Rattle.csv.specs.Records.{fields_of};
ghost use Rattle.warnc_air.specs.CellTable.{IsCellTable, IsKnown, address_in, arfcn_of, column, columns_many};
ghost use Rattle.warnc_air.specs.CellTable.{columns_named, fault_at, if_new, is_at, is_cell_of, is_number};
ghost use Rattle.warnc_air.specs.CellTable.{is_sender_of, number_in, octet_in, row_after, row_in, some};
ghost use Rattle.warnc_air.specs.CellTable.{source_of, up_to, with_columns, with_record};
ghost use Rattle.warnc_air.specs.CellTableSteps.{IsReadingFault, IsRowFault, so_far_of};
ghost use Rattle.warnc_air.specs.declared.all.AllTapesFault.TheVariants as faults;
ghost use Rattle.warnc_air.specs.declared.cell_table.TableFaultKind.TheVariants as kinds;

use crate::all::AllTapesFault;
use cbsp_wire::Cell;
use csv::{ByteRecord, ReaderBuilder, StringRecord};
use std::alloc::Global;
use thiserror::Error;

/// The most rows of a table after its first, as many as there are tapes at most.
const MAX_ROWS: usize = 64;

/// Which columns a table has after those of a cell, `lac` and `ci`.
#[derive(Clone, Copy, Debug, PartialEq, Eq)]
pub enum Columns {
    /// `arfcn`.
    Arfcn,
    /// `source`.
    Source,
    /// `source` and `arfcn`.
    SourceAndArfcn,
}

/// A row of a table: whose packets make the tape of a cell.
#[derive(Clone, Copy, Debug, PartialEq, Eq)]
pub struct CellRow {
    /// The cell.
    pub cell: Cell,
    /// The IPv4 address that packets come from, if the table has that column.
    pub address: Option<u32>,
    /// The number of the radio channel (ARFCN) that they name, 0 to 1,023, if the table has that column.
    pub arfcn: Option<u16>,
}

/// What is wrong with a row of a table.
#[derive(Clone, Copy, Debug, PartialEq, Eq, Error)]
pub enum TableFaultKind {
    /// The first row names no columns that a table has.
    #[error("columns are lac,ci,arfcn or lac,ci,source or lac,ci,source,arfcn")]
    Columns,
    /// A row has more or fewer fields than there are columns.
    #[error("fields aren't one for each column")]
    Fields,
    /// A field isn't UTF-8.
    #[error("not UTF-8")]
    NotText,
    /// The location area code isn't one to five digits, or is above 65,535.
    #[error("lac is no number from 0 to 65535")]
    Lac,
    /// Nor is the cell identity.
    #[error("ci is no number from 0 to 65535")]
    Ci,
    /// The address isn't four numbers from 0 to 255, of one to three digits, with dots between them.
    #[error("source is no address as 127.0.0.1")]
    Source,
    /// The number of the radio channel isn't one to five digits, or is above 1,023.
    #[error("arfcn is no number from 0 to 1023")]
    Arfcn,
    /// A row before it names the cell.
    #[error("cell again")]
    CellAgain,
    /// A row before it names the sender.
    #[error("sender again")]
    SenderAgain,
    /// There is no row after the first.
    #[error("no row")]
    NoRow,
    /// It is the 65th row after the first.
    #[error("too many rows")]
    TooManyRows,
}

/// Why a table isn't taken, and its row, from 1 as CSV gives them: row 1 names the columns. A row that is missing has
/// the number that it would have.
#[derive(Clone, Copy, Debug, PartialEq, Eq, Error)]
#[error("row {row}: {kind}")]
pub struct TableFault {
    /// The row, from 1.
    pub row: u32,
    /// What is wrong with it.
    pub kind: TableFaultKind,
}

/// A table, as far as it was read.
#[derive(Drop)]
pub(crate) struct CellTable {
    pub(crate) columns: Option<Columns>,
    pub(crate) rows: Vec<CellRow>,
}

/// The cells of a table.
///
/// # Errors
///
/// [`AllTapesFault::Table`] of the first row that has a fault, or of one that is missing; and out of memory.
pub(crate) fn cells_in(alloc: Global, octets: &[u8]) -> Result<Vec<CellRow>, AllTapesFault>
    ensures ok { IfOk result (λ rows. IsCellTable octets.now rows.items) }
    ensures err { IfErr result (IsReadingFault octets.now) }
{
    let table = read_table(alloc, octets)?;
    match table.columns {
        None => Err(fault_of_row(1, TableFaultKind::Columns)),
        Some(_) if table.rows.is_empty() => Err(fault_of_row(2, TableFaultKind::NoRow)),
        Some(_) => Ok(table.rows),
    }
}

/// A fault of a row.
fn fault_of_row(row: u32, kind: TableFaultKind) -> AllTapesFault
    ensures { result ≡ faults.Table (record { row = row; kind = kind }) }
{
    AllTapesFault::Table(TableFault { row, kind })
}

/// A table's rows, as far as they go.
fn read_table(alloc: Global, octets: &[u8]) -> Result<CellTable, AllTapesFault>
    ensures ok { IfOk result (λ table. IsKnown octets.now (so_far_of table)) }
    ensures err { IfErr result (IsReadingFault octets.now) }
{
    let mut table = CellTable {
        columns: None,
        rows: Vec::new(alloc),
    };
    let mut row = 0;
    let reader = ReaderBuilder::new()
        .has_headers(false)
        .flexible(true)
        .from_reader(alloc, octets);
    for record in reader.into_byte_records() {
        let Ok(fields) = record else {
            return Err(AllTapesFault::Refused);
        };
        row += 1;
        if let Err(fault) = table.read(row, fields) {
            return Err(fault);
        }
    }
    Ok(table)
}

impl CellTable {
    /// Reads the row of this number.
    fn read(&mut self, row: u32, fields: ByteRecord) -> Result<(), AllTapesFault>
        ensures ok { OnOk result (with_record (so_far_of self.old) (fields_of fields) ≡ Ok (so_far_of self.new)) }
        ensures err { IfErr result (IsRowFault row (so_far_of self.old) (fields_of fields)) }
    {
        match self.columns {
            None => self.name_columns(row, &fields),
            Some(columns) => self.add(row, columns, fields),
        }
    }

    /// Takes the first row, which names the columns.
    fn name_columns(&mut self, row: u32, fields: &ByteRecord) -> Result<(), AllTapesFault>
        ensures ok { OnOk result (with_columns self.old.rows.items (columns_named (fields_of fields.now))
            ≡ Ok (so_far_of self.new)) }
        ensures err { IfErr result (λ fault. (columns_named (fields_of fields.now) ≡ None)
            × (fault ≡ faults.Table (fault_at row kinds.Columns))) }
    {
        match columns_named(fields) {
            Some(columns) => {
                self.columns = Some(columns);
                Ok(())
            }
            None => Err(fault_of_row(row, TableFaultKind::Columns)),
        }
    }

    /// Takes a later row, which names a cell.
    fn add(&mut self, row: u32, columns: Columns, fields: ByteRecord) -> Result<(), AllTapesFault>
        requires { self.old.columns ≡ Some columns }
        ensures ok { OnOk result (with_record (so_far_of self.old) (fields_of fields) ≡ Ok (so_far_of self.new)) }
        ensures err { IfErr result (IsRowFault row (so_far_of self.old) (fields_of fields)) }
    {
        match row_after(columns, &self.rows, fields) {
            Ok(one) => {
                self.rows.push(one)?;
                Ok(())
            }
            Err(kind) => Err(fault_of_row(row, kind)),
        }
    }
}

/// Which columns the first row of a table names.
#[tactic(auto, unfolding(crate::specs::CellTable::columns_named))]
fn columns_named(fields: &ByteRecord) -> Option<Columns>
    ensures { result ≡ columns_named (fields_of fields.now) }
{
    if !(is_at(fields, 0, b"lac") && is_at(fields, 1, b"ci")) {
        None
    } else if fields.len() == 3 && is_at(fields, 2, b"arfcn") {
        Some(Columns::Arfcn)
    } else if fields.len() == 3 && is_at(fields, 2, b"source") {
        Some(Columns::Source)
    } else if fields.len() == 4 && is_at(fields, 2, b"source") && is_at(fields, 3, b"arfcn") {
        Some(Columns::SourceAndArfcn)
    } else {
        None
    }
}

/// Whether a row has this name at a place, from 0.
fn is_at(fields: &ByteRecord, place: usize, name: &[u8]) -> bool
    requires { 0 < length name.now }
    ensures { result ≡ is_at (fields_of fields.now) place name.now }
{
    match fields.get(place) {
        Some(field) => field == name,
        None => false,
    }
}

/// What a row means after these.
fn row_after(
    columns: Columns,
    before: &[CellRow],
    fields: ByteRecord,
) -> Result<CellRow, TableFaultKind>
    ensures { result ≡ row_after columns before.now (fields_of fields) }
{
    if before.len() >= MAX_ROWS {
        return Err(TableFaultKind::TooManyRows);
    }
    let fields = texts_of(fields)?;
    if fields.len() != columns_many(columns) {
        return Err(TableFaultKind::Fields);
    }
    let row = row_in(columns, &fields)?;
    if_new(before, row)
}

/// The record as text, if each field is UTF-8.
fn texts_of(fields: ByteRecord) -> Result<StringRecord, TableFaultKind>
    ensures ok { IfOk result (λ texts. (fields_of texts ≡ fields_of fields)
        × (list_all is_utf8 (fields_of fields) ≡ true)) }
    ensures err { IfErr result (λ why. (why ≡ kinds.NotText) × (list_all is_utf8 (fields_of fields) ≡ false)) }
{
    match StringRecord::from_byte_record(fields) {
        Ok(texts) => Ok(texts),
        Err(_) => Err(TableFaultKind::NotText),
    }
}

/// How many columns a table has.
fn columns_many(columns: Columns) -> usize
    ensures { result ≡ columns_many columns }
{
    match columns {
        Columns::Arfcn | Columns::Source => 3,
        Columns::SourceAndArfcn => 4,
    }
}

/// What a row of as many fields as there are columns means.
fn row_in(columns: Columns, fields: &StringRecord) -> Result<CellRow, TableFaultKind>
    ensures { result ≡ row_in columns (fields_of fields.now) }
{
    let lac = identity_in(column(fields, 0), TableFaultKind::Lac)?;
    let ci = identity_in(column(fields, 1), TableFaultKind::Ci)?;
    let address = source_of(columns, fields)?;
    let arfcn = arfcn_of(columns, fields)?;
    Ok(CellRow {
        cell: Cell { lac, ci },
        address,
        arfcn,
    })
}

/// The number of a cell or of its location area in a field, if it is one.
fn identity_in(field: &str, why: TableFaultKind) -> Result<u16, TableFaultKind>
    ensures { result ≡ ok_or (number_in 5 65535 field.now) why }
{
    match number_in(field, 5, u16::MAX) {
        Some(number) => Ok(number),
        None => Err(why),
    }
}

/// The address that packets come from, by a row.
fn source_of(columns: Columns, fields: &StringRecord) -> Result<Option<u32>, TableFaultKind>
    ensures { result ≡ source_of columns (fields_of fields.now) }
{
    match columns {
        Columns::Arfcn => Ok(None),
        Columns::Source | Columns::SourceAndArfcn => match address_in(column(fields, 2)) {
            Some(address) => Ok(Some(address)),
            None => Err(TableFaultKind::Source),
        },
    }
}

/// The radio channel that packets name, by a row.
fn arfcn_of(columns: Columns, fields: &StringRecord) -> Result<Option<u16>, TableFaultKind>
    ensures { result ≡ arfcn_of columns (fields_of fields.now) }
{
    match columns {
        Columns::Arfcn => arfcn_in(column(fields, 2)),
        Columns::Source => Ok(None),
        Columns::SourceAndArfcn => arfcn_in(column(fields, 3)),
    }
}

/// The number of a radio channel in a field.
fn arfcn_in(field: &str) -> Result<Option<u16>, TableFaultKind>
    ensures { result ≡ some (number_in 5 1023 field.now) kinds.Arfcn }
{
    match number_in(field, 5, 1023) {
        Some(number) => Ok(Some(number)),
        None => Err(TableFaultKind::Arfcn),
    }
}

/// The field at a place, counted from 0; no text if there is none.
fn column(fields: &StringRecord, place: usize) -> &str
    ensures { result.now ≡ column (fields_of fields.now) place }
{
    match fields.get(place) {
        Some(field) => field,
        None => "",
    }
}

/// The row, if no row before it names its cell or its sender.
fn if_new(before: &[CellRow], row: CellRow) -> Result<CellRow, TableFaultKind>
    ensures { result ≡ if_new before.now row }
{
    if has_cell(before, &row) {
        Err(TableFaultKind::CellAgain)
    } else if has_sender(before, &row) {
        Err(TableFaultKind::SenderAgain)
    } else {
        Ok(row)
    }
}

/// Whether one of these rows names the cell of a row.
fn has_cell(before: &[CellRow], row: &CellRow) -> bool
    ensures { result ≡ list_any (is_cell_of row.now) before.now }
{
    before.iter().any(|one| is_cell_of(row, one))
}

/// Whether one of these rows names the sender of a row.
fn has_sender(before: &[CellRow], row: &CellRow) -> bool
    ensures { result ≡ list_any (is_sender_of row.now) before.now }
{
    before.iter().any(|one| is_sender_of(row, one))
}

/// Whether two rows name one cell.
fn is_cell_of(a: &CellRow, b: &CellRow) -> bool
    ensures { result ≡ is_cell_of a.now b.now }
{
    a.cell == b.cell
}

/// Whether two rows name one sender.
fn is_sender_of(a: &CellRow, b: &CellRow) -> bool
    ensures { result ≡ is_sender_of a.now b.now }
{
    a.address == b.address && a.arfcn == b.arfcn
}

/// The IPv4 address that a text writes, if it writes one.
fn address_in(text: &str) -> Option<u32>
    ensures { result ≡ address_in text.now }
{
    let (first, rest) = text.split_once('.')?;
    let (second, rest) = rest.split_once('.')?;
    let (third, fourth) = rest.split_once('.')?;
    let a = octet_in(first)?;
    let b = octet_in(second)?;
    let c = octet_in(third)?;
    let d = octet_in(fourth)?;
    Some(u32::from_be_bytes([a, b, c, d]))
}

/// The octet that a text writes, if it writes one.
fn octet_in(text: &str) -> Option<u8>
    ensures { result ≡ octet_in text.now }
{
    let octet = number_in(text, 3, 255)?;
    Some(octet as u8)
}

/// The number that a text writes in at most so many digits, if it writes one that is small enough.
fn number_in(text: &str, digits: usize, most: u16) -> Option<u16>
    requires { digits ≤ 5 }
    ensures number { result ≡ number_in digits most text.now }
    ensures bound { IfSome result (λ number. number ≤ most) }
{
    if !is_number(text, digits) {
        return None;
    }
    match text.parse::<u32>() {
        Ok(number) => up_to(number, most),
        Err(_) => None,
    }
}

/// Whether a text is at least one ASCII digit, and at most so many.
fn is_number(text: &str, digits: usize) -> bool
    ensures { result ≡ is_number digits text.now }
{
    1 <= text.len() && text.len() <= digits && are_digits(text)
}

/// Whether a text has ASCII digits alone.
fn are_digits(text: &str) -> bool
    ensures { result ≡ list_all is_ascii_digit text.now }
{
    text.bytes().all(|digit| digit.is_ascii_digit())
}

/// The number, if it is small enough.
fn up_to(number: u32, most: u16) -> Option<u16>
    ensures number { result ≡ up_to most number }
    ensures bound { IfSome result (λ number. number ≤ most) }
{
    if number <= u32::from(most) {
        Some(number as u16)
    } else {
        None
    }
}
