//! A report's text, in memory.

ghost use Rattle.std.specs.Prelude.{◌≡◌, ◌<◌, ◌≤◌, ℕ, List, [], ◌∷◌, ◌++◌, codes, length, map, take, IfOk, OnOk};
ghost use Rattle.std.specs.Fmt.{decimal};
ghost use Rattle.std.specs.List.{flat_map};
ghost use Rattle.hex.specs.Hex.{encode_lower};
ghost use Rattle.report.specs.ReportText.{header_line, line, part_text, row_line, serial_text, showing_text};

use crate::row::{Row, Showing};
use cbs_page::Serial;
use csv::{Writer, WriterBuilder};
use itoa::Buffer;
use std::alloc::{AllocError, Global};

/// The text of a part of a report: the line of the columns' names, if it is headed, and a line for each row. The
/// writer's own buffer lies on the heap, so that a table is moved as cheaply as a list.
#[derive(Drop)]
pub struct Table {
    writer: Box<Writer<Vec<u8>>>,
}

/// The text of a serial number.
pub(crate) fn serial_text(serial: Serial) -> [u8; 4]
    ensures { result ≡ serial_text serial }
{
    let mut text = [0; 4];
    let _ = hex::encode_to_slice(serial.number().to_be_bytes().as_slice(), &mut text);
    text
}

/// The text of a row's last column, if the order was refused.
pub(crate) fn refused_text(cause: u8) -> [u8; 10]
    ensures { result ≡ codes "refused " ++ encode_lower (cause ∷ []) }
{
    let mut text = *b"refused 00";
    let _ = hex::encode_to_slice([cause].as_slice(), &mut text[8..]);
    text
}

impl Table {
    ghost use Rattle.report.specs.TextSteps.{IsTable};

    /// The text of no rows, with the line of the columns' names if it is headed.
    ///
    /// # Errors
    ///
    /// Out of memory.
    pub fn new(alloc: Global, headed: bool) -> Result<Table, AllocError>
        ensures { IfOk result (λ table. IsTable table (part_text headed [])) }
    {
        let mut table = Table::empty(alloc)?;
        if !headed {
            return Ok(table);
        }
        table.push_names()?;
        Ok(table)
    }

    /// Appends the line of the columns' names.
    fn push_names(&mut self) -> Result<(), AllocError>
        ensures { OnOk result ((octets : List ℕ) → IsTable self.old octets
            → IsTable self.new (octets ++ header_line)) }
    {
        self.push_line(&[
            b"lac",
            b"ci",
            b"id",
            b"serial",
            b"start",
            b"end",
            b"completed",
            b"shown",
        ])
    }

    /// No text. The only error is out of memory.
    //
    // It stays a function of its own, as `into_octets` does, so that the stack of a writer is free in between.
    #[inline(never)]
    pub(crate) fn empty(alloc: Global) -> Result<Table, AllocError>
        ensures { IfOk result (λ table. IsTable table []) }
    {
        let writer = WriterBuilder::new().from_writer(Vec::new(alloc));
        Ok(Table {
            writer: Box::new(alloc, writer)?,
        })
    }

    /// Appends the lines of the rows at the front that are of one cell, and returns how many they are. The cell's
    /// numbers are written once for all of them, and on the stack, as a row's other numbers are: memory for each would
    /// take longer than all else.
    ///
    /// # Errors
    ///
    /// Out of memory.
    pub fn push_cell(&mut self, rows: &[Row]) -> Result<usize, AllocError>
        requires { 0 < length rows.now }
        ensures within { IfOk result (λ count. (0 < count) × (count ≤ length rows.now)) }
        ensures lines { IfOk result (λ count. (octets : List ℕ) → IsTable self.old octets
            → IsTable self.new (octets ++ flat_map row_line (take count rows.now))) }
    {
        let lac = rows[0].lac;
        let ci = rows[0].ci;
        let mut lac_buffer = Buffer::new();
        let mut ci_buffer = Buffer::new();
        let lac_text = lac_buffer.format(lac);
        let ci_text = ci_buffer.format(ci);
        self.push(lac_text, ci_text, &rows[0])?;
        let mut count = 1;
        while count < rows.len() && rows[count].lac == lac && rows[count].ci == ci {
            self.push(lac_text, ci_text, &rows[count])?;
            count += 1;
        }
        Ok(count)
    }

    /// Appends the line of a row, of whose cell these are the numbers. The only error is out of memory.
    fn push(&mut self, lac: &str, ci: &str, row: &Row) -> Result<(), AllocError>
        requires lac { lac.now ≡ decimal row.now.lac }
        requires ci { ci.now ≡ decimal row.now.ci }
        ensures { OnOk result ((octets : List ℕ) → IsTable self.old octets
            → IsTable self.new (octets ++ row_line row.now)) }
    {
        match row.shown {
            Showing::Yes => self.push_shown(lac, ci, row, b"yes"),
            Showing::No => self.push_shown(lac, ci, row, b"no"),
            Showing::Refused(cause) => self.push_shown(lac, ci, row, &refused_text(cause)),
        }
    }

    /// Appends the line of a row, whose last column has this text.
    fn push_shown<'a>(
        &mut self,
        lac: &'a str,
        ci: &'a str,
        row: &Row,
        shown: &'a [u8],
    ) -> Result<(), AllocError>
        requires lac { lac.now ≡ decimal row.now.lac }
        requires ci { ci.now ≡ decimal row.now.ci }
        requires shown { shown.now ≡ showing_text row.now.shown }
        ensures { OnOk result ((octets : List ℕ) → IsTable self.old octets
            → IsTable self.new (octets ++ row_line row.now)) }
    {
        let mut id = Buffer::new();
        let serial = serial_text(row.serial);
        let mut start = Buffer::new();
        let mut end = Buffer::new();
        let mut completed = Buffer::new();
        self.push_line(&[
            lac.as_bytes(),
            ci.as_bytes(),
            id.format(row.id).as_bytes(),
            &serial,
            start.format(row.start).as_bytes(),
            end.format(row.end).as_bytes(),
            completed.format(row.completed).as_bytes(),
            shown,
        ])
    }

    /// Appends a line. A writer to memory fails only if out of memory.
    pub(crate) fn push_line(&mut self, fields: &[&[u8]]) -> Result<(), AllocError>
        ensures { OnOk result ((octets : List ℕ) → IsTable self.old octets
            → IsTable self.new (octets ++ line (map (λ f. f.now) fields.now))) }
    {
        match self.writer.write_fields(fields) {
            Ok(()) => Ok(()),
            Err(_) => Err(AllocError),
        }
    }

    /// The text's octets.
    ///
    /// # Errors
    ///
    /// Out of memory.
    #[inline(never)]
    pub fn into_octets(self) -> Result<Vec<u8>, AllocError>
        ensures { IfOk result (λ octets. (text : List ℕ) → IsTable self text → octets.items ≡ text) }
    {
        match Box::into_inner(self.writer).into_inner() {
            Ok(octets) => Ok(octets),
            Err(_) => Err(AllocError),
        }
    }
}
