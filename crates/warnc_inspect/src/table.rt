//! Tables as CSV, in memory.

ghost use Rattle.std.specs.Prelude.{◌≡◌, ℕ, ◌/◌, ◌%◌, List, [], ◌∷◌, ◌++◌, length, map, IfOk, OnOk};
ghost use Rattle.hex.specs.Hex.{encode_lower};
ghost use Rattle.handset.specs.Keeping.{message_shown};
ghost use Rattle.handset.specs.Tape.{reading_of};
ghost use Rattle.warnc_inspect.specs.ReadOutput.{csv_row, row_of_message};

use cbs_page::Serial;
use csv::{Writer, WriterBuilder};
use handset::{Reading, Shown, TakesReadings};
use itoa::Buffer;
use std::alloc::{AllocError, Global};

/// A table of the messages that cells showed: the row of the columns' names, and a row for each message. The writer's
/// own buffer lies on the heap, so that a table is moved as cheaply as a list.
#[derive(Drop)]
pub struct Table {
    writer: Box<Writer<Vec<u8>>>,
}

/// Four lower hexadecimal digits.
pub(crate) fn serial_digits(serial: Serial) -> [u8; 4]
    ensures { result ≡ encode_lower ((serial / 256) ∷ (serial % 256) ∷ []) }
{
    let mut digits = [0; 4];
    let _ = hex::encode_to_slice(serial.number().to_be_bytes().as_slice(), &mut digits);
    digits
}

impl Table {
    ghost use Rattle.std.specs.Prelude.{string_bytes};
    ghost use Rattle.warnc_inspect.specs.ReadOutput.{reading_rows, table_of};
    ghost use Rattle.warnc_inspect.specs.ReadSteps.{IsTable};

    /// A table of no messages.
    ///
    /// # Errors
    ///
    /// Out of memory.
    pub fn new(alloc: Global) -> Result<Table, AllocError>
        ensures { IfOk result (λ table. IsTable table (table_of [])) }
    {
        let mut table = Table::empty(alloc)?;
        table.push_row(&[b"lac", b"ci", b"id", b"serial", b"text"])?;
        Ok(table)
    }

    /// A table with no row. The only error is out of memory.
    pub(crate) fn empty(alloc: Global) -> Result<Table, AllocError>
        ensures { IfOk result (λ table. IsTable table []) }
    {
        let writer = WriterBuilder::new().from_writer(Vec::new(alloc));
        Ok(Table {
            writer: Box::new(alloc, writer)?,
        })
    }

    /// Appends the rows of a reading. The cell's numbers are written once for all of them, and on the stack, as a row's
    /// other numbers are: no field takes memory of its own.
    fn push_reading(&mut self, reading: &Reading) -> Result<(), AllocError>
        ensures { OnOk result ((octets : List ℕ) → IsTable self.old octets →
            IsTable self.new (octets ++ reading_rows (reading_of reading.now))) }
    {
        let mut lac_buffer = Buffer::new();
        let mut ci_buffer = Buffer::new();
        let lac = lac_buffer.format(reading.cell.lac);
        let ci = ci_buffer.format(reading.cell.ci);
        for message in &reading.shown {
            self.push_message(lac, ci, message)?;
        }
        Ok(())
    }

    /// Appends the row of a message that a cell showed.
    fn push_message<'a>(
        &mut self,
        lac: &'a str,
        ci: &'a str,
        message: &'a Shown,
    ) -> Result<(), AllocError>
        ensures { OnOk result ((octets : List ℕ) → IsTable self.old octets →
            IsTable self.new (octets ++ row_of_message lac.now ci.now (message_shown message.now))) }
    {
        let mut id = Buffer::new();
        let serial = serial_digits(message.serial);
        self.push_row(&[
            lac.as_bytes(),
            ci.as_bytes(),
            id.format(message.id).as_bytes(),
            &serial,
            message.text.as_bytes(),
        ])
    }

    /// Appends a row. A writer to memory fails only if out of memory.
    pub(crate) fn push_row(&mut self, fields: &[&[u8]]) -> Result<(), AllocError>
        ensures { OnOk result ((octets : List ℕ) → IsTable self.old octets →
            IsTable self.new (octets ++ csv_row (map (λ f. f.now) fields.now))) }
    {
        match self.writer.write_fields(fields) {
            Ok(()) => Ok(()),
            Err(_) => Err(AllocError),
        }
    }

    /// The table's octets.
    ///
    /// # Errors
    ///
    /// Out of memory.
    pub fn into_octets(self) -> Result<Vec<u8>, AllocError>
        ensures { IfOk result (λ octets. (text : List ℕ) → IsTable self text → octets.items ≡ text) }
    {
        match Box::into_inner(self.writer).into_inner() {
            Ok(octets) => Ok(octets),
            Err(_) => Err(AllocError),
        }
    }
}

impl TakesReadings for Table {
    ghost use Rattle.warnc_inspect.specs.ReadOutput.{table_of};
    ghost use Rattle.warnc_inspect.specs.ReadSteps.{IsTable};

    ghost HasTaken = { λ table readings. IsTable table (table_of readings) };

    fn take(&mut self, reading: Reading) -> Result<(), AllocError> {
        self.push_reading(&reading)
    }
}
