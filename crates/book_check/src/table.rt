//! A table as CSV, in memory.

ghost use Rattle.std.specs.Prelude.{◌≡◌, ℕ, List, [], ◌∷◌, ◌++◌, map, IfOk, OnOk};
ghost use Rattle.book_check.specs.TableSteps.{IsTable};
ghost use Rattle.book_check.specs.Told.{csv_row, header_row};

use csv::{Writer, WriterBuilder};
use std::alloc::{AllocError, Global};

/// A table: the row of the columns' names, and other rows.
#[derive(Drop)]
pub(crate) struct Table {
    writer: Writer<Vec<u8>>,
}

impl Table {
    /// A table of the columns' names alone.
    pub(crate) fn new(alloc: Global) -> Result<Table, AllocError>
        ensures { IfOk result (λ table. IsTable table header_row) }
    {
        let mut table = Table::empty(alloc);
        table.push_row(&[b"row", b"line", b"column", b"field", b"value", b"says"])?;
        Ok(table)
    }

    /// A table with no row.
    fn empty(alloc: Global) -> Table
        ensures { IsTable result [] }
    {
        Table {
            writer: WriterBuilder::new().from_writer(Vec::new(alloc)),
        }
    }

    /// Appends a row. A writer to memory fails only if out of memory.
    pub(crate) fn push_row(&mut self, fields: &[&[u8]]) -> Result<(), AllocError>
        ensures { OnOk result ((octets : List ℕ) → IsTable self.old octets →
            IsTable self.new (octets ++ csv_row (map (λ f. f.now) fields.now))) }
    {
        match self.writer.write_fields(fields) {
            Ok(()) => Ok(()),
            Err(_) => Err(AllocError),
        }
    }

    /// Appends the row of a fault.
    pub(crate) fn push_fault<'a>(
        &mut self,
        row: &'a str,
        line: &'a str,
        column: &'a str,
        name: &'a str,
        value: &'a [u8],
        says: &'a str,
    ) -> Result<(), AllocError>
        ensures { OnOk result ((octets : List ℕ) → IsTable self.old octets →
            IsTable self.new (octets
            ++ csv_row (row.now ∷ line.now ∷ column.now ∷ name.now ∷ value.now ∷ says.now ∷ []))) }
    {
        self.push_row(&[
            row.as_bytes(),
            line.as_bytes(),
            column.as_bytes(),
            name.as_bytes(),
            value,
            says.as_bytes(),
        ])
    }

    /// The table's octets.
    pub(crate) fn into_octets(self) -> Result<Vec<u8>, AllocError>
        ensures { IfOk result (λ octets. (text : List ℕ) → IsTable self text → octets.items ≡ text) }
    {
        match self.writer.into_inner() {
            Ok(octets) => Ok(octets),
            Err(_) => Err(AllocError),
        }
    }
}
