//! A table of remarks, as CSV, in memory.

ghost use Rattle.std.specs.Prelude.{◌≡◌, ℕ, List, [], ◌∷◌, ◌++◌, codes, map, IfOk, None, OnOk};
ghost use Rattle.std.specs.Fmt.{decimal};
ghost use Rattle.book_remarks.specs.TableSteps.{IsTable};
ghost use Rattle.book_remarks.specs.RemarksText.{group_field, header_line, line, network_header, time_field};
ghost use Rattle.book_remarks.specs.RemarksText.{time_text};

use csv::{Writer, WriterBuilder};
use itoa::Buffer;
use slot_times::{Start, slot_time};
use std::alloc::{AllocError, Global};

/// The line of the columns' names, and lines of remarks.
#[derive(Drop)]
pub(crate) struct Table {
    writer: Writer<Vec<u8>>,
}

/// The text of the time at which a slot begins, if there is a slot.
fn time_text<'a>(buffer: &'a mut [u8; 24], start: Start, slot: Option<u16>) -> &'a [u8]
    ensures { result.now ≡ time_text start slot }
{
    match slot {
        Some(slot) => {
            *buffer = slot_time(start, u32::from(slot));
            buffer.as_slice()
        }
        None => b"",
    }
}

impl Table {
    /// A table of the columns' names alone, with one for times if slot 0 has one.
    pub(crate) fn new(alloc: Global, start: Option<Start>) -> Result<Table, AllocError>
        ensures { IfOk result (λ table. IsTable table (header_line start)) }
    {
        let mut table = Table::empty(alloc);
        table.push_names(start)?;
        Ok(table)
    }

    /// Appends the line of the columns' names.
    fn push_names(&mut self, start: Option<Start>) -> Result<(), AllocError>
        ensures { OnOk result ((octets : List ℕ) → IsTable self.old octets
            → IsTable self.new (octets ++ header_line start)) }
    {
        match start {
            None => self.push_untimed_names(),
            Some(_) => self.push_timed_names(),
        }
    }

    /// Appends the line of the columns' names without times.
    fn push_untimed_names(&mut self) -> Result<(), AllocError>
        ensures { OnOk result ((octets : List ℕ) → IsTable self.old octets
            → IsTable self.new (octets ++ header_line None)) }
    {
        self.push_line(&[b"row", b"name", b"cell", b"says"])
    }

    /// Appends the line of the columns' names with times.
    fn push_timed_names(&mut self) -> Result<(), AllocError>
        ensures { OnOk result ((octets : List ℕ) → IsTable self.old octets → IsTable self.new (octets
            ++ line (codes "row" ∷ codes "name" ∷ codes "cell" ∷ codes "says" ∷ codes "time" ∷ []))) }
    {
        self.push_line(&[b"row", b"name", b"cell", b"says", b"time"])
    }

    /// A table of the columns' names alone, for the groups of a network.
    pub(crate) fn of_groups(alloc: Global, start: Option<Start>) -> Result<Table, AllocError>
        ensures { IfOk result (λ table. IsTable table (network_header start)) }
    {
        let mut table = Table::empty(alloc);
        table.push_group_names(start)?;
        Ok(table)
    }

    /// Appends the line of the columns' names that stands over the groups of a network.
    fn push_group_names(&mut self, start: Option<Start>) -> Result<(), AllocError>
        ensures { OnOk result ((octets : List ℕ) → IsTable self.old octets
            → IsTable self.new (octets ++ network_header start)) }
    {
        match start {
            None => self.push_line(&[b"group", b"row", b"name", b"cell", b"says"]),
            Some(_) => self.push_line(&[b"group", b"row", b"name", b"cell", b"says", b"time"]),
        }
    }

    /// A table with no line.
    fn empty(alloc: Global) -> Table
        ensures { IsTable result [] }
    {
        Table {
            writer: WriterBuilder::new().from_writer(Vec::new(alloc)),
        }
    }

    /// Appends a line. A writer to memory fails only if out of memory.
    fn push_line(&mut self, fields: &[&[u8]]) -> Result<(), AllocError>
        ensures { OnOk result ((octets : List ℕ) → IsTable self.old octets
            → IsTable self.new (octets ++ line (map (λ f. f.now) fields.now))) }
    {
        match self.writer.write_fields(fields) {
            Ok(()) => Ok(()),
            Err(_) => Err(AllocError),
        }
    }

    /// Appends a line that speaks of this slot, or of none, with its time if slot 0 has one, and in front the number of
    /// the group, if it is of one.
    pub(crate) fn push_fields<'a>(
        &mut self,
        group: Option<u16>,
        start: Option<Start>,
        slot: Option<u16>,
        row: &'a str,
        name: &'a str,
        cell: &'a str,
        says: &'a str,
    ) -> Result<(), AllocError>
        ensures { OnOk result ((octets : List ℕ) → IsTable self.old octets → IsTable self.new (octets
            ++ line (group_field group ++ row.now ∷ name.now ∷ cell.now ∷ says.now ∷ time_field start slot))) }
    {
        match group {
            None => self.push_alone(start, slot, row, name, cell, says),
            Some(group) => self.push_of_group(group, start, slot, row, name, cell, says),
        }
    }

    /// Appends a line that is of no group.
    fn push_alone<'a>(
        &mut self,
        start: Option<Start>,
        slot: Option<u16>,
        row: &'a str,
        name: &'a str,
        cell: &'a str,
        says: &'a str,
    ) -> Result<(), AllocError>
        ensures { OnOk result ((octets : List ℕ) → IsTable self.old octets → IsTable self.new (octets
            ++ line (row.now ∷ name.now ∷ cell.now ∷ says.now ∷ time_field start slot))) }
    {
        match start {
            None => self.push_untimed(row, name, cell, says),
            Some(start) => self.push_timed(start, slot, row, name, cell, says),
        }
    }

    /// Appends a line of the group of this number.
    fn push_of_group<'a>(
        &mut self,
        group: u16,
        start: Option<Start>,
        slot: Option<u16>,
        row: &'a str,
        name: &'a str,
        cell: &'a str,
        says: &'a str,
    ) -> Result<(), AllocError>
        ensures { OnOk result ((octets : List ℕ) → IsTable self.old octets → IsTable self.new (octets
            ++ line (decimal group ∷ row.now ∷ name.now ∷ cell.now ∷ says.now ∷ time_field start slot))) }
    {
        let mut buffer = Buffer::new();
        let number = buffer.format(group);
        match start {
            None => self.push_untimed_of_group(number, row, name, cell, says),
            Some(start) => self.push_timed_of_group(number, start, slot, row, name, cell, says),
        }
    }

    /// Appends a line of a group without a time.
    fn push_untimed_of_group<'a>(
        &mut self,
        group: &'a str,
        row: &'a str,
        name: &'a str,
        cell: &'a str,
        says: &'a str,
    ) -> Result<(), AllocError>
        ensures { OnOk result ((octets : List ℕ) → IsTable self.old octets → IsTable self.new (octets
            ++ line (group.now ∷ row.now ∷ name.now ∷ cell.now ∷ says.now ∷ []))) }
    {
        self.push_line(&[
            group.as_bytes(),
            row.as_bytes(),
            name.as_bytes(),
            cell.as_bytes(),
            says.as_bytes(),
        ])
    }

    /// Appends a line of a group with the time at which its slot begins, if there is a slot.
    fn push_timed_of_group<'a>(
        &mut self,
        group: &'a str,
        start: Start,
        slot: Option<u16>,
        row: &'a str,
        name: &'a str,
        cell: &'a str,
        says: &'a str,
    ) -> Result<(), AllocError>
        ensures { OnOk result ((octets : List ℕ) → IsTable self.old octets → IsTable self.new (octets
            ++ line (group.now ∷ row.now ∷ name.now ∷ cell.now ∷ says.now ∷ time_text start slot ∷ []))) }
    {
        let mut buffer = [0; 24];
        let time = time_text(&mut buffer, start, slot);
        self.push_line(&[
            group.as_bytes(),
            row.as_bytes(),
            name.as_bytes(),
            cell.as_bytes(),
            says.as_bytes(),
            time,
        ])
    }

    /// Appends a line with the time at which its slot begins, if there is a slot.
    fn push_timed<'a>(
        &mut self,
        start: Start,
        slot: Option<u16>,
        row: &'a str,
        name: &'a str,
        cell: &'a str,
        says: &'a str,
    ) -> Result<(), AllocError>
        ensures { OnOk result ((octets : List ℕ) → IsTable self.old octets → IsTable self.new (octets
            ++ line (row.now ∷ name.now ∷ cell.now ∷ says.now ∷ time_text start slot ∷ []))) }
    {
        let mut time = [0; 24];
        self.push_line(&[
            row.as_bytes(),
            name.as_bytes(),
            cell.as_bytes(),
            says.as_bytes(),
            time_text(&mut time, start, slot),
        ])
    }

    /// Appends a line without a time.
    fn push_untimed<'a>(
        &mut self,
        row: &'a str,
        name: &'a str,
        cell: &'a str,
        says: &'a str,
    ) -> Result<(), AllocError>
        ensures { OnOk result ((octets : List ℕ) → IsTable self.old octets
            → IsTable self.new (octets ++ line (row.now ∷ name.now ∷ cell.now ∷ says.now ∷ []))) }
    {
        self.push_line(&[
            row.as_bytes(),
            name.as_bytes(),
            cell.as_bytes(),
            says.as_bytes(),
        ])
    }

    /// The table's octets.
    pub(crate) fn into_octets(self) -> Result<Vec<u8>, AllocError>
        ensures { IfOk result (λ octets. (text : List ℕ) → IsTable self text → octets.items ≡ text) }
    {
        match self.writer.into_inner() {
            Ok(octets) => Ok(octets),
            Err(_) => Err(AllocError),
        }
    }
}
