//! A table of loads, as CSV, in memory.

ghost use Rattle.std.specs.Prelude.{◌≡◌, ℕ, List, [], ◌++◌, map, IfOk, OnOk, None, Some};
ghost use Rattle.cell_loads.specs.LoadsText.{header_line, heading, line, share_line, mark};
ghost use Rattle.cell_loads.specs.TableSteps.{IsTable};

use cbsp_wire::Cell;
use csv::{Writer, WriterBuilder};
use itoa::Buffer;
use slot_times::{Start, slot_time};
use std::alloc::{AllocError, Global};

/// The line of the columns' names, and lines of loads. The writer's own buffer lies on the heap, so that a table is
/// moved as cheaply as a list.
#[derive(Drop)]
pub(crate) struct Table {
    writer: Box<Writer<Vec<u8>>>,
}

/// What marks the line of the slot at which a cell is fullest.
fn mark(is_fullest: bool) -> &'static [u8]
    ensures { result.now ≡ mark is_fullest }
{
    if is_fullest { b"yes" } else { b"" }
}

impl Table {
    /// A table of no line but that of the columns' names, if it is headed. Errors are out of memory, here and below.
    pub(crate) fn new(
        alloc: Global,
        start: Option<Start>,
        headed: bool,
    ) -> Result<Table, AllocError>
        ensures { IfOk result (λ table. IsTable table (heading start headed)) }
    {
        let mut table = Table::empty(alloc)?;
        if !headed {
            return Ok(table);
        }
        table.push_names(start)?;
        Ok(table)
    }

    /// A table with no line.
    //
    // It stays a function of its own, as `into_octets` does, so that the stack of a writer is free in between.
    #[inline(never)]
    fn empty(alloc: Global) -> Result<Table, AllocError>
        ensures { IfOk result (λ table. IsTable table []) }
    {
        let writer = WriterBuilder::new().from_writer(Vec::new(alloc));
        Ok(Table {
            writer: Box::new(alloc, writer)?,
        })
    }

    /// Appends the line of the columns' names, with one for times if slot 0 has one.
    fn push_names(&mut self, start: Option<Start>) -> Result<(), AllocError>
        ensures { OnOk result ((octets : List ℕ) → IsTable self.old octets
            → IsTable self.new (octets ++ header_line start)) }
    {
        match start {
            None => self.push_line(&[b"lac", b"ci", b"slot", b"share", b"fullest"]),
            Some(_) => self.push_line(&[b"lac", b"ci", b"slot", b"share", b"fullest", b"time"]),
        }
    }

    /// Appends a line. A writer to memory fails only if out of memory.
    fn push_line(&mut self, fields: &[&[u8]]) -> Result<(), AllocError>
        ensures { OnOk result ((octets : List ℕ) → IsTable self.old octets
            → IsTable self.new (octets ++ line (map (λ f. f.now) fields.now))) }
    {
        match self.writer.write_fields(fields) {
            Ok(()) => Ok(()),
            Err(_) => Err(AllocError),
        }
    }

    /// Appends the line of a slot, from which on a cell has this share of it reserved.
    pub(crate) fn push_load(
        &mut self,
        start: Option<Start>,
        cell: Cell,
        slot: u16,
        share: u64,
        is_fullest: bool,
    ) -> Result<(), AllocError>
        ensures { OnOk result ((octets : List ℕ) → IsTable self.old octets
            → IsTable self.new (octets ++ share_line start cell slot share is_fullest)) }
    {
        match start {
            None => self.push_untimed(cell, slot, share, is_fullest),
            Some(start) => self.push_timed(start, cell, slot, share, is_fullest),
        }
    }

    /// Appends it without a time.
    fn push_untimed(
        &mut self,
        cell: Cell,
        slot: u16,
        share: u64,
        is_fullest: bool,
    ) -> Result<(), AllocError>
        ensures { OnOk result ((octets : List ℕ) → IsTable self.old octets
            → IsTable self.new (octets ++ share_line None cell slot share is_fullest)) }
    {
        let mut lac = Buffer::new();
        let mut ci = Buffer::new();
        let mut number = Buffer::new();
        let mut load = Buffer::new();
        self.push_line(&[
            lac.format(cell.lac).as_bytes(),
            ci.format(cell.ci).as_bytes(),
            number.format(slot).as_bytes(),
            load.format(share).as_bytes(),
            mark(is_fullest),
        ])
    }

    /// Appends it with the time at which the slot begins.
    fn push_timed(
        &mut self,
        start: Start,
        cell: Cell,
        slot: u16,
        share: u64,
        is_fullest: bool,
    ) -> Result<(), AllocError>
        ensures { OnOk result ((octets : List ℕ) → IsTable self.old octets
            → IsTable self.new (octets ++ share_line (Some start) cell slot share is_fullest)) }
    {
        let mut lac = Buffer::new();
        let mut ci = Buffer::new();
        let mut number = Buffer::new();
        let mut load = Buffer::new();
        let time = slot_time(start, u32::from(slot));
        self.push_line(&[
            lac.format(cell.lac).as_bytes(),
            ci.format(cell.ci).as_bytes(),
            number.format(slot).as_bytes(),
            load.format(share).as_bytes(),
            mark(is_fullest),
            &time,
        ])
    }

    /// The table's octets.
    #[inline(never)]
    pub(crate) fn into_octets(self) -> Result<Vec<u8>, AllocError>
        ensures { IfOk result (λ octets. (text : List ℕ) → IsTable self text → octets.items ≡ text) }
    {
        match Box::into_inner(self.writer).into_inner() {
            Ok(octets) => Ok(octets),
            Err(_) => Err(AllocError),
        }
    }
}
