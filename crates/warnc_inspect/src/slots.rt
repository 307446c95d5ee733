//! The command `read --slots`: tapes to a table of the pages that their slots send.

ghost use Rattle.std.specs.Prelude.{◌≡◌, ◌++◌, ℕ, List, IfErr, IfOk, OnOk};
ghost use Rattle.std.specs.Option.{option_to_list};
ghost use Rattle.std.specs.Io.KnownBytes.{IsAtEnd};
ghost use Rattle.device_ends.specs.Source.{reader_of};
ghost use Rattle.device_ends.specs.Stream.{FaultOfInput, IsStreamBetween, OutputOfInput};
ghost use Rattle.handset.specs.Reception.{readable_pages};
ghost use Rattle.warnc_inspect.specs.ReadOutput.{IsReadTo, IsReadWriteFault};
ghost use Rattle.warnc_inspect.specs.ReadSteps.{IsTable};
ghost use Rattle.warnc_inspect.specs.SlotsOutput.{rows_from, slot_columns, slot_read, slot_row, slot_rows, tape_rows};
ghost use Rattle.warnc_inspect.specs.SlotsOutput.{IsSlotsFault, IsSlotsOutput};

use crate::read::{ReadCommandFault, fault_of_tapes};
use crate::table::{Table, serial_digits};
use cbs_page::PageView;
use cbsp_wire::Cell;
use device_ends::{Failed, Sink, Source, write_all};
use handset::{Recording, TakesRecordings, page_in_front, record_each};
use itoa::Buffer;
use short_pages::{Pages, completed_slot};
use std::alloc::{AllocError, Global};
use std::io::{Read, Write};

/// A table of the pages that slots send.
#[derive(Drop)]
struct SlotTable {
    wanted: Pages,
    table: Table,
}

impl SlotTable {
    /// A table of no slots.
    fn new(alloc: Global, wanted: Pages) -> Result<SlotTable, AllocError>
        ensures table { IfOk result (λ slots. IsTable slots.table slot_columns) }
        ensures wanted { IfOk result (λ slots. slots.wanted ≡ wanted) }
    {
        let mut table = Table::empty(alloc)?;
        table.push_row(&[b"lac", b"ci", b"slot", b"id", b"serial", b"page", b"pages"])?;
        Ok(SlotTable { wanted, table })
    }

    /// Appends the rows of a recording.
    fn push(&mut self, recording: &Recording) -> Result<(), AllocError>
        ensures rows { OnOk result ((octets : List ℕ) → IsTable self.old.table octets →
            IsTable self.new.table (octets ++ tape_rows self.old.wanted recording.now)) }
        ensures wanted { self.new.wanted ≡ self.old.wanted }
    {
        push_slots(
            &mut self.table,
            self.wanted,
            recording.cell(),
            recording.blocks(),
        )
    }
}

impl TakesRecordings for SlotTable {
    ghost use Rattle.std.specs.Prelude.{◌≡◌};
    ghost use Rattle.short_pages.specs.declared.pages.Pages.{Pages};
    ghost use Rattle.warnc_inspect.specs.ReadSteps.{IsTable};
    ghost use Rattle.warnc_inspect.specs.SlotsOutput.{table_of_slots};

    ghost Given = { Pages };

    ghost HasTaken = { λ wanted slots recordings.
        (slots.wanted ≡ wanted) × IsTable slots.table (table_of_slots wanted recordings) };

    fn take(&mut self, recording: Recording) -> Result<(), AllocError> {
        self.push(&recording)
    }
}

/// Appends the rows of a cell's slots, which are the blocks, four for each.
fn push_slots(
    table: &mut Table,
    wanted: Pages,
    cell: Cell,
    blocks: &[[u8; 23]],
) -> Result<(), AllocError>
    ensures { OnOk result ((octets : List ℕ) → IsTable table.old octets →
        IsTable table.new (octets ++ rows_from wanted cell 0 blocks.now)) }
{
    let (slots, _) = blocks.as_chunks::<4>();
    for (number, slot) in slots.iter().enumerate() {
        push_slot(table, wanted, cell, number, slot)?;
    }
    Ok(())
}

/// Appends the row of a slot, if it sends a page.
fn push_slot(
    table: &mut Table,
    wanted: Pages,
    cell: Cell,
    number: usize,
    slot: &[[u8; 23]; 4],
) -> Result<(), AllocError>
    ensures { OnOk result ((octets : List ℕ) → IsTable table.old octets →
        IsTable table.new (octets ++ slot_rows wanted cell number slot.now)) }
{
    match page_sent(wanted, slot) {
        Some(page) => push_page(table, cell, number, &page),
        None => Ok(()),
    }
}

/// The page that a handset reads of a slot, if it can show it.
fn page_sent(wanted: Pages, slot: &[[u8; 23]; 4]) -> Option<PageView>
    ensures { option_to_list result ≡ readable_pages (slot_read wanted slot.now) }
{
    let page = match wanted {
        Pages::OfFour => page_in_front(slot)?,
        Pages::OfAny => page_in_front(&completed_slot(slot))?,
    };
    if page.readable() { Some(page) } else { None }
}

/// Appends the row of a page that a cell sends in a slot.
fn push_page(table: &mut Table, cell: Cell, slot: usize, page: &PageView) -> Result<(), AllocError>
    ensures { OnOk result ((octets : List ℕ) → IsTable table.old octets →
        IsTable table.new (octets ++ slot_row cell slot page.now)) }
{
    let (mut lac, mut ci, mut number) = (Buffer::new(), Buffer::new(), Buffer::new());
    let (mut id, mut place, mut total) = (Buffer::new(), Buffer::new(), Buffer::new());
    let serial = serial_digits(page.serial);
    table.push_row(&[
        lac.format(cell.lac).as_bytes(),
        ci.format(cell.ci).as_bytes(),
        number.format(slot).as_bytes(),
        id.format(page.id).as_bytes(),
        &serial,
        place.format(page.number).as_bytes(),
        total.format(page.total).as_bytes(),
    ])
}

/// Reads 0 to 64 tapes up to the end of the input, and writes a table of the pages that they send, as CSV: a row of the
/// columns' names, and then a row for each slot that sends a page, tapes in order, slots in order, from 0. Such a slot
/// has the four blocks of a page that a handset can show, or with [`Pages::OfAny`] the one to three blocks of one (3GPP
/// TS 44.012); any other slot has no row. Nothing is written before the last tape is read and the table is made.
///
/// # Errors
///
/// The first [`ReadCommandFault`] that applies, with nothing written but after `WriteFailed`.
pub fn slots_stream<R: Read, W: Write>(
    alloc: Global,
    source: &mut Source<R>,
    sink: &mut Sink<W>,
    wanted: Pages,
) -> Result<(), ReadCommandFault>
    // What was written is the table of the tapes that were read, at any reader of some tapes.
    ensures ok { OnOk result (OutputOfInput R.remaining W.contents (IsSlotsOutput wanted) source.old sink.old
        sink.new) }
    ensures err { IfErr result (FaultOfInput R.remaining W.contents (IsSlotsFault wanted) source.old sink.old
        sink.new) }

    // How far the source was read: to its end, or as the fault says and no further.
    ensures whole { OnOk result (IsAtEnd (R.remaining (reader_of source.new))) }
    ensures extent { IfErr result (IsReadTo (R.remaining (reader_of source.old)) (R.remaining (reader_of source.new))) }

    // At any reader and any writer.
    ensures any_ends { IsStreamBetween ReadCommandFault.ReadFailed IsReadWriteFault result W.contents source.old
        source.new sink.old sink.new }
{
    if source.failed() {
        return Err(ReadCommandFault::ReadFailed);
    }
    let Ok(mut slots) = SlotTable::new(alloc, wanted) else {
        return Err(ReadCommandFault::Refused);
    };
    match record_each(alloc, source, &mut slots) {
        Ok(()) => {}
        Err(fault) => return Err(fault_of_tapes(fault)),
    }
    let Ok(octets) = slots.table.into_octets() else {
        return Err(ReadCommandFault::Refused);
    };
    match write_all(sink, &octets) {
        Ok(()) => Ok(()),
        Err(Failed) => Err(ReadCommandFault::WriteFailed),
    }
}
