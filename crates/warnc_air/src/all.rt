//! The command `tape --all`: a table of cells and a capture file to the tapes of the cells.

ghost use Rattle.std.specs.Prelude.{◌≡◌, ◌≢◌, ◌↔◌, ◌+◌, ◌<◌, ℕ, List, [], false, true, map, IfErr, IfOk, IsErrOf};
ghost use Rattle.std.specs.Prelude.{IsTrue, MatchOption, OnOk};
ghost use Rattle.device_ends.specs.Moves.{ConsumesSome};
ghost use Rattle.device_ends.specs.ReadFault.{reports_device};
ghost use Rattle.device_ends.specs.Sink.{sink_failed};
ghost use Rattle.device_ends.specs.Source.{source_failed};
ghost use Rattle.device_ends.specs.Stream.{Reads, Writes};
ghost use Rattle.gsmtap.specs.TapesOfCapture.{AreTapesOfCapture};
ghost use Rattle.gsmtap.specs.TapesTaken.{IsWalkFor};
ghost use Rattle.gsmtap.specs.declared.fault.AirFaultKind.TheVariants as kinds;
ghost use Rattle.warnc_air.specs.AllTapes.{HadMore, IsAllTapesFault, IsCaptureFault, IsOfTable, IsUnwritten};
ghost use Rattle.warnc_air.specs.AllTapes.{MakesTapes, ReadsTable, WritesTapes, all_wanted, readers_of, wanted_of};
ghost use Rattle.warnc_air.specs.AllTapesSteps.{IsMakingFault, IsTableReadingFault, ReadsOctets};
ghost use Rattle.warnc_air.specs.WalkSteps.{IsWalkedOver};
ghost use Rattle.gsmtap.specs.declared.tape.Wanted.{Wanted};
ghost use Rattle.warnc_air.specs.declared.all.AllTapesFault.TheVariants as faults;

use crate::cell_table::{CellRow, TableFault, cells_in};
use crate::reading::walk_over;
use crate::tape::MAX_INPUT;
use device_ends::{Failed, ReadFault, Sink, Source, read_up_to, write_all};
use gsmtap::{
    AirFault, AirFaultKind, ChannelType, Sender, Tapes, TapesFault, Walk, Wanted, tapes_of_walk,
};
use std::alloc::{AllocError, AllocFailed, Global};
use std::io::{Read, Write};
use thiserror::Error;

/// The most octets of a table of cells that are read: 1 MiB.
pub const MAX_TABLE: usize = 0x10_0000;

/// Which tapes are wanted of a capture file, but for their cells and senders.
#[derive(Clone, Copy, Debug, PartialEq, Eq)]
pub struct AllWanted {
    /// How many slots each has; if no number is wanted, each as many as there are up to its last block, at most 65,535.
    pub slots: Option<u16>,
    /// In which of them the first block is.
    pub first_slot: u16,
    /// How packets mark a block of a cell broadcast channel.
    pub channel: ChannelType,
}

/// Why `tape --all` writes no tapes. If several of the first seven apply, it is the first of them.
#[derive(Clone, Copy, Debug, PartialEq, Eq, Error)]
pub enum AllTapesFault {
    /// The reader of the table failed.
    #[error("read failed")]
    TableReadFailed,
    /// The table has more than 1,048,576 octets.
    #[error("table is too long")]
    TableTooLong,
    /// A row of the table is at fault.
    #[error("{0}")]
    Table(TableFault),
    /// The reader of the capture failed.
    #[error("read failed")]
    ReadFailed,
    /// The capture has more than 1,073,741,824 octets.
    #[error("capture is too long")]
    TooLong,
    /// The capture or a packet of it is at fault.
    #[error("{0}")]
    Air(AirFault),
    /// No packet has a block of the sender in this row of the table.
    #[error("row {0}: no block")]
    NoBlock(usize),
    /// Out of memory.
    #[error("out of memory")]
    Refused,
    /// The writer failed. Some of the tapes may be out.
    #[error("write failed")]
    WriteFailed,
}

// By hand: a derived conversion has no contract.
impl<T: Drop> From<AllocFailed<T>> for AllTapesFault {
    ghost from_gives = { λ _ fault. fault ≡ faults.Refused };

    fn from(_error: AllocFailed<T>) -> AllTapesFault {
        AllTapesFault::Refused
    }
}

impl From<AllocError> for AllTapesFault {
    ghost from_gives = { λ _ fault. fault ≡ faults.Refused };

    fn from(_error: AllocError) -> AllTapesFault {
        AllTapesFault::Refused
    }
}

/// Reads a table of cells up to its end, and then a capture file, and writes the tape of each cell, in the order of
/// the table's rows: the one that [`tape_stream`](crate::tape::tape_stream) writes of that cell and that sender. The
/// capture is walked once, and not kept; nothing is written before all tapes are made.
///
/// The table is CSV. Its first row is `lac,ci,arfcn`, `lac,ci,source` or `lac,ci,source,arfcn`, and 1 to 64 rows
/// follow: the numbers of a cell, the IPv4 address that packets come from, and the radio channel that they name. No two
/// rows name one cell or one sender.
///
/// # Errors
///
/// The first [`AllTapesFault`] that applies. The capture isn't read if the table is at fault, and nothing is written
/// but after `WriteFailed`.
pub fn all_tapes_stream<C: Read, R: Read, W: Write>(
    alloc: Global,
    table: &mut Source<C>,
    source: &mut Source<R>,
    sink: &mut Sink<W>,
    wanted: &AllWanted,
) -> Result<(), AllTapesFault>
    // What was written is the tapes of the table and of the capture that were read, at any readers.
    ensures ok { OnOk result (Writes W.contents (WritesTapes wanted.now (readers_of C.remaining R.remaining table.old
        table.new source.old source.new)) sink.old sink.new) }
    ensures err { IfErr result (λ fault. Writes W.contents (λ old new. IsAllTapesFault wanted.now (readers_of
        C.remaining R.remaining table.old table.new source.old source.new) old new fault) sink.old sink.new) }

    // One octet past each bound is read at most, and nothing of the capture if the table is at fault.
    ensures table_reads { Reads C.remaining (λ old new. ConsumesSome old new (MAX_TABLE + 1)) table.old table.new }
    ensures reads { Reads R.remaining (λ old new. ConsumesSome old new (MAX_INPUT + 1)) source.old source.new }
    ensures table_first { IfErr result (λ fault. IsOfTable fault → source.new ≡ source.old) }

    // At any readers and any writer: which end failed is reported, the table's first, and what failed before is as it
    // was.
    ensures table_failed { IsErrOf result faults.TableReadFailed ↔ IsTrue (source_failed table.new) }
    ensures capture_failed { source_failed source.old ≡ false
        → (IsErrOf result faults.ReadFailed ↔ IsTrue (source_failed source.new)) }
    ensures capture_told { IsErrOf result faults.ReadFailed → source_failed source.new ≡ true }
    ensures capture_read { OnOk result (source_failed source.new ≡ false) }
    ensures write_failed { IfErr result (λ fault. IsUnwritten fault → sink_failed sink.new ≡ true) }
    ensures written { OnOk result (sink_failed sink.new ≡ false) }
    ensures nothing_written { IfErr result (λ fault. (IsUnwritten fault → ⊥) → sink.new ≡ sink.old) }
    ensures table_stays { source_failed table.old ≡ true → table.new ≡ table.old }
    ensures capture_stays { source_failed source.old ≡ true → source.new ≡ source.old }
    ensures sink_stays { sink_failed sink.old ≡ true → sink.new ≡ sink.old }
{
    let rows = match read_cells(alloc, table) {
        Ok(rows) => rows,
        Err(fault) => return Err(fault),
    };
    let output = match make_tapes(alloc, source, &rows, wanted) {
        Ok(output) => output,
        Err(fault) => return Err(fault),
    };
    match write_all(sink, &output) {
        Ok(()) => Ok(()),
        Err(Failed) => Err(AllTapesFault::WriteFailed),
    }
}

/// The cells of a table that is read up to its end.
fn read_cells<C: Read>(alloc: Global, table: &mut Source<C>) -> Result<Vec<CellRow>, AllTapesFault>
    ensures ok { IfOk result (λ rows. Reads C.remaining (ReadsTable rows.items) table.old table.new) }
    ensures err { IfErr result (λ fault. Reads C.remaining (λ old new. IsTableReadingFault old new fault) table.old
        table.new) }
    ensures reads { Reads C.remaining (λ old new. ConsumesSome old new (MAX_TABLE + 1)) table.old table.new }
    ensures failed { IsErrOf result faults.TableReadFailed ↔ IsTrue (source_failed table.new) }
    ensures stays { source_failed table.old ≡ true → table.new ≡ table.old }
{
    match read_within(alloc, table, MAX_TABLE) {
        Ok(Some(octets)) => cells_in(alloc, &octets),
        Ok(None) => Err(AllTapesFault::TableTooLong),
        Err(ReadFault::Device) => Err(AllTapesFault::TableReadFailed),
        Err(ReadFault::Refused) => Err(AllTapesFault::Refused),
    }
}

/// The tapes of cells, of a capture that is read up to its end.
fn make_tapes<R: Read>(
    alloc: Global,
    source: &mut Source<R>,
    rows: &[CellRow],
    wanted: &AllWanted,
) -> Result<Vec<u8>, AllTapesFault>
    ensures ok { IfOk result (λ output. Reads R.remaining (MakesTapes wanted.now rows.now output.items) source.old
        source.new) }
    ensures err { IfErr result (λ fault. Reads R.remaining (λ old new. IsCaptureFault wanted.now rows.now old new
        fault) source.old source.new) }
    ensures reads { Reads R.remaining (λ old new. ConsumesSome old new (MAX_INPUT + 1)) source.old source.new }
    ensures failed { IsErrOf result faults.ReadFailed ↔ IsTrue (source_failed source.new) }
    ensures stays { source_failed source.old ≡ true → source.new ≡ source.old }
{
    if source.failed() {
        return Err(AllTapesFault::ReadFailed);
    }
    let mut walk = walk_for(alloc, wanted, rows)?;
    let count = match walk_over(alloc, source, &mut walk) {
        Ok(count) => count,
        Err(ReadFault::Device) => return Err(AllTapesFault::ReadFailed),
        Err(ReadFault::Refused) => return Err(AllTapesFault::Refused),
    };
    if count > MAX_INPUT {
        return Err(AllTapesFault::TooLong);
    }
    tapes_of(alloc, walk)
}

/// A walk over a capture file for the tapes of cells.
fn walk_for(alloc: Global, wanted: &AllWanted, rows: &[CellRow]) -> Result<Walk<Tapes>, AllocError>
    ensures { IfOk result (IsWalkFor (all_wanted wanted.now rows.now) []) }
{
    let wanted = all_wanted(alloc, wanted, rows)?;
    Ok(Walk::new(alloc, Tapes::new(alloc, wanted)?))
}

/// All octets that a reader gives; none if they are more than these.
fn read_within<R: Read>(
    alloc: Global,
    source: &mut Source<R>,
    most: usize,
) -> Result<Option<Vec<u8>>, ReadFault>
    requires { most < usize.MAX }
    ensures read { IfOk result (λ octets. Reads R.remaining (λ old new. MatchOption octets (HadMore most old)
        (λ octets. ReadsOctets most octets.items old new)) source.old source.new) }
    ensures reads { Reads R.remaining (λ old new. ConsumesSome old new (most + 1)) source.old source.new }
    ensures failed { source_failed source.new ≡ reports_device result }
    ensures stays { source_failed source.old ≡ true → source.new ≡ source.old }
{
    let octets = read_up_to(source, alloc, most)?;
    if octets.len() > most {
        return Ok(None);
    }
    Ok(Some(octets))
}

/// The tapes of the capture that a walk was over.
fn tapes_of(alloc: Global, walk: Walk<Tapes>) -> Result<Vec<u8>, AllTapesFault>
    requires { IsWalkedOver walk }
    ensures ok { IfOk result (λ output. (wanted : List Wanted) (capture : List ℕ) → IsWalkFor wanted capture walk →
        AreTapesOfCapture wanted capture output.items) }
    ensures err { IfErr result (λ fault. (wanted : List Wanted) (capture : List ℕ) → IsWalkFor wanted capture walk →
        IsMakingFault wanted capture fault) }
{
    match tapes_of_walk(alloc, walk) {
        Ok(output) => Ok(output),
        Err(TapesFault::NoBlock(place)) => Err(AllTapesFault::NoBlock(place + 2)),
        Err(TapesFault::Air(fault)) => Err(fault_of_air(fault)),
    }
}

/// Which tapes are wanted of these cells.
fn all_wanted(
    alloc: Global,
    wanted: &AllWanted,
    rows: &[CellRow],
) -> Result<Vec<Wanted>, AllocError>
    ensures { IfOk result (λ all. all.items ≡ all_wanted wanted.now rows.now) }
{
    let mut all = Vec::with_capacity(alloc, rows.len())?;
    for row in rows {
        all.push(wanted_of(wanted, row))?;
    }
    Ok(all)
}

/// Which tape is wanted of a cell.
fn wanted_of(wanted: &AllWanted, row: &CellRow) -> Wanted
    ensures { result ≡ wanted_of wanted.now row.now }
{
    Wanted {
        cell: row.cell,
        slots: wanted.slots,
        first_slot: wanted.first_slot,
        from: Sender {
            address: row.address,
            arfcn: row.arfcn,
            channel: wanted.channel,
        },
    }
}

/// The fault that a fault of a capture is.
fn fault_of_air(fault: AirFault) -> AllTapesFault
    ensures refused { fault.kind ≡ kinds.Refused → result ≡ faults.Refused }
    ensures other { fault.kind ≢ kinds.Refused → result ≡ faults.Air fault }
{
    match fault.kind {
        AirFaultKind::Refused => AllTapesFault::Refused,
        _ => AllTapesFault::Air(fault),
    }
}
