//! The command `check --slots`: a book, or a network book, to the faults of its rows, or to what is remarked of its run
//! and how full its cells get.

ghost use Rattle.std.specs.Prelude.{◌≡◌, ◌↔◌, ◌+◌, ◌<◌, ◌≤◌, ℕ, List, false, true, length, IfErr, IfOk, IfSome};
ghost use Rattle.std.specs.Prelude.{IsErrOf, IsTrue, OnOk};
ghost use Rattle.std.specs.Io.KnownBytes.{IsAtEnd};
ghost use Rattle.device_ends.specs.Moves.{ConsumesSome};
ghost use Rattle.device_ends.specs.Sink.{sink_failed, writer_of};
ghost use Rattle.device_ends.specs.Source.{reader_of, source_failed};
ghost use Rattle.device_ends.specs.Stream.{OutputOfInput};
ghost use Rattle.alert_book.specs.Extent.{bounds_of, most_octets};
ghost use Rattle.alert_book.specs.Network.{MeansNetwork, groups_of};
ghost use Rattle.alert_book.specs.declared.judging.bounds.Extent.TheVariants as extents;
ghost use Rattle.warnc_run.specs.NetworkSteps.{IsRead};
ghost use Rattle.warnc_run.specs.Records.{IsRunWith};
ghost use Rattle.book_remarks.specs.Remarked.{HasTold, HasWritten, IsRemarkFault, IsRemarked, IsRemarkedFor};
ghost use Rattle.book_remarks.specs.Remarked.{IsRemarkedFrom};
ghost use Rattle.book_remarks.specs.RemarksText.{network_header};
ghost use Rattle.book_remarks.specs.TableSteps.{IsTable};
ghost use Rattle.book_remarks.specs.RemarkedSteps.{AreToldBefore, IsFaultOfRows, IsReadFault, IsStop, extent_of};
ghost use Rattle.book_remarks.specs.RemarkedSteps.{stop_of};
ghost use Rattle.book_remarks.specs.declared.fault.RemarkFault.TheVariants as faults;

use crate::fault::RemarkFault;
use crate::remarks::remarks_of;
use crate::table::Table;
use crate::text::{push_group, run_text_of};
use alert_book::{Bounds, Extent, Network, Origin};
use book_check::table_of;
use device_ends::{Failed, ReadFault, Sink, Source, read_up_to, write_all};
use order_desk::{DeskFault, SettleFault};
use slot_times::Start;
use std::alloc::{AllocGlobal, Global};
use std::io::{Read, Write};
use std::sync::Wait;
use std::thread::Threads;
use warnc_run::{RanBook, RunFault, Workers, run_group, run_with_book};

/// The table of remarks and of how full cells get.
#[derive(Drop)]
struct Remarked {
    text: Vec<u8>,
    /// How many remarks there are.
    count: usize,
}

/// Reads a book or a network book up to its end, and writes a table as CSV: that of
/// [`check_stream`](book_check::check_stream) if a row has a fault; else the book, or the group's, is run with one
/// session and `slots` slots, and what is remarked of it is written ([`remarks_of`]), and how full each cell gets
/// ([`run_text_of`]). Of a network each group is run, and what is written of it has in front a column of the group's
/// number, from 0. If slot 0 begins at `start`, the second table has a last column of times, which the first has never.
/// Nothing is written before all is known.
///
/// # Errors
///
/// [`RemarkFault::Faults`] if there is a row with a fault, and [`RemarkFault::Remarks`] if it is strict and there is a
/// remark: all of them are written then. [`RemarkFault::NoGroup`] if a network has no fault, and not the group that is
/// asked for. With any other fault nothing is written, but after [`RemarkFault::WriteFailed`] a front of a table may be
/// out.
pub fn remark_stream<T: AllocGlobal + Threads + Wait + Sync, R: Read, W: Write>(
    rt: &T,
    source: &mut Source<R>,
    sink: &mut Sink<W>,
    what: Extent,
    slots: u16,
    start: Option<Start>,
    strict: bool,
) -> Result<(), RemarkFault>
    // What was written is the table of the book that was read, at any reader.
    ensures ok { OnOk result (OutputOfInput R.remaining W.contents (IsRemarkedFor what slots start strict) source.old
        sink.old sink.new) }
    ensures err { IfErr result (IsRemarkFault what slots start strict (R.remaining (reader_of source.old))
        (W.contents (writer_of sink.old)) (W.contents (writer_of sink.new))) }

    // The book was read to its end, and no more than one octet past the bound.
    ensures whole { OnOk result (IsAtEnd (R.remaining (reader_of source.new))) }
    ensures whole_with_faults { IfErr result (λ fault.
        HasTold fault → IsAtEnd (R.remaining (reader_of source.new))) }
    ensures reads { ConsumesSome (R.remaining (reader_of source.old)) (R.remaining (reader_of source.new))
        (most_octets (bounds_of what) + 1) }

    // At any reader and any writer: which end failed is reported, and what failed before is as it was.
    ensures read_failed { IsErrOf result faults.ReadFailed ↔ IsTrue (source_failed source.new) }
    ensures write_failed { IsErrOf result faults.WriteFailed → sink_failed sink.new ≡ true }
    ensures written { OnOk result (sink_failed sink.new ≡ false) }
    ensures told_written { IfErr result (λ fault. HasTold fault → sink_failed sink.new ≡ false) }
    ensures nothing_written { IfErr result (λ fault. (HasWritten fault → ⊥) → sink.new ≡ sink.old) }
    ensures source_stays { source_failed source.old ≡ true → source.new ≡ source.old }
    ensures sink_stays { sink_failed sink.old ≡ true → sink.new ≡ sink.old }
{
    let bounds = what.bounds();
    let octets = read_octets(rt.alloc(), bounds, source)?;
    // Only a book without a fault has a run, so that faults are looked for where there is no run.
    let remarked = match remarked_of(rt, &octets, what, slots, start) {
        Ok(remarked) => remarked,
        Err(stop) => {
            write_faults(rt.alloc(), sink, bounds, &octets)?;
            return Err(stop);
        }
    };
    if let Err(Failed) = write_all(sink, &remarked.text) {
        return Err(RemarkFault::WriteFailed);
    }
    if !strict {
        return Ok(());
    }
    match remarked.count {
        0 => Ok(()),
        count => Err(RemarkFault::Remarks(count)),
    }
}

/// Writes the table of the faults of the rows of what is bounded so, if there is one; nothing if there is none.
fn write_faults<W: Write>(
    alloc: Global,
    sink: &mut Sink<W>,
    bounds: Bounds,
    octets: &[u8],
) -> Result<(), RemarkFault>
    requires { length octets.now ≤ most_octets bounds }
    ensures ok { OnOk result (sink.new ≡ sink.old) }
    ensures err { IfErr result (IsFaultOfRows bounds octets.now (W.contents (writer_of sink.old))
        (W.contents (writer_of sink.new))) }
    ensures write_failed { IsErrOf result faults.WriteFailed → sink_failed sink.new ≡ true }
    ensures told_written { IfErr result (λ fault. HasTold fault → sink_failed sink.new ≡ false) }
    ensures nothing_written { IfErr result (λ fault. (HasWritten fault → ⊥) → sink.new ≡ sink.old) }
    ensures sink_stays { sink_failed sink.old ≡ true → sink.new ≡ sink.old }
{
    let Ok(checked) = table_of(alloc, bounds, octets) else {
        return Err(RemarkFault::Refused);
    };
    if checked.count == 0 {
        return Ok(());
    }
    match write_all(sink, &checked.text) {
        Ok(()) => Err(RemarkFault::Faults(checked.count)),
        Err(Failed) => Err(RemarkFault::WriteFailed),
    }
}

/// All octets of what is bounded so.
fn read_octets<R: Read>(
    alloc: Global,
    bounds: Bounds,
    source: &mut Source<R>,
) -> Result<Vec<u8>, RemarkFault>
    ensures all { IfOk result (λ octets. IfSome (R.remaining (reader_of source.old)) (λ input. input ≡ octets.items)) }
    ensures bound { IfOk result (λ octets. length octets.items ≤ most_octets bounds) }
    ensures ended { OnOk result (IsAtEnd (R.remaining (reader_of source.new))) }
    ensures reads { ConsumesSome (R.remaining (reader_of source.old)) (R.remaining (reader_of source.new))
        (most_octets bounds + 1) }
    ensures fault { IfErr result (IsReadFault bounds (R.remaining (reader_of source.old))) }
    ensures failed { IsErrOf result faults.ReadFailed ↔ IsTrue (source_failed source.new) }
    ensures stays { source_failed source.old ≡ true → source.new ≡ source.old }
{
    let most = bounds.most_octets();
    let octets = match read_up_to(source, alloc, most) {
        Ok(octets) => octets,
        Err(ReadFault::Device) => return Err(RemarkFault::ReadFailed),
        Err(ReadFault::Refused) => return Err(RemarkFault::Refused),
    };
    if octets.len() > most {
        return Err(RemarkFault::TooLong);
    }
    Ok(octets)
}

/// The table of the remarks of what is looked at, if no row has a fault.
fn remarked_of<T: AllocGlobal + Threads + Wait + Sync>(
    rt: &T,
    octets: &[u8],
    what: Extent,
    slots: u16,
    start: Option<Start>,
) -> Result<Remarked, RemarkFault>
    ensures ok { IfOk result (λ remarked. IsRemarked what slots start octets.now remarked.count remarked.text.items) }
    ensures err { IfErr result (IsStop what slots octets.now) }
{
    match what {
        Extent::Book => remarked_from(rt, octets, Origin::Book, slots, start),
        Extent::Group(group) => remarked_from(rt, octets, Origin::Group(group), slots, start),
        Extent::Network => remarked_network(rt, octets, slots, start),
    }
}

/// The table of the remarks of a book, or of that of a group.
fn remarked_from<T: AllocGlobal + Threads + Wait + Sync>(
    rt: &T,
    octets: &[u8],
    origin: Origin,
    slots: u16,
    start: Option<Start>,
) -> Result<Remarked, RemarkFault>
    ensures ok { IfOk result (λ remarked.
        IsRemarkedFrom origin slots start octets.now remarked.count remarked.text.items) }
    ensures err { IfErr result (IsStop (extent_of origin) slots octets.now) }
{
    let alloc = rt.alloc();
    let RanBook { book, records } = run_in_memory(rt, octets, origin, slots)?;
    let Ok(remarks) = remarks_of(alloc, book.given(), &records) else {
        return Err(RemarkFault::Refused);
    };
    let Ok(text) = run_text_of(alloc, start, &remarks, &records) else {
        return Err(RemarkFault::Refused);
    };
    Ok(Remarked {
        text,
        count: remarks.len(),
    })
}

/// A book, or that of a group, with the records of its run.
fn run_in_memory<T: AllocGlobal + Threads + Wait + Sync>(
    rt: &T,
    octets: &[u8],
    origin: Origin,
    slots: u16,
) -> Result<RanBook, RemarkFault>
    ensures ok { IfOk result (λ ran. IsRunWith origin slots octets.now ran.book ran.records.items) }
    ensures err { IfErr result (IsStop (extent_of origin) slots octets.now) }
{
    let mut source = Source::new(octets);
    match run_with_book(rt, &mut source, origin, slots, Workers { number: 1 }) {
        Ok(ran) => Ok(ran),
        Err(fault) => Err(stop_of(fault)),
    }
}

/// The table of the remarks of all groups of a network, which is read once.
fn remarked_network<T: AllocGlobal + Threads + Wait + Sync>(
    rt: &T,
    octets: &[u8],
    slots: u16,
    start: Option<Start>,
) -> Result<Remarked, RemarkFault>
    ensures ok { IfOk result (λ remarked.
        IsRemarked extents.Network slots start octets.now remarked.count remarked.text.items) }
    ensures err { IfErr result (IsStop extents.Network slots octets.now) }
{
    // Octets that aren't read are told by the table of their faults.
    let Ok(network) = Network::read(rt, octets) else {
        return Err(RemarkFault::Refused);
    };
    let mut table = Table::of_groups(rt.alloc(), start)?;
    let count = tell_groups(rt, &mut table, &network, slots, start)?;
    let Ok(text) = table.into_octets() else {
        return Err(RemarkFault::Refused);
    };
    Ok(Remarked { text, count })
}

/// Appends what is remarked of all groups of a network to a table of the columns' names; returns how many remarks there
/// are.
fn tell_groups<T: AllocGlobal + Threads + Wait + Sync>(
    rt: &T,
    table: &mut Table,
    network: &Network,
    slots: u16,
    start: Option<Start>,
) -> Result<usize, RemarkFault>
    requires named { IsTable table.old (network_header start) }
    requires read { IsRead network.now }
    ensures ok { IfOk result (λ count.
        AreToldBefore network.now slots start (groups_of (length network.now.cells)) count table.new) }
    ensures err { IfErr result (λ stop. (input : List ℕ) → MeansNetwork input network.now
        → IsStop extents.Network slots input stop) }
{
    let mut count: usize = 0;
    for group in 0..network.groups() {
        let more = tell_group(rt, table, network, group, slots, start)?;
        // A table in memory has fewer lines.
        let Some(all) = count.checked_add(more) else {
            return Err(RemarkFault::Refused);
        };
        count = all;
    }
    Ok(count)
}

/// Appends what is remarked of a group of a network, and how full its cells get; returns how many remarks there are.
fn tell_group<T: AllocGlobal + Threads + Wait + Sync>(
    rt: &T,
    table: &mut Table,
    network: &Network,
    group: u16,
    slots: u16,
    start: Option<Start>,
) -> Result<usize, RemarkFault>
    requires there { group < groups_of (length network.now.cells) }
    requires read { IsRead network.now }
    ensures ok { IfOk result (λ more. (count : ℕ) → AreToldBefore network.now slots start group count table.old
        → AreToldBefore network.now slots start (group + 1) (count + more) table.new) }
    ensures err { IfErr result (λ stop. (input : List ℕ) → MeansNetwork input network.now
        → IsStop extents.Network slots input stop) }
{
    let alloc = rt.alloc();
    let RanBook { book, records } = match run_group(
        rt,
        network,
        group,
        slots,
        Workers { number: 1 },
    ) {
        Ok(ran) => ran,
        Err(fault) => return Err(stop_of(fault)),
    };
    let Ok(remarks) = remarks_of(alloc, book.given(), &records) else {
        return Err(RemarkFault::Refused);
    };
    push_group(alloc, table, group, start, &remarks, &records)?;
    Ok(remarks.len())
}

/// What a fault of a run comes to.
fn stop_of(fault: RunFault) -> RemarkFault
    ensures { result ≡ stop_of fault }
{
    match fault {
        RunFault::NoGroup(groups) => RemarkFault::NoGroup(groups),
        RunFault::Desk(DeskFault::Unknown) => RemarkFault::Run(fault),
        RunFault::Settle(SettleFault::Refused) => RemarkFault::Refused,
        RunFault::Settle(_) => RemarkFault::Run(fault),
        RunFault::Desk(_)
        | RunFault::Book(_)
        | RunFault::Compile(_)
        | RunFault::Write(_)
        | RunFault::Refused => RemarkFault::Refused,
    }
}
