//! The parts of a network's groups: made side by side, and written in order.

ghost use Rattle.std.specs.Prelude.{◌≡◌, ◌+◌, ◌-◌, ◌<◌, ◌≤◌, false, true, is_err, length, min, vec_len, All, IfErr};
ghost use Rattle.std.specs.Prelude.{List};
ghost use Rattle.std.specs.Prelude.{IfOk, OnErr, OnOk};
ghost use Rattle.std.specs.Io.KnownBytes.{Appends};
ghost use Rattle.device_ends.specs.Sink.{sink_failed, writer_of};
ghost use Rattle.alert_book.specs.declared.book.order.Order.{Order};
ghost use Rattle.asked_orders.specs.Asked.{orders_of_run};
ghost use Rattle.bsc_table.specs.Record.{Record};
ghost use Rattle.warnc_run.specs.Engine.{IsText};
ghost use Rattle.warnc_run.specs.Network.{joined_parts, octets_of_group};
ghost use Rattle.warnc_run.specs.NetworkSteps.{groups_together, is_of_writer, octets_of_part, runs_of, AreGroupsOf};
ghost use Rattle.warnc_run.specs.NetworkSteps.{AreMadeFor, HasNoEmptyTape, IsMadeFor, IsRead, IsWritten, StopsAt};
ghost use Rattle.warnc_run.specs.NetworkSteps.{StopsPartsOf, WritesFrontOf, WritesPartsOf};
ghost use Rattle.warnc_run.specs.RunSteps.{octets_of_text};

use crate::fault::RunFault;
use crate::finish::write_tapes;
use crate::network::NetworkRun;
use crate::product::{Product, ProductFault};
use crate::run::Workers;
use crate::tapes::tapes_by_one;
use crate::text::{Text, text_of_book};
use cbch_blocks::Tape;
use device_ends::{Failed, Sink, write_all};
use order_desk::Open;
use std::alloc::{AllocError, AllocGlobal, Global};
use std::io::Write;
use std::sync::Wait;
use std::thread;
use std::thread::Threads;

/// The part of a group, before it is written.
#[derive(Drop)]
enum Part {
    /// The tapes of its cells.
    Tapes(Vec<Tape>),
    /// The text that is made of them.
    Text(Vec<u8>),
}

impl Part {
    /// Writes it.
    fn write<W: Write>(&self, sink: &mut Sink<W>) -> Result<(), Failed>
        requires some { HasNoEmptyTape self.now }
        requires open { sink_failed sink.old ≡ false }
        ensures ok { OnOk result (Appends (W.contents (writer_of sink.old))
            (W.contents (writer_of sink.new)) (octets_of_part self.now)) }
        ensures err { OnErr result (WritesFrontOf (octets_of_part self.now) (W.contents (writer_of sink.old))
            (W.contents (writer_of sink.new))) }
        ensures failed { sink_failed sink.new ≡ is_err result }
    {
        match self {
            Part::Tapes(tapes) => write_all_tapes(tapes, sink),
            Part::Text(text) => write_text(text, sink),
        }
    }
}

/// Writes a text. That of a later group in which no cell was asked anything, or is drawn, is empty, and is not written.
fn write_text<W: Write>(text: &[u8], sink: &mut Sink<W>) -> Result<(), Failed>
    requires open { sink_failed sink.old ≡ false }
    ensures ok { OnOk result (Appends (W.contents (writer_of sink.old)) (W.contents (writer_of sink.new)) text.now) }
    ensures err { OnErr result (WritesFrontOf text.now (W.contents (writer_of sink.old))
        (W.contents (writer_of sink.new))) }
    ensures failed { sink_failed sink.new ≡ is_err result }
{
    if text.is_empty() {
        return Ok(());
    }
    write_all(sink, text)
}

/// Writes tapes, one after the other.
fn write_all_tapes<W: Write>(tapes: &[Tape], sink: &mut Sink<W>) -> Result<(), Failed>
    requires some { All (λ tape. 0 < length tape) tapes.now }
    requires open { sink_failed sink.old ≡ false }
    ensures ok { OnOk result (Appends (W.contents (writer_of sink.old))
        (W.contents (writer_of sink.new)) (joined_parts tapes.now)) }
    ensures err { OnErr result (WritesFrontOf (joined_parts tapes.now) (W.contents (writer_of sink.old))
        (W.contents (writer_of sink.new))) }
    ensures failed { sink_failed sink.new ≡ is_err result }
{
    match write_tapes(tapes, sink) {
        Ok(()) => Ok(()),
        Err(_) => Err(Failed),
    }
}

impl NetworkRun<'_> {
    /// The text that is made of a group.
    fn text(&self, group: u16) -> Text
        requires text { IsText self.now.made }
        requires there { group < self.now.groups }
        ensures { (orders : List Order) (records : List Record)
            → octets_of_text result self.now.slots (orders_of_run orders records) records
            ≡ octets_of_group self.now.made self.now.slots self.now.groups group orders records }
    {
        match self.made {
            Product::Tapes => unreachable!(),
            Product::Report(layout) => Text::Report(layout, group == 0),
            Product::Chart(view) => Text::ChartPart(group, group + 1 == self.groups, view),
            Product::Orders(cell) => Text::Orders(cell),
            Product::Link(start) => Text::Link(start),
            Product::Loads(start) => Text::Loads(start, group == 0),
            Product::Tables(view) => Text::Tables(view, group == 0),
        }
    }

    /// The tapes of a group's cells.
    fn tapes_part<T: AllocGlobal + Threads + Wait + Sync>(
        &self,
        rt: &T,
        group: u16,
    ) -> Result<Part, RunFault>
        requires tapes { self.now.made ≡ Product.Tapes }
        requires there { group < self.now.groups }
        requires counted { AreGroupsOf self.now.network.now self.now.groups }
        requires read { IsRead self.now.network.now }
        ensures { IsMadeFor (runs_of self.now) group self.now.network.now result }
    {
        // A handset is shown what the book means, and each cell keeps the guarantee.
        book_runs::session_laws();
        bsc_table::legal_histories();
        let book = self.network.group(rt.alloc(), group)?;
        let tapes = tapes_by_one(rt, book, self.slots, self.sessions)?;
        Ok(Part::Tapes(tapes))
    }

    /// The text of a group's cells.
    fn text_part<T: AllocGlobal + Threads + Wait + Sync>(
        &self,
        rt: &T,
        group: u16,
    ) -> Result<Part, RunFault>
        requires text { IsText self.now.made }
        requires there { group < self.now.groups }
        requires counted { AreGroupsOf self.now.network.now self.now.groups }
        requires read { IsRead self.now.network.now }
        ensures { IsMadeFor (runs_of self.now) group self.now.network.now result }
    {
        book_runs::session_laws();
        bsc_table::legal_histories();
        let book = self.network.group(rt.alloc(), group)?;
        let text = self.text(group);
        let alone = Workers { number: 1 };
        let octets = text_of_book(rt, book, text, self.slots, self.sessions, alone, &Open)?;
        Ok(Part::Text(octets))
    }

    /// The part of a group.
    fn part<T: AllocGlobal + Threads + Wait + Sync>(
        &self,
        rt: &T,
        group: u16,
    ) -> Result<Part, RunFault>
        requires there { group < self.now.groups }
        requires counted { AreGroupsOf self.now.network.now self.now.groups }
        requires read { IsRead self.now.network.now }
        ensures { IsMadeFor (runs_of self.now) group self.now.network.now result }
    {
        match self.made {
            Product::Tapes => self.tapes_part(rt, group),
            Product::Report(_)
            | Product::Chart(_)
            | Product::Orders(_)
            | Product::Link(_)
            | Product::Loads(_)
            | Product::Tables(_) => self.text_part(rt, group),
        }
    }

    /// What comes of this many groups from the first on, which workers run side by side.
    fn parts_from<T: AllocGlobal + Threads + Wait + Sync>(
        &self,
        rt: &T,
        first: u16,
        count: u16,
        workers: Workers,
    ) -> Result<Vec<Result<Part, RunFault>>, AllocError>
        requires few { first + count ≤ self.now.groups }
        requires counted { AreGroupsOf self.now.network.now self.now.groups }
        requires read { IsRead self.now.network.now }
        ensures count { IfOk result (λ all. length all.items ≡ count) }
        ensures each { IfOk result (λ all. AreMadeFor (runs_of self.now) first self.now.network.now all.items) }
    {
        let runs = *self;
        let mut all = none_yet(rt.alloc(), count)?;
        thread::for_each_mut(
            rt,
            &mut all,
            workers.number as usize,
            &|place: usize, part: &mut Result<Part, RunFault>|
                requires there { first + place < runs.groups }
                requires counted { AreGroupsOf runs.network.now runs.groups }
                requires read { IsRead runs.network.now }
                ensures { IsMadeFor (runs_of runs.entry) (first + place) runs.entry.network.now part.new }
            {
                *part = runs.part(rt, first + place as u16);
            },
        );
        Ok(all)
    }

    /// Makes the parts of this many groups from the first on, and writes them.
    fn write_batch<T: AllocGlobal + Threads + Wait + Sync, W: Write>(
        &self,
        rt: &T,
        first: u16,
        count: u16,
        workers: Workers,
        sink: &mut Sink<W>,
    ) -> Result<(), ProductFault>
        requires as_many { count ≡ min (self.now.groups - first) (groups_together self.now.made workers.number) }
        requires some { 0 < count }
        requires few { first + count ≤ self.now.groups }
        requires counted { AreGroupsOf self.now.network.now self.now.groups }
        requires read { IsRead self.now.network.now }
        requires open { sink_failed sink.old ≡ false }
        ensures ok { OnOk result (WritesPartsOf (runs_of self.now) first count self.now.network.now
            (W.contents (writer_of sink.old)) (W.contents (writer_of sink.new))) }
        ensures err { IfErr result (StopsPartsOf (runs_of self.now) first count self.now.network.now
            (W.contents (writer_of sink.old)) (W.contents (writer_of sink.new))) }
        ensures open { OnOk result (sink_failed sink.new ≡ false) }
        ensures failed { IfErr result (λ fault. sink_failed sink.new ≡ is_of_writer fault) }
    {
        let Ok(all) = self.parts_from(rt, first, count, workers) else {
            return Err(ProductFault::Group {
                group: first,
                fault: RunFault::Refused,
            });
        };
        let mut group = first;
        for part in &all {
            write_one(part, group, sink)?;
            group += 1;
        }
        Ok(())
    }
}

/// Places for what comes of this many groups, of which nothing came yet.
fn none_yet(alloc: Global, count: u16) -> Result<Vec<Result<Part, RunFault>>, AllocError>
    ensures { IfOk result (λ all. length all.items ≡ count) }
{
    let mut all = Vec::with_capacity(alloc, usize::from(count))?;
    for _ in 0..count {
        all.push(Err(RunFault::Refused))?;
    }
    Ok(all)
}

/// How many groups are run before their parts are written: some for each worker, so that one whose groups are soon done
/// seldom waits for the others, but one for each of tapes, which take much memory.
fn groups_at_once(made: Product, workers: Workers) -> u16
    ensures { result ≡ groups_together made workers.number }
{
    let each = workers.number as u16;
    match made {
        Product::Tapes => each,
        Product::Report(_)
        | Product::Chart(_)
        | Product::Orders(_)
        | Product::Link(_)
        | Product::Loads(_)
        | Product::Tables(_) => 8 * each,
    }
}

/// Writes what came of a group.
fn write_one<W: Write>(
    part: &Result<Part, RunFault>,
    group: u16,
    sink: &mut Sink<W>,
) -> Result<(), ProductFault>
    requires some { IfOk part.now HasNoEmptyTape }
    requires open { sink_failed sink.old ≡ false }
    ensures ok { OnOk result (IsWritten part.now (W.contents (writer_of sink.old)) (W.contents (writer_of sink.new))) }
    ensures err { IfErr result (StopsAt part.now group (W.contents (writer_of sink.old))
        (W.contents (writer_of sink.new))) }
    ensures open { OnOk result (sink_failed sink.new ≡ false) }
    ensures failed { IfErr result (λ fault. sink_failed sink.new ≡ is_of_writer fault) }
{
    match part {
        Ok(part) => match part.write(sink) {
            Ok(()) => Ok(()),
            Err(Failed) => Err(ProductFault::WriteFailed),
        },
        Err(fault) => Err(ProductFault::Group {
            group,
            fault: *fault,
        }),
    }
}

/// Makes the parts of all groups, those of a few a worker at a time, and writes them.
pub(crate) fn write_groups<T: AllocGlobal + Threads + Wait + Sync, W: Write>(
    rt: &T,
    runs: &NetworkRun,
    workers: Workers,
    sink: &mut Sink<W>,
) -> Result<(), ProductFault>
    requires counted { AreGroupsOf runs.now.network.now runs.now.groups }
    requires read { IsRead runs.now.network.now }
    requires open { sink_failed sink.old ≡ false }
    ensures ok { OnOk result (WritesPartsOf (runs_of runs.now) 0 runs.now.groups runs.now.network.now
        (W.contents (writer_of sink.old)) (W.contents (writer_of sink.new))) }
    ensures err { IfErr result (StopsPartsOf (runs_of runs.now) 0 runs.now.groups runs.now.network.now
        (W.contents (writer_of sink.old)) (W.contents (writer_of sink.new))) }
    ensures open { OnOk result (sink_failed sink.new ≡ false) }
    ensures failed { IfErr result (λ fault. sink_failed sink.new ≡ is_of_writer fault) }
{
    let mut first = 0;
    while first < runs.groups {
        let count = (runs.groups - first).min(groups_at_once(runs.made, workers));
        runs.write_batch(rt, first, count, workers, sink)?;
        first += count;
    }
    Ok(())
}
