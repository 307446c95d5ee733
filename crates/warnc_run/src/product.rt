//! The engine of all commands over a book: which books are run, how, and what is made of them.

ghost use Rattle.std.specs.Prelude.{◌≡◌, IfErr};
ghost use Rattle.warnc_run.specs.Engine.{IsEngineAtEnds, IsMadeBy, IsOfPiece, IsOutputFault, IsProductOf, IsUnmadeBy};
ghost use Rattle.warnc_run.specs.Made.{IsMade, IsUnmade};
ghost use Rattle.warnc_run.specs.declared.product.ProductFault.TheVariants as faults;

use crate::fault::RunFault;
use crate::live::write_tapes_from;
use crate::network::write_network;
use crate::run::{Books, Run};
use crate::text::write_text_from;
use crate::watch::Watch;
use alert_book::Origin;
use cbsp_wire::Cell;
use chart::View;
use device_ends::{Sink, Source};
use gsmtap::Start;
use report::Layout;
use std::alloc::AllocGlobal;
use std::io::{Read, Write};
use std::sync::Wait;
use std::thread::Threads;
use thiserror::Error;

/// What is made of a run.
#[derive(Clone, Copy, Debug, PartialEq, Eq)]
pub enum Product {
    /// The tapes of its cells.
    Tapes,
    /// The report of what became of each order in each cell, laid out so, as CSV.
    Report(Layout),
    /// The chart of what is to be drawn of it, as a page in HTML.
    Chart(View),
    /// The orders file of one cell: what it was ordered and answered, as CSV. It is empty if the run has no such cell.
    Orders(Cell),
    /// The link between a broadcast centre and a base station controller, as a capture that begins at this time: each
    /// cell is ordered by itself what it was ordered in the run.
    Link(Start),
    /// The loads that its cells have reserved, as CSV, with times if slot 0 begins at this one.
    Loads(Option<slot_times::Start>),
    /// The full report, the loads, and the chart of what is to be drawn, each after a line with its name and its number
    /// of octets. Times are those of the chart.
    Tables(View),
}

/// Why nothing, or not all, is written.
#[derive(Clone, Copy, Debug, PartialEq, Eq, Error)]
pub enum ProductFault {
    /// There is no book, or its run ended early. Nothing is written, but with [`RunFault::Write`].
    #[error("{0}")]
    Run(RunFault),
    /// The run of a group's book ended early, or was out of memory. The parts of the groups before it are out.
    #[error("group {group}: {fault}")]
    Group {
        /// The number of the group, from 0.
        group: u16,
        /// Why its run ended.
        fault: RunFault,
    },
    /// The writer failed. A front of the text, or of the parts of a network's groups, was written.
    #[error("write failed")]
    WriteFailed,
}

impl From<RunFault> for ProductFault {
    ghost from_gives = { λ run fault. fault ≡ faults.Run run };

    fn from(fault: RunFault) -> ProductFault {
        ProductFault::Run(fault)
    }
}

/// Reads a book, or a network book, runs it, and writes what is to be made of the run. Nothing is written before all of
/// it is known, but of a network, whose groups are written in order, a few at a time.
///
/// The book's sessions order at a desk as [`live_stream`](crate::live_stream) says. What was written is what the octets
/// mean (`IsMadeBy`): the tapes of the cells; or the report of what became of each order, or the chart of it, by the
/// settled desk's records and by what handsets read of their tapes; or the orders file of a cell, the link, or the
/// loads, by these records; or the report, the loads and the chart. It does not depend on the number of workers.
/// `watch` is called while a cell is held, and told of each that is done, but not for the groups of a network.
///
/// # Errors
///
/// [`ProductFault::Run`] with the faults of [`live_stream`](crate::live_stream), and [`RunFault::NoGroup`]; a text has
/// no [`RunFault::Write`], and no tape of it is another record's. [`ProductFault::WriteFailed`] with a front of a text.
/// Of a network [`RunFault::Book`] with nothing written, [`ProductFault::Group`] with the first group that has no part,
/// after those before it are written, and `WriteFailed` with a front of the parts of the first groups. The fault of a
/// group is one that the run of its book by one worker has, or `Refused`.
pub fn run_product<T: AllocGlobal + Threads + Wait + Sync, R: Read, W: Write, G: Watch>(
    rt: &T,
    source: &mut Source<R>,
    sink: &mut Sink<W>,
    run: &Run,
    made: Product,
    watch: &G,
) -> Result<(), ProductFault>
    ensures ok { IsMade result R.remaining W.contents (IsMadeBy run.now made) source.old source.new sink.old sink.new }
    ensures err { IsUnmade result R.remaining W.contents (IsUnmadeBy run.now made) source.old source.new sink.old
        sink.new }

    // One worker sends no pages, so no tape of its is another record's.
    ensures no_piece { run.now.workers.number ≡ 1 → IfErr result (λ fault. IsOfPiece fault → ⊥) }

    // At any reader and any writer.
    ensures any_ends { IsEngineAtEnds result W.contents source.old source.new sink.old sink.new }
{
    match run.books {
        Books::EachGroup => write_network(rt, source, sink, run, made),
        Books::One(origin) => match made {
            Product::Tapes => write_tapes(rt, source, sink, origin, run, watch),
            Product::Report(_)
            | Product::Chart(_)
            | Product::Orders(_)
            | Product::Link(_)
            | Product::Loads(_)
            | Product::Tables(_) => write_text_from(rt, source, sink, origin, run, made, watch),
        },
    }
}

/// Writes the tapes of the run of a book, or of a group.
fn write_tapes<T: AllocGlobal + Threads + Wait + Sync, R: Read, W: Write, G: Watch>(
    rt: &T,
    source: &mut Source<R>,
    sink: &mut Sink<W>,
    origin: Origin,
    run: &Run,
    watch: &G,
) -> Result<(), ProductFault>
    ensures ok { IsMade result R.remaining W.contents (IsProductOf Product.Tapes (Books.One origin) run.now.slots
        run.now.sessions.number) source.old source.new sink.old sink.new }
    ensures err { IsUnmade result R.remaining W.contents (IsOutputFault Product.Tapes (Books.One origin) run.now.slots
        run.now.sessions.number) source.old source.new sink.old sink.new }
    ensures no_piece { run.now.workers.number ≡ 1 → IfErr result (λ fault. IsOfPiece fault → ⊥) }
    ensures any_ends { IsEngineAtEnds result W.contents source.old source.new sink.old sink.new }
{
    match write_tapes_from(
        rt,
        source,
        sink,
        origin,
        run.slots,
        run.sessions,
        run.workers,
        watch,
    ) {
        Ok(()) => Ok(()),
        Err(fault) => Err(ProductFault::Run(fault)),
    }
}
