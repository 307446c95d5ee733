//! Runs of books of which something is made only if every order was done.

ghost use Rattle.std.specs.Prelude.{◌≡◌, false, true, IfErr, IfOk, OnOk};
ghost use Rattle.std.specs.Io.KnownBytes.{Appends};
ghost use Rattle.asked_orders.specs.Asked.{orders_of_run};
ghost use Rattle.device_ends.specs.Sink.{sink_failed, writer_of};
ghost use Rattle.device_ends.specs.Stream.{IsStreamBetween};
ghost use Rattle.warnc_run.specs.Engine.{IsOfWriter};
ghost use Rattle.warnc_run.specs.Faults.{IsOfRun};
ghost use Rattle.warnc_run.specs.Made.{IsMade, IsUnmade};
ghost use Rattle.warnc_run.specs.Products.{octets_of};
ghost use Rattle.warnc_run.specs.RunSteps.{octets_of_text, IsSomeBook};
ghost use Rattle.warnc_run.specs.Strict.{strictly_unread, IsStrictlyMadeBy, IsStrictlyOfPiece, IsStrictlyOfWriter};
ghost use Rattle.warnc_run.specs.Strict.{IsStrictlyUnmadeBy};
ghost use Rattle.warnc_run.specs.StrictSteps.{AreDone, GiveTapes, IsNotDone, StopsAtProduct};
ghost use Rattle.warnc_run.specs.declared.product.ProductFault.TheVariants as product_faults;
ghost use Rattle.warnc_run.specs.declared.strict.StrictFault.TheVariants as faults;

use crate::apart::records_of_run;
use crate::book::book_from;
use crate::fault::RunFault;
use crate::finish::write_tapes_of;
use crate::product::{Product, ProductFault};
use crate::run::{BookRun, Workers};
use crate::text::{Text, orders_for, text_of_product, text_of_records};
use crate::watch::Watch;
use alert_book::Book;
use asked_orders::lacks_of;
use bsc_table::CellRecord;
use device_ends::{Failed, Sink, Source, write_all};
use std::alloc::AllocGlobal;
use std::io::{Read, Write};
use std::sync::Wait;
use std::thread::Threads;
use thiserror::Error;

/// Why nothing, or not all, is written of a run whose orders are all to be done.
#[derive(Clone, Copy, Debug, PartialEq, Eq, Error)]
pub enum StrictFault {
    /// As without that wish ([`run_product`](crate::run_product)).
    #[error("{0}")]
    Product(ProductFault),
    /// Some orders weren't done. Nothing is written.
    #[error("refused: {refused}, doing nothing: {idle}")]
    Undone {
        /// How many orders a cell at least refused.
        refused: usize,
        /// How many orders asked no cell: updates and stops of alerts of which no version is live in any of the cells
        /// that they name.
        idle: usize,
    },
}

impl From<ProductFault> for StrictFault {
    ghost from_gives = { λ product fault. fault ≡ faults.Product product };

    fn from(fault: ProductFault) -> StrictFault {
        StrictFault::Product(fault)
    }
}

impl From<RunFault> for StrictFault {
    ghost from_gives = { λ run fault. fault ≡ faults.Product (product_faults.Run run) };

    fn from(fault: RunFault) -> StrictFault {
        StrictFault::Product(ProductFault::Run(fault))
    }
}

/// Reads a book, or a network book and in it the book of a group, runs it, and writes what is to be made of the run if
/// every order was done: no cell refused one, and each asked some cell. Else nothing is written.
///
/// What is judged is the run of which it is written, and which [`run_product`](crate::run_product) has, too. `watch` is
/// called while a cell is held, and told of each that is done.
///
/// # Errors
///
/// [`StrictFault::Undone`] with how many orders weren't done, and nothing written. Else the faults of
/// [`run_product`](crate::run_product) for one book; no tape is another record's.
pub fn run_strictly<T: AllocGlobal + Threads + Wait + Sync, R: Read, W: Write, G: Watch>(
    rt: &T,
    source: &mut Source<R>,
    sink: &mut Sink<W>,
    run: &BookRun,
    made: Product,
    watch: &G,
) -> Result<(), StrictFault>
    ensures ok { IsMade result R.remaining W.contents (IsStrictlyMadeBy run.now made) source.old source.new sink.old
        sink.new }
    ensures err { IsUnmade result R.remaining W.contents (IsStrictlyUnmadeBy run.now made) source.old source.new
        sink.old sink.new }
    ensures no_piece { IfErr result (λ fault. IsStrictlyOfPiece fault → ⊥) }

    // At any reader and any writer.
    ensures any_ends { IsStreamBetween strictly_unread IsStrictlyOfWriter result W.contents source.old source.new
        sink.old sink.new }
{
    // A handset is shown what the book means, whatever the cells answered, and each cell keeps the guarantee; and no
    // book has over 64 cells.
    book_runs::session_laws();
    bsc_table::legal_histories();
    alert_book::book_laws();
    let book = book_from(rt, source, run.origin)?;
    let records = records_done(rt, &book, run, watch)?;
    write_product(rt, &book, &records, sink, run, made, watch)?;
    Ok(())
}

/// Runs the sessions of a book's parts, and returns the records of its cells if every order was done.
fn records_done<T: AllocGlobal + Threads + Wait + Sync, G: Watch>(
    rt: &T,
    book: &Book,
    run: &BookRun,
    watch: &G,
) -> Result<Vec<CellRecord>, StrictFault>
    requires book { IsSomeBook book.now }
    ensures ok { IfOk result (λ records. AreDone book.now run.now.slots run.now.sessions.number records.items) }
    ensures err { IfErr result (IsNotDone book.now run.now.slots run.now.sessions.number) }
{
    let records = records_of_run(rt, book, run.slots, run.sessions, run.workers, watch)?;
    let Ok(lacks) = lacks_of(rt.alloc(), book.given(), &records) else {
        return Err(StrictFault::Product(ProductFault::Run(RunFault::Refused)));
    };
    if !lacks.is_none() {
        return Err(StrictFault::Undone {
            refused: lacks.refused,
            idle: lacks.idle,
        });
    }
    Ok(records)
}

/// Writes what is to be made of the records of a book's run.
fn write_product<T: AllocGlobal + Threads + Wait + Sync, W: Write, G: Watch>(
    rt: &T,
    book: &Book,
    records: &[CellRecord],
    sink: &mut Sink<W>,
    run: &BookRun,
    made: Product,
    watch: &G,
) -> Result<(), ProductFault>
    requires tapes { GiveTapes run.now.slots records.now }
    ensures ok { OnOk result (Appends (W.contents (writer_of sink.old)) (W.contents (writer_of sink.new))
        (octets_of made run.now.origin run.now.slots book.now.orders records.now)) }
    ensures err { IfErr result (StopsAtProduct made run.now.origin run.now.slots book.now.orders records.now
        (W.contents (writer_of sink.old)) (W.contents (writer_of sink.new))) }
    ensures not_failed { OnOk result (sink_failed sink.new ≡ false) }
    ensures untouched { IfErr result (λ fault. (IsOfWriter fault → ⊥) → sink.new ≡ sink.old) }
    ensures write { IfErr result (λ fault. IsOfWriter fault → sink_failed sink.new ≡ true) }
    ensures stays { sink_failed sink.old ≡ true → sink.new ≡ sink.old }
{
    match made {
        Product::Tapes => {
            write_tapes_of(rt.alloc(), records, sink, watch)?;
            Ok(())
        }
        Product::Report(_)
        | Product::Chart(_)
        | Product::Orders(_)
        | Product::Link(_)
        | Product::Loads(_)
        | Product::Tables(_) => {
            let text = text_of_product(made, run.origin);
            let octets = text_of(rt, book, records, text, run.slots, run.workers, watch)?;
            match write_all(sink, &octets) {
                Ok(()) => Ok(()),
                Err(Failed) => Err(ProductFault::WriteFailed),
            }
        }
    }
}

/// The text of the records of a book's run.
fn text_of<T: AllocGlobal + Threads + Wait + Sync, G: Watch>(
    rt: &T,
    book: &Book,
    records: &[CellRecord],
    text: Text,
    slots: u16,
    workers: Workers,
    watch: &G,
) -> Result<Vec<u8>, RunFault>
    requires tapes { GiveTapes slots records.now }
    ensures ok { IfOk result (λ octets. octets.items
        ≡ octets_of_text text slots (orders_of_run book.now.orders records.now) records.now) }
    ensures err { IfErr result IsOfRun }
{
    let orders = orders_for(rt.alloc(), text, book.given(), records)?;
    let octets = text_of_records(rt, &orders, records, text, slots, workers, watch)?;
    Ok(octets)
}
