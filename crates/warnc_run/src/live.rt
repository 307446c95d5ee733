//! The engines whose tapes a contract of its own describes: a book of alerts, whose parts are ordered side by side, to
//! the tapes of its cells.

ghost use Rattle.std.specs.Prelude.{◌≡◌, ◌↔◌, ◌<◌, ◌≤◌, IfErr, IsErrOf, OnOk};
ghost use Rattle.device_ends.specs.Stream.{Between, FaultBetween};
ghost use Rattle.parallel_compile.specs.declared.fault.CompileFault.TheVariants as compile;
ghost use Rattle.warnc_run.specs.Faults.{AreWorkers, IsCompileRunFault, IsLiveFault, IsOfProduct, IsPieceFault};
ghost use Rattle.warnc_run.specs.Faults.{IsRunAtEnds, IsRunFault};
ghost use Rattle.warnc_run.specs.Made.{IsMade, IsUnmade, Makes};
ghost use Rattle.warnc_run.specs.Products.{IsCompiled, IsLive, IsLiveFrom};
ghost use Rattle.warnc_run.specs.declared.fault.RunFault.TheVariants as faults;
ghost use Rattle.warnc_run.specs.declared.product.Product.TheVariants as product;
ghost use Rattle.warnc_run.specs.Faults.{max_sessions};

use crate::book::book_from;
use crate::fault::RunFault;
use crate::output::write_run;
use crate::run::{Sessions, Workers};
use crate::watch::{GateAlone, Watch};
use alert_book::Origin;
use device_ends::{Sink, Source};
use order_desk::{Gate, Open};
use parallel_compile::CompileFault;
use std::alloc::AllocGlobal;
use std::io::{Read, Write};
use std::sync::Wait;
use std::thread::Threads;

/// Reads a book, and has the cells of a desk carry out what its one session orders, in runs of `slots` slots, as
/// [`live_stream`] does with one session: `workers` workers, 1 to 64, play the cells.
///
/// What was written is what the book means (`IsCompiled`): there is one session, whose messages are those of the book's
/// rows by the replies that it gets; each cell's log has what the messages order of it, in order, once each and nothing
/// else, each at the least slot that is neither before its message's nor before the entry before it; and all else is as
/// for several sessions.
///
/// # Errors
///
/// Returns the faults of [`live_stream`].
pub fn compile_stream<T: AllocGlobal + Threads + Wait + Sync, R: Read, W: Write>(
    rt: &T,
    source: &mut Source<R>,
    sink: &mut Sink<W>,
    slots: u16,
    workers: u64,
) -> Result<(), RunFault>
    ensures ok { OnOk result (Between R.remaining W.contents (Makes (IsCompiled slots)) source.old source.new sink.old
        sink.new) }
    ensures err { IfErr result (FaultBetween R.remaining W.contents (IsCompileRunFault slots) source.old source.new
        sink.old sink.new) }

    // The number of workers is judged first, and nothing is done if it is wrong.
    ensures workers { IsErrOf result (faults.Compile compile.Workers) ↔ (AreWorkers workers → ⊥) }
    ensures untried { IsErrOf result (faults.Compile compile.Workers)
        → (source.new ≡ source.old) × (sink.new ≡ sink.old) }

    // One worker sends no pages, so no tape of its is another record's.
    ensures no_piece { workers ≡ 1 → IfErr result (λ fault. IsPieceFault fault → ⊥) }

    // At any reader and any writer.
    ensures any_ends { AreWorkers workers
        → IsRunAtEnds result W.contents source.old source.new sink.old sink.new }
{
    live_stream(rt, source, sink, slots, 1, workers, &Open)
}

/// Reads a book, and has the cells of a desk carry out what the sessions of its parts order, in runs of `slots` slots:
/// there are `sessions` of them, 1 to 64, each in a thread of its own with a pass of its own. Once they have ended,
/// `workers` workers, 1 to 64, each with a pass of its own, play the cells to the ends of their runs. Several hand on
/// their pages as they are played; the tapes are put together from them while the desk is open. Then the desk is
/// settled with all passes, and the tapes are compared with the records of the cells; one worker makes them of these
/// records. They are written in the order of the book, and nothing is written before. `gate` is called while a cell is
/// held. Of one session several workers run the cells apart, each with a desk for some of them.
///
/// What was written is what the book means (`IsLive`): there is a session for each part, whose messages are those of
/// the part's rows by the replies that it gets; each cell's log has what the sessions order of it, each session's in
/// its order, once each and nothing else, each at the least slot that is neither before its message's nor before the
/// entry before it; each answer is the one that the cell's log and air give; and a handset that reads the cell's tape
/// is shown exactly the texts of the orders that the cell accepted and of which a broadcast is whole, once each, with
/// their identifiers and serial numbers. Each completed number and each reported one is that of the whole broadcasts in
/// the blocks. All this is so whichever session came first, and does not depend on the number of workers.
///
/// # Errors
///
/// Returns the book's fault, the desk's, the settlement's, the workers' or [`RunFault::Refused`] with nothing written,
/// and [`RunFault::Write`] with some tapes written whole, and of the one under way as many octets as it names. What a
/// lock of the desk holds is known by its type alone, and what a worker sends by the type of its messages, so no
/// contract excludes [`RunFault::Desk`] with `Unknown`, [`RunFault::Settle`], and of several workers
/// [`CompileFault::Piece`] for a tape that isn't its record's; the desk refuses no order for what it says. With no
/// workers or over 64 it returns [`RunFault::Compile`] with [`CompileFault::Workers`], before anything is read. Of
/// sessions that met a fault of the desk, the least one's is returned, unless out of memory.
pub fn live_stream<T: AllocGlobal + Threads + Wait + Sync, R: Read, W: Write, G: Gate>(
    rt: &T,
    source: &mut Source<R>,
    sink: &mut Sink<W>,
    slots: u16,
    sessions: u16,
    workers: u64,
    gate: &G,
) -> Result<(), RunFault>
    requires some { 0 < sessions }
    requires few { sessions ≤ max_sessions }
    ensures ok { OnOk result (Between R.remaining W.contents (Makes (IsLive slots sessions)) source.old source.new
        sink.old sink.new) }
    ensures err { IfErr result (FaultBetween R.remaining W.contents (IsLiveFault slots sessions) source.old source.new
        sink.old sink.new) }

    // The number of workers is judged first, and nothing is done if it is wrong.
    ensures workers { IsErrOf result (faults.Compile compile.Workers) ↔ (AreWorkers workers → ⊥) }
    ensures untried { IsErrOf result (faults.Compile compile.Workers)
        → (source.new ≡ source.old) × (sink.new ≡ sink.old) }

    // One worker sends no pages, so no tape of its is another record's.
    ensures no_piece { workers ≡ 1 → IfErr result (λ fault. IsPieceFault fault → ⊥) }

    // At any reader and any writer.
    ensures any_ends { AreWorkers workers
        → IsRunAtEnds result W.contents source.old source.new sink.old sink.new }
{
    let Some(workers) = Workers::new(workers) else {
        return Err(RunFault::Compile(CompileFault::Workers));
    };
    let sessions = Sessions { number: sessions };
    write_tapes_from(
        rt,
        source,
        sink,
        Origin::Book,
        slots,
        sessions,
        workers,
        &GateAlone { gate },
    )
}

/// Does for the book that it reads, or for the book of a group of the network book, what [`live_stream`] does for a
/// book.
///
/// # Errors
///
/// Returns the faults of [`live_stream`], and [`RunFault::NoGroup`] with nothing written.
pub(crate) fn write_tapes_from<T: AllocGlobal + Threads + Wait + Sync, R: Read, W: Write, G: Watch>(
    rt: &T,
    source: &mut Source<R>,
    sink: &mut Sink<W>,
    origin: Origin,
    slots: u16,
    sessions: Sessions,
    workers: Workers,
    watch: &G,
) -> Result<(), RunFault>
    ensures ok { IsMade result R.remaining W.contents (IsLiveFrom origin slots sessions.number) source.old source.new
        sink.old sink.new }
    ensures err { IsUnmade result R.remaining W.contents (IsRunFault origin slots sessions.number
        (IsLiveFrom origin slots sessions.number)) source.old source.new sink.old sink.new }
    ensures of_tapes { IfErr result (λ fault. IsOfProduct fault product.Tapes) }
    ensures no_piece { workers.number ≡ 1 → IfErr result (λ fault. IsPieceFault fault → ⊥) }
    ensures any_ends { IsRunAtEnds result W.contents source.old source.new sink.old sink.new }
{
    // A handset is shown what the book means, whatever the cells answered, and whichever session came first; and each
    // cell keeps the guarantee.
    book_runs::session_laws();
    bsc_table::legal_histories();
    let book = book_from(rt, source, origin)?;
    write_run(rt, book, sink, slots, sessions, workers, watch)?;
    Ok(())
}
