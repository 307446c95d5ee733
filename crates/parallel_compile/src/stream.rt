//! The tapes of the cells of an open desk, by workers that play the cells out.

ghost use Rattle.std.specs.Prelude.{◌≡◌, ◌↔◌, ◌<◌, ◌≤◌, All, IfErr, IfOk, IsErrOf, List, length, vec_len};
ghost use Rattle.tickets.specs.Draws.{IsSeatOf};
ghost use Rattle.parallel_compile.specs.declared.board.Numbered.{Numbered};
ghost use Rattle.parallel_compile.specs.declared.fault.CompileFault.TheVariants as faults;
ghost use Rattle.parallel_compile.specs.StreamSteps.{AreFillings, HaveCome};
ghost use Rattle.parallel_compile.specs.Streamed.{AreTapesFor, IsOfStream};
ghost use Rattle.parallel_compile.specs.Workers.{max_workers};

use crate::board::{Board, Numbered};
use crate::compile::MAX_WORKERS;
use crate::fault::CompileFault;
use crate::player::{Ended, work, work_alone};
use crate::work::seats_of;
use cbch_blocks::Tape;
use crossbeam_channel::{Receiver, Sender, bounded};
use order_desk::{Desk, Gate, Pass};
use std::alloc::Global;
use std::sync::Wait;
use std::thread;
use std::thread::{JoinHandle, Scope, Threads};
use tickets::{Counter, Seat};

/// Starts a worker for each seat, with an end of the channel to send to. If one can't be started, the error has those
/// that were.
fn start<'s, E, R: Threads + Wait + Sync, G: Gate>(
    scope: &Scope<'s, E>,
    rt: &'s R,
    alloc: Global,
    desk: &'s Desk,
    counter: &'s Counter,
    mut seats: Vec<Seat>,
    gate: &'s G,
    to: &Sender<Vec<Numbered>>,
) -> Result<Vec<JoinHandle<Ended>>, Vec<JoinHandle<Ended>>>
    requires seats { All (IsSeatOf counter.now) seats.items }
    requires limit { counter.now.limit ≡ length desk.now.cells }
    ensures { IfOk result (λ handles. vec_len handles ≡ vec_len seats) }
{
    let Ok(mut handles) = Vec::with_capacity(alloc, seats.len()) else {
        return Err(Vec::new(alloc));
    };
    while let Some(seat) = seats.pop() {
        let Ok(end) = to.clone() else {
            return Err(handles);
        };
        let worker = scope.spawn(
            move || -> Ended
                requires seat { IsSeatOf counter.now seat }
                requires limit { counter.now.limit ≡ length desk.now.cells }
            { work(rt, alloc, desk, counter, seat, gate, end) },
        );
        match worker {
            Ok(handle) => handles.push_reserved(handle),
            Err(_) => return Err(handles),
        }
    }
    Ok(handles)
}

/// Puts the pieces that come on the board, until nobody can send any more. Drops the receiver.
fn collect<R: Wait>(rt: &R, desk: &Desk, mut board: Board, from: Receiver<Vec<Numbered>>) -> Board
    requires { AreFillings desk.now board.fillings.items }
    ensures stays { AreFillings desk.now result.fillings.items }
    ensures came { (pieces : List Numbered) × HaveCome desk.now pieces board result }
{
    for _ in rt.forever() {
        let Ok(pieces) = from.recv(rt) else {
            break;
        };
        board.put_all(desk, &pieces);
    }
    board
}

/// The passes of workers, once all have ended.
fn passes_of<R: Threads + Wait>(
    rt: &R,
    alloc: Global,
    handles: Vec<JoinHandle<Ended>>,
) -> Result<Vec<Pass>, CompileFault>
    ensures ok { IfOk result (λ passes. vec_len passes ≡ vec_len handles) }
    ensures err { IfErr result (λ fault. fault ≡ faults.Refused) }
{
    let mut passes = Vec::with_capacity(alloc, handles.len())?;
    let mut refused = false;
    for handle in handles {
        let ended = handle.join(rt);
        refused = refused || ended.refused;
        passes.push(ended.pass)?;
    }
    if refused {
        return Err(CompileFault::Refused);
    }
    Ok(passes)
}

/// Has a worker for each seat play the cells and send their pieces, which the calling thread puts on the board.
fn stream_by_all<R: Threads + Wait + Sync, G: Gate>(
    rt: &R,
    alloc: Global,
    desk: &Desk,
    counter: &Counter,
    seats: Vec<Seat>,
    board: Board,
    gate: &G,
) -> Result<(Board, Vec<Pass>), CompileFault>
    requires seats { All (IsSeatOf counter.now) seats.items }
    requires limit { counter.now.limit ≡ length desk.now.cells }
    requires board { AreFillings desk.now board.fillings.items }
    ensures board { IfOk result (λ r. AreFillings desk.now r.0.fillings.items) }
    ensures passes { IfOk result (λ r. vec_len r.1 ≡ vec_len seats) }
    ensures err { IfErr result (λ fault. fault ≡ faults.Refused) }
{
    let (to, from) = bounded(alloc, seats.len())?;
    thread::scope(
        thread::scope_env(),
        rt,
        |scope| -> Result<(Board, Vec<Pass>), CompileFault>
            requires seats { All (IsSeatOf counter.now) seats.items }
            requires limit { counter.now.limit ≡ length desk.now.cells }
            requires board { AreFillings desk.now board.fillings.items }
            ensures board { IfOk result (λ r. AreFillings desk.entry.now r.0.fillings.items) }
            ensures passes { IfOk result (λ r. vec_len r.1 ≡ vec_len seats) }
            ensures err { IfErr result (λ fault. fault ≡ faults.Refused) }
        {
            let started = start(scope, rt, alloc, desk, counter, seats, gate, &to);
            // The workers have ends of their own: nobody else sends.
            drop(to);
            match started {
                Ok(handles) => {
                    let board = collect(rt, desk, board, from);
                    let passes = passes_of(rt, alloc, handles)?;
                    Ok((board, passes))
                }
                Err(handles) => {
                    // A worker that waits to send is told that nobody receives.
                    drop(from);
                    let _ = passes_of(rt, alloc, handles);
                    Err(CompileFault::Refused)
                }
            }
        },
    )
}

/// Has one worker, in the calling thread, play the cells and put their pieces on the board.
fn stream_by_one<R: Wait, G: Gate>(
    rt: &R,
    alloc: Global,
    desk: &Desk,
    mut board: Board,
    gate: &G,
) -> Result<(Board, Vec<Pass>), CompileFault>
    requires { AreFillings desk.now board.fillings.items }
    ensures board { IfOk result (λ r. AreFillings desk.now r.0.fillings.items) }
    ensures passes { IfOk result (λ r. vec_len r.1 ≡ 1) }
    ensures err { IfErr result (λ fault. fault ≡ faults.Refused) }
{
    let mut passes = Vec::with_capacity(alloc, 1)?;
    let ended = work_alone(rt, alloc, desk, gate, &mut board);
    if ended.refused {
        return Err(CompileFault::Refused);
    }
    passes.push(ended.pass)?;
    Ok((board, passes))
}

/// Has this many workers play the cells, and puts their pieces on the board.
fn stream<R: Threads + Wait + Sync, G: Gate>(
    rt: &R,
    alloc: Global,
    desk: &Desk,
    workers: u64,
    board: Board,
    gate: &G,
) -> Result<(Board, Vec<Pass>), CompileFault>
    requires few { workers ≤ max_workers }
    requires board { AreFillings desk.now board.fillings.items }
    ensures board { IfOk result (λ r. AreFillings desk.now r.0.fillings.items) }
    ensures passes { IfOk result (λ r. vec_len r.1 ≡ workers) }
    ensures err { IfErr result (λ fault. fault ≡ faults.Refused) }
{
    if workers == 1 {
        return stream_by_one(rt, alloc, desk, board, gate);
    }
    let (counter, mut first) = Counter::new(alloc, desk.cells().len() as u64)?;
    let seats = seats_of(alloc, &counter, &mut first, workers)?;
    stream_by_all(rt, alloc, desk, &counter, seats, board, gate)
}

/// Plays the cells of a desk to the ends of their runs, by `workers` workers, 1 to 64. Returns the tapes of what the
/// cells aired, in their order, and the workers' passes. The workers take pieces of up to 64 slots, and the calling
/// thread puts these together; if there is one worker, it is the calling thread. No contract says that the tapes are
/// those of the cells' records: [`check_streamed`](crate::check_streamed) compares them once the desk is settled.
/// `gate` is called with a cell's place while its lock is held. After a fault the cells stay as far as they were
/// played, and the passes are gone.
///
/// # Errors
///
/// Returns [`CompileFault::Workers`] exactly if there are no workers or over 64; else [`CompileFault::Refused`] if out
/// of memory, or if a thread can't be made, after all workers have ended; else [`CompileFault::Piece`] if a piece of a
/// cell is missing, or came twice, or was none of its run. No contract says which pieces come through the channel, so
/// none says which number the fault has.
pub fn stream_all<R: Threads + Wait + Sync, G: Gate>(
    rt: &R,
    alloc: Global,
    desk: &Desk,
    workers: u64,
    gate: &G,
) -> Result<(Vec<Tape>, Vec<Pass>), CompileFault>
    ensures tapes { IfOk result (λ streamed. AreTapesFor desk.now streamed.0.items) }
    ensures passes { IfOk result (λ streamed. vec_len streamed.1 ≡ workers) }
    ensures workers { IsErrOf result faults.Workers ↔ ((0 < workers) × (workers ≤ max_workers) → ⊥) }
    ensures err { IfErr result (IsOfStream workers) }
{
    if workers == 0 || workers > MAX_WORKERS {
        return Err(CompileFault::Workers);
    }
    let board = Board::open(alloc, desk)?;
    let (board, passes) = stream(rt, alloc, desk, workers, board, gate)?;
    let tapes = board.tapes(alloc, desk)?;
    Ok((tapes, passes))
}
