//! Workers that play the cells of a desk to the ends of their runs, side by side.

ghost use Rattle.std.specs.Prelude.{◌≡◌, ◌<◌, ◌≤◌, length, All, IfErr, IfOk};
ghost use Rattle.cbsp_wire.specs.Range.{max_listed};
ghost use Rattle.tickets.specs.Draws.{first_seat, IsSeatOf};
ghost use Rattle.warnc_run.specs.Faults.{IsOfRun};

use crate::fault::RunFault;
use crate::run::Workers;
use crate::sessions::{UserEnd, passes_or_fault};
use order_desk::{Desk, Gate, Pass};
use std::alloc::{AllocGlobal, Global};
use std::sync::Wait;
use std::thread;
use std::thread::Threads;
use tickets::{Counter, Seat};

/// A worker before its work: its pass, and its seat at the counter of the cells.
#[derive(Drop)]
struct Worker {
    seat: Seat,
    pass: Pass,
}

/// The players, their seats split from the first.
fn workers_at<T: AllocGlobal>(
    rt: &T,
    desk: &Desk,
    counter: &Counter,
    first: &mut Seat,
    workers: Workers,
) -> Result<Vec<Worker>, RunFault>
    requires first { first.old ≡ first_seat counter.now }
    ensures ok { IfOk result (λ players. All (λ player. IsSeatOf counter.now player.seat) players.items) }
    ensures err { IfErr result IsOfRun }
{
    let count = workers.number;
    let mut players = Vec::with_capacity(rt.alloc(), count as usize)?;
    for _ in 0..count {
        let seat = first.split(counter);
        let pass = desk.pass();
        players.push(Worker { seat, pass })?;
    }
    Ok(players)
}

/// Draws the places of cells until there are no more, and plays each cell to the end of its run. The pass has the notes
/// of it.
fn play_drawn<R: Wait, G: Gate>(
    rt: &R,
    alloc: Global,
    desk: &Desk,
    counter: &Counter,
    seat: Seat,
    pass: &mut Pass,
    gate: &G,
) -> Result<(), RunFault>
    requires seat { IsSeatOf counter.now seat }
    requires limit { counter.now.limit ≡ length desk.now.cells }
    ensures { IfErr result IsOfRun }
{
    let mut seat = seat;
    while let Some(place) = seat.draw(counter) {
        let cell = desk.cells()[place as usize];
        desk.play(rt, alloc, pass, cell, desk.slots(), gate)?;
    }
    Ok(())
}

/// The work of a worker.
fn work<T: AllocGlobal + Wait, G: Gate>(
    rt: &T,
    desk: &Desk,
    counter: &Counter,
    player: Worker,
    gate: &G,
) -> UserEnd
    requires seat { IsSeatOf counter.now player.seat }
    requires limit { counter.now.limit ≡ length desk.now.cells }
    ensures { IfErr result.done IsOfRun }
{
    let Worker { seat, mut pass } = player;
    let done = play_drawn(rt, rt.alloc(), desk, counter, seat, &mut pass, gate);
    UserEnd { pass, done }
}

/// Has workers play all cells of a desk to the ends of their runs, and returns their passes. What this leaves unplayed,
/// the settlement plays.
pub(crate) fn play_out<T: AllocGlobal + Threads + Wait + Sync, G: Gate>(
    rt: &T,
    desk: &Desk,
    workers: Workers,
    gate: &G,
) -> Result<Vec<Pass>, RunFault>
    requires cells { length desk.now.cells ≤ max_listed }
    ensures { IfErr result IsOfRun }
{
    let (counter, mut first) = Counter::new(rt.alloc(), desk.cells().len() as u64)?;
    let players = workers_at(rt, desk, &counter, &mut first, workers)?;
    let shared = &counter;
    let all = thread::map_vec(
        rt,
        players,
        &|player: Worker| -> UserEnd
            requires seat { IsSeatOf shared.now player.seat }
            requires limit { shared.now.limit ≡ length desk.now.cells }
            ensures { IfErr result.done IsOfRun }
        { work(rt, desk, shared, player, gate) },
    )?;
    passes_or_fault(rt, all)
}
