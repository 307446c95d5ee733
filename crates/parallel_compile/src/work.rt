//! What a worker does: it draws the numbers of records, and makes their tapes.

ghost use Rattle.std.specs.Prelude.{◌≡◌, ◌+◌, ◌≤◌, ◌<◌, All, IfErr, IfOk, length, [], true};
ghost use Rattle.cbsp_wire.specs.Range.{max_listed};
ghost use Rattle.tickets.specs.Draws.{AreSame, IsSeatOf, first_seat, new_seat, numbers_below, all_parts};
ghost use Rattle.parallel_compile.specs.declared.fault.CompileFault.TheVariants as faults;
ghost use Rattle.parallel_compile.specs.Gathered.{piece_numbers};
ghost use Rattle.parallel_compile.specs.Workers.{IsDone, IsPieceOfRecord, IsSplit, max_workers};

use crate::fault::CompileFault;
use bsc_table::CellRecord;
use cbch_blocks::{Tape, tape_of};
use order_desk::Gate;
use std::alloc::Global;
use std::thread;
use std::thread::Threads;
use tickets::{Counter, Seat};

/// What a worker has done: the pieces that it made, in the order in which it drew their numbers, and its seat.
#[derive(Drop)]
pub(crate) struct Work {
    seat: Seat,
    pieces: Vec<(u64, Tape)>,
}

/// A seat for each worker, split from the first.
pub(crate) fn seats_of(
    alloc: Global,
    counter: &Counter,
    first: &mut Seat,
    workers: u64,
) -> Result<Vec<Seat>, CompileFault>
    requires first { first.old ≡ first_seat counter.now }
    requires few { workers ≤ max_workers }
    ensures ok { IfOk result (λ seats. (length seats.items ≡ workers)
        × All (λ seat. seat ≡ new_seat (first_seat counter.now)) seats.items) }
    ensures first { IfOk result (λ _. IsSplit counter.now workers first.new) }
    ensures err { IfErr result (λ fault. fault ≡ faults.Refused) }
{
    let mut seats = Vec::with_capacity(alloc, workers as usize)?;
    for _ in 0..workers {
        seats.push(first.split(counter))?;
    }
    Ok(seats)
}

/// Draws numbers of records until there are no more, and makes the tape of each.
fn draw_all<G: Gate>(
    alloc: Global,
    counter: &Counter,
    seat: Seat,
    records: &[CellRecord],
    gate: &G,
) -> Result<Work, CompileFault>
    requires seat { seat ≡ new_seat (first_seat counter.now) }
    requires limit { counter.now.limit ≡ length records.now }
    requires few { length records.now ≤ max_listed }
    ensures ok { IfOk result (λ work. IsDone counter.now records.now 1 true work.seat work.pieces.items) }
    ensures err { IfErr result (λ fault. fault ≡ faults.Refused) }
{
    let mut seat = seat;
    let mut pieces = Vec::new(alloc);
    while let Some(index) = seat.draw(counter) {
        // The index is below 64.
        gate.inside(index as u16);
        let tape = tape_of(alloc, &records[index as usize])?;
        pieces.push((index, tape))?;
    }
    Ok(Work { seat, pieces })
}

/// Takes in what the workers have done. `records` is what its contract speaks of.
fn joined(
    alloc: Global,
    counter: &Counter,
    first: Seat,
    records: &[CellRecord],
    works: Vec<Result<Work, CompileFault>>,
) -> Result<Work, CompileFault>
    requires first { IsSplit counter.now (length works.items) first }
    requires some { 0 < length works.items }
    requires works { All (λ work.
        IfOk work (λ w. IsDone counter.now records.now 1 true w.seat w.pieces.items)
        × IfErr work (λ fault. fault ≡ faults.Refused)) works.items }
    ensures ok { IfOk result (λ work. IsDone counter.now records.now all_parts true work.seat work.pieces.items) }
    ensures err { IfErr result (λ fault. fault ≡ faults.Refused) }
{
    let mut seat = first;
    let mut pieces = Vec::new(alloc);
    for work in works {
        let Work {
            seat: other,
            pieces: mut more,
        } = match work {
            Ok(work) => work,
            Err(fault) => return Err(fault),
        };
        seat.join(other, counter);
        pieces.append(&mut more)?;
    }
    Ok(Work { seat, pieces })
}

/// The pieces of all records, in whatever order, by this many workers.
pub(crate) fn pieces_of<R: Threads + Sync, G: Gate>(
    rt: &R,
    alloc: Global,
    records: &[CellRecord],
    workers: u64,
    gate: &G,
) -> Result<Vec<(u64, Tape)>, CompileFault>
    requires records { length records.now ≤ max_listed }
    requires some { 0 < workers }
    requires few { workers ≤ max_workers }
    ensures numbers { IfOk result (λ made. AreSame (piece_numbers made.items) (numbers_below (length records.now))) }
    ensures tapes { IfOk result (λ pieces. All (IsPieceOfRecord records.now) pieces.items) }
    ensures err { IfErr result (λ fault. fault ≡ faults.Refused) }
{
    let (counter, mut first) = Counter::new(alloc, records.len() as u64)?;
    let seats = seats_of(alloc, &counter, &mut first, workers)?;
    let shared = &counter;
    let works = thread::map_vec(
        rt,
        seats,
        &|seat: Seat| -> Result<Work, CompileFault>
            requires seat { seat ≡ new_seat (first_seat shared.now) }
            requires limit { shared.now.limit ≡ length records.now }
            requires few { length records.now ≤ max_listed }
            ensures ok { IfOk result (λ work.
                IsDone shared.entry.now records.entry.now 1 true work.seat work.pieces.items) }
            ensures err { IfErr result (λ fault. fault ≡ faults.Refused) }
        { draw_all(alloc, shared, seat, records, gate) },
    )?;
    let Work { seat, pieces } = joined(alloc, &counter, first, records, works)?;
    // The joined seat has every part of the counter, and was told that there are no more numbers: it has them all.
    counter.close(seat);
    Ok(pieces)
}
