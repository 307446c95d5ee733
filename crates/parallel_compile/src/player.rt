//! What a worker of a stream does: it plays the cells whose numbers it draws, and hands on what they aired in pieces.

ghost use Rattle.std.specs.Prelude.{◌≡◌, ◌<◌, IfOk, List, length};
ghost use Rattle.tickets.specs.Draws.{IsSeatOf};
ghost use Rattle.parallel_compile.specs.declared.board.Numbered.{Numbered};
ghost use Rattle.parallel_compile.specs.StreamSteps.{AreFillings, HaveCome};

use crate::board::{Board, Numbered};
use crate::filling::PIECE;
use crossbeam_channel::{SendError, Sender};
use order_desk::{Desk, DeskFault, Gate, Pass};
use std::alloc::{AllocError, AllocFailed, Global};
use std::sync::Wait;
use tickets::{Counter, Seat};

/// How many pieces a worker plays and hands on at a time, unless the run ends in them. What is sent wakes the thread
/// that receives, which takes longer than to play an idle piece.
const TOGETHER: usize = 16;

/// A worker that has ended: its pass, and whether it ran out of memory.
#[derive(Drop)]
pub(crate) struct Ended {
    pub(crate) pass: Pass,
    pub(crate) refused: bool,
}

/// Why a worker ends before all numbers are drawn.
#[derive(Clone, Copy, Debug, PartialEq, Eq)]
enum PlayerStop {
    /// Out of memory.
    Refused,
    /// Nobody receives any more, or the desk gives no piece. The collector finds which pieces are missing.
    Left,
}

impl From<DeskFault> for PlayerStop {
    fn from(fault: DeskFault) -> PlayerStop {
        match fault {
            DeskFault::Memory { .. } => PlayerStop::Refused,
            _ => PlayerStop::Left,
        }
    }
}

impl From<AllocError> for PlayerStop {
    fn from(_error: AllocError) -> PlayerStop {
        PlayerStop::Refused
    }
}

impl<T: Drop> From<AllocFailed<T>> for PlayerStop {
    fn from(_error: AllocFailed<T>) -> PlayerStop {
        PlayerStop::Refused
    }
}

impl From<SendError<Vec<Numbered>>> for PlayerStop {
    fn from(error: SendError<Vec<Numbered>>) -> PlayerStop {
        match error {
            SendError::OutOfMemory(_) => PlayerStop::Refused,
            SendError::Disconnected(_) => PlayerStop::Left,
        }
    }
}

/// Plays the next slots of a cell, and takes what they aired: a piece once its slots are played, and so on until there
/// are enough, or the run ends. `from` goes from the first of these slots to the one after them.
fn play_on<R: Wait, G: Gate>(
    rt: &R,
    alloc: Global,
    desk: &Desk,
    pass: &mut Pass,
    number: u64,
    from: &mut u16,
    gate: &G,
) -> Result<Vec<Numbered>, PlayerStop>
    requires { number < length desk.now.cells }
    ensures { IfOk result (λ _. from.old < desk.now.slots → from.old < from.new) }
{
    let cell = desk.cells()[number as usize];
    let slots = desk.slots();
    let mut pieces = Vec::with_capacity(alloc, TOGETHER)?;
    while *from < slots && pieces.len() < TOGETHER {
        desk.play(rt, alloc, pass, cell, PIECE, gate)?;
        let piece = desk.piece(rt, alloc, cell, *from, PIECE, gate)?;
        pieces.push(Numbered { number, piece })?;
        *from = from.saturating_add(PIECE);
    }
    Ok(pieces)
}

/// Plays a cell to the end of its run, and sends its pieces.
fn send_cell<R: Wait, G: Gate>(
    rt: &R,
    alloc: Global,
    desk: &Desk,
    pass: &mut Pass,
    number: u64,
    gate: &G,
    to: &Sender<Vec<Numbered>>,
) -> Result<(), PlayerStop>
    requires { number < length desk.now.cells }
{
    let mut from = 0;
    while from < desk.slots() {
        let pieces = play_on(rt, alloc, desk, pass, number, &mut from, gate)?;
        to.send(rt, pieces)?;
    }
    Ok(())
}

/// Draws numbers of cells until there are no more, and plays each of these cells.
fn send_drawn<R: Wait, G: Gate>(
    rt: &R,
    alloc: Global,
    desk: &Desk,
    counter: &Counter,
    seat: Seat,
    pass: &mut Pass,
    gate: &G,
    to: &Sender<Vec<Numbered>>,
) -> Result<(), PlayerStop>
    requires seat { IsSeatOf counter.now seat }
    requires limit { counter.now.limit ≡ length desk.now.cells }
{
    let mut seat = seat;
    while let Some(number) = seat.draw(counter) {
        send_cell(rt, alloc, desk, pass, number, gate, to)?;
    }
    Ok(())
}

/// The work of a worker. It drops `to` when it ends, so that the collector learns when nobody sends any more.
pub(crate) fn work<R: Wait, G: Gate>(
    rt: &R,
    alloc: Global,
    desk: &Desk,
    counter: &Counter,
    seat: Seat,
    gate: &G,
    to: Sender<Vec<Numbered>>,
) -> Ended
    requires seat { IsSeatOf counter.now seat }
    requires limit { counter.now.limit ≡ length desk.now.cells }
{
    let mut pass = desk.pass();
    let done = send_drawn(rt, alloc, desk, counter, seat, &mut pass, gate, &to);
    Ended {
        pass,
        refused: done == Err(PlayerStop::Refused),
    }
}

/// Plays a cell to the end of its run, and puts its pieces on the board.
fn put_cell<R: Wait, G: Gate>(
    rt: &R,
    alloc: Global,
    desk: &Desk,
    pass: &mut Pass,
    number: u64,
    gate: &G,
    board: &mut Board,
) -> Result<(), PlayerStop>
    requires number { number < length desk.now.cells }
    requires board { AreFillings desk.now board.old.fillings.items }
    ensures stays { AreFillings desk.now board.new.fillings.items }
    ensures came { (pieces : List Numbered) × HaveCome desk.now pieces board.old board.new }
{
    let mut from = 0;
    while from < desk.slots() {
        let pieces = play_on(rt, alloc, desk, pass, number, &mut from, gate)?;
        board.put_all(desk, &pieces);
    }
    Ok(())
}

/// Plays each cell, and puts its pieces on the board.
fn put_cells<R: Wait, G: Gate>(
    rt: &R,
    alloc: Global,
    desk: &Desk,
    pass: &mut Pass,
    gate: &G,
    board: &mut Board,
) -> Result<(), PlayerStop>
    requires { AreFillings desk.now board.old.fillings.items }
    ensures stays { AreFillings desk.now board.new.fillings.items }
    ensures came { (pieces : List Numbered) × HaveCome desk.now pieces board.old board.new }
{
    for number in 0..desk.cells().len() {
        put_cell(rt, alloc, desk, pass, number as u64, gate, board)?;
    }
    Ok(())
}

/// The work of a worker that has no others beside it: it puts the pieces on the board itself.
pub(crate) fn work_alone<R: Wait, G: Gate>(
    rt: &R,
    alloc: Global,
    desk: &Desk,
    gate: &G,
    board: &mut Board,
) -> Ended
    requires { AreFillings desk.now board.old.fillings.items }
    ensures stays { AreFillings desk.now board.new.fillings.items }
    ensures came { (pieces : List Numbered) × HaveCome desk.now pieces board.old board.new }
{
    let mut pass = desk.pass();
    let done = put_cells(rt, alloc, desk, &mut pass, gate, board);
    Ended {
        pass,
        refused: done == Err(PlayerStop::Refused),
    }
}
