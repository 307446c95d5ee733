//! The tapes of a desk's cells while their pieces come, and the first fault among these.

ghost use Rattle.std.specs.Prelude.{◌≡◌, ℕ, IfErr, IfOk, None, false, map, true};
ghost use Rattle.order_desk.specs.SettleSteps.{IsLeastFailing};
ghost use Rattle.parallel_compile.specs.declared.fault.CompileFault.TheVariants as faults;
ghost use Rattle.parallel_compile.specs.StreamSteps.{AreFillings, HasCome, HasFilling, HaveCome, IsCompleteAt};
ghost use Rattle.parallel_compile.specs.StreamSteps.{IsOfBoard};
ghost use Rattle.parallel_compile.specs.StreamSteps.{IsTaken};
ghost use Rattle.parallel_compile.specs.Streamed.{AreTapesFor};

use crate::fault::CompileFault;
use crate::filling::Filling;
use crate::place::lesser;
use cbch_blocks::Tape;
use cbsp_wire::Cell;
use order_desk::{Desk, Piece};
use std::alloc::Global;

/// A piece, with the number of its cell among those of the desk.
#[derive(Drop)]
pub(crate) struct Numbered {
    pub(crate) number: u64,
    pub(crate) piece: Piece,
}

/// The tapes of a desk's cells, in their order, and the least number of a piece that had no place, or not a free one.
#[derive(Drop)]
pub(crate) struct Board {
    pub(crate) fillings: Vec<Filling>,
    pub(crate) spoilt: Option<u64>,
}

/// Puts a piece in its place, and reports whether it has one that was free.
fn fill(fillings: &mut Vec<Filling>, cells: &[Cell], slots: u16, numbered: &Numbered) -> bool
    requires { AreFillings (record { cells = cells.now; slots = slots }) fillings.old.items }
    ensures stays { AreFillings (record { cells = cells.now; slots = slots }) fillings.new.items }
    ensures taken { result ≡ true → IsTaken (record { cells = cells.now; slots = slots }) numbered.now.number
        numbered.now.piece fillings.old.items fillings.new.items }
    ensures left { result ≡ false → (fillings.new.items ≡ fillings.old.items) × ((k : ℕ) → HasFilling
        (record { cells = cells.now; slots = slots }) fillings.old.items numbered.now.number k numbered.now.piece → ⊥) }
{
    let place = numbered.number as usize;
    if place < cells.len() && place < fillings.len() {
        fillings[place].put(cells[place], slots, &numbered.piece)
    } else {
        false
    }
}

/// The least place of a tape of which a piece is missing.
fn first_incomplete(fillings: &[Filling]) -> Option<u64>
    ensures { IsLeastFailing (IsCompleteAt fillings.now) result }
{
    for place in 0..fillings.len() {
        if !fillings[place].is_complete() {
            return Some(place as u64);
        }
    }
    None
}

/// The tapes alone.
fn tapes_of(alloc: Global, fillings: Vec<Filling>) -> Result<Vec<Tape>, CompileFault>
    ensures ok { IfOk result (λ tapes. tapes.items ≡ map (λ filling. filling.tape) fillings.items) }
    ensures err { IfErr result (λ fault. fault ≡ faults.Refused) }
{
    let mut tapes = Vec::with_capacity(alloc, fillings.len())?;
    for filling in fillings {
        tapes.push(filling.tape)?;
    }
    Ok(tapes)
}

impl Board {
    /// The board of a desk, for which no piece has come.
    pub(crate) fn open(alloc: Global, desk: &Desk) -> Result<Board, CompileFault>
        ensures ok { IfOk result (λ board. AreFillings desk.now board.fillings.items) }
        ensures err { IfErr result (λ fault. fault ≡ faults.Refused) }
    {
        let cells = desk.cells();
        let slots = desk.slots();
        let mut fillings = Vec::with_capacity(alloc, cells.len())?;
        for cell in cells {
            fillings.push(Filling::open(alloc, *cell, slots)?)?;
        }
        Ok(Board {
            fillings,
            spoilt: None,
        })
    }

    /// Puts a piece in its place. One that has none, or whose place isn't free, spoils its number.
    pub(crate) fn put(&mut self, cells: &[Cell], slots: u16, numbered: &Numbered)
        requires { AreFillings (record { cells = cells.now; slots = slots }) self.old.fillings.items }
        ensures stays { AreFillings (record { cells = cells.now; slots = slots }) self.new.fillings.items }
        ensures come { HasCome (record { cells = cells.now; slots = slots }) numbered.now self.old self.new }
    {
        if !fill(&mut self.fillings, cells, slots, numbered) {
            self.spoilt = lesser(self.spoilt, Some(numbered.number));
        }
    }

    /// Puts pieces in their places, one after the other.
    pub(crate) fn put_all(&mut self, desk: &Desk, pieces: &[Numbered])
        requires { AreFillings desk.now self.old.fillings.items }
        ensures stays { AreFillings desk.now self.new.fillings.items }
        ensures come { HaveCome desk.now pieces.now self.old self.new }
    {
        for numbered in pieces {
            self.put(desk.cells(), desk.slots(), numbered);
        }
    }

    /// The tapes, if all pieces have come and no number is spoilt.
    pub(crate) fn tapes(self, alloc: Global, desk: &Desk) -> Result<Vec<Tape>, CompileFault>
        requires { AreFillings desk.now self.fillings.items }
        ensures ok { IfOk result (λ tapes. AreTapesFor desk.now tapes.items) }
        ensures made { IfOk result (λ tapes. tapes.items ≡ map (λ filling. filling.tape) self.fillings.items) }
        ensures whole { IfOk result (λ _. (self.spoilt ≡ None)
            × ((k : ℕ) → IsCompleteAt self.fillings.items k)) }
        ensures err { IfErr result (IsOfBoard self.fillings.items self.spoilt) }
    {
        let Board { fillings, spoilt } = self;
        if let Some(index) = lesser(spoilt, first_incomplete(&fillings)) {
            return Err(CompileFault::Piece { index });
        }
        let tapes = tapes_of(alloc, fillings)?;
        Ok(tapes)
    }
}
