//! A tape that is filled piece by piece.

ghost use Rattle.std.specs.Prelude.{◌≡◌, ◌≢◌, ◌+◌, ◌*◌, ◌≤◌, ◌↔◌, ◌∷◌, [], ℕ, IfErr, IfOk, IsTrue, MatchOption};
ghost use Rattle.std.specs.Prelude.{Some, length, replicate, take, false, true};
ghost use Rattle.std.specs.List.{slice_get};
ghost use Rattle.cbch_blocks.specs.RecordBlocks.{tape_of_record};
ghost use Rattle.cbch_blocks.specs.Slots.{silent_record};
ghost use Rattle.parallel_compile.specs.declared.fault.CompileFault.TheVariants as faults;
ghost use Rattle.parallel_compile.specs.StreamSteps.{FitsTape, IsComplete, IsFilledOn, IsPut, pieces_in, with_pages};

use crate::fault::CompileFault;
use cbch_blocks::Tape;
use cbsp_wire::Cell;
use order_desk::Piece;
use std::alloc::Global;

/// How many slots a piece has, unless the run ends in it.
pub(crate) const PIECE: u16 = order_desk::PIECE_SLOTS;

/// The tape of a cell while its pieces come, and for each piece whether it has come.
#[derive(Drop)]
pub(crate) struct Filling {
    pub(crate) tape: Tape,
    pub(crate) came: Vec<bool>,
}

/// How many pieces a run has.
fn pieces_in(slots: u16) -> usize
    ensures { result ≡ pieces_in slots }
{
    (slots as usize + 63) / 64
}

/// A place for each piece of a run, of which none has come.
fn none_came(alloc: Global, slots: u16) -> Result<Vec<bool>, CompileFault>
    ensures ok { IfOk result (λ came. came.items ≡ replicate (pieces_in slots) false) }
    ensures err { IfErr result (λ fault. fault ≡ faults.Refused) }
{
    let pieces = pieces_in(slots);
    let mut came = Vec::with_capacity(alloc, pieces)?;
    for _ in 0..pieces {
        came.push(false)?;
    }
    Ok(came)
}

/// The place of a piece in the run of a cell; None unless it begins where a piece of that run does and has all of its
/// slots.
fn place_of(cell: Cell, slots: u16, piece: &Piece) -> Option<usize>
    ensures { MatchOption result ((k : ℕ) → FitsTape cell slots k piece.now → ⊥)
        (λ place. FitsTape cell slots place piece.now) }
{
    let begins = piece.from % PIECE == 0 && piece.from < slots;
    if piece.cell == cell
        && begins
        && piece.pages.len() == (slots - piece.from).min(PIECE) as usize
    {
        Some((piece.from / PIECE) as usize)
    } else {
        None
    }
}

/// Has the slots of a tape from one on air these pages. A slot without a page stays as it was.
fn set_pages(tape: &mut Tape, from: u16, pages: &[Option<[u8; 88]>])
    requires within { 8 + 92 * (from + length pages.now) ≤ length tape.old }
    requires short { from + length pages.now ≤ 65535 }
    ensures set { tape.new ≡ with_pages from pages.now tape.old }
    ensures long { length tape.new ≡ length tape.old }
    ensures headed { take 8 tape.new ≡ take 8 tape.old }
{
    let mut slot = from;
    for page in pages {
        set_page(tape, slot, page);
        slot = slot.saturating_add(1);
    }
}

/// Has a slot of a tape air a page, if there is one.
fn set_page(tape: &mut Tape, slot: u16, page: &Option<[u8; 88]>)
    requires { 8 + 92 * (slot + 1) ≤ length tape.old }
    ensures set { tape.new ≡ with_pages slot (page.now ∷ []) tape.old }
    ensures long { length tape.new ≡ length tape.old }
    ensures headed { take 8 tape.new ≡ take 8 tape.old }
{
    if let Some(page) = page {
        tape.set(slot, page);
    }
}

impl Filling {
    /// The tape of a cell of which no piece has come: each slot is idle.
    pub(crate) fn open(alloc: Global, cell: Cell, slots: u16) -> Result<Filling, CompileFault>
        ensures tape { IfOk result (λ filling. filling.tape ≡ tape_of_record (silent_record cell slots)) }
        ensures came { IfOk result (λ filling. filling.came.items ≡ replicate (pieces_in slots) false) }
        ensures err { IfErr result (λ fault. fault ≡ faults.Refused) }
    {
        Ok(Filling {
            tape: Tape::open(alloc, cell, slots)?,
            came: none_came(alloc, slots)?,
        })
    }

    /// Puts a piece in its place, and reports whether it has one that was free.
    pub(crate) fn put(&mut self, cell: Cell, slots: u16, piece: &Piece) -> bool
        requires long { length self.old.tape ≡ 8 + 92 * slots }
        requires places { length self.old.came.items ≡ pieces_in slots }
        ensures put { result ≡ true → (k : ℕ) × FitsTape cell slots k piece.now
            × (slice_get self.old.came.items k ≡ Some false) × IsPut k piece.now self.old self.new }
        ensures left { result ≡ false → (self.new ≡ self.old)
            × ((k : ℕ) → FitsTape cell slots k piece.now → slice_get self.old.came.items k ≢ Some false) }
        ensures stays { IsFilledOn self.old self.new }
    {
        match place_of(cell, slots, piece) {
            Some(place) if !self.came[place] => {
                self.came[place] = true;
                set_pages(&mut self.tape, piece.from, &piece.pages);
                true
            }
            _ => false,
        }
    }

    /// Whether all pieces have come.
    pub(crate) fn is_complete(&self) -> bool
        ensures { IsTrue result ↔ IsComplete self.now }
    {
        self.came.iter().all(|came| *came)
    }
}
