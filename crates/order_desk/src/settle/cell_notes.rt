//! What was noted of one cell, by kind.

ghost use Rattle.std.specs.Prelude.{◌≡◌, ◌⊎◌, ◌↔◌, ℕ, ◌+◌, ◌<◌, ◌≤◌, Some, List, [], ◌∷◌, ◌++◌, IfOk, IsOk, IsTrue};
ghost use Rattle.std.specs.Prelude.{length, max, min, slice_index_or, true};
ghost use Rattle.std.specs.List.{slice_get};
ghost use Rattle.bsc_table.specs.declared.entry.Entry.{Entry};
ghost use Rattle.bsc_table.specs.Record.{Record};
ghost use Rattle.order_desk.specs.declared.note.Note.{Note};
ghost use Rattle.order_desk.specs.SettleSteps.{AreLike, HasNoted, IsNext, is_note_of, lesser, ranges_of};

use crate::note::Note;
use crate::settle::counts::{count, none_counted};
use bsc_table::{Entry, SlotRange};
use std::alloc::{AllocError, Global};

/// What the passes noted of one cell, one pass after the other. It has the played ranges, and of the entries only what
/// is asked of them, so that it takes few octets.
#[derive(Drop)]
pub(crate) struct CellNotes {
    /// How often each number of the cell's log was noted, told up to 255.
    pub(crate) times_noted: Vec<u8>,
    /// The least number of which a noted entry isn't in its place.
    pub(crate) misplaced: Option<u16>,
    /// The ranges of played slots, but for the last one.
    pub(crate) ranges: Vec<SlotRange>,
    /// The last range of played slots. Ranges that follow each other are kept as one.
    pub(crate) last: SlotRange,
    /// Whether a pass noted that the cell's log was full.
    pub(crate) is_full: bool,
    /// The least number above all that the pass under way has noted.
    pub(crate) next_number: u32,
    /// The latest end of the ranges that the pass under way has noted.
    pub(crate) played_to: u16,
}

/// The lesser of two numbers, as far as there are any.
pub(crate) fn lesser(one: Option<u16>, other: Option<u16>) -> Option<u16>
    ensures { result ≡ lesser one other }
{
    match (one, other) {
        (Some(one), Some(other)) => Some(one.min(other)),
        (Some(number), None) | (None, Some(number)) => Some(number),
        (None, None) => None,
    }
}

/// Whether two entries are equal.
fn are_same(one: &Entry, other: &Entry) -> bool
    ensures { IsTrue result ↔ (one.now ≡ other.now) }
{
    one == other
}

/// Whether a log has an entry at a number.
fn stands_at(log: &[Entry], number: u16, entry: &Entry) -> bool
    ensures { IsTrue result ↔ (slice_get log.now number ≡ Some entry.now) }
{
    match log.get(usize::from(number)) {
        Some(logged) => are_same(logged, entry),
        None => false,
    }
}

/// Whether a range begins where another one ends, and neither runs backwards.
fn follows(last: SlotRange, range: SlotRange) -> bool
    ensures { IsTrue result ↔ ((last.from ≤ last.to) × (last.to ≡ range.from) × (range.from ≤ range.to)) }
{
    last.from <= last.to && last.to == range.from && range.from <= range.to
}

impl CellNotes {
    /// No notes of a cell whose log has this many entries.
    pub(crate) fn new(alloc: Global, entries: usize) -> Result<CellNotes, AllocError>
        ensures { IfOk result (λ notes. (r : Record) → length r.log ≡ entries → HasNoted r [] [] notes) }
    {
        Ok(CellNotes {
            times_noted: none_counted(alloc, entries)?,
            misplaced: None,
            ranges: Vec::new(alloc),
            last: SlotRange { from: 0, to: 0 },
            is_full: false,
            next_number: 0,
            played_to: 0,
        })
    }

    /// Whether an entry that the pass under way notes next is in its place.
    fn is_next(&self, log: &[Entry], number: u16, entry: &Entry) -> bool
        ensures { IsTrue result ↔ IsNext self.now log.now number entry.now }
    {
        self.next_number <= u32::from(number)
            && self.played_to <= entry.slot
            && stands_at(log, number, entry)
    }

    /// Keeps the number of an entry that the pass under way notes next, if the entry isn't in its place.
    fn keep_misplaced(&mut self, log: &[Entry], number: u16, entry: &Entry)
        ensures misplaced { (IsNext self.old log.now number entry.now × (self.new.misplaced ≡ self.old.misplaced))
            ⊎ ((IsNext self.old log.now number entry.now → ⊥)
            × (self.new.misplaced ≡ lesser self.old.misplaced (Some number))) }
        ensures others { self.new ≡ record self.old { misplaced = self.new.misplaced } }
    {
        if !self.is_next(log, number, entry) {
            self.misplaced = lesser(self.misplaced, Some(number));
        }
    }

    /// Adds an entry that was noted at a number.
    fn add_entry(&mut self, log: &[Entry], number: u16, entry: &Entry)
        ensures places { length self.new.times_noted.items ≡ length self.old.times_noted.items }
        ensures noted { (k : ℕ) → k < length self.old.times_noted.items → number ≤ k → k < number + 1
            → slice_index_or self.new.times_noted.items k 0
            ≡ min (slice_index_or self.old.times_noted.items k 0 + 1) 255 }
        ensures others { (k : ℕ) → k < length self.old.times_noted.items → (k < number) ⊎ (number + 1 ≤ k)
            → slice_index_or self.new.times_noted.items k 0 ≡ slice_index_or self.old.times_noted.items k 0 }
        ensures misplaced { (IsNext self.old log.now number entry.now × (self.new.misplaced ≡ self.old.misplaced))
            ⊎ ((IsNext self.old log.now number entry.now → ⊥)
            × (self.new.misplaced ≡ lesser self.old.misplaced (Some number))) }
        ensures next { self.new.next_number ≡ max self.old.next_number (number + 1) }
        ensures ranges { ranges_of self.new ≡ ranges_of self.old }
        ensures full { self.new.is_full ≡ self.old.is_full }
        ensures played { self.new.played_to ≡ self.old.played_to }
    {
        self.keep_misplaced(log, number, entry);
        let place = usize::from(number);
        count(self.times_noted.as_mut_slice(), place, place + 1);
        self.next_number = self.next_number.max(u32::from(number) + 1);
    }

    /// Adds a range of played slots. One that follows the last one makes that longer, so that a cell whose slots are
    /// noted in their order takes no memory for them.
    fn add_range(&mut self, range: SlotRange) -> Result<(), AllocError>
        ensures ranges { IsOk result → AreLike (ranges_of self.new) (ranges_of self.old ++ range ∷ []) }
        ensures played { IsOk result → self.new.played_to ≡ max self.old.played_to range.to }
        ensures noted { self.new.times_noted ≡ self.old.times_noted }
        ensures misplaced { self.new.misplaced ≡ self.old.misplaced }
        ensures full { self.new.is_full ≡ self.old.is_full }
        ensures next { self.new.next_number ≡ self.old.next_number }
    {
        if follows(self.last, range) {
            self.last.to = range.to;
        } else {
            self.ranges.push(self.last)?;
            self.last = range;
        }
        self.played_to = self.played_to.max(range.to);
        Ok(())
    }

    /// Adds a note of the cell, which has this log, to the pass under way.
    pub(crate) fn add(&mut self, log: &[Entry], note: &Note) -> Result<(), AllocError>
        ensures { IsOk result → (r : Record) (earlier : List (List Note)) (given : List Note)
            → r.log ≡ log.now
            → is_note_of r.cell note.now ≡ true
            → HasNoted r earlier given self.old
            → HasNoted r earlier (given ++ note.now ∷ []) self.new }
    {
        match note {
            Note::Event { number, entry, .. } => {
                self.add_entry(log, *number, entry);
                Ok(())
            }
            Note::Played { from, to, .. } => self.add_range(SlotRange {
                from: *from,
                to: *to,
            }),
            Note::Full { .. } => {
                self.is_full = true;
                Ok(())
            }
        }
    }

    /// Ends the pass under way.
    pub(crate) fn end_pass(&mut self)
        ensures { (r : Record) (earlier : List (List Note)) (given : List Note)
            → HasNoted r earlier given self.old
            → HasNoted r (earlier ++ given ∷ []) [] self.new }
    {
        self.next_number = 0;
        self.played_to = 0;
    }
}
