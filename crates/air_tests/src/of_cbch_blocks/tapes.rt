//! Tapes, as the tables write them: `run` and a run is the tape of its record, and `open 1-1 3 1:88 2:0` the tape of a
//! cell that airs nothing in three slots, and then in slots 1 and 2 the worked page with one octet changed, at place 88
//! none. `piece 2` and a run is the piece of the tape of its record that begins with slot 2.

use crate::of_cbch_blocks::octets::{are_octets, page_with};
use crate::of_cbch_blocks::runs::{cell_in, record_of};
use bsc_table::CellRecord;
use cbch_blocks::{Tape, TapePiece, tape_of};
use device_ends::Sink;
use device_ends::memory::MemoryWriter;
use std::alloc::Global;
use std::test::Fail;
use test_support::Words;

/// The tape of a run's record.
fn tape_of_run(alloc: Global, words: &mut Words) -> Result<Tape, Fail> {
    let run = record_of(alloc, words)?;
    let tape = tape_of(alloc, &run);
    drop(run);
    Ok(tape?)
}

/// Sets all slots that are left, if there are such slots.
fn set_all(alloc: Global, tape: &mut Tape, words: &mut Words) -> Result<(), Fail> {
    for _ in 0..4 {
        if let Some((slot, place)) = words.word().split_once(':') {
            let (slot, place) = (slot.parse::<u16>()?, place.parse::<usize>()?);
            let page = page_with(alloc, place)?;
            if tape.bytes().len() < 8 + 92 * (slot as usize + 1) {
                return Err(Fail::new("no such slot"));
            }
            tape.set(slot, &page);
        }
    }
    Ok(())
}

/// An open tape, with slots that are set.
fn opened(alloc: Global, words: &mut Words) -> Result<Tape, Fail> {
    let (cell, slots) = cell_in(words)?;
    let mut tape = Tape::open(alloc, cell, slots)?;
    set_all(alloc, &mut tape, words)?;
    Ok(tape)
}

/// A piece of the tape of a record, in the room of a piece of another one.
fn piece_of(alloc: Global, run: &CellRecord, first: u16) -> Result<TapePiece, Fail> {
    let mut piece = TapePiece::open(alloc)?;
    let other = record_of(alloc, &mut Words::of("9-9 5"))?;
    piece.become_that_of(&other, 0);
    drop(other);
    piece.become_that_of(run, first);
    Ok(piece)
}

/// Whether a piece has the octets that are wanted, and writes them.
fn has_octets(alloc: Global, piece: &TapePiece, wanted: &str) -> Result<bool, Fail> {
    let mut writer = MemoryWriter::new(alloc, 100, None);
    let mut sink = Sink::new(&mut writer);
    let is_written = piece.write_to(&mut sink).is_ok();
    Ok(
        is_written
            && writer.contents() == piece.bytes()
            && are_octets(alloc, piece.bytes(), wanted)?,
    )
}

/// `piece FIRST RUN`
pub fn is_piece(alloc: Global, piece: &str, wanted: &str) -> Result<bool, Fail> {
    let mut words = Words::of(piece);
    let first = words.number16()?;
    let run = record_of(alloc, &mut words)?;
    let piece = piece_of(alloc, &run, first);
    drop(run);
    has_octets(alloc, &piece?, wanted)
}

/// The tape that words say.
pub fn tape_in(alloc: Global, words: &mut Words) -> Result<Tape, Fail> {
    match words.word() {
        "open" => opened(alloc, words),
        "run" => tape_of_run(alloc, words),
        _ => Err(Fail::new("no such tape")),
    }
}

/// Whether a tape has the octets that are wanted.
pub fn is_tape(alloc: Global, tape: &str, wanted: &str) -> Result<bool, Fail> {
    let tape = tape_in(alloc, &mut Words::of(tape))?;
    are_octets(alloc, tape.bytes(), wanted)
}

/// `is TAPE; RUN`
pub fn is_judged(alloc: Global, tape: &str, run: &str, wanted: &str) -> Result<bool, Fail> {
    let tape = tape_in(alloc, &mut Words::of(tape))?;
    let run = record_of(alloc, &mut Words::of(run))?;
    let is_of = tape.is_of(&run);
    drop(run);
    Ok(wanted == if is_of { "yes" } else { "no" })
}

/// `changed RUN`
pub fn are_differing(alloc: Global, run: &str, wanted: &str) -> Result<bool, Fail> {
    let mut count = 0_u64;
    for place in 0..88 {
        let tape = format!(in alloc; "open 1-1 2 0:{place}")?;
        if is_judged(alloc, &tape, run, "no")? {
            count = count.saturating_add(1);
        }
    }
    Ok(count == wanted.parse::<u64>()?)
}
