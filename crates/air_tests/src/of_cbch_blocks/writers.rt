//! Tapes that are written to writers that fail, and tapes that are made with hardly any memory.

use crate::of_cbch_blocks::runs::record_of;
use crate::of_cbch_blocks::tapes::tape_in;
use bsc_table::CellRecord;
use cbch_blocks::{Refused, Tape, tape_of};
use device_ends::Sink;
use device_ends::memory::MemoryWriter;
use std::alloc::{AllocError, Global};
use std::test::Fail;
use test_support::{Words, take_all};

/// Whether a writer that takes so many octets a call, and fails after so many calls, has the tape's front, and the sink
/// says so: what went out, and nothing more in a second write after a fault.
fn has_front(alloc: Global, tape: &Tape, per_call: usize, calls: usize) -> bool {
    let octets = tape.bytes().len();
    let taken = per_call.saturating_mul(calls).min(octets);
    let mut writer = MemoryWriter::new(alloc, per_call, Some(calls));
    let mut sink = Sink::new(&mut writer);
    let first = tape.write_to(&mut sink);
    let second = match first {
        Ok(()) => Ok(()),
        Err(_) => tape.write_to(&mut sink),
    };
    let is_told = match (first, second) {
        (Ok(()), Ok(())) => taken == octets && !sink.failed(),
        (Err(first), Err(second)) => {
            let written = (first.written, second.written);
            taken < octets && sink.failed() && written == (taken as u64, 0)
        }
        _ => false,
    };
    is_told && writer.contents() == &tape.bytes()[..taken]
}

/// `fails N CALLS; TAPE`
pub fn are_fronts(alloc: Global, pace: &str, tape: &str, wanted: &str) -> Result<bool, Fail> {
    let mut words = Words::of(pace);
    let (per_call, most) = (words.number16()?, words.number16()?);
    let tape = tape_in(alloc, &mut Words::of(tape))?;
    let mut count = 0_u64;
    for calls in 0..=most {
        if has_front(alloc, &tape, usize::from(per_call), usize::from(calls)) {
            count = count.saturating_add(1);
        }
    }
    Ok(count == wanted.parse::<u64>()?)
}

/// How many octets a tape has, 0 if it is refused.
fn length_of(tape: Result<Tape, Refused>) -> usize {
    match tape {
        Ok(tape) => tape.bytes().len(),
        Err(Refused) => 0,
    }
}

/// How many octets the tape of a record has, and the open one of its cell, where all memory is taken but so many
/// octets.
fn lengths_in(alloc: Global, run: &CellRecord, room: usize) -> Result<(usize, usize), AllocError> {
    let room: Vec<u8> = Vec::with_capacity(alloc, room)?;
    let mut taken = Vec::with_capacity(alloc, 100_000)?;
    take_all(alloc, &mut taken);
    drop(room);
    let made = length_of(tape_of(alloc, run));
    let opened = length_of(Tape::open(alloc, run.cell(), run.slots()));
    taken.clear();
    Ok((made, opened))
}

/// `room N; RUN`
pub fn are_made_in(alloc: Global, room: &str, run: &str, wanted: &str) -> Result<bool, Fail> {
    let (room, length) = (room.parse::<usize>()?, wanted.parse::<usize>()?);
    let run = record_of(alloc, &mut Words::of(run))?;
    let lengths = lengths_in(alloc, &run, room);
    drop(run);
    Ok(lengths? == (length, length))
}
