//! What is worked by hand, as tables. A row says what is done, an arrow, and what comes of it: octets are told by their
//! number and then one after the other. `cut PAGE` and `idle` say blocks; `run ..` and `open ..` a tape; `piece FIRST
//! RUN` the piece of the tape of a run's record that begins with this slot, and what it writes. `start FIRST` says how
//! many octets of the tape are before it.
//!
//! `is TAPE; RUN` says whether a tape is that of a run's record, and `changed RUN` at how many places of the worked
//! page, aired in slot 0 alone, another octet gives a tape that isn't.
//!
//! `fails N CALLS; TAPE` writes the tape to writers that take N octets a call and fail after so many calls, from none
//! on, and says how many of them take the front that they ought to. `room N; RUN` makes the tape of a run's record, and
//! opens one of its cell, where all memory is taken but N octets: how many octets both have, 0 if they are refused.

use crate::of_cbch_blocks::octets::{are_octets, page_with};
use crate::of_cbch_blocks::tapes::{are_differing, is_judged, is_piece, is_tape};
use crate::of_cbch_blocks::writers::{are_fronts, are_made_in};
use cbch_blocks::{Refused, WriteFailed, cut, idle, piece_start};
use std::alloc::{AllocError, Global};
use std::process::Abort;
use std::test::Fail;
use test_support::{Row, Words};

const TAPES: &str = "
# The blocks of a page, and those of an idle slot.
cut page -> 92 blocks
idle -> 92 idle

# A page in every second slot.
run 1-1 2 write -> 192 0001 0001 00000002 blocks idle

# Cells that air nothing.
run 1-1 3 -> 284 0001 0001 00000003 idle*3
run 1-2 3 -> 284 0001 0002 00000003 idle*3

# Pages of two messages in turn.
run 1-1 4 write_a write_b -> 376 0001 0001 00000004 \
    20 000111120111 A1*16 21 A1*22 22 A1*22 33 A1*22 \
    20 000211120112 B1*16 21 B1*22 22 B1*22 33 B1*22 \
    20 000111120111 A1*16 21 A1*22 22 A1*22 33 A1*22 \
    20 000211120122 B2*16 21 B2*22 22 B2*22 33 B2*22

# A run of no slots is a header.
run 1-1 0 -> 8 0001 0001 00000000

# High octets come first.
run 4660-65244 258 -> 23744 1234 FEDC 00000102 idle*258
";

/// Tapes that are opened and set slot by slot. A slot is set to another page, and then to the worked one.
const SLOTS: &str = "
open 1-1 0 -> 8 0001 0001 00000000
open 1-1 1 -> 100 0001 0001 00000001 idle
open 1-1 1 0:0 -> 100 0001 0001 00000001 other
open 1-1 1 0:0 0:88 -> 100 0001 0001 00000001 blocks
open 1-1 3 -> 284 0001 0001 00000003 idle*3
open 1-1 3 0:0 -> 284 0001 0001 00000003 other idle*2
open 1-1 3 0:0 0:88 -> 284 0001 0001 00000003 blocks idle*2
open 1-1 3 1:0 -> 284 0001 0001 00000003 idle other idle
open 1-1 3 1:0 1:88 -> 284 0001 0001 00000003 idle blocks idle
open 1-1 3 2:0 -> 284 0001 0001 00000003 idle*2 other
open 1-1 3 2:0 2:88 -> 284 0001 0001 00000003 idle*2 blocks
open 1-1 258 -> 23744 0001 0001 00000102 idle*258
open 1-1 258 256:0 -> 23744 0001 0001 00000102 idle*256 other idle
open 1-1 258 256:0 256:88 -> 23744 0001 0001 00000102 idle*256 blocks idle
open 1-1 258 257:0 -> 23744 0001 0001 00000102 idle*257 other
open 1-1 258 257:0 257:88 -> 23744 0001 0001 00000102 idle*257 blocks
";

/// Pieces of tapes: the first has the header, and none has over 256 slots.
const PIECES: &str = "
piece 0 1-1 2 write -> 192 0001 0001 00000002 blocks idle
piece 0 1-2 3 -> 284 0001 0002 00000003 idle*3
piece 0 1-1 0 -> 8 0001 0001 00000000
piece 1 1-1 2 write -> 92 idle
piece 2 1-1 4 write_a write_b -> 184 \
    20 000111120111 A1*16 21 A1*22 22 A1*22 33 A1*22 \
    20 000211120122 B2*16 21 B2*22 22 B2*22 33 B2*22
piece 4 1-1 4 write -> 0
piece 0 1-1 257 -> 23560 0001 0001 00000101 idle*256
piece 256 1-1 257 write -> 92 blocks
piece 257 1-1 257 write -> 0
start 0 -> 0
start 1 -> 100
start 256 -> 23560
";

const RECORDS: &str = "
# An open tape is that of a run of as many slots in which nothing is asked, and of no other.
run 1-1 1 -> 100 0001 0001 00000001 idle
run 1-1 258 -> 23744 0001 0001 00000102 idle*258
is open 1-1 0; 1-1 0 -> yes
is open 1-1 0; 1-2 0 -> no
is open 1-1 0; 1-1 1 -> no
is open 1-1 1; 1-1 1 -> yes
is open 1-1 1; 1-2 1 -> no
is open 1-1 1; 1-1 2 -> no
is open 1-1 3; 1-1 3 -> yes
is open 1-1 3; 1-2 3 -> no
is open 1-1 3; 1-1 4 -> no
is open 1-1 258; 1-1 258 -> yes
is open 1-1 258; 1-2 258 -> no
is open 1-1 258; 1-1 259 -> no

# Each octet of a page counts.
is open 1-1 2 0:88; 1-1 2 write -> yes
is open 1-1 2 1:88; 1-1 2 write -> no
changed 1-1 2 write -> 88

# A tape is of its record alone.
is run 1-1 4 write_a write_b; 1-1 4 write_a write_b -> yes
is run 1-1 4 write_a write_b; 1-1 4 -> no
is run 1-1 4; 1-1 4 write_a write_b -> no
";

/// The tape has 192 octets.
const WRITERS: &str = "
fails 1 192; run 1-1 2 write -> 193
fails 7 28; run 1-1 2 write -> 29
fails 10 20; run 1-1 2 write -> 21
fails 100 2; run 1-1 2 write -> 3
";

/// Tapes of 65,535 slots and of 100. The second room is less than a list of 9,208 octets takes that grows by doubling,
/// from 8 octets or from 100.
const ROOMS: &str = "
room 0; 1-1 65535 -> 0
room 7000000; 1-1 65535 -> 6029228
room 9300; 1-1 100 -> 9208
";

/// `cut PAGE` and `idle`
fn are_blocks(alloc: Global, verb: &str, wanted: &str) -> Result<bool, Fail> {
    let page = page_with(alloc, 88)?;
    let blocks = if verb == "cut" { cut(&page) } else { idle() };
    are_octets(alloc, blocks.as_flattened(), wanted)
}

/// Whether what a row says comes of it.
fn is_right(alloc: Global, row: Row) -> Result<bool, Fail> {
    let (first, rest) = row.action.split_once(';').unwrap_or((row.action, ""));
    let (verb, first) = first.split_once(' ').unwrap_or((first, ""));
    match verb {
        "cut" | "idle" => are_blocks(alloc, verb, row.wanted),
        "is" => is_judged(alloc, first, rest, row.wanted),
        "changed" => are_differing(alloc, first, row.wanted),
        "fails" => are_fronts(alloc, first, rest, row.wanted),
        "room" => are_made_in(alloc, first, rest, row.wanted),
        "piece" => is_piece(alloc, first, row.wanted),
        "start" => Ok(piece_start(first.parse::<u16>()?) == row.wanted.parse::<u64>()?),
        _ => is_tape(alloc, row.action, row.wanted),
    }
}

/// Expects what the rows of a table say, which are so many.
fn expect_rows(rt: &impl Abort, alloc: Global, table: &str, count: u16) -> Result<(), Fail> {
    let mut rows = 0_u16;
    for line in table.split('\n') {
        if let Some(row) = Row::of(line) {
            assert!(rt; is_right(alloc, row)?, "{line}");
            rows = rows.saturating_add(1);
        }
    }
    assert_eq!(rt; rows, count);
    Ok(())
}

#[test]
fn blocks_and_tapes_are_those_worked_by_hand(rt: HostRuntime) -> Result<(), Fail> {
    expect_rows(&rt, rt.alloc(), TAPES, 8)
}

#[test]
fn pieces_are_those_worked_by_hand(rt: HostRuntime) -> Result<(), Fail> {
    expect_rows(&rt, rt.alloc(), PIECES, 12)
}

#[test]
fn a_slot_is_set_and_no_other(rt: HostRuntime) -> Result<(), Fail> {
    expect_rows(&rt, rt.alloc(), SLOTS, 16)
}

#[test]
fn a_tape_is_of_its_record_alone(rt: HostRuntime) -> Result<(), Fail> {
    expect_rows(&rt, rt.alloc(), RECORDS, 20)
}

#[test]
fn a_writer_fails_at_each_call(rt: HostRuntime) -> Result<(), Fail> {
    expect_rows(&rt, rt.alloc(), WRITERS, 4)
}

#[test]
fn a_tape_needs_no_more_memory_than_its_octets(rt: HostRuntime) -> Result<(), Fail> {
    expect_rows(&rt, rt.alloc(), ROOMS, 3)
}

/// The texts of the faults.
fn texts_in(alloc: Global) -> Result<String, AllocError> {
    format!(in alloc; "{}; {Refused}", WriteFailed { written: 7 })
}

#[test]
fn texts_of_faults(rt: HostRuntime) -> Result<(), AllocError> {
    let texts = texts_in(rt.alloc())?;
    assert_eq!(rt; texts.as_str(), "write failed; memory allocation failed");
    Ok(())
}
