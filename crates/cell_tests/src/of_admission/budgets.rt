//! Worked loads and reservations, and what a budget then has room for.
//!
//! Each row asks the budget of its table, which `new` makes anew. `load PAGES PERIOD` is a load, and `total` what is
//! reserved. `fits LOAD LEAVING` and `fits_behind LOAD BEHIND LEAVING` ask for room, `is_reserved ENTRY`,
//! `has_started ENTRY`, `is_awaited ENTRY` and `hands_over ENTRY SLOT` how an entry stands. `reserve ENTRY LOAD UNTIL`
//! and `reserve_behind ENTRY LOAD BEHIND START` reserve, `release ENTRY SLOT` lets a reservation end, and `pass SLOT`
//! lets a slot pass. `reserve_64 LOAD UNTIL` reserves for the entries from 0 to 63, and says how many were. `-` stands
//! for no entry and no end, `most` for the greatest load, and the answer `none` for what may not be asked.

use crate::of_admission::calls::{fits_behind, released, reserved, reserved_behind};
use admission::{Budget, NoRoom, SCALE, load, reservation_laws, scale_laws};
use std::process::Abort;
use test_support::{Row, Words};

const LOADS: &str = "
load 1 1 -> 232792560
load 1 3 -> 77597520
load 1 23 -> 10121416
load 15 1024 -> 3410048
load 0 7 -> 0
load 2 1 -> 465585120
load 1 1024 -> 227337

# A quarter of a cell, a half of it, and three quarters.
load 1 4 -> 58198140
load 1 2 -> 116396280
load 3 4 -> 174594420
scale -> 232792560
";

const RESERVED: &str = "
# Three thirds fill a cell.
new
fits 465585120 - -> Load
fits 77597520 - -> ok
reserve 0 77597520 - -> ok
fits 77597520 - -> ok
reserve 1 77597520 - -> ok
fits 77597520 - -> ok
reserve 2 77597520 - -> ok
total -> 232792560
fits 1 - -> Load
fits most - -> Load
reserve 3 1 - -> Load
fits 77597520 1 -> ok
fits 77597521 1 -> Load
fits 1 7 -> Load
total -> 232792560

# Messages of one page with periods of six, three and two slots fill a cell, too.
new
load 1 6 -> 38798760
reserve 0 38798760 - -> ok
reserve 1 77597520 - -> ok
reserve 2 116396280 - -> ok
total -> 232792560

# What is reserved up to a slot is free from there on.
default
reserve 0 77597520 6 -> ok
pass 5
total -> 77597520
pass 6
total -> 0

# A message of period 4 that starts at 0 and is stopped at 3 is reserved up to slot 4.
reserve 1 58198140 - -> ok
release 1 4 -> true
pass 3
total -> 58198140
pass 4
total -> 0
release 1 4 -> false

# There are 64 places.
new
reserve_64 227337 - -> 64
total -> 14549568
fits 227337 - -> Table
fits most - -> Table
fits 227337 63 -> ok
fits 227337 64 -> Table
reserve 64 227337 - -> Table
total -> 14549568
";

/// What an answer of a budget is called.
fn word_of(answer: Option<Result<(), NoRoom>>) -> &'static str {
    match answer {
        None => "none",
        Some(Ok(())) => "ok",
        Some(Err(NoRoom::Load)) => "Load",
        Some(Err(NoRoom::Table)) => "Table",
    }
}

/// What a truth is called.
fn word_of_truth(truth: bool) -> &'static str {
    if truth { "true" } else { "false" }
}

/// The next word, an entry.
fn entry_of(words: &mut Words) -> Option<u16> {
    words.word().parse::<u16>().ok()
}

/// The next word, a slot.
fn slot_of(words: &mut Words) -> Option<u32> {
    words.word().parse::<u32>().ok()
}

/// The load that the next word says.
fn load_of(words: &mut Words) -> Option<u64> {
    match words.word() {
        "most" => Some(u64::MAX),
        number => number.parse::<u64>().ok(),
    }
}

/// The end of a reservation that the next word says.
fn end_of(words: &mut Words) -> Option<Option<u32>> {
    match words.word() {
        "-" => Some(None),
        slot => Some(Some(slot.parse::<u32>().ok()?)),
    }
}

/// The entry that the next word says, or none.
fn leaving_of(words: &mut Words) -> Option<Option<u16>> {
    match words.word() {
        "-" => Some(None),
        entry => Some(Some(entry.parse::<u16>().ok()?)),
    }
}

/// What a budget answers to a question about room.
fn room(budget: &Budget, verb: &str, words: &mut Words) -> Option<&'static str> {
    let load = load_of(words)?;
    if verb == "fits" {
        let leaving = leaving_of(words)?;
        return Some(word_of(Some(budget.fits(load, leaving))));
    }
    let (behind, leaving) = (entry_of(words)?, leaving_of(words)?);
    Some(word_of(fits_behind(budget, load, behind, leaving)))
}

/// How an entry of a budget stands.
fn standing(budget: &Budget, verb: &str, words: &mut Words) -> Option<&'static str> {
    let entry = entry_of(words)?;
    let holds = match verb {
        "is_reserved" => budget.is_reserved(entry),
        "has_started" => budget.has_started(entry),
        "is_awaited" => budget.is_awaited(entry),
        "hands_over" => budget.hands_over_at(entry, slot_of(words)?),
        _ => return None,
    };
    Some(word_of_truth(holds))
}

/// `reserve ENTRY LOAD UNTIL`
fn reserve_one(budget: &mut Budget, words: &mut Words) -> Option<&'static str> {
    let (entry, load, until) = (entry_of(words)?, load_of(words)?, end_of(words)?);
    Some(word_of(reserved(budget, entry, load, until)))
}

/// `reserve_behind ENTRY LOAD BEHIND START`
fn reserve_one_behind(budget: &mut Budget, words: &mut Words) -> Option<&'static str> {
    let (entry, load) = (entry_of(words)?, load_of(words)?);
    let (behind, start) = (entry_of(words)?, slot_of(words)?);
    Some(word_of(reserved_behind(budget, entry, load, behind, start)))
}

/// `release ENTRY SLOT`
fn release_one(budget: &mut Budget, words: &mut Words) -> Option<&'static str> {
    let (entry, slot) = (entry_of(words)?, slot_of(words)?);
    Some(word_of_truth(released(budget, entry, slot)))
}

/// `pass SLOT`
fn pass_one(budget: &mut Budget, words: &mut Words) -> Option<&'static str> {
    budget.pass_slot(entry_of(words)?);
    Some("")
}

/// Makes a budget anew.
fn begin(budget: &mut Budget, made: Budget) -> Option<&'static str> {
    *budget = made;
    Some("")
}

/// `reserve_64 LOAD UNTIL`
fn reserve_64(budget: &mut Budget, words: &mut Words) -> Option<u64> {
    let (load, until) = (load_of(words)?, end_of(words)?);
    let mut count = 0_u64;
    for entry in 0..64 {
        if reserved(budget, entry, load, until) == Some(Ok(())) {
            count = count.saturating_add(1);
        }
    }
    Some(count)
}

/// `load PAGES PERIOD`
fn worked_load(words: &mut Words) -> Option<u64> {
    let (pages, period) = (words.word().parse::<u8>().ok()?, entry_of(words)?);
    if period == 0 {
        return None;
    }
    Some(load(pages, period))
}

/// Whether a number is the one that is wanted.
fn is_number(number: Option<u64>, wanted: &str) -> bool {
    match number {
        None => false,
        Some(number) => Ok(number) == wanted.parse::<u64>(),
    }
}

/// Whether what comes of an action is what is wanted.
fn is_right(budget: &mut Budget, words: &mut Words, wanted: &str) -> bool {
    let found = match words.word() {
        "load" => return is_number(worked_load(words), wanted),
        "scale" => return is_number(Some(SCALE), wanted),
        "total" => return is_number(Some(budget.reserved()), wanted),
        "reserve_64" => return is_number(reserve_64(budget, words), wanted),
        "new" => begin(budget, Budget::new()),
        "default" => begin(budget, Budget::default()),
        "pass" => pass_one(budget, words),
        "reserve" => reserve_one(budget, words),
        "reserve_behind" => reserve_one_behind(budget, words),
        "release" => release_one(budget, words),
        verb if verb.starts_with("fits") => room(budget, verb, words),
        verb => standing(budget, verb, words),
    };
    found == Some(wanted) && words.word().is_empty()
}

/// Expects what a row says.
fn expect_row(rt: &impl Abort, budget: &mut Budget, row: Row) {
    let mut words = Words::of(row.action);
    assert!(rt;
        is_right(budget, &mut words, row.wanted),
        "{} -> {}",
        row.action,
        row.wanted
    );
}

/// Expects what the rows of a table say, which are so many.
pub fn expect_rows(rt: &impl Abort, table: &str, count: u16) {
    let mut budget = Budget::new();
    let mut rows = 0_u16;
    for line in table.split('\n') {
        if let Some(row) = Row::of(line) {
            expect_row(rt, &mut budget, row);
            rows = rows.saturating_add(1);
        }
    }
    drop(budget);
    assert_eq!(rt; rows, count);
}

#[test]
fn gives_worked_loads(rt: HostRuntime) {
    scale_laws();
    reservation_laws();
    expect_rows(&rt, LOADS, 11);
}

#[test]
fn fills_exactly_and_frees_at_the_end(rt: HostRuntime) {
    expect_rows(&rt, RESERVED, 44);
}
