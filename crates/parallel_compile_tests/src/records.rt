//! Records of short runs, and their tapes.

ghost use Rattle.std.specs.Prelude.{◌≤◌, IfOk, length};

use bsc_table::{Answer, Category, CellBook, CellRecord, Command};
use cbch_blocks::{Tape, tape_of};
use cbs_page::{Content, Dcs, Serial};
use cbsp_wire::{Cell, Contents};
use std::alloc::{AllocError, Global};
use std::process::Abort;
use std::test::Fail;
use test_support::Words;

/// The record of a run, once all its slots are played.
fn played_out(mut book: CellBook) -> CellRecord {
    book.play(u16::MAX);
    book.finish()
}

/// The record of a run of a cell of location area 1 in which nothing is asked.
fn idle(alloc: Global, ci: u16, slots: u16) -> Result<CellRecord, Fail> {
    Ok(played_out(CellBook::open(alloc, Cell { lac: 1, ci }, slots)?))
}

/// The answer to an order to air one page in every second slot.
fn answer_to_page(alloc: Global, book: &mut CellBook) -> Result<Answer, AllocError> {
    let page = Content {
        used: 82,
        octets: [0xA1; 82],
    };
    let contents = Contents::new(Vec::from_slice(alloc, [page].as_slice())?)?;
    let write = Command::Write {
        id: 4370,
        serial: Serial::of(0x0010),
        replaces: None,
        category: Category::Normal,
        period: 2,
        broadcasts: 0,
        dcs: Dcs(0x01),
        contents,
    };
    let answer = book.apply(&write);
    drop(write);
    Ok(answer)
}

/// The record of five slots of cell 1-3, which airs one page in every second slot.
fn airing(rt: &impl Abort, alloc: Global) -> Result<CellRecord, Fail> {
    let mut book = CellBook::open(alloc, Cell { lac: 1, ci: 3 }, 5)?;
    let answer = answer_to_page(alloc, &mut book);
    let is_started = matches!(answer, Ok(Answer::Started { slot: 0 }));
    assert!(rt; is_started);
    Ok(played_out(book))
}

/// The tape of an idle cell of two slots.
pub fn tape_with(alloc: Global, ci: u16) -> Result<Tape, Fail> {
    Ok(tape_of(alloc, &idle(alloc, ci, 2)?)?)
}

/// The record that a word names.
fn record_of(rt: &impl Abort, alloc: Global, word: &str) -> Result<CellRecord, Fail> {
    match word.split_once('/') {
        Some((ci, slots)) => idle(alloc, ci.parse::<u16>()?, slots.parse::<u16>()?),
        None if word == "airing" => airing(rt, alloc),
        None => Err(Fail::new("no such record")),
    }
}

/// The records that the words name that are left, at most eight.
pub fn records_of(
    rt: &impl Abort,
    alloc: Global,
    words: &mut Words,
) -> Result<Vec<CellRecord>, Fail> {
    let mut records = Vec::new(alloc);
    for _ in 0..8 {
        let word = words.word();
        if word.is_empty() {
            break;
        }
        records.push(record_of(rt, alloc, word)?)?;
    }
    Ok(records)
}
