//! Records of runs, as the tables write them: `1-1 4 write_a write_b` is the run of four slots of cell 1-1, to which
//! these two messages come before the first slot.

ghost use Rattle.std.specs.Prelude.{IfSome};
ghost use Rattle.bsc_table.specs.Orders.{IsWellFormed};

use crate::of_cbch_blocks::octets::octets_named;
use bsc_table::{Answer, CellBook, CellRecord, Command, orders_of};
use cbsp_wire::{Cell, read};
use std::alloc::Global;
use std::test::Fail;
use test_support::Words;

/// A cell, and how many slots its run has.
pub fn cell_in(words: &mut Words) -> Result<(Cell, u16), Fail> {
    let (lac, ci) = words.word().split_once('-').unwrap_or(("", ""));
    let cell = Cell {
        lac: lac.parse::<u16>()?,
        ci: ci.parse::<u16>()?,
    };
    Ok((cell, words.number16()?))
}

/// Whether a book starts a write at slot 0.
fn is_started(book: &mut CellBook, command: &Command) -> bool
    requires { IsWellFormed command.now }
{
    book.apply(command) == Answer::Started { slot: 0 }
}

/// The command of a message that orders something of cell 1-1 alone.
fn command_of(alloc: Global, octets: &[u8]) -> Option<Command>
    ensures { IfSome result (λ command. IsWellFormed command) }
{
    let message = read(alloc, octets).ok()?;
    match orders_of(message) {
        Ok((cells, command)) => {
            if cells.as_slice() == [Cell { lac: 1, ci: 1 }].as_slice() {
                return Some(command);
            }
            drop(command);
            None
        }
        Err(_) => None,
    }
}

/// Has a book start the write of a message.
fn order(alloc: Global, book: &mut CellBook, word: &str) -> Result<(), Fail> {
    let octets = octets_named(alloc, word)?;
    let is_started = match command_of(alloc, &octets) {
        Some(command) => {
            let is_started = is_started(book, &command);
            drop(command);
            is_started
        }
        None => false,
    };
    if is_started {
        return Ok(());
    }
    Err(Fail::new("a message whose write isn't started"))
}

/// Has a book start the writes of all messages that are left.
fn order_all(alloc: Global, book: &mut CellBook, words: &mut Words) -> Result<(), Fail> {
    for _ in 0..4 {
        let word = words.word();
        if !word.is_empty() {
            order(alloc, book, word)?;
        }
    }
    Ok(())
}

/// The record of a run, once all its slots are played.
fn played_out(mut book: CellBook) -> CellRecord {
    book.play(u16::MAX);
    book.finish()
}

/// The record of a run.
pub fn record_of(alloc: Global, words: &mut Words) -> Result<CellRecord, Fail> {
    let (cell, slots) = cell_in(words)?;
    let mut book = CellBook::open(alloc, cell, slots)?;
    let ordered = order_all(alloc, &mut book, words);
    let run = played_out(book);
    match ordered {
        Ok(()) => Ok(run),
        Err(fail) => {
            drop(run);
            Err(fail)
        }
    }
}
