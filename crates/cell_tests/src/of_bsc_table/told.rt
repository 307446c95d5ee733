//! How tables name what a cell answers and airs.

use bsc_table::{Aired, Answer, State};
use cbsp_wire::{Cell, cause};
use std::alloc::AllocError;
use std::fmt::Write;

/// Puts how often a message was broadcast, and how it stands.
pub fn put_standing(told: &mut String, completed: u16, state: State) -> Result<(), AllocError> {
    match state {
        State::Standing => write!(told, "{completed} standing"),
        State::Stopped { slot } => write!(told, "{completed} stopped at {slot}"),
        State::RanOut => write!(told, "{completed} ran out"),
    }
}

/// The name of a cause.
fn name_of(cause: u8) -> &'static str {
    match cause {
        cause::MESSAGE_REFERENCE_NOT_IDENTIFIED => "message reference not identified",
        cause::BSC_CAPACITY_EXCEEDED => "bsc capacity exceeded",
        cause::CELL_MEMORY_EXCEEDED => "cell memory exceeded",
        cause::BSC_MEMORY_EXCEEDED => "bsc memory exceeded",
        cause::CELL_BROADCAST_NOT_OPERATIONAL => "cell broadcast not operational",
        cause::MESSAGE_REFERENCE_ALREADY_USED => "message reference already used",
        _ => "another cause",
    }
}

/// Puts the answer to a command.
pub fn put_answer(told: &mut String, answer: Answer) -> Result<(), AllocError> {
    match answer {
        Answer::Started { slot } => write!(told, "started at {slot}"),
        Answer::Replaced { slot, completed } => {
            write!(told, "replaced at {slot}, {completed} completed")
        }
        Answer::Stopped { completed } => write!(told, "stopped, {completed} completed"),
        Answer::Told { completed, state } => put_standing(told, completed, state),
        Answer::Unknown => told.push_str("unknown"),
        Answer::Cause(cause) => write!(told, "refused: {}", name_of(cause)),
        Answer::Refused => told.push_str("out of memory"),
    }
}

/// Puts what was aired, slot by slot: the entry of a message and its page, or `-`.
pub fn put_air(told: &mut String, air: &[Option<Aired>]) -> Result<(), AllocError> {
    for (place, slot) in air.iter().enumerate() {
        if place > 0 {
            told.push(' ')?;
        }
        match slot {
            Some(aired) => write!(told, "{}/{}", aired.entry, aired.page)?,
            None => told.push('-')?,
        }
    }
    Ok(())
}

/// Puts a cell, by its location area code and its cell identity.
pub fn put_cell(told: &mut String, cell: Cell) -> Result<(), AllocError> {
    write!(told, "{}-{}", cell.lac, cell.ci)
}
