//! Malformed tapes that are read as one: each front of two tapes, and each of their octets changed to each other value.

use crate::of_handset::malformed_table::TABLE;
use crate::of_handset::tapes::put_reading;
use device_ends::Source;
use device_ends::memory::MemoryReader;
use handset::{Reading, read_tape};
use std::alloc::{AllocError, Global};
use std::fmt::Write;
use std::test::Fail;
use test_support::Malformed;

/// Puts a reading as an answer.
fn put_read(answers: &mut String, reading: &Reading) -> Result<(), AllocError> {
    answers.push('R')?;
    put_reading(answers, reading)?;
    answers.push('\n')
}

/// Puts the answer to a tape: `R` and what it is read as, or `F` and the fault. A line feed ends it.
fn put_answer(alloc: Global, answers: &mut String, octets: &[u8]) -> Result<(), AllocError> {
    let mut reader = MemoryReader::new(octets, 1000, None);
    match read_tape(alloc, &mut Source::new(&mut reader)) {
        Ok(reading) => put_read(answers, &reading),
        Err(fault) => writeln!(answers, "F{fault}"),
    }
}

/// The answers to tapes.
fn answers_to(alloc: Global, inputs: &[Vec<u8>]) -> Result<String, AllocError> {
    let mut answers = String::new(alloc);
    for octets in inputs {
        put_answer(alloc, &mut answers, octets)?;
    }
    Ok(answers)
}

/// Reads a line, and compares what it says with the answers to its inputs.
fn compare<'a>(alloc: Global, table: &mut Malformed<'a>, line: &'a str) -> Result<(), Fail> {
    let inputs = table.inputs(alloc, line)?;
    let answers = answers_to(alloc, &inputs)?;
    table.compare(line, answers.as_bytes())
}

/// The table once all its lines are read.
fn table_read(alloc: Global) -> Result<Malformed<'static>, Fail> {
    let mut table = Malformed::new(alloc);
    for line in TABLE.split('\n') {
        compare(alloc, &mut table, line)?;
    }
    Ok(table)
}

#[test]
fn malformed_tapes_have_the_worked_answers(rt: HostRuntime) -> Result<(), Fail> {
    let table = table_read(rt.alloc())?;
    let (differing, digests, first) = (table.differing, table.digests, table.first);
    drop(table);
    assert_eq!(&rt; (differing, digests), (0, 242), "{}: {}", first.0, first.1);
    Ok(())
}
