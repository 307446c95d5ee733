//! Malformed messages: each front of some messages, and each of their octets changed to each other value.

use crate::of_cbsp_wire::malformed_table::TABLE;
use crate::of_cbsp_wire::rows::names_of;
use cbsp_wire::{WireFault, read, write};
use std::alloc::{AllocError, Global};
use std::test::Fail;
use test_support::{Malformed, digits_of};

/// The octets to which what others mean is written back.
fn written_back(alloc: Global, octets: &[u8]) -> Result<Vec<u8>, WireFault> {
    let message = read(alloc, octets)?;
    let written = write(alloc, &message);
    drop(message);
    written
}

/// The answers to messages, each with a line feed.
fn answers_to(alloc: Global, inputs: &[Vec<u8>]) -> Result<String, AllocError> {
    let mut answers = String::new(alloc);
    for octets in inputs {
        match written_back(alloc, octets) {
            Ok(written) => {
                answers.push_str("M")?;
                answers.push_str(&digits_of(alloc, &written)?)?;
            }
            Err(fault) => answers.push_str(names_of(fault).1)?,
        }
        answers.push_str("\n")?;
    }
    Ok(answers)
}

/// Reads a line, and compares what it says with the answers to its inputs.
fn compare<'a>(alloc: Global, table: &mut Malformed<'a>, line: &'a str) -> Result<(), Fail> {
    let inputs = table.inputs(alloc, line)?;
    let answers = answers_to(alloc, &inputs)?;
    table.compare(line, answers.as_bytes())
}

/// The table once all its lines are read.
fn table_read(alloc: Global) -> Result<Malformed<'static>, Fail> {
    let mut table = Malformed::new(alloc);
    for line in TABLE.split('\n') {
        compare(alloc, &mut table, line)?;
    }
    Ok(table)
}

#[test]
fn malformed_messages_have_the_worked_answers(rt: HostRuntime) -> Result<(), Fail> {
    let table = table_read(rt.alloc())?;
    let (differing, digests, first) = (table.differing, table.digests, table.first);
    drop(table);
    assert!(rt;
        differing == 0 && digests == 269,
        "{}: {}",
        first.0,
        first.1
    );
    Ok(())
}
