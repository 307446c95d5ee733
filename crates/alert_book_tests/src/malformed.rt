//! Malformed books: each front of some books, and each of their octets changed to each other value.

use crate::malformed_table::TABLE;
use crate::reading::outcome_of;
use std::alloc::AllocError;
use std::test::Fail;
use std::thread::Threads;
use test_support::Malformed;

/// The answers to books: `A` for one that is accepted, else the line of its fault. A line feed ends each.
fn answers_to<T: AllocGlobal + Threads + Sync>(
    rt: &T,
    inputs: &[Vec<u8>],
) -> Result<String, AllocError> {
    let mut answers = String::new(rt.alloc());
    for octets in inputs {
        match outcome_of(rt, octets, 64, None).fault {
            None => answers.push_str("A\n")?,
            Some(fault) => writeln!(answers, "{fault}")?,
        }
    }
    Ok(answers)
}

/// Reads a line, and compares what it says with the answers to its inputs.
fn compare<'a, T: AllocGlobal + Threads + Sync>(
    rt: &T,
    table: &mut Malformed<'a>,
    line: &'a str,
) -> Result<(), Fail> {
    let inputs = table.inputs(rt.alloc(), line)?;
    let answers = answers_to(rt, &inputs)?;
    table.compare(line, answers.as_bytes())
}

/// The table once all its lines are read.
fn table_read<T: AllocGlobal + Threads + Sync>(rt: &T) -> Result<Malformed<'static>, Fail> {
    let mut table = Malformed::new(rt.alloc());
    for line in TABLE.split('\n') {
        compare(rt, &mut table, line)?;
    }
    Ok(table)
}

#[test]
fn malformed_books_have_the_worked_answers(rt: HostRuntime) -> Result<(), Fail> {
    let table = table_read(&rt)?;
    let (differing, digests, first) = (table.differing, table.digests, table.first);
    drop(table);
    assert!(rt;
        differing == 0 && digests == 177,
        "{}: {}",
        first.0,
        first.1
    );
    Ok(())
}
