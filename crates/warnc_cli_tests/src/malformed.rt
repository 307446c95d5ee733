//! Malformed tapes: each front of some tapes, and each of their octets changed to each other value.

use crate::malformed_table::TABLE;
use command_rows::{Bench, runs};
use std::sync::Wait;
use std::test::Fail;
use std::thread::Threads;
use test_support::Malformed;

/// What the line of a fault says; octets that are no such line stay.
fn text_of(line: &[u8]) -> &[u8] {
    let text = line.strip_prefix(b"warnc: ").unwrap_or(line);
    text.strip_suffix(b"\n").unwrap_or(line)
}

/// Puts the answer of the last run, and a line feed.
fn put_answer(answers: &mut Vec<u8>, bench: &Bench, status: &str) -> Result<(), Fail> {
    answers.push(match status {
        "0" => b'R',
        "1" => b'F',
        _ => b'?',
    })?;
    answers.extend_from_slice(bench.output.left())?;
    answers.extend_from_slice(text_of(bench.faults.left()))?;
    Ok(answers.push(b'\n')?)
}

/// The answers to tapes: `R` and what the run writes, or `F` and what it says of the fault. A line feed ends each.
fn answers_to<T: AllocGlobal + Threads + Wait + Sync>(
    rt: &T,
    inputs: &[Vec<u8>],
) -> Result<Vec<u8>, Fail> {
    let mut bench = Bench::new(rt.alloc());
    bench.args = "read";
    let mut answers = Vec::new(rt.alloc());
    for octets in inputs {
        bench.input.add(octets)?;
        let status = runs(rt, &mut bench, "run", (0, 0))?;
        put_answer(&mut answers, &bench, &status)?;
    }
    Ok(answers)
}

#[test]
fn malformed_tapes_have_the_worked_answers(rt: HostRuntime) -> Result<(), Fail> {
    let mut table = Malformed::new(rt.alloc());
    for line in TABLE.split('\n') {
        let inputs = table.inputs(rt.alloc(), line)?;
        let answers = answers_to(&rt, &inputs)?;
        table.compare(line, &answers)?;
    }
    let (input, line) = table.first;
    assert_eq!(rt; table.differing, 0, "{input}: {line}");
    assert_eq!(rt; table.digests, 233);
    Ok(())
}
