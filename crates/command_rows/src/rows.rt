//! The lines of a table, and what comes of them.
//!
//! What the next run gets:
//!
//! - `args WORDS`: the command line without the program's name, up to the next such line;
//! - `in TEXT`, `in-hex DIGITS ..`, `in-worked`: a line of input, octets of it, or the worked octets. The first after
//!   a run begins a new input; `in-cells FROM END` is the lines of these cells of LAC 1, the last one left out;
//! `in-none` is one of no octets, and `repeat N` has the input N times;
//! - `book TEXT`, `book-cells FROM END`, `book-none`: such lines of the book that `verify` gets beside its input;
//!   `bookless`: the next run gets none;
//! - `worked TEXT`, `worked-hex DIGITS ..`: worked octets, with which an output is compared; `keep` has them be what
//!   the last run wrote;
//! - `reader N CALLS`, `writer N CALLS`, `faults N CALLS`: the device moves N octets a call, and fails after so many
//!   calls. At other runs none fails.
//!
//! The program runs:
//!
//! - `run -> STATUS`. Lines say then what it wrote: `out -> LINE`, the next line of the output; `out N -> LINE`, the
//!   next N lines, which are the same; `starts TEXT -> yes`, the next line begins so; `past TEXT -> yes`, a line has
//!   the text, and the line after it is the next; `all -> worked` or `all -> N of M`, how much of the worked octets it
//!   is; `says TEXT -> yes` and `lists COMMAND -> yes`, all that is left of it does; `err -> LINE`, the next line of
//!   the faults. If no line speaks of an octet, the next run is no action;
//! - `fails -> STATUS LINE`: all that it writes is a line of faults;
//! - `usage -> STATUS WORD`: all that it writes is faults that begin with this word;
//! - `fronts N M -> STATUS LINE`: it `fails` so on each front of the input that has N to M octets;
//! - `reads N M -> STATUS LINE`: it `fails` so with a reader of an octet a call that fails after N to M calls;
//!   `book-reads N M -> STATUS LINE`: with such a reader of the book;
//! - `scarce STEPS LEAST -> worked`: it runs again and again, each time short of memory. A run makes so many steps: it
//!   asks for the allocator, or it reads. Memory ends at each step in turn, but for a room that grows by a least block
//!   until the run comes to its next step, or at the last step until it isn't refused. It is refused so often at least,
//!   and each time it says so, has written nothing, and left a book that it doesn't ask for; and then it writes the
//!   worked octets with all memory. `args page-stream` calls the engine of `page` alone here, as for the worked page;
//! - `scarce-later FIRST FRONT STEPS LEAST -> worked`: so too from a step on, when a network's first group is written,
//!   which has so many octets;
//! - `scarce-threads STEPS LEAST -> worked`: so too at the first so many steps, before there are threads; it isn't run
//!   with all memory, since threads keep memory of a process. `refused to the end`: the largest room is too small.

use crate::attempts::attempts;
use crate::bench::{Bench, Pace, runs};
use crate::octets::{Sheet, Written};
use std::alloc::Global;
use std::sync::Wait;
use std::test::Fail;
use std::thread::Threads;
use test_support::{Row, Words};

/// Expects that no word is left.
fn end(words: &mut Words) -> Result<(), Fail> {
    if words.word().is_empty() {
        return Ok(());
    }
    Err(Fail::new("words are left over"))
}

/// The pace that two numbers say.
fn pace_of(numbers: &str) -> Result<Pace, Fail> {
    let mut numbers = Words::of(numbers);
    let octets = usize::from(numbers.number16()?);
    let calls = Some(numbers.word().parse::<usize>()?);
    end(&mut numbers)?;
    Ok(Pace { octets, calls })
}

/// Adds lines that declare the cells of LAC 1 and of the CI from one number on up to another, without it.
fn add_cells(alloc: Global, sheet: &mut Sheet, numbers: &str) -> Result<(), Fail> {
    let (from, to) = numbers_of(numbers)?;
    for ci in from..to {
        let line = format!(in alloc; "cell,1,{ci}")?;
        sheet.add_line(&line)?;
    }
    Ok(())
}

/// Has what a line says for the next run.
fn set<'a>(
    alloc: Global,
    bench: &mut Bench<'a>,
    verb: &str,
    rest: &'a str,
) -> Result<String, Fail> {
    match verb {
        "args" => bench.args = rest,
        "in" => bench.input.add_line(rest)?,
        "in-hex" => bench.input.add_hex(alloc, rest)?,
        "in-cells" => add_cells(alloc, &mut bench.input, rest)?,
        "in-none" if rest.is_empty() => bench.input.add(b"")?,
        "in-worked" if rest.is_empty() => bench.input.add(&bench.worked.octets)?,
        "book" => bench.book.add_line(rest)?,
        "book-cells" => add_cells(alloc, &mut bench.book, rest)?,
        "book-none" if rest.is_empty() => bench.book.add(b"")?,
        "bookless" if rest.is_empty() => bench.is_bookless = true,
        "repeat" => bench.input.repeat(alloc, rest.parse::<u64>()?)?,
        "worked" => bench.worked.add_line(rest)?,
        "worked-hex" => bench.worked.add_hex(alloc, rest)?,
        "keep" if rest.is_empty() => bench.output.give_to(&mut bench.worked)?,
        "reader" => bench.reader = pace_of(rest)?,
        "writer" => bench.writer = pace_of(rest)?,
        "faults" => bench.faults_writer = pace_of(rest)?,
        _ => return Ok(String::from_str(alloc, "no such action")?),
    }
    Ok(String::new(alloc))
}

/// The next lines, if they are all the same.
fn lines(alloc: Global, written: &mut Written, rest: &str) -> Result<String, Fail> {
    let count = if rest.is_empty() {
        1
    } else {
        rest.parse::<u16>()?
    };
    let line = written.line(alloc)?;
    for _ in 1..count {
        let next = written.line(alloc)?;
        if next != line {
            return Ok(next);
        }
    }
    Ok(line)
}

/// What a line reads of the last run.
fn shown(alloc: Global, bench: &mut Bench, verb: &str, rest: &str) -> Result<String, Fail> {
    let is_so = match verb {
        "out" => return lines(alloc, &mut bench.output, rest),
        "err" => return lines(alloc, &mut bench.faults, rest),
        "all" if rest.is_empty() => return bench.output.part_of(alloc, &bench.worked.octets),
        "starts" => bench.output.line(alloc)?.starts_with(rest),
        "past" => bench.output.passes(alloc, rest)?,
        "says" => bench.output.rest(alloc)?.contains(rest),
        _ => {
            let listed = format!(in alloc; "\n  {rest} ")?;
            bench.output.rest(alloc)?.contains(listed.as_str())
        }
    };
    Ok(String::from_str(alloc, if is_so { "yes" } else { "no" })?)
}

/// The numbers of a line that runs the program; 0 and 0 if it has none.
fn numbers_of(rest: &str) -> Result<(u16, u16), Fail> {
    if rest.is_empty() {
        return Ok((0, 0));
    }
    let mut numbers = Words::of(rest);
    let both = (numbers.number16()?, numbers.number16()?);
    end(&mut numbers)?;
    Ok(both)
}

/// What comes of an action.
fn carried_out<'a, T: AllocGlobal + Threads + Wait + Sync>(
    rt: &T,
    bench: &mut Bench<'a>,
    action: &'a str,
) -> Result<String, Fail> {
    let (verb, rest) = action.split_once(' ').unwrap_or((action, ""));
    match verb {
        "run" | "fails" | "usage" | "fronts" | "reads" | "book-reads" if bench.unseen() == 0 => {
            runs(rt, bench, verb, numbers_of(rest)?)
        }
        "scarce" | "scarce-later" | "scarce-threads" if bench.unseen() == 0 => {
            attempts(rt, bench, verb, rest)
        }
        "out" | "err" | "starts" | "past" | "all" | "says" | "lists" => {
            shown(rt.alloc(), bench, verb, rest)
        }
        _ => set(rt.alloc(), bench, verb, rest),
    }
}

/// Carries the rows of a table out, and returns how many there are; an error if one finds what it doesn't want.
fn rows_in<'a, T: AllocGlobal + Threads + Wait + Sync>(
    rt: &T,
    bench: &mut Bench<'a>,
    table: &'a str,
) -> Result<u16, Fail> {
    let mut rows = 0_u16;
    for line in table.split('\n') {
        let Some(row) = Row::of(line) else {
            continue;
        };
        let found = carried_out(rt, bench, row.action)?;
        if found.as_str() != row.wanted {
            return Err(Fail::new(format_args!("{line}: {found}")));
        }
        rows = rows.saturating_add(1);
    }
    Ok(rows)
}

/// How many rows a table has.
///
/// # Errors
///
/// A row that finds what it doesn't want, or octets of the last run that no row looked at.
pub fn count_rows<T: AllocGlobal + Threads + Wait + Sync>(
    rt: &T,
    table: &str,
) -> Result<u16, Fail> {
    let mut bench = Bench::new(rt.alloc());
    let rows = rows_in(rt, &mut bench, table);
    let unseen = bench.unseen();
    drop(bench);
    if unseen > 0 {
        rows?;
        return Err(Fail::new("octets of the last run weren't looked at"));
    }
    rows
}
