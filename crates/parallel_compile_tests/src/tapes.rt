//! Tapes out of pieces, and tapes of records, by one thread or by several.

use crate::records::{records_of, tape_with};
use crate::table::Stage;
use bsc_table::CellRecord;
use cbch_blocks::Tape;
use parallel_compile::{CompileFault, compile_all, compile_one, gather};
use std::alloc::Global;
use std::process::Abort;
use std::test::Fail;
use std::thread::Threads;
use test_support::{Words, digits_of};

/// Whether tapes have these octets, and there are as many.
pub fn is_same(tapes: &[Tape], wanted: &[Tape]) -> bool {
    for (tape, other) in tapes.iter().zip(wanted) {
        if tape.bytes() != other.bytes() {
            return false;
        }
    }
    tapes.len() == wanted.len()
}

/// The pieces whose numbers are the words that are left, at most eight.
fn pieces_of(alloc: Global, words: &mut Words) -> Result<Vec<(u64, Tape)>, Fail> {
    let mut pieces = Vec::new(alloc);
    for _ in 0..8 {
        let word = words.word();
        if word.is_empty() {
            break;
        }
        let number = word.parse::<u16>()?;
        pieces.push((u64::from(number), tape_with(alloc, number)?))?;
    }
    Ok(pieces)
}

/// Whether tapes are of cells 1-0, 1-1 and so on.
fn are_in_order(alloc: Global, tapes: &[Tape]) -> Result<bool, Fail> {
    let mut ci = 0_u16;
    for tape in tapes {
        if tape.bytes() != tape_with(alloc, ci)?.bytes() {
            return Ok(false);
        }
        ci = ci.saturating_add(1);
    }
    Ok(true)
}

/// Gathers pieces.
fn gathered_of(
    alloc: Global,
    stage: &mut Stage,
    count: u16,
    pieces: Vec<(u64, Tape)>,
) -> Result<Vec<Tape>, CompileFault> {
    stage.begin(alloc);
    let outcome = gather(alloc, usize::from(count), pieces);
    stage.end();
    outcome
}

/// How many tapes there are, which have to be in order.
fn in_order_text(alloc: Global, tapes: &[Tape]) -> Result<String, Fail> {
    if are_in_order(alloc, tapes)? {
        return Ok(format!(in alloc; "{} in order", tapes.len())?);
    }
    Err(Fail::new("the tapes are of other cells"))
}

/// How many tapes are gathered, and whether they are in order.
pub fn gathered(alloc: Global, stage: &mut Stage, words: &mut Words) -> Result<String, Fail> {
    let count = words.number16()?;
    let pieces = pieces_of(alloc, words)?;
    match gathered_of(alloc, stage, count, pieces) {
        Ok(tapes) => in_order_text(alloc, &tapes),
        Err(fault) => Ok(format!(in alloc; "{fault:?}")?),
    }
}

/// The tapes of records by one thread.
pub fn by_one(alloc: Global, records: &[CellRecord]) -> Result<Vec<Tape>, CompileFault> {
    compile_one(alloc, records)
}

/// The same on a stage.
fn made_by_one(
    alloc: Global,
    stage: &mut Stage,
    records: &[CellRecord],
) -> Result<Vec<Tape>, CompileFault> {
    stage.begin(alloc);
    let outcome = by_one(alloc, records);
    stage.end();
    outcome
}

/// The tapes of at most 64 records by so many workers.
fn made_by<T: AllocGlobal + Threads + Sync>(
    rt: &T,
    stage: &mut Stage,
    workers: u64,
    records: &[CellRecord],
) -> Result<Vec<Tape>, CompileFault> {
    if records.len() > 64 {
        return Ok(Vec::new(rt.alloc()));
    }
    stage.begin(rt.alloc());
    let outcome = compile_all(rt, rt.alloc(), records, workers, &stage.gate);
    stage.end();
    outcome
}

/// How many tapes are made, which have to be those that one thread makes with all memory.
fn as_by_one(
    alloc: Global,
    outcome: Result<Vec<Tape>, CompileFault>,
    wanted: &[Tape],
) -> Result<String, Fail> {
    match outcome {
        Ok(tapes) if is_same(&tapes, wanted) => Ok(format!(in alloc; "{} as by one", tapes.len())?),
        Ok(_) => Err(Fail::new("one thread makes other tapes")),
        Err(fault) => Ok(format!(in alloc; "{fault:?}")?),
    }
}

/// What comes of workers, or of the call that takes none, `one`, that make tapes.
pub fn compiled<T: AllocGlobal + Threads + Abort + Sync>(
    rt: &T,
    stage: &mut Stage,
    words: &mut Words,
) -> Result<String, Fail> {
    let alloc = rt.alloc();
    let workers = words.word();
    let records = records_of(rt, alloc, words)?;
    let outcome = match workers {
        "one" => made_by_one(alloc, stage, &records),
        count => made_by(rt, stage, count.parse::<u64>()?, &records),
    };
    as_by_one(alloc, outcome, &by_one(alloc, &records)?)
}

/// How many idle blocks these octets are.
fn idle_blocks(octets: &[u8]) -> Result<usize, Fail> {
    for (place, octet) in octets.iter().enumerate() {
        let wanted = if place % 23 == 0 { 0x2F } else { 0x2B };
        if *octet != wanted {
            return Err(Fail::new("a block isn't idle"));
        }
    }
    if octets.len() % 23 != 0 {
        return Err(Fail::new("a block is cut off"));
    }
    Ok(octets.len() / 23)
}

/// A tape's header, and how many idle blocks follow.
fn header_text(alloc: Global, tape: &Tape) -> Result<String, Fail> {
    let Some((header, blocks)) = tape.bytes().split_at_checked(8) else {
        return Err(Fail::new("no header"));
    };
    let header = digits_of(alloc, header)?;
    let idle = idle_blocks(blocks)?;
    Ok(format!(in alloc; "{header} and {idle} idle")?)
}

/// The headers of tapes, and how many idle blocks follow.
fn headers_text(alloc: Global, tapes: &[Tape]) -> Result<String, Fail> {
    let mut text = String::new(alloc);
    for tape in tapes {
        if !text.is_empty() {
            text.push_str(", ")?;
        }
        text.push_str(&header_text(alloc, tape)?)?;
    }
    Ok(text)
}

/// The headers of the tapes that workers make, and how many idle blocks follow.
pub fn headers<T: AllocGlobal + Threads + Abort + Sync>(
    rt: &T,
    stage: &mut Stage,
    words: &mut Words,
) -> Result<String, Fail> {
    let workers = words.number()?;
    let records = records_of(rt, rt.alloc(), words)?;
    let tapes = made_by(rt, stage, workers, &records)?;
    headers_text(rt.alloc(), &tapes)
}

/// A fault's text.
pub fn text_of(alloc: Global, words: &mut Words) -> Result<String, Fail> {
    let fault = match words.word() {
        "piece" => CompileFault::Piece { index: 7 },
        "workers" => CompileFault::Workers,
        "refused" => CompileFault::Refused,
        _ => return Err(Fail::new("no such fault")),
    };
    Ok(format!(in alloc; "{fault}")?)
}
