//! Tapes that are built octet by octet, whole, cut short and made longer, and readers that fail.
//!
//! The octets are what these lines add: `hex DIGITS ..`; `tape N`, the tape of 192 octets of cell 1-1 with the worked
//! page and an idle slot, with N in the header as the number of its slots; `page`, the worked page's blocks, and
//! `page 12` the same with page parameter 12; `idle N`, the blocks of N idle slots. `repeat N` has them N times, and
//! `new` begins anew.
//!
//! `one` reads them as one tape, `all` as tapes: the answer has the cell, the number of slots and the messages of each,
//! or the fault. `one N CALLS` and `all N CALLS` have a reader of N octets a call that fails after so many calls, and
//! the answer says how many octets it still has. `after DIGITS` hands readings on to a list that has the reading of the
//! tape of these digits. `fronts N M` reads each front of N to M octets both ways. `fails N CALLS` reads both ways with
//! a reader of N octets a call that fails after 0 to CALLS calls, and once more after the fault.
//!
//! `record` reads them as tapes and keeps what these hold: the answer has the types of the blocks instead of the
//! messages. `record N CALLS` is with a reader that fails.
//!
//! `scarce one`, `scarce all` and `scarce record` read with hardly any memory, with one block more each time until it
//! isn't refused.
//! After each refusal the source must not have failed, and the octets are read by a source and into a list made anew,
//! with all memory.

use crate::of_handset::worked::{IDLE, WORKED};
use device_ends::Source;
use device_ends::memory::MemoryReader;
use handset::{
    Reading, Recording, Refused, TapeFault, read_each, read_tape, read_tapes, record_each,
};
use std::alloc::{AllocError, Global};
use std::fmt::Write;
use std::process::Abort;
use std::test::Fail;
use test_support::{Drought, Row, Words, after_refusals, octets_of};

const WHOLE: &str = "
tape 2
length -> 192
one -> 1-1 2 slots: 4370 0010 @
all -> 1-1 2 slots: 4370 0010 @
repeat 2
all -> 1-1 2 slots: 4370 0010 @; 1-1 2 slots: 4370 0010 @

# no slots; readings are handed on in order, after those that were there
new
hex 1234 5678 00000000
one -> 4660-22136 0 slots
new
tape 2
hex 1234 5678 00000000
after 1234567800000000 -> 4660-22136 0 slots; 1-1 2 slots: 4370 0010 @; 4660-22136 0 slots

# a page right behind itself, and behind an idle slot; pages of a message of two that come again at once; a page that
# can't be read, twice; blocks of a page that isn't whole, and then a page twice
new
hex 0001 0003 00000004
page
page
idle 1
page
one -> 1-3 4 slots: 4370 0010 @
new
hex 0001 0004 00000006
page 12
page 12
page 12
page 22
page 22
page 12
one -> 1-4 6 slots: 4370 0010 @@
new
hex 0001 0005 00000003
page 21
page 21
page
one -> 1-5 3 slots: 4370 0010 @
new
hex 0001 0006 00000003
hex 2000000000000000000000000000000000000000000000
hex 2100000000000000000000000000000000000000000000
hex 2200000000000000000000000000000000000000000000
page
page
hex 2f00000000000000000000000000000000000000000000
one -> 1-6 3 slots: 4370 0010 @

# 65,535 slots, which take many pieces: the page is in the last slot
new
hex 0001 0001 0000ffff
idle 65534
page
length -> 6029228
one -> 1-1 65535 slots: 4370 0010 @
";

const FAULTS: &str = "
# an octet more than a tape, and each front of it
tape 2
hex 00
one -> Long
all -> Short
fronts 1 191 -> Short, Short

# no octets: no tapes
new
one -> Short
all ->
# 65,535 slots, and 65,536
hex 0001 0001 0000ffff
one -> Short
all -> Short
new
hex 0001 0001 00010000
one -> Long
all -> Long
# fewer slots in the header: the idle blocks are then taken for a header with 2B2B2B2B slots; then more slots
new
tape 1
one -> Long
all -> Long
new
tape 3
one -> Short
all -> Short

texts -> tape is short; tape is long; read failed; out of memory; memory allocation failed
";

/// What tapes hold, and which faults there are, as for readings.
const RECORDED: &str = "
tape 2
record -> 1-1 2 slots: 20 21 22 33 2f 2f 2f 2f
record 1 193 -> 1-1 2 slots: 20 21 22 33 2f 2f 2f 2f, 0 left
record 1 192 -> ReadFailed, source failed
hex 1234 5678 00000000
record -> 1-1 2 slots: 20 21 22 33 2f 2f 2f 2f; 4660-22136 0 slots:
scarce record -> refused; 1-1 2 slots: 20 21 22 33 2f 2f 2f 2f; 4660-22136 0 slots:
hex 00
record -> Short
new
record ->
hex 0001 0001 00010000
record 1000 1 -> Long, 0 left
new
hex 1234 5678 00000000
repeat 64
hex 0001
record 1000 65 -> Long, 1 left
";

/// A reader that is asked once more than it has to be would be told as failed.
const ENDS: &str = "
# 192 calls of one octet, and one for the end
tape 2
fails 1 192 -> each
one 1 193 -> 1-1 2 slots: 4370 0010 @, 0 left
all 1 193 -> 1-1 2 slots: 4370 0010 @, 0 left
# 28 calls of seven octets, and one for the end
fails 7 27 -> each
one -> 1-1 2 slots: 4370 0010 @
# two calls of 100 octets, and one for the end
fails 100 2 -> each

# 64 tapes are read, and nothing after the octet that follows the last tape that may be there: a call for each of the
# headers, and one for that octet
new
hex 1234 5678 00000000
repeat 64
count -> 64
hex 0001
all 1000 65 -> Long, 1 left
one 1000 2 -> Long, 505 left

# eight octets that say 65,536 slots decide
new
hex 0001 0001 00010000
one 1000 1 -> Long, 0 left
# a call for the header of the first tape, one for its blocks, and one for the second header
new
tape 2
hex 0001 0001 00010000 20
all 1000 3 -> Long, 1 left
";

/// Tapes that are read with scarce memory, of which 65,504 octets go to the blocks that are read at once.
const SCARCE: &str = "
# a message of two pages, with an idle slot between, and then another page
hex 0001 0002 00000004
page 12
idle 1
page 22
page
length -> 376
scarce one -> refused; 1-2 4 slots: 4370 0010 @@
scarce all -> refused; 1-2 4 slots: 4370 0010 @@

# five of these tapes, and one that is cut short
repeat 5
scarce all -> refused; 1-2 4 slots: 4370 0010 @@; 1-2 4 slots: 4370 0010 @@; 1-2 4 slots: 4370 0010 @@; \
    1-2 4 slots: 4370 0010 @@; 1-2 4 slots: 4370 0010 @@
hex 0001
scarce all -> refused; Short
";

/// A reader that gives many octets a call, and doesn't fail.
const STEADY: (usize, Option<usize>) = (1000, None);

/// Appends four blocks.
fn push_blocks(octets: &mut Vec<u8>, blocks: &[[u8; 23]; 4]) -> Result<(), Fail> {
    for block in blocks {
        octets.extend_from_slice(block)?;
    }
    Ok(())
}

/// Appends the worked page, with the page parameter that a word says, if there is one.
fn push_page(octets: &mut Vec<u8>, parameter: &str) -> Result<(), Fail> {
    let mut page = WORKED;
    if !parameter.is_empty() {
        page[0][6] = u8::from_str_radix(parameter, 16)?;
    }
    push_blocks(octets, &page)
}

/// Appends the tape of cell 1-1 that airs the worked page in the first of two slots, and says how many it has.
fn push_tape(octets: &mut Vec<u8>, slots: u16) -> Result<(), Fail> {
    octets.extend_from_slice(&[0x00, 0x01, 0x00, 0x01, 0x00, 0x00])?;
    octets.extend_from_slice(&slots.to_be_bytes())?;
    push_blocks(octets, &WORKED)?;
    push_blocks(octets, &[IDLE; 4])
}

/// Appends idle slots.
fn push_idle(octets: &mut Vec<u8>, slots: u16) -> Result<(), Fail> {
    for _ in 0..slots {
        push_blocks(octets, &[IDLE; 4])?;
    }
    Ok(())
}

/// Has the octets so many times.
fn repeat(alloc: Global, octets: &mut Vec<u8>, times: u16) -> Result<(), Fail> {
    let once = Vec::from_slice(alloc, octets)?;
    for _ in 1..times {
        octets.extend_from_slice(&once)?;
    }
    Ok(())
}

/// Adds what a line says to the octets.
fn add(alloc: Global, octets: &mut Vec<u8>, verb: &str, words: &mut Words) -> Result<String, Fail> {
    match verb {
        "new" => octets.clear(),
        "hex" => add_hex(alloc, octets, words)?,
        "tape" => push_tape(octets, words.number16()?)?,
        "page" => push_page(octets, words.word())?,
        "idle" => push_idle(octets, words.number16()?)?,
        "repeat" => repeat(alloc, octets, words.number16()?)?,
        _ => return Ok(String::from_str(alloc, "no such action")?),
    }
    Ok(String::new(alloc))
}

/// Adds the octets of words of hexadecimal digits, at most eight.
fn add_hex(alloc: Global, octets: &mut Vec<u8>, words: &mut Words) -> Result<(), Fail> {
    for _ in 0..8 {
        octets.extend_from_slice(&octets_of(alloc, words.word())?)?;
    }
    Ok(())
}

/// How the octets are read: as one tape, as tapes, or as tapes whose blocks are kept.
#[derive(Clone, Copy)]
enum Kind {
    One,
    All,
    Recorded,
}

/// Reads a source into a list, where memory can be scarce.
fn read_in(
    alloc: Global,
    drought: &mut Drought,
    kind: Kind,
    source: &mut Source<&mut MemoryReader>,
    readings: &mut Vec<Reading>,
) -> Result<(), TapeFault> {
    drought.begin(alloc);
    let outcome = read(alloc, kind, source, readings);
    drought.end();
    outcome
}

/// Reads a source of one tape into a list.
fn read_one(
    alloc: Global,
    source: &mut Source<&mut MemoryReader>,
    readings: &mut Vec<Reading>,
) -> Result<(), TapeFault> {
    let reading = read_tape(alloc, source)?;
    match readings.push(reading) {
        Ok(()) => Ok(()),
        Err(_) => Err(TapeFault::Refused),
    }
}

/// Reads a source of tapes into a list.
fn read_all(
    alloc: Global,
    source: &mut Source<&mut MemoryReader>,
    readings: &mut Vec<Reading>,
) -> Result<(), TapeFault> {
    let mut read = read_tapes(alloc, source)?;
    readings.append(&mut read)?;
    Ok(())
}

/// Reads a source into a list.
fn read(
    alloc: Global,
    kind: Kind,
    source: &mut Source<&mut MemoryReader>,
    readings: &mut Vec<Reading>,
) -> Result<(), TapeFault> {
    match kind {
        Kind::One => read_one(alloc, source, readings),
        _ => read_all(alloc, source, readings),
    }
}

/// Puts a reading.
pub fn put_reading(text: &mut String, reading: &Reading) -> Result<(), AllocError> {
    let (cell, slots) = (reading.cell, reading.slots);
    write!(text, "{}-{} {slots} slots", cell.lac, cell.ci)?;
    for shown in &reading.shown {
        let serial = shown.serial.number();
        write!(text, ": {} {serial:04x} {}", shown.id, shown.text)?;
    }
    Ok(())
}

/// The readings, or the fault.
fn answer(
    alloc: Global,
    read: Result<(), TapeFault>,
    readings: &[Reading],
) -> Result<String, AllocError> {
    if let Err(fault) = read {
        return format!(in alloc; "{fault:?}");
    }
    let mut text = String::new(alloc);
    for reading in readings {
        if !text.is_empty() {
            text.push_str("; ")?;
        }
        put_reading(&mut text, reading)?;
    }
    Ok(text)
}

/// Puts what a tape holds.
fn put_recording(text: &mut String, tape: &Recording) -> Result<(), AllocError> {
    let between = if text.is_empty() { "" } else { "; " };
    let (cell, slots) = (tape.cell(), tape.slots());
    write!(text, "{between}{}-{} {slots} slots:", cell.lac, cell.ci)?;
    for block in tape.blocks() {
        write!(text, " {:02x}", block[0])?;
    }
    Ok(())
}

/// What the tapes of a source hold, or the fault.
fn recorded_text(
    alloc: Global,
    drought: &mut Drought,
    source: &mut Source<&mut MemoryReader>,
) -> Result<String, AllocError> {
    let mut tapes: Vec<Recording> = Vec::new(alloc);
    drought.begin(alloc);
    let result = record_each(alloc, source, &mut tapes);
    drought.end();
    if let Err(fault) = result {
        return format!(in alloc; "{fault:?}");
    }
    let mut text = String::new(alloc);
    for tape in &tapes {
        put_recording(&mut text, tape)?;
    }
    Ok(text)
}

/// What a source is read as.
fn read_text(
    alloc: Global,
    drought: &mut Drought,
    kind: Kind,
    source: &mut Source<&mut MemoryReader>,
) -> Result<String, AllocError> {
    if let Kind::Recorded = kind {
        return recorded_text(alloc, drought, source);
    }
    let mut readings = Vec::new(alloc);
    let result = read_in(alloc, drought, kind, source, &mut readings);
    answer(alloc, result, &readings)
}

/// What these octets are read as. A reader that can fail is asked what it still has.
fn read_octets(
    alloc: Global,
    drought: &mut Drought,
    kind: Kind,
    octets: &[u8],
    pace: (usize, Option<usize>),
) -> Result<String, AllocError> {
    let mut reader = MemoryReader::new(octets, pace.0.max(1), pace.1);
    let mut source = Source::new(&mut reader);
    let mut text = read_text(alloc, drought, kind, &mut source)?;
    if source.failed() {
        text.push_str(", source failed")?;
    } else if pace.1.is_some() {
        write!(text, ", {} left", reader.rest().len())?;
    }
    Ok(text)
}

/// The pace that words say, if there are any.
fn pace_of(words: &mut Words) -> Result<(usize, Option<usize>), Fail> {
    let word = words.word();
    if word.is_empty() {
        return Ok(STEADY);
    }
    Ok((word.parse::<usize>()?, Some(usize::from(words.number16()?))))
}

/// Whether a way to read fails, and fails again, with a reader that fails after so many calls.
fn fails_twice(alloc: Global, kind: Kind, octets: &[u8], per_call: usize, calls: usize) -> bool {
    let mut readings = Vec::new(alloc);
    let mut reader = MemoryReader::new(octets, per_call.max(1), Some(calls));
    let mut source = Source::new(&mut reader);
    let first = read(alloc, kind, &mut source, &mut readings);
    let second = read(alloc, kind, &mut source, &mut readings);
    matches!(first, Err(TapeFault::ReadFailed)) && matches!(second, Err(TapeFault::ReadFailed))
}

/// Reads again and again with readers that fail.
fn fails(alloc: Global, octets: &[u8], words: &mut Words) -> Result<String, Fail> {
    let per_call = usize::from(words.number16()?);
    for calls in 0..=words.number16()? {
        let after = usize::from(calls);
        let one = fails_twice(alloc, Kind::One, octets, per_call, after);
        if !one || !fails_twice(alloc, Kind::All, octets, per_call, after) {
            return Ok(format!(in alloc; "not after {calls} calls")?);
        }
    }
    Ok(String::from_str(alloc, "each")?)
}

/// What octets are read as in both ways.
fn both_ways(alloc: Global, drought: &mut Drought, octets: &[u8]) -> Result<String, AllocError> {
    let one = read_octets(alloc, drought, Kind::One, octets, STEADY)?;
    let tapes = read_octets(alloc, drought, Kind::All, octets, STEADY)?;
    format!(in alloc; "{one}, {tapes}")
}

/// Reads each front of so many octets, both ends included, and returns what all of them are read as.
fn fronts(
    alloc: Global,
    drought: &mut Drought,
    octets: &[u8],
    words: &mut Words,
) -> Result<String, Fail> {
    let mut all = String::new(alloc);
    for length in words.number16()?..=words.number16()? {
        let front = octets.get(..usize::from(length)).unwrap_or(octets);
        let both = both_ways(alloc, drought, front)?;
        if !all.is_empty() && all != both {
            return Ok(format!(in alloc; "{both} at {length}")?);
        }
        all = both;
    }
    Ok(all)
}

/// The readings of octets.
fn readings_of(alloc: Global, octets: &[u8]) -> Result<Vec<Reading>, TapeFault> {
    let mut reader = MemoryReader::new(octets, 1000, None);
    read_tapes(alloc, &mut Source::new(&mut reader))
}

/// Hands the readings of octets on to a list.
fn hand_on(alloc: Global, octets: &[u8], readings: &mut Vec<Reading>) -> Result<(), TapeFault> {
    let mut reader = MemoryReader::new(octets, 1000, None);
    read_each(alloc, &mut Source::new(&mut reader), readings)
}

/// What a list has after the octets' readings were handed on to it. Before it has the reading of a tape of its own.
fn after(alloc: Global, octets: &[u8], words: &mut Words) -> Result<String, Fail> {
    let first = octets_of(alloc, words.word())?;
    let mut readings = readings_of(alloc, &first)?;
    let result = hand_on(alloc, octets, &mut readings);
    Ok(answer(alloc, result, &readings)?)
}

/// How many tapes the octets are.
fn count(alloc: Global, octets: &[u8]) -> Result<String, Fail> {
    let readings = readings_of(alloc, octets)?;
    Ok(readings.len().to_string(alloc)?)
}

/// The texts of the faults.
fn texts(alloc: Global) -> Result<String, AllocError> {
    let (short, long) = (TapeFault::Short, TapeFault::Long);
    let (failed, memory) = (TapeFault::ReadFailed, TapeFault::Refused);
    format!(in alloc; "{short}; {long}; {failed}; {memory}; {Refused}")
}

/// What comes of an action, for which so many blocks of memory are left if it is `scarce`. Its words are all read.
fn carried_out(
    alloc: Global,
    drought: &mut Drought,
    octets: &mut Vec<u8>,
    action: &str,
    blocks: u16,
) -> Result<String, Fail> {
    let mut words = Words::of(action);
    let verb = drought.verb(&mut words, blocks);
    let found = done(alloc, drought, octets, verb, &mut words)?;
    if words.word().is_empty() {
        return Ok(found);
    }
    Err(Fail::new("words are left over"))
}

/// What comes of a verb and the words after it.
fn done(
    alloc: Global,
    drought: &mut Drought,
    octets: &mut Vec<u8>,
    verb: &str,
    words: &mut Words,
) -> Result<String, Fail> {
    match verb {
        "one" | "all" | "record" => {
            let kind = match verb {
                "one" => Kind::One,
                "all" => Kind::All,
                _ => Kind::Recorded,
            };
            Ok(read_octets(alloc, drought, kind, octets, pace_of(words)?)?)
        }
        "length" => Ok(octets.len().to_string(alloc)?),
        "count" => count(alloc, octets),
        "fails" => fails(alloc, octets, words),
        "fronts" => fronts(alloc, drought, octets, words),
        "after" => after(alloc, octets, words),
        "texts" => Ok(texts(alloc)?),
        verb => add(alloc, octets, verb, words),
    }
}

/// Expects what a row says. If memory is refused, the action has all memory, and then one block more than before.
fn expect_row(
    alloc: Global,
    drought: &mut Drought,
    octets: &mut Vec<u8>,
    row: Row,
) -> Result<(), Fail> {
    let ample = row.action.strip_prefix("scarce ").unwrap_or(row.action);
    for refused in 0..Drought::MOST {
        let found = carried_out(alloc, drought, octets, row.action, refused)?;
        if found.as_str() != "Refused" {
            let found = after_refusals(alloc, refused, found)?;
            if found.as_str() == row.wanted {
                return Ok(());
            }
            return Err(Fail::new(format_args!("{} -> {found}", row.action)));
        }
        let again = carried_out(alloc, drought, octets, ample, 0)?;
        if row.wanted.strip_prefix("refused; ") != Some(again.as_str()) {
            return Err(Fail::new(format_args!("{} -> refused, and then {again}", row.action)));
        }
    }
    Err(Fail::new("it is refused to the end"))
}

/// Expects what the rows of a table say, which are so many.
fn expect_rows(rt: &impl Abort, alloc: Global, table: &str, count: u16) -> Result<(), Fail> {
    let mut drought = Drought::new(alloc)?;
    let mut octets = Vec::new(alloc);
    let mut rows = 0_u16;
    for line in table.split('\n') {
        if let Some(row) = Row::of(line) {
            expect_row(alloc, &mut drought, &mut octets, row)?;
            rows = rows.saturating_add(1);
        }
    }
    drop(octets);
    drop(drought);
    assert!(rt; rows == count);
    Ok(())
}

#[test]
fn tapes_are_read_and_recorded(rt: HostRuntime) -> Result<(), Fail> {
    expect_rows(&rt, rt.alloc(), WHOLE, 50)?;
    expect_rows(&rt, rt.alloc(), FAULTS, 24)?;
    expect_rows(&rt, rt.alloc(), RECORDED, 18)?;
    expect_rows(&rt, rt.alloc(), SCARCE, 12)
}

#[test]
fn nothing_is_read_past_what_decides(rt: HostRuntime) -> Result<(), Fail> {
    expect_rows(&rt, rt.alloc(), ENDS, 21)
}
