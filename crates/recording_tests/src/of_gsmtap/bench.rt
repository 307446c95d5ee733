//! The lines of a table, and what comes of them.
//!
//! The octets are what these lines add: `hex DIGITS ..`; `idle N`, the blocks of N idle slots; `repeat N` has them N
//! times, and `new` begins anew. `want DIGITS ..` adds octets with which an output is compared.
//!
//! `capture SLOTS CHANNEL` makes the capture of the octets, of `all` slots or the `used` ones, for channel 51 or 52,
//! and `capture SLOTS CHANNEL SECOND MICROSECOND` that which begins at this time;
//! `tape LAC CI N` their tape of N slots (`-` for as many as there are), and `tape LAC CI N ADDRESS ARFCN sdcch` that
//! of the packets from the address of these eight digits, on this radio channel, and marked as SDCCH; `-` is any. The
//! answer is `as wanted`, or how many octets come out, or the fault. An output that is as wanted becomes the octets,
//! and nothing more is wanted. After `scarce` hardly any memory is left to either, and more and more until that is
//! enough: the answer is then `refused; ` and what came in the end. `fronts N M LAC CI SLOTS` makes tapes of each front
//! of N to M octets, and the answer is that of all of them. `senders` names who sends in the octets: each one's
//! address, radio channel, mark, and first and last packet, and a semicolon. `carried ADDRESS ARFCN sdcch` says what
//! the blocks of this sender carry, or of one of `cbch`. `times` says when the first and the last packet of each sender
//! came, in nanoseconds, or `-`.
//!
//! `for LAC CI N ..`, with the words of `tape`, wants one tape more, until `new` or `none`; `tapes` makes all of them
//! together, and answers as `tape` does. `parts N` makes them as `tapes` does, of octets that come in parts of N.
//!
//! What `tape`, `tapes` and `fronts` make, they make in parts of several sizes too, unless memory is scarce, and their
//! answer says so if that comes to something else.

ghost use Rattle.std.specs.Prelude.{◌<◌, ◌≤◌, [], length, IfSome};
ghost use Rattle.gsmtap.specs.TapesTaken.{IsWalkFor};

use gsmtap::{
    AirFault, AirFaultKind, Carried, Channel, ChannelType, Heard, Sender, SenderRow, Settings,
    Slots, Start, Station, Tapes, TapesFault, Walk, Wanted, capture_of, senders_of_capture,
    tape_of_capture, tapes_of_capture, tapes_of_walk,
};
use std::alloc::Global;
use std::process::Abort;
use std::slice;
use std::test::Fail;
use test_support::{Drought, Row, Words, after_refusals, octets_of};

/// The octets of a run, and those that have to come out.
#[derive(Drop)]
pub struct Bench {
    octets: Vec<u8>,
    wanted: Vec<u8>,
    tapes: Vec<Wanted>,
    drought: Drought,
    is_scarce: bool,
}

/// Adds the octets of words of hexadecimal digits, at most eight.
fn add_hex(alloc: Global, octets: &mut Vec<u8>, words: &mut Words) -> Result<(), Fail> {
    for _ in 0..8 {
        octets.extend_from_slice(&octets_of(alloc, words.word())?)?;
    }
    Ok(())
}

/// Adds the blocks of idle slots.
fn add_idle(octets: &mut Vec<u8>, slots: u16) -> Result<(), Fail> {
    for _ in 0..slots {
        for _ in 0..4 {
            octets.push(0x2F)?;
            octets.extend_from_slice(&[0x2B; 22])?;
        }
    }
    Ok(())
}

/// Has the octets so many times.
fn repeat(alloc: Global, octets: &mut Vec<u8>, times: u16) -> Result<(), Fail> {
    let once = Vec::from_slice(alloc, octets)?;
    for _ in 1..times {
        octets.extend_from_slice(&once)?;
    }
    Ok(())
}

/// What an output is. One that is as wanted becomes the octets.
fn judged(alloc: Global, bench: &mut Bench, output: Vec<u8>) -> Result<String, Fail> {
    if output.as_slice() != bench.wanted.as_slice() {
        return Ok(format!(in alloc; "{} octets", output.len())?);
    }
    bench.wanted.clear();
    bench.octets = output;
    Ok(String::from_str(alloc, "as wanted")?)
}

/// The number that a word is, 0 where there is none.
fn number_or_0(words: &mut Words) -> Result<u32, Fail> {
    match words.word() {
        "" => Ok(0),
        number => Ok(number.parse::<u32>()?),
    }
}

/// Makes the capture of the octets.
fn capture(alloc: Global, bench: &mut Bench, words: &mut Words) -> Result<String, Fail> {
    let slots = match words.word() {
        "used" => Slots::Used,
        _ => Slots::All,
    };
    let channel = match words.number16()? {
        52 => Channel::BesideSdcch8,
        _ => Channel::BesideSdcch4,
    };
    let start = Start {
        second: number_or_0(words)?,
        microsecond: number_or_0(words)?,
    };
    let settings = Settings {
        channel,
        slots,
        start,
    };
    bench.drought.begin(alloc);
    let outcome = capture_of(alloc, &bench.octets, settings);
    bench.drought.end();
    match outcome {
        Ok(output) => judged(alloc, bench, output),
        Err(fault) => Ok(fault.to_string(alloc)?),
    }
}

/// The tape that words want: a cell, a number of slots, whose packets, and the slot of the first block.
fn wanted_in(words: &mut Words) -> Result<Wanted, Fail> {
    let cell = cbsp_wire::Cell {
        lac: words.number16()?,
        ci: words.number16()?,
    };
    let slots = match words.word() {
        "-" => None,
        slots => Some(slots.parse::<u16>()?),
    };
    Ok(Wanted {
        cell,
        slots,
        from: sender_in(words)?,
        first_slot: match words.word() {
            "" => 0,
            slot => slot.parse::<u16>()?,
        },
    })
}

/// Whose packets are wanted: an address in eight hexadecimal digits, a radio channel, each `-` for any, and `sdcch` for
/// those that are marked so, or `cbch`; nothing for anyone.
fn sender_in(words: &mut Words) -> Result<Sender, Fail> {
    let address = match words.word() {
        "" | "-" => None,
        address => Some(u32::from_str_radix(address, 16)?),
    };
    let arfcn = match words.word() {
        "" | "-" => None,
        arfcn => Some(arfcn.parse::<u16>()?),
    };
    let channel = match words.word() {
        "sdcch" => ChannelType::Sdcch,
        _ => ChannelType::Cbch,
    };
    Ok(Sender {
        address,
        arfcn,
        channel,
    })
}

/// In parts of how many octets a file comes, too.
const PARTS: [usize; 5] = [1, 3, 7, 64, 1_000_000];

/// The tapes of a file that comes in parts of so many octets, one after the other.
fn walked(
    alloc: Global,
    octets: &[u8],
    tapes: &[Wanted],
    size: usize,
) -> Result<Vec<u8>, TapesFault>
    requires some { 0 < size }
    requires few { length octets.now ≤ 1000000 }
{
    let Some(mut walk) = new_walk(alloc, tapes) else {
        return Err(TapesFault::Air(AirFault {
            packet: 0,
            kind: AirFaultKind::Refused,
        }));
    };
    let mut came = 0;
    'parts: while came < octets.len() {
        let end = octets.len().min(came.saturating_add(size));
        walk.push(&octets[came..end]);
        came = end;
    }
    tapes_of_walk(alloc, walk)
}

/// A walk over a file for tapes, if there is memory.
fn new_walk(alloc: Global, tapes: &[Wanted]) -> Option<Walk<Tapes>>
    ensures { IfSome result (IsWalkFor tapes.now []) }
{
    let tapes = Vec::from_slice(alloc, tapes).ok()?;
    let tapes = Tapes::new(alloc, tapes).ok()?;
    Some(Walk::new(alloc, tapes))
}

/// Whether a file comes to the same tapes in parts as whole.
fn is_same_in_parts(alloc: Global, octets: &[u8], tapes: &[Wanted]) -> bool
    requires { length octets.now ≤ 1000000 }
{
    let whole = tapes_of_capture(alloc, octets, tapes);
    for size in PARTS {
        let is_same = match (&walked(alloc, octets, tapes, size), &whole) {
            (Ok(found), Ok(output)) => found.as_slice() == output.as_slice(),
            (Err(found), Err(fault)) => found == fault,
            _ => false,
        };
        if !is_same {
            return false;
        }
    }
    true
}

/// The tape of octets, or the text of the fault.
fn tape_in(
    alloc: Global,
    drought: &mut Drought,
    octets: &[u8],
    wanted: &Wanted,
    is_scarce: bool,
) -> Result<Result<Vec<u8>, String>, Fail> {
    if octets.len() > 1_000_000 {
        return Err(Fail::new("too many octets for a test"));
    }
    drought.begin(alloc);
    let outcome = tape_of_capture(alloc, octets, wanted);
    drought.end();
    if !is_scarce && !is_same_in_parts(alloc, octets, slice::from_ref(wanted)) {
        return Err(Fail::new("parts come to another tape"));
    }
    match outcome {
        Ok(output) => Ok(Ok(output)),
        Err(fault) => Ok(Err(fault.to_string(alloc)?)),
    }
}

/// Makes the tape of the octets.
fn tape(alloc: Global, bench: &mut Bench, words: &mut Words) -> Result<String, Fail> {
    let wanted = wanted_in(words)?;
    let is_scarce = bench.is_scarce;
    match tape_in(alloc, &mut bench.drought, &bench.octets, &wanted, is_scarce)? {
        Ok(output) => judged(alloc, bench, output),
        Err(text) => Ok(text),
    }
}

/// Makes the tapes of the octets that are wanted together.
fn tapes(alloc: Global, bench: &mut Bench) -> Result<String, Fail> {
    if bench.octets.len() > 1_000_000 {
        return Err(Fail::new("too many octets for a test"));
    }
    bench.drought.begin(alloc);
    let outcome = tapes_of_capture(alloc, &bench.octets, &bench.tapes);
    bench.drought.end();
    if !bench.is_scarce && !is_same_in_parts(alloc, &bench.octets, &bench.tapes) {
        return Err(Fail::new("parts come to other tapes"));
    }
    match outcome {
        Ok(output) => judged(alloc, bench, output),
        Err(fault) => Ok(fault.to_string(alloc)?),
    }
}

/// Makes the tapes of the octets that are wanted together, in parts of so many octets.
fn parts(alloc: Global, bench: &mut Bench, words: &mut Words) -> Result<String, Fail> {
    let size = usize::from(words.number16()?);
    if bench.octets.len() > 1_000_000 || size == 0 {
        return Err(Fail::new("too many octets for a test, or none in a part"));
    }
    bench.drought.begin(alloc);
    let outcome = walked(alloc, &bench.octets, &bench.tapes, size);
    bench.drought.end();
    match outcome {
        Ok(output) => judged(alloc, bench, output),
        Err(fault) => Ok(fault.to_string(alloc)?),
    }
}

/// Begins anew.
fn begin(bench: &mut Bench) {
    bench.octets.clear();
    bench.tapes.clear();
}

/// Who sends in octets, or the fault's text.
fn rows(alloc: Global, bench: &mut Bench) -> Result<Result<Vec<SenderRow>, String>, Fail> {
    if bench.octets.len() > 1_000_000 {
        return Err(Fail::new("too many octets for a test"));
    }
    bench.drought.begin(alloc);
    let outcome = senders_of_capture(alloc, &bench.octets);
    bench.drought.end();
    match outcome {
        Ok(rows) => Ok(Ok(rows)),
        Err(fault) => Ok(Err(fault.to_string(alloc)?)),
    }
}

/// Names the senders of octets, as `7f000001 0 cbch 2 1-2` each: how many blocks, in which packets.
fn senders(alloc: Global, bench: &mut Bench) -> Result<String, Fail> {
    let rows = match rows(alloc, bench)? {
        Ok(rows) => rows,
        Err(fault) => return Ok(fault),
    };
    let mut all = String::new(alloc);
    for one in &rows {
        let Heard {
            station,
            blocks,
            first,
            last,
        } = one.heard;
        let mark = match station.channel {
            ChannelType::Cbch => "cbch",
            ChannelType::Sdcch => "sdcch",
        };
        let (address, arfcn) = (station.address, station.arfcn);
        all.push_str(&format!(in alloc; "{address:08x} {arfcn} {mark} {blocks} {first}-{last};")?)?;
    }
    Ok(all)
}

/// Says when the first packet of each sender came and the last one, in nanoseconds, or once if both came at that time:
/// `-` if that isn't known.
fn times(alloc: Global, bench: &mut Bench) -> Result<String, Fail> {
    let rows = match rows(alloc, bench)? {
        Ok(rows) => rows,
        Err(fault) => return Ok(fault),
    };
    let mut all = String::new(alloc);
    for one in &rows {
        let first = time_text(alloc, one.first_time)?;
        let last = time_text(alloc, one.last_time)?;
        if one.first_time == one.last_time {
            all.push_str(&format!(in alloc; "{first};")?)?;
        } else {
            all.push_str(&format!(in alloc; "{first} {last};")?)?;
        }
    }
    Ok(all)
}

/// A time, or `-`.
fn time_text(alloc: Global, time: Option<u64>) -> Result<String, Fail> {
    match time {
        Some(time) => Ok(time.to_string(alloc)?),
        None => Ok(String::from_str(alloc, "-")?),
    }
}

/// Says what the blocks of a sender carry, as `2 slots, 1 pages: 4370`, or `no tape`; of one that isn't there `nobody`.
fn carried(alloc: Global, bench: &mut Bench, words: &mut Words) -> Result<String, Fail> {
    let from = sender_in(words)?;
    let station = Station {
        address: from.address.unwrap_or(0),
        arfcn: from.arfcn.unwrap_or(0),
        channel: from.channel,
    };
    let rows = match rows(alloc, bench)? {
        Ok(rows) => rows,
        Err(fault) => return Ok(fault),
    };
    match rows.iter().find(|one| one.heard.station == station) {
        Some(one) => carried_text(alloc, &one.carried),
        None => Ok(String::from_str(alloc, "nobody")?),
    }
}

/// What blocks carry, if they make a tape.
fn carried_text(alloc: Global, carried: &Option<Carried>) -> Result<String, Fail> {
    let Some(carried) = carried else {
        return Ok(String::from_str(alloc, "no tape")?);
    };
    let (slots, pages) = (carried.slots, carried.pages);
    let mut all = format!(in alloc; "{slots} slots, {pages} pages:")?;
    for identifier in &carried.identifiers {
        all.push_str(&format!(in alloc; " {identifier}")?)?;
    }
    Ok(all)
}

/// Makes the tape of each front of so many octets, both ends included, and returns what all of them give.
fn fronts(alloc: Global, bench: &mut Bench, words: &mut Words) -> Result<String, Fail> {
    let (first, last) = (words.number16()?, words.number16()?);
    let wanted = wanted_in(words)?;
    let mut all = String::new(alloc);
    for length in first..=last {
        let front = bench.octets.get(..usize::from(length));
        let front = front.unwrap_or(&bench.octets);
        let is_scarce = bench.is_scarce;
        let text = match tape_in(alloc, &mut bench.drought, front, &wanted, is_scarce)? {
            Ok(_) => String::from_str(alloc, "a tape")?,
            Err(text) => text,
        };
        if !all.is_empty() && all != text {
            return Ok(format!(in alloc; "{text} at {length}")?);
        }
        all = text;
    }
    Ok(all)
}

/// What comes of a verb and the words after it.
fn done(alloc: Global, bench: &mut Bench, verb: &str, words: &mut Words) -> Result<String, Fail> {
    match verb {
        "new" => begin(bench),
        "for" => bench.tapes.push(wanted_in(words)?)?,
        "none" => bench.tapes.clear(),
        "hex" => add_hex(alloc, &mut bench.octets, words)?,
        "want" => add_hex(alloc, &mut bench.wanted, words)?,
        "idle" => add_idle(&mut bench.octets, words.number16()?)?,
        "repeat" => repeat(alloc, &mut bench.octets, words.number16()?)?,
        "capture" => return capture(alloc, bench, words),
        "tape" => return tape(alloc, bench, words),
        "tapes" => return tapes(alloc, bench),
        "parts" => return parts(alloc, bench, words),
        "senders" => return senders(alloc, bench),
        "times" => return times(alloc, bench),
        "carried" => return carried(alloc, bench, words),
        "fronts" => return fronts(alloc, bench, words),
        _ => return Ok(String::from_str(alloc, "no such action")?),
    }
    Ok(String::new(alloc))
}

/// Expects what a row says, whose words are all read, with more and more memory until that is enough.
fn expect_row(alloc: Global, bench: &mut Bench, row: Row) -> Result<(), Fail> {
    for refused in 0..Drought::MOST {
        let mut words = Words::of(row.action);
        bench.is_scarce = row.action.starts_with("scarce");
        let verb = bench.drought.verb(&mut words, refused);
        let found = done(alloc, bench, verb, &mut words)?;
        if !words.word().is_empty() {
            return Err(Fail::new("words are left over"));
        }
        if found.as_str() != "out of memory" {
            let found = after_refusals(alloc, refused, found)?;
            if found.as_str() == row.wanted {
                return Ok(());
            }
            return Err(Fail::new(format_args!("{} -> {found}", row.action)));
        }
    }
    Err(Fail::new("it is refused to the end"))
}

/// Expects what the rows of a table say, which are so many.
pub fn expect_rows(rt: &impl Abort, alloc: Global, table: &str, count: u16) -> Result<(), Fail> {
    let mut bench = Bench {
        octets: Vec::new(alloc),
        wanted: Vec::new(alloc),
        tapes: Vec::new(alloc),
        drought: Drought::new(alloc)?,
        is_scarce: false,
    };
    let mut rows = 0_u16;
    for line in table.split('\n') {
        if let Some(row) = Row::of(line) {
            expect_row(alloc, &mut bench, row)?;
            rows = rows.saturating_add(1);
        }
    }
    drop(bench);
    assert!(rt; rows == count);
    Ok(())
}
