//! The lines of a table, and what comes of them.
//!
//! The octets are a capture file. `file` begins one, in the classic format, of packets that are IPv4; `hex DIGITS ..`
//! adds octets, and `new` begins with none. `> SEQUENCE FLAGS DIGITS` adds a packet from 10.0.0.1, port 40000, to
//! 10.0.0.2, port 48049, with this sequence number, `S` if it has the flag SYN and `-` if not, and these data; `<` one
//! the other way, and `)` and `(` the same to and from 10.0.0.3. Packet N comes N seconds after 1970 began. `fill N
//! FIRST STEP DIGITS` adds N packets as `>` does, with the sequence numbers FIRST, FIRST + STEP, ..
//!
//! `want WORDS ..` adds a text, eight words at most with a space between two; an answer that is all of what was added
//! is `as wanted`, and nothing more is wanted.
//!
//! `messages` returns the messages of the file: `2>16000000;` is one that became whole in packet 2, on the way of `>`;
//! of other ways the source's last octet stands there. `count` says how many there are, and how many octets they have.
//! `whole` says all of each: its packet, its time, source and destination, the addresses of controller and centre, and
//! which side sent it. After `scarce` hardly any memory is left, and more and more until that is enough: the answer is
//! then `refused; ` and what came in the end.

use link_streams::{LinkPacket, Side, messages_of_capture};
use std::alloc::Global;
use std::process::Abort;
use std::test::Fail;
use test_support::{Drought, Row, Words, after_refusals, digits_of, octets_of};

/// The octets of a file, and how many packets were added to it.
#[derive(Drop)]
pub struct Bench {
    octets: Vec<u8>,
    packets: u32,
    wanted: String,
    drought: Drought,
}

/// An address and a port.
#[derive(Clone, Copy)]
struct End {
    address: u32,
    port: u16,
}

/// The ends of the ways of rows.
const CENTRE: End = End {
    address: 0x0A00_0001,
    port: 40_000,
};

const CONTROLLER: End = End {
    address: 0x0A00_0002,
    port: 48_049,
};

const OTHER: End = End {
    address: 0x0A00_0003,
    port: 48_049,
};

/// Begins a file: times in microseconds, link type 101.
fn begin_file(bench: &mut Bench) -> Result<(), Fail> {
    bench.octets.clear();
    bench.packets = 0;
    bench.octets.extend_from_slice(&[
        0xD4, 0xC3, 0xB2, 0xA1, 2, 0, 4, 0, 0, 0, 0, 0, 0, 0, 0, 0, 0xFF, 0xFF, 0, 0, 101, 0, 0, 0,
    ])?;
    Ok(())
}

/// Adds the octets of words of hexadecimal digits, at most eight.
fn add_hex(alloc: Global, octets: &mut Vec<u8>, words: &mut Words) -> Result<(), Fail> {
    for _ in 0..8 {
        octets.extend_from_slice(&octets_of(alloc, words.word())?)?;
    }
    Ok(())
}

/// Adds the text of words, at most eight.
fn add_text(text: &mut String, words: &mut Words) -> Result<(), Fail> {
    text.push_str(words.word())?;
    for _ in 0..7 {
        let word = words.word();
        if !word.is_empty() {
            text.push_str(" ")?;
            text.push_str(word)?;
        }
    }
    Ok(())
}

/// What an answer is.
fn judged(alloc: Global, bench: &mut Bench, answer: String) -> Result<String, Fail> {
    if bench.wanted.is_empty() || answer.as_str() != bench.wanted.as_str() {
        return Ok(answer);
    }
    bench.wanted.clear();
    Ok(String::from_str(alloc, "as wanted")?)
}

/// Adds a packet.
fn put_packet(
    bench: &mut Bench,
    from: End,
    to: End,
    sequence: u32,
    flags: u8,
    payload: &[u8],
) -> Result<(), Fail> {
    if payload.len() > 60_000 {
        return Err(Fail::new("too many octets for a packet"));
    }
    let length = 40 + payload.len() as u16;
    bench.packets = bench.packets.saturating_add(1);
    let octets = &mut bench.octets;
    octets.extend_from_slice(&bench.packets.to_le_bytes())?;
    octets.extend_from_slice(&[0, 0, 0, 0])?;
    octets.extend_from_slice(&u32::from(length).to_le_bytes())?;
    octets.extend_from_slice(&u32::from(length).to_le_bytes())?;
    octets.extend_from_slice(&[0x45, 0])?;
    octets.extend_from_slice(&length.to_be_bytes())?;
    octets.extend_from_slice(&[0, 0, 0x40, 0, 64, 6, 0, 0])?;
    octets.extend_from_slice(&from.address.to_be_bytes())?;
    octets.extend_from_slice(&to.address.to_be_bytes())?;
    octets.extend_from_slice(&from.port.to_be_bytes())?;
    octets.extend_from_slice(&to.port.to_be_bytes())?;
    octets.extend_from_slice(&sequence.to_be_bytes())?;
    octets.extend_from_slice(&[0, 0, 0, 0, 0x50, flags, 0xFF, 0xFF, 0, 0, 0, 0])?;
    octets.extend_from_slice(payload)?;
    Ok(())
}

/// Adds the packet of a row.
fn add_packet(
    alloc: Global,
    bench: &mut Bench,
    from: End,
    to: End,
    words: &mut Words,
) -> Result<(), Fail> {
    let sequence = words.word().parse::<u32>()?;
    let flags = match words.word() {
        "S" => 0x12,
        _ => 0x18,
    };
    let payload = octets_of(alloc, words.word())?;
    put_packet(bench, from, to, sequence, flags, &payload)
}

/// Adds many packets.
fn fill(alloc: Global, bench: &mut Bench, words: &mut Words) -> Result<(), Fail> {
    let count = words.number16()?;
    let mut sequence = words.word().parse::<u32>()?;
    let step = words.word().parse::<u32>()?;
    let payload = octets_of(alloc, words.word())?;
    for _ in 0..count {
        put_packet(bench, CENTRE, CONTROLLER, sequence, 0x18, &payload)?;
        sequence = sequence.wrapping_add(step);
    }
    Ok(())
}

/// The messages of the file, or the fault's text.
fn messages(alloc: Global, bench: &mut Bench) -> Result<Result<Vec<LinkPacket>, String>, Fail> {
    if bench.octets.len() > 10_000_000 {
        return Err(Fail::new("too many octets for a test"));
    }
    bench.drought.begin(alloc);
    let outcome = messages_of_capture(alloc, &bench.octets);
    bench.drought.end();
    match outcome {
        Ok(messages) => Ok(Ok(messages)),
        Err(fault) => Ok(Err(fault.to_string(alloc)?)),
    }
}

/// The sign of a way.
fn sign_of(message: &LinkPacket) -> &'static str {
    match (message.way.source % 256, message.way.destination % 256) {
        (1, 2) => ">",
        (2, 1) => "<",
        (1, 3) => ")",
        (3, 1) => "(",
        _ => "?",
    }
}

/// Says which messages there are.
fn list(alloc: Global, bench: &mut Bench) -> Result<String, Fail> {
    let messages = match messages(alloc, bench)? {
        Ok(messages) => messages,
        Err(fault) => return Ok(fault),
    };
    let mut all = String::new(alloc);
    for one in &messages {
        let (number, sign) = (one.number, sign_of(one));
        let digits = digits_of(alloc, &one.octets.list)?;
        all.push_str(&format!(in alloc; "{number}{sign}{digits};")?)?;
    }
    judged(alloc, bench, all)
}

/// Says how many messages there are, and how many octets they have.
fn count(alloc: Global, bench: &mut Bench) -> Result<String, Fail> {
    let messages = match messages(alloc, bench)? {
        Ok(messages) => messages,
        Err(fault) => return Ok(fault),
    };
    let mut octets = 0_usize;
    for one in &messages {
        octets = octets.saturating_add(one.octets.list.len());
    }
    Ok(format!(in alloc; "{} of {octets} octets", messages.len())?)
}

/// The text of an address, or `-`.
fn address_text(alloc: Global, address: Option<u32>) -> Result<String, Fail> {
    match address {
        Some(address) => Ok(format!(in alloc; "{address:08x}")?),
        None => Ok(String::from_str(alloc, "-")?),
    }
}

/// Says all of a message.
fn said(alloc: Global, message: &LinkPacket) -> Result<String, Fail> {
    let way = message.way;
    let side = match message.sender() {
        Some(Side::Centre) => "centre",
        Some(Side::Controller) => "controller",
        None => "-",
    };
    let time = match message.time {
        Some(time) => time.to_string(alloc)?,
        None => String::from_str(alloc, "-")?,
    };
    let port = if message.is_from_port() { "from" } else { "to" };
    let controller = address_text(alloc, message.controller())?;
    let centre = address_text(alloc, message.centre())?;
    let (from, from_port) = (way.source, way.source_port);
    let (to, to_port) = (way.destination, way.destination_port);
    let ends = format!(in alloc; "{from:08x}:{from_port} {to:08x}:{to_port}")?;
    Ok(format!(in alloc;
        "{} {time} {ends} {port} {side} {controller} {centre};",
        message.number
    )?)
}

/// Says all of each message.
fn whole(alloc: Global, bench: &mut Bench) -> Result<String, Fail> {
    let messages = match messages(alloc, bench)? {
        Ok(messages) => messages,
        Err(fault) => return Ok(fault),
    };
    let mut all = String::new(alloc);
    for one in &messages {
        all.push_str(&said(alloc, one)?)?;
    }
    judged(alloc, bench, all)
}

/// What comes of a verb and the words after it.
fn done(alloc: Global, bench: &mut Bench, verb: &str, words: &mut Words) -> Result<String, Fail> {
    match verb {
        "file" => begin_file(bench)?,
        "new" => bench.octets.clear(),
        "hex" => add_hex(alloc, &mut bench.octets, words)?,
        ">" => add_packet(alloc, bench, CENTRE, CONTROLLER, words)?,
        "<" => add_packet(alloc, bench, CONTROLLER, CENTRE, words)?,
        ")" => add_packet(alloc, bench, CENTRE, OTHER, words)?,
        "(" => add_packet(alloc, bench, OTHER, CENTRE, words)?,
        "fill" => fill(alloc, bench, words)?,
        "want" => add_text(&mut bench.wanted, words)?,
        "messages" => return list(alloc, bench),
        "count" => return count(alloc, bench),
        "whole" => return whole(alloc, bench),
        _ => return Ok(String::from_str(alloc, "no such action")?),
    }
    Ok(String::new(alloc))
}

/// Expects what a row says, whose words are all read, with more and more memory until that is enough.
fn expect_row(alloc: Global, bench: &mut Bench, row: Row) -> Result<(), Fail> {
    for refused in 0..Drought::MOST {
        let mut words = Words::of(row.action);
        let verb = bench.drought.verb(&mut words, refused);
        let found = done(alloc, bench, verb, &mut words)?;
        if !words.word().is_empty() {
            return Err(Fail::new("words are left over"));
        }
        if found.as_str() != "out of memory" {
            let found = after_refusals(alloc, refused, found)?;
            if found.as_str() == row.wanted {
                return Ok(());
            }
            return Err(Fail::new(format_args!("{} -> {found}", row.action)));
        }
    }
    Err(Fail::new("it is refused to the end"))
}

/// Expects what the rows of a table say, which are so many.
pub fn expect_rows(rt: &impl Abort, alloc: Global, table: &str, count: u16) -> Result<(), Fail> {
    let mut bench = Bench {
        octets: Vec::new(alloc),
        packets: 0,
        wanted: String::new(alloc),
        drought: Drought::new(alloc)?,
    };
    let mut rows = 0_u16;
    for line in table.split('\n') {
        if let Some(row) = Row::of(line) {
            expect_row(alloc, &mut bench, row)?;
            rows = rows.saturating_add(1);
        }
    }
    drop(bench);
    assert!(rt; rows == count);
    Ok(())
}
