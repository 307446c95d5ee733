//! How the lines of a table are read and carried out.
//!
//! `cost TEXT -> ALPHABET CHARACTERS PAGES ROOM`, `first TEXT -> CHARACTER at PLACE` and `cut K TEXT -> CHARACTERS` are
//! of a text. `in LINE` puts a line behind the book, and `again` empties it. `texts` and `texts K -> OUTCOME` write the
//! table of the book, `network`, `group G` and `group G K` that of it as a network book, `reads N texts` and `writes N
//! texts` do so where the reader or the writer fails after so many calls; `line N -> LINE` is a line of what was
//! written, from 0, `end` after the last. `<37*a>` is `a` 37 times.

use alert_book::Extent;
use book_texts::{
    TextsFault, cost_of_text, cut_for, first_forcing, place_of_forcing, texts_stream,
};
use device_ends::memory::{MemoryReader, MemoryWriter};
use device_ends::{Sink, Source};
use std::alloc::{AllocError, Global};
use std::process::Abort;
use std::str;
use std::test::Fail;
use test_support::{Row, Words};

/// A book, and what was written of it.
#[derive(Drop)]
pub struct Bench {
    /// The octets of the book.
    pub book: String,
    /// What was written last.
    pub written: Vec<u8>,
}

/// After how many calls the ends fail.
#[derive(Clone, Copy)]
pub struct Ends {
    /// The reader.
    pub reads: Option<usize>,
    /// The writer.
    pub writes: Option<usize>,
}

impl Ends {
    /// Ends that don't fail.
    pub const SOUND: Ends = Ends {
        reads: None,
        writes: None,
    };
}

impl Bench {
    /// An empty book.
    pub fn new(alloc: Global) -> Bench {
        Bench {
            book: String::new(alloc),
            written: Vec::new(alloc),
        }
    }

    /// Writes the table of the book, and keeps what was written. Returns how it ended, and how many octets of the book
    /// weren't read.
    pub fn texts(
        &mut self,
        alloc: Global,
        what: Extent,
        ends: Ends,
        pages: Option<u16>,
    ) -> Result<(Result<(), TextsFault>, usize), AllocError> {
        let mut reader = MemoryReader::new(self.book.as_bytes(), 100, ends.reads);
        let mut writer = MemoryWriter::new(alloc, 50, ends.writes);
        let mut source = Source::new(&mut reader);
        let mut sink = Sink::new(&mut writer);
        let done = texts_stream(alloc, what, &mut source, &mut sink, pages);
        drop(source);
        drop(sink);
        let left = reader.rest().len();
        self.written.clear();
        self.written.extend_from_slice(writer.contents())?;
        Ok((done, left))
    }

    /// The line of this number of what was written.
    fn line(&self, alloc: Global, number: usize) -> Result<String, Fail> {
        let text = str::from_utf8(&self.written)?;
        let line = text.split('\n').nth(number).unwrap_or("none");
        Ok(String::from_str(alloc, if line.is_empty() { "end" } else { line })?)
    }
}

/// How a call ended, and how many octets were written.
fn said_of(alloc: Global, bench: &Bench, done: Result<(), TextsFault>) -> Result<String, Fail> {
    match done {
        Ok(()) => Ok(format!(in alloc; "done")?),
        Err(fault) => Ok(format!(in alloc; "{fault}; {} octets", bench.written.len())?),
    }
}

/// What comes of `texts`, after how many calls the ends fail, or none.
fn texts(
    alloc: Global,
    bench: &mut Bench,
    what: Extent,
    ends: Ends,
    words: &mut Words<'_>,
) -> Result<String, Fail> {
    let pages = words.word().parse::<u16>().ok();
    let (done, _) = bench.texts(alloc, what, ends, pages)?;
    said_of(alloc, bench, done)
}

/// What a text costs.
fn cost(alloc: Global, text: &str) -> Result<String, Fail> {
    let cost = cost_of_text(text);
    let (characters, pages, room) = (cost.characters, cost.pages, cost.room);
    Ok(format!(in alloc; "{:?} {characters} {pages} {room}", cost.alphabet)?)
}

/// Which character of a text is the first that GSM 7-bit lacks.
fn first(alloc: Global, text: &str) -> Result<String, Fail> {
    match (first_forcing(text), place_of_forcing(text)) {
        (Some(character), Some(place)) => Ok(format!(in alloc; "{character} at {place}")?),
        (None, None) => Ok(format!(in alloc; "none")?),
        _ => Err(Fail::new("a character without a place")),
    }
}

/// To how many characters a text is cut.
fn cut(alloc: Global, rest: &str) -> Result<String, Fail> {
    let (pages, text) = rest.split_once(' ').unwrap_or((rest, ""));
    Ok(cut_for(text, pages.parse::<u64>()?).to_string(alloc)?)
}

/// A line with what stands in it so many times written out, what is inside first.
fn written_out(alloc: Global, line: &str) -> Result<String, Fail> {
    let mut text = String::from_str(alloc, line)?;
    for _ in 0..100 {
        let Some((front, back)) = text.rsplit_once('<') else {
            return Ok(text);
        };
        let Some((sign, rest)) = back.split_once('>') else {
            return Err(Fail::new("a sign without an end"));
        };
        let (times, repeated) = sign.split_once('*').unwrap_or(("0", sign));
        let mut out = String::from_str(alloc, front)?;
        for _ in 0..times.parse::<u16>()? {
            out.push_str(repeated)?;
        }
        out.push_str(rest)?;
        text = out;
    }
    Err(Fail::new("too many signs"))
}

/// What comes of an action.
fn carried_out(alloc: Global, bench: &mut Bench, action: &str) -> Result<String, Fail> {
    let (verb, rest) = action.split_once(' ').unwrap_or((action, ""));
    let mut words = Words::of(rest);
    match verb {
        "cost" => cost(alloc, rest),
        "first" => first(alloc, rest),
        "cut" => cut(alloc, rest),
        "texts" => texts(alloc, bench, Extent::Book, Ends::SOUND, &mut words),
        "network" => texts(alloc, bench, Extent::Network, Ends::SOUND, &mut words),
        "group" => {
            let group = Extent::Group(words.number16()?);
            texts(alloc, bench, group, Ends::SOUND, &mut words)
        }
        "reads" => {
            let reads = Some(usize::from(words.number16()?));
            let ends = Ends {
                reads,
                writes: None,
            };
            texts(alloc, bench, Extent::Book, ends, &mut words)
        }
        "writes" => {
            let writes = Some(usize::from(words.number16()?));
            let ends = Ends {
                reads: None,
                writes,
            };
            texts(alloc, bench, Extent::Book, ends, &mut words)
        }
        "line" => bench.line(alloc, usize::from(words.number16()?)),
        _ => Err(Fail::new("no such action")),
    }
}

/// Reads a line of a table; returns whether it has an outcome, which has to be the one that is wanted.
fn expect_line(alloc: Global, bench: &mut Bench, line: &str) -> Result<bool, Fail> {
    if let Some(rest) = line.strip_prefix("in ") {
        bench.book.push_str(rest)?;
        bench.book.push('\n')?;
        return Ok(false);
    }
    let Some(row) = Row::of(line) else {
        return Ok(false);
    };
    if row.action == "again" {
        bench.book.clear();
        return Ok(false);
    }
    let found = carried_out(alloc, bench, row.action)?;
    if found.as_str() == row.wanted {
        return Ok(true);
    }
    Err(Fail::new(format_args!("{} -> {found}", row.action)))
}

/// Expects what the lines of a table say, and returns how many have an outcome.
fn expect_lines(alloc: Global, bench: &mut Bench, table: &str) -> Result<u16, Fail> {
    let mut rows = 0_u16;
    for line in table.split('\n') {
        let line = written_out(alloc, line)?;
        if expect_line(alloc, bench, &line)? {
            rows = rows.saturating_add(1);
        }
    }
    Ok(rows)
}

/// Expects what the lines of a table say, so many of which have an outcome.
pub fn expect_rows(rt: &impl Abort, alloc: Global, table: &str, count: u16) -> Result<(), Fail> {
    let mut bench = Bench::new(alloc);
    let rows = expect_lines(alloc, &mut bench, table);
    drop(bench);
    let rows = rows?;
    assert!(rt; rows == count, "{rows} rows");
    Ok(())
}
