//! Books of cells, their runs, what handsets read of their blocks, and reports of them, by lines.
//!
//! - `cell CI SLOTS; COMMAND; ..` is the run of a cell of location area 1, all of whose slots are played; it is then
//!   one of those that are reported. Each command says its answer: `write ID SERIAL REPLACED PAGES PERIOD BROADCASTS`,
//!   `background` with the same words,
//!   `kill ID SERIAL` and `status ID SERIAL`, whose serial numbers are hexadecimal, with `-` for no message that is
//!   replaced; and `play SLOTS`. `fill MESSAGES STARTED` begins so many messages of period 60, and orders stops of
//!   others to fill the log. `forget` drops all runs.
//! - `heard` says which messages a handset shows that is fed the blocks of the last run, each behind its slot.
//! - `read` reads the tapes of all runs. `swap`, `drop-reading` and `drop-run` change the readings and the runs.
//! - `rows` says how many rows the report has, or why there is none, and `row` which is the row of a place. `report`
//!   writes the report and gives its first nine lines, each behind `|`.
//! - `writer OCTETS CALLS` writes the report once more to a writer that takes so many octets a call and fails after so
//!   many calls. It says how many octets of the report the writer took, and the faults of this and of one more call.
//! - `full` makes the full report and gives its lines, each behind `|`; `full-part` the one without the names. `times
//!   MICROSECONDS`, `full-times` and these with `-part` do the same of reports with times, where slot 0 begins so many
//!   microseconds after 1970-01-01T00:00:00Z.
//! - `cause NUMBER` says a cause, of two hexadecimal digits, in words.

ghost use Rattle.std.specs.Prelude.{IfOk};
ghost use Rattle.bsc_table.specs.Orders.{IsWellFormed};

use bsc_table::{Answer, Category, CellBook, CellRecord, Command};
use cbch_blocks::tape_of;
use cbs_page::{Content, Dcs, Serial};
use cbsp_wire::{Cell, Contents};
use device_ends::memory::{MemoryReader, MemoryWriter};
use device_ends::{Sink, Source};
use handset::{Handset, Reading, Refused, TapeFault, read_tape};
use report::{
    AskedCell, BookOrders, Columns, Layout, NamedOrder, ReportFault, Row as ReportRow, cause_words,
    rows, text_with, write_report,
};
use slot_times::Start;
use std::alloc::{AllocError, Global};
use std::fmt::Write;
use std::process::Abort;
use std::test::Fail;
use test_support::{Row, Words};

/// A full page.
const PAGE: Content = Content {
    used: 82,
    octets: [0; 82],
};

/// The command of a write of one page or of two.
fn write_of(
    alloc: Global,
    category: Category,
    id: u16,
    serial: Serial,
    words: &mut Words,
) -> Result<Command, Fail>
    ensures { IfOk result (λ command. IsWellFormed command) }
{
    let replaces = match words.word() {
        "-" => None,
        old => Some(Serial::of(u16::from_str_radix(old, 16)?)),
    };
    let pages = words.number16()?;
    let (period, broadcasts) = (words.number16()?, words.number16()?);
    if period == 0 || period > 1024 {
        return Err(Fail::new("the period"));
    }
    let both = [PAGE; 2];
    let list = if pages == 1 {
        Vec::from_slice(alloc, &both[..1])?
    } else {
        Vec::from_slice(alloc, both.as_slice())?
    };
    Ok(Command::Write {
        id,
        serial,
        replaces,
        category,
        period,
        broadcasts,
        dcs: Dcs(0x01),
        contents: Contents::new(list)?,
    })
}

/// The command that a word and those after it name.
fn command_of(alloc: Global, verb: &str, words: &mut Words) -> Result<Command, Fail>
    ensures { IfOk result (λ command. IsWellFormed command) }
{
    let (id, serial) = (words.number16()?, Serial::of(words.hex16()?));
    match verb {
        "write" => write_of(alloc, Category::Normal, id, serial, words),
        "background" => write_of(alloc, Category::Background, id, serial, words),
        "kill" => Ok(Command::Kill { id, serial }),
        _ => Ok(Command::Status { id, serial }),
    }
}

/// The answer of a book to a command.
fn answer_to(
    alloc: Global,
    book: &mut CellBook,
    verb: &str,
    words: &mut Words,
) -> Result<Answer, Fail> {
    let command = command_of(alloc, verb, words)?;
    let answer = book.apply(&command);
    drop(command);
    Ok(answer)
}

/// The answer to a write of a message of one page, serial number 1, or to the stop of one that doesn't stand.
fn filled_by(alloc: Global, book: &mut CellBook, id: u16, serial: u16) -> Result<Answer, Fail> {
    let verb = if serial == 1 { "write" } else { "kill" };
    let rest = if serial == 1 { "- 1 60 0" } else { "" };
    let words = format!(in alloc; "{id} {serial:04x} {rest}")?;
    answer_to(alloc, book, verb, &mut Words::of(&words))
}

/// `fill MESSAGES STARTED`: there are two entries for each message, a write or a stop and then a stop; tells how many
/// were started, and how many refused.
fn fill(
    alloc: Global,
    told: &mut String,
    book: &mut CellBook,
    words: &mut Words,
) -> Result<(), Fail> {
    let (messages, started) = (words.number16()?, words.number16()?);
    let (mut starts, mut refusals) = (0_u16, 0_u16);
    for entry in 0..messages.saturating_mul(2) {
        let id = entry / 2;
        let serial = match entry % 2 {
            1 => 3,
            _ if id < started => 1,
            _ => 2,
        };
        match filled_by(alloc, book, id, serial)? {
            Answer::Started { slot: 0 } => starts = starts.saturating_add(1),
            Answer::Cause(0x02) => refusals = refusals.saturating_add(1),
            _ => {}
        }
    }
    Ok(write!(told, "{starts} started, {refusals} cause 02")?)
}

/// Tells an answer, causes in hexadecimal.
fn put_answer(told: &mut String, answer: Answer) -> Result<(), AllocError> {
    match answer {
        Answer::Cause(cause) => write!(told, "cause {cause:02x}"),
        answer => write!(told, "{answer:?}"),
    }
}

/// Has a book carry out a command, and tells its answer.
fn step(alloc: Global, told: &mut String, book: &mut CellBook, step: &str) -> Result<(), Fail> {
    let mut words = Words::of(step);
    match words.word() {
        "play" => {
            let range = book.play(words.number16()?);
            write!(told, "{}..{}", range.from, range.to)?;
        }
        "fill" => fill(alloc, told, book, &mut words)?,
        verb => {
            let answer = answer_to(alloc, book, verb, &mut words)?;
            put_answer(told, answer)?;
        }
    }
    if words.word().is_empty() {
        return Ok(());
    }
    Err(Fail::new("words are left over"))
}

/// Has a book carry out commands, and tells its answers.
fn steps(alloc: Global, told: &mut String, book: &mut CellBook, steps: &str) -> Result<(), Fail> {
    for one in steps.split(';') {
        if !told.is_empty() {
            told.push_str("; ")?;
        }
        if !one.is_empty() {
            step(alloc, told, book, one)?;
        }
    }
    Ok(())
}

/// The record of a run, once all its slots are played.
fn played_out(mut book: CellBook) -> CellRecord {
    book.play(u16::MAX);
    book.finish()
}

/// The record of a run.
fn run_of(alloc: Global, told: &mut String, words: &str) -> Result<CellRecord, Fail> {
    let (head, commands) = words.split_once(';').unwrap_or((words, ""));
    let mut head = Words::of(head);
    let (ci, slots) = (head.number16()?, head.number16()?);
    let mut book = CellBook::open(alloc, Cell { lac: 1, ci }, slots)?;
    let done = steps(alloc, told, &mut book, commands);
    let run = played_out(book);
    match done {
        Ok(()) => Ok(run),
        Err(fail) => {
            drop(run);
            Err(fail)
        }
    }
}

/// What `read_tape` says of a source.
fn read_one(alloc: Global, source: &mut Source<&mut MemoryReader>) -> Result<Reading, TapeFault> {
    read_tape(alloc, source)
}

/// What a handset reads of the blocks of a run.
fn reading_of(alloc: Global, run: &CellRecord) -> Result<Reading, Fail> {
    let tape = tape_of(alloc, run)?;
    let mut reader = MemoryReader::new(tape.bytes(), 4096, None);
    Ok(read_one(alloc, &mut Source::new(&mut reader))?)
}

/// The identifier and the serial number of the message that a handset shows at a block.
fn shown_by(handset: &mut Handset, block: &[u8; 23]) -> Result<Option<(u16, u16)>, Refused> {
    match handset.feed(block)? {
        Some(shown) => Ok(Some((shown.id, shown.serial.number()))),
        None => Ok(None),
    }
}

/// Tells which messages a handset shows of a tape, each behind the slot whose last block shows it.
fn put_heard(told: &mut String, handset: &mut Handset, octets: &[u8]) -> Result<(), Fail> {
    let (blocks, _) = octets.get(8..).ok_or("no header")?.as_chunks::<23>();
    for (place, block) in blocks.iter().enumerate() {
        if let Some((id, serial)) = shown_by(handset, block)? {
            let (slot, last) = (place / 4, place % 4 + 1);
            write!(told, "block {last} of slot {slot}: {id} {serial:04x}, ")?;
        }
    }
    Ok(told.push_str("no more")?)
}

/// Writes a report, again if that failed, and tells what the faults are.
fn put_faults(
    alloc: Global,
    told: &mut String,
    rows: &[ReportRow],
    writer: &mut MemoryWriter,
) -> Result<(), AllocError> {
    let mut sink = Sink::new(writer);
    let first = write_report(alloc, rows, &mut sink);
    let failed = sink.failed();
    let Err(first) = first else {
        return told.push_str(if failed { "the sink failed" } else { "whole" });
    };
    match write_report(alloc, rows, &mut sink) {
        Err(second) if failed && sink.failed() => write!(told, "{first:?}, then {second:?}"),
        _ => told.push_str("the sink didn't fail, or takes more"),
    }
}

/// Runs, readings and a report.
#[derive(Drop)]
pub struct Books {
    alloc: Global,
    pub runs: Vec<CellRecord>,
    pub readings: Vec<Reading>,
    orders: BookOrders,
    report: String,
    told: String,
}

impl Books {
    /// No runs.
    pub fn new(alloc: Global) -> Books {
        Books {
            alloc,
            runs: Vec::new(alloc),
            readings: Vec::new(alloc),
            orders: BookOrders::none(alloc),
            report: String::new(alloc),
            told: String::new(alloc),
        }
    }

    /// Tells what a handset hears of the last run.
    fn hear(&mut self) -> Result<(), Fail> {
        let run = self.runs.last().ok_or("no run")?;
        let tape = tape_of(self.alloc, run)?;
        let mut handset = Handset::new(self.alloc);
        let done = put_heard(&mut self.told, &mut handset, tape.bytes());
        drop(handset);
        done
    }

    /// Reads the tapes of all runs.
    fn read(&mut self) -> Result<(), Fail> {
        self.readings.clear();
        for run in &self.runs {
            self.readings.push(reading_of(self.alloc, run)?)?;
        }
        Ok(())
    }

    /// The rows of the runs and their readings.
    fn rows(&self) -> Result<Vec<ReportRow>, ReportFault> {
        rows(self.alloc, &self.runs, &self.readings)
    }

    /// `named ROW NAME` adds an order of the book.
    fn add_order(&mut self, words: &mut Words) -> Result<(), Fail> {
        let row = words.word().parse::<u32>()?;
        let name = String::from_str(self.alloc, words.word())?;
        self.orders.named.push(NamedOrder { row, name })?;
        Ok(())
    }

    /// `asked CI PLACE..` says which orders asked a cell.
    fn add_asked(&mut self, rest: &str) -> Result<(), Fail> {
        let (ci, places) = rest.split_once(' ').unwrap_or((rest, ""));
        let ci = ci.parse::<u16>()?;
        let mut asked = AskedCell {
            cell: Cell { lac: 1, ci },
            places: Vec::new(self.alloc),
        };
        for place in places.split(' ') {
            asked.places.push(place.parse::<usize>()?)?;
        }
        self.orders.asked.push(asked)?;
        Ok(())
    }

    /// `rows` tells how many rows there are, and `row PLACE` the row of a place; or why there are none.
    fn tell_rows(&mut self, place: &str) -> Result<(), Fail> {
        match self.rows() {
            Ok(rows) if place.is_empty() => write!(self.told, "{}", rows.len())?,
            Ok(rows) => match rows.get(place.parse::<usize>()?) {
                Some(row) => write!(self.told, "{row:?}")?,
                None => self.told.push_str("no row")?,
            },
            Err(fault) => write!(self.told, "{fault:?}")?,
        }
        Ok(())
    }

    /// `report` writes the report and tells it.
    fn report(&mut self) -> Result<(), Fail> {
        let rows = self.rows()?;
        let mut writer = MemoryWriter::new(self.alloc, 4096, None);
        put_faults(self.alloc, &mut self.told, &rows, &mut writer)?;
        self.report = String::from_utf8_lossy(self.alloc, writer.contents())?;
        for line in self.report.split('\n').take(9) {
            write!(self.told, "|{line}")?;
        }
        Ok(())
    }

    /// `full` and `full-part` tell the full report, headed or not.
    fn tell_full(&mut self, headed: bool) -> Result<(), Fail> {
        self.tell_text(Columns::Full, None, headed)
    }

    /// `times` and its like tell a report with times.
    fn tell_times(&mut self, columns: Columns, headed: bool, start: &str) -> Result<(), Fail> {
        match Start::new(start.parse::<u64>()?) {
            Some(start) => self.tell_text(columns, Some(start), headed),
            None => Ok(self.told.push_str("no start")?),
        }
    }

    /// Tells a report that is laid out so, headed or not.
    fn tell_text(
        &mut self,
        columns: Columns,
        start: Option<Start>,
        headed: bool,
    ) -> Result<(), Fail> {
        let rows = self.rows()?;
        let layout = Layout { columns, start };
        let octets = text_with(self.alloc, layout, headed, &self.orders, &rows)?;
        let text = String::from_utf8_lossy(self.alloc, &octets)?;
        for line in text.split('\n') {
            write!(self.told, "|{line}")?;
        }
        Ok(())
    }

    /// `writer OCTETS CALLS` writes the report to a writer that fails.
    fn write(&mut self, words: &mut Words) -> Result<(), Fail> {
        let (octets, calls) = (words.number16()?, words.number16()?);
        let rows = self.rows()?;
        let mut writer = MemoryWriter::new(
            self.alloc,
            usize::from(octets),
            Some(usize::from(calls)),
        );
        put_faults(self.alloc, &mut self.told, &rows, &mut writer)?;
        if !self.report.as_bytes().starts_with(writer.contents()) {
            return Ok(self.told.push_str(", something else")?);
        }
        Ok(write!(self.told, ": {}", writer.contents().len())?)
    }

    /// Carries out an action, and tells what comes of it.
    fn carry_out(&mut self, action: &str) -> Result<(), Fail> {
        let (verb, rest) = action.split_once(' ').unwrap_or((action, ""));
        match verb {
            "cell" => {
                let run = run_of(self.alloc, &mut self.told, rest)?;
                self.runs.push(run)?;
            }
            "forget" => {
                self.runs.clear();
                self.readings.clear();
                self.orders = BookOrders::none(self.alloc);
            }
            "named" => self.add_order(&mut Words::of(rest))?,
            "asked" => self.add_asked(rest)?,
            "read" => self.read()?,
            "swap" => self.readings.reverse(),
            "drop-reading" => self
                .readings
                .truncate(self.readings.len().saturating_sub(1)),
            "drop-run" => self.runs.truncate(self.runs.len().saturating_sub(1)),
            "heard" => self.hear()?,
            "rows" | "row" => self.tell_rows(rest)?,
            "report" => self.report()?,
            "full" => self.tell_full(true)?,
            "full-part" => self.tell_full(false)?,
            "times" => self.tell_times(Columns::Plain, true, rest)?,
            "times-part" => self.tell_times(Columns::Plain, false, rest)?,
            "full-times" => self.tell_times(Columns::Full, true, rest)?,
            "full-times-part" => self.tell_times(Columns::Full, false, rest)?,
            "writer" => self.write(&mut Words::of(rest))?,
            "texts" => put_texts(&mut self.told)?,
            "cause" => self
                .told
                .push_str(cause_words(u8::from_str_radix(rest, 16)?))?,
            _ => self.told.push_str("no such action")?,
        }
        Ok(())
    }
}

/// Tells the texts of the faults.
fn put_texts(told: &mut String) -> Result<(), AllocError> {
    let (cells, write, memory) = (
        ReportFault::Cells,
        ReportFault::WriteFailed,
        ReportFault::Refused,
    );
    write!(told, "{cells}, {write}, {memory}")
}

/// Expects what the rows of a table say, and returns how many there are.
pub fn expect_each(books: &mut Books, table: &str) -> Result<u16, Fail> {
    let mut count = 0_u16;
    for line in table.split('\n') {
        if let Some(row) = Row::of(line) {
            books.told.clear();
            books.carry_out(row.action)?;
            if books.told.as_str() != row.wanted {
                return Err(Fail::new(format_args!("{} -> {}", row.action, books.told)));
            }
            count = count.saturating_add(1);
        }
    }
    Ok(count)
}

/// Expects what the rows of a table say of no runs, and that there are so many rows.
pub fn expect_rows(rt: &impl Abort, alloc: Global, table: &str, rows: u16) -> Result<(), Fail> {
    let mut books = Books::new(alloc);
    let count = expect_each(&mut books, table);
    drop(books);
    assert!(rt; count? == rows);
    Ok(())
}
