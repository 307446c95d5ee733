//! Runs of cells, tapes, and what these have of what was asked, by lines.
//!
//! - `cell CI SLOTS` opens the book of a cell of location area 1.
//! - `write ID SERIAL REPLACED CATEGORY PERIOD BROADCASTS LANGUAGE TEXT` and `kill ID SERIAL` are commands to it;
//! serial
//!   numbers are hexadecimal, `-` stands for no message that is replaced, categories are high, normal and background,
//!   and `/` ends each page of the text but the last. `play SLOTS` plays slots, and `end` the others.
//! - `tape` takes the last run's own tape, and `blank` one of no slots. `idle SLOTS` and
//!   `send ID SERIAL LANGUAGE NUMBER TOTAL TEXT` append slots, `block` appends one block alone, and
//!   `octet BLOCK PLACE VALUE`, `swap SLOT SLOT` and `silence SLOT` change it.
//! - `found` judges the tape by the last run, and gives the first row; `next` gives the next one, and `none` after the
//!   last.
//! - `begin` has all runs await their tapes, `take CI` takes the tape as that cell's, and `rows` gives the first row.
//!   `explain` is `begin` with an explained table, and `start MICROSECONDS` gives the tables of those that follow
//!   times, of which slot 0 begins so long after 1970-01-01T00:00:00Z. `names` gives the names of columns. `table`
//!   makes the rows and gives none; `part FROM TO` gives these octets of the row that is next, and `skip` passes over
//!   it.

ghost use Rattle.std.specs.Prelude.{◌≡◌, ◌≤◌, length, All, IfOk};
ghost use Rattle.bsc_table.specs.Orders.{IsWellFormed};

use crate::of_verification::tapes::Blocks;
use bsc_table::{Answer, Category, CellBook, CellRecord, Command};
use cbs_page::{Content, Dcs, Serial, paginate};
use cbsp_wire::{Cell, Contents};
use slot_times::Start;
use std::alloc::Global;
use std::process::Abort;
use std::test::Fail;
use std::{mem, str};
use test_support::{Row as Line, Words};
use verification::{Detail, Finding, Findings, Row, TableLayout, differences, text_of};

/// Runs, a tape, and rows.
#[derive(Drop)]
pub struct Cells {
    alloc: Global,
    open: Option<CellBook>,
    pub runs: Vec<CellRecord>,
    pub tape: Blocks,
    findings: Option<Findings>,
    start: Option<Start>,
    text: String,
    lines: usize,
}

/// The category that a word names.
fn category(word: &str) -> Category {
    match word {
        "high" => Category::High,
        "background" => Category::Background,
        _ => Category::Normal,
    }
}

/// The serial number that is replaced, if the word isn't `-`.
fn replaced(word: &str) -> Result<Option<Serial>, Fail> {
    if word == "-" {
        return Ok(None);
    }
    Ok(Some(Serial::of(u16::from_str_radix(word, 16)?)))
}

/// The content of a page with this text, in the GSM alphabet.
fn content(alloc: Global, text: &str) -> Result<Content, Fail>
    ensures { IfOk result (λ content. content ≡ record { used = 82; octets = content.octets }) }
{
    let paged = paginate(alloc, text, "en")?;
    match paged.pages.get(0) {
        Some(content) => Ok(Content {
            used: 82,
            octets: content.octets,
        }),
        None => Err(Fail::new("no page")),
    }
}

/// What a write asks for, but for its pages.
#[derive(Clone, Copy)]
struct Wish {
    id: u16,
    serial: Serial,
    replaces: Option<Serial>,
    category: Category,
    period: u16,
    broadcasts: u16,
}

/// The command of a write with these pages.
fn write_of(alloc: Global, wish: Wish, pages: &[Content]) -> Result<Command, Fail>
    requires some { 1 ≤ length pages.now }
    requires few { length pages.now ≤ 15 }
    requires used { All (λ content. content.used ≤ 82) pages.now }
    requires full { All (λ content. length content.octets ≡ 82) pages.now }
    requires period { 1 ≤ wish.period }
    requires short { wish.period ≤ 1024 }
    ensures { IfOk result (λ command. IsWellFormed command) }
{
    let list = Vec::from_slice(alloc, pages)?;
    Ok(Command::Write {
        id: wish.id,
        serial: wish.serial,
        replaces: wish.replaces,
        category: wish.category,
        period: wish.period,
        broadcasts: wish.broadcasts,
        dcs: Dcs(0x01),
        contents: Contents::new(list)?,
    })
}

/// The command of a write.
fn write(alloc: Global, words: &mut Words) -> Result<Command, Fail>
    ensures { IfOk result (λ command. IsWellFormed command) }
{
    let (id, serial) = (words.number16()?, Serial::of(words.hex16()?));
    let replaces = replaced(words.word())?;
    let category = category(words.word());
    let (period, broadcasts) = (words.number16()?, words.number16()?);
    let wish = Wish {
        id,
        serial,
        replaces,
        category,
        period,
        broadcasts,
    };
    if period == 0 || period > 1024 {
        return Err(Fail::new("the period"));
    }
    let mut pieces = words.word().split('/');
    let first = content(alloc, pieces.next().unwrap_or(""))?;
    match pieces.next() {
        Some(piece) => {
            let second = content(alloc, piece)?;
            write_of(alloc, wish, [first, second].as_slice())
        }
        None => write_of(alloc, wish, [first].as_slice()),
    }
}

/// The command that a word and those after it name.
fn command(alloc: Global, word: &str, words: &mut Words) -> Result<Command, Fail>
    ensures { IfOk result (λ command. IsWellFormed command) }
{
    if word == "write" {
        return write(alloc, words);
    }
    let id = words.number16()?;
    let serial = Serial::of(words.hex16()?);
    Ok(Command::Kill { id, serial })
}

/// What an answer says, causes in hexadecimal.
fn said(alloc: Global, answer: Answer) -> Result<String, Fail> {
    match answer {
        Answer::Cause(cause) => Ok(format!(in alloc; "cause {cause:02x}")?),
        answer => Ok(format!(in alloc; "{answer:?}")?),
    }
}

impl Cells {
    /// No runs.
    fn new(alloc: Global) -> Cells {
        Cells {
            alloc,
            open: None,
            runs: Vec::new(alloc),
            tape: Blocks::new(alloc),
            findings: None,
            start: None,
            text: String::new(alloc),
            lines: 0,
        }
    }

    /// The runs and the tape.
    pub fn into_runs(self) -> (Vec<CellRecord>, Blocks) {
        let Cells {
            alloc: _,
            open,
            runs,
            tape,
            findings,
            start: _,
            text,
            lines: _,
        } = self;
        drop(open);
        drop(findings);
        drop(text);
        (runs, tape)
    }

    /// Opens the book of a cell.
    fn open(&mut self, words: &mut Words) -> Result<(), Fail> {
        let ci = words.number16()?;
        let slots = words.number16()?;
        let book = CellBook::open(self.alloc, Cell { lac: 1, ci }, slots)?;
        drop(self.open.replace(book));
        Ok(())
    }

    /// The answer of the open book to a command.
    fn answer(&mut self, command: &Command) -> Result<Answer, Fail>
        requires { IsWellFormed command.now }
    {
        match &mut self.open {
            Some(book) => Ok(book.apply(command)),
            None => Err(Fail::new("no book")),
        }
    }

    /// Plays slots of the open book.
    fn play(&mut self, slots: u16) {
        if let Some(book) = &mut self.open {
            book.play(slots);
        }
    }

    /// Plays the open book to its end, and makes it a run.
    fn end(&mut self) -> Result<(), Fail> {
        if let Some(mut book) = self.open.take() {
            book.play(u16::MAX);
            self.runs.push(book.finish())?;
        }
        Ok(())
    }

    /// Keeps the text of rows, and gives the first.
    fn keep(&mut self, rows: &[Row]) -> Result<String, Fail> {
        self.text = text_of(self.alloc, rows)?;
        self.lines = 1;
        self.next()
    }

    /// The next row; the columns' names aren't one.
    fn next(&mut self) -> Result<String, Fail> {
        let line = match self.text.split('\n').nth(self.lines) {
            Some(line) if !line.is_empty() => String::from_str(self.alloc, line)?,
            _ => String::from_str(self.alloc, "none")?,
        };
        self.lines = self.lines.saturating_add(1);
        Ok(line)
    }

    /// The rows of the last run by the tape.
    fn found(&mut self) -> Result<String, Fail> {
        let run = self.runs.last().ok_or("no run")?;
        let cell = run.cell();
        let mut rows = Vec::new(self.alloc);
        for difference in &differences(self.alloc, run, self.tape.list.as_slice())? {
            rows.push(Row {
                cell,
                finding: Finding::Differs(*difference),
            })?;
        }
        self.keep(rows.as_slice())
    }

    /// Has all runs await their tapes.
    fn begin(&mut self, detail: Detail) -> Result<(), Fail> {
        let runs = mem::replace(&mut self.runs, Vec::new(self.alloc));
        let start = self.start;
        let findings = Findings::new(self.alloc, TableLayout { detail, start }, runs)?;
        drop(self.findings.replace(findings));
        Ok(())
    }

    /// Takes the tape as that of a cell.
    fn take(&mut self, words: &mut Words) -> Result<(), Fail> {
        let ci = words.number16()?;
        let slots = u32::try_from(self.tape.list.len() / 4).unwrap_or(u32::MAX);
        match &mut self.findings {
            Some(findings) => {
                findings.take(Cell { lac: 1, ci }, slots, self.tape.list.as_slice())?;
                Ok(())
            }
            None => Err(Fail::new("nothing awaits it")),
        }
    }

    /// Makes the rows of all tapes.
    fn table(&mut self) -> Result<(), Fail> {
        let table = match &self.findings {
            Some(findings) => findings.table()?,
            None => return Err(Fail::new("nothing was found")),
        };
        self.text = match str::from_utf8(&table.text) {
            Ok(text) => String::from_str(self.alloc, text)?,
            Err(_) => return Err(Fail::new("no text")),
        };
        self.lines = 1;
        Ok(())
    }

    /// The first row of all tapes.
    fn rows(&mut self) -> Result<String, Fail> {
        self.table()?;
        self.next()
    }

    /// The names of the columns of all tapes' rows, before the first row.
    fn names(&mut self) -> Result<String, Fail> {
        self.table()?;
        self.lines = 0;
        self.next()
    }

    /// Some octets of the row that is next.
    fn part(&mut self, words: &mut Words) -> Result<String, Fail> {
        let (from, to) = (words.number16()?, words.number16()?);
        let row = self.text.split('\n').nth(self.lines).ok_or("no row")?;
        let part = row.get(usize::from(from)..usize::from(to));
        Ok(String::from_str(self.alloc, part.ok_or("no such octets")?)?)
    }

    /// Changes runs and the tape; false if the action isn't one that does.
    fn change(&mut self, action: &str, words: &mut Words) -> Result<bool, Fail> {
        match action {
            "cell" => self.open(words)?,
            "play" => self.play(words.number16()?),
            "end" => self.end()?,
            "begin" => self.begin(Detail::Plain)?,
            "explain" => self.begin(Detail::Explained)?,
            "start" => self.start = Start::new(words.word().parse::<u64>()?),
            "take" => self.take(words)?,
            "table" => self.table()?,
            "skip" => self.lines = self.lines.saturating_add(1),
            _ => return self.tape.change(action, self.runs.last(), words),
        }
        Ok(true)
    }

    /// What comes of an action.
    fn carry_out(&mut self, words: &mut Words) -> Result<String, Fail> {
        let action = words.word();
        if self.change(action, words)? {
            return Ok(String::new(self.alloc));
        }
        match action {
            "write" | "kill" => {
                let command = command(self.alloc, action, words)?;
                let answer = self.answer(&command);
                drop(command);
                said(self.alloc, answer?)
            }
            "found" => self.found(),
            "names" => self.names(),
            "rows" => self.rows(),
            "next" => self.next(),
            "part" => self.part(words),
            _ => Ok(String::from_str(self.alloc, "no such action")?),
        }
    }
}

/// Expects what a line says.
fn expect_line(rt: &impl Abort, cells: &mut Cells, line: Line) -> Result<(), Fail> {
    let mut words = Words::of(line.action);
    let found = cells.carry_out(&mut words)?;
    assert_eq!(rt; found.as_str(), line.wanted, "{}", line.action);
    if words.word().is_empty() {
        return Ok(());
    }
    Err(Fail::new("words are left over"))
}

/// Expects what the lines of a table say, and returns how many there are.
fn expect_each(rt: &impl Abort, cells: &mut Cells, table: &str) -> Result<u16, Fail> {
    let mut count = 0_u16;
    for line in table.split('\n') {
        if let Some(line) = Line::of(line) {
            expect_line(rt, cells, line)?;
            count = count.saturating_add(1);
        }
    }
    Ok(count)
}

/// Expects what the lines of a table say of no runs, and that there are so many lines. Returns the runs.
pub fn expect_lines(
    rt: &impl Abort,
    alloc: Global,
    table: &str,
    lines: u16,
) -> Result<Cells, Fail> {
    let mut cells = Cells::new(alloc);
    match expect_each(rt, &mut cells, table) {
        Ok(count) => {
            assert_eq!(rt; count, lines);
            Ok(cells)
        }
        Err(fail) => {
            drop(cells);
            Err(fail)
        }
    }
}
