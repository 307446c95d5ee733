//! What the rows of a table mean: a cell, the commands that it is given, and what it airs; and the orders of messages.
//! All messages of a cell have identifier 4370. The steps of a row are parted by `;`, and what each says is wanted.
//!
//! The book of a step `scarce cell ..` is opened, and the commands of a step `scarce ..` are answered, with hardly any
//! memory. If one is refused, the book has to say what it said before, and is asked once more with all memory; the
//! steps have to say what they would have said. The row is then carried out again, with one block more, until nothing
//! is refused: so it begins with a cell.

ghost use Rattle.std.specs.Prelude.{◌≡◌, ℕ, ◌≤◌, IfOk, length, All};
ghost use Rattle.bsc_table.specs.Orders.{IsWellFormed};

use crate::of_bsc_table::messages::{put_cells_in, put_copy_of, put_order_of};
use crate::of_bsc_table::told::{put_air, put_answer, put_cell, put_standing};
use bsc_table::{Answer, Category, CellBook, CellRecord, Command, Refused};
use cbs_page::{Content, Dcs, Serial};
use cbsp_wire::{Cell, Contents};
use std::alloc::{AllocError, Global};
use std::fmt::Write;
use std::mem;
use std::process::Abort;
use std::test::Fail;
use test_support::{Drought, Row, Words, after_refusals, octets_of};

/// A page.
const PAGE: Content = Content {
    used: 1,
    octets: [0x0D; 82],
};

/// A run of a cell, and scarce memory for the commands of a step.
#[derive(Drop)]
struct Run {
    alloc: Global,
    book: CellBook,
    /// What came of the row under way.
    told: String,
    drought: Drought,
    /// Whether memory is scarce for the step under way.
    is_scarce: bool,
    /// Whether the row under way was refused memory.
    is_refused: bool,
}

/// A book without slots.
fn no_book(alloc: Global) -> Result<CellBook, Refused> {
    CellBook::open(alloc, Cell { lac: 0, ci: 0 }, 0)
}

impl Run {
    /// A run of no slots.
    fn new(alloc: Global) -> Result<Run, Fail> {
        let drought = Drought::new(alloc)?;
        let book = no_book(alloc)?;
        Ok(Run {
            alloc,
            book,
            told: String::new(alloc),
            drought,
            is_scarce: false,
            is_refused: false,
        })
    }
}

/// Puts what a book says of its run, of its entries, and of the messages of the serial numbers 0000 to 000F.
fn put_all(told: &mut String, book: &CellBook) -> Result<(), AllocError> {
    put_book(told, book)?;
    put_air(told, book.air())?;
    for place in 0..book.log().len() {
        put_entry(told, book, place)?;
    }
    for serial in 0..16 {
        put_status(told, book, serial)?;
    }
    Ok(())
}

/// All that a book says.
fn said_by(alloc: Global, book: &CellBook) -> Result<String, AllocError> {
    let mut text = String::new(alloc);
    put_all(&mut text, book)?;
    Ok(text)
}

/// Whether both texts are there, and the same.
fn are_same(one: Result<String, AllocError>, other: Result<String, AllocError>) -> bool {
    match (one, other) {
        (Ok(one), Ok(other)) => one == other,
        _ => false,
    }
}

/// The answer to a command. No clause says which: what `apply` says of a book is more than a table needs.
fn ask(book: &mut CellBook, command: &Command) -> Answer
    requires { IsWellFormed command.now }
{
    book.apply(command)
}

/// The answer to a command, where memory can be scarce.
fn ask_in(alloc: Global, drought: &mut Drought, book: &mut CellBook, command: &Command) -> Answer
    requires { IsWellFormed command.now }
{
    drought.begin(alloc);
    let answer = ask(book, command);
    drought.end();
    answer
}

/// The answer to a command where memory is scarce, and whether the book says what it said before.
fn ask_scarcely(run: &mut Run, command: &Command) -> (Answer, bool)
    requires { IsWellFormed command.now }
{
    let before = said_by(run.alloc, &run.book);
    let answer = ask_in(run.alloc, &mut run.drought, &mut run.book, command);
    (answer, are_same(before, said_by(run.alloc, &run.book)))
}

/// The answer to a command: if memory was refused to it, the answer to the same once more, with all memory.
fn answered(run: &mut Run, command: &Command) -> Result<Answer, Fail>
    requires { IsWellFormed command.now }
{
    if run.is_scarce {
        let (answer, is_same) = ask_scarcely(run, command);
        if answer != Answer::Refused {
            return Ok(answer);
        }
        run.is_refused = true;
        if !is_same {
            return Err(Fail::new("a refused command changes the book"));
        }
    }
    Ok(ask(&mut run.book, command))
}

/// What a write asks for.
#[derive(Clone, Copy)]
struct Wish {
    serial: u16,
    replaces: Option<u16>,
    category: Category,
    period: u16,
    broadcasts: u16,
    pages: u16,
}

/// What the words of a write ask for, from its period on: `every 4 pages 2` is a normal message of two pages with a
/// period of four slots that stands until it is stopped, and `for 0001` names the one that it replaces.
fn wish_of(words: &mut Words<'_>, serial: u16) -> Result<Wish, Fail> {
    let mut wish = Wish {
        serial,
        replaces: None,
        category: Category::Normal,
        period: 0,
        broadcasts: 0,
        pages: 1,
    };
    for _ in 0..12 {
        match words.word() {
            "" => return Ok(wish),
            "for" => wish.replaces = Some(words.hex16()?),
            "high" => wish.category = Category::High,
            "background" => wish.category = Category::Background,
            "every" => wish.period = words.number16()?,
            "times" => wish.broadcasts = words.number16()?,
            "pages" => wish.pages = words.number16()?,
            _ => return Err(Fail::new("no such word of a write")),
        }
    }
    Err(Fail::new("too many words"))
}

/// A write with these pages.
fn command_of(alloc: Global, wish: Wish, pages: &[Content]) -> Result<Command, Fail>
    requires pages { 1 ≤ length pages.now }
    requires few { length pages.now ≤ 15 }
    requires used { All (λ c. c.used ≤ 82) pages.now }
    requires full { All (λ c. length c.octets ≡ 82) pages.now }
    requires period { 1 ≤ wish.period }
    requires short { wish.period ≤ 1024 }
    ensures { IfOk result (λ command. IsWellFormed command) }
{
    let list = Vec::from_slice(alloc, pages)?;
    Ok(Command::Write {
        id: 4370,
        serial: Serial::of(wish.serial),
        replaces: wish.replaces.map(Serial::of),
        category: wish.category,
        period: wish.period,
        broadcasts: wish.broadcasts,
        dcs: Dcs(0x01),
        contents: Contents::new(list)?,
    })
}

/// The answer to a write with these pages.
fn answer_to(run: &mut Run, wish: Wish, pages: &[Content]) -> Result<Answer, Fail>
    requires pages { 1 ≤ length pages.now }
    requires few { length pages.now ≤ 15 }
    requires used { All (λ c. c.used ≤ 82) pages.now }
    requires full { All (λ c. length c.octets ≡ 82) pages.now }
    requires period { 1 ≤ wish.period }
    requires short { wish.period ≤ 1024 }
{
    let command = command_of(run.alloc, wish, pages)?;
    let answer = answered(run, &command);
    drop(command);
    answer
}

/// The answer to a write of one page, of two or of three.
fn written(run: &mut Run, wish: Wish) -> Result<Answer, Fail> {
    if wish.period < 1 || 1024 < wish.period {
        return Err(Fail::new("no such period"));
    }
    match wish.pages {
        1 => answer_to(run, wish, [PAGE].as_slice()),
        2 => answer_to(run, wish, [PAGE, PAGE].as_slice()),
        3 => answer_to(run, wish, [PAGE, PAGE, PAGE].as_slice()),
        _ => Err(Fail::new("no such number of pages")),
    }
}

/// A book of a cell, opened where memory can be scarce.
fn open_in(
    alloc: Global,
    drought: &mut Drought,
    cell: Cell,
    slots: u16,
) -> Result<CellBook, Refused> {
    drought.begin(alloc);
    let outcome = CellBook::open(alloc, cell, slots);
    drought.end();
    outcome
}

/// Has a book that was opened take the place of another.
fn place(book: &mut CellBook, opened: Result<CellBook, Refused>) -> Result<(), Refused> {
    *book = opened?;
    Ok(())
}

/// The cell that a word names.
fn cell_of(word: &str) -> Result<Cell, Fail> {
    let (lac, ci) = word.split_once('-').unwrap_or(("", ""));
    Ok(Cell {
        lac: lac.parse::<u16>()?,
        ci: ci.parse::<u16>()?,
    })
}

/// `cell LAC-CI SLOTS`: what follows is about a new run of this cell.
fn begin(run: &mut Run, words: &mut Words<'_>) -> Result<(), Fail> {
    let cell = cell_of(words.word())?;
    let slots = words.number16()?;
    let opened = open_in(run.alloc, &mut run.drought, cell, slots);
    if place(&mut run.book, opened).is_err() {
        run.is_refused = true;
        place(&mut run.book, CellBook::open(run.alloc, cell, slots))?;
    }
    Ok(())
}

/// `book`: the cell, its number of slots, and the slot that is aired next.
fn put_book(told: &mut String, book: &CellBook) -> Result<(), AllocError> {
    put_cell(told, book.cell())?;
    write!(told, ", {} slots, next is {}", book.slots(), book.clock())
}

/// `writes NUMBER SERIAL every SLOTS ..`: the answer to as many writes, with serial numbers from this one on.
fn write_each(
    run: &mut Run,
    number: u16,
    words: &mut Words<'_>,
    serial: u16,
) -> Result<Answer, Fail> {
    let mut wish = wish_of(words, serial)?;
    let answer = written(run, wish)?;
    for serial in 1..number {
        wish.serial = serial;
        if written(run, wish)? != answer {
            return Err(Fail::new("the answers differ"));
        }
    }
    Ok(answer)
}

/// The answer to a kill of the message of a serial number.
fn killed(run: &mut Run, serial: u16) -> Result<Answer, Fail> {
    let serial = Serial::of(serial);
    answered(run, &Command::Kill { id: 4370, serial })
}

/// The answer to each of as many statuses of it, as commands.
fn asked(run: &mut Run, number: u16, serial: u16) -> Result<Answer, Fail> {
    let serial = Serial::of(serial);
    let answer = answered(run, &Command::Status { id: 4370, serial })?;
    for _ in 1..number {
        if answered(run, &Command::Status { id: 4370, serial })? != answer {
            return Err(Fail::new("the answers differ"));
        }
    }
    Ok(answer)
}

/// `status SERIAL`: how often the message of a serial number was broadcast, and how it stands.
fn put_status(told: &mut String, book: &CellBook, serial: u16) -> Result<(), AllocError> {
    match book.status(4370, Serial::of(serial)) {
        Some((completed, state)) => put_standing(told, completed, state),
        None => told.push_str("unknown"),
    }
}

/// `play SLOTS`: as many slots are aired; the first of them, and the one after the last.
fn play(run: &mut Run, words: &mut Words<'_>) -> Result<(), Fail> {
    let range = run.book.play(words.number16()?);
    Ok(write!(run.told, "{}..{}", range.from, range.to)?)
}

/// `entry PLACE`: the slot of an entry of the log, and its answer.
fn put_entry(told: &mut String, book: &CellBook, place: usize) -> Result<(), AllocError> {
    let Some(entry) = book.log().get(place) else {
        return told.push_str("no such entry");
    };
    write!(told, "at {}, ", entry.slot)?;
    put_answer(told, entry.answer)
}

/// What a record says.
fn put_record(told: &mut String, record: &CellRecord) -> Result<(), AllocError> {
    let (slots, entries) = (record.slots(), record.log().len());
    put_cell(told, record.cell())?;
    write!(told, ", {slots} slots, {entries} entries, air ")?;
    put_air(told, record.air())
}

/// The record of a run, of which all slots have to be aired.
fn put_finished(told: &mut String, over: CellBook) -> Result<(), AllocError> {
    if over.clock() != over.slots() {
        drop(over);
        return told.push_str("the run isn't over");
    }
    let record = over.finish();
    let done = put_record(told, &record);
    drop(record);
    done
}

/// `finish`: the record of the run.
fn finish(run: &mut Run) -> Result<(), Fail> {
    let over = mem::replace(&mut run.book, no_book(run.alloc)?);
    Ok(put_finished(&mut run.told, over)?)
}

/// Puts what a book says.
fn see(run: &mut Run, verb: &str, words: &mut Words<'_>) -> Result<(), Fail> {
    let Run { book, told, .. } = run;
    match verb {
        "book" => put_book(told, book)?,
        "status" => put_status(told, book, words.hex16()?)?,
        "air" => put_air(told, book.air())?,
        "aired" => write!(told, "{} slots", book.air().len())?,
        "log" => write!(told, "{} entries", book.log().len())?,
        "entry" => put_entry(told, book, usize::from(words.number16()?))?,
        _ => return Err(Fail::new("no such action")),
    }
    Ok(())
}

/// The answer to a command that a verb and the words after it say.
fn answer_of(run: &mut Run, verb: &str, words: &mut Words<'_>) -> Result<Answer, Fail> {
    let number = match verb {
        "writes" | "asks" => words.number16()?,
        _ => 1,
    };
    match verb {
        "writes" => write_each(run, number, words, 0),
        "write" => {
            let serial = words.hex16()?;
            write_each(run, number, words, serial)
        }
        "kill" => killed(run, words.hex16()?),
        _ => asked(run, number, words.hex16()?),
    }
}

/// Puts the answer to a command.
fn answer(run: &mut Run, verb: &str, words: &mut Words<'_>) -> Result<(), Fail> {
    let answer = answer_of(run, verb, words)?;
    Ok(put_answer(&mut run.told, answer)?)
}

/// `octets DIGITS`: the cells of the order of these octets.
fn put_cells(run: &mut Run, digits: &str) -> Result<(), Fail> {
    let octets = octets_of(run.alloc, digits)?;
    Ok(put_cells_in(run.alloc, &mut run.told, &octets)??)
}

/// Puts what comes of a verb and the words after it.
fn carry_out(run: &mut Run, verb: &str, words: &mut Words<'_>) -> Result<(), Fail> {
    match verb {
        "cell" => begin(run, words),
        "play" => play(run, words),
        "finish" => finish(run),
        "write" | "writes" | "kill" | "ask" | "asks" => answer(run, verb, words),
        "order" => put_order_of(run.alloc, &mut run.told, words),
        "copy" => put_copy_of(run.alloc, &mut run.told, &mut run.drought, words),
        "octets" => put_cells(run, words.word()),
        _ => see(run, verb, words),
    }
}

/// Puts what comes of a step, for which so many blocks of memory are left if it is `scarce`. Its words are all read.
fn step(run: &mut Run, step: &str, blocks: u16) -> Result<(), Fail> {
    if !run.told.is_empty() {
        run.told.push_str("; ")?;
    }
    let mut words = Words::of(step);
    run.is_scarce = step.contains("scarce ");
    let verb = run.drought.verb(&mut words, blocks);
    carry_out(run, verb, &mut words)?;
    if words.word().is_empty() {
        return Ok(());
    }
    Err(Fail::new("words are left over"))
}

/// Tells what comes of the steps of a row.
fn tell_steps(run: &mut Run, steps: &str, blocks: u16) -> Result<(), Fail> {
    run.is_refused = false;
    run.told.clear();
    for one in steps.split(';') {
        step(run, one, blocks)?;
    }
    Ok(())
}

/// Tells that a row was refused memory so often, if that is as often as each call is in a drought.
fn tell_refusals(run: &mut Run, refused: u16) -> Result<(), Fail> {
    let told = mem::replace(&mut run.told, String::new(run.alloc));
    run.told = after_refusals(run.alloc, refused, told)?;
    Ok(())
}

/// Tells what comes of a row. If it is refused memory, it is carried out again, with one block more each time.
fn tell(run: &mut Run, row: Row<'_>) -> Result<(), Fail> {
    for refused in 0..Drought::MOST {
        tell_steps(run, row.action, refused)?;
        if !run.is_refused {
            return tell_refusals(run, refused);
        }
        if row.wanted.strip_prefix("refused; ") != Some(run.told.as_str()) {
            return Ok(run.told.push_str(", once it was refused")?);
        }
    }
    Err(Fail::new("it is refused to the end"))
}

/// Expects that what was told of a row is what it wants.
fn expect(rt: &impl Abort, told: &str, row: Row<'_>) {
    assert_eq!(rt; told, row.wanted, "{}", row.action);
}

/// Expects what a row says.
fn expect_row(rt: &impl Abort, run: &mut Run, row: Row<'_>) -> Result<(), Fail> {
    tell(run, row)?;
    expect(rt, &run.told, row);
    Ok(())
}

/// Expects what the rows of a table say, and returns how many there are.
fn expect_each(rt: &impl Abort, run: &mut Run, table: &str) -> Result<u16, Fail> {
    let mut rows = 0_u16;
    for line in table.split('\n') {
        if let Some(row) = Row::of(line) {
            expect_row(rt, run, row)?;
            rows = rows.saturating_add(1);
        }
    }
    Ok(rows)
}

/// Expects what the rows of a table say, which are as many.
pub fn expect_rows(rt: &impl Abort, alloc: Global, table: &str, count: u16) -> Result<(), Fail> {
    let mut run = Run::new(alloc)?;
    let rows = expect_each(rt, &mut run, table);
    drop(run);
    assert_eq!(rt; rows?, count);
    Ok(())
}
