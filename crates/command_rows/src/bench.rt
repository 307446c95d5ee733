//! A bench on which the program runs between memory and memory.

ghost use Rattle.std.specs.Prelude.{◌≡◌, []};

use crate::attempts::asks_for_book;
use crate::octets::{Sheet, Written};
use device_ends::memory::MemoryReader;
use std::alloc::Global;
use std::sync::Wait;
use std::test::Fail;
use std::thread::Threads;
use test_support::Words;
use warnc_cli::run::{run, run_with_book};

/// How many octets a device moves a call, and after how many calls it fails.
#[derive(Clone, Copy)]
pub(crate) struct Pace {
    pub(crate) octets: usize,
    pub(crate) calls: Option<usize>,
}

/// A device that gives or takes so many octets a call, and doesn't fail.
pub(crate) fn steady(octets: usize) -> Pace {
    Pace {
        octets,
        calls: None,
    }
}

/// What a run starts from, and what the last one wrote.
#[derive(Drop)]
pub struct Bench<'a> {
    pub args: &'a str,
    pub input: Sheet,
    /// How many octets of the input the next run gets at most.
    pub(crate) front: usize,
    pub(crate) book: Sheet,
    /// Whether the next run of `verify` gets no book.
    pub(crate) is_bookless: bool,
    pub(crate) worked: Sheet,
    pub(crate) book_reader: Pace,
    pub(crate) reader: Pace,
    pub(crate) writer: Pace,
    pub(crate) faults_writer: Pace,
    pub output: Written,
    pub faults: Written,
}

impl<'a> Bench<'a> {
    /// A bench with no words and no input.
    pub fn new(alloc: Global) -> Bench<'a>
        ensures words { result.args.now ≡ [] }
        ensures input { result.input.octets.items ≡ [] }
        ensures book { result.book.octets.items ≡ [] }
        ensures worked { result.worked.octets.items ≡ [] }
    {
        Bench {
            args: "",
            input: Sheet::new(alloc),
            front: usize::MAX,
            book: Sheet::new(alloc),
            is_bookless: false,
            worked: Sheet::new(alloc),
            book_reader: steady(7),
            reader: steady(7),
            writer: steady(11),
            faults_writer: steady(64),
            output: Written::new(alloc, steady(0)),
            faults: Written::new(alloc, steady(0)),
        }
    }

    /// How many octets of the last run weren't looked at.
    pub(crate) fn unseen(&self) -> usize {
        let output = self.output.left().len();
        output.saturating_add(self.faults.left().len())
    }

    /// The command line.
    pub(crate) fn words(&self, alloc: Global) -> Result<Vec<&'a str>, Fail> {
        let mut words = Vec::new(alloc);
        words.push("warnc")?;
        for word in self.args.split_whitespace() {
            words.push(word)?;
        }
        Ok(words)
    }

    /// Has steady devices again, and a new book, input and worked octets if lines name some.
    pub(crate) fn renew(&mut self) {
        self.front = usize::MAX;
        self.is_bookless = false;
        self.book_reader = steady(7);
        self.reader = steady(7);
        self.writer = steady(11);
        self.faults_writer = steady(64);
        self.book.is_used = true;
        self.input.is_used = true;
        self.worked.is_used = true;
    }
}

/// A reader of this pace.
fn reader_of<'a>(octets: &'a [u8], pace: Pace) -> MemoryReader<'a> {
    MemoryReader::new(octets, pace.octets.max(1), pace.calls)
}

/// Runs the program, and returns the status. `verify` gets a book, and `tape` a table of cells if it asks for one.
fn run_on<T: AllocGlobal + Threads + Wait + Sync>(rt: &T, words: &[&str], bench: &mut Bench) -> u8 {
    let is_with_book = !bench.is_bookless && asks_for_book(bench);
    let length = bench.front.min(bench.input.octets.len());
    let mut reader = reader_of(&bench.input.octets[..length], bench.reader);
    bench.output = Written::new(rt.alloc(), bench.writer);
    bench.faults = Written::new(rt.alloc(), bench.faults_writer);
    let writer = &mut bench.output.writer;
    let faults = &mut bench.faults.writer;
    if !is_with_book {
        return run(rt, words, &mut reader, writer, faults);
    }
    let mut book = reader_of(&bench.book.octets, bench.book_reader);
    run_with_book(rt, words, &mut book, &mut reader, writer, faults)
}

/// What a run comes to: its status; after `fails` also the line of faults, which is all that it wrote; after `usage`
/// the word with which the faults begin, which are all that it wrote.
fn told(alloc: Global, bench: &mut Bench, verb: &str, status: u8) -> Result<String, Fail> {
    let faults = match verb {
        "run" => return Ok(status.to_string(alloc)?),
        "usage" => bench.faults.rest(alloc)?,
        _ => bench.faults.line(alloc)?,
    };
    let unseen = bench.unseen();
    if unseen > 0 {
        return Ok(format!(in alloc; "{status} {faults}, and {unseen} octets")?);
    }
    if verb == "usage" {
        return Ok(format!(in alloc; "{status} {}", Words::of(&faults).word())?);
    }
    Ok(format!(in alloc; "{status} {faults}")?)
}

/// The pace of a reader of an octet a call that fails after so many calls.
fn failing(calls: u16) -> Pace {
    Pace {
        octets: 1,
        calls: Some(usize::from(calls)),
    }
}

/// Runs the program as a line says: `fronts`, `reads` and `book-reads` for each of two numbers and those between, other
/// verbs once. Returns what the runs come to, if that is the same for each.
pub fn runs<T: AllocGlobal + Threads + Wait + Sync>(
    rt: &T,
    bench: &mut Bench,
    verb: &str,
    numbers: (u16, u16),
) -> Result<String, Fail> {
    let words = bench.words(rt.alloc())?;
    let mut all = String::new(rt.alloc());
    for number in numbers.0..=numbers.1 {
        match verb {
            "fronts" => bench.front = usize::from(number),
            "reads" => bench.reader = failing(number),
            "book-reads" => bench.book_reader = failing(number),
            _ => {}
        }
        let status = run_on(rt, &words, bench);
        let one = told(rt.alloc(), bench, verb, status)?;
        if number > numbers.0 && one != all {
            return Ok(one);
        }
        all = one;
    }
    bench.renew();
    Ok(all)
}
