//! Runs that are short of memory, again and again: what each did, and how often they were refused.

use crate::bench::Bench;
use crate::octets::part_of;
use crate::shortage::{Shortage, SteppingReader};
use cbs_page::Serial;
use device_ends::{Sink, Source};
use std::alloc::Global;
use std::io::{Read, Write};
use std::sync::Wait;
use std::test::Fail;
use std::thread::Threads;
use test_support::{Room, Words};
use warnc_cli::run::run_with_book;
use warnc_inspect::page::{PageFault, PageForm, page_stream};

/// How many octets the stack grows before the first attempt. A run needs some 150,000.
const STACK: usize = 262_144;

/// How many octets an attempt can write: what it writes takes no memory.
const OUTPUT: usize = 7000;

/// How many octets it can say of faults.
const FAULTS: usize = 100;

/// How many least blocks the largest room has that comes before threads: for the rest of a run that is plenty.
const MOST_BEFORE_THREADS: u16 = 3000;

/// A book for a command that asks for none.
const OTHER_BOOK: &[u8] = b"cell,1,1\n";

/// How the run of a row is short of memory.
#[derive(Clone, Copy)]
struct Plan {
    /// The first step at which memory ends.
    first: u64,
    /// The last one: of the whole run, or before it starts threads.
    steps: u64,
    /// How often the run is refused at least.
    least: u64,
    /// How many octets it has written by then.
    front: usize,
    /// Whether it is run with all memory after each refusal.
    is_repeated: bool,
}

impl Plan {
    /// The plan of a row: `scarce STEPS LEAST`, `scarce-later FIRST FRONT STEPS LEAST` or `scarce-threads STEPS LEAST`.
    fn of(verb: &str, numbers: &str) -> Result<Plan, Fail> {
        let mut words = Words::of(numbers);
        let (first, front) = match verb {
            "scarce-later" => (words.number()?, words.number16()?),
            _ => (1, 0),
        };
        let plan = Plan {
            first,
            steps: words.number()?,
            least: words.number()?,
            front: usize::from(front),
            is_repeated: verb != "scarce-threads",
        };
        if words.word().is_empty() {
            return Ok(plan);
        }
        Err(Fail::new("words are left over"))
    }
}

/// How many octets a reader had, and how many it has left.
#[derive(Clone, Copy)]
struct Extent {
    all: usize,
    left: usize,
}

/// The last attempt of a row, and how often its attempts were refused.
#[derive(Drop)]
struct Slate {
    status: u8,
    output: [u8; OUTPUT],
    output_left: usize,
    faults: [u8; FAULTS],
    faults_left: usize,
    book: Extent,
    input: Extent,
    steps: u64,
    refused: u64,
}

impl Slate {
    /// No attempt yet.
    fn new() -> Slate {
        let unread = Extent { all: 0, left: 0 };
        Slate {
            status: 0,
            output: [0; OUTPUT],
            output_left: OUTPUT,
            faults: [0; FAULTS],
            faults_left: FAULTS,
            book: unread,
            input: unread,
            steps: 0,
            refused: 0,
        }
    }

    /// What went to the output.
    fn output(&self) -> &[u8] {
        &self.output[..OUTPUT.saturating_sub(self.output_left)]
    }

    /// What was said of faults.
    fn faults(&self) -> &[u8] {
        &self.faults[..FAULTS.saturating_sub(self.faults_left)]
    }

    /// Whether `verify` has read its book to the end, or nothing of the tapes, and another command nothing of a book.
    fn is_read_in_order(&self, bench: &Bench) -> bool {
        if asks_for_book(bench) {
            self.book.left == 0 || self.input.left == self.input.all
        } else {
            self.book.left == self.book.all
        }
    }

    /// Whether the attempt was refused memory, and said so, and wrote nothing but the first group, if the row says how
    /// many octets that has. The run of a network names the group that was refused.
    fn is_refused(&self, bench: &Bench, plan: Plan) -> bool {
        let faults = self.faults();
        let is_told = if plan.front > 0 {
            faults == b"warnc: group 1: out of memory\n".as_slice()
        } else {
            let is_network = bench.args.contains("--network");
            faults == b"warnc: out of memory\n".as_slice()
                || is_network && faults == b"warnc: group 0: out of memory\n".as_slice()
        };
        self.status == 4
            && is_told
            && self.output().len() == plan.front
            && bench.worked.octets.starts_with(self.output())
            && self.is_read_in_order(bench)
    }

    /// Whether the attempt read all, and wrote the worked octets and nothing else.
    fn is_done(&self, bench: &Bench) -> bool {
        self.status == 0
            && self.output() == bench.worked.octets.as_slice()
            && self.faults().is_empty()
            && self.is_read_in_order(bench)
            && self.input.left == 0
    }
}

/// Whether the command of a bench reads a book beside its input, or a table of cells.
pub(crate) fn asks_for_book(bench: &Bench) -> bool {
    bench.args.starts_with("verify") || bench.args.contains("--cells")
}

/// Calls the engine of `page` alone, as the command line of the worked page does, and returns the status of its fault.
fn page_alone<T: AllocGlobal, R: Read, W: Write, F: Write>(
    rt: &T,
    reader: &mut R,
    output: &mut W,
    faults: &mut F,
) -> u8 {
    let mut source = Source::new(reader);
    let mut sink = Sink::new(output);
    let serial = Serial::of(0x0010);
    let form = PageForm::Lines;
    match page_stream(rt.alloc(), &mut source, &mut sink, form, "en", 4370, serial) {
        Ok(()) => 0,
        Err(PageFault::Refused) if !source.failed() && !sink.failed() => {
            let _ = writeln!(faults, "warnc: out of memory");
            4
        }
        Err(_) => 3,
    }
}

/// Runs the program as a bench says, on a runtime that may be short of memory.
fn attempt<T: AllocGlobal + Threads + Wait + Sync>(
    rt: &Shortage<T>,
    words: &[&str],
    bench: &Bench,
    slate: &mut Slate,
) {
    let octets = if asks_for_book(bench) {
        bench.book.octets.as_slice()
    } else {
        OTHER_BOOK
    };
    let mut book = SteppingReader::new(rt, octets);
    let mut reader = SteppingReader::new(rt, &bench.input.octets);
    let mut output = slate.output.as_mut_slice();
    let mut faults = slate.faults.as_mut_slice();
    let status = if bench.args == "page-stream" {
        page_alone(rt, &mut reader, &mut output, &mut faults)
    } else {
        run_with_book(rt, words, &mut book, &mut reader, &mut output, &mut faults)
    };
    slate.steps = rt.give_back();
    slate.output_left = output.len();
    slate.faults_left = faults.len();
    slate.status = status;
    slate.book = Extent {
        all: octets.len(),
        left: book.rest().len(),
    };
    slate.input = Extent {
        all: bench.input.octets.len(),
        left: reader.rest().len(),
    };
}

/// How the attempts of a row, or those of a step, end.
#[derive(Clone, Copy, PartialEq, Eq)]
enum End {
    /// There was memory enough, and the last one was as it should be.
    Enough,
    /// The largest room wasn't enough.
    Refused,
    /// The last one was neither refused nor done.
    Wrong,
}

/// Whether the run is done with all memory.
fn is_done_again<T: AllocGlobal + Threads + Wait + Sync>(
    rt: &mut Shortage<T>,
    words: &[&str],
    bench: &Bench,
    slate: &mut Slate,
) -> bool {
    rt.renew(0, 0);
    attempt(rt, words, bench, slate);
    slate.is_done(bench)
}

/// Has memory end at a step, in rooms that grow by a least block, until the run comes to its next step, or at the last
/// step of the plan until the run isn't refused.
fn attempts_at<T: AllocGlobal + Threads + Wait + Sync>(
    rt: &mut Shortage<T>,
    words: &[&str],
    bench: &Bench,
    slate: &mut Slate,
    plan: Plan,
    step: u64,
) -> End {
    let most = if plan.is_repeated || step < plan.steps {
        Room::MOST
    } else {
        MOST_BEFORE_THREADS
    };
    for blocks in 0..most {
        rt.renew(step, blocks);
        attempt(rt, words, bench, slate);
        if slate.is_done(bench) {
            return End::Enough;
        }
        if !slate.is_refused(bench, plan) {
            return End::Wrong;
        }
        slate.refused = slate.refused.saturating_add(1);
        let is_past = step < slate.steps && step < plan.steps;
        if plan.is_repeated && !is_done_again(rt, words, bench, slate) {
            return End::Wrong;
        }
        if is_past {
            return End::Enough;
        }
    }
    End::Refused
}

/// Has memory end at each step of a plan, one after the other. Before that the run is done with all memory.
fn attempts_at_each<T: AllocGlobal + Threads + Wait + Sync>(
    rt: &mut Shortage<T>,
    words: &[&str],
    bench: &Bench,
    slate: &mut Slate,
    plan: Plan,
) -> End {
    if plan.is_repeated && attempts_at(rt, words, bench, slate, plan, 0) != End::Enough {
        return End::Wrong;
    }
    for step in plan.first..=plan.steps {
        let end = attempts_at(rt, words, bench, slate, plan, step);
        if end != End::Enough {
            return end;
        }
    }
    End::Enough
}

/// What came of a row's attempts: `worked` if they are as they should be.
fn told(alloc: Global, bench: &Bench, slate: &Slate, plan: Plan, end: End) -> Result<String, Fail> {
    if end == End::Wrong {
        let output = part_of(alloc, slate.output(), &bench.worked.octets)?;
        let faults = String::from_utf8_lossy(alloc, slate.faults())?;
        let (status, book, input) = (slate.status, slate.book.left, slate.input.left);
        return Ok(format!(in alloc; "{status} {output} {faults}, {book} and {input} left")?);
    }
    let Slate { steps, refused, .. } = *slate;
    if refused < plan.least || plan.is_repeated && steps != plan.steps {
        return Ok(format!(in alloc; "{refused} refusals, {steps} steps")?);
    }
    let text = if end == End::Refused {
        "refused to the end"
    } else {
        "worked"
    };
    Ok(String::from_str(alloc, text)?)
}

/// Has the stack grow farther than a run needs it: without memory it can't, and a run that is refused may need more.
/// The octet that is returned is 0 or 1, and depends on what stands there.
#[inline(never)]
fn grow_stack(seed: u16) -> u8 {
    let mut octets = [0; STACK];
    octets[usize::from(seed)] = 1;
    octets[usize::from(seed.wrapping_mul(3))]
}

/// Runs the program again and again, short of memory as a row says.
pub(crate) fn attempts<T: AllocGlobal + Threads + Wait + Sync>(
    rt: &T,
    bench: &mut Bench,
    verb: &str,
    numbers: &str,
) -> Result<String, Fail> {
    let plan = Plan::of(verb, numbers)?;
    let words = bench.words(rt.alloc())?;
    if grow_stack((words.len() % 256) as u16) > 1 {
        return Err(Fail::new("the stack has other octets"));
    }
    let mut short = Shortage::new(rt)?;
    let mut slate = Slate::new();
    let end = attempts_at_each(&mut short, &words, bench, &mut slate, plan);
    drop(short);
    let found = told(rt.alloc(), bench, &slate, plan, end);
    bench.renew();
    found
}
