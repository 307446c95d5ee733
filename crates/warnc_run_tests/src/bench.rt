//! A bench on which books are compiled between memory and memory.

use crate::gate::{Crossing, Manner, Shortage};
use alert_book::Origin;
use cbsp_wire::Cell;
use chart::{Language, View, Wording};
use device_ends::memory::{MemoryReader, MemoryWriter};
use device_ends::{Sink, Source, write_all};
use gsmtap::Start as LinkStart;
use report::{Columns, Layout};
use slot_times::Start;
use std::alloc::Global;
use std::io::Write;
use std::sync::Wait;
use std::test::Fail;
use std::thread::Threads;
use test_support::Words;
use warnc_run::{
    Books, Product, ProductFault, Run, RunFault, Sessions, Workers, compile_stream, live_stream,
    run_book, run_product,
};

/// A chart of all.
const WHOLE: View = View {
    cell: None,
    part: None,
    wording: Wording {
        language: Language::English,
        start: None,
    },
};

/// The plain report, the full one, and the full one of a run that begins at 2026-11-29T18:30:00Z.
const PLAIN: Layout = Layout {
    columns: Columns::Plain,
    start: None,
};

const FULL: Layout = Layout {
    columns: Columns::Full,
    start: None,
};

const TIMES: Layout = Layout {
    columns: Columns::Full,
    start: Some(Start {
        microseconds: 1_795_977_000_000_000,
    }),
};

/// The cell 1-1.
const CELL: Cell = Cell { lac: 1, ci: 1 };

/// The begin of 1970.
const BEGIN: LinkStart = LinkStart {
    second: 0,
    microsecond: 0,
};

/// What is called.
#[derive(Clone, Copy, PartialEq, Eq)]
enum Engine {
    /// `compile_stream`.
    Compile,
    /// `live_stream`.
    Live,
    /// `run_book`, which writes nothing.
    Records,
    /// `run_product`.
    Product(Books, Product),
}

impl Engine {
    /// The engine of a word.
    fn of(verb: &str) -> Engine {
        match verb {
            "compile" => Engine::Compile,
            "records" => Engine::Records,
            "tapes" => Engine::Product(Books::One(Origin::Book), Product::Tapes),
            "report" => Engine::Product(Books::One(Origin::Book), Product::Report(PLAIN)),
            "full" => Engine::Product(Books::One(Origin::Book), Product::Report(FULL)),
            "times" => Engine::Product(Books::One(Origin::Book), Product::Report(TIMES)),
            "chart" => Engine::Product(Books::One(Origin::Book), Product::Chart(WHOLE)),
            "orders" => Engine::Product(Books::One(Origin::Book), Product::Orders(CELL)),
            "link" => Engine::Product(Books::One(Origin::Book), Product::Link(BEGIN)),
            "loads" => Engine::Product(Books::One(Origin::Book), Product::Loads(None)),
            "tables" => Engine::Product(Books::One(Origin::Book), Product::Tables(WHOLE)),
            "network-loads" => Engine::Product(Books::EachGroup, Product::Loads(None)),
            "network-tables" => Engine::Product(Books::EachGroup, Product::Tables(WHOLE)),
            "network-orders" => Engine::Product(Books::EachGroup, Product::Orders(CELL)),
            "network-tapes" => Engine::Product(Books::EachGroup, Product::Tapes),
            "network-report" => Engine::Product(Books::EachGroup, Product::Report(PLAIN)),
            "network-full" => Engine::Product(Books::EachGroup, Product::Report(FULL)),
            "network-times" => Engine::Product(Books::EachGroup, Product::Report(TIMES)),
            "network-chart" => Engine::Product(Books::EachGroup, Product::Chart(WHOLE)),
            _ => Engine::Live,
        }
    }
}

/// Why a call writes nothing, or not all.
#[derive(Clone, Copy)]
enum Why {
    Run(RunFault),
    Product(ProductFault),
    /// The words of a row ask for other than 1 to 64 workers.
    Workers,
}

impl From<RunFault> for Why {
    fn from(fault: RunFault) -> Why {
        Why::Run(fault)
    }
}

impl From<ProductFault> for Why {
    fn from(fault: ProductFault) -> Why {
        Why::Product(fault)
    }
}

/// What is called, and with which numbers.
#[derive(Clone, Copy)]
pub struct Call {
    engine: Engine,
    manner: Manner,
    slots: u16,
    sessions: u16,
    workers: u64,
}

impl Call {
    /// The call of a word and its numbers: of an engine, or `meet` or `starve` with the numbers of `live`.
    pub fn of(verb: &str, words: &mut Words) -> Result<Call, Fail> {
        let engine = Engine::of(verb);
        let slots = words.number16()?;
        let sessions = if engine == Engine::Live {
            words.number16()?
        } else {
            1
        };
        let workers = words.number()?;
        if sessions == 0 || sessions > 64 {
            return Err(Fail::new("the number of sessions"));
        }
        let manner = match verb {
            "meet" => Manner::Meet,
            "starve" => Manner::Starve,
            _ => Manner::Pass,
        };
        Ok(Call {
            engine,
            manner,
            slots,
            sessions,
            workers,
        })
    }

    /// Makes the call.
    fn made<T: AllocGlobal + Threads + Wait + Sync, W: Write>(
        self,
        rt: &T,
        source: &mut Source<&mut MemoryReader>,
        sink: &mut Sink<&mut W>,
        gate: &Crossing,
    ) -> Result<(), Why> {
        let (slots, workers) = (self.slots, self.workers);
        match self.engine {
            Engine::Compile => compile_stream(rt, source, sink, slots, workers)?,
            Engine::Live => {
                let sessions = self.sessions.clamp(1, 64);
                live_stream(rt, source, sink, slots, sessions, workers, gate)?;
            }
            Engine::Records => {
                let workers = Workers::new(workers).ok_or(Why::Workers)?;
                drop(run_book(rt, source, Origin::Book, slots, workers)?);
            }
            Engine::Product(books, made) => {
                let run = Run {
                    books,
                    slots,
                    sessions: Sessions { number: 1 },
                    workers: Workers::new(workers).ok_or(Why::Workers)?,
                };
                run_product(rt, source, sink, &run, made, gate)?;
            }
        }
        Ok(())
    }
}

/// How many octets a device moves a call, and after how many calls it fails.
#[derive(Clone, Copy)]
pub struct Pace {
    pub octets: usize,
    pub calls: Option<usize>,
}

/// A device of many octets a call, which doesn't fail.
const STEADY: Pace = Pace {
    octets: 1000,
    calls: None,
};

/// What a call starts from, and what the last one did.
#[derive(Drop)]
pub struct Bench {
    pub book: Vec<u8>,
    /// Whether the next line of a book begins a new one.
    pub is_book_used: bool,
    pub reader: Pace,
    pub writer: Pace,
    /// Whether the writer fails once before the call.
    pub is_sink_failed: bool,
    pub worked: Vec<u8>,
    pub written: Vec<u8>,
    /// Whether no line said yet what was written.
    pub is_unseen: bool,
    /// What memory is left to the next call, if it is short of it.
    pub shortage: Option<Shortage>,
    pub gate: Crossing,
}

impl Bench {
    /// A bench without a book.
    pub fn new(alloc: Global) -> Result<Bench, Fail> {
        Ok(Bench {
            book: Vec::new(alloc),
            is_book_used: false,
            reader: STEADY,
            writer: STEADY,
            is_sink_failed: false,
            worked: Vec::new(alloc),
            written: Vec::new(alloc),
            is_unseen: false,
            shortage: None,
            gate: Crossing::new(alloc)?,
        })
    }

    /// Has steady devices again, and a new book if lines name one.
    fn renew(&mut self) {
        self.reader = STEADY;
        self.writer = STEADY;
        self.is_sink_failed = false;
        self.is_book_used = true;
        self.is_unseen = !self.written.is_empty();
    }
}

/// What a call said.
#[derive(Clone, Copy)]
struct Said {
    result: Result<(), Why>,
    is_source_failed: bool,
    is_sink_failed: bool,
}

/// Makes a call, which is short of memory if the bench says so.
fn said_by<T: AllocGlobal + Threads + Wait + Sync, W: Write>(
    rt: &T,
    bench: &Bench,
    call: Call,
    writer: &mut W,
) -> Said {
    let per_call = bench.reader.octets.max(1);
    let mut reader = MemoryReader::new(&bench.book, per_call, bench.reader.calls);
    let mut source = Source::new(&mut reader);
    let mut sink = Sink::new(writer);
    if bench.is_sink_failed {
        let _ = write_all(&mut sink, b"-");
    }
    bench.gate.begin_shortage(0);
    let result = call.made(rt, &mut source, &mut sink, &bench.gate);
    bench.gate.give_back();
    Said {
        result,
        is_source_failed: source.failed(),
        is_sink_failed: sink.failed(),
    }
}

/// Makes a call with all memory.
fn said_with_memory<T: AllocGlobal + Threads + Wait + Sync>(
    rt: &T,
    bench: &mut Bench,
    call: Call,
) -> Result<Said, Fail> {
    let mut writer = MemoryWriter::new(rt.alloc(), bench.writer.octets, bench.writer.calls);
    let said = said_by(rt, bench, call, &mut writer);
    bench.written.clear();
    bench.written.extend_from_slice(writer.contents())?;
    Ok(said)
}

/// How many octets a call that is short of memory can write: what it writes takes room that there was before.
const OUTPUT: usize = 7000;

/// Makes a call that is short of memory.
fn said_in_shortage<T: AllocGlobal + Threads + Wait + Sync>(
    rt: &T,
    bench: &mut Bench,
    call: Call,
) -> Result<Said, Fail> {
    let mut room = vec![in rt.alloc(); 0_u8; OUTPUT]?;
    let mut left = room.as_mut_slice();
    let said = said_by(rt, bench, call, &mut left);
    let written = OUTPUT.saturating_sub(left.len());
    room.truncate(written);
    bench.written = room;
    Ok(said)
}

/// What a call comes to: `done` or its fault, and which end has failed.
fn answer(alloc: Global, said: Said) -> Result<String, Fail> {
    let ends = match (said.is_source_failed, said.is_sink_failed) {
        (false, false) => "",
        (true, false) => ", source failed",
        (false, true) => ", sink failed",
        (true, true) => ", both ends failed",
    };
    Ok(match said.result {
        Ok(()) => format!(in alloc; "done{ends}")?,
        Err(Why::Run(fault)) => format!(in alloc; "{fault:?}{ends}")?,
        Err(Why::Product(fault)) => format!(in alloc; "{fault:?}{ends}")?,
        Err(Why::Workers) => format!(in alloc; "no such workers{ends}")?,
    })
}

/// Makes a call, and says what it comes to, and what happened at its gate.
pub fn make_call<T: AllocGlobal + Threads + Wait + Sync>(
    rt: &T,
    bench: &mut Bench,
    call: Call,
) -> Result<String, Fail> {
    bench.gate.renew(call.manner, bench.shortage);
    let said = match bench.shortage {
        Some(_) => said_in_shortage(rt, bench, call),
        None => said_with_memory(rt, bench, call),
    };
    bench.shortage = None;
    let mut text = answer(rt.alloc(), said?)?;
    bench.renew();
    text.push_str(bench.gate.told())?;
    Ok(text)
}
