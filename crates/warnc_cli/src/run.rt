//! One run of the program: words in, a status out.

ghost use Rattle.std.specs.Prelude.{◌≡◌, ◌≢◌, ◌≤◌, ◌⊎◌, IfSome, None, Some, codes, false, true, map, slice_get};
ghost use Rattle.std.specs.Io.KnownBytes.{Keeps};
ghost use Rattle.device_ends.specs.Sink.{sink_failed, writer_of};
ghost use Rattle.device_ends.specs.Source.{reader_of, source_failed};
ghost use Rattle.device_ends.specs.Stream.{Writes};
ghost use Rattle.warnc_cli.specs.Ends.{noted_reader};
ghost use Rattle.warnc_cli.specs.Run.{AnyHasFailed, ByInputs, IsOfOneFile, MayWrite, RefusesInput, WritesSome};
ghost use Rattle.warnc_cli.specs.Run.{WritesSomeUnlessTapes, WroteOfRefused, WroteWhatIsAsked, WroteWithoutMemory};
ghost use Rattle.warnc_cli.specs.RunSteps.{HasRun, IsDoneBy, IsRefusedBy, IsRunBetween, IsStatusOfSink};
ghost use Rattle.warnc_cli.specs.RunSteps.{IsVerifyRunBetween, WroteFaultsBy, WroteFrontBy, WroteRemarksBy};
ghost use Rattle.warnc_cli.specs.RunSteps.{WroteSomeBy};
ghost use Rattle.warnc_cli.specs.Tasks.{IsNotVerified, IsUnverified, WritesOutputOfBoth};
ghost use Rattle.warnc_verify.specs.Verified.{HasDifferences, IsVerified};

use crate::command::{Task, asks_for_text, is_given, task_of};
use crate::ends::{Noted, OpenLine};
use crate::mistaken::mistaken_for;
use crate::status::{
    DEVICE, DONE, MEMORY, REFUSED_INPUT, USAGE, failed, failed_with_book, failed_with_orders,
    failed_with_table,
};
use crate::unreadable::Unreadable;
use alert_book::{Extent, Origin};
use book_check::check_stream;
use book_remarks::remark_stream;
use book_texts::texts_stream;
use cbs_page::Serial;
use cbsp_wire::Cell;
use clap::Error;
use clap::error::ErrorKind;
use device_ends::{Sink, Source, write_all};
use gsmtap::{Settings, Wanted};
use link_orders::OrdersWanted;
use order_desk::Open;
use plan::plan_stream;
use short_pages::Pages;
use slot_times::Start;
use std::alloc::{AllocGlobal, Global};
use std::convert::AsStr;
use std::io::{Read, Write};
use std::sync::Wait;
use std::thread::Threads;
use verification::TableLayout;
use warnc_air::all::{AllWanted, all_tapes_stream};
use warnc_air::cells::cells_stream;
use warnc_air::orders::{PassedOver, orders_stream};
use warnc_air::pcap::pcap_stream;
use warnc_air::tape::tape_stream;
use warnc_inspect::page::{PageForm, page_stream};
use warnc_inspect::read::read_stream;
use warnc_inspect::slots::slots_stream;
use warnc_inspect::whole::whole_stream;
use warnc_run::{BookRun, Product, Run, Watch, Workers, groups_stream, run_product, run_strictly};
use warnc_verdict::{VerdictTerms, verify_orders_stream};
use warnc_verify::verify_stream;

/// Runs the command that the words ask for (the first is the program's name), from a reader to a writer, and returns
/// the status: 0 done, 1 refused input, 2 command line, 3 device, 4 memory. A fault is one line for `faults`, `warnc: `
/// and the text, or the text that clap has; what `faults` doesn't take changes no status. Help goes to the writer.
///
/// `verify` asks for a book or orders beside the reader, and ends with 3 here, as with a file that can't be read.
pub fn run<T: AllocGlobal + Threads + Wait + Sync, S: AsStr, R: Read, W: Write, F: Write>(
    rt: &T,
    words: &[S],
    reader: &mut R,
    writer: &mut W,
    faults: &mut F,
) -> u8
    ensures refused { result ≡ REFUSED_INPUT → RefusesInput (map S.text words.now) None (R.remaining reader.old) }
    ensures statuses { result ≤ 4 }
{
    run_with_book(rt, words, &mut Unreadable, reader, writer, faults)
}

/// The same with a book or orders for `verify`, or a table of cells for `tape`: the octets of the file that the words
/// name ([`book_file`](crate::book_file)). Other commands don't read it.
///
/// This wraps the three ends, and is `run_between` on them: whose contract says what is written. With status 1 the line
/// for `faults` ends with what looks like another kind of input, if the book or the input does
/// ([`mistaken_for`]).
pub fn run_with_book<
    T: AllocGlobal + Threads + Wait + Sync,
    S: AsStr,
    B: Read,
    R: Read,
    W: Write,
    F: Write,
>(rt: &T, words: &[S], book: &mut B, reader: &mut R, writer: &mut W, faults: &mut F) -> u8
    ensures refused { result ≡ REFUSED_INPUT
        → RefusesInput (map S.text words.now) (B.remaining book.old) (R.remaining reader.old) }
    ensures statuses { result ≤ 4 }
{
    run_watched(rt, words, book, reader, writer, faults, &Open)
}

/// The same with somebody who watches the run of a book, and is told of each cell that is done: by `compile`, `live`,
/// `report`, `chart`, `load`, `link` and `orders` of a book or a group.
pub fn run_watched<
    T: AllocGlobal + Threads + Wait + Sync,
    S: AsStr,
    B: Read,
    R: Read,
    W: Write,
    F: Write,
    G: Watch,
>(
    rt: &T,
    words: &[S],
    book: &mut B,
    reader: &mut R,
    writer: &mut W,
    faults: &mut F,
    watch: &G,
) -> u8
    ensures refused { result ≡ REFUSED_INPUT
        → RefusesInput (map S.text words.now) (B.remaining book.old) (R.remaining reader.old) }
    ensures statuses { result ≤ 4 }
{
    let mut book = Noted::new(book);
    let mut input = Noted::new(reader);
    let mut line = OpenLine::new(faults);
    let status = run_noted(rt, words, &mut book, &mut input, writer, &mut line, watch);
    line.end(if status == REFUSED_INPUT {
        mistaken_for(words, book.front(), input.front())
    } else {
        None
    });
    status
}

/// The same with readers whose first octets are kept.
fn run_noted<
    T: AllocGlobal + Threads + Wait + Sync,
    S: AsStr,
    B: Read,
    R: Read,
    W: Write,
    F: Write,
    G: Watch,
>(
    rt: &T,
    words: &[S],
    book: &mut Noted<B>,
    reader: &mut Noted<R>,
    writer: &mut W,
    faults: &mut F,
    watch: &G,
) -> u8
    ensures refused { result ≡ REFUSED_INPUT → RefusesInput (map S.text words.now)
        (B.remaining (noted_reader book.old)) (R.remaining (noted_reader reader.old)) }
    ensures statuses { result ≤ 4 }
{
    let mut book = Source::new(book);
    let mut source = Source::new(reader);
    let mut sink = Sink::new(writer);
    run_between(rt, words, &mut book, &mut source, &mut sink, faults, watch)
}

/// The same, between the ends. With status 0 what the words ask for is written. That is one octet at least, but for
/// `compile` and `live`, since a book without cells has no tapes, for `whole`, `plan` and `orders`, and for the report
/// of a group. With 2 and 4 nothing is written. With 1 `verify` has written the differences, or nothing where there is
/// no run, no orders or no tape to judge; `check` has written the faults or the remarks, or nothing of a book that is
/// too long or has no run; other commands have written nothing. Of a network whose run ends early the first groups are
/// written with 1 and with 4.
pub fn run_between<
    T: AllocGlobal + Threads + Wait + Sync,
    S: AsStr,
    B: Read,
    R: Read,
    W: Write,
    F: Write,
    G: Watch,
>(
    rt: &T,
    words: &[S],
    book: &mut Source<B>,
    source: &mut Source<R>,
    sink: &mut Sink<W>,
    faults: &mut F,
    watch: &G,
) -> u8
    ensures done { result ≡ DONE → ByInputs B.remaining R.remaining W.contents
        (WroteWhatIsAsked (map S.text words.now)) book.old source.old sink.old sink.new }
    ensures wrote { result ≡ DONE → Writes W.contents (WritesSomeUnlessTapes (map S.text words.now))
        sink.old sink.new }
    ensures nothing_written { (MayWrite (map S.text words.now) result → ⊥)
        → Keeps (W.contents (writer_of sink.old)) (W.contents (writer_of sink.new)) }
    ensures untouched { (MayWrite (map S.text words.now) result → ⊥) → sink.new ≡ sink.old }
    ensures differences { result ≡ REFUSED_INPUT → ByInputs B.remaining R.remaining W.contents
        (WroteOfRefused (map S.text words.now)) book.old source.old sink.old sink.new }
    ensures memory { result ≡ MEMORY → ByInputs B.remaining R.remaining W.contents
        (WroteWithoutMemory (map S.text words.now)) book.old source.old sink.old sink.new }
    ensures refused { result ≡ REFUSED_INPUT → RefusesInput (map S.text words.now)
        (B.remaining (reader_of book.old)) (R.remaining (reader_of source.old)) }
    ensures device { result ≡ DEVICE → AnyHasFailed book.new source.new sink.new }
    ensures not_read { result ≡ USAGE → source.new ≡ source.old }
    ensures no_book { result ≡ USAGE ⊎ IsOfOneFile (map S.text words.now) → book.new ≡ book.old }
    ensures failed { (source_failed book.old ≡ false) → (source_failed source.old ≡ false)
        → (sink_failed sink.old ≡ false) → AnyHasFailed book.new source.new sink.new → result ≡ DEVICE }
    ensures statuses { result ≤ 4 }
{
    let alloc = rt.alloc();
    match task_of(alloc, words) {
        Ok(Some(task)) => run_task(rt, &task, book, source, sink, faults, watch),
        Ok(None) => {
            let _ = writeln!(faults, "warnc: {}", wrong_value(words));
            USAGE
        }
        Err(error) => run_text(alloc, &error, asks_for_text(words), sink, faults),
    }
}

/// Whether the words ask for this command.
fn asks_for<S: AsStr>(words: &[S], command: &str) -> bool {
    words.get(1).map(|word| word.as_str()) == Some(command)
}

/// What is wrong with words that the parser takes and that are no task: the cell, the address, the part or the time.
fn wrong_value<S: AsStr>(words: &[S]) -> &'static str {
    if is_given(words, "--start") {
        "no such time: --start is as 2026-11-28T20:00:00Z, from 1970 to 2105"
    } else if asks_for(words, "chart") && (is_given(words, "--from") || is_given(words, "--to")) {
        "no such cell or part: --cell is as 1-2, --from is before --to, --to at most --slots"
    } else if asks_for(words, "orders") && (is_given(words, "--from") || is_given(words, "--bsc")) {
        "no such cell or address: --cell is as 1-2, --from and --bsc as 127.0.0.1"
    } else if is_given(words, "--from") {
        "no such cell or address: --cell is as 1-2, --from as 127.0.0.1"
    } else {
        "no such cell: --cell is as 1-2"
    }
}

/// Runs a task, and returns the status.
fn run_task<T: AllocGlobal + Threads + Wait + Sync, B: Read, R: Read, W: Write, F: Write, G: Watch>(
    rt: &T,
    task: &Task,
    book: &mut Source<B>,
    source: &mut Source<R>,
    sink: &mut Sink<W>,
    faults: &mut F,
    watch: &G,
) -> u8
    ensures { HasRun task.now result B.remaining R.remaining W.contents book.old book.new source.old source.new
        sink.old sink.new }
{
    let alloc = rt.alloc();
    match *task {
        Task::Page {
            language,
            id,
            serial,
            form,
        } => run_page(alloc, language, id, serial, form, source, sink, faults),
        Task::Read(wanted) => run_read(alloc, wanted, source, sink, faults),
        Task::ReadSlots(wanted) => run_read_slots(alloc, wanted, source, sink, faults),
        Task::Whole => run_whole(alloc, source, sink, faults),
        Task::Pcap(settings) => run_pcap(alloc, settings, source, sink, faults),
        Task::Cells => run_cells(alloc, source, sink, faults),
        Task::Tape(wanted) => run_tape(alloc, wanted, source, sink, faults),
        Task::Tapes { wanted, file } => {
            run_all_tapes(alloc, wanted, file, book, source, sink, faults)
        }
        Task::Orders { wanted, packets } => {
            run_orders(alloc, wanted, packets, source, sink, faults)
        }
        Task::Groups => run_groups(rt, source, sink, faults),
        Task::Check { what } => run_check(alloc, what, source, sink, faults),
        Task::Remark {
            what,
            slots,
            start,
            strict,
        } => run_remark(rt, what, slots, start, strict, source, sink, faults),
        Task::Plan => run_plan(alloc, source, sink, faults),
        Task::Texts { what, pages } => run_texts(alloc, what, pages, source, sink, faults),
        Task::Make { run, made } => run_books(rt, run, made, source, sink, faults, watch),
        Task::Strict { run, made } => run_strict(rt, run, made, source, sink, faults, watch),
        Task::Verify {
            origin,
            slots,
            pages,
            layout,
            file,
            workers,
        } => run_verify(
            rt, origin, slots, pages, layout, file, workers, book, source, sink, faults,
        ),
        Task::VerifyOrders { cell, terms, file } => {
            run_verify_orders(alloc, cell, terms, file, book, source, sink, faults)
        }
    }
}

/// Runs `page`, and returns the status.
fn run_page<R: Read, W: Write, F: Write>(
    alloc: Global,
    language: &str,
    id: u16,
    serial: Serial,
    form: PageForm,
    source: &mut Source<R>,
    sink: &mut Sink<W>,
    faults: &mut F,
) -> u8
    ensures done { IsDoneBy (Task.Page language.entry id serial form) result R.remaining W.contents source.old sink.old
        sink.new }
    ensures wrote { WroteSomeBy (Task.Page language.entry id serial form) result W.contents sink.old sink.new }
    ensures refused { IsRefusedBy (Task.Page language.entry id serial form) result R.remaining source.old }
    ensures front { WroteFrontBy (Task.Page language.entry id serial form) result R.remaining W.contents source.old
        sink.old sink.new }
    ensures ends { IsRunBetween (Task.Page language.entry id serial form) result W.contents source.new sink.old
        sink.new }
{
    match page_stream(alloc, source, sink, form, language, id, serial) {
        Ok(()) => DONE,
        Err(fault) => failed(&fault, faults),
    }
}

/// Runs `read`, and returns the status.
fn run_read<R: Read, W: Write, F: Write>(
    alloc: Global,
    wanted: Pages,
    source: &mut Source<R>,
    sink: &mut Sink<W>,
    faults: &mut F,
) -> u8
    ensures done { IsDoneBy (Task.Read wanted) result R.remaining W.contents source.old sink.old sink.new }
    ensures wrote { WroteSomeBy (Task.Read wanted) result W.contents sink.old sink.new }
    ensures refused { IsRefusedBy (Task.Read wanted) result R.remaining source.old }
    ensures front { WroteFrontBy (Task.Read wanted) result R.remaining W.contents source.old sink.old sink.new }
    ensures ends { IsRunBetween (Task.Read wanted) result W.contents source.new sink.old sink.new }
{
    match read_stream(alloc, source, sink, wanted) {
        Ok(()) => DONE,
        Err(fault) => failed(&fault, faults),
    }
}

/// Runs `read` of slots, and returns the status.
fn run_read_slots<R: Read, W: Write, F: Write>(
    alloc: Global,
    wanted: Pages,
    source: &mut Source<R>,
    sink: &mut Sink<W>,
    faults: &mut F,
) -> u8
    ensures done { IsDoneBy (Task.ReadSlots wanted) result R.remaining W.contents source.old sink.old sink.new }
    ensures wrote { WroteSomeBy (Task.ReadSlots wanted) result W.contents sink.old sink.new }
    ensures refused { IsRefusedBy (Task.ReadSlots wanted) result R.remaining source.old }
    ensures front { WroteFrontBy (Task.ReadSlots wanted) result R.remaining W.contents source.old sink.old sink.new }
    ensures ends { IsRunBetween (Task.ReadSlots wanted) result W.contents source.new sink.old sink.new }
{
    match slots_stream(alloc, source, sink, wanted) {
        Ok(()) => DONE,
        Err(fault) => failed(&fault, faults),
    }
}

/// Runs `whole`, and returns the status.
fn run_whole<R: Read, W: Write, F: Write>(
    alloc: Global,
    source: &mut Source<R>,
    sink: &mut Sink<W>,
    faults: &mut F,
) -> u8
    ensures done { IsDoneBy Task.Whole result R.remaining W.contents source.old sink.old sink.new }
    ensures wrote { WroteSomeBy Task.Whole result W.contents sink.old sink.new }
    ensures refused { IsRefusedBy Task.Whole result R.remaining source.old }
    ensures front { WroteFrontBy Task.Whole result R.remaining W.contents source.old sink.old sink.new }
    ensures ends { IsRunBetween Task.Whole result W.contents source.new sink.old sink.new }
{
    match whole_stream(alloc, source, sink) {
        Ok(()) => DONE,
        Err(fault) => failed(&fault, faults),
    }
}

/// Runs `pcap`, and returns the status.
fn run_pcap<R: Read, W: Write, F: Write>(
    alloc: Global,
    settings: Settings,
    source: &mut Source<R>,
    sink: &mut Sink<W>,
    faults: &mut F,
) -> u8
    ensures done { IsDoneBy (Task.Pcap settings) result R.remaining W.contents source.old sink.old sink.new }
    ensures wrote { WroteSomeBy (Task.Pcap settings) result W.contents sink.old sink.new }
    ensures refused { IsRefusedBy (Task.Pcap settings) result R.remaining source.old }
    ensures front { WroteFrontBy (Task.Pcap settings) result R.remaining W.contents source.old sink.old sink.new }
    ensures ends { IsRunBetween (Task.Pcap settings) result W.contents source.new sink.old sink.new }
{
    match pcap_stream(alloc, source, sink, settings) {
        Ok(()) => DONE,
        Err(fault) => failed(&fault, faults),
    }
}

/// Runs `cells`, and returns the status.
fn run_cells<R: Read, W: Write, F: Write>(
    alloc: Global,
    source: &mut Source<R>,
    sink: &mut Sink<W>,
    faults: &mut F,
) -> u8
    ensures done { IsDoneBy Task.Cells result R.remaining W.contents source.old sink.old sink.new }
    ensures wrote { WroteSomeBy Task.Cells result W.contents sink.old sink.new }
    ensures refused { IsRefusedBy Task.Cells result R.remaining source.old }
    ensures front { WroteFrontBy Task.Cells result R.remaining W.contents source.old sink.old sink.new }
    ensures ends { IsRunBetween Task.Cells result W.contents source.new sink.old sink.new }
{
    match cells_stream(alloc, source, sink) {
        Ok(()) => DONE,
        Err(fault) => failed(&fault, faults),
    }
}

/// Runs `tape`, and returns the status.
fn run_tape<R: Read, W: Write, F: Write>(
    alloc: Global,
    wanted: Wanted,
    source: &mut Source<R>,
    sink: &mut Sink<W>,
    faults: &mut F,
) -> u8
    ensures done { IsDoneBy (Task.Tape wanted) result R.remaining W.contents source.old sink.old sink.new }
    ensures wrote { WroteSomeBy (Task.Tape wanted) result W.contents sink.old sink.new }
    ensures refused { IsRefusedBy (Task.Tape wanted) result R.remaining source.old }
    ensures front { WroteFrontBy (Task.Tape wanted) result R.remaining W.contents source.old sink.old sink.new }
    ensures ends { IsRunBetween (Task.Tape wanted) result W.contents source.new sink.old sink.new }
{
    match tape_stream(alloc, source, sink, &wanted) {
        Ok(()) => DONE,
        Err(fault) => failed(&fault, faults),
    }
}

/// Runs `tape` of all cells of the table in this file, and returns the status.
fn run_all_tapes<B: Read, R: Read, W: Write, F: Write>(
    alloc: Global,
    wanted: AllWanted,
    file: &str,
    table: &mut Source<B>,
    source: &mut Source<R>,
    sink: &mut Sink<W>,
    faults: &mut F,
) -> u8
    ensures { HasRun (Task.Tapes wanted file.entry) result B.remaining R.remaining W.contents table.old table.new
        source.old source.new sink.old sink.new }
{
    match all_tapes_stream(alloc, table, source, sink, &wanted) {
        Ok(()) => DONE,
        Err(fault) => failed_with_table(&fault, file, faults),
    }
}

/// Runs `orders`, and returns the status.
fn run_orders<R: Read, W: Write, F: Write>(
    alloc: Global,
    wanted: OrdersWanted,
    packets: bool,
    source: &mut Source<R>,
    sink: &mut Sink<W>,
    faults: &mut F,
) -> u8
    ensures done { IsDoneBy (Task.Orders wanted packets) result R.remaining W.contents source.old sink.old sink.new }
    ensures wrote { WroteSomeBy (Task.Orders wanted packets) result W.contents sink.old sink.new }
    ensures refused { IsRefusedBy (Task.Orders wanted packets) result R.remaining source.old }
    ensures front { WroteFrontBy (Task.Orders wanted packets) result R.remaining W.contents source.old sink.old
        sink.new }
    ensures ends { IsRunBetween (Task.Orders wanted packets) result W.contents source.new sink.old sink.new }
{
    let mut passed = PassedOver {
        unread: 0,
        emergencies: 0,
    };
    match orders_stream(alloc, source, sink, &wanted, packets, &mut passed) {
        Ok(()) => {
            tell_passed(passed, faults);
            DONE
        }
        Err(fault) => failed(&fault, faults),
    }
}

/// Says how many messages aren't in the table, if there are any. What `faults` doesn't take changes nothing.
fn tell_passed<F: Write>(passed: PassedOver, faults: &mut F) {
    let PassedOver {
        unread,
        emergencies,
    } = passed;
    if unread == 0 && emergencies == 0 {
        return;
    }
    let _ = writeln!(
        faults,
        "warnc: not in the table: {unread} messages that can't be read, {emergencies} emergency messages"
    );
}

/// Runs `groups`, and returns the status.
fn run_groups<T: AllocGlobal + Threads + Sync, R: Read, W: Write, F: Write>(
    rt: &T,
    source: &mut Source<R>,
    sink: &mut Sink<W>,
    faults: &mut F,
) -> u8
    ensures done { IsDoneBy Task.Groups result R.remaining W.contents source.old sink.old sink.new }
    ensures wrote { WroteSomeBy Task.Groups result W.contents sink.old sink.new }
    ensures refused { IsRefusedBy Task.Groups result R.remaining source.old }
    ensures front { WroteFrontBy Task.Groups result R.remaining W.contents source.old sink.old sink.new }
    ensures ends { IsRunBetween Task.Groups result W.contents source.new sink.old sink.new }
{
    match groups_stream(rt, source, sink) {
        Ok(()) => DONE,
        Err(fault) => failed(&fault, faults),
    }
}

/// Runs `check`, and returns the status.
fn run_check<R: Read, W: Write, F: Write>(
    alloc: Global,
    what: Extent,
    source: &mut Source<R>,
    sink: &mut Sink<W>,
    faults: &mut F,
) -> u8
    ensures done { IsDoneBy (Task.Check what) result R.remaining W.contents source.old sink.old sink.new }
    ensures wrote { WroteSomeBy (Task.Check what) result W.contents sink.old sink.new }
    ensures refused { IsRefusedBy (Task.Check what) result R.remaining source.old }
    ensures told { WroteFaultsBy what result R.remaining W.contents source.old sink.old sink.new }
    ensures ends { IsRunBetween (Task.Check what) result W.contents source.new sink.old sink.new }
{
    match check_stream(alloc, what, source, sink) {
        Ok(()) => DONE,
        Err(fault) => failed(&fault, faults),
    }
}

/// Runs `check --slots`, and returns the status.
fn run_remark<T: AllocGlobal + Threads + Wait + Sync, R: Read, W: Write, F: Write>(
    rt: &T,
    what: Extent,
    slots: u16,
    start: Option<Start>,
    strict: bool,
    source: &mut Source<R>,
    sink: &mut Sink<W>,
    faults: &mut F,
) -> u8
    ensures done { IsDoneBy (Task.Remark what slots start strict) result R.remaining W.contents source.old sink.old
        sink.new }
    ensures wrote { WroteSomeBy (Task.Remark what slots start strict) result W.contents sink.old sink.new }
    ensures refused { IsRefusedBy (Task.Remark what slots start strict) result R.remaining source.old }
    ensures told { WroteRemarksBy what slots start strict result R.remaining W.contents source.old sink.old sink.new }
    ensures ends { IsRunBetween (Task.Remark what slots start strict) result W.contents source.new sink.old sink.new }
{
    match remark_stream(rt, source, sink, what, slots, start, strict) {
        Ok(()) => DONE,
        Err(fault) => failed(&fault, faults),
    }
}

/// Runs `plan`, and returns the status.
fn run_plan<R: Read, W: Write, F: Write>(
    alloc: Global,
    source: &mut Source<R>,
    sink: &mut Sink<W>,
    faults: &mut F,
) -> u8
    ensures done { IsDoneBy Task.Plan result R.remaining W.contents source.old sink.old sink.new }
    ensures wrote { WroteSomeBy Task.Plan result W.contents sink.old sink.new }
    ensures refused { IsRefusedBy Task.Plan result R.remaining source.old }
    ensures front { WroteFrontBy Task.Plan result R.remaining W.contents source.old sink.old sink.new }
    ensures ends { IsRunBetween Task.Plan result W.contents source.new sink.old sink.new }
{
    match plan_stream(alloc, source, sink) {
        Ok(()) => DONE,
        Err(fault) => failed(&fault, faults),
    }
}

/// Runs `texts`, and returns the status.
fn run_texts<R: Read, W: Write, F: Write>(
    alloc: Global,
    what: Extent,
    pages: Option<u16>,
    source: &mut Source<R>,
    sink: &mut Sink<W>,
    faults: &mut F,
) -> u8
    ensures done { IsDoneBy (Task.Texts what pages) result R.remaining W.contents source.old sink.old sink.new }
    ensures wrote { WroteSomeBy (Task.Texts what pages) result W.contents sink.old sink.new }
    ensures refused { IsRefusedBy (Task.Texts what pages) result R.remaining source.old }
    ensures front { WroteFrontBy (Task.Texts what pages) result R.remaining W.contents source.old sink.old sink.new }
    ensures ends { IsRunBetween (Task.Texts what pages) result W.contents source.new sink.old sink.new }
{
    match texts_stream(alloc, what, source, sink, pages) {
        Ok(()) => DONE,
        Err(fault) => failed(&fault, faults),
    }
}

/// Runs `compile`, `live`, `report` or `chart`, and returns the status.
fn run_books<T: AllocGlobal + Threads + Wait + Sync, R: Read, W: Write, F: Write, G: Watch>(
    rt: &T,
    run: Run,
    made: Product,
    source: &mut Source<R>,
    sink: &mut Sink<W>,
    faults: &mut F,
    watch: &G,
) -> u8
    ensures done { IsDoneBy (Task.Make run made) result R.remaining W.contents source.old sink.old sink.new }
    ensures wrote { WroteSomeBy (Task.Make run made) result W.contents sink.old sink.new }
    ensures refused { IsRefusedBy (Task.Make run made) result R.remaining source.old }
    ensures front { WroteFrontBy (Task.Make run made) result R.remaining W.contents source.old sink.old sink.new }
    ensures ends { IsRunBetween (Task.Make run made) result W.contents source.new sink.old sink.new }
{
    match run_product(rt, source, sink, &run, made, watch) {
        Ok(()) => DONE,
        Err(fault) => failed(&fault, faults),
    }
}

/// Makes of one book what is asked for if every order was done, and returns the status.
fn run_strict<T: AllocGlobal + Threads + Wait + Sync, R: Read, W: Write, F: Write, G: Watch>(
    rt: &T,
    run: BookRun,
    made: Product,
    source: &mut Source<R>,
    sink: &mut Sink<W>,
    faults: &mut F,
    watch: &G,
) -> u8
    ensures done { IsDoneBy (Task.Strict run made) result R.remaining W.contents source.old sink.old sink.new }
    ensures wrote { WroteSomeBy (Task.Strict run made) result W.contents sink.old sink.new }
    ensures refused { IsRefusedBy (Task.Strict run made) result R.remaining source.old }
    ensures front { WroteFrontBy (Task.Strict run made) result R.remaining W.contents source.old sink.old sink.new }
    ensures ends { IsRunBetween (Task.Strict run made) result W.contents source.new sink.old sink.new }
{
    match run_strictly(rt, source, sink, &run, made, watch) {
        Ok(()) => DONE,
        Err(fault) => failed(&fault, faults),
    }
}

/// Runs `verify` with the book of this file, and returns the status.
fn run_verify<T: AllocGlobal + Threads + Wait + Sync, B: Read, R: Read, W: Write, F: Write>(
    rt: &T,
    origin: Origin,
    slots: u16,
    pages: Pages,
    layout: TableLayout,
    file: &str,
    workers: Workers,
    book: &mut Source<B>,
    tapes: &mut Source<R>,
    sink: &mut Sink<W>,
    faults: &mut F,
) -> u8
    ensures done { result ≡ DONE → WritesOutputOfBoth (IsVerified origin slots pages layout)
        (B.remaining (reader_of book.old)) (R.remaining (reader_of tapes.old))
        (W.contents (writer_of sink.old)) (W.contents (writer_of sink.new)) }
    ensures ends { IsVerifyRunBetween result book.old book.new tapes.old tapes.new sink.old sink.new
        (W.contents (writer_of sink.old)) (W.contents (writer_of sink.new)) }
    ensures wrote { result ≡ DONE → WritesSome (W.contents (writer_of sink.old)) (W.contents (writer_of sink.new)) }
    ensures refused { result ≡ REFUSED_INPUT → IfSome (B.remaining (reader_of book.old)) (λ octets.
        IfSome (R.remaining (reader_of tapes.old)) (IsNotVerified origin slots pages octets)) }
    ensures differences { result ≡ REFUSED_INPUT → (IfSome (B.remaining (reader_of book.old)) (λ octets.
        IfSome (R.remaining (reader_of tapes.old)) (IsUnverified origin slots octets))
        × Keeps (W.contents (writer_of sink.old)) (W.contents (writer_of sink.new)))
        ⊎ WritesOutputOfBoth (HasDifferences origin slots pages layout)
        (B.remaining (reader_of book.old)) (R.remaining (reader_of tapes.old))
        (W.contents (writer_of sink.old)) (W.contents (writer_of sink.new)) }
{
    match verify_stream(rt, book, tapes, sink, origin, slots, pages, layout, workers) {
        Ok(()) => DONE,
        Err(fault) => failed_with_book(&fault, file, faults),
    }
}

/// Runs `verify` with the orders of this file, and returns the status.
fn run_verify_orders<B: Read, R: Read, W: Write, F: Write>(
    alloc: Global,
    cell: Cell,
    terms: VerdictTerms,
    file: &str,
    orders: &mut Source<B>,
    tapes: &mut Source<R>,
    sink: &mut Sink<W>,
    faults: &mut F,
) -> u8
    ensures { HasRun (Task.VerifyOrders cell terms file.entry) result B.remaining R.remaining W.contents orders.old
        orders.new tapes.old tapes.new sink.old sink.new }
{
    let mut notes = Sink::new(&mut *faults);
    match verify_orders_stream(alloc, orders, tapes, sink, &mut notes, cell, terms) {
        Ok(()) => DONE,
        Err(fault) => failed_with_orders(&fault, file, faults),
    }
}

/// Reports what clap has to say of the words: help and the version go to the sink if the words ask for them, a mistake
/// goes to `faults`.
fn run_text<W: Write, F: Write>(
    alloc: Global,
    error: &Error,
    is_asked: bool,
    sink: &mut Sink<W>,
    faults: &mut F,
) -> u8
    ensures sink { IsStatusOfSink result sink.old sink.new
        (W.contents (writer_of sink.old)) (W.contents (writer_of sink.new)) }
    ensures wrote { result ≡ DONE → WritesSome (W.contents (writer_of sink.old)) (W.contents (writer_of sink.new)) }
    ensures asked { result ≡ DONE → is_asked ≡ true }
    ensures not_refused { result ≢ REFUSED_INPUT }
    ensures device { result ≡ DEVICE → sink_failed sink.new ≡ true }
    ensures failed { (sink_failed sink.old ≡ false) → sink_failed sink.new ≡ true → result ≡ DEVICE }
{
    if error.kind() == ErrorKind::OutOfMemory {
        let _ = writeln!(faults, "warnc: out of memory");
        return MEMORY;
    }
    let Ok(text) = error.to_string(alloc) else {
        let _ = writeln!(faults, "warnc: out of memory");
        return MEMORY;
    };
    if error.use_stderr() || text.is_empty() || !is_asked {
        let _ = write!(faults, "{text}");
        return USAGE;
    }
    match write_all(sink, text.as_bytes()) {
        Ok(()) => DONE,
        Err(_) => {
            let _ = writeln!(faults, "warnc: write failed");
            DEVICE
        }
    }
}
