//! `warnc`: cell broadcast warnings to the blocks that cells send, and back.
#![tactic(auto)]

ghost use Rattle.std.specs.Prelude.{◌≡◌, ◌≤◌, ◌⊎◌, IfErr};

use order_desk::{Gate, Open};
use progress::{CountedReader, CountedWriter, EndingWriter, Progress, watched};
use std::alloc::AllocGlobal;
use std::convert::AsStr;
use std::fs::File;
use std::io::{IsTerminal, Read, Write};
use std::process::ExitCode;
use std::rt::Files;
use std::sync::Wait;
use std::thread::Threads;
use std::time::Clock;
use std::{env, io};
use warnc_cli::run::run_watched;
use warnc_cli::status::{MEMORY, USAGE};
use warnc_cli::{Unreadable, book_file};
use warnc_run::Watch;

fn main(rt: HostRuntime) -> ExitCode {
    let status = match words_of(&rt) {
        Ok(words) if shows_progress(&rt) => {
            let words = words.as_slice();
            let progress = Progress::new(rt.stderr());
            let watch = CellCount {
                rt: &rt,
                progress: &progress,
            };
            let mut faults = EndingWriter::new(&rt, &progress, rt.stderr());
            if rt.stdout().is_terminal() {
                let mut writer = EndingWriter::new(&rt, &progress, rt.stdout());
                run_shown(
                    &rt,
                    words,
                    &progress,
                    rt.stdin(),
                    &mut writer,
                    &mut faults,
                    &watch,
                )
            } else {
                let mut writer = CountedWriter::new(&progress, rt.stdout());
                run_shown(
                    &rt,
                    words,
                    &progress,
                    rt.stdin(),
                    &mut writer,
                    &mut faults,
                    &watch,
                )
            }
        }
        Ok(words) => run_opened(
            &rt,
            words.as_slice(),
            &mut rt.stdin(),
            &mut rt.stdout(),
            &mut rt.stderr(),
            &Open,
        ),
        Err(status) => status,
    };
    ExitCode::from(status)
}

/// Whether progress is drawn: standard error is a terminal, and standard input isn't one, where somebody types.
fn shows_progress(rt: &HostRuntime) -> bool {
    rt.stderr().is_terminal() && !rt.stdin().is_terminal()
}

/// Counts the cells that a run has done in its progress.
#[derive(Drop)]
struct CellCount<'a, T, E> {
    rt: &'a T,
    progress: &'a Progress<E>,
}

impl<T: Wait + Sync, E: Write + Send> Gate for CellCount<'_, T, E> {
    fn inside(&self, _place: u16) {}
}

impl<T: Wait + Clock + Sync, E: Write + Send> Watch for CellCount<'_, T, E> {
    fn done(&self) {
        self.progress.add_cell(self.rt);
    }
}

/// Opens the file of the book that the words name, if they name one, and does what [`run_watched`] of warnc_cli does.
/// Without a file, or if it can't be opened, its book can't be read.
fn run_opened<
    S: AsStr,
    T: AllocGlobal + Threads + Wait + Files + Sync,
    R: Read,
    W: Write,
    F: Write,
    G: Watch,
>(rt: &T, words: &[S], reader: &mut R, writer: &mut W, faults: &mut F, watch: &G) -> u8
    ensures { result ≤ 4 }
{
    let Some(file) = book_file(words) else {
        return run_watched(rt, words, &mut Unreadable, reader, writer, faults, watch);
    };
    // If standard input is closed, the next file that is opened takes its number. So a folder is, of which each read
    // fails, and the tapes aren't read from the book.
    let _place = File::open(rt, "/");
    match File::open(rt, file) {
        Ok(mut book) => run_watched(rt, words, &mut book, reader, writer, faults, watch),
        Err(_) => run_watched(rt, words, &mut Unreadable, reader, writer, faults, watch),
    }
}

/// Does what [`run_opened`] does, while a thread of its own draws the progress.
fn run_shown<
    S: AsStr,
    T: AllocGlobal + Threads + Wait + Files + Clock + Sync,
    E: Write + Send,
    R: Read + Drop,
    W: Write,
    F: Write,
    G: Watch,
>(
    rt: &T,
    words: &[S],
    progress: &Progress<E>,
    reader: R,
    writer: &mut W,
    faults: &mut F,
    watch: &G,
) -> u8
    ensures { result ≤ 4 }
{
    let mut reader = CountedReader::new(progress, reader);
    watched(rt, progress, || {
        run_opened(rt, words, &mut reader, writer, faults, watch)
    })
}

/// The words of the process, or the status if they can't be had.
fn words_of(rt: &HostRuntime) -> Result<Vec<String>, u8>
    ensures { IfErr result (λ status. (status ≡ MEMORY) ⊎ (status ≡ USAGE)) }
{
    match env::args(rt) {
        Ok(words) => match words.collect(rt.alloc()) {
            Ok(words) => Ok(words),
            Err(_) => Err(report(rt, "out of memory", MEMORY)),
        },
        Err(error) if error.kind() == io::ErrorKind::OutOfMemory => {
            Err(report(rt, "out of memory", MEMORY))
        }
        Err(_) => Err(report(rt, "words are not UTF-8", USAGE)),
    }
}

/// Reports what is wrong with the words, and returns the status.
fn report(rt: &HostRuntime, fault: &str, status: u8) -> u8
    ensures { result ≡ status }
{
    let _ = writeln!(rt.stderr(), "warnc: {fault}");
    status
}
