//! The thread that draws, and what it shares with the work.

use crate::Line;
use std::io::Write;
use std::sync::atomic::{AtomicU64, Ordering};
use std::sync::{Condvar, Mutex, Wait};
use std::thread;
use std::thread::Threads;
use std::time::{Clock, Duration, Instant};

/// How many octets a run has read and written so far, how many cells it has done, and the line that shows it. No
/// contract says what several threads make of it; what each change does to the line is said at [`Line`].
#[derive(Drop)]
pub struct Progress<E> {
    read: AtomicU64,
    cells: AtomicU64,
    written: AtomicU64,
    line: Mutex<Line<E>>,
    ended: Condvar,
    /// When the work began, if no thread draws beside it.
    alone_since: Mutex<Option<Instant>>,
}

impl<E> Progress<E> {
    /// A run that has read, done and written nothing, with nothing on the screen.
    pub fn new(screen: E) -> Self {
        Progress {
            read: AtomicU64::new(0),
            cells: AtomicU64::new(0),
            written: AtomicU64::new(0),
            line: Mutex::new(Line::new(screen)),
            ended: Condvar::new(),
            alone_since: Mutex::new(None),
        }
    }

    /// Counts octets that were read.
    pub(crate) fn add_read(&self, octets: usize) {
        self.read.fetch_add(octets as u64, Ordering::SeqCst);
    }

    /// Counts octets that were written.
    pub(crate) fn add_written(&self, octets: usize) {
        self.written.fetch_add(octets as u64, Ordering::SeqCst);
    }

    /// The screen.
    pub fn into_screen(self) -> E {
        self.line.into_inner().into_screen()
    }
}

impl<E: Write> Progress<E> {
    /// Counts a cell that is done. Where no thread draws, the line is drawn here.
    pub fn add_cell<T: Wait + Clock>(&self, rt: &T) {
        self.cells.fetch_add(1, Ordering::SeqCst);
        let since = *self.alone_since.lock(rt);
        if let Some(start) = since
            && let Ok(elapsed) = start.elapsed(rt)
        {
            self.draw(rt, elapsed);
        }
    }

    /// Has the work draw the line, as no thread can.
    fn draw_alone<T: Wait + Clock>(&self, rt: &T) {
        if let Ok(start) = Instant::now(rt) {
            *self.alone_since.lock(rt) = Some(start);
        }
    }

    /// Draws the line for a run that has taken so long, and returns whether there is to be a next time: not once it
    /// has ended or the screen has failed.
    pub fn draw<T: Wait>(&self, rt: &T, elapsed: Duration) -> bool {
        let read = self.read.load(Ordering::SeqCst);
        let cells = self.cells.load(Ordering::SeqCst);
        let written = self.written.load(Ordering::SeqCst);
        let mut line = self.line.lock(rt);
        line.draw(read, cells, written, elapsed).is_ok() && !line.has_ended()
    }

    /// Wipes the line, and ends the drawing for good.
    pub fn end<T: Wait>(&self, rt: &T) {
        let _ = self.line.lock(rt).end();
        self.ended.notify_one();
    }

    /// Draws the line each second until the run has ended, or the screen or the clock fails.
    fn watch<T: Wait + Clock>(&self, rt: &T) {
        let Ok(start) = Instant::now(rt) else {
            return;
        };
        for _ in rt.forever() {
            self.pause(rt);
            let Ok(elapsed) = start.elapsed(rt) else {
                return;
            };
            if !self.draw(rt, elapsed) {
                return;
            }
        }
    }

    /// Waits for a second, or until the run has ended.
    fn pause<T: Wait + Clock>(&self, rt: &T) {
        let second = Duration::from_secs(1);
        self.ended
            .wait_timeout_while(rt, self.line.lock(rt), second, |line| !line.has_ended());
    }
}

/// Does the work and returns what it returns, while a thread of its own draws its progress each second. If no thread
/// can be made, the work draws it with each cell that is done.
pub fn watched<T: Threads + Wait + Clock + Sync, E: Write + Send, U, F: FnOnce() -> U>(
    rt: &T,
    progress: &Progress<E>,
    work: F,
) -> U
    requires { F.pre work }
    ensures { F.post work result }
{
    thread::scope(
        thread::scope_env(),
        rt,
        |scope| -> U
            requires { F.pre work }
            ensures { F.post work result }
        {
            if scope.spawn(|| progress.watch(rt)).is_err() {
                progress.draw_alone(rt);
            }
            let result = work();
            progress.end(rt);
            result
        },
    )
}
