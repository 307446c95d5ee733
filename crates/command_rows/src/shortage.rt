//! A runtime on which memory ends at a step of a run. A run makes a step where it asks for the allocator, and where it
//! reads: so what was freed before is gone, too, and each stretch of a run can be short of memory by itself.

use device_ends::memory::MemoryReader;
use std::alloc::Global;
use std::io;
use std::io::Read;
use std::sync::atomic::{AtomicU64, Ordering};
use std::sync::{Mutex, Wait};
use std::test::Fail;
use std::thread::Threads;
use test_support::Room;

/// A runtime that counts the steps of a run, and takes all memory but a room at one of them.
#[derive(Drop)]
pub(crate) struct Shortage<'a, T> {
    rt: &'a T,
    steps: AtomicU64,
    /// The step at which memory ends, from 1; 0 if it doesn't.
    end: u64,
    /// How many least blocks the room has.
    blocks: u16,
    room: Mutex<Room>,
}

impl<'a, T: AllocGlobal> Shortage<'a, T> {
    /// A runtime with all memory.
    pub(crate) fn new(rt: &'a T) -> Result<Shortage<'a, T>, Fail> {
        let room = Room::new(rt.alloc())?;
        Ok(Shortage {
            rt,
            steps: AtomicU64::new(0),
            end: 0,
            blocks: 0,
            room: Mutex::new(room),
        })
    }

    /// Is for a run that has made no step: at the step `end` memory ends, but for so many blocks. It doesn't at 0.
    pub(crate) fn renew(&mut self, end: u64, blocks: u16) {
        self.steps = AtomicU64::new(0);
        self.end = end;
        self.blocks = blocks;
    }

    /// Gives all memory back, and returns how many steps the run has made.
    pub(crate) fn give_back(&self) -> u64 {
        if let Some(mut room) = self.room.try_lock() {
            room.end();
        }
        self.steps.load(Ordering::SeqCst)
    }
}

impl<T: AllocGlobal> Alloc for Shortage<'_, T> {
    type A = Global;

    fn alloc(&self) -> Global {
        let before = self.steps.fetch_add(1, Ordering::SeqCst);
        if before.saturating_add(1) == self.end {
            if let Some(mut room) = self.room.try_lock() {
                room.leave(self.rt.alloc(), self.blocks);
            }
        }
        self.rt.alloc()
    }
}

impl<T: Threads> Threads for Shortage<'_, T> {}

impl<T: Wait> Wait for Shortage<'_, T> {}

/// A reader of octets in memory, whose reads are steps of a run.
#[derive(Drop)]
pub(crate) struct SteppingReader<'a, T> {
    rt: &'a T,
    reader: MemoryReader<'a>,
}

impl<'a, T> SteppingReader<'a, T> {
    /// A reader of these octets, for a run on this runtime.
    pub(crate) fn new(rt: &'a T, octets: &'a [u8]) -> SteppingReader<'a, T> {
        SteppingReader {
            rt,
            reader: MemoryReader::new(octets, 1000, None),
        }
    }

    /// The octets that are left.
    pub(crate) fn rest(&self) -> &'a [u8] {
        self.reader.rest()
    }
}

impl<T: AllocGlobal> Read for SteppingReader<'_, T> {
    fn read(&mut self, buffer: &mut [u8]) -> io::Result<usize> {
        let _ = self.rt.alloc();
        self.reader.read(buffer)
    }
}
