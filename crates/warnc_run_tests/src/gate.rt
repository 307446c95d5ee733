//! A gate at which two threads can meet, each in a cell of its own, and at which memory can end.

use order_desk::Gate;
use std::alloc::Global;
use std::sync::Mutex;
use std::sync::atomic::{AtomicU64, Ordering};
use std::test::Fail;
use std::thread;
use test_support::{Room, take_all};
use warnc_run::Watch;

/// What a gate does with whoever enters.
#[derive(Clone, Copy, PartialEq, Eq)]
pub enum Manner {
    /// Lets them pass.
    Pass,
    /// Whoever is first in one of two cells stays there until the other is entered.
    Meet,
    /// So too; then one of both takes all memory, and the other leaves some turns later.
    Starve,
}

/// What is left of memory to a call.
#[derive(Clone, Copy)]
pub struct Shortage {
    /// How many least blocks its room has.
    pub blocks: u16,
    /// At which of those who enter the gate the shortage begins, from 1; 0 if it begins with the call.
    pub entry: u64,
}

/// How many blocks of memory a gate can hold.
const BLOCKS: usize = 100_000;

/// A gate, and what happened at it.
#[derive(Drop)]
pub struct Crossing {
    manner: Manner,
    alloc: Global,
    entered: [AtomicU64; 2],
    left: AtomicU64,
    gave_up: AtomicU64,
    taken: Mutex<Vec<Vec<u8>>>,
    blocks: AtomicU64,
    shortage: Option<Shortage>,
    /// How many have entered, in whichever cell.
    entries: AtomicU64,
    /// Of how many cells it was told that they are done.
    done: AtomicU64,
    room: Mutex<Room>,
}

impl Crossing {
    /// A gate at which nobody has been.
    pub fn new(alloc: Global) -> Result<Crossing, Fail> {
        Ok(Crossing {
            manner: Manner::Pass,
            alloc,
            entered: [AtomicU64::new(0), AtomicU64::new(0)],
            left: AtomicU64::new(0),
            gave_up: AtomicU64::new(0),
            taken: Mutex::new(Vec::with_capacity(alloc, BLOCKS)?),
            blocks: AtomicU64::new(0),
            shortage: None,
            entries: AtomicU64::new(0),
            done: AtomicU64::new(0),
            room: Mutex::new(Room::new(alloc)?),
        })
    }

    /// Has nobody been there, for a call that has all memory or is short of it.
    pub fn renew(&mut self, manner: Manner, shortage: Option<Shortage>) {
        self.manner = manner;
        self.entered = [AtomicU64::new(0), AtomicU64::new(0)];
        self.left = AtomicU64::new(0);
        self.gave_up = AtomicU64::new(0);
        self.blocks = AtomicU64::new(0);
        self.shortage = shortage;
        self.entries = AtomicU64::new(0);
        self.done = AtomicU64::new(0);
    }

    /// Of how many cells it was told that they are done.
    pub fn cells_done(&self) -> u64 {
        self.done.load(Ordering::SeqCst)
    }

    /// Begins the shortage, if this is where it does: at the start of the call, or at an entry.
    pub fn begin_shortage(&self, entry: u64) {
        let Some(shortage) = self.shortage else {
            return;
        };
        if shortage.entry == entry {
            if let Some(mut room) = self.room.try_lock() {
                room.leave(self.alloc, shortage.blocks);
            }
        }
    }

    /// Waits until a number isn't 0, for a million turns at most.
    fn wait_for(&self, number: &AtomicU64) {
        for _ in 0..1_000_000_u32 {
            if number.load(Ordering::SeqCst) > 0 {
                return;
            }
            thread::yield_now();
        }
        self.gave_up.store(1, Ordering::SeqCst);
    }

    /// Takes all memory, unless another thread has taken it or is about to.
    fn take(&self) {
        if let Some(mut taken) = self.taken.try_lock() {
            if taken.is_empty() {
                take_all(self.alloc, &mut taken);
                self.blocks.store(taken.len() as u64, Ordering::SeqCst);
                return;
            }
        }
        self.wait_for(&self.blocks);
        for _ in 0..1000_u16 {
            thread::yield_now();
        }
    }

    /// Gives the memory back.
    pub fn give_back(&self) {
        if let Some(mut taken) = self.taken.try_lock() {
            taken.clear();
        }
        if let Some(mut room) = self.room.try_lock() {
            room.end();
        }
    }

    /// What happened at the gate.
    pub fn told(&self) -> &'static str {
        let [first, second] = &self.entered;
        let first = first.load(Ordering::SeqCst);
        let second = second.load(Ordering::SeqCst);
        let has_met = first > 0 && second > 0 && self.gave_up.load(Ordering::SeqCst) == 0;
        let all = first.saturating_add(second);
        match self.manner {
            Manner::Pass => "",
            _ if !has_met => ", not in both cells at once",
            _ if self.left.load(Ordering::SeqCst) < all => ", somebody is in a cell",
            Manner::Starve if self.blocks.load(Ordering::SeqCst) == 0 => ", with memory",
            _ => ", in both cells at once",
        }
    }
}

impl Gate for Crossing {
    fn inside(&self, place: u16) {
        let before = self.entries.fetch_add(1, Ordering::SeqCst);
        self.begin_shortage(before.saturating_add(1));
        if self.manner == Manner::Pass {
            return;
        }
        let [first, second] = &self.entered;
        let (own, other) = if place == 0 {
            (first, second)
        } else {
            (second, first)
        };
        own.fetch_add(1, Ordering::SeqCst);
        self.wait_for(other);
        if self.manner == Manner::Starve && self.blocks.load(Ordering::SeqCst) == 0 {
            self.take();
        }
        self.left.fetch_add(1, Ordering::SeqCst);
    }
}

impl Watch for Crossing {
    fn done(&self) {
        self.done.fetch_add(1, Ordering::SeqCst);
    }
}
