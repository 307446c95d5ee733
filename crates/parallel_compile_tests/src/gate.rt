//! A gate at which threads meet, are counted, or lose all memory.

use order_desk::Gate;
use std::alloc::Global;
use std::sync::Mutex;
use std::sync::atomic::{AtomicU64, Ordering};
use std::test::Fail;
use std::thread;
use test_support::take_all;

/// What a gate does with whoever enters.
#[derive(Clone, Copy, PartialEq, Eq)]
pub enum Manner {
    /// Lets them pass.
    Pass,
    /// Counts them in each of three places.
    Count,
    /// Whoever is in one of two places waits until somebody has been in the other.
    Meet,
    /// So too; then one of both takes all memory, and the other leaves some turns later.
    Starve,
}

impl Manner {
    /// The manner that a word names; `Pass` if it names none.
    pub fn of(word: &str) -> Manner {
        match word {
            "count" => Manner::Count,
            "meet" => Manner::Meet,
            "starve" => Manner::Starve,
            _ => Manner::Pass,
        }
    }
}

/// How many blocks of memory a gate can hold.
const BLOCKS: usize = 100_000;

/// A gate, and what happened at it.
#[derive(Drop)]
pub struct Crossing {
    manner: Manner,
    alloc: Global,
    entered: [AtomicU64; 3],
    left: AtomicU64,
    gave_up: AtomicU64,
    taken: Mutex<Vec<Vec<u8>>>,
    blocks: AtomicU64,
}

impl Crossing {
    /// A gate at which nobody has been.
    pub fn new(alloc: Global, manner: Manner) -> Result<Crossing, Fail> {
        let blocks = if manner == Manner::Starve { BLOCKS } else { 0 };
        Ok(Crossing {
            manner,
            alloc,
            entered: [AtomicU64::new(0), AtomicU64::new(0), AtomicU64::new(0)],
            left: AtomicU64::new(0),
            gave_up: AtomicU64::new(0),
            taken: Mutex::new(Vec::with_capacity(alloc, blocks)?),
            blocks: AtomicU64::new(0),
        })
    }

    /// Waits until a number isn't 0, for a million turns at most.
    fn wait_for(&self, number: &AtomicU64) {
        for _ in 0..1_000_000_u32 {
            if number.load(Ordering::SeqCst) > 0 {
                return;
            }
            thread::yield_now();
        }
        self.gave_up.store(1, Ordering::SeqCst);
    }

    /// Takes all memory, unless another thread has taken it or is about to.
    fn take(&self) {
        if let Some(mut taken) = self.taken.try_lock() {
            if taken.is_empty() {
                take_all(self.alloc, &mut taken);
                self.blocks.store(taken.len() as u64, Ordering::SeqCst);
                return;
            }
        }
        self.wait_for(&self.blocks);
        for _ in 0..1000_u16 {
            thread::yield_now();
        }
    }

    /// Gives the memory back.
    pub fn give_back(&self) {
        if let Some(mut taken) = self.taken.try_lock() {
            taken.clear();
        }
    }

    /// Whether somebody was in both of two places at once.
    fn is_met(&self) -> bool {
        let [first, second, _] = &self.entered;
        let is_first = first.load(Ordering::SeqCst) > 0;
        let is_second = second.load(Ordering::SeqCst) > 0;
        is_first && is_second && self.gave_up.load(Ordering::SeqCst) == 0
    }

    /// How often each place was entered.
    fn counts(&self) -> [u64; 3] {
        let [first, second, third] = &self.entered;
        [
            first.load(Ordering::SeqCst),
            second.load(Ordering::SeqCst),
            third.load(Ordering::SeqCst),
        ]
    }

    /// What happened at the gate.
    pub fn told(&self, alloc: Global) -> Result<String, Fail> {
        let [first, second, third] = self.counts();
        let all = first.saturating_add(second).saturating_add(third);
        let is_starved = self.blocks.load(Ordering::SeqCst) > 0;
        let text = match self.manner {
            Manner::Pass => "",
            Manner::Count => return Ok(format!(in alloc; ", entered {first} {second} {third}")?),
            _ if !self.is_met() => ", not in both at once",
            Manner::Starve if !is_starved => ", with memory",
            _ if self.left.load(Ordering::SeqCst) < all => ", somebody is inside",
            _ => ", in both at once",
        };
        Ok(String::from_str(alloc, text)?)
    }
}

impl Gate for Crossing {
    fn inside(&self, place: u16) {
        if self.manner == Manner::Pass {
            return;
        }
        let [first, second, third] = &self.entered;
        let (own, other) = match place {
            0 => (first, second),
            1 => (second, first),
            _ => (third, third),
        };
        own.fetch_add(1, Ordering::SeqCst);
        if self.manner != Manner::Count {
            self.wait_for(other);
        }
        if self.manner == Manner::Starve && self.blocks.load(Ordering::SeqCst) == 0 {
            self.take();
        }
        self.left.fetch_add(1, Ordering::SeqCst);
    }
}
