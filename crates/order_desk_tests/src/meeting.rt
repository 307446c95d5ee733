//! Three orders at once: while one is inside a cell, another order of this cell waits, and one of another cell doesn't.

use crate::lines::message_of;
use crate::run::Run;
use crate::table::expect_each;
use order_desk::{Desk, Gate, Pass};
use std::alloc::Global;
use std::process::Abort;
use std::sync::Wait;
use std::sync::atomic::{AtomicBool, Ordering};
use std::test::Fail;
use std::thread;
use std::thread::Threads;
use test_support::Words;

/// For how many turns a thread waits at most for another one.
const LONGEST: u32 = 1_000_000;

/// For how many turns the first order stays inside its cell once the others have come. An order that doesn't wait for
/// it is answered by then.
const STAY: u32 = 100_000;

/// How far one of the other orders has come.
#[derive(Drop)]
struct Other {
    asked: AtomicBool,
    answered: AtomicBool,
}

/// What the three orders have come to. The first and the third are of the first cell, the second is of the second.
#[derive(Drop)]
struct Meeting {
    /// The first is inside its cell.
    entered: AtomicBool,
    second: Other,
    third: Other,
    /// The third was answered while the first was inside.
    too_early: AtomicBool,
    /// A thread has waited in vain.
    gave_up: AtomicBool,
}

/// Whether a flag is set, at once or within so many turns.
fn is_set(flag: &AtomicBool, turns: u32) -> bool {
    for _ in 0..turns {
        if flag.load(Ordering::SeqCst) {
            return true;
        }
        thread::yield_now();
    }
    false
}

impl Meeting {
    /// A meeting to which no thread has come.
    fn new() -> Meeting {
        Meeting {
            entered: AtomicBool::new(false),
            second: Other {
                asked: AtomicBool::new(false),
                answered: AtomicBool::new(false),
            },
            third: Other {
                asked: AtomicBool::new(false),
                answered: AtomicBool::new(false),
            },
            too_early: AtomicBool::new(false),
            gave_up: AtomicBool::new(false),
        }
    }

    /// Waits for a flag, and notes if it gives up.
    fn wait_for(&self, flag: &AtomicBool) {
        if !is_set(flag, LONGEST) {
            self.gave_up.store(true, Ordering::SeqCst);
        }
    }
}

impl Gate for Meeting {
    /// The first order stays inside the first cell until the second was answered and the third has come. Then it looks
    /// for some turns whether the third is answered, which has to wait.
    fn inside(&self, place: u16) {
        if place == 0 && !self.entered.load(Ordering::SeqCst) {
            self.entered.store(true, Ordering::SeqCst);
            self.wait_for(&self.second.answered);
            self.wait_for(&self.third.asked);
            let early = is_set(&self.third.answered, STAY);
            self.too_early.store(early, Ordering::SeqCst);
        }
    }
}

/// Has an order carried out, and says whether there was a reply.
fn order<T: AllocGlobal + Wait>(
    rt: &T,
    desk: &Desk,
    pass: &mut Pass,
    octets: &[u8],
    meeting: &Meeting,
) -> bool {
    desk.order(rt, rt.alloc(), pass, 0, octets, meeting).is_ok()
}

/// Does the same once the first order is inside its cell.
fn order_after<T: AllocGlobal + Wait>(
    rt: &T,
    desk: &Desk,
    pass: &mut Pass,
    octets: &[u8],
    meeting: &Meeting,
    other: &Other,
) -> bool {
    meeting.wait_for(&meeting.entered);
    other.asked.store(true, Ordering::SeqCst);
    let done = order(rt, desk, pass, octets, meeting);
    other.answered.store(true, Ordering::SeqCst);
    done
}

/// Has the second and the third order carried out at once, and says whether there were replies.
fn order_others<T: AllocGlobal + Threads + Wait + Sync>(
    rt: &T,
    desk: &Desk,
    passes: (&mut Pass, &mut Pass),
    orders: (&[u8], &[u8]),
    meeting: &Meeting,
) -> bool {
    let (second, third) = passes;
    let (two, three) = orders;
    let (second_done, third_done) = thread::join(
        rt,
        || order_after(rt, desk, second, two, meeting, &meeting.second),
        || order_after(rt, desk, third, three, meeting, &meeting.third),
    );
    second_done && third_done
}

/// Has all three orders carried out at once, and says whether there were replies.
fn order_all<T: AllocGlobal + Threads + Wait + Sync>(
    rt: &T,
    run: &mut Run,
    orders: &[Vec<u8>],
    meeting: &Meeting,
) -> bool {
    match (&run.desk, run.passes.as_mut_slice(), orders) {
        (Some(desk), [p, q, r], [one, two, three]) => {
            let (first_done, others_done) = thread::join(
                rt,
                || order(rt, desk, p, one, meeting),
                || order_others(rt, desk, (q, r), (two, three), meeting),
            );
            first_done && others_done
        }
        _ => false,
    }
}

/// Has three orders carried out while their threads meet. Says whether there were three replies, whether a thread
/// waited in vain, and whether two were inside one cell.
fn meet<T: AllocGlobal + Threads + Wait + Sync>(
    rt: &T,
    run: &mut Run,
    orders: &[Vec<u8>],
) -> (bool, bool, bool) {
    let meeting = Meeting::new();
    let are_done = order_all(rt, run, orders, &meeting);
    let gave_up = meeting.gave_up.load(Ordering::SeqCst);
    (are_done, gave_up, meeting.too_early.load(Ordering::SeqCst))
}

/// Makes the octets of the three orders.
fn three_orders(alloc: Global) -> Result<Vec<Vec<u8>>, Fail> {
    let mut orders = Vec::with_capacity(alloc, 3)?;
    for words in [
        "write 4370 0010 normal 2 1-1",
        "write 4370 0010 normal 2 1-2",
        "write 4371 0020 normal 2 1-1",
    ] {
        orders.push(message_of(alloc, &mut Words::of(words))?)?;
    }
    Ok(orders)
}

const DESK: &str = "desk 4 1-1,1-2";

/// The third order's entry comes after the first one's.
const AFTERWARDS: &str = "
p asks 1-1 4370 0010 -> Told { completed: 0, state: Standing }
p note all -> 2 notes
p note 0 -> 1-1 entry 0 at 0: Started { slot: 0 }
p note 1 -> 1-1 entry 2 at 0: Told { completed: 0, state: Standing }
q note all -> 1 notes
q note 0 -> 1-2 entry 0 at 0: Started { slot: 0 }
r note all -> 1 notes
r note 0 -> 1-1 entry 1 at 0: Started { slot: 0 }
settle p,q,r -> settled 1-1: 4 slots, air of 4, log of 3 1-2: 4 slots, air of 4, log of 1
";

/// Expects that the orders meet, and what the rows say that come afterwards; returns how many there are.
fn expect_meeting<T: AllocGlobal + Threads + Wait + Abort + Sync>(
    rt: &T,
    run: &mut Run,
    orders: &[Vec<u8>],
) -> Result<u16, Fail> {
    let _ = expect_each(rt, run, DESK)?;
    let met = meet(rt, run, orders);
    assert!(rt; met == (true, false, false));
    expect_each(rt, run, AFTERWARDS)
}

#[test]
fn an_order_holds_its_cell_and_no_other(rt: HostRuntime) -> Result<(), Fail> {
    let orders = three_orders(rt.alloc())?;
    let mut run = Run::new(rt.alloc())?;
    let rows = expect_meeting(&rt, &mut run, &orders);
    drop(run);
    assert!(&rt; rows? == 9);
    Ok(())
}
