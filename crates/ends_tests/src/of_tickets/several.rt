//! Seats in several threads.
ghost use Rattle.tickets.specs.Draws.{IsSeatOf};

use std::alloc::{AllocError, Global};
use std::test::Fail;
use std::thread;
use std::thread::Threads;
use tickets::{Counter, Seat};

/// How many numbers there are.
const COUNT: u64 = 1000;

/// Draws until there are no more, and returns what it drew.
fn draw_all(alloc: Global, counter: &Counter, seat: Seat) -> Vec<u64>
    requires { IsSeatOf counter.now seat }
{
    let mut seat = seat;
    let mut drawn = Vec::new(alloc);
    for _ in 0..=COUNT {
        let Some(number) = seat.draw(counter) else {
            break;
        };
        let _ = drawn.push(number);
        thread::yield_now();
    }
    drawn
}

/// Whether what was drawn is each number once.
fn are_all(alloc: Global, drawn: &[Vec<u64>]) -> Result<bool, AllocError> {
    let mut all: Vec<u64> = Vec::with_capacity(alloc, 1000)?;
    for numbers in drawn {
        all.extend_from_slice(numbers)?;
    }
    all.as_mut_slice().sort_unstable();
    for (place, number) in all.iter().enumerate() {
        if *number != place as u64 {
            return Ok(false);
        }
    }
    Ok(all.len() as u64 == COUNT)
}

/// Whether four threads draw each number once, what is drawn after them, and with what the counter closes.
fn drawn_by_four<T: AllocGlobal + Threads + Sync>(
    rt: &T,
) -> Result<(bool, Option<u64>, u64), Fail> {
    let (counter, mut first) = Counter::new(rt.alloc(), COUNT)?;
    let mut seats: Vec<Seat> = Vec::with_capacity(rt.alloc(), 4)?;
    seats.push_reserved(first.split(&counter));
    seats.push_reserved(first.split(&counter));
    seats.push_reserved(first.split(&counter));
    seats.push_reserved(first.split(&counter));
    let (alloc, shared) = (rt.alloc(), &counter);
    let drawn = thread::map_vec(
        rt,
        seats,
        &|seat: Seat| -> Vec<u64>
            requires { IsSeatOf shared.now seat }
        { draw_all(alloc, shared, seat) },
    )?;
    let last = first.draw(&counter);
    let count = counter.close(first);
    Ok((are_all(rt.alloc(), &drawn)?, last, count))
}

#[test]
fn four_threads_draw_each_number_once(rt: HostRuntime) -> Result<(), Fail> {
    let drawn = drawn_by_four(&rt)?;
    assert!(&rt; drawn == (true, None, COUNT));
    Ok(())
}
