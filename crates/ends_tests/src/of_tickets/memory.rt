//! A counter with hardly any memory: `new` alone takes some.

use std::alloc::Global;
use std::test::Fail;
use test_support::{Drought, take_all};
use tickets::{Counter, Refused};

/// Whether a second counter is refused once all memory is taken, what a seat of the first and one that was split from
/// it draw then, and with what the first closes.
fn drawn_without_memory(
    alloc: Global,
    taken: &mut Vec<Vec<u8>>,
) -> Result<(bool, Option<u64>, Option<u64>, u64), Refused> {
    let (counter, mut seat) = Counter::new(alloc, 2)?;
    take_all(alloc, taken);
    let is_refused = Counter::new(alloc, 2).is_err();
    let number = seat.draw(&counter);
    let mut other = seat.split(&counter);
    let next = other.draw(&counter);
    seat.join(other, &counter);
    Ok((is_refused, number, next, counter.close(seat)))
}

/// What a seat of a counter of two numbers draws, and with what that closes.
fn drawn(alloc: Global) -> Result<(Option<u64>, Option<u64>, u64), Refused> {
    let (counter, mut seat) = Counter::new(alloc, 2)?;
    let (one, two) = (seat.draw(&counter), seat.draw(&counter));
    Ok((one, two, counter.close(seat)))
}

/// Whether a counter is refused with so many blocks of memory.
fn is_refused(alloc: Global, drought: &mut Drought, blocks: u16) -> bool {
    drought.leave(blocks);
    drought.begin(alloc);
    let made = Counter::new(alloc, 2);
    drought.end();
    made.is_err()
}

/// How often a counter is refused, with 32 octets more each time. Neither of its two growths takes more, so each is
/// refused once. After a refusal the same call has all memory, and has to make a counter whose seat draws both numbers.
fn refusals(alloc: Global, drought: &mut Drought) -> Result<u16, Refused> {
    for blocks in 0..Drought::MOST {
        if !is_refused(alloc, drought, blocks) {
            return Ok(blocks);
        }
        if drawn(alloc)? != (Some(0), Some(1), 2) {
            return Ok(0);
        }
    }
    Ok(Drought::MOST)
}

#[test]
fn a_counter_is_refused_until_it_has_memory(rt: HostRuntime) -> Result<(), Fail> {
    let mut drought = Drought::of_room(rt.alloc())?;
    let refused = refusals(rt.alloc(), &mut drought);
    drop(drought);
    assert_eq!(&rt; refused, Ok(2));
    Ok(())
}

#[test]
fn no_memory_makes_no_counter(rt: HostRuntime) -> Result<(), Fail> {
    let mut taken = Vec::with_capacity(rt.alloc(), 100_000)?;
    let drawn = drawn_without_memory(rt.alloc(), &mut taken);
    taken.clear();
    assert!(&rt; drawn == Ok((true, Some(0), Some(1), 2)));
    Ok(())
}
