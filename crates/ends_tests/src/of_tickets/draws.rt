//! Worked draws in one thread.

use std::alloc::Global;
use tickets::{Counter, Refused};

/// Two seats of three numbers: the first draws, and is split; the second draws, and then the first twice, the second
/// twice, and the first once they are joined. Gives what they drew, and with what the counter closes.
fn drawn_by_two(alloc: Global) -> Result<([Option<u64>; 7], u64), Refused> {
    let (counter, mut first) = Counter::new(alloc, 3)?;
    let one = first.draw(&counter);
    let mut second = first.split(&counter);
    let two = second.draw(&counter);
    let (three, four) = (first.draw(&counter), first.draw(&counter));
    let (five, six) = (second.draw(&counter), second.draw(&counter));
    first.join(second, &counter);
    let seven = first.draw(&counter);
    let drawn = [one, two, three, four, five, six, seven];
    Ok((drawn, counter.close(first)))
}

/// What a seat draws of a counter of nothing, and with what that closes.
fn drawn_of_nothing(alloc: Global) -> Result<(Option<u64>, u64), Refused> {
    let (counter, mut seat) = Counter::new(alloc, 0)?;
    let number = seat.draw(&counter);
    Ok((number, counter.close(seat)))
}

/// What a seat draws of many numbers, what one draws that was split from it, and with what the counter closes without
/// that one.
fn drawn_of_many(alloc: Global) -> Result<(Option<u64>, Option<u64>, u64), Refused> {
    let (counter, mut seat) = Counter::new(alloc, 65_535)?;
    let number = seat.draw(&counter);
    let mut other = seat.split(&counter);
    let next = other.draw(&counter);
    Ok((number, next, counter.close(seat)))
}

#[test]
fn seats_draw_each_number_once(rt: HostRuntime) -> Result<(), Refused> {
    let by_two = drawn_by_two(rt.alloc())?;
    let of_nothing = drawn_of_nothing(rt.alloc())?;
    let of_many = drawn_of_many(rt.alloc())?;
    let numbers = [Some(0), Some(1), Some(2), None, None, None, None];
    assert!(&rt; by_two == (numbers, 3));
    assert!(&rt; of_nothing == (None, 0));
    assert!(&rt; of_many == (Some(0), Some(1), 2));
    Ok(())
}
