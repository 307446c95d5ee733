//! The counter, and the seats that draw from it.

ghost use Rattle.std.specs.Prelude.{◌≡◌, ℕ, ◌+◌, ◌<◌, ◌≤◌, true, false, IfOk, IfSome, IfNone, IsNone};
ghost use Rattle.tickets.specs.Draws.{
  all_parts,
  IsSeatOf,
  IsNoMoreThan,
  AreSame,
  times,
  numbers_below,
  first_seat,
  with_number,
  without_number,
  kept_seat,
  new_seat,
  joined_seat,
};

use crate::view::{BothParts, DrawStep, Draws, OnePart, View};
use atomic_table::{Seat as Token, Table};
use std::alloc::Global;
use std::marker::Model;

/// Out of memory.
pub use std::alloc::AllocError as Refused;

/// Hands out the numbers below its limit.
#[derive(Drop)]
pub struct Counter {
    table: Table<(), View, u64, Draws, Global>,
    limit: u64,
}

impl Model for Counter {
    ghost use Rattle.std.specs.Prelude.{◌≡◌};
    ghost use Rattle.tickets.specs.Draws.{CounterState};

    ghost Value = { CounterState };

    ghost view = { λ counter. record { table = counter.table.shared.table_id; limit = counter.limit } };

    ghost invariant = { λ counter. (counter.table.shared.key ≡ counter.limit)
        × (counter.table.shared.table_id.words ≡ 1) × (counter.table.shared.table_id.slots ≡ 0) };
}

/// Draws from one counter. To a contract it is the counter's name and limit, how many of the 65 parts of the counter
/// it has, how often it may still be split, what it has drawn in the order of drawing, and whether it is over.
#[derive(Drop)]
pub struct Seat {
    token: Token<(), View>,
    over: bool,
}

impl Model for Seat {
    ghost use Rattle.std.specs.Prelude.{◌≡◌, ◌<◌, true, false, []};
    ghost use Rattle.tickets.specs.Draws.{SeatState};

    ghost Value = { SeatState };

    ghost view = { λ seat. record {
      table = seat.token.table_id;
      limit = seat.token.me.0.limit;
      parts = seat.token.me.0.parts;
      spare = seat.token.me.0.spare;
      drawn = seat.token.me.0.drawn;
      over = seat.over;
    } };

    ghost invariant = { λ seat. (seat.token.me.1 ≡ []) × (seat.token.me.0.spare < seat.token.me.0.parts)
        × (seat.over ≡ true → 0 < seat.token.me.0.late) × (seat.over ≡ false → seat.token.me.0.late ≡ 0) };
}

impl Counter {
    /// A counter of the numbers below `count`, which is at most 65,535, and its first seat, which may be split 64
    /// times.
    ///
    /// # Errors
    ///
    /// `Refused` if out of memory.
    pub fn new(alloc: Global, count: u64) -> Result<(Counter, Seat), Refused>
        requires { count < 65536 }
        ensures { IfOk result (λ made. (made.0.limit ≡ count) × (made.1 ≡ first_seat made.0)) }
    {
        let (table, token) = Table::of_words(alloc, &[0], &count)?;
        let counter = Counter {
            table,
            limit: count,
        };
        Ok((counter, Seat { token, over: false }))
    }

    /// How many numbers were drawn. A seat that has all 65 parts has drawn each of the numbers below it once.
    pub fn close(self, seat: Seat) -> u64
        requires { IsSeatOf self seat }
        ensures limit { result ≤ self.limit }
        ensures drawn { IsNoMoreThan seat.drawn (numbers_below result) }
        ensures whole { seat.parts ≡ all_parts → AreSame seat.drawn (numbers_below result) }
        ensures over { seat.over ≡ true → result ≡ self.limit }
    {
        let Counter { table, limit } = self;
        let Seat { token, over: _ } = seat;
        let closed = table.close_with(token);
        let word = closed.word(0);
        closed.free();
        word.min(limit)
    }
}

impl Seat {
    /// The next number that no seat has drawn, by one atomic step; `None` if all are drawn, and from then on without
    /// a step.
    pub fn draw(&mut self, counter: &Counter) -> Option<u64>
        requires { IsSeatOf counter.now self.old }
        ensures seat { IsSeatOf counter.now self.new × (self.new.parts ≡ self.old.parts)
            × (self.new.spare ≡ self.old.spare) }
        ensures some { IfSome result (λ n. (n < counter.now.limit) × (self.new ≡ with_number self.old n)) }
        ensures rising { IfSome result (λ n. (x : ℕ) → 0 < times x self.old.drawn → x < n) }
        ensures none { IfNone result (self.new ≡ without_number self.old) }
        ensures over { self.old.over ≡ true → IsNone result }
    {
        if self.over {
            return None;
        }
        let found = counter
            .table
            .shared
            .fetch_add::<DrawStep>(&mut self.token, 0, 1);
        if found < counter.limit {
            return Some(found);
        }
        self.over = true;
        None
    }

    /// A new seat of the counter, which has drawn nothing. The first seat alone may be split, 64 times.
    pub fn split(&mut self, counter: &Counter) -> Seat
        requires { IsSeatOf counter.now self.old × (0 < self.old.spare) }
        ensures kept { self.new ≡ kept_seat self.old }
        ensures made { result ≡ new_seat self.old }
    {
        let token = counter.table.shared.split_seat::<OnePart>(&mut self.token);
        Seat { token, over: false }
    }

    /// Takes in another seat of the counter: its parts, and what it has drawn.
    pub fn join(&mut self, other: Seat, counter: &Counter)
        requires { IsSeatOf counter.now self.old × IsSeatOf counter.now other }
        ensures { self.new ≡ joined_seat self.old other }
    {
        let Seat { token, over } = other;
        counter
            .table
            .shared
            .join_seat::<BothParts>(&mut self.token, token);
        self.over = self.over || over;
    }
}
