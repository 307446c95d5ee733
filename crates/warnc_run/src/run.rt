//! How books are run: which, for how many slots, how many sessions order at a desk, and how many workers play its
//! cells.

ghost use Rattle.std.specs.Prelude.{◌≡◌, ◌<◌, ◌≤◌, MatchOption};
ghost use Rattle.warnc_run.specs.Faults.{max_sessions};
ghost use Rattle.parallel_compile.specs.Workers.{max_workers};

use alert_book::Origin;
use parallel_compile::MAX_WORKERS;

/// How many workers play cells and make tapes side by side.
#[derive(Clone, Copy, Debug, PartialEq, Eq)]
pub struct Workers {
    /// Their number, 1 to 64.
    pub number: u64,
    pub ghost some: { 0 < number },
    pub ghost few: { number ≤ max_workers },
}

impl Workers {
    /// As many workers; None if that is none, or over 64.
    pub fn new(number: u64) -> Option<Workers>
        ensures { MatchOption result ((0 < number) × (number ≤ max_workers) → ⊥) (λ workers. workers.number ≡ number) }
    {
        if number == 0 || number > MAX_WORKERS {
            return None;
        }
        Some(Workers { number })
    }
}

/// The most sessions of a run (own).
const MAX_SESSIONS: u16 = 64;

/// How many sessions order at a desk side by side, each what a part of a book says.
#[derive(Clone, Copy, Debug, PartialEq, Eq)]
pub struct Sessions {
    /// Their number, 1 to 64.
    pub number: u16,
    pub ghost some: { 0 < number },
    pub ghost few: { number ≤ max_sessions },
}

impl Sessions {
    /// As many sessions; None if that is none, or over 64.
    pub fn new(number: u16) -> Option<Sessions>
        ensures { MatchOption result ((0 < number) × (number ≤ max_sessions) → ⊥)
            (λ sessions. sessions.number ≡ number) }
    {
        if number == 0 || number > MAX_SESSIONS {
            return None;
        }
        Some(Sessions { number })
    }
}

/// Which books are run.
#[derive(Clone, Copy, Debug, PartialEq, Eq)]
pub enum Books {
    /// The octets are a book, or a network book of which one group is run.
    One(Origin),
    /// The octets are a network book, and each of its groups is run, in order.
    EachGroup,
}

/// How books are run.
#[derive(Clone, Copy, Debug, PartialEq, Eq)]
pub struct Run {
    /// Which books.
    pub books: Books,
    /// How many slots each cell's run has.
    pub slots: u16,
    /// How many sessions order at a desk side by side, each what a part of the book says.
    pub sessions: Sessions,
    /// How many workers play the cells of a book and make their tapes, or run groups of a network, side by side.
    pub workers: Workers,
    pub ghost few_slots: { slots ≤ 65535 },
}

/// How one book is run.
#[derive(Clone, Copy, Debug, PartialEq, Eq)]
pub struct BookRun {
    /// A book, or the group of a network book.
    pub origin: Origin,
    /// How many slots each cell's run has.
    pub slots: u16,
    /// How many sessions order at a desk side by side, each what a part of the book says.
    pub sessions: Sessions,
    /// How many workers play the cells of the book and make their tapes side by side.
    pub workers: Workers,
    pub ghost few_slots: { slots ≤ 65535 },
}
