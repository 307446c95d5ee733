//! When slot 0 begins.

ghost use Rattle.std.specs.Prelude.{◌≡◌, ◌<◌, ◌≤◌, MatchOption};

/// The microseconds from 1970-01-01T00:00:00Z to 2106-01-01T00:00:00Z.
const END: u64 = 4_291_747_200_000_000;

/// When slot 0 begins: a time from 1970-01-01T00:00:00Z on, and before 2106.
#[derive(Clone, Copy, Debug, PartialEq, Eq)]
pub struct Start {
    /// The microseconds since 1970-01-01T00:00:00Z, below 4,291,747,200,000,000.
    pub microseconds: u64,
    pub ghost early: { microseconds < 4291747200000000 },
}

impl Start {
    /// So many microseconds after 1970-01-01T00:00:00Z; None if that is in 2106, or later.
    pub fn new(microseconds: u64) -> Option<Start>
        ensures { MatchOption result (4291747200000000 ≤ microseconds) (λ start. start.microseconds ≡ microseconds) }
    {
        if microseconds >= END {
            return None;
        }
        Some(Start { microseconds })
    }
}
