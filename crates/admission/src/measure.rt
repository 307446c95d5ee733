//! The load of a message.

ghost use Rattle.std.specs.Prelude.{◌≡◌, ℕ, ◌*◌, ◌<◌, ◌≤◌};
ghost use Rattle.admission.specs.Load.{load_of};

/// The parts that a cell's slots are divided into: the least common multiple of 1 to 20 (own), so that the load of a
/// message with a period of up to 20 slots is exact.
pub const SCALE: u64 = 232_792_560;

/// The load of a message of `pages` pages that is broadcast once in each `period` slots, in parts of `SCALE`: the least
/// whole number that is not below `SCALE * pages / period` (own). The period is at least 1 slot.
///
/// A message of one page with a period of 3 slots takes a third: `load(1, 3)` is 77,597,520.
pub fn load(pages: u8, period: u16) -> u64
    requires { 0 < period }
    ensures exact { result ≡ load_of pages period }
    ensures enough { SCALE * pages ≤ result * period }
    ensures least { (other : ℕ) → SCALE * pages ≤ other * period → result ≤ other }
{
    (SCALE * u64::from(pages)).div_ceil(u64::from(period))
}
