//! Lines that wait behind others, slot by slot. The loads are those of one page in 4 slots (58198140, a quarter of a
//! cell), one page in 2 slots (116396280, a half) and three pages in 4 slots (174594420).

use crate::of_admission::budgets::expect_rows;

const HANDED_OVER: &str = "
# One takes over in a full cell.
new
reserve 0 58198140 - -> ok
reserve 1 174594420 - -> ok
total -> 232792560

# Entry 0, of period 4, is stopped at slot 1, and entry 2 takes over at slot 4.
fits 58198140 - -> Load
fits_behind 58198140 0 - -> ok
release 0 4 -> true
reserve_behind 2 58198140 0 4 -> ok
total -> 232792560

# At slot 2 there is no room for a half in its place, and at slot 3 there is for a quarter.
fits 116396280 2 -> Load
fits_behind 116396280 0 2 -> Load
fits_behind 58198140 0 2 -> ok
release 2 3 -> true
pass 3
is_reserved 2 -> false
reserve_behind 3 58198140 0 4 -> ok
total -> 232792560
pass 4
is_reserved 0 -> false
has_started 3 -> true
total -> 232792560

# It waits behind one that hands over.
new
reserve 0 58198140 4 -> ok
reserve 1 58198140 - -> ok
hands_over 0 4 -> true
hands_over 0 5 -> false
hands_over 1 4 -> false
is_awaited 0 -> false
reserve_behind 2 58198140 0 4 -> ok

# None waits behind the same, nor behind one that waits, and the end of what is waited for stays.
is_awaited 0 -> true
is_awaited 2 -> false
has_started 2 -> false
reserve_behind 3 58198140 0 4 -> none
fits_behind 58198140 2 - -> none
release 0 3 -> false

# Once it is gone, all of that may be.
release 2 1 -> true
pass 1
is_awaited 0 -> false
reserve_behind 3 58198140 0 4 -> ok
is_awaited 0 -> true
";

const EXCESSES: &str = "
# A half behind a quarter holds a quarter more up to slot 4, so that a quarter has no room at slot 2.
new
reserve 0 58198140 - -> ok
reserve 1 116396280 - -> ok
total -> 174594420
release 0 4 -> true
fits 116396280 - -> Load
fits_behind 116396280 0 - -> ok
fits_behind 116396281 0 - -> Load
reserve_behind 2 116396280 0 4 -> ok
total -> 232792560
pass 2
fits 58198140 - -> Load
pass 3
has_started 2 -> false
total -> 232792560
pass 4
has_started 2 -> true
total -> 232792560

# Nothing is held behind a greater load.
new
reserve 0 116396280 6 -> ok
reserve_behind 1 58198140 0 6 -> ok
total -> 116396280
pass 5
total -> 116396280
pass 6
total -> 58198140

# A full table is reported before the load.
new
reserve_64 1000 9 -> 64
fits_behind 0 63 - -> Table
fits_behind most 63 - -> Table
fits_behind 1000 63 64 -> Table
reserve_behind 64 1000 63 9 -> Table

# 63 others hold 63,000, so that there is room for an excess of 232,792,560 - 63,000.
fits_behind 232730560 63 0 -> ok
fits_behind 232730561 63 0 -> Load
total -> 64000
";

const AS_SLOTS_PASS: &str = "
new
reserve 0 58198140 3 -> ok
reserve 1 58198140 5 -> ok
reserve 2 116396280 - -> ok
reserve_behind 3 58198140 1 5 -> ok
pass 2
total -> 232792560

# The first one ends, and the last goes on waiting.
pass 3
is_reserved 0 -> false
is_awaited 1 -> true
has_started 2 -> true
has_started 3 -> false
total -> 174594420

# The one in front ends, and the last starts.
pass 5
is_reserved 1 -> false
is_awaited 1 -> false
has_started 2 -> true
has_started 3 -> true
total -> 174594420
";

#[test]
fn takes_over_from_one_that_hands_over(rt: HostRuntime) {
    expect_rows(&rt, HANDED_OVER, 40);
}

#[test]
fn holds_its_excess_while_it_waits(rt: HostRuntime) {
    expect_rows(&rt, EXCESSES, 35);
}

#[test]
fn keeps_what_is_left_as_slots_pass(rt: HostRuntime) {
    expect_rows(&rt, AS_SLOTS_PASS, 19);
}
