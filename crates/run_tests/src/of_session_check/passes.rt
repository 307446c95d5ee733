//! Passes that are those of a book's sessions, or aren't.

use crate::of_session_check::run::expect_rows;
use std::test::Fail;

const RIGHT: &str = "
# Each session has its pass. `serves 1 0`: the session of part 1, each message at its slot.
book apart 2 2; q serves 1 0; p serves 0 0; check 2 -> 1; 1; Ok(())

# Replacements, stops and orders past the run's end.
book together 4 2; q serves 1 0; p serves 0 0; check 2 -> 3; 3; Ok(())

# A book of one part, and a second pass without notes.
book together 4 1; p serves 0 0; check 2 -> 6; Ok(())

# A pass after those of the parts may have played.
book apart 2 2; q serves 1 0; p serves 0 0; r plays 1; r notes; check 3 -> 1; 1; 0..1; 1; Ok(())
";

#[test]
fn passes_of_a_books_sessions_are_right(rt: HostRuntime) -> Result<(), Fail> {
    expect_rows(&rt, RIGHT, 4)
}

const WRONG: &str = "
# The passes are exchanged.
book apart 2 2; p serves 1 0; q serves 0 0; check 2 -> 1; 1; Err(Session { part: 0 })

# The second session's orders are noted in the third pass.
book apart 2 2; r serves 1 0; p serves 0 0; check 3 -> 1; 1; Err(Session { part: 1 })

# The second session's order comes a slot late.
book apart 2 2; p serves 0 0; q serves 1 1; check 2 -> 1; 1; Err(Session { part: 1 })

# An order that is of no session: the KILL of the first alert in the first cell.
book apart 2 2; q serves 1 0; p serves 0 0; p orders 0400000e0e11120200100400050100010001; check 2 -> \
    1; 1; 050000110e11120200100800080100010001000000; Err(Session { part: 0 })

# A session asks for no status.
book apart 2 2; q serves 1 0; p serves 0 0; q asks 4371 0020; check 2 -> \
    1; 1; Told { completed: 0, state: Standing }; Err(Session { part: 1 })

# Nor does a pass after those of the parts.
book apart 2 2; q serves 1 0; p serves 0 0; r asks 4371 0020; check 3 -> \
    1; 1; Told { completed: 0, state: Standing }; Err(Session { part: 2 })
";

#[test]
fn the_least_part_whose_pass_is_wrong_is_told(rt: HostRuntime) -> Result<(), Fail> {
    expect_rows(&rt, WRONG, 6)
}
