//! Checks with scarce memory: each growth of a check is refused alone that doesn't fit where the check has freed
//! memory, as those for a later message may; and then the same check has all memory. The books are served anew each
//! time, since a settlement consumes the desk.

use crate::of_session_check::run::expect_rows;
use std::test::Fail;

const CHECKS: &str = "
book verbs 4 1; p serves 0 0; scarce check 1 -> 51 times 3; Err(Refused), then Ok(()) | 3; Ok(())
book apart 2 2; p serves 0 0; q serves 1 0; scarce check 2 -> 29 times 1; 1; Err(Refused), then Ok(()) | 1; 1; Ok(())
book together 4 2; q serves 1 0; p serves 0 0; scarce check 2 -> 53 times 3; 3; Err(Refused), then Ok(()) | 3; 3; Ok(())

# With memory enough a wrong pass is told, also if the other part needs more memory.
book apart 2 2; p serves 0 0; q serves 1 1; scarce check 2 -> \
    28 times 1; 1; Err(Refused), then Err(Session { part: 1 }) | 1; 1; Err(Session { part: 1 })
";

#[test]
fn refused_memory_is_reported(rt: HostRuntime) -> Result<(), Fail> {
    expect_rows(&rt, CHECKS, 4)
}
