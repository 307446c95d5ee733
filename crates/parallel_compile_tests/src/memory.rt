//! Calls with scarce memory: each growth of a call is refused alone that doesn't fit where the call has freed memory,
//! as those for later pieces of a stream do; and then the call does what it would have done.

use crate::table::expect_rows;
use std::test::Fail;

/// No thread can be made with so little memory, so all workers of `compile` work in the calling thread, and a stream by
/// several is refused whatever else it has. That one comes first, since a process that has tried to start a thread is
/// given memory in another way.
const SCARCE: &str = "
scarce stream 2 100 0 -> 4000 times Refused | refused to the end

scarce compile one 1/4 2/0 airing -> 31 times Refused, then 3 as by one | 3 as by one
scarce compile 1 1/4 2/0 airing -> 52 times Refused, then 3 as by one | 3 as by one
scarce compile 2 1/4 airing -> 56 times Refused | 2 as by one
scarce compile 3 1/4 airing -> 57 times Refused | 2 as by one
scarce gather 2 1 0 -> 5 times Refused, then 2 in order | 2 in order
scarce gather 5 3 0 4 1 2 -> 10 times Refused, then 5 in order | 5 in order

# a piece that is missing is told with as little memory as the places take
scarce gather 3 2 2 0 9 -> 4 times Refused, then Piece { index: 1 } | Piece { index: 1 }

# one worker is the calling thread; after each refusal it streams the same desk with all memory
scarce stream 1 1 0 -> 219 times Refused | 1-1: 0..1; 1-2: 0..1
scarce stream 1 100 0 -> 967 times Refused | 1-1: 0..64 64..100; 1-2: 0..64 64..100
scarce stream 1 200 70 -> \
    1905 times Refused | 1-1: 0..64 64..128 128..192 192..200; 1-2: 70..134 134..198 198..200 200..200

# the same calls, which make threads now
compile 2 1/4 airing -> 2 as by one
compile 3 1/4 airing -> 2 as by one
stream 2 100 0 -> 1-1: 0..64 64..100; 1-2: 0..64 64..100
";

#[test]
fn a_call_is_refused_until_it_has_memory(rt: HostRuntime) -> Result<(), Fail> {
    expect_rows(&rt, SCARCE, 14)
}

/// Both workers run when memory ends. All memory is back once the call has ended.
const STARVED: &str = "
starve compile 2 1/4000 2/4000 -> Refused, in both at once
compile 2 1/4000 2/4000 -> 2 as by one
starve stream 2 100 0 -> Refused, in both at once
stream 2 100 0 -> 1-1: 0..64 64..100; 1-2: 0..64 64..100
";

#[test]
fn workers_that_find_no_memory_are_refused_once_all_have_ended(
    rt: HostRuntime,
) -> Result<(), Fail> {
    expect_rows(&rt, STARVED, 4)
}
