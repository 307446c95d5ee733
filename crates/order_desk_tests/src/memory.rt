//! Calls with scarce memory: each growth of a call is refused alone, but for two of a settlement, which fit where
//! others were freed. What a refused call leaves is looked at, and then the same call has all memory. In the last
//! attempt the call isn't refused, so it is made twice.

use crate::table::expect_rows;
use std::test::Fail;

const CALLS: &str = "
# A desk that isn't opened leaves the one before.
desk 2 9-9; scarce desk 4 1-1,1-2; shows; desk 4 1-1,1-2; shows -> \
    413 times Refused, 2 slots, 9-9, 4 slots, 1-1 1-2 | 4 slots, 1-1 1-2, 4 slots, 1-1 1-2

# What is refused isn't noted, and leaves the clock, the air and the log as they were.
desk 4 1-1; scarce p plays 1-1 2; p note all; piece 1-1 0 4; p plays 1-1 2; p note all; p note 0 -> \
    7 times Memory { done: 0 }: out of memory, 0 notes, 1-1 from 0:, 0..2, 1 notes, 1-1 played 0..2 | \
    0..2, 1 notes, 1-1 from 0: - -, 2..4, 2 notes, 1-1 played 0..2
desk 4 1-1; p plays 1-1 2; scarce p asks 1-1 4370 0001; p note all; p asks 1-1 4370 0001; p note 1; close -> \
    6 times Memory { done: 0 }: out of memory, 1 notes, Unknown, 1-1 entry 0 at 2: Unknown, \
    4 slots, 1-1; 1-1: log of 1, clock at 2, air - - | \
    Unknown, 2 notes, Unknown, 1-1 entry 0 at 2: Unknown, 4 slots, 1-1; 1-1: log of 2, clock at 2, air - -
desk 4 1-1; p orders 0 write 4370 0010 normal 2 1-1; p plays 1-1 1; scarce q asks 1-1 4370 0010; q note all; \
    q asks 1-1 4370 0010; q note all; close -> \
    7 times Memory { done: 0 }: out of memory, 0 notes, Told { completed: 1, state: Standing }, 1 notes, \
    4 slots, 1-1; 1-1: log of 2, clock at 1, air 0.1 | \
    Told { completed: 1, state: Standing }, 1 notes, Told { completed: 1, state: Standing }, 2 notes, \
    4 slots, 1-1; 1-1: log of 3, clock at 1, air 0.1
desk 4 1-1; p orders 0 write 4370 0010 normal 2 1-1; p plays 1-1 3; scarce piece 1-1 0 4; p note all; piece 1-1 0 4; \
    close -> \
    12 times Memory { done: 0 }: out of memory, 2 notes, 1-1 from 0: 0010 - 0010, \
    4 slots, 1-1; 1-1: log of 1, clock at 3, air 0.1 - 0.1 | \
    1-1 from 0: 0010 - 0010, 2 notes, 1-1 from 0: 0010 - 0010, 4 slots, 1-1; 1-1: log of 1, clock at 3, air 0.1 - 0.1

# The books are gone if the desk isn't closed, so it is made anew each time.
desk 4 1-1,1-2; p plays 1-2 3; scarce close; desk 4 1-1,1-2; p plays 1-2 3; close -> \
    205 times Refused, 0..3, 4 slots, 1-1 1-2; 1-1: log of 0, clock at 0, air; 1-2: log of 0, clock at 3, air - - - | \
    4 slots, 1-1 1-2; 1-1: log of 0, clock at 0, air; 1-2: log of 0, clock at 3, air - - -, \
    0..3, 4 slots, 1-1 1-2; 1-1: log of 0, clock at 0, air; 1-2: log of 0, clock at 3, air - - -

scarce reply write 4370 0010 normal 2 1-1 started 0; reply write 4370 0010 normal 2 1-1 started 0 -> \
    52 times Refused, 0200000e0e11120300100400050100010001 | \
    0200000e0e11120300100400050100010001, 0200000e0e11120300100400050100010001
scarce reply kill 4370 0010 1-1,1-2 cause 02 stopped 258 -> \
    52 times Refused | 0600001a0e11120200100900060100010001020800080100010002010200
scarce reply replace 4370 0010 0011 normal 2 1-1,1-2 replaced 1 1 cause 06 -> \
    52 times Refused | 0300001d0e11120300110200100900060100010002060800080100010001000100
";

/// An order stops where memory ends.
const ORDERS: &str = "
# An order that had no answer leaves no entry, and is given again: its cell is played first, and once.
desk 4 1-1,1-2; scarce p orders 2 write 4370 0010 normal 2 1-1; p note all; p orders 2 write 4370 0010 normal 2 1-1; \
    p note all; p note 0; p note 1; close -> \
    65 times Memory { done: 0 }: out of memory, 0 notes, 0200000e0e11120300100400050100010001, 2 notes, \
    1-1 played 0..2, 1-1 entry 0 at 2: Started { slot: 2 }, \
    4 slots, 1-1 1-2; 1-1: log of 1, clock at 2, air - -; 1-2: log of 0, clock at 0, air | \
    20 times Memory { done: 0 }: out of memory, 1 notes, 0200000e0e11120300100400050100010001, 2 notes, \
    1-1 played 0..2, 1-1 entry 0 at 2: Started { slot: 2 }, \
    4 slots, 1-1 1-2; 1-1: log of 1, clock at 2, air - -; 1-2: log of 0, clock at 0, air | \
    0200000e0e11120300100400050100010001, 2 notes, 0300000f0e111203001009000601000100010d, 3 notes, \
    1-1 played 0..2, 1-1 entry 0 at 2: Started { slot: 2 }, \
    4 slots, 1-1 1-2; 1-1: log of 2, clock at 2, air - -; 1-2: log of 0, clock at 0, air
desk 4 1-1; p orders 0 write 4370 0010 normal 2 1-1; scarce q orders 2 replace 4370 0010 0011 normal 2 1-1; \
    q note all; q orders 2 replace 4370 0010 0011 normal 2 1-1; q note all; close -> \
    65 times Memory { done: 0 }: out of memory, 0 notes, 020000140e11120300110200100800080100010001000100, 2 notes, \
    4 slots, 1-1; 1-1: log of 2, clock at 2, air 0.1 - | \
    020000140e11120300110200100800080100010001000100, 2 notes, 030000120e1112030011020010090006010001000102, 3 notes, \
    4 slots, 1-1; 1-1: log of 3, clock at 2, air 0.1 -
desk 4 1-1; p orders 0 write 4370 0010 normal 2 1-1; scarce q orders 2 kill 4370 0010 1-1; \
    q note all; q orders 2 kill 4370 0010 1-1; q note all; close -> \
    61 times Memory { done: 0 }: out of memory, 0 notes, 050000110e11120200100800080100010001000100, 2 notes, \
    4 slots, 1-1; 1-1: log of 2, clock at 2, air 0.1 - | \
    050000110e11120200100800080100010001000100, 2 notes, 0600000f0e1112020010090006010001000102, 3 notes, \
    4 slots, 1-1; 1-1: log of 3, clock at 2, air 0.1 -

# Cells of other desks alone.
desk 4 1-1; scarce p orders 2 write 4370 0010 normal 2 9-9; p note all -> \
    65 times Memory { done: 0 }: out of memory, 0 notes | 0300000f0e1112030010090006010009000903, 0 notes

# Memory ends in the second cell: the first has its entry, and the second was played. Given again, the order is refused
# in the first cell.
desk 4 1-1,1-2; scarce p orders 2 write 4370 0010 normal 2 1-1,1-2; p note all; \
    p orders 2 write 4370 0010 normal 2 1-1,1-2; settle p -> \
    66 times Memory { done: 0 }: out of memory, 0 notes, 020000120e1112030010040009010001000100010002, \
    settled 1-1: 4 slots, air of 4, log of 1 1-2: 4 slots, air of 4, log of 1 | \
    19 times Memory { done: 0 }: out of memory, 1 notes, 020000120e1112030010040009010001000100010002, \
    settled 1-1: 4 slots, air of 4, log of 1 1-2: 4 slots, air of 4, log of 1 | \
    20 times Memory { done: 1 }: out of memory, 3 notes, \
    030000170e111203001009000601000100010d0400050100010002, \
    settled 1-1: 4 slots, air of 4, log of 2 1-2: 4 slots, air of 4, log of 1 | \
    020000120e1112030010040009010001000100010002, 4 notes, 030000150e111203001009000c01000100010d01000100020d, \
    settled 1-1: 4 slots, air of 4, log of 2 1-2: 4 slots, air of 4, log of 2
desk 4 1-1,1-2,1-3,1-4; scarce p orders 2 write 4370 0010 normal 2 1-1,1-2,1-3,1-4; p note all; settle p -> \
    73 times Memory { done: 0 }: out of memory, 0 notes, \
    settled 1-1: 4 slots, air of 4, log of 0 1-2: 4 slots, air of 4, log of 0 1-3: 4 slots, air of 4, log of 0 \
    1-4: 4 slots, air of 4, log of 0 | \
    20 times Memory { done: 0 }: out of memory, 1 notes, \
    settled 1-1: 4 slots, air of 4, log of 0 1-2: 4 slots, air of 4, log of 0 1-3: 4 slots, air of 4, log of 0 \
    1-4: 4 slots, air of 4, log of 0 | \
    19 times Memory { done: 1 }: out of memory, 3 notes, \
    settled 1-1: 4 slots, air of 4, log of 1 1-2: 4 slots, air of 4, log of 0 1-3: 4 slots, air of 4, log of 0 \
    1-4: 4 slots, air of 4, log of 0 | \
    20 times Memory { done: 2 }: out of memory, 5 notes, \
    settled 1-1: 4 slots, air of 4, log of 1 1-2: 4 slots, air of 4, log of 1 1-3: 4 slots, air of 4, log of 0 \
    1-4: 4 slots, air of 4, log of 0 | \
    19 times Memory { done: 3 }: out of memory, 7 notes, \
    settled 1-1: 4 slots, air of 4, log of 1 1-2: 4 slots, air of 4, log of 1 1-3: 4 slots, air of 4, log of 1 \
    1-4: 4 slots, air of 4, log of 0 | \
    0200001a0e11120300100400110100010001000100020001000300010004, 8 notes, \
    settled 1-1: 4 slots, air of 4, log of 1 1-2: 4 slots, air of 4, log of 1 1-3: 4 slots, air of 4, log of 1 \
    1-4: 4 slots, air of 4, log of 1
";

const SETTLEMENTS: &str = "
desk 4 1-1,1-2,1-3,1-4; p orders 2 write 4370 0010 normal 2 1-1,1-2,1-3,1-4; scarce settle p; \
    desk 4 1-1; p orders 2 write 4370 0010 normal 2 1-1; settle p -> \
    22 times Refused, 0200000e0e11120300100400050100010001, settled 1-1: 4 slots, air of 4, log of 1 | \
    settled 1-1: 4 slots, air of 4, log of 1 1-2: 4 slots, air of 4, log of 1 1-3: 4 slots, air of 4, log of 1 \
    1-4: 4 slots, air of 4, log of 1, \
    0200000e0e11120300100400050100010001, settled 1-1: 4 slots, air of 4, log of 1

# With memory enough the first thing that isn't so is told.
desk 4 1-1; p plays 1-1 2; scarce settle none -> 4 times Refused | Overlap { cell: Cell { lac: 1, ci: 1 }, slot: 0 }
desk 4 1-1; p asks 1-1 4370 0001; scarce settle none -> 4 times Refused | \
    Strange { cell: Cell { lac: 1, ci: 1 }, number: 0 }
";

#[test]
fn calls_are_refused_until_they_have_memory(rt: HostRuntime) -> Result<(), Fail> {
    expect_rows(&rt, CALLS, 9)?;
    expect_rows(&rt, ORDERS, 6)?;
    expect_rows(&rt, SETTLEMENTS, 3)
}
