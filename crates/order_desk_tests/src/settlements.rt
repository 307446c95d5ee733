//! Settlements: what passes noted, beside what the cells hold.

use crate::table::expect_rows;
use std::test::Fail;

const SETTLEMENTS: &str = "
# What was noted is settled.
desk 4 1-1
p plays 1-1 2 -> 0..2
p asks 1-1 4370 0001 -> Unknown
settle p -> settled 1-1: 4 slots, air of 4, log of 1

# A play alone.
desk 4 1-1
p plays 1-1 2 -> 0..2
settle p -> settled 1-1: 4 slots, air of 4, log of 0

# A play without its pass.
desk 4 1-1
p plays 1-1 2 -> 0..2
settle none -> Overlap { cell: Cell { lac: 1, ci: 1 }, slot: 0 }

# A pass of a play at another desk.
desk 4 1-1
p plays 1-1 2 -> 0..2
next-desk 4 1-1
settle p -> Overlap { cell: Cell { lac: 1, ci: 1 }, slot: 0 }

# Slots that are noted twice, here by a pass of another desk.
desk 4 1-1
q plays 1-1 2 -> 0..2
next-desk 4 1-1
p plays 1-1 2 -> 0..2
settle p,q -> Overlap { cell: Cell { lac: 1, ci: 1 }, slot: 0 }

# The first slot that nobody noted is told.
desk 4 1-1
p plays 1-1 2 -> 0..2
q plays 1-1 1 -> 2..3
settle p -> Overlap { cell: Cell { lac: 1, ci: 1 }, slot: 2 }

# A status without its pass.
desk 4 1-1
p asks 1-1 4370 0001 -> Unknown
settle none -> Strange { cell: Cell { lac: 1, ci: 1 }, number: 0 }

# A pass of a status at another desk, which has no such entry.
desk 4 1-1
p asks 1-1 4370 0001 -> Unknown
next-desk 4 1-1
settle p -> Strange { cell: Cell { lac: 1, ci: 1 }, number: 0 }

# A pass of the same status at another desk: its entry stands in the log at its number.
desk 4 1-1
q asks 1-1 1 0001 -> Unknown
next-desk 4 1-1
p asks 1-1 1 0001 -> Unknown
settle q -> settled 1-1: 4 slots, air of 4, log of 1

# An entry that is noted twice.
desk 4 1-1
q asks 1-1 1 0001 -> Unknown
next-desk 4 1-1
p asks 1-1 1 0001 -> Unknown
settle p,q -> Strange { cell: Cell { lac: 1, ci: 1 }, number: 0 }

desk 4 1-1
q asks 1-1 4370 0001 -> Unknown
next-desk 4 1-1
p asks 1-1 4370 0001 -> Unknown
settle p,q -> Strange { cell: Cell { lac: 1, ci: 1 }, number: 0 }

# A note of another command.
desk 4 1-1
p asks 1-1 4371 0001 -> Unknown
next-desk 4 1-1
q asks 1-1 4370 0001 -> Unknown
settle p -> Strange { cell: Cell { lac: 1, ci: 1 }, number: 0 }

# A note of another slot.
desk 4 1-1
p plays 1-1 1 -> 0..1
p asks 1-1 4370 0001 -> Unknown
next-desk 4 1-1
q asks 1-1 4370 0001 -> Unknown
settle p -> Strange { cell: Cell { lac: 1, ci: 1 }, number: 0 }

# A full log.
desk 1 1-1
p asks-often 4096 1-1 4370 0001 -> Unknown
p asks 1-1 4370 0001 -> Full: order was refused
settle p -> settled 1-1: 1 slots, air of 1, log of 4096

# A note of no cell of the desk is told before all: a play by the number 4096, an entry by its own.
desk 4 1-1
p plays 1-1 2 -> 0..2
next-desk 4 1-2
q plays 1-2 1 -> 0..1
settle p -> Strange { cell: Cell { lac: 1, ci: 1 }, number: 4096 }

desk 4 1-1
p asks 1-1 4370 0001 -> Unknown
next-desk 4 1-2
settle p -> Strange { cell: Cell { lac: 1, ci: 1 }, number: 0 }

desk 4 9-9
q asks 9-9 1 0001 -> Unknown
next-desk 4 1-1
p asks 1-1 1 0001 -> Unknown
settle p,q -> Strange { cell: Cell { lac: 9, ci: 9 }, number: 0 }

# The second cell is judged first, and has the first cell's book.
desk 4 1-1,1-2
settle-as 1-2,1-1 none -> Strange { cell: Cell { lac: 1, ci: 2 }, number: 4096 }

# The first cell's slot comes before the second cell's entry.
desk 4 1-1,1-2
p asks 1-2 4370 0001 -> Unknown
p plays 1-1 1 -> 0..1
settle none -> Overlap { cell: Cell { lac: 1, ci: 1 }, slot: 0 }

# The entries of a cell come before its slots.
desk 4 1-1
p plays 1-1 1 -> 0..1
p asks 1-1 4370 0001 -> Unknown
settle none -> Strange { cell: Cell { lac: 1, ci: 1 }, number: 0 }

# What such a fault says.
settle-fault 3 -> Session { part: 3 }: settlement failed
";

#[test]
fn a_desk_is_settled_or_the_first_disagreement_is_told(rt: HostRuntime) -> Result<(), Fail> {
    expect_rows(&rt, SETTLEMENTS, 85)
}
