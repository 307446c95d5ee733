//! Runs at a desk: replies, notes, and what the cells have aired.

use crate::table::expect_rows;
use std::test::Fail;

/// A replacement takes over, or is refused in one of two cells.
const REPLACEMENTS: &str = "
# In the second cell another message stands beside the old text: there the new one takes over a slot later.
desk 8 1-1,1-2
p orders 0 write 4370 0010 normal 2 1-1,1-2 -> 020000120e1112030010040009010001000100010002
p orders 0 write 4371 0020 normal 2 1-2 -> 0200000e0e11130300200400050100010002
p orders 1 replace 4370 0010 0011 normal 2 1-1,1-2 -> 0200001b0e111203001102001008000f010001000100010000010002000100
p note all -> 7 notes
p note 0 -> 1-1 entry 0 at 0: Started { slot: 0 }
p note 1 -> 1-2 entry 0 at 0: Started { slot: 0 }
p note 2 -> 1-2 entry 1 at 0: Started { slot: 0 }
p note 3 -> 1-1 played 0..1
p note 4 -> 1-1 entry 1 at 1: Replaced { slot: 1, completed: 1 }
p note 5 -> 1-2 played 0..1
p note 6 -> 1-2 entry 2 at 1: Replaced { slot: 2, completed: 1 }
p asks 1-2 4370 0010 -> Told { completed: 1, state: Stopped { slot: 1 } }

# With a period of 1 there is no room for the new text in the second cell: there the old one goes on.
desk 8 1-1,1-2
p orders 0 write 4370 0010 normal 2 1-1,1-2 -> 020000120e1112030010040009010001000100010002
p orders 0 write 4371 0020 normal 2 1-2 -> 0200000e0e11130300200400050100010002
p orders 1 replace 4370 0010 0011 normal 1 1-1,1-2 -> 0300001d0e11120300110200100900060100010002060800080100010001000100
p note all -> 7 notes
p note 0 -> 1-1 entry 0 at 0: Started { slot: 0 }
p note 1 -> 1-2 entry 0 at 0: Started { slot: 0 }
p note 2 -> 1-2 entry 1 at 0: Started { slot: 0 }
p note 3 -> 1-1 played 0..1
p note 4 -> 1-1 entry 1 at 1: Replaced { slot: 2, completed: 1 }
p note 5 -> 1-2 played 0..1
p note 6 -> 1-2 entry 2 at 1: refused with cause 06
p asks 1-2 4370 0010 -> Told { completed: 1, state: Standing }

# So it is with two pages and a period of 2.
desk 8 1-1,1-2
p orders 0 write 4370 0010 normal 2 1-1,1-2 -> 020000120e1112030010040009010001000100010002
p orders 0 write 4371 0020 normal 2 1-2 -> 0200000e0e11130300200400050100010002
p orders 1 replace-by-two-pages 4370 0010 0011 normal 2 1-1,1-2 -> \
    0300001d0e11120300110200100900060100010002060800080100010001000100
p note 5 -> 1-2 played 0..1
p note 6 -> 1-2 entry 2 at 1: refused with cause 06
p asks 1-2 4370 0010 -> Told { completed: 1, state: Standing }
";

/// An order is carried out in its cells from its slot on.
const ORDERS: &str = "
# High is aired before normal, and normal before background, whichever was ordered first.
desk 4 1-1
p orders 0 write 4370 0001 background 4 1-1 -> 0200000e0e11120300010400050100010001
p orders 0 write 4370 0002 normal 4 1-1 -> 0200000e0e11120300020400050100010001
p orders 0 write 4370 0003 high 4 1-1 -> 0200000e0e11120300030400050100010001
p plays 1-1 4 -> 0..4
close -> 4 slots, 1-1; 1-1: log of 3, clock at 4, air 2.1 1.1 0.1 -

# An order comes at its slot, at the clock if that is later, or at the end of the run.
desk 4 1-1
p plays 1-1 3 -> 0..3
p orders 0 write 4370 0001 normal 2 1-1 -> 0200000e0e11120300010400050100010001
p orders 9 write 4370 0002 normal 2 1-1 -> 0300000f0e111203000209000601000100010a
p note all -> 4 notes
p note 0 -> 1-1 played 0..3
p note 1 -> 1-1 entry 0 at 3: Started { slot: 3 }
p note 2 -> 1-1 played 3..4
p note 3 -> 1-1 entry 1 at 4: refused with cause 0a

desk 4 1-1
p orders 0 write 4370 0010 normal 2 1-1 -> 0200000e0e11120300100400050100010001
p orders 0 kill 4370 0010 1-1 -> 050000110e11120200100800080100010001000000

# A cell of another desk is refused with cause 03, and the order goes on in the other cells: at any slot.
desk 4 1-1,1-2
p orders 0 write 4370 0010 normal 2 9-9,1-1,1-2 -> 0300001b0e1112030010090006010009000903040009010001000100010002
p orders 3 write 4371 0020 normal 2 1-1,9-9,1-2 -> 0300001b0e1113030020090006010009000903040009010001000100010002
p orders 9 write 4372 0030 normal 2 1-1,1-2,9-9 -> 0300001b0e111403003009001201000100010a01000100020a010009000903
p note all -> 10 notes
p note 0 -> 1-1 entry 0 at 0: Started { slot: 0 }
p note 1 -> 1-2 entry 0 at 0: Started { slot: 0 }
p note 2 -> 1-1 played 0..3
p note 3 -> 1-1 entry 1 at 3: Started { slot: 3 }
p note 4 -> 1-2 played 0..3
p note 5 -> 1-2 entry 1 at 3: Started { slot: 3 }
p note 6 -> 1-1 played 3..4
p note 7 -> 1-1 entry 2 at 4: refused with cause 0a
p note 8 -> 1-2 played 3..4
p note 9 -> 1-2 entry 2 at 4: refused with cause 0a
";

/// What a desk cannot do is refused.
const REFUSALS: &str = "
# Octets that are no message, an extended channel, and a reply.
desk 4 1-1
p orders 0 octets 07000000 -> Wire(Cause(4)): order was refused
p orders 0 octets 0700000000 -> Wire(TrailingBytes): order was refused
p orders 0 octets 0400000e0e -> Wire(Truncated): order was refused
p orders 0 octets 040000100e111202001004000501000100011201 -> Cause(12): order was refused
p orders 0 octets 050000060e1112020010 -> Cause(4): order was refused
p note all -> 0 notes
close -> 4 slots, 1-1; 1-1: log of 0, clock at 0, air

# A cell of another desk.
desk 4 1-1
p plays 9-9 2 -> Unknown: order was refused
p asks 9-9 4370 0001 -> Unknown: order was refused
p orders 2 write 4370 0010 normal 2 9-9 -> 0300000f0e1112030010090006010009000903
p note all -> 0 notes
close -> 4 slots, 1-1; 1-1: log of 0, clock at 0, air

# A log has room for 4,096 entries; the slots before an order are played also if it is refused.
desk 2 1-1
q asks-often 4096 1-1 1 0001 -> Unknown
p orders 1 kill 4370 0010 1-1 -> 0600000f0e1112020010090006010001000108
p asks 1-1 1 0001 -> Full: order was refused
p note all -> 3 notes
p note 0 -> 1-1 played 0..1
p note 1 -> 1-1 full
p note 2 -> 1-1 full

# What it says if it can do nothing for want of memory.
fault 3 -> Memory { done: 3 }: out of memory
";

/// Plays and statuses are noted.
const PLAYS: &str = "
# A play ends where the run does, and it is noted also if it has no slot. A message that was never accepted is unknown.
desk 4 1-1
p plays 1-1 2 -> 0..2
p asks 1-1 4370 0001 -> Unknown
p plays 1-1 9 -> 2..4
p plays 1-1 1 -> 4..4
p note all -> 4 notes
p note 0 -> 1-1 played 0..2
p note 1 -> 1-1 entry 0 at 2: Unknown
p note 2 -> 1-1 played 2..4
p note 3 -> 1-1 played 4..4

# What was aired is taken out in pieces, which are no entries and aren't noted. What wasn't played isn't there.
desk 8 1-1,1-2
p orders 0 write 4370 0010 normal 2 1-2 -> 0200000e0e11120300100400050100010002
p plays 1-2 3 -> 0..3
piece 1-2 0 8 -> 1-2 from 0: 0010 - 0010
piece 1-2 1 1 -> 1-2 from 1: -
piece 1-2 3 8 -> 1-2 from 3:
piece 1-1 0 8 -> 1-1 from 0:
piece 9-9 0 8 -> Unknown: order was refused
p note all -> 2 notes
p asks 1-2 4370 0010 -> Told { completed: 2, state: Standing }
p note 2 -> 1-2 entry 1 at 3: Told { completed: 2, state: Standing }

# A play of no slots is at the clock.
desk 4 1-1
p plays 1-1 0 -> 0..0
p plays 1-1 3 -> 0..3
p plays 1-1 0 -> 3..3
p note all -> 3 notes
p note 0 -> 1-1 played 0..0
p note 1 -> 1-1 played 0..3
p note 2 -> 1-1 played 3..3

# A desk has its cells in the order in which they were given, and its slots.
desk 65535 1-2,1-1,2-1
shows -> 65535 slots, 1-2 1-1 2-1
p note all -> 0 notes
close -> 65535 slots, 1-2 1-1 2-1; \
    1-2: log of 0, clock at 0, air; 1-1: log of 0, clock at 0, air; 2-1: log of 0, clock at 0, air
";

#[test]
fn an_order_is_carried_out_in_its_cells_from_its_slot_on(rt: HostRuntime) -> Result<(), Fail> {
    expect_rows(&rt, ORDERS, 33)?;
    expect_rows(&rt, REPLACEMENTS, 33)?;
    expect_rows(&rt, REFUSALS, 23)
}

#[test]
fn plays_and_statuses_are_noted(rt: HostRuntime) -> Result<(), Fail> {
    expect_rows(&rt, PLAYS, 33)
}
