//! Reports of runs, and what handsets show of their blocks, as tables.

use crate::of_report::books::expect_rows;
use std::test::Fail;

/// Runs of two cells, of four slots each. In both message 4370 0010 begins at slot 0, and 4370 0011 replaces it at
/// slot 1; in the second cell message 4371 0020 stands beside it, so that the replacement has to wait for room.
pub const TWO_CELLS: &str = "
cell 1 4; write 4370 0010 - 1 2 0; play 1; write 4370 0011 0010 1 2 0 -> Started { slot: 0 }; 0..1; \
    Replaced { slot: 1, completed: 1 }
cell 2 4; write 4370 0010 - 1 2 0; write 4371 0020 - 1 2 0; play 1; write 4370 0011 0010 1 2 0 -> \
    Started { slot: 0 }; Started { slot: 0 }; 0..1; Replaced { slot: 2, completed: 1 }
read
";

/// The report of the two cells, whole and to writers that fail, and readings of other cells.
const TWO_CELLS_REPORTED: &str = "
cell 1 4; write 4370 0010 - 1 2 0; play 1; write 4370 0011 0010 1 2 0 -> Started { slot: 0 }; 0..1; \
    Replaced { slot: 1, completed: 1 }
cell 2 4; write 4370 0010 - 1 2 0; write 4371 0020 - 1 2 0; play 1; write 4370 0011 0010 1 2 0 -> \
    Started { slot: 0 }; Started { slot: 0 }; 0..1; Replaced { slot: 2, completed: 1 }
read
report -> whole|lac,ci,id,serial,start,end,completed,shown|1,1,4370,0010,0,1,1,yes|1,1,4370,0011,1,4,2,yes\
    |1,2,4370,0010,0,1,1,yes|1,2,4371,0020,0,4,2,yes|1,2,4370,0011,2,4,1,yes|
rows -> 5
# serial number 17 is 0011
row 4 -> Row { entry: 2, lac: 1, ci: 2, id: 4370, serial: Serial { number: 17 }, start: 2, end: 4, completed: 1, \
    shown: Yes, first_shown: Some(3), demand: Some(Demand { pages: 1, period: 2, share: 50 }) }

# the report has 163 octets
writer 10 0 -> WriteFailed, then WriteFailed: 0
writer 10 1 -> WriteFailed, then WriteFailed: 10
writer 10 2 -> WriteFailed, then WriteFailed: 20
writer 10 3 -> WriteFailed, then WriteFailed: 30
writer 10 4 -> WriteFailed, then WriteFailed: 40
writer 10 5 -> WriteFailed, then WriteFailed: 50
writer 10 6 -> WriteFailed, then WriteFailed: 60
writer 10 7 -> WriteFailed, then WriteFailed: 70
writer 10 8 -> WriteFailed, then WriteFailed: 80
writer 10 9 -> WriteFailed, then WriteFailed: 90
writer 10 10 -> WriteFailed, then WriteFailed: 100
writer 10 11 -> WriteFailed, then WriteFailed: 110
writer 10 12 -> WriteFailed, then WriteFailed: 120
writer 10 13 -> WriteFailed, then WriteFailed: 130
writer 10 14 -> WriteFailed, then WriteFailed: 140
writer 10 15 -> WriteFailed, then WriteFailed: 150
writer 10 16 -> WriteFailed, then WriteFailed: 160
writer 10 17 -> whole: 163
writer 10 18 -> whole: 163

# readings in another order
swap
rows -> Cells
# one reading too few, and none
swap
rows -> 5
drop-reading
rows -> Cells
drop-reading
rows -> Cells
# one reading too many
read
drop-run
rows -> Cells
drop-reading
rows -> 2
# a reading of another cell
forget
cell 1 4
cell 2 4
read
drop-run
cell 3 4
rows -> Cells
texts -> cells differ, write failed, out of memory
";

/// The rows of one cell: what was stopped, refused, never started and never shown.
const ONE_CELL: &str = "
# no cells, and a cell that was asked nothing
read
report -> whole|lac,ci,id,serial,start,end,completed,shown|
cell 1 3
read
report -> whole|lac,ci,id,serial,start,end,completed,shown|
forget

# a write for which there is no room
cell 2 4; write 4370 0010 - 1 2 0; write 4371 0020 - 1 2 0; play 1; write 4370 0011 - 1 2 0 -> \
    Started { slot: 0 }; Started { slot: 0 }; 0..1; cause 06
read
report -> whole|lac,ci,id,serial,start,end,completed,shown|1,2,4370,0010,0,4,2,yes|1,2,4371,0020,0,4,2,yes\
    |1,2,4370,0011,1,1,0,refused 06|
forget

# kills end messages, and have rows if they are refused; beside the message one of the same serial number, and one of
# the same identifier
cell 1 8; kill 4370 0010; write 4370 0010 - 1 3 0; write 4371 0010 - 1 4 0; write 4370 0020 - 1 4 0; play 3; \
    kill 4370 0010; play 1; kill 4370 0010; write 4370 0010 - 1 3 0; play 4; kill 4371 0010 -> cause 02; \
    Started { slot: 0 }; Started { slot: 0 }; Started { slot: 0 }; 0..3; Stopped { completed: 1 }; 3..4; \
    cause 02; cause 0d; 4..8; cause 0a
read
report -> whole|lac,ci,id,serial,start,end,completed,shown|1,1,4370,0010,0,0,0,refused 02\
    |1,1,4370,0010,0,3,1,yes|1,1,4371,0010,0,8,2,yes|1,1,4370,0020,0,8,2,yes|1,1,4370,0010,4,4,0,refused 02\
    |1,1,4370,0010,4,4,0,refused 0d|1,1,4371,0010,8,8,0,refused 0a|
forget

# a message that was stopped before its start
cell 1 8; write 4370 0001 - 2 4 0; write 4370 0002 - 2 4 0; play 1; write 4370 0003 0001 2 4 0; play 2; \
    kill 4370 0003 -> Started { slot: 0 }; Started { slot: 0 }; 0..1; Replaced { slot: 4, completed: 0 }; 1..3; \
    Stopped { completed: 0 }
read
report -> whole|lac,ci,id,serial,start,end,completed,shown|1,1,4370,0001,0,1,0,no|1,1,4370,0002,0,8,2,yes\
    |1,1,4370,0003,4,3,0,no|
forget

# a message whose start is past the end
cell 1 2; write 4370 0001 - 2 4 0; write 4370 0002 - 2 4 0; play 1; write 4370 0003 0001 2 4 0 -> \
    Started { slot: 0 }; Started { slot: 0 }; 0..1; Replaced { slot: 4, completed: 0 }
read
report -> whole|lac,ci,id,serial,start,end,completed,shown|1,1,4370,0001,0,1,0,no|1,1,4370,0002,0,2,0,no\
    |1,1,4370,0003,4,2,0,no|
forget

# a message runs out, or the run ends
cell 1 10; write 4370 0010 - 1 3 2; write 4371 ffff - 1 3 65535; play 7; status 4370 0010; kill 4370 0010 -> \
    Started { slot: 0 }; Started { slot: 0 }; 0..7; Told { completed: 2, state: RanOut }; cause 02
read
report -> whole|lac,ci,id,serial,start,end,completed,shown|1,1,4370,0010,0,6,2,yes|1,1,4371,ffff,0,10,4,yes\
    |1,1,4370,0010,7,7,0,refused 02|
";

/// When a handset shows the messages of a run, and how often.
const HEARD: &str = "
# a message of one page in every second slot beside one of two pages in every fourth: each is shown once
cell 1 4; write 4370 0010 - 1 2 0; write 4371 0020 - 2 4 0 -> Started { slot: 0 }; Started { slot: 0 }
heard -> block 4 of slot 0: 4370 0010, block 4 of slot 3: 4371 0020, no more
read
report -> whole|lac,ci,id,serial,start,end,completed,shown|1,1,4370,0010,0,4,2,yes|1,1,4371,0020,0,4,1,yes|
forget

# the same over twice as many slots
cell 1 8; write 4370 0010 - 1 2 0; write 4371 0020 - 2 4 0 -> Started { slot: 0 }; Started { slot: 0 }
heard -> block 4 of slot 0: 4370 0010, block 4 of slot 3: 4371 0020, no more
forget

# the second one is stopped before its second page
cell 1 4; write 4370 0010 - 1 2 0; write 4371 0020 - 2 4 0; play 3; kill 4371 0020 -> Started { slot: 0 }; \
    Started { slot: 0 }; 0..3; Stopped { completed: 0 }
heard -> block 4 of slot 0: 4370 0010, no more
forget

# a message of the background has the slots that no other needs, and is shown once its second page came
cell 1 8; write 4370 0010 - 1 1 0; background 4371 0020 - 2 4 0; play 3; kill 4370 0010 -> Started { slot: 0 }; \
    Started { slot: 0 }; 0..3; Stopped { completed: 3 }
heard -> block 4 of slot 0: 4370 0010, block 4 of slot 5: 4371 0020, no more
forget

# a replacement that would start at the end of the run isn't shown
cell 1 6; write 4370 0010 - 1 6 0; write 4371 0020 - 1 3 0; write 4372 0030 - 1 2 0; play 4; \
    write 4371 0021 0020 1 3 0 -> Started { slot: 0 }; Started { slot: 0 }; Started { slot: 0 }; 0..4; \
    Replaced { slot: 6, completed: 1 }
heard -> block 4 of slot 0: 4372 0030, block 4 of slot 1: 4371 0020, block 4 of slot 3: 4370 0010, no more
forget

# nothing is shown of a cell without orders
cell 1 3
heard -> no more
";

/// Full reports. When a handset shows the messages, the rows of `heard` say.
const FULL: &str = "
# no cells
read
full -> |row,name,lac,ci,id,serial,start,end,completed,shown,first_shown,pages,period,share,cause|
full-part -> |

# of two messages with the same due slot that of the lesser number comes first, so the last one comes in slot 3
cell 1 4; write 4370 0010 - 1 2 0; play 1; write 4370 0011 0010 1 2 0 -> Started { slot: 0 }; 0..1; \
    Replaced { slot: 1, completed: 1 }
heard -> block 4 of slot 0: 4370 0010, block 4 of slot 1: 4370 0011, no more
cell 2 4; write 4370 0010 - 1 2 0; write 4371 0020 - 1 2 0; play 1; write 4370 0011 0010 1 2 0 -> \
    Started { slot: 0 }; Started { slot: 0 }; 0..1; Replaced { slot: 2, completed: 1 }
heard -> block 4 of slot 0: 4370 0010, block 4 of slot 1: 4371 0020, block 4 of slot 3: 4370 0011, no more
read
full -> |row,name,lac,ci,id,serial,start,end,completed,shown,first_shown,pages,period,share,cause\
    |,,1,1,4370,0010,0,1,1,yes,0,1,2,50,|,,1,1,4370,0011,1,4,2,yes,1,1,2,50,\
    |,,1,2,4370,0010,0,1,1,yes,0,1,2,50,|,,1,2,4371,0020,0,4,2,yes,1,1,2,50,|,,1,2,4370,0011,2,4,1,yes,3,1,2,50,|
full-part -> |,,1,1,4370,0010,0,1,1,yes,0,1,2,50,|,,1,1,4370,0011,1,4,2,yes,1,1,2,50,\
    |,,1,2,4370,0010,0,1,1,yes,0,1,2,50,|,,1,2,4371,0020,0,4,2,yes,1,1,2,50,|,,1,2,4370,0011,2,4,1,yes,3,1,2,50,|
# each row is of the order at its entry's place, in its cell; a name is quoted as CSV has it
named 3 fire
named 4 a\"b,c
named 70000 flood
asked 1 0 2
asked 2 0 1
asked 2 2 2 2
full-part -> |3,fire,1,1,4370,0010,0,1,1,yes,0,1,2,50,|70000,flood,1,1,4370,0011,1,4,2,yes,1,1,2,50,\
    |3,fire,1,2,4370,0010,0,1,1,yes,0,1,2,50,|4,\"a\"\"b,c\",1,2,4371,0020,0,4,2,yes,1,1,2,50,\
    |,,1,2,4370,0011,2,4,1,yes,3,1,2,50,|
forget

# refused writes have their pages and their share, which is rounded up; refused kills have none
cell 1 8; kill 4370 0010; write 4370 0010 - 1 3 0; write 4371 0010 - 1 4 0; write 4370 0020 - 1 4 0; play 3; \
    kill 4370 0010; play 1; kill 4370 0010; write 4370 0010 - 2 3 0; play 4; kill 4371 0010 -> cause 02; \
    Started { slot: 0 }; Started { slot: 0 }; Started { slot: 0 }; 0..3; Stopped { completed: 1 }; 3..4; \
    cause 02; cause 0d; 4..8; cause 0a
read
full -> |row,name,lac,ci,id,serial,start,end,completed,shown,first_shown,pages,period,share,cause\
    |,,1,1,4370,0010,0,0,0,refused 02,,,,,message reference not identified\
    |,,1,1,4370,0010,0,3,1,yes,0,1,3,34,|,,1,1,4371,0010,0,8,2,yes,1,1,4,25,|,,1,1,4370,0020,0,8,2,yes,2,1,4,25,\
    |,,1,1,4370,0010,4,4,0,refused 02,,,,,message reference not identified\
    |,,1,1,4370,0010,4,4,0,refused 0d,,2,3,67,message reference already used\
    |,,1,1,4371,0010,8,8,0,refused 0a,,,,,cell broadcast not operational|
forget

# a message of which no broadcast is whole is shown after no slot; one of two pages after the slot of its second page
cell 1 8; write 4370 0001 - 2 4 0; write 4370 0002 - 2 4 0; play 1; write 4370 0003 0001 2 4 0; play 2; \
    kill 4370 0003 -> Started { slot: 0 }; Started { slot: 0 }; 0..1; Replaced { slot: 4, completed: 0 }; 1..3; \
    Stopped { completed: 0 }
read
full-part -> |,,1,1,4370,0001,0,1,0,no,,2,4,50,|,,1,1,4370,0002,0,8,2,yes,2,2,4,50,|,,1,1,4370,0003,4,3,0,no,,2,4,50,|
forget

# no room; background messages reserve nothing, and are shown late
cell 1 8; write 4370 0010 - 1 1 0; write 4371 0021 - 2 1 0; background 4371 0020 - 2 4 0; play 3; kill 4370 0010 -> \
    Started { slot: 0 }; cause 06; Started { slot: 0 }; 0..3; Stopped { completed: 3 }
heard -> block 4 of slot 0: 4370 0010, block 4 of slot 5: 4371 0020, no more
read
full-part -> |,,1,1,4370,0010,0,3,3,yes,0,1,1,100,|,,1,1,4371,0021,0,0,0,refused 06,,2,1,200,BSC capacity exceeded\
    |,,1,1,4371,0020,0,8,1,yes,5,2,4,0,|
forget

# the least share, and the most slots: the first broadcast of one whose period is the longest comes late
cell 1 65535; write 4370 0010 - 1 1024 1 -> Started { slot: 0 }
read
full-part -> |,,1,1,4370,0010,0,1024,1,yes,0,1,1024,1,|
";

/// Reports with times, from Python's datetime and fractions: of cells that begin at 2026-11-29T18:30:00Z, and at the
/// last microsecond before a leap day.
const TIMES: &str = "
# no cells
read
times 0 -> |lac,ci,id,serial,start,end,completed,shown,start_time,end_time|
full-times 0 -> \
    |row,name,lac,ci,id,serial,start,end,completed,shown,first_shown,pages,period,share,cause,start_time,end_time,\
    first_shown_time\
    |
times-part 0 -> |
full-times-part 0 -> |
# there is no such start
times 4291747200000000 -> no start

# the cells of the full report
cell 1 4; write 4370 0010 - 1 2 0; play 1; write 4370 0011 0010 1 2 0 -> Started { slot: 0 }; 0..1; \
    Replaced { slot: 1, completed: 1 }
cell 2 4; write 4370 0010 - 1 2 0; write 4371 0020 - 1 2 0; play 1; write 4370 0011 0010 1 2 0 -> \
    Started { slot: 0 }; Started { slot: 0 }; 0..1; Replaced { slot: 2, completed: 1 }
read
times 1795977000000000 -> |lac,ci,id,serial,start,end,completed,shown,start_time,end_time\
    |1,1,4370,0010,0,1,1,yes,2026-11-29T18:30:00.000Z,2026-11-29T18:30:01.883Z\
    |1,1,4370,0011,1,4,2,yes,2026-11-29T18:30:01.883Z,2026-11-29T18:30:07.532Z\
    |1,2,4370,0010,0,1,1,yes,2026-11-29T18:30:00.000Z,2026-11-29T18:30:01.883Z\
    |1,2,4371,0020,0,4,2,yes,2026-11-29T18:30:00.000Z,2026-11-29T18:30:07.532Z\
    |1,2,4370,0011,2,4,1,yes,2026-11-29T18:30:03.766Z,2026-11-29T18:30:07.532Z|
named 2 fire
asked 1 0 7
full-times-part 1795977000000000 -> \
    |2,fire,1,1,4370,0010,0,1,1,yes,0,1,2,50,,2026-11-29T18:30:00.000Z,2026-11-29T18:30:01.883Z,\
    2026-11-29T18:30:01.883Z\
    |,,1,1,4370,0011,1,4,2,yes,1,1,2,50,,2026-11-29T18:30:01.883Z,2026-11-29T18:30:07.532Z,2026-11-29T18:30:03.766Z\
    |,,1,2,4370,0010,0,1,1,yes,0,1,2,50,,2026-11-29T18:30:00.000Z,2026-11-29T18:30:01.883Z,2026-11-29T18:30:01.883Z\
    |,,1,2,4371,0020,0,4,2,yes,1,1,2,50,,2026-11-29T18:30:00.000Z,2026-11-29T18:30:07.532Z,2026-11-29T18:30:03.766Z\
    |,,1,2,4370,0011,2,4,1,yes,3,1,2,50,,2026-11-29T18:30:03.766Z,2026-11-29T18:30:07.532Z,2026-11-29T18:30:07.532Z|
times-part 1709164799999999 -> |1,1,4370,0010,0,1,1,yes,2024-02-28T23:59:59.999Z,2024-02-29T00:00:01.883Z\
    |1,1,4370,0011,1,4,2,yes,2024-02-29T00:00:01.883Z,2024-02-29T00:00:07.532Z\
    |1,2,4370,0010,0,1,1,yes,2024-02-28T23:59:59.999Z,2024-02-29T00:00:01.883Z\
    |1,2,4371,0020,0,4,2,yes,2024-02-28T23:59:59.999Z,2024-02-29T00:00:07.532Z\
    |1,2,4370,0011,2,4,1,yes,2024-02-29T00:00:03.766Z,2024-02-29T00:00:07.532Z|
forget

# a message that is never shown, and one whose start is past the end, which then has its time, too
cell 1 2; write 4370 0001 - 2 4 0; write 4370 0002 - 2 4 0; play 1; write 4370 0003 0001 2 4 0 -> \
    Started { slot: 0 }; Started { slot: 0 }; 0..1; Replaced { slot: 4, completed: 0 }
read
full-times 1795977000000000 -> \
    |row,name,lac,ci,id,serial,start,end,completed,shown,first_shown,pages,period,share,cause,start_time,end_time,\
    first_shown_time\
    |,,1,1,4370,0001,0,1,0,no,,2,4,50,,2026-11-29T18:30:00.000Z,2026-11-29T18:30:01.883Z,\
    |,,1,1,4370,0002,0,2,0,no,,2,4,50,,2026-11-29T18:30:00.000Z,2026-11-29T18:30:03.766Z,\
    |,,1,1,4370,0003,4,2,0,no,,2,4,50,,2026-11-29T18:30:07.532Z,2026-11-29T18:30:03.766Z,|
times-part 1795977000000000 -> |1,1,4370,0001,0,1,0,no,2026-11-29T18:30:00.000Z,2026-11-29T18:30:01.883Z\
    |1,1,4370,0002,0,2,0,no,2026-11-29T18:30:00.000Z,2026-11-29T18:30:03.766Z\
    |1,1,4370,0003,4,2,0,no,2026-11-29T18:30:07.532Z,2026-11-29T18:30:03.766Z|
forget

# what was refused begins and ends at the slot of the answer
cell 1 3; play 2; kill 4370 0010 -> 0..2; cause 02
read
full-times-part 1795977000000000 -> \
    |,,1,1,4370,0010,2,2,0,refused 02,,,,,message reference not identified,2026-11-29T18:30:03.766Z,\
    2026-11-29T18:30:03.766Z,\
    |
times-part 1795977000000000 -> |1,1,4370,0010,2,2,0,refused 02,2026-11-29T18:30:03.766Z,2026-11-29T18:30:03.766Z|
forget

# the longest run
cell 1 65535; write 4370 0010 - 1 1024 0 -> Started { slot: 0 }
read
full-times-part 4291747199999999 -> \
    |,,1,1,4370,0010,0,65535,64,yes,0,1,1024,1,,2105-12-31T23:59:59.999Z,2106-01-02T10:16:47.446Z,\
    2106-01-01T00:00:01.883Z\
    |
";

/// A full log, and the most slots.
const LONG: &str = "
cell 1 65535; fill 2048 60 -> 60 started, 4036 cause 02
read
rows -> 4096
# each of the first four is aired in 1,093 slots, which are 60 apart
report -> whole|lac,ci,id,serial,start,end,completed,shown\
    |1,1,0,0001,0,65535,1093,yes|1,1,0,0003,0,0,0,refused 02|1,1,1,0001,0,65535,1093,yes|1,1,1,0003,0,0,0,refused 02\
    |1,1,2,0001,0,65535,1093,yes|1,1,2,0003,0,0,0,refused 02|1,1,3,0001,0,65535,1093,yes|1,1,3,0003,0,0,0,refused 02
";

/// Causes in words: those of the standard with which an order is refused, and others.
const CAUSES: &str = "
cause 00 -> parameter not recognised
cause 01 -> parameter value invalid
cause 02 -> message reference not identified
cause 03 -> cell identity not valid
cause 04 -> unrecognised message
cause 05 -> missing mandatory element
cause 06 -> BSC capacity exceeded
cause 07 -> cell memory exceeded
cause 08 -> BSC memory exceeded
cause 09 -> another cause
cause 0a -> cell broadcast not operational
cause 0b -> another cause
cause 0c -> extended channel not supported
cause 0d -> message reference already used
cause 0e -> another cause
cause ff -> another cause
";

#[test]
fn the_report_of_two_cells_goes_out_whole_or_in_front(rt: HostRuntime) -> Result<(), Fail> {
    expect_rows(&rt, rt.alloc(), TWO_CELLS_REPORTED, 46)
}

#[test]
fn rows_say_what_became_of_each_order_of_a_cell(rt: HostRuntime) -> Result<(), Fail> {
    expect_rows(&rt, rt.alloc(), ONE_CELL, 25)?;
    expect_rows(&rt, rt.alloc(), LONG, 4)?;
    expect_rows(&rt, rt.alloc(), HEARD, 19)
}

#[test]
fn full_reports_have_more_columns(rt: HostRuntime) -> Result<(), Fail> {
    expect_rows(&rt, rt.alloc(), FULL, 34)
}

#[test]
fn reports_have_times(rt: HostRuntime) -> Result<(), Fail> {
    expect_rows(&rt, rt.alloc(), TIMES, 28)
}

#[test]
fn causes_have_words(rt: HostRuntime) -> Result<(), Fail> {
    expect_rows(&rt, rt.alloc(), CAUSES, 16)
}
