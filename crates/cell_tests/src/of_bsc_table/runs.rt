//! Runs of a book as tables: a line for each command, what it answers, and what the cell airs.
//!
//! `air` has a word for each slot: `4/2` is page 2 of the message that entry 4 of the log accepted, and `-` is nothing.

use crate::of_bsc_table::runs_table::expect_rows;
use std::test::Fail;

/// What is aired, and until when a load is reserved.
const AIRS: &str = "
# The message that is due first is aired first.
cell 1-1 8
write 0001 every 2 -> started at 0
write 0002 every 4 pages 2 -> started at 0
play 4 -> 0..4
status 0001 -> 2 standing
status 0002 -> 1 standing
status 0003 -> unknown
air -> 0/1 1/1 0/1 1/2
log -> 2 entries

# Two pages don't fit into a period of one slot.
cell 1-1 8
write 0001 every 1 pages 2 -> refused: bsc capacity exceeded
log -> 1 entries

# A load stays until the period of the stop is over.
cell 1-1 8
write 0001 every 2 -> started at 0
write 0002 every 4 pages 2 -> started at 0
play 3 -> 0..3
kill 0002 -> stopped, 0 completed
write 0003 every 4 pages 2 -> refused: bsc capacity exceeded
play 1 -> 3..4
write 0003 every 4 pages 2 -> started at 4
ask 0002 -> 0 stopped at 3
play 9 -> 4..8
air -> 0/1 1/1 0/1 - 0/1 4/1 0/1 4/2
log -> 6 entries
entry 3 -> at 3, refused: bsc capacity exceeded

# A stop on the boundary frees the load at once.
cell 1-1 4
write 0007 every 2 pages 2 -> started at 0
kill 0007 -> stopped, 0 completed
kill 0007 -> refused: message reference not identified
write 0007 every 2 pages 2 -> refused: message reference already used
write 0008 every 2 pages 2 -> started at 0
write 0009 every 1024 -> refused: bsc capacity exceeded

# Requested broadcasts run out.
cell 1-1 10
write 0009 every 3 times 2 -> started at 0
play 5 -> 0..5
kill 0009 -> stopped, 2 completed

cell 1-1 10
write 0009 every 3 times 2 -> started at 0
play 5 -> 0..5
write 0001 every 1 -> refused: bsc capacity exceeded
play 1 -> 5..6
status 0009 -> 2 ran out
kill 0009 -> refused: message reference not identified
write 0001 every 1 -> started at 6
play 4 -> 6..10
air -> 0/1 - - 0/1 - - 3/1 3/1 3/1 3/1

# Pairs that come in no order, with refusals between: each is found by its pair, and stopped by its number.
cell 1-1 8
write 0005 every 8 -> started at 0
kill 0004 -> refused: message reference not identified
write 0003 every 8 -> started at 0
write 0005 every 8 -> refused: message reference already used
write 0007 every 8 -> started at 0
write 0001 every 8 -> started at 0
play 2 -> 0..2
kill 0007 -> stopped, 0 completed
kill 0005 -> stopped, 1 completed
kill 0003 -> stopped, 1 completed
kill 0001 -> stopped, 0 completed
kill 0003 -> refused: message reference not identified
air -> 0/1 2/1

# A pair goes right behind the replaced one, before it or far behind it, or was taken: there, by itself or elsewhere.
cell 1-1 8
write 0005 every 8 -> started at 0
write 0009 every 8 -> started at 0
write 0006 for 0005 every 8 -> replaced at 0, 0 completed
write 0009 for 0006 every 8 -> refused: message reference already used
write 0006 for 0006 every 8 -> refused: message reference already used
write 0003 for 0006 every 8 -> replaced at 0, 0 completed
write 000C for 0003 every 8 -> replaced at 0, 0 completed
write 0006 for 000C every 8 -> refused: message reference already used
write 000D for 0006 every 8 -> refused: message reference not identified
play 2 -> 0..2
status 0003 -> 0 stopped at 0
status 0005 -> 0 stopped at 0
status 0006 -> 0 stopped at 0
status 000D -> unknown
kill 0009 -> stopped, 1 completed
kill 000C -> stopped, 1 completed
air -> 1/1 6/1

# High comes before normal.
cell 1-1 2
write 0001 every 2 -> started at 0
write 0002 high every 2 -> started at 0
play 2 -> 0..2
air -> 1/1 0/1

# A load that isn't free yet guards the others.
cell 1-1 4
write 0001 every 4 pages 2 -> started at 0
write 0002 high every 2 -> started at 0
play 1 -> 0..1
kill 0002 -> stopped, 1 completed
write 0003 high every 2 -> refused: bsc capacity exceeded
play 3 -> 1..4
status 0001 -> 1 standing
air -> 1/1 0/1 0/2 -
";

/// Replacements that wait for the slots of an older message.
const TAKEOVERS: &str = "
# A replacement at the end of a period starts at once, and one within the period waits for its end.
cell 1-1 6
write 0001 every 6 -> started at 0
write 0002 every 3 -> started at 0
write 0003 every 2 -> started at 0
play 3 -> 0..3
write 0004 for 0002 every 3 -> replaced at 3, 1 completed
play 6 -> 3..6
air -> 2/1 1/1 2/1 0/1 2/1 3/1

cell 1-1 6
write 0001 every 6 -> started at 0
write 0002 every 3 -> started at 0
write 0003 every 2 -> started at 0
play 4 -> 0..4
write 0004 for 0002 every 3 -> replaced at 6, 1 completed
play 6 -> 4..6
air -> 2/1 1/1 2/1 0/1 2/1 -

# A refused replacement leaves the old message.
cell 1-1 8
write 0001 every 2 -> started at 0
write 0002 every 4 pages 2 -> started at 0
play 3 -> 0..3
write 0003 for 0002 every 4 pages 3 -> refused: bsc capacity exceeded
status 0002 -> 0 standing
status 0003 -> unknown
play 1 -> 3..4
write 0003 for 0002 every 4 pages 2 -> replaced at 4, 1 completed
status 0002 -> 1 stopped at 4
kill 0002 -> refused: message reference not identified

# A replacement waits, and may be replaced again.
cell 1-1 8
write 0001 every 4 -> started at 0
write 0002 every 4 pages 3 -> started at 0
play 1 -> 0..1
write 0003 for 0001 every 4 -> replaced at 4, 1 completed
status 0003 -> 0 standing
play 1 -> 1..2
write 0004 for 0003 every 2 -> refused: bsc capacity exceeded
play 1 -> 2..3
write 0005 for 0003 every 4 -> replaced at 4, 0 completed
play 5 -> 3..8
status 0001 -> 1 stopped at 1
status 0002 -> 2 standing
status 0003 -> 0 stopped at 3
status 0004 -> unknown
status 0005 -> 1 standing
air -> 0/1 1/1 1/2 1/3 1/1 1/2 1/3 4/1

# What a load has over the old one is reserved at once.
cell 1-1 8
write 0001 every 4 -> started at 0
write 0002 every 2 -> started at 0
play 1 -> 0..1
write 0003 for 0001 every 2 -> replaced at 4, 0 completed
play 1 -> 1..2
write 0004 every 4 -> refused: bsc capacity exceeded
play 6 -> 2..8
status 0001 -> 0 stopped at 1
status 0002 -> 4 standing
status 0003 -> 2 standing
air -> 1/1 - 1/1 - 1/1 2/1 1/1 2/1

# A replacement that fits starts at once.
cell 1-1 4
write 0001 every 4 -> started at 0
write 0002 every 2 -> started at 0
play 1 -> 0..1
write 0003 for 0001 every 2 -> replaced at 4, 0 completed
play 1 -> 1..2
write 0005 for 0003 every 4 -> replaced at 2, 0 completed
play 2 -> 2..4
status 0005 -> 1 standing
air -> 1/1 - 1/1 3/1

# One of two halves is handed over.
cell 1-1 4
write 0001 every 2 -> started at 0
write 0002 every 2 -> started at 0
play 1 -> 0..1
write 0003 for 0001 every 2 pages 2 -> refused: bsc capacity exceeded
status 0001 -> 1 standing
write 0003 for 0001 every 2 -> replaced at 2, 1 completed
play 3 -> 1..4
status 0001 -> 1 stopped at 1
status 0002 -> 2 standing
status 0003 -> 1 standing
air -> 0/1 1/1 1/1 3/1

# A message that is killed while it waits was never broadcast.
cell 1-1 8
write 0001 every 4 -> started at 0
write 0002 every 4 pages 3 -> started at 0
play 1 -> 0..1
write 0003 for 0001 every 4 -> replaced at 4, 1 completed
play 2 -> 1..3
kill 0003 -> stopped, 0 completed
kill 0003 -> refused: message reference not identified
write 0004 for 0003 every 4 -> refused: message reference not identified
write 0004 every 4 -> refused: bsc capacity exceeded
play 1 -> 3..4
write 0004 every 4 -> started at 4
play 4 -> 4..8
status 0003 -> 0 stopped at 3
status 0004 -> 1 standing

# A start past the run airs nothing.
cell 1-1 3
write 0001 every 4 -> started at 0
write 0002 every 4 pages 3 -> started at 0
play 1 -> 0..1
write 0003 for 0001 every 4 -> replaced at 4, 1 completed
play 2 -> 1..3
status 0003 -> 0 standing
air -> 0/1 1/1 1/2

# One that waits is among the 64 that a cell reserves.
cell 1-1 3
writes 62 every 1024 -> started at 0
write 0064 every 2 -> started at 0
play 1 -> 0..1
write 0065 for 0064 every 2 -> replaced at 2, 1 completed
write 0066 for 0005 every 2 -> refused: cell memory exceeded
write 0066 for 0065 every 2 -> replaced at 2, 0 completed
";

/// Background messages: aired where nothing else is pending, and accepted without room.
const BACKGROUND: &str = "
# Background is aired between normal pages.
cell 1-1 8
write 0001 every 2 -> started at 0
write 0002 background every 4 pages 2 -> started at 0
play 8 -> 0..8
status 0001 -> 4 standing
status 0002 -> 2 standing
air -> 0/1 1/1 0/1 1/2 0/1 1/1 0/1 1/2

# It needs no room, and drops what is due.
cell 1-1 8
write 0001 every 1 -> started at 0
write 0002 background every 4 pages 2 -> started at 0
play 3 -> 0..3
kill 0001 -> stopped, 3 completed
play 5 -> 3..8
status 0002 -> 1 standing
air -> 0/1 0/1 0/1 1/1 1/1 1/2 - -

# Nothing takes over from it.
cell 1-1 4
write 0001 every 2 pages 2 -> started at 0
write 0002 background every 4 pages 2 -> started at 0
play 1 -> 0..1
write 0003 for 0002 every 4 pages 2 -> refused: bsc capacity exceeded
write 0004 for 0002 background every 4 -> replaced at 1, 0 completed
write 0002 background every 4 -> refused: message reference already used
write 0005 for 0002 background every 4 -> refused: message reference not identified
play 1 -> 1..2
write 0006 for 0001 background every 4 -> replaced at 2, 1 completed
write 0007 for 0004 every 2 pages 2 -> replaced at 2, 0 completed
play 2 -> 2..4
status 0007 -> 1 standing

# It replaces a message that waits, whose excess is free at once. The one behind which that waited stays reserved.
cell 1-1 6
write 0001 every 4 -> started at 0
write 0002 every 2 -> started at 0
play 1 -> 0..1
write 0003 for 0001 every 2 -> replaced at 4, 0 completed
play 1 -> 1..2
write 0004 every 4 -> refused: bsc capacity exceeded
write 0005 for 0003 background every 4 -> replaced at 2, 0 completed
write 0006 every 4 -> started at 2
write 0007 every 1024 -> refused: bsc capacity exceeded
play 4 -> 2..6
air -> 1/1 - 1/1 5/1 1/1 4/1
";

/// Each refusal in its place, the limits, and the end of a run.
const REFUSALS: &str = "
# Three thirds fill a cell.
cell 1-1 3
write 0001 every 3 -> started at 0
write 0002 every 3 -> started at 0
write 0003 every 3 -> started at 0
write 0004 every 1024 -> refused: bsc capacity exceeded
kill 0001 -> stopped, 0 completed
write 0004 every 1024 -> started at 0

# A cell reserves 64 messages.
cell 1-1 3
writes 64 every 1024 -> started at 0
write 0040 every 1024 -> refused: cell memory exceeded
write 0040 every 1 -> refused: cell memory exceeded
write 0040 for 003F every 1024 -> replaced at 0, 0 completed

# A log has room for 4,096 entries.
cell 1-1 0
asks 4096 0001 -> unknown
kill 0001 -> refused: bsc memory exceeded
ask 0001 -> refused: bsc memory exceeded
write 0001 every 1 -> refused: bsc memory exceeded
status 0001 -> unknown
log -> 4096 entries

# After the run only a status is answered.
cell 1-1 2
write 0001 every 2 -> started at 0
play 2 -> 0..2
write 0001 every 2 -> refused: cell broadcast not operational
kill 0009 -> refused: cell broadcast not operational
ask 0001 -> 1 standing
ask 0009 -> unknown
log -> 5 entries

# The first cause that applies is told.
cell 1-1 2
write 0001 every 1 -> started at 0
write 0001 for 0009 every 1 -> refused: message reference not identified
write 0001 every 1 -> refused: message reference already used
write 0001 for 0001 every 1 -> refused: message reference already used
write 0002 every 1024 -> refused: bsc capacity exceeded
kill 0002 -> refused: message reference not identified
status 0001 -> 0 standing

# A book without a command plays its slots up to the end.
cell 1-2 8
book -> 1-2, 8 slots, next is 0
play 5 -> 0..5
log -> 0 entries
aired -> 5 slots
play 5 -> 5..8
play 1 -> 8..8
finish -> 1-2, 8 slots, 0 entries, air - - - - - - - -

# A page every second slot of 65,535 is aired in slots 0 to 65,534.
cell 1-1 65535
write 0001 every 2 -> started at 0
play 65534 -> 0..65534
status 0001 -> 32767 standing
write 0002 every 1024 -> started at 65534
play 2 -> 65534..65535
status 0001 -> 32768 standing
status 0002 -> 0 standing
write 0003 every 2 -> refused: cell broadcast not operational
book -> 1-1, 65535 slots, next is 65535
aired -> 65535 slots
";

/// Books that are opened, and commands that are answered, with scarce memory. The fifth entry of a log needs room, and
/// so does the fifth message that is accepted.
const SCARCE: &str = "
# A book of some slots needs room for them, and one of none doesn't.
scarce cell 1-2 100; book; play 3 -> refused; 1-2, 100 slots, next is 0; 0..3
scarce cell 1-2 0; book; play 3 -> 1-2, 0 slots, next is 0; 0..0

# A first message, and a fifth one.
cell 1-1 4; scarce write 0001 every 2; play 4; status 0001; air; log -> \
    refused; started at 0; 0..4; 2 standing; 0/1 - 0/1 -; 1 entries
cell 1-1 8; write 0001 every 8; write 0002 every 8; write 0003 every 8; write 0004 every 8; play 2; \
    scarce write 0005 high every 8 pages 2 times 1; play 6; status 0005; air; log -> \
    refused; started at 0; started at 0; started at 0; started at 0; 0..2; started at 2; 2..8; 1 standing; \
    0/1 1/1 2/1 3/1 4/1 4/2 - -; 5 entries

# A replacement at the end of a period starts at once.
cell 1-1 6; write 0001 every 6; write 0002 every 3; write 0003 every 2; write 0009 background every 6; play 3; \
    scarce write 0004 for 0002 every 3; play 6; status 0002; status 0004; air; log -> \
    refused; started at 0; started at 0; started at 0; started at 0; 0..3; replaced at 3, 1 completed; 3..6; \
    1 stopped at 3; 1 standing; 2/1 1/1 2/1 0/1 2/1 4/1; 5 entries

# One that waits for the end of a period.
cell 1-1 8; write 0001 every 4; write 0002 every 4 pages 3; write 0008 background every 8; \
    write 0009 background every 8; play 1; scarce write 0003 for 0001 every 4; play 7; status 0001; status 0003; \
    status 0009; air; log -> \
    refused; started at 0; started at 0; started at 0; started at 0; 0..1; replaced at 4, 1 completed; 1..8; \
    1 stopped at 1; 1 standing; 0 standing; 0/1 1/1 1/2 1/3 1/1 1/2 1/3 4/1; 5 entries

# The same where the log has room: a first room for a message, and those of a fifth message alone.
cell 1-1 4; ask 0001; scarce write 0001 every 2; play 4; status 0001; air; log -> \
    refused; unknown; started at 0; 0..4; 2 standing; 1/1 - 1/1 -; 2 entries
cell 1-1 8; write 0001 every 8; write 0002 every 8; write 0003 every 8; write 0004 every 8; ask 0005; play 2; \
    scarce write 0005 high every 8 pages 2 times 1; play 6; status 0005; air; log -> \
    refused; started at 0; started at 0; started at 0; started at 0; unknown; 0..2; started at 2; 2..8; 1 standing; \
    0/1 1/1 2/1 3/1 5/1 5/2 - -; 6 entries
cell 1-1 6; write 0001 every 6; write 0002 every 3; write 0003 every 2; write 0009 background every 6; ask 0004; \
    play 3; scarce write 0004 for 0002 every 3; play 6; status 0002; status 0004; air; log -> \
    refused; started at 0; started at 0; started at 0; started at 0; unknown; 0..3; replaced at 3, 1 completed; 3..6; \
    1 stopped at 3; 1 standing; 2/1 1/1 2/1 0/1 2/1 5/1; 6 entries
cell 1-1 8; write 0001 every 4; write 0002 every 4 pages 3; write 0008 background every 8; \
    write 0009 background every 8; ask 0003; play 1; scarce write 0003 for 0001 every 4; play 7; status 0001; \
    status 0003; air; log -> \
    refused; started at 0; started at 0; started at 0; started at 0; unknown; 0..1; replaced at 4, 1 completed; 1..8; \
    1 stopped at 1; 1 standing; 0/1 1/1 1/2 1/3 1/1 1/2 1/3 5/1; 6 entries

# A stop.
cell 1-1 8; write 0001 every 2; write 0002 every 4 pages 2; ask 0001; ask 0003; play 3; scarce kill 0002; play 5; \
    status 0002; air; log -> \
    refused; started at 0; started at 0; 0 standing; unknown; 0..3; stopped, 0 completed; 3..8; 0 stopped at 3; \
    0/1 1/1 0/1 - 0/1 - 0/1 -; 5 entries

# A status, of no message and of one.
cell 1-1 2; scarce ask 0001; log; entry 0 -> refused; unknown; 1 entries; at 0, unknown
cell 1-1 4; write 0001 every 2; asks 3 0002; play 3; scarce ask 0001; log; entry 4 -> \
    refused; started at 0; unknown; 0..3; 2 standing; 5 entries; at 3, 2 standing

# Causes, which have an entry.
cell 1-1 2; scarce kill 0001; entry 0 -> \
    refused; refused: message reference not identified; at 0, refused: message reference not identified
cell 1-1 2; scarce write 0002 for 0001 every 1 pages 3; log; status 0002 -> \
    refused; refused: message reference not identified; 1 entries; unknown
cell 1-1 2; write 0001 every 1; asks 3 0001; scarce write 0002 every 1024; play 2; status 0002; air; log -> \
    refused; started at 0; 0 standing; refused: bsc capacity exceeded; 0..2; unknown; 0/1 0/1; 5 entries
cell 1-1 0; scarce write 0001 every 1; entry 0 -> \
    refused; refused: cell broadcast not operational; at 0, refused: cell broadcast not operational

# A full log needs no memory to say so.
cell 1-1 1; asks 4096 0001; scarce kill 0001; scarce ask 0001; scarce write 0001 every 1; log -> \
    unknown; refused: bsc memory exceeded; refused: bsc memory exceeded; refused: bsc memory exceeded; 4096 entries
";

#[test]
fn books_are_refused_until_there_is_memory(rt: HostRuntime) -> Result<(), Fail> {
    expect_rows(&rt, rt.alloc(), SCARCE, 18)
}

#[test]
fn runs_air_what_was_worked_by_hand(rt: HostRuntime) -> Result<(), Fail> {
    expect_rows(&rt, rt.alloc(), AIRS, 92)?;
    expect_rows(&rt, rt.alloc(), BACKGROUND, 40)
}

#[test]
fn replacements_take_over_in_time(rt: HostRuntime) -> Result<(), Fail> {
    expect_rows(&rt, rt.alloc(), TAKEOVERS, 108)
}

#[test]
fn commands_are_refused_past_each_limit(rt: HostRuntime) -> Result<(), Fail> {
    expect_rows(&rt, rt.alloc(), REFUSALS, 54)
}
