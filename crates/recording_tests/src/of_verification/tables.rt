//! Tapes that keep what was asked, and tapes that don't, by hand.

use crate::of_verification::cells::expect_lines;
use std::test::Fail;

/// A message of two pages, twice in a run of 10 slots: its own tape, and changed ones.
const TWO_PAGES: &str = "
cell 7 10
write 4370 0010 - normal 4 2 AB/CD -> Started { slot: 0 }
end
tape
found -> none

# the same tape by hand: the pages stand in slots 0, 1, 4 and 5
blank
send 4370 0010 en 1 2 AB
send 4370 0010 en 2 2 CD
idle 2
send 4370 0010 en 1 2 AB
send 4370 0010 en 2 2 CD
idle 4
found -> none

# one octet of the text of the second page in slot 1: block 5 is the page's second block
tape
octet 4 7 00
found -> 1,7,4370,0010,1,page 2 reads otherwise
next -> 1,7,4370,0010,4,broadcast 0 not whole
next -> none

# silence in slot 5, and a page too late in slot 9
tape
swap 5 9
found -> 1,7,4370,0010,8,broadcast 1 not whole
next -> 1,7,4370,0010,9,after its last broadcast
next -> none
";

/// Pages that come again: each is to come once in the period of a broadcast, and counts where the first one does that
/// comes again.
const AGAIN: &str = "
cell 7 12
write 4370 0010 - normal 4 2 AB/CD -> Started { slot: 0 }
end
blank
send 4370 0010 en 1 2 AB
send 4370 0010 en 2 2 CD
send 4370 0010 en 1 2 AB
idle 1
send 4370 0010 en 1 2 AB
send 4370 0010 en 2 2 CD
send 4370 0010 en 2 2 CD
send 4370 0010 en 1 2 AB
idle 4
found -> 1,7,4370,0010,2,broadcast 0 again
next -> 1,7,4370,0010,6,broadcast 1 again
next -> none

# a page that reads otherwise is none that comes again, before or after the right one; and after the last broadcast
# none comes again
blank
send 4370 0010 en 1 2 AX
send 4370 0010 en 1 2 AB
send 4370 0010 en 1 2 AX
send 4370 0010 en 2 2 CD
send 4370 0010 en 1 2 AB
send 4370 0010 en 2 2 CD
idle 2
send 4370 0010 en 1 2 AB
send 4370 0010 en 1 2 AB
idle 2
found -> 1,7,4370,0010,0,page 1 reads otherwise
next -> 1,7,4370,0010,8,after its last broadcast
next -> none

# twice as often as it was asked, without an end: in each period, and in that which the run cuts, too
cell 8 7
write 4371 0020 - normal 4 0 X -> Started { slot: 0 }
end
blank
send 4371 0020 en 1 1 X
idle 1
send 4371 0020 en 1 1 X
idle 1
send 4371 0020 en 1 1 X
idle 1
send 4371 0020 en 1 1 X
found -> 1,8,4371,0020,2,broadcast 0 again
next -> 1,8,4371,0020,6,broadcast 1 again
next -> none

# a page at the stop is after it, and comes not again; before the start no broadcast has its period
cell 9 8
play 2
write 4371 0021 - high 2 0 X -> Started { slot: 2 }
play 3
kill 4371 0021 -> Stopped { completed: 2 }
end
blank
send 4371 0021 en 1 1 X
send 4371 0021 en 1 1 X
send 4371 0021 en 1 1 X
idle 1
send 4371 0021 en 1 1 X
send 4371 0021 en 1 1 X
idle 2
found -> 1,9,4371,0021,0,before its start
next -> 1,9,4371,0021,5,after its stop
next -> none

# background has no periods of its own, and comes as often as there is room
cell 10 4
write 4372 0030 - background 4 1 B -> Started { slot: 0 }
end
blank
send 4372 0030 en 1 1 B
send 4372 0030 en 1 1 B
send 4372 0030 en 1 1 B
idle 1
found -> none
";

/// A message that is killed at slot 5, one that starts at slot 6, and names that the cell doesn't know.
const STARTS_AND_STOPS: &str = "
cell 8 12
write 4371 0020 - normal 2 0 X -> Started { slot: 0 }
play 5
kill 4371 0020 -> Stopped { completed: 3 }
play 1
write 4371 0021 - normal 3 2 Y -> Started { slot: 6 }
end
tape
found -> none

# the second message too early, and the first too late: of its broadcasts those due by slot 5 are owed
blank
idle 5
send 4371 0021 en 1 1 Y
send 4371 0020 en 1 1 X
idle 5
found -> 1,8,4371,0020,2,broadcast 0 not whole
next -> 1,8,4371,0020,4,broadcast 1 not whole
next -> 1,8,4371,0021,5,before its start
next -> 1,8,4371,0020,6,after its stop
next -> 1,8,4371,0021,9,broadcast 0 not whole
next -> 1,8,4371,0021,12,broadcast 1 not whole
next -> none

# pages that stand across slots belong to the slot of their first block
blank
send 4371 0020 en 1 1 X
idle 1
block
send 4371 0020 en 1 1 X
idle 1
send 4371 0020 en 1 1 X
idle 1
send 4371 0021 en 1 1 Y
idle 2
send 4371 0021 en 1 1 Y
idle 2
found -> none

# another serial number and another identifier, each reported once
tape
swap 1 11
found -> none
blank
send 4371 0020 en 1 1 X
send 4371 0022 en 1 1 X
send 4371 0020 en 1 1 X
send 4371 0022 en 1 2 Z
send 4371 0020 en 1 1 X
send 4370 0020 en 1 1 X
send 4371 0021 en 1 1 Y
idle 2
send 4371 0021 en 1 1 Y
idle 2
found -> 1,8,4371,0022,1,not ordered
next -> 1,8,4370,0020,5,not ordered
next -> none

# a message that isn't ordered is told before one of a greater identifier, and after one of a smaller one
blank
idle 2
send 4372 0020 en 1 1 X
idle 9
found -> 1,8,4371,0020,2,broadcast 0 not whole
next -> 1,8,4372,0020,2,not ordered
next -> 1,8,4371,0020,4,broadcast 1 not whole
next -> 1,8,4371,0021,9,broadcast 0 not whole
next -> 1,8,4371,0021,12,broadcast 1 not whole
next -> none
";

/// What a page may say otherwise: its total, its data coding, its number and its text, also so that no phone can show
/// it; and what is no difference.
const OTHERWISE: &str = "
cell 9 8
write 4370 0010 - high 4 2 A/B -> Started { slot: 0 }
end
blank
send 4370 0010 en 1 3 A
send 4370 0010 de 2 2 B
send 4370 0010 en 1 2 A
send 4370 0010 en 2 2 B
send 4370 0010 en 1 2 B
send 4370 0010 en 2 2 A
send 4370 0010 en 3 3 A
send 4370 0010 en 1 2 A
found -> 1,9,4370,0010,0,page 1 reads otherwise
next -> 1,9,4370,0010,1,page 2 reads otherwise
next -> 1,9,4370,0010,6,page 3 reads otherwise
next -> 1,9,4370,0010,8,broadcast 1 not whole
next -> none

# the spare bits of a page's last octet show nothing
tape
octet 3 22 F8
found -> none

# page 3 of 2, page 2 in a reserved data coding, a page parameter whose high half is 0, and a block of another type
octet 4 6 32
found -> 1,9,4370,0010,1,page 3 reads otherwise
next -> 1,9,4370,0010,4,broadcast 0 not whole
next -> none
octet 4 6 22
octet 4 5 F4
found -> 1,9,4370,0010,1,page 2 reads otherwise
next -> 1,9,4370,0010,4,broadcast 0 not whole
next -> none
octet 4 5 01
octet 4 6 02
found -> 1,9,4370,0010,1,page 1 reads otherwise
next -> 1,9,4370,0010,4,broadcast 0 not whole
next -> none
octet 4 6 22
octet 4 0 21
found -> 1,9,4370,0010,4,broadcast 0 not whole
next -> none
octet 4 0 20
found -> none

# the whole message, and pages of others in a reserved data coding and with a number over the total; the message's own
# page in a reserved data coding after its last broadcast
blank
send 4370 0010 en 1 2 A
send 4370 0010 en 2 2 B
send 4370 0011 en 1 1 A
send 4370 0012 en 1 1 A
send 4370 0010 en 1 2 A
send 4370 0010 en 2 2 B
send 4371 0010 en 1 1 A
idle 1
send 4370 0010 en 1 2 A
octet 8 5 F4
octet 12 6 21
octet 24 5 80
octet 32 5 1A
found -> 1,9,4370,0011,2,not ordered
next -> 1,9,4370,0012,3,not ordered
next -> 1,9,4371,0010,6,not ordered
next -> 1,9,4370,0010,8,page 1 reads otherwise
next -> 1,9,4370,0010,8,after its last broadcast
next -> none
";

/// Messages of which fewer broadcasts are owed: background, a stop at a due slot, and a run that ends too soon.
const OWED: &str = "
cell 3 8
write 4372 0030 - background 2 2 B -> Started { slot: 0 }
end
tape
found -> none
silence 0
silence 2
found -> none
blank
idle 4
send 4372 0030 en 1 1 B
idle 3
found -> 1,3,4372,0030,4,after its last broadcast
next -> none

# stopped at slot 4, at which its second broadcast is due: that one is owed still; after its last broadcast it is
# stopped
cell 4 8
write 4372 0031 - normal 2 3 N -> Started { slot: 0 }
play 4
kill 4372 0031 -> Stopped { completed: 2 }
end
tape
silence 2
found -> 1,4,4372,0031,4,broadcast 1 not whole
next -> none
tape
swap 0 7
found -> 1,4,4372,0031,2,broadcast 0 not whole
next -> 1,4,4372,0031,7,after its stop
next -> none

# the run ends at the due slot of the first broadcast, and one slot before that of the second
cell 5 5
write 4372 0032 - normal 3 0 N -> Started { slot: 0 }
end
tape
swap 0 1
swap 3 4
found -> none
silence 4
found -> none
silence 1
found -> 1,5,4372,0032,3,broadcast 0 not whole
next -> none

# a replacement that waits up to slot 4, sent at slot 3
cell 6 8
write 4373 0040 - normal 4 0 O -> Started { slot: 0 }
play 2
write 4373 0041 0040 normal 1 2 P -> Replaced { slot: 4, completed: 1 }
end
tape
found -> none
swap 3 4
found -> 1,6,4373,0041,3,before its start
next -> 1,6,4373,0041,5,broadcast 0 not whole
next -> none
";

/// A run whose tape has four differences and a page that nobody ordered.
pub const TAMPERED: &str = "
cell 8 12
write 4371 0020 - normal 2 0 X -> Started { slot: 0 }
play 5
kill 4371 0020 -> Stopped { completed: 3 }
play 1
write 4371 0021 - normal 3 2 Y -> Started { slot: 6 }
end
tape
silence 2
swap 6 5
octet 37 8 00
found -> 1,8,4371,0020,4,broadcast 1 not whole
next -> 1,8,4371,0021,5,before its start
next -> 1,8,4371,0021,9,page 1 reads otherwise
next -> 1,8,4371,0021,9,broadcast 0 not whole
next -> 1,8,4371,0021,12,broadcast 1 not whole
next -> none
";

/// Tapes of several cells, in another order.
const RUNS: &str = "
cell 1 4
end
cell 2 4
write 4370 0010 - normal 2 0 A -> Started { slot: 0 }
end
tape
begin
rows -> 1,1,,,,no tape
next -> 1,2,,,,no tape
next -> none
take 2
rows -> 1,1,,,,no tape
next -> none
silence 0
take 2
take 3
take 3
rows -> 1,1,,,,no tape
next -> 1,2,,,,second tape
next -> 1,3,,,,unknown cell
next -> 1,3,,,,unknown cell
next -> none
blank
idle 3
take 1
rows -> 1,1,,,,other slots
next -> 1,2,,,,second tape
next -> 1,3,,,,unknown cell
next -> 1,3,,,,unknown cell
next -> none
cell 1 2
end
cell 2 2
write 4370 0010 - normal 2 0 A -> Started { slot: 0 }
end
begin
blank
idle 2
take 2
send 4370 0010 en 1 1 A
take 1
rows -> 1,1,,,,other slots
next -> 1,2,4370,0010,2,broadcast 0 not whole
next -> none
";

/// Times on the clock, which are from Python's datetime and fractions: of the slots of differences alone.
const TIMES: &str = "
cell 7 10
write 4370 0010 - normal 4 2 AB/CD -> Started { slot: 0 }
end
tape
octet 4 7 00
start 1795977000000000
begin
names -> lac,ci,id,serial,slot,difference,time
next -> 1,7,,,,no tape,
take 7
take 7
take 2
rows -> 1,7,4370,0010,1,page 2 reads otherwise,2026-11-29T18:30:01.883Z
next -> 1,7,4370,0010,4,broadcast 0 not whole,2026-11-29T18:30:07.532Z
next -> 1,7,,,,second tape,
next -> 1,2,,,,unknown cell,
next -> none
cell 7 10
write 4370 0010 - normal 4 2 AB/CD -> Started { slot: 0 }
end
explain
names -> lac,ci,id,serial,slot,difference,expected,got,time
next -> 1,7,,,,no tape,,,
take 7
take 7
take 2
rows -> 1,7,4370,0010,1,page 2 reads otherwise,CD,@D,2026-11-29T18:30:01.883Z
next -> 1,7,4370,0010,4,broadcast 0 not whole,slots 0 to 3,pages 1 of 2,2026-11-29T18:30:07.532Z
next -> 1,7,,,,second tape,,,
next -> 1,2,,,,unknown cell,,,
next -> none

# another number of slots
cell 7 10
end
begin
blank
idle 3
take 7
rows -> 1,7,,,,other slots,
next -> none
cell 7 10
end
explain
take 7
rows -> 1,7,,,,other slots,,,
next -> none

# one slot late, by the latest start
cell 8 4
write 4371 0020 - normal 1 3 X -> Started { slot: 0 }
end
blank
idle 1
send 4371 0020 en 1 1 X
send 4371 0020 en 1 1 X
send 4371 0020 en 1 1 X
start 4291747199999999
explain
take 8
rows -> 1,8,,,,all pages come 1 slot late,,,
next -> 1,8,4371,0020,1,broadcast 0 not whole,slots 0 to 0,nothing,2106-01-01T00:00:01.883Z
next -> 1,8,4371,0020,3,after its last broadcast,up to slot 3,X,2106-01-01T00:00:05.649Z
next -> none
";

/// What was expected and what came, of each kind of difference.
const EXPLAINED: &str = "
cell 7 10
write 4370 0010 - normal 4 2 AB/CD -> Started { slot: 0 }
end
tape
octet 4 7 00
explain
rows -> 1,7,,,,no tape,,
take 7
rows -> 1,7,4370,0010,1,page 2 reads otherwise,CD,@D
next -> 1,7,4370,0010,4,broadcast 0 not whole,slots 0 to 3,pages 1 of 2
next -> none

# a page again in the time of the second broadcast
cell 7 10
write 4370 0010 - normal 4 2 AB/CD -> Started { slot: 0 }
end
blank
send 4370 0010 en 1 2 AB
send 4370 0010 en 2 2 CD
idle 2
send 4370 0010 en 1 2 AB
send 4370 0010 en 2 2 CD
idle 1
send 4370 0010 en 2 2 CD
idle 2
explain
take 7
rows -> 1,7,4370,0010,7,broadcast 1 again,once in slots 4 to 7,CD
next -> none

# silence in slot 5, and a page too late in slot 9
cell 7 10
write 4370 0010 - normal 4 2 AB/CD -> Started { slot: 0 }
end
tape
swap 5 9
explain
take 7
take 7
take 2
rows -> 1,7,4370,0010,8,broadcast 1 not whole,slots 4 to 7,pages 1 of 2
next -> 1,7,4370,0010,9,after its last broadcast,up to slot 8,CD
next -> 1,7,,,,second tape,,
next -> 1,2,,,,unknown cell,,
next -> none

# a message too late and one too early, and nothing of either in its time
cell 8 12
write 4371 0020 - normal 2 0 X -> Started { slot: 0 }
play 5
kill 4371 0020 -> Stopped { completed: 3 }
play 1
write 4371 0021 - normal 3 2 Y -> Started { slot: 6 }
end
blank
idle 5
send 4371 0021 en 1 1 Y
send 4371 0020 en 1 1 X
idle 5
explain
take 8
rows -> 1,8,4371,0020,2,nothing sent from slot 0 to 3,broadcasts 0 to 1,nothing
next -> 1,8,4371,0021,5,before its start,from slot 6,Y
next -> 1,8,4371,0020,6,after its stop,up to slot 5,X
next -> 1,8,4371,0021,9,nothing sent from slot 6 to 11,broadcasts 0 to 1,nothing
next -> none

# a tape of other slots, and its table as it was
cell 8 12
end
blank
idle 3
begin
take 8
rows -> 1,8,,,,other slots
next -> none
cell 8 12
end
explain
take 8
rows -> 1,8,,,,other slots,,
next -> none
";

/// Broadcasts of which nothing came: three one after another, and two and one.
const LOST: &str = "
cell 5 8
write 4372 0032 - normal 2 0 N -> Started { slot: 0 }
end
tape
silence 2
silence 4
silence 6
explain
take 5
rows -> 1,5,4372,0032,4,nothing sent from slot 2 to 7,broadcasts 1 to 3,nothing
next -> none
cell 5 8
write 4372 0032 - normal 2 0 N -> Started { slot: 0 }
end
tape
silence 0
silence 2
silence 6
begin
take 5
rows -> 1,5,4372,0032,2,broadcast 0 not whole
next -> 1,5,4372,0032,4,broadcast 1 not whole
next -> 1,5,4372,0032,8,broadcast 3 not whole
next -> none
cell 5 8
write 4372 0032 - normal 2 0 N -> Started { slot: 0 }
end
explain
take 5
rows -> 1,5,4372,0032,2,nothing sent from slot 0 to 3,broadcasts 0 to 1,nothing
next -> 1,5,4372,0032,8,broadcast 3 not whole,slots 6 to 7,nothing
next -> none

# a wrong page isn't one that came, and of three pages the first and the last did
cell 5 8
write 4372 0032 - normal 4 0 N/O -> Started { slot: 0 }
end
blank
send 4372 0032 en 1 2 M
idle 4
send 4372 0032 en 2 2 O
idle 2
explain
take 5
rows -> 1,5,4372,0032,0,page 1 reads otherwise,N,M
next -> 1,5,4372,0032,4,broadcast 0 not whole,slots 0 to 3,nothing
next -> 1,5,4372,0032,8,broadcast 1 not whole,slots 4 to 7,pages 2 of 2
next -> none
";

/// Tapes on which all pages come early or late, and tapes that only look so.
const SHIFTED: &str = "
# a message of slots 6, 7, 10 and 11, five slots early
cell 7 16
play 6
write 4370 0010 - normal 4 2 AB/CD -> Started { slot: 6 }
end
blank
idle 1
send 4370 0010 en 1 2 AB
send 4370 0010 en 2 2 CD
idle 2
send 4370 0010 en 1 2 AB
send 4370 0010 en 2 2 CD
idle 9
explain
take 7
rows -> 1,7,,,,all pages come 5 slots early,,
next -> 1,7,4370,0010,1,before its start,from slot 6,AB
next -> 1,7,4370,0010,10,broadcast 0 not whole,slots 6 to 9,pages 2 of 2
next -> 1,7,4370,0010,14,broadcast 1 not whole,slots 10 to 13,nothing
next -> none

# the plain table doesn't say it
cell 7 16
play 6
write 4370 0010 - normal 4 2 AB/CD -> Started { slot: 6 }
end
begin
take 7
rows -> 1,7,4370,0010,1,before its start
next -> 1,7,4370,0010,10,broadcast 0 not whole
next -> 1,7,4370,0010,14,broadcast 1 not whole
next -> none

# the last page in slot 9, only two slots early: by five slots it would come in slot 14, after its last broadcast
cell 7 16
play 6
write 4370 0010 - normal 4 2 AB/CD -> Started { slot: 6 }
end
swap 6 9
explain
take 7
rows -> 1,7,4370,0010,1,before its start,from slot 6,AB
next -> 1,7,4370,0010,10,broadcast 0 not whole,slots 6 to 9,pages 2 of 2
next -> 1,7,4370,0010,14,broadcast 1 not whole,slots 10 to 13,nothing
next -> none

# all five slots early, but for another page in slot 8
cell 7 16
play 6
write 4370 0010 - normal 4 2 AB/CD -> Started { slot: 6 }
end
blank
idle 1
send 4370 0010 en 1 2 AB
send 4370 0010 en 2 2 CD
idle 2
send 4370 0010 en 1 2 AB
send 4370 0010 en 2 2 CD
idle 1
send 4370 0011 en 1 1 AB
idle 7
explain
take 7
rows -> 1,7,4370,0010,1,before its start,from slot 6,AB
next -> 1,7,4370,0011,8,not ordered,,AB
next -> 1,7,4370,0010,10,broadcast 0 not whole,slots 6 to 9,pages 2 of 2
next -> 1,7,4370,0010,14,broadcast 1 not whole,slots 10 to 13,nothing
next -> none

# of slots 0, 2 and 4, three slots late; and the slots before the run's may have pages of other messages, but no others
cell 8 12
write 4371 0020 - normal 2 3 X -> Started { slot: 0 }
end
blank
idle 1
send 4371 0022 en 1 1 Z
idle 1
send 4371 0020 en 1 1 X
idle 1
send 4371 0020 en 1 1 X
idle 1
send 4371 0020 en 1 1 X
idle 4
explain
take 8
rows -> 1,8,,,,all pages come 3 slots late,,
next -> 1,8,4371,0022,1,not ordered,,Z
next -> 1,8,4371,0020,2,broadcast 0 not whole,slots 0 to 1,nothing
next -> 1,8,4371,0020,7,after its last broadcast,up to slot 6,X
next -> none
cell 8 12
write 4371 0020 - normal 2 3 X -> Started { slot: 0 }
end
swap 1 9
explain
take 8
rows -> 1,8,4371,0020,2,broadcast 0 not whole,slots 0 to 1,nothing
next -> 1,8,4371,0020,7,after its last broadcast,up to slot 6,X
next -> 1,8,4371,0022,9,not ordered,,Z
next -> none

# one slot late, and one slot early
cell 8 4
write 4371 0020 - normal 1 3 X -> Started { slot: 0 }
end
blank
idle 1
send 4371 0020 en 1 1 X
send 4371 0020 en 1 1 X
send 4371 0020 en 1 1 X
explain
take 8
rows -> 1,8,,,,all pages come 1 slot late,,
next -> 1,8,4371,0020,1,broadcast 0 not whole,slots 0 to 0,nothing
next -> 1,8,4371,0020,3,after its last broadcast,up to slot 3,X
next -> none
cell 8 4
play 1
write 4371 0020 - normal 1 2 X -> Started { slot: 1 }
end
blank
send 4371 0020 en 1 1 X
send 4371 0020 en 1 1 X
idle 2
explain
take 8
rows -> 1,8,,,,all pages come 1 slot early,,
next -> 1,8,4371,0020,0,before its start,from slot 1,X
next -> 1,8,4371,0020,3,broadcast 1 not whole,slots 2 to 2,nothing
next -> none

# recorded from slot 5 on, and five slots longer than the run: the first message, of slots 0, 4, 8, 12, 16 and 20, was
# on air before, so that only the second, of slots 6 and 10, says by how many slots they are early
cell 9 16
write 4371 0020 - normal 4 0 X -> Started { slot: 0 }
play 6
write 4371 0021 - normal 4 2 Y -> Started { slot: 6 }
end
blank
idle 1
send 4371 0021 en 1 1 Y
idle 1
send 4371 0020 en 1 1 X
idle 1
send 4371 0021 en 1 1 Y
idle 1
send 4371 0020 en 1 1 X
idle 3
send 4371 0020 en 1 1 X
idle 3
send 4371 0020 en 1 1 X
explain
take 9
rows -> 1,9,,,,all pages come 5 slots early,,
next -> 1,9,4371,0021,1,before its start,from slot 6,Y
next -> 1,9,4371,0021,10,nothing sent from slot 6 to 13,broadcasts 0 to 1,nothing
next -> none

# of a tape that has the slots from 5 on a broadcast from slot 8 on is lost
cell 9 16
write 4371 0020 - normal 4 0 X -> Started { slot: 0 }
play 6
write 4371 0021 - normal 4 2 Y -> Started { slot: 6 }
end
silence 3
explain
take 9
rows -> 1,9,4371,0021,1,before its start,from slot 6,Y
next -> 1,9,4371,0020,4,broadcast 0 not whole,slots 0 to 3,nothing
next -> 1,9,4371,0021,10,nothing sent from slot 6 to 13,broadcasts 0 to 1,nothing
next -> none

# one that is stopped at slot 5, of slots 0, 2 and 4, and one of slots 6 and 9, of which the tape has the first alone
cell 8 12
write 4371 0020 - normal 2 0 X -> Started { slot: 0 }
play 5
kill 4371 0020 -> Stopped { completed: 3 }
play 1
write 4371 0021 - normal 3 2 Y -> Started { slot: 6 }
end
blank
idle 5
send 4371 0020 en 1 1 X
idle 1
send 4371 0020 en 1 1 X
idle 1
send 4371 0020 en 1 1 X
idle 1
send 4371 0021 en 1 1 Y
explain
take 8
rows -> 1,8,,,,all pages come 5 slots late,,
next -> 1,8,4371,0020,2,nothing sent from slot 0 to 3,broadcasts 0 to 1,nothing
next -> 1,8,4371,0020,5,after its stop,up to slot 5,X
next -> 1,8,4371,0021,9,broadcast 0 not whole,slots 6 to 8,nothing
next -> none

# a tape that isn't shifted, with a page after the last broadcast, and one that only lacks its first broadcast
cell 8 8
write 4371 0020 - normal 2 3 X -> Started { slot: 0 }
end
blank
send 4371 0020 en 1 1 X
idle 1
send 4371 0020 en 1 1 X
idle 3
send 4371 0020 en 1 1 X
idle 1
explain
take 8
rows -> 1,8,4371,0020,6,after its last broadcast,up to slot 6,X
next -> 1,8,4371,0020,6,broadcast 2 not whole,slots 4 to 5,nothing
next -> none
cell 8 8
write 4371 0020 - normal 2 0 X -> Started { slot: 0 }
end
tape
silence 0
explain
take 8
rows -> 1,8,4371,0020,2,broadcast 0 not whole,slots 0 to 1,nothing
next -> none

# before the rows of its own cell, which isn't the first, and of no cell whose tape has other slots
cell 1 4
write 4371 0020 - normal 4 0 X -> Started { slot: 0 }
end
cell 2 4
play 1
write 4371 0020 - normal 1 2 X -> Started { slot: 1 }
end
cell 3 4
end
explain
blank
send 4371 0020 en 1 1 X
send 4371 0020 en 1 1 X
idle 1
take 3
idle 1
take 2
blank
idle 4
take 1
rows -> 1,1,4371,0020,4,broadcast 0 not whole,slots 0 to 3,nothing
next -> 1,2,,,,all pages come 1 slot early,,
next -> 1,2,4371,0020,0,before its start,from slot 1,X
next -> 1,2,4371,0020,3,broadcast 1 not whole,slots 2 to 2,nothing
next -> 1,3,,,,other slots,,
next -> none
";

/// Pages as octets, and texts that CSV quotes. The content of a page of A is C1 46 A3 D1 68 34 1A, ten times 8D 46 A3
/// D1 68 34 1A and then 8D 46 A3 D1 00: all its other characters are carriage returns.
const OCTETS: &str = "
cell 9 8
write 4370 0010 - high 4 2 A/B -> Started { slot: 0 }
end
tape

# page 3 of 2 is none of the order's
octet 4 6 32
explain
take 9
rows -> 1,9,4370,0010,1,page 3 reads otherwise,,B
next -> 1,9,4370,0010,4,broadcast 0 not whole,slots 0 to 3,pages 1 of 2
next -> none

# page 1 of 3 in slot 0, whose text is right: both are told as octets
cell 9 8
write 4370 0010 - high 4 2 A/B -> Started { slot: 0 }
end
tape
octet 0 6 13
explain
take 9
table
part 0 39 -> 1,9,4370,0010,0,page 1 reads otherwise,
part 39 79 -> 001011120112c146a3d168341a8d46a3d168341a
part 205 216 -> 8d46a3d100,
part 216 256 -> 001011120113c146a3d168341a8d46a3d168341a
part 382 392 -> 8d46a3d100
skip
next -> 1,9,4370,0010,4,broadcast 0 not whole,slots 0 to 3,pages 2 of 2
next -> none

# page 2 in a reserved data coding, a page that nobody ordered in the same, and one with a comma and a quotation mark
cell 9 8
write 4370 0010 - high 4 2 A/B -> Started { slot: 0 }
end
tape
octet 4 5 F4
explain
take 9
table
part 0 41 -> 1,9,4370,0010,1,page 2 reads otherwise,B,
part 41 67 -> 00101112f422c246a3d168341a
skip
next -> 1,9,4370,0010,4,broadcast 0 not whole,slots 0 to 3,pages 1 of 2
next -> none
cell 9 2
end
blank
send 4370 0011 en 1 1 A
send 4370 0012 en 1 1 A,\"B\"
octet 0 5 F4
explain
take 9
table
part 0 29 -> 1,9,4370,0011,0,not ordered,,
part 29 55 -> 00111112f411c146a3d168341a
skip
next -> 1,9,4370,0012,1,not ordered,,\"A,\"\"B\"\"\"
next -> none
";

#[test]
fn two_pages(rt: HostRuntime) -> Result<(), Fail> {
    let cells = expect_lines(&rt, rt.alloc(), TWO_PAGES, 23)?;
    drop(cells);
    Ok(())
}

#[test]
fn starts_and_stops(rt: HostRuntime) -> Result<(), Fail> {
    let cells = expect_lines(&rt, rt.alloc(), STARTS_AND_STOPS, 61)?;
    drop(cells);
    Ok(())
}

#[test]
fn otherwise(rt: HostRuntime) -> Result<(), Fail> {
    let cells = expect_lines(&rt, rt.alloc(), OTHERWISE, 60)?;
    drop(cells);
    Ok(())
}

#[test]
fn owed(rt: HostRuntime) -> Result<(), Fail> {
    let cells = expect_lines(&rt, rt.alloc(), OWED, 51)?;
    drop(cells);
    Ok(())
}

#[test]
fn again(rt: HostRuntime) -> Result<(), Fail> {
    let cells = expect_lines(&rt, rt.alloc(), AGAIN, 70)?;
    drop(cells);
    Ok(())
}

#[test]
fn runs(rt: HostRuntime) -> Result<(), Fail> {
    let cells = expect_lines(&rt, rt.alloc(), RUNS, 44)?;
    drop(cells);
    Ok(())
}

#[test]
fn times(rt: HostRuntime) -> Result<(), Fail> {
    let cells = expect_lines(&rt, rt.alloc(), TIMES, 60)?;
    drop(cells);
    Ok(())
}

#[test]
fn explained(rt: HostRuntime) -> Result<(), Fail> {
    let cells = expect_lines(&rt, rt.alloc(), EXPLAINED, 74)?;
    drop(cells);
    Ok(())
}

#[test]
fn lost(rt: HostRuntime) -> Result<(), Fail> {
    let cells = expect_lines(&rt, rt.alloc(), LOST, 46)?;
    drop(cells);
    Ok(())
}

#[test]
fn octets(rt: HostRuntime) -> Result<(), Fail> {
    let cells = expect_lines(&rt, rt.alloc(), OCTETS, 53)?;
    drop(cells);
    Ok(())
}

#[test]
fn shifted(rt: HostRuntime) -> Result<(), Fail> {
    let cells = expect_lines(&rt, rt.alloc(), SHIFTED, 228)?;
    drop(cells);
    Ok(())
}
