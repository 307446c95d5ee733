//! Books, and what is remarked of each and of its run of 24 slots: by hand, as docs/formats.md says.

use crate::of_book_remarks::remarks_table::expect_rows;
use std::test::Fail;

/// One mistake each, in two cells.
const MISTAKES: &str = "
before cell,1,1|cell,1,2|write,0,fire,4370,0,1,en,2,4,0,*,Stay in!|
run  -> none
run stop,8,fire,*| -> none
run update,8,fire,en,2,4,0,*,Out!|stop,12,fire,*| -> none
strict  -> none

# Nothing is live in the cells: after a stop, in another cell, of an alert that was refused.
run stop,8,fire,*|update,12,fire,en,2,4,0,*,Out!| -> 5,fire,,orders nothing
run stop,8,fire,*|stop,8,fire,1-2| -> 5,fire,,orders nothing
before cell,1,1|cell,1,2|write,0,fire,4370,0,1,en,2,4,0,1-1,Stay in!|write,0,x,4371,0,9,en,2,8,0,1-2,X|
run stop,8,fire,1-2| -> 5,fire,,orders nothing
run update,8,fire,en,2,4,0,1-2,Out!| -> 5,fire,,orders nothing

# Or it is in some of them alone.
run stop,8,fire,*| -> 5,fire,,leaves out 1-2
run update,8,fire,en,2,4,0,1-2 1-1,Out!| -> 5,fire,,leaves out 1-2
run stop,8,fire,1-1| -> none

# A name that CSV quotes, and a cell that gets nothing.
before cell,1,1|cell,1,2|write,0,\"a, b\",4370,0,1,en,2,4,0,1-1,Stay in!|
run stop,8,\"a, b\",*| -> 4,\"a, b\",,leaves out 1-2|,,1-2,gets nothing
run cell,7,65535| -> ,,1-2,gets nothing|,,7-65535,gets nothing

# Slots that fall are done late: at the slot of the order before in the cell.
before cell,1,1|cell,1,2|write,20,fire,4370,0,1,en,2,4,0,*,Stay in!|
run write,4,storm,4371,0,2,en,2,4,0,*,Go| -> 4,storm,,done at slot 20
run write,4,storm,4371,0,2,en,2,4,0,*,Go|stop,12,fire,1-1| -> 3,fire,,never shown in 1 cell|\
    4,storm,,done at slot 20|5,fire,,done at slot 20
run write,20,storm,4371,0,2,en,2,4,0,*,Go| -> none
before cell,1,1|cell,1,2|write,20,fire,4370,0,1,en,2,4,0,1-1,Stay in!|
run write,4,storm,4371,0,2,en,2,4,0,1-2,Go| -> none
run write,4,storm,4371,0,2,en,2,4,0,*,Go| -> 4,storm,,done at slot 20

# The run has slots 0 to 23.
before cell,1,1|cell,1,2|write,0,fire,4370,0,1,en,2,4,0,*,Stay in!|
run write,23,flood,4371,0,3,en,2,4,0,*,Go| -> none
run write,24,flood,4371,0,3,en,2,4,0,*,Go| -> 4,flood,,past the end
run stop,24,fire,*| -> 4,fire,,past the end
run write,30,flood,4371,0,3,en,2,4,0,1-1,Go|stop,2,fire,*| -> 4,flood,,past the end|5,fire,,past the end
slots 25
run write,24,flood,4371,0,3,en,2,4,0,1-1,Go| -> 4,flood,,never shown in 1 cell
run write,24,flood,4371,0,3,en,0,4,0,1-1,Go| -> none
slots 24

# Stopped or replaced at its own slot a message is never sent; of one of two pages the last comes in the slot after.
run stop,0,fire,*| -> 3,fire,,never shown in 2 cells
run stop,0,fire,1-1| -> 3,fire,,never shown in 1 cell
run stop,1,fire,*| -> none
run update,0,fire,en,2,4,0,*,Out!| -> 3,fire,,never shown in 2 cells
run write,23,b,4371,0,3,pl,2,8,0,*,óóóóóóóóóóóóóóóóóóóóóóóóóóóóóóóóóóóóóóóóóó| -> \
    4,b,,never shown in 2 cells
run write,22,b,4371,0,3,pl,2,8,0,*,óóóóóóóóóóóóóóóóóóóóóóóóóóóóóóóóóóóóóóóóóó| -> none

# Texts of nothing but spaces.
run write,2,b,4371,0,3,en,2,4,0,*, | -> 4,b,,only spaces
run update,2,fire,en,2,4,0,*,\" | \"| -> 4,fire,,only spaces
run update,2,fire,en,2,4,0,*, .| -> none

# A page holds 41 characters in UCS-2, and 93 of GSM 7-bit, which lacks the ó.
run write,2,b,4371,0,3,pl,2,8,0,*,aaaaaaaaaabbbbbbbbbbccccccccccddddddddddeó| -> \
    4,b,,UCS-2 because of ó at 41: 2 pages in place of 1
run update,2,fire,pl,2,8,0,*,óaaaaaaaaabbbbbbbbbbccccccccccddddddddddeó| -> \
    4,fire,,UCS-2 because of ó at 0: 2 pages in place of 1
run write,2,b,4371,0,3,pl,2,8,0,*,aaaaaaaaaabbbbbbbbbbccccccccccddddddddddó| -> none

# It lacks half of a text, and then one less.
run write,2,b,4371,0,3,ru,2,8,0,*,aaaaaaaaaabbbbbbbbbbcДДДДДДДДДДддддддддддд| -> none
run write,2,b,4371,0,3,ru,2,8,0,*,aaaaaaaaaabbbbbbbbbbccДДДДДДДДДДддддддддддд| -> \
    4,b,,UCS-2 because of Д at 22: 2 pages in place of 1

# 47 escape pairs take two pages, too.
run write,2,b,4371,0,3,en,2,8,0,*,€€€€€€€€€€€€€€€€€€€€€€€€€€€€€€€€€€€€€€€€€€€€€€€…| -> none
";

/// Refused orders, with the causes of 3GPP TS 48.049, 8.2.
const REFUSED: &str = "
# One page in two slots takes half of a cell.
before cell,1,1|cell,1,2|write,0,a,4370,0,1,en,2,2,0,*,A|write,0,b,4371,0,2,en,2,2,0,1-1,B|
run write,0,c,4372,0,3,en,2,2,0,1-1,C| -> 5,c,,refused in 1 cell: BSC capacity exceeded
run write,0,c,4372,0,3,en,2,2,0,*,C| -> 5,c,,refused in 1 cell: BSC capacity exceeded
run write,0,c,4372,0,3,en,2,1,0,*,C| -> 5,c,,refused in 2 cells: BSC capacity exceeded
run write,0,c,4372,0,3,en,1,1,0,*,C| -> 5,c,,never shown in 1 cell

# What was refused isn't live: so its stop orders nothing, and where it was accepted it is stopped.
run write,0,c,4372,0,3,en,2,1,0,*,C|stop,4,c,*| -> 5,c,,refused in 2 cells: BSC capacity exceeded|\
    6,c,,orders nothing
run write,0,c,4372,0,3,en,2,2,0,*,C|stop,4,c,*| -> 5,c,,refused in 1 cell: BSC capacity exceeded|6,c,,leaves out 1-1

# One broadcast in four slots is over at slot 4: an update finds no message, and then none is live.
before cell,1,1|write,0,a,4370,0,1,en,2,4,1,*,A|
run stop,3,a,*| -> none
run stop,4,a,*| -> 3,a,,refused in 1 cell: message reference not identified
run update,4,a,en,2,4,0,*,B|stop,5,a,*| -> 3,a,,refused in 1 cell: message reference not identified|4,a,,orders nothing

# Two alerts of one identifier and serial number: the second is refused where the first was accepted.
before cell,1,1|cell,1,2|write,0,a,4370,0,1,en,2,4,0,*,A|
run write,8,b,4370,0,1,en,2,4,0,*,B| -> 4,b,,refused in 2 cells: message reference already used|\
    4,b,,same identifier and serial number as row 3
run write,8,b,4370,1,1,en,2,4,0,*,B|write,8,c,4370,1,1,en,2,4,0,*,C|write,8,d,4370,0,1,en,2,4,0,1-1,D| -> \
    5,c,,refused in 2 cells: message reference already used|5,c,,same identifier and serial number as row 4|\
    6,d,,refused in 1 cell: message reference already used|6,d,,same identifier and serial number as row 3
run write,8,b,4370,0,1,en,2,4,0,*,B|stop,9,b,*|stop,10,a,*| -> 4,b,,refused in 2 cells: message reference already used|\
    4,b,,same identifier and serial number as row 3|5,b,,orders nothing
before cell,1,1|cell,1,2|write,0,a,4370,0,1,en,2,4,0,1-1,A|
run write,8,b,4370,0,1,en,2,4,0,1-2,B| -> 4,b,,same identifier and serial number as row 3

# Two causes, and cells that are left out beside them.
before cell,1,1|cell,1,2|write,0,a,4370,0,1,en,2,2,0,1-1,A|write,0,b,4371,0,2,en,2,2,0,1-1,B|
run write,0,c,4371,0,2,en,2,2,0,*,C| -> 5,c,,refused in 1 cell: message reference already used|\
    5,c,,same identifier and serial number as row 4
";

/// How full cells get, in hundredths rounded up: a message of P pages takes P of the slots of its period.
const FULLEST: &str = "
before cell,1,1|cell,1,2|write,0,fire,4370,0,1,en,2,4,0,*,Stay in!|
full  -> ,,1-1,fullest: 25 % at slot 0|,,1-2,fullest: 25 % at slot 0
strict  -> none
full cell,7,65535| -> ,,7-65535,gets nothing|,,1-1,fullest: 25 % at slot 0|,,1-2,fullest: 25 % at slot 0|\
    ,,7-65535,fullest: 0 % at slot 0

# A quarter and a third, from slot 8 on; a half and a quarter up to slot 8, and then no more than a quarter.
full write,8,b,4371,0,2,en,2,3,0,1-2,Go| -> ,,1-1,fullest: 25 % at slot 0|,,1-2,fullest: 59 % at slot 8
full write,0,b,4371,0,2,en,2,2,4,1-1,Go|write,8,c,4372,0,3,en,2,4,0,1-2,Go| -> \
    ,,1-1,fullest: 75 % at slot 0|,,1-2,fullest: 50 % at slot 8
full write,23,b,4371,0,2,en,0,8,0,*,Go|stop,23,fire,1-1| -> ,,1-1,fullest: 38 % at slot 23|\
    ,,1-2,fullest: 38 % at slot 23

# Two of four slots in UCS-2, of which a page has 41 characters; a full cell; and one that is full after a stop.
full write,5,b,4371,0,2,pl,2,4,0,1-1,óóóóóóóóóóóóóóóóóóóóóóóóóóóóóóóóóóóóóóóóóó| -> \
    ,,1-1,fullest: 75 % at slot 5|,,1-2,fullest: 25 % at slot 0
full write,1,b,4371,0,2,en,2,4,0,*,Go|write,2,c,4372,0,3,en,2,2,0,*,Go| -> ,,1-1,fullest: 100 % at slot 2|\
    ,,1-2,fullest: 100 % at slot 2
full stop,9,fire,1-1|write,12,b,4371,0,2,en,2,1,0,1-1,Go| -> ,,1-1,fullest: 100 % at slot 12|\
    ,,1-2,fullest: 25 % at slot 0

# Background reserves nothing, nor does what a cell refuses.
full write,0,b,4371,0,2,en,1,1,0,*,Go| -> ,,1-1,fullest: 25 % at slot 0|,,1-2,fullest: 25 % at slot 0
full write,3,b,4371,0,2,en,2,1,0,1-1,Go| -> 4,b,,refused in 1 cell: BSC capacity exceeded|\
    ,,1-1,fullest: 25 % at slot 0|,,1-2,fullest: 25 % at slot 0

# An update at slot 9 begins at once beside the quarter that is reserved up to slot 12. Where that has no room, it waits
# up to slot 12, and until then reserves what it takes more.
full update,9,fire,en,2,2,0,1-1,Out!| -> ,,1-1,fullest: 75 % at slot 9|,,1-2,fullest: 25 % at slot 0
full write,0,b,4371,0,2,en,2,2,0,1-1,Go|update,9,fire,en,2,2,0,1-1,Out!| -> \
    ,,1-1,fullest: 100 % at slot 9|,,1-2,fullest: 25 % at slot 0
";

/// Remarks with times on the clock, which are from Python's datetime and fractions.
const TIMES: &str = "
before cell,1,1|cell,1,2|write,20,fire,4370,0,1,en,2,4,0,1-1,Stay in!|
table write,4,storm,4371,0,2,en,2,4,0,1-1,Go| -> row,name,cell,says|4,storm,,done at slot 20|,,1-2,gets nothing|\
    ,,1-1,fullest: 50 % at slot 20|,,1-2,fullest: 0 % at slot 0
start 1795977000000000
table write,4,storm,4371,0,2,en,2,4,0,1-1,Go| -> row,name,cell,says,time|\
    4,storm,,done at slot 20,2026-11-29T18:30:37.661Z|,,1-2,gets nothing,|\
    ,,1-1,fullest: 50 % at slot 20,2026-11-29T18:30:37.661Z|,,1-2,fullest: 0 % at slot 0,2026-11-29T18:30:00.000Z

# No other remark names a slot, though it may name a number.
before cell,1,1|cell,1,2|write,0,\"a, b\",4370,0,1,en,2,2,0,1-1,A|write,0,b,4371,0,2,en,2,2,0,1-1,B|
table write,0,c,4370,0,1,en,2,2,0,1-1, |stop,30,\"a, b\",1-1| -> row,name,cell,says,time|\
    5,c,,refused in 1 cell: message reference already used,|5,c,,same identifier and serial number as row 3,|\
    5,c,,only spaces,|6,\"a, b\",,past the end,|,,1-2,gets nothing,|\
    ,,1-1,fullest: 100 % at slot 0,2026-11-29T18:30:00.000Z|,,1-2,fullest: 0 % at slot 0,2026-11-29T18:30:00.000Z

# The latest start, and a table of faults, which has no times.
start 4291747199999999
before cell,1,1|write,4,fire,4370,0,1,en,2,4,0,*,Stay in!|
table  -> row,name,cell,says,time|,,1-1,fullest: 25 % at slot 4,2106-01-01T00:00:07.532Z
table cell,1| -> Faults(1) row,line,column,field,value,says|3,3,1,VERB,cell,\"2 columns, cell has 3\"
";

/// Books with faults, and none at all.
const FAULTS: &str = "
run cell,1| -> Faults(1) row,line,column,field,value,says|1,1,1,VERB,cell,\"2 columns, cell has 3\"
line sell|sell| -> faults: 2
run  -> none
run cell,1,1| -> ,,1-1,gets nothing
strict cell,1,1| -> Remarks(1) ,,1-1,gets nothing
line cell,1,1| -> remarks: 1
before cell,1,1|write,0,fire,4370,0,1,en,2,4,0,*,Stay in!|
strict  -> none
strict stop,8,fire,*|stop,8,fire,*|stop,30,fire,*| -> Remarks(2) 4,fire,,orders nothing|5,fire,,orders nothing

# Ends that fail, with 10 octets at a time: a table of 49 octets has five pieces.
most 10
reads 0 -> ReadFailed, true, 0
reads 3 -> ReadFailed, true, 0
writes 0 -> WriteFailed, true, 0
writes 1 -> WriteFailed, true, 10
writes 4 -> WriteFailed, true, 40
writes 5 -> none
writes 2 stop,30,fire,*| -> WriteFailed, true, 20
writes 3 sell| -> WriteFailed, true, 30
";

/// Network books: each group is run by itself, and rows keep the numbers of the network.
const NETWORKS: &str = "
# Of 66 cells the second group has 1-64 and 1-65. Row 67 writes in one of each group.
cells 66
group 1
full write,0,fire,4370,0,1,en,2,4,0,1-0 1-64,Stay in!|stop,8,fire,*| -> 68,fire,,leaves out 1-65|,,1-65,gets nothing|\
    ,,1-64,fullest: 25 % at slot 0|,,1-65,fullest: 0 % at slot 0
table write,0,fire,4370,0,1,en,2,4,0,1-65 1-64,Stay in!| -> row,name,cell,says|,,1-64,fullest: 25 % at slot 0|\
    ,,1-65,fullest: 25 % at slot 0
strict write,0,fire,4370,0,1,en,2,4,0,1-64,Stay in!| -> Remarks(1) ,,1-65,gets nothing
group 2
writes 9 -> NoGroup(2), false, 0
line  -> no such group: the network has 2
run stop,0,b,*| -> Faults(1) row,line,column,field,value,says|67,67,3,NAME,b,no earlier row writes this name
network
run write,0,fire,4370,0,1,en,2,4,0,*,Stay in!| -> none
strict write,0,fire,4370,0,1,en,2,4,0,*,Stay in!| -> none
run write,0,fire,4370,0,1,en,2,4,0,*,Stay in!|stop,30,fire,1-65 1-3|update,8,fire,en,2,4,0,*,Out!| -> \
    0,68,fire,,past the end|0,69,fire,,past the end|1,68,fire,,past the end|1,69,fire,,past the end
strict write,0,fire,4370,0,1,en,2,4,0,*,Stay in!|stop,30,fire,1-65 1-3|update,8,fire,en,2,4,0,1-1,Out!| -> \
    Remarks(2) 0,68,fire,,past the end|1,68,fire,,past the end
run stop,0,b,*| -> Faults(1) row,line,column,field,value,says|67,67,3,NAME,b,no earlier row writes this name

# A network without cells has one group; one of a group has its cells alone, with times and without.
cells 0
table  -> group,row,name,cell,says
before cell,1,1|cell,1,2|write,20,fire,4370,0,1,en,2,4,0,1-1,Stay in!|
table write,4,storm,4371,0,2,en,2,4,0,1-1,Go| -> group,row,name,cell,says|0,4,storm,,done at slot 20|\
    0,,,1-2,gets nothing|0,,,1-1,fullest: 50 % at slot 20|0,,,1-2,fullest: 0 % at slot 0
start 1795977000000000
table write,4,storm,4371,0,2,en,2,4,0,1-1,Go| -> group,row,name,cell,says,time|\
    0,4,storm,,done at slot 20,2026-11-29T18:30:37.661Z|0,,,1-2,gets nothing,|\
    0,,,1-1,fullest: 50 % at slot 20,2026-11-29T18:30:37.661Z|\
    0,,,1-2,fullest: 0 % at slot 0,2026-11-29T18:30:00.000Z
";

#[test]
fn mistakes_are_remarked(rt: HostRuntime) -> Result<(), Fail> {
    expect_rows(&rt, MISTAKES, 39)
}

#[test]
fn refusals_are_remarked(rt: HostRuntime) -> Result<(), Fail> {
    expect_rows(&rt, REFUSED, 14)
}

#[test]
fn fullest_slots_are_told(rt: HostRuntime) -> Result<(), Fail> {
    expect_rows(&rt, FULLEST, 13)
}

#[test]
fn remarks_have_times(rt: HostRuntime) -> Result<(), Fail> {
    expect_rows(&rt, TIMES, 5)
}

#[test]
fn faults_and_failed_ends_are_told(rt: HostRuntime) -> Result<(), Fail> {
    expect_rows(&rt, FAULTS, 16)
}

#[test]
fn networks_are_remarked(rt: HostRuntime) -> Result<(), Fail> {
    expect_rows(&rt, NETWORKS, 14)
}
