//! Network books as tables: the book of each group, and what its session sends where each cell accepts all.

use crate::networks_table::expect_rows;
use std::test::Fail;

/// Networks, the books of their groups, and the line of each fault.
const GROUPS: &str = "
# 64 cells are one group.
before
cells 0 64
groups -> 1
groups write,0,a,4370,0,1,en,2,2,0,*,@| -> 1
group 0 write,0,a,4370,0,1,en,2,2,0,*,@| \
    -> 64 cells 1-0 to 1-63; 0010 at slot 0 of row 65 to 64 cells 1-0 to 1-63
group 1 write,0,a,4370,0,1,en,2,2,0,*,@| -> no such group: the network has 1

# The 65th is the first of the second group.
cells 64 65
groups -> 2
group 0 write,0,a,4370,0,1,en,2,2,0,*,@| \
    -> 64 cells 1-0 to 1-63; 0010 at slot 0 of row 66 to 64 cells 1-0 to 1-63
group 1 write,0,a,4370,0,1,en,2,2,0,*,@| -> 1-64; 0010 at slot 0 of row 66 to 1-64
group 2 write,0,a,4370,0,1,en,2,2,0,*,@| -> no such group: the network has 2
group 1023 write,0,a,4370,0,1,en,2,2,0,*,@| -> no such group: the network has 2
group 65535 -> no such group: the network has 2

# A network without cells has one group, which is empty.
before
groups -> 1
group 0 -> none
group 1 -> no such group: the network has 1

# `*` before the first group is full has no cells of the second one, but the alert has its number.
before
cells 0 10
before write,0,a,4370,0,1,en,2,2,0,*,@|
cells 10 66
before write,1,b,4371,0,2,en,2,2,0,*,@|
group 0 -> 64 cells 1-0 to 1-63; 0010 at slot 0 of row 11 to 10 cells 1-0 to 1-9; \
    0020 at slot 1 of row 68 to 64 cells 1-0 to 1-63
group 1 -> 1-64 1-65; 0020 at slot 1 of row 68 to 1-64 1-65

# A list across both, in its order.
before
cells 0 66
group 0 write,0,a,4370,0,1,en,2,2,0,1-65 1-63 1-64 1-0,@| \
    -> 64 cells 1-0 to 1-63; 0010 at slot 0 of row 67 to 1-63 1-0
group 1 write,0,a,4370,0,1,en,2,2,0,1-65 1-63 1-64 1-0,@| -> 1-64 1-65; 0010 at slot 0 of row 67 to 1-65 1-64

# The first update has no cell of the second group, and counts there: the next one is the second.
before write,0,a,4370,0,1,en,2,2,0,*,@|update,1,a,en,2,2,0,1-0,@|update,2,a,en,2,2,0,1-0 1-64,@|stop,3,a,1-64|
group 0 -> 64 cells 1-0 to 1-63; 0010 at slot 0 of row 67 to 64 cells 1-0 to 1-63; \
    0011 over 0010 at slot 1 of row 68 to 1-0; 0012 over 0011 at slot 2 of row 69 to 1-0
group 1 -> 1-64 1-65; 0010 at slot 0 of row 67 to 1-64 1-65; 0012 over 0010 at slot 2 of row 69 to 1-64; \
    stop 0012 at slot 3 of row 70 to 1-64

# The sixteenth update is one too many in each group, also where none has a cell of it.
before
cells 0 65
before write,0,a,4370,0,1,en,2,2,0,1-0,@|
times 15 update,1,a,en,2,2,0,1-0,@|
groups -> 2
group 1 -> 1-64
group 1 update,1,a,en,2,2,0,1-0,@| -> row 82: too many updates
group 1 update,1,a,en,2,2,0,1-64,@| -> row 82: too many updates
groups update,1,a,en,2,2,0,1-64,@| -> row 82: too many updates
";

/// Networks of three groups.
const THREE_GROUPS: &str = "
# Lists that mix the groups in any order: each has its own cells in the order of the list.
before
cells 0 130
before write,0,a,4370,0,1,en,2,2,0,1-129 1-1 1-64 1-128 1-0 1-127,@|
group 0 -> 64 cells 1-0 to 1-63; 0010 at slot 0 of row 131 to 1-1 1-0
group 1 -> 64 cells 1-64 to 1-127; 0010 at slot 0 of row 131 to 1-64 1-127
group 2 -> 1-128 1-129; 0010 at slot 0 of row 131 to 1-129 1-128

# An update for all goes to the cells where the alert is, and a stop to a cell of the last group alone.
before update,1,a,en,2,2,0,*,@|stop,2,a,1-128|
group 0 -> 64 cells 1-0 to 1-63; 0010 at slot 0 of row 131 to 1-1 1-0; \
    0011 over 0010 at slot 1 of row 132 to 1-0 1-1
group 2 -> 1-128 1-129; 0010 at slot 0 of row 131 to 1-129 1-128; \
    0011 over 0010 at slot 1 of row 132 to 1-128 1-129; stop 0011 at slot 2 of row 133 to 1-128

# A text for a cell of the last group that can't be sent is the first group's fault, too.
groups write,3,b,4371,0,2,en,2,2,0,1-129,| -> row 134: text is empty
group 0 write,3,b,4371,0,2,xx,2,2,0,1-129,@| -> row 134: unknown language

# `*` before further cells has none of these, one of an earlier group either.
before
cells 0 66
before write,0,a,4370,0,1,en,2,2,0,*,@|
cells 66 130
before write,1,b,4370,0,2,en,2,2,0,1-66 1-129,@|
group 0 -> 64 cells 1-0 to 1-63; 0010 at slot 0 of row 67 to 64 cells 1-0 to 1-63
group 1 -> 64 cells 1-64 to 1-127; 0010 at slot 0 of row 67 to 1-64 1-65; 0020 at slot 1 of row 132 to 1-66
group 2 -> 1-128 1-129; 0020 at slot 1 of row 132 to 1-129
group 3 -> no such group: the network has 3
";

/// The faults of network books, which each group tells.
const FAULTS: &str = "
# A text of other cells.
before
cells 0 65
groups write,0,a,4370,0,1,en,2,2,0,1-64,| -> row 66: text is empty
group 0 write,0,a,4370,0,1,en,2,2,0,1-64,| -> row 66: text is empty
group 1 write,0,a,4370,0,1,en,2,2,0,1-64,| -> row 66: text is empty
group 1 write,0,a,4370,0,1,xx,2,2,0,1-0,@| -> row 66: unknown language
group 2 write,0,a,4370,0,1,xx,2,2,0,1-0,@| -> row 66: unknown language

# A row's fault comes before that of a text in an earlier row.
group 0 write,0,a,4370,0,1,en,2,2,0,1-64,|stop,0,b,*| -> row 67: unknown name

# Cells of any group: the same cell again, a hundred rows later, one that isn't declared, and one twice in a row.
cells 65 100
group 0 cell,1,0| -> row 101: named twice
group 1 cell,1,0| -> row 101: named twice
group 1 cell,1,99| -> row 101: named twice
group 1 cell,1,100| -> 37 cells 1-64 to 1-100
group 1 write,0,a,4370,0,1,en,2,2,0,1-0 1-101,@| -> row 101: unknown cell
group 1 write,0,a,4370,0,1,en,2,2,0,1-0 1-64 1-0,@| -> row 101: named twice
group 1 write,0,a,4370,0,1,en,2,2,0,1-0  1-64,@| -> row 101: number

# A `*` before any cell.
before
group 0 write,0,a,4370,0,1,en,2,2,0,*,@| -> row 1: unknown cell
group 0 sell,1,1| -> row 1: verb
group 0 cell,1| -> row 1: columns
group 0 cell,1,x| -> row 1: number
group 0 cell,1,1%FF| -> row 1: columns
";

#[test]
fn groups_have_their_books(rt: HostRuntime) -> Result<(), Fail> {
    expect_rows(&rt, GROUPS)
}

#[test]
fn rows_are_shared_out_to_groups(rt: HostRuntime) -> Result<(), Fail> {
    expect_rows(&rt, THREE_GROUPS)
}

#[test]
fn each_group_tells_the_fault(rt: HostRuntime) -> Result<(), Fail> {
    expect_rows(&rt, FAULTS)
}
