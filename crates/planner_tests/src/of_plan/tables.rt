//! Plans, and the books or faults that they come to.

use crate::of_plan::plans::expect_rows;
use std::test::Fail;

/// Which rows count, and how they are read.
const ROWS: &str = "
# A book comes to itself, octet for octet: also with a mark, empty lines and quotes that aren't needed.
plan cell,1,1| -> cell,1,1|
plan |\"cell\",1,1%0D%0A -> |\"cell\",1,1\r|
plan %EF%BB%BFcell,1,1 -> \u{FEFF}cell,1,1
plan  ->

# Separators: the first outside quotes and comments. A mark is passed over.
plan cell;1;1| -> cell,1,1|
plan cell%091%091| -> cell,1,1|
plan %EF%BB%BFcell;1;1%0D%0A -> cell,1,1|
plan # a, b|cell;1;1| -> cell,1,1|
plan \"cell\";\"1\";1| -> cell,1,1|

# Empty rows, comments and headings give none, but an order of an unknown word isn't taken for headings; nor does a
# space count.
plan cell,1,1| ,  ,|,,,,| -> cell,1,1|
plan  # note,x|cell,1,1| -> cell,1,1|
plan VERB,LAC,CI|cell,1,1| -> cell,1,1|
plan ,,|#x|VERB,LAC,CI|cell,1,1| -> cell,1,1|
plan cell,1,1|LAC,CI| -> row 2: cell, write, update, stop or area
plan wrote;0;a;4370;0;1;en;2;2;0;*;One|cell;1;1| -> row 1: cell, write, update, stop or area
plan CELL , 1 ,1 | -> cell,1,1|

# Empty fields behind a row's columns are dropped, but other ones stay.
plan cell,1,1,,,,| -> cell,1,1|
plan cell;1;1;;x| -> row 1: cell has 3 columns
plan cell,1| -> row 1: cell has 3 columns

# TEXT keeps the space round it, and is quoted where it has to be.
plan cell;1;1|write;0; a ;4370;0;1;EN;2;2;0;*; One, two ;| -> cell,1,1|write,0,a,4370,0,1,en,2,2,0,*,\" One, two \"|
plan cell;1;1|write;0;a;4370;0;1;en;2;2;0;*;say \"go\"| -> cell,1,1|write,0,a,4370,0,1,en,2,2,0,*,\"say \"\"go\"\"\"|
";

/// What stands in the book for fields.
const FIELDS: &str = "
# Times in seconds are rounded up to slots of 24480/13000 s; a period has one at least.
plan cell;1;1|write;0:30:00;a;4370;0;1;en;2;1 min;0;*;One| -> cell,1,1|write,956,a,4370,0,1,en,2,32,0,*,One|
plan cell;1;1|write;15min;a;4370;0;1;en;2;0:00:00;0;*;One| -> cell,1,1|write,478,a,4370,0,1,en,2,1,0,*,One|
plan cell;1;1|write;2 H;a;4370;0;1;en;2;90s;0;*;One| -> cell,1,1|write,3824,a,4370,0,1,en,2,48,0,*,One|
plan cell;1;1|write;0:0:0;a;4370;0;1;en;2;2s;0;*;One| -> cell,1,1|write,0,a,4370,0,1,en,2,2,0,*,One|
plan cell;1;1|write;0:60:00;a;4370;0;1;en;2;2;0;*;One| -> row 2, AT: slots from 0 to 65535, or a time as 0:30:00, \
    90 s, 15 min or 2 h
plan cell;1;1|write;06:30;a;4370;0;1;en;2;2;0;*;One| -> row 2, AT: slots from 0 to 65535, or a time as 0:30:00, 90 s, \
    15 min or 2 h

# Words of scopes and categories.
plan cell;1;1|write;0;a;4370;PLMN;1;en;High;2;0;*;One| -> cell,1,1|write,0,a,4370,1,1,en,0,2,0,*,One|
plan cell;1;1|write;0;a;4370;immediate;1;en;background;2;0;*;One| -> cell,1,1|write,0,a,4370,0,1,en,1,2,0,*,One|
plan cell;1;1|write;0;a;4370;area;1;en;normal;2;0;*;One| -> cell,1,1|write,0,a,4370,2,1,en,2,2,0,*,One|
plan cell;1;1|write;0;a;4370;cell;1;en;urgent;2;0;*;One| -> row 2, CATEGORY: high, background or normal, or 0, 1 or 2
plan cell;1;1|write;0;a;4370;0;1;xx;2;2;0;*;One| -> row 2, LANG: unknown language

# Cells: other separators, ranges, cells that no row declares.
plan write;0;a;4370;0;1;en;2;2;0;1-1,  1-2;One|stop;1;a;*| -> cell,1,1|cell,1,2|\
    write,0,a,4370,0,1,en,2,2,0,1-1 1-2,One|stop,1,a,*|
plan write;0;a;4370;0;1;en;2;2;0;\"7-2..4;1-1\";One| -> cell,7,2|cell,7,3|cell,7,4|cell,1,1|\
    write,0,a,4370,0,1,en,2,2,0,7-2 7-3 7-4 1-1,One|
plan cell;7;3|write;0;a;4370;0;1;en;2;2;0;7-2..4;One| -> cell,7,2|cell,7,4|cell,7,3|\
    write,0,a,4370,0,1,en,2,2,0,7-2 7-3 7-4,One|
plan write;0;a;4370;0;1;en;2;2;0;7-4..2;One| -> row 1, CELLS: *, or up to 64 of cells as 1-2, ranges as 1-2..9, \
    and areas
plan write;0;a;4370;0;1;en;2;2;0;7-0..64;One| -> row 1, CELLS: *, or up to 64 of cells as 1-2, ranges as 1-2..9, \
    and areas
plan cell;1;1|stop;0;a;*| -> row 2, NAME: no earlier row writes this name

# Areas, also behind the rows that name them; the first of a name counts.
plan area;town;7-1..2;1-1|write;0;a;4370;0;1;en;2;2;0;town;One| -> cell,7,1|cell,7,2|cell,1,1|\
    write,0,a,4370,0,1,en,2,2,0,7-1 7-2 1-1,One|
plan write;0;a;4370;0;1;en;2;2;0;old town;One|Area; old town ;1-1|area;old town;1-2| -> cell,1,1|\
    write,0,a,4370,0,1,en,2,2,0,1-1,One|
plan area;x;1-1|area;y;1-2|write;0;a;4370;0;1;en;2;2;0;x,y 1-3;One| -> cell,1,1|cell,1,2|cell,1,3|\
    write,0,a,4370,0,1,en,2,2,0,1-1 1-2 1-3,One|
";

/// Ends that fail, and a plan that is too long.
const ENDS: &str = "
reads 0 cell;1;1| -> ReadFailed, 0
reads 1 cell;1;1| -> ReadFailed, 0
writes 0 cell;1;1| -> WriteFailed, 0
line_feeds 16777217 -> plan is too long
";

#[test]
fn rows_are_read(rt: HostRuntime) -> Result<(), Fail> {
    expect_rows(&rt, ROWS, 21)
}

#[test]
fn fields_are_planned(rt: HostRuntime) -> Result<(), Fail> {
    expect_rows(&rt, FIELDS, 20)?;
    expect_rows(&rt, ENDS, 4)
}
