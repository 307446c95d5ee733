//! Books with faults, and what is told of each row that has one.

use crate::of_book_check::checks_table::expect_rows;
use std::test::Fail;

/// Mistakes in a third row, behind a cell and an alert.
const ROWS: &str = "
before cell,1,1|write,0,a,4370,0,1,en,2,2,0,*,One|
check  -> clean

# The number of columns: a comma in a text, a column left out, rows that a spreadsheet fills up, cells with commas, a
# quote that isn't closed.
check update,0,a,en,2,2,0,*,Two,three| -> Faults(1) 3,3,1,VERB,update,\"10 columns, update has 9\"
check write,0,b,4370,0,1,en,2,2,*,Two| -> Faults(1) 3,3,1,VERB,write,\"11 columns, write has 12\"
check cell,1,2,,,,| -> Faults(1) 3,3,1,VERB,cell,\"7 columns, cell has 3\"
check stop,0,a,1-1,1-1| -> Faults(1) 3,3,1,VERB,stop,\"5 columns, stop has 4\"
check write,0,b,4370,0,1,en,2,2,0,\"*,Two|stop,1,a,*| -> Faults(1) 3,3,1,VERB,write,\"11 columns, write has 12\"
# Octets that aren't UTF-8: in a text, in a name, in a verb, and in columns that no verb has.
check write,0,b,4370,0,1,en,2,2,0,*,caf%E9| -> Faults(1) 3,3,12,TEXT,caf\\xe9,not UTF-8: save as CSV UTF-8
check stop,0,%FC~,%FC| -> Faults(1) 3,3,3,NAME,\\xfc~,not UTF-8: save as CSV UTF-8
check st%F6p,0,a,*| -> Faults(1) 3,3,1,VERB,st\\xf6p,not UTF-8: save as CSV UTF-8
check cell,1,2,%7F%80| -> Faults(1) 3,3,4,,\\x7f\\x80,not UTF-8: save as CSV UTF-8
check sell,%FF| -> Faults(1) 3,3,2,,\\xff,not UTF-8: save as CSV UTF-8

# Verbs: capitals, a space, a comment, other separators.
check Write,0,b,4370,0,1,en,2,2,0,*,Two| -> Faults(1) 3,3,1,VERB,Write,\"cell, write, update or stop\"
check cell ,1,2| -> Faults(1) 3,3,1,VERB,cell ,\"cell, write, update or stop\"
check # a comment| -> Faults(1) 3,3,1,VERB,# a comment,\"cell, write, update or stop\"
check cell;1;2| -> Faults(1) 3,3,1,VERB,cell;1;2,columns are separated by commas
check cell%091%092| -> Faults(1) 3,3,1,VERB,cell\t1\t2,columns are separated by commas
check cell;1,2| -> Faults(1) 3,3,1,VERB,cell;1,\"cell, write, update or stop\"
check ,| -> Faults(1) 3,3,1,VERB,,\"cell, write, update or stop\"
# Numbers: out of range, of six digits, with other signs, in the wrong column.
check write,0,b,70000,0,1,en,2,2,0,*,Two| -> Faults(1) 3,3,4,ID,70000,a number from 0 to 65535
check write,0,b,004371,0,1,en,2,2,0,*,Two| -> Faults(1) 3,3,4,ID,004371,a number from 0 to 65535
check write,0,b,4370,4,1,en,2,2,0,*,Two| -> Faults(1) 3,3,5,SCOPE,4,a number from 0 to 3
check write,0,b,0,4370,1,en,2,2,0,*,Two| -> Faults(1) 3,3,5,SCOPE,4370,a number from 0 to 3
check write,0,b,4370,0,1024,en,2,2,0,*,Two| -> Faults(1) 3,3,6,CODE,1024,a number from 0 to 1023
check write,0,b,4370,0,1,2,en,2,0,*,Two| -> Faults(1) 3,3,8,CATEGORY,en,\"0 (high), 1 (background) or 2 (normal)\"
check update,0,a,en,3,2,0,*,Two| -> Faults(1) 3,3,5,CATEGORY,3,\"0 (high), 1 (background) or 2 (normal)\"
check write,0,b,4370,0,1,en,2,1025,0,*,Two| -> Faults(1) 3,3,9,PERIOD,1025,a number from 1 to 1024
check write,0,b,4370,0,1,en,2,06:30,0,*,Two| -> Faults(1) 3,3,9,PERIOD,06:30,a number from 1 to 1024
check update,0,a,en,2,0,0,*,Two| -> Faults(1) 3,3,6,PERIOD,0,a number from 1 to 1024
check write,0,b,4370,0,1,en,2,2,x,*,Two| -> Faults(1) 3,3,10,BROADCASTS,x,a number from 0 to 65535
check update,0,a,en,2,2,65536,*,Two| -> Faults(1) 3,3,7,BROADCASTS,65536,a number from 0 to 65535
check write,30min,b,4370,0,1,en,2,2,0,*,Two| -> Faults(1) 3,3,2,AT,30min,a number from 0 to 65535
check stop,-1,a,*| -> Faults(1) 3,3,2,AT,-1,a number from 0 to 65535
check cell,4021,101 | -> Faults(1) 3,3,3,CI,101 ,a number from 0 to 65535
check cell,,x| -> Faults(1) 3,3,2,LAC,,a number from 0 to 65535

# Lists of cells: with commas, two spaces, a space behind them, a range, a CI alone, none.
check stop,0,a,\"1-1,1-1\"| -> Faults(1) 3,3,4,CELLS,\"1-1,1-1\",* or LAC-CI with one space between
check stop,0,a,1-1  1-1| -> Faults(1) 3,3,4,CELLS,1-1  1-1,* or LAC-CI with one space between
check stop,0,a,1-1 | -> Faults(1) 3,3,4,CELLS,1-1 ,* or LAC-CI with one space between
check stop,0,a,1-1..1-3| -> Faults(1) 3,3,4,CELLS,1-1..1-3,* or LAC-CI with one space between
check update,0,a,en,2,2,0,1,Two| -> Faults(1) 3,3,8,CELLS,1,* or LAC-CI with one space between
check write,0,b,4370,0,1,en,2,2,0,,Two| -> Faults(1) 3,3,11,CELLS,,* or LAC-CI with one space between

# Cells: not declared, the first of several, twice, declared before.
check stop,0,a,1-2| -> Faults(1) 3,3,4,CELLS,1-2,no earlier row declares this cell: 1-2
check stop,0,a,1-1 02-3 1-2 1-1| -> Faults(1) 3,3,4,CELLS,1-1 02-3 1-2 1-1,no earlier row declares this cell: 2-3
check stop,0,a,1-1 1-1| -> Faults(1) 3,3,4,CELLS,1-1 1-1,a cell comes twice
check cell,01,1| -> Faults(1) 3,3,3,CI,1,an earlier row declares this cell

# Names: not written, with a space, none, written before.
check stop,0,b,*| -> Faults(1) 3,3,3,NAME,b,no earlier row writes this name
check update,0,a ,en,2,2,0,*,Two| -> Faults(1) 3,3,3,NAME,a ,no earlier row writes this name
check stop,0,,*| -> Faults(1) 3,3,3,NAME,,no earlier row writes this name
check write,0,a,4371,0,2,en,2,2,0,*,Two| -> Faults(1) 3,3,3,NAME,a,row 2 has this name
check write,0,,4371,0,2,en,2,2,0,*,Two| -> Faults(1) 3,3,3,NAME,,a name

# Languages and texts.
check write,0,b,4371,0,2,pol,2,2,0,*,Two| -> Faults(1) 3,3,7,LANG,pol,\"unknown language: de, en, it, fr, es, nl, sv, \
    da, pt, fi, no, el, tr, hu, pl, und, cs, he, ar, ru or is\"
check update,0,a,PL,2,2,0,*,| -> Faults(1) 3,3,4,LANG,PL,\"unknown language: de, en, it, fr, es, nl, sv, da, pt, fi, \
    no, el, tr, hu, pl, und, cs, he, ar, ru or is\"
check write,0,b,4371,0,2,en,2,2,0,*,| -> Faults(1) 3,3,12,TEXT,,a text
check update,0,a,en,2,2,0,*,Feuer🔥| -> Faults(1) 3,3,9,TEXT,Feuer🔥,bad character at 5
check write,0,b,4371,0,2,en,2,2,0,*,a%09b| -> Faults(1) 3,3,12,TEXT,a\tb,bad character at 1
";

/// Whole books: marks at their start, what the first row may have, and values that are quoted.
const WHOLE: &str = "
check  -> clean
check %EF%BB%BFcell,1,1| -> clean
check VERB,AT,NAME|cell,1,1| -> Faults(1) 1,1,1,VERB,VERB,\"cell, write, update or stop\"
check %FF%FEc%00e%00l%00l%00,%001%00 -> Faults(1) 1,1,1,VERB,\\xff\\xfec\\x00e\\x00l\\x00l\\x00,not UTF-8: save as \
    CSV UTF-8
check write,0,a,4370,0,1,en,2,2,0,*,One| -> Faults(1) 1,1,11,CELLS,*,no earlier row declares a cell
check \"say \"\"go\"\"\",1| -> Faults(1) 1,1,1,VERB,\"say \"\"go\"\"\",\"cell, write, update or stop\"
check \"go|now\",1| -> Faults(1) 1,1,1,VERB,\"go|now\",\"cell, write, update or stop\"
";

/// Lines: a record begins on that of its first octet. Those in quotes and empty ones count, after LF, CRLF and CR.
const LINES: &str = "
check cell,1,1|cell,x,1| -> Faults(1) 2,2,2,LAC,x,a number from 0 to 65535
check |||cell,1,1||cell,x,1| -> Faults(1) 2,6,2,LAC,x,a number from 0 to 65535
check cell,1,1%0D%0Acell,x,1%0D%0Acell,y,1 -> Faults(2) 2,2,2,LAC,x,a number from 0 to 65535|\
    3,3,2,LAC,y,a number from 0 to 65535
check cell,1,1%0Dcell,x,1%0Dcell,y,1%0D -> Faults(2) 2,2,2,LAC,x,a number from 0 to 65535|\
    3,3,2,LAC,y,a number from 0 to 65535
check cell,1,1%0D%0A%0D%0A%0D%0Acell,x,1| -> Faults(1) 2,4,2,LAC,x,a number from 0 to 65535
check cell,1,1%0D%0D|cell,x,1| -> Faults(1) 2,3,2,LAC,x,a number from 0 to 65535
check cell,1,1|write,0,a,4370,0,1,en,2,2,0,*,\"One|two%0D%0Athree%0Dfour\"|cell,x,1| -> Faults(2) \
    2,2,12,TEXT,\"One|two\r|three\rfour\",bad character at 7|3,6,2,LAC,x,a number from 0 to 65535
check \"a|b\",1|cell,x,\"1|2\"|cell,y,1| -> Faults(3) 1,1,1,VERB,\"a|b\",\"cell, write, update or \
    stop\"|2,3,2,LAC,x,a number from 0 to 65535|3,5,2,LAC,y,a number from 0 to 65535
check %EF%BB%BF|cell,x,1| -> Faults(1) 1,2,2,LAC,x,a number from 0 to 65535
check cell,x\"|\"y,1| -> Faults(2) 1,1,1,VERB,cell,\"2 columns, cell has 3\"|2,2,1,VERB,\"y,1|\",\"cell, write, \
    update or stop\"
";

/// Several faults: each row is judged beside the right ones.
const SEVERAL: &str = "
# A wrong `write` still has its name, whatever else is wrong with it, and its row is the one that has the name.
before cell,1,1|
check write,x,b,1,0,1,en,2,2,0,*,Two|stop,0,b,*| -> Faults(1) 2,2,2,AT,x,a number from 0 to 65535
check write,0,b|stop,0,b,*| -> Faults(1) 2,2,1,VERB,write,\"3 columns, write has 12\"
check write,0,b,%FF|stop,0,b,*| -> Faults(1) 2,2,4,ID,\\xff,not UTF-8: save as CSV UTF-8
check write,x,b,1,0,1,en,2,2,0,*,Two|write,0,b,1,0,1,en,2,2,0,*,Two| -> Faults(2) 2,2,2,AT,x,a number from 0 to 65535|\
    3,3,3,NAME,b,row 2 has this name

# It doesn't where the name isn't one that the row may write: none, one that isn't UTF-8; nor has a row of no verb.
check write,x,,1,0,1,en,2,2,0,*,Two|stop,0,,*| -> Faults(2) 2,2,2,AT,x,a number from 0 to 65535|\
    3,3,3,NAME,,no earlier row writes this name
check write,0,%FF,1,0,1,en,2,2,0,*,Two|stop,0,b,*| -> Faults(2) 2,2,3,NAME,\\xff,not UTF-8: save as CSV UTF-8|\
    3,3,3,NAME,b,no earlier row writes this name
check Write,0,b,1,0,1,en,2,2,0,*,Two|stop,0,b,*| -> Faults(2) 2,2,1,VERB,Write,\"cell, write, update or \
    stop\"|3,3,3,NAME,b,no earlier row writes this name

# A cell counts if its row is right, and an update if its row is right, whatever its text.
check cell,1,2x|write,0,b,1,0,1,en,2,2,0,1-2,Two| -> Faults(2) 2,2,3,CI,2x,a number from 0 to 65535|\
    3,3,11,CELLS,1-2,no earlier row declares this cell: 1-2
check write,0,b,1,0,1,xx,2,2,0,*,Two|update,0,b,en,2,2,0,*,| -> Faults(2) 2,2,7,LANG,xx,\"unknown language: de, en, \
    it, fr, es, nl, sv, da, pt, fi, no, el, tr, hu, pl, und, cs, he, ar, ru or is\"|3,3,9,TEXT,,a text

# Each row is told once, its first fault.
check write,x,b,70000,9,1,xx,2,2,0,9-9,| -> Faults(1) 2,2,2,AT,x,a number from 0 to 65535
line write,x,b,70000,9,1,xx,2,2,0,9-9,| -> faults: 1
line sell|sell|sell| -> faults: 3
";

/// Rows, cells and updates too many, and long values.
const LIMITS: &str = "
# An alert may be updated fifteen times. Updates that are wrong don't count, but those with wrong texts do.
before cell,1,1|write,0,a,4370,0,1,en,2,2,0,*,One|
times 14 update,0,a,en,2,2,0,*,Two|
times 1 update,0,a,xx,2,2,0,*,Two|
times 1 update,0,a,en,9,2,0,*,Two|
check stop,0,a,*| -> Faults(2) 17,17,4,LANG,xx,\"unknown language: de, en, it, fr, es, nl, sv, da, pt, fi, no, el, \
    tr, hu, pl, und, cs, he, ar, ru or is\"|18,18,5,CATEGORY,9,\"0 (high), 1 (background) or 2 (normal)\"
check update,0,a,en,2,2,0,*,Two| -> Faults(3) 17,17,4,LANG,xx,\"unknown language: de, en, it, fr, es, nl, sv, da, pt, \
    fi, no, el, tr, hu, pl, und, cs, he, ar, ru or is\"|18,18,5,CATEGORY,9,\"0 (high), 1 (background) or 2 \
    (normal)\"|19,19,3,NAME,a,an alert has 15 updates at most

# A book declares 64 cells at most.
before cell,1,0|cell,1,1|cell,1,2|cell,1,3|cell,1,4|cell,1,5|cell,1,6|cell,1,7|cell,1,8|cell,1,9|cell,1,10|\
    cell,1,11|cell,1,12|cell,1,13|cell,1,14|cell,1,15|cell,1,16|cell,1,17|cell,1,18|cell,1,19|cell,1,20|\
    cell,1,21|cell,1,22|cell,1,23|cell,1,24|cell,1,25|cell,1,26|cell,1,27|cell,1,28|cell,1,29|cell,1,30|\
    cell,1,31|cell,1,32|cell,1,33|cell,1,34|cell,1,35|cell,1,36|cell,1,37|cell,1,38|cell,1,39|cell,1,40|\
    cell,1,41|cell,1,42|cell,1,43|cell,1,44|cell,1,45|cell,1,46|cell,1,47|cell,1,48|cell,1,49|cell,1,50|\
    cell,1,51|cell,1,52|cell,1,53|cell,1,54|cell,1,55|cell,1,56|cell,1,57|cell,1,58|cell,1,59|cell,1,60|\
    cell,1,61|cell,1,62|cell,1,63|
check  -> clean
check cell,2,1|cell,3,x| -> Faults(2) 65,65,1,VERB,cell,a book has 64 cells at most|\
    66,66,1,VERB,cell,a book has 64 cells at most

# A book has 4,096 rows at most. Of the rows after them one is told.
times 1 write,0,a,4370,0,1,en,2,2,0,*,One|
times 4030 stop,1,a,*|
check  -> clean
check stop,1,a,*| -> clean
check sell| -> Faults(1) 4096,4096,1,VERB,sell,\"cell, write, update or stop\"
check stop,1,a,*|stop,1,a,*| -> Faults(1) 4097,4097,1,VERB,stop,a book has 4096 rows at most
check sell|%FF|sell| -> Faults(2) 4096,4096,1,VERB,sell,\"cell, write, update or stop\"|4097,4097,1,VERB,\\xff,a book \
    has 4096 rows at most

# Texts of 15 pages and of 16, in the GSM 7-bit alphabet and in UCS-2.
before cell,1,1|write,0,a,4370,0,1,en,2,2,0,*,
times 1395 a
check | -> clean
check a| -> Faults(1) 2,2,12,TEXT,aaaaaaaaaaaaaaaaaaaaaaaaaaaaaaaaaaaaaaaaaaaaaaaaaaaaaaaaaaaaaaaaaaaaaaaaaaaaaaaa,\
    \"16 pages, 15 is the most\"
before cell,1,1|write,0,a,4370,0,1,en,2,2,0,*,abó
times 612 a
check | -> clean
check a| -> Faults(1) 2,2,12,TEXT,abóaaaaaaaaaaaaaaaaaaaaaaaaaaaaaaaaaaaaaaaaaaaaaaaaaaaaaaaaaaaaaaaaaaaaaaaaaaaaa,\
    \"16 pages, 15 is the most: UCS-2 because of ó at 2\"

# Of a long value its first 80 characters are shown, whole ones.
before
check xxxxxxxxxxxxxxxxxxxxxxxxxxxxxxxxxxxxxxxxxxxxxxxxxxxxxxxxxxxxxxxxxxxxxxxxxxxxxxxx| -> Faults(1) \
    1,1,1,VERB,xxxxxxxxxxxxxxxxxxxxxxxxxxxxxxxxxxxxxxxxxxxxxxxxxxxxxxxxxxxxxxxxxxxxxxxxxxxxxxxx,\"cell, write, update \
    or stop\"
check xxxxxxxxxxxxxxxxxxxxxxxxxxxxxxxxxxxxxxxxxxxxxxxxxxxxxxxxxxxxxxxxxxxxxxxxxxxxxxxxx| -> Faults(1) \
    1,1,1,VERB,xxxxxxxxxxxxxxxxxxxxxxxxxxxxxxxxxxxxxxxxxxxxxxxxxxxxxxxxxxxxxxxxxxxxxxxxxxxxxxxx,\"cell, write, update \
    or stop\"
check xxxxxxxxxxxxxxxxxxxxxxxxxxxxxxxxxxxxxxxxxxxxxxxxxxxxxxxxxxxxxxxxxxxxxxxxxxxxxxx€€| -> Faults(1) \
    1,1,1,VERB,xxxxxxxxxxxxxxxxxxxxxxxxxxxxxxxxxxxxxxxxxxxxxxxxxxxxxxxxxxxxxxxxxxxxxxxxxxxxxxx€,\"cell, write, update \
    or stop\"
check xxxxxxxxxxxxxxxxxxxxxxxxxxxxxxxxxxxxxxxxxxxxxxxxxxxxxxxxxxxxxxxxxxxxxxxxxxxxxxx%FF%FF| -> Faults(1) \
    1,1,1,VERB,xxxxxxxxxxxxxxxxxxxxxxxxxxxxxxxxxxxxxxxxxxxxxxxxxxxxxxxxxxxxxxxxxxxxxxxxxxxxxxx\\xff,not UTF-8: save \
    as CSV UTF-8
check xxxxxxxxxxxxxxxxxxxxxxxxxxxxxxxxxxxxxxxxxxxxxxxxxxxxxxxxxxxxxxxxxxxxxxxxxxxxxxxx%BF%FF| -> Faults(1) \
    1,1,1,VERB,xxxxxxxxxxxxxxxxxxxxxxxxxxxxxxxxxxxxxxxxxxxxxxxxxxxxxxxxxxxxxxxxxxxxxxxxxxxxxxxx\\xbf,not UTF-8: save \
    as CSV UTF-8

# A book has 16 MiB at most. One octet past the bound is read, and no more.
line_feeds 16777217 -> row 0: too many rows, 0 left
line_feeds 16777218 -> row 0: too many rows, 1 left
line_feeds 16777216 -> clean
";

/// Network books: more cells, and other bounds. Cells of another group are declared, too.
const NETWORKS: &str = "
extent network
before cell,1,1|write,0,a,4370,0,1,en,2,2,0,*,One|
check  -> clean
check cell,1,1| -> Faults(1) 3,3,3,CI,1,an earlier row declares this cell
check stop,0,a,1-1 1-2| -> Faults(1) 3,3,4,CELLS,1-1 1-2,no earlier row declares this cell: 1-2
check stop,0,a,1-1 1-1| -> Faults(1) 3,3,4,CELLS,1-1 1-1,a cell comes twice
check stop,0,a,1 1| -> Faults(1) 3,3,4,CELLS,1 1,* or LAC-CI with one space between
check update,0,a,en,2,2,0,*,| -> Faults(1) 3,3,9,TEXT,,a text
check sell,1,1|stop,0,b,*|cell,1,2|stop,0,a,1-2| -> Faults(2) 3,3,1,VERB,sell,\"cell, write, update or stop\"|\
    4,4,3,NAME,b,no earlier row writes this name
check write,0,b,70000,0,1,en,2,2,0,*,Two|stop,0,b,*| -> Faults(1) 3,3,4,ID,70000,a number from 0 to 65535

# A group's faults are those of the network; a network without a fault has the group or not.
extent group 0
check -> clean
check cell,1| -> Faults(1) 3,3,1,VERB,cell,\"2 columns, cell has 3\"
extent group 1
check cell,1| -> Faults(1) 3,3,1,VERB,cell,\"2 columns, cell has 3\"
line -> no such group: the network has 1
before
line -> no such group: the network has 1
extent group 0
check -> clean

# Failing ends.
most 10
before cell,1,1|
reads 0 -> ReadFailed, true, 0
reads 2 -> clean
writes 0 -> WriteFailed, true, 0
writes 3 -> WriteFailed, true, 30
writes 8 sell| -> Faults(1), false, 79
extent group 1
writes 0 -> NoGroup(1), false, 0
";

/// How many rows and octets a network book may have.
const NETWORK_LIMITS: &str = "
# More than 4,096 rows besides cells: the first is told, and no row after it. Cells may follow the 4,096th.
extent network
before cell,1,1|write,0,a,4370,0,1,en,2,2,0,*,One|
times 4094 stop,0,a,*|
check stop,0,a,*| -> clean
check stop,0,a,*|cell,1,2| -> clean
check stop,0,a,*|stop,0,a,*|sell| -> Faults(1) 4098,4098,1,VERB,stop,a network book has 4096 rows besides cells at most
check stop,0,a,*|sell| -> Faults(1) 4098,4098,1,VERB,sell,a network book has 4096 rows besides cells at most
# A wrong row is none of them, unless later rows are judged by its name.
check sell|stop,0,a,*| -> Faults(1) 4097,4097,1,VERB,sell,\"cell, write, update or stop\"
check write,x,b,4370,0,1,en,2,2,0,*,Two|stop,0,a,*| -> Faults(2) 4097,4097,2,AT,x,a number from 0 to 65535|\
    4098,4098,1,VERB,stop,a network book has 4096 rows besides cells at most

# A network book has 64 MiB at most.
before
line_feeds 67108865 -> row 0: too many rows, 0 left
line_feeds 16777217 -> clean
";

/// Ends that fail: the reader at its first call, its second .., and the writer, of whose octets a front is out.
const ENDS: &str = "
most 10
before cell,1,1|
reads 0 -> ReadFailed, true, 0
reads 1 -> ReadFailed, true, 0
reads 2 -> clean
writes 0 -> WriteFailed, true, 0
writes 3 -> WriteFailed, true, 30
writes 4 -> clean
writes 7 sell| -> WriteFailed, true, 70
writes 8 sell| -> Faults(1), false, 79

# The reader is read first.
line sell| -> faults: 1
";

#[test]
fn each_row_with_a_fault_is_told(rt: HostRuntime) -> Result<(), Fail> {
    expect_rows(&rt, ROWS, 54)?;
    expect_rows(&rt, WHOLE, 7)?;
    expect_rows(&rt, LINES, 10)?;
    expect_rows(&rt, SEVERAL, 12)
}

#[test]
fn limits_and_failed_ends_are_told(rt: HostRuntime) -> Result<(), Fail> {
    expect_rows(&rt, LIMITS, 21)?;
    expect_rows(&rt, ENDS, 9)
}

#[test]
fn each_row_of_a_network_with_a_fault_is_told(rt: HostRuntime) -> Result<(), Fail> {
    expect_rows(&rt, NETWORKS, 20)
}

#[test]
fn limits_of_networks_are_told(rt: HostRuntime) -> Result<(), Fail> {
    expect_rows(&rt, NETWORK_LIMITS, 8)
}
