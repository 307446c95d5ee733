//! Books as tables: what is read, and the line of each fault beside the book mended.
//!
//! `|` is the line feed that ends a row, and `%` with two digits an octet that a table can't show.

use crate::books_table::expect_rows;
use std::test::Fail;

/// The cells of books, and the fault of each kind, where a read gives few octets.
const BOOKS: &str = r#"
most 5
before cell,1,1|cell,1,2|write,0,a,4370,0,1,en,2,2,0,*,One|write,0,b,4371,0,2,en,0,2,65535,1-2,Two|
cells_of update,1,a,en,2,2,0,1-2 1-1,Three|stop,2,b,1-2| -> 1-1 1-2
before
cells_of cell,1,1||cell,00001,2 -> 1-1 1-2
cells_of -> none
cells_of cell,65535,0%0D| -> 65535-0

most 7
fault cell,1| -> BookFault { row: 1, kind: Columns }
fault sell,1,1| -> BookFault { row: 1, kind: Verb }
fault cell,x,1| -> BookFault { row: 1, kind: Number }
fault cell,1,1|cell,1,1| -> BookFault { row: 2, kind: TwiceNamed }
fault write,0,a,4370,0,1,en,2,2,0,*,One| -> BookFault { row: 1, kind: UnknownCell }
fault stop,0,a,*| -> BookFault { row: 1, kind: UnknownName }
before cell,1,1|write,0,a,4370,0,1,
fault en,2,2,0,1-2,One| -> BookFault { row: 2, kind: UnknownCell }
fault en,2,2,0,1-1 1-1,One| -> BookFault { row: 2, kind: TwiceNamed }
fault en,2,0,0,*,One| -> BookFault { row: 2, kind: Number }
fault en,2,1025,0,*,One| -> BookFault { row: 2, kind: Number }
fault en,3,2,0,*,One| -> BookFault { row: 2, kind: Number }
fault en,2,2,0,*,| -> BookFault { row: 2, kind: Text(Empty) }
fault en,2,2,0,*,A%09B| -> BookFault { row: 2, kind: Text(BadCharacter { place: 1 }) }
# The language of a text is looked at before its characters.
fault xx,2,2,0,*,| -> BookFault { row: 2, kind: Text(BadLanguage) }
"#;

/// The line of each fault, and the row mended.
const ROWS: &str = r#"
# A book of one row, with no line feed at its end.
book cell,1 -> row 1: columns
book cell,1,1 -> read
book sell,1,1 -> row 1: verb
book cell,x,1 -> row 1: number
book cell,1,1,1 -> row 1: columns
book Cell,1,1 -> row 1: verb
book %20cell,1,1 -> row 1: verb
book cell,+1,1 -> row 1: number
book cell,65536,1 -> row 1: number
book cell,65535,1 -> read
book cell,000001,1 -> row 1: number
book cell,00001,1 -> read
book write,0,a,4370,0,1,en,2,2,0,*,One -> row 1: unknown cell
book cell,1,1|write,0,a,4370,0,1,en,2,2,0,*,One| -> read
book stop,0,a,* -> row 1: unknown name
book -> read

# A row after a cell and a write.
before cell,1,1|write,0,a,4370,0,1,en,2,2,0,*,One|
book cell,1,1| -> row 3: named twice
book cell,1,2| -> read
book cell,00001,01| -> row 3: named twice
book cell,00001,02| -> read
book cell,1| -> row 3: columns
book stop,0,b,*| -> row 3: unknown name
book stop,0,a,*| -> read
book stop,65536,a,*| -> row 3: number
book stop,65535,a,*| -> read
book stop,0,a| -> row 3: columns
book stop,0,a,1-1| -> read
book update,0,,en,2,2,0,*,Two| -> row 3: unknown name
book update,0,a,en,2,2,0,*,Two| -> read
book update,0,a,en,2,2,0,*,Two,three| -> row 3: columns
book update,0,a,en,2,2,0,*,"Two,three"| -> read
book write,0,a,4371,0,1,en,2,2,0,*,Two| -> row 3: named twice
book write,0,b,4371,0,1,en,2,2,0,*,Two| -> read
book write,0,,4371,0,1,en,2,2,0,*,Two| -> row 3: unknown name
book write,0, ,4371,0,1,en,2,2,0,*,Two| -> read

# The columns of a write, from its message identifier on.
before cell,1,1|write,0,a,
book 4370,0,1,en,2,2,0,1-2,One| -> row 2: unknown cell
book 4370,0,1,en,2,2,0,1-1,One| -> read
book 4370,0,1,en,2,2,0,1-1 1-1,One| -> row 2: named twice
book 4370,0,1,en,2,2,0,01-1,One| -> read
book 4370,0,1,en,2,2,0,1/1,One| -> row 2: number
book 4370,0,1,en,2,2,0,,One| -> row 2: number
book 4370,0,1,en,2,2,0,*,One| -> read
book 4370,0,1,en,2,0,0,*,One| -> row 2: number
book 4370,0,1,en,2,1,0,*,One| -> read
book 4370,0,1,en,2,1025,0,*,One| -> row 2: number
book 4370,0,1,en,2,1024,0,*,One| -> read
book 4370,0,1,en,3,2,0,*,One| -> row 2: number
book 4370,0,1,en,1,2,0,*,One| -> read
book 4370,4,1,en,2,2,0,*,One| -> row 2: number
book 4370,3,1,en,2,2,0,*,One| -> read
book 4370,0,1024,en,2,2,0,*,One| -> row 2: number
book 4370,0,1023,en,2,2,0,*,One| -> read
book 65536,0,1,en,2,2,0,*,One| -> row 2: number
book 65535,0,1,en,2,2,0,*,One| -> read
book 4370,0,1,en,2,2,65536,*,One| -> row 2: number
book 4370,0,1,en,2,2,65535,*,One| -> read
book 4370,0,1,en,2,2,0,*,| -> row 2: text is empty
book 4370,0,1,en,2,2,0,*,%20| -> read
book 4370,0,1,xx,2,2,0,*,One| -> row 2: unknown language
book 4370,0,1,und,2,2,0,*,One| -> read
book 4370,0,1,en,2,2,0,*,A%09B| -> row 2: bad character at 1
book 4370,0,1,en,2,2,0,*,A B| -> read
book 4370,0,1,en,2,2,0,*,Я🚨| -> row 2: bad character at 1
book 4370,0,1,en,2,2,0,*,Я!| -> read
"#;

/// Which fault is told: of one row the first, of several rows that of the first row, and those of texts last.
const FIRST_FAULTS: &str = r#"
book sell,%FF,1| -> row 1: columns
book sell| -> row 1: verb
book cell,x| -> row 1: columns
book cell,x,1|sell| -> row 1: number
book cell,1,1|cell,1,x| -> row 2: number
book write,x,,65536,9,9,en,9,0,x,,| -> row 1: number
book write,0,,65536,9,9,en,9,0,x,,| -> row 1: unknown name
book stop,0,a,| -> row 1: unknown name
book write,0,a,4370,0,1,xx,2,2,x,1-1,| -> row 1: number
book write,0,a,4370,0,1,xx,2,2,0,1-1,| -> row 1: unknown cell
book cell,1,1|write,0,a,4370,0,1,xx,2,2,0,1-2 1-1 1-1 x,| -> row 2: number
book cell,1,1|write,0,a,4370,0,1,xx,2,2,0,1-1 1-1 1-2,| -> row 2: unknown cell
book cell,1,1|write,0,a,4370,0,1,xx,2,2,0,1-1 1-1,| -> row 2: named twice
book cell,1,1|write,0,a,4370,0,1,xx,2,2,0,*,|stop,0,b,*| -> row 3: unknown name
book cell,1,1|write,0,a,1,0,1,xx,2,2,0,*,|write,0,b,2,0,1,en,2,2,0,*,| -> row 2: unknown language
"#;

/// What people and spreadsheets write that isn't a book.
const NO_BOOKS: &str = r#"
book cell;1;1| -> row 1: verb
book cell%091%091| -> row 1: verb
book cell,1,1,,,,,,,,,| -> row 1: columns
book cell, 1,1| -> row 1: number
book verb,lac,ci|cell,1,1| -> row 1: verb
book cell,1,1|,,,| -> row 2: verb
book %FF%FEc%00e%00l%00l%00,%00 -> row 1: columns
book cell,1,1|write,0,a,4370,0,1,en,2,2,0,*,caf%E9| -> row 2: columns
book cell,1,1|write,0,a,4370,0,1,en,2,2,0,*,"go%0D|now"| -> row 2: bad character at 2
book ||cell,1,1|||sell| -> row 2: verb
book cell,1,1|write,0,a,4370,0,1,en,2,2,0,*,"go||now"|sell| -> row 3: verb
"#;

/// Both sides of each limit, and readers that fail.
const LIMITS: &str = "
# 1,395 letters fill 15 pages.
before cell,1,1|write,0,a,4370,0,1,en,2,2,0,*,
times 1395 a
book | -> read
book a| -> row 2: too many pages

# An alert may be updated fifteen times. The cells of a sixteenth update are looked at before its number.
before cell,1,1|write,0,a,4370,0,1,en,2,2,0,*,One|
times 15 update,1,a,en,2,2,0,*,Two|
book -> read
book | -> read
book update,1,a,en,2,2,0,*,Two| -> row 18: too many updates
book update,1,a,en,2,2,0,1-2,Two| -> row 18: unknown cell

# The updates of each name count alone, here of two that begin alike, with stops between.
before cell,1,1|write,0,a,4370,0,1,en,2,2,0,*,One|write,0,aa,4371,0,2,en,2,2,0,*,One|
times 15 update,1,a,en,2,2,0,*,Two|stop,1,aa,*|update,1,aa,en,2,2,0,*,Two|
book write,1,b,4372,0,3,en,2,2,0,*,One| -> read
book update,1,a,en,2,2,0,*,Two| -> row 49: too many updates
book update,1,aa,en,2,2,0,*,Two| -> row 49: too many updates
book update,1,b,en,2,2,0,*,Two| -> row 49: unknown name
book write,1,aa,4372,0,3,en,2,2,0,*,One| -> row 49: named twice
book stop,1,aa,*| -> read

# A book declares 64 cells at most. A 65th has its columns looked at first, and its numbers last.
before cell,1,0|cell,1,1|cell,1,2|cell,1,3|cell,1,4|cell,1,5|cell,1,6|cell,1,7|cell,1,8|cell,1,9|cell,1,10|cell,1,11|\
    cell,1,12|cell,1,13|cell,1,14|cell,1,15|cell,1,16|cell,1,17|cell,1,18|cell,1,19|cell,1,20|cell,1,21|cell,1,22|\
    cell,1,23|cell,1,24|cell,1,25|cell,1,26|cell,1,27|cell,1,28|cell,1,29|cell,1,30|cell,1,31|cell,1,32|cell,1,33|\
    cell,1,34|cell,1,35|cell,1,36|cell,1,37|cell,1,38|cell,1,39|cell,1,40|cell,1,41|cell,1,42|cell,1,43|cell,1,44|\
    cell,1,45|cell,1,46|cell,1,47|cell,1,48|cell,1,49|cell,1,50|cell,1,51|cell,1,52|cell,1,53|cell,1,54|cell,1,55|\
    cell,1,56|cell,1,57|cell,1,58|cell,1,59|cell,1,60|cell,1,61|cell,1,62|cell,1,63|
book | -> read
book cell,1,64| -> row 65: too many rows
book cell,1| -> row 65: columns
book cell,x,1| -> row 65: too many rows

# A book has 4,096 rows at most: here 64 cells, a write and its stops.
before cell,1,0|cell,1,1|cell,1,2|cell,1,3|cell,1,4|cell,1,5|cell,1,6|cell,1,7|cell,1,8|cell,1,9|cell,1,10|cell,1,11|\
    cell,1,12|cell,1,13|cell,1,14|cell,1,15|cell,1,16|cell,1,17|cell,1,18|cell,1,19|cell,1,20|cell,1,21|cell,1,22|\
    cell,1,23|cell,1,24|cell,1,25|cell,1,26|cell,1,27|cell,1,28|cell,1,29|cell,1,30|cell,1,31|cell,1,32|cell,1,33|\
    cell,1,34|cell,1,35|cell,1,36|cell,1,37|cell,1,38|cell,1,39|cell,1,40|cell,1,41|cell,1,42|cell,1,43|cell,1,44|\
    cell,1,45|cell,1,46|cell,1,47|cell,1,48|cell,1,49|cell,1,50|cell,1,51|cell,1,52|cell,1,53|cell,1,54|cell,1,55|\
    cell,1,56|cell,1,57|cell,1,58|cell,1,59|cell,1,60|cell,1,61|cell,1,62|cell,1,63|
times 1 write,0,a,4370,0,1,en,2,2,0,*,One|
times 4031 stop,1,a,*|
book | -> read
book stop,1,a,*| -> row 4097: too many rows

# A book has 16 MiB at most. One octet past the bound is read, and no more.
before
most 65536
line_feeds 16777217 -> row 0: too many rows
line_feeds 16777216 -> read
line_feeds_left 16777218 -> BookFault { row: 0, kind: TooManyRows }, 1 left

# A reader that fails at its first call, its second ..
before cell,1,1|write,0,a,4370,0,1,en,2,2,0,1-1,One|update,1,a,ru,2,2,0,*,Вода|stop,2,a,1-1|
most 10
failing_after 0 -> BookFault { row: 0, kind: ReadFailed }, the source has failed
failing_after 1 -> BookFault { row: 0, kind: ReadFailed }, the source has failed
failing_after 2 -> BookFault { row: 0, kind: ReadFailed }, the source has failed
failing_after 3 -> BookFault { row: 0, kind: ReadFailed }, the source has failed
failing_after 4 -> BookFault { row: 0, kind: ReadFailed }, the source has failed
failing_after 5 -> BookFault { row: 0, kind: ReadFailed }, the source has failed
failing_after 6 -> BookFault { row: 0, kind: ReadFailed }, the source has failed
failing_after 7 -> BookFault { row: 0, kind: ReadFailed }, the source has failed
failing_after 8 -> BookFault { row: 0, kind: ReadFailed }, the source has failed

# The line of such a fault names no row.
before cell,1,1|write,0,a,4370,0,1,en,2,2,0,*,One|
most 4
line_failing_after 2 -> read failed
";

/// Faults of the long book, whose texts several threads pack, where other rows stand in place of some of its rows.
const LONG_BOOKS: &str = "
most 7
# Of two texts that can't be sent the first is told.
long_book 40 bad 270 worse -> BookFault { row: 40, kind: Text(BadCharacter { place: 1 }) }
long_book 40 worse 270 bad -> BookFault { row: 40, kind: Text(BadLanguage) }
long_book 150 bad 151 worse -> BookFault { row: 150, kind: Text(BadCharacter { place: 1 }) }
long_book 2 worse 301 bad -> BookFault { row: 2, kind: Text(BadLanguage) }
long_book 301 bad -> BookFault { row: 301, kind: Text(BadCharacter { place: 1 }) }

# A row that means nothing comes before each text, in whichever row it is.
long_book 40 bad 270 short -> BookFault { row: 270, kind: Columns }
long_book 40 short 270 bad -> BookFault { row: 40, kind: Columns }
";

#[test]
fn books_are_read_or_the_first_fault_is_told(rt: HostRuntime) -> Result<(), Fail> {
    expect_rows(&rt, BOOKS, 23)?;
    expect_rows(&rt, ROWS, 66)?;
    expect_rows(&rt, FIRST_FAULTS, 15)?;
    expect_rows(&rt, NO_BOOKS, 11)
}

#[test]
fn limits_and_failed_readers_are_told(rt: HostRuntime) -> Result<(), Fail> {
    expect_rows(&rt, LIMITS, 47)?;
    expect_rows(&rt, LONG_BOOKS, 8)
}
