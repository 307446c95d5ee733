//! Runs of `verify` on books and tapes whose octets were put together by hand, as docs/formats.md describes them. The
//! page is that of the text `@`.

use crate::rows::expect_rows;
use std::test::Fail;

const VERIFY: &str = "
# a broadcast of a page in two slots, sent in the first or in the second
book cell,1,1
book write,0,a,4370,0,1,en,2,2,1,*,@
in-hex 00010001 00000002
in-hex 200010111201118046a3d168341a8d46a3d168341a8d46
in-hex 21a3d168341a8d46a3d168341a8d46a3d168341a8d46a3
in-hex 22d168341a8d46a3d168341a8d46a3d168341a8d46a3d1
in-hex 3368341a8d46a3d168341a8d46a3d168341a8d46a3d100
in-hex 2f2b2b2b2b2b2b2b2b2b2b2b2b2b2b2b2b2b2b2b2b2b2b 2f2b2b2b2b2b2b2b2b2b2b2b2b2b2b2b2b2b2b2b2b2b2b
in-hex 2f2b2b2b2b2b2b2b2b2b2b2b2b2b2b2b2b2b2b2b2b2b2b 2f2b2b2b2b2b2b2b2b2b2b2b2b2b2b2b2b2b2b2b2b2b2b
args verify --slots 2 --book book.csv
run -> 0
out -> lac,ci,id,serial,slot,difference

book cell,1,1
book write,0,a,4370,0,1,en,2,2,1,*,@
in-hex 00010001 00000002
in-hex 2f2b2b2b2b2b2b2b2b2b2b2b2b2b2b2b2b2b2b2b2b2b2b 2f2b2b2b2b2b2b2b2b2b2b2b2b2b2b2b2b2b2b2b2b2b2b
in-hex 2f2b2b2b2b2b2b2b2b2b2b2b2b2b2b2b2b2b2b2b2b2b2b 2f2b2b2b2b2b2b2b2b2b2b2b2b2b2b2b2b2b2b2b2b2b2b
in-hex 200010111201118046a3d168341a8d46a3d168341a8d46
in-hex 21a3d168341a8d46a3d168341a8d46a3d168341a8d46a3
in-hex 22d168341a8d46a3d168341a8d46a3d168341a8d46a3d1
in-hex 3368341a8d46a3d168341a8d46a3d168341a8d46a3d100
run -> 0
out -> lac,ci,id,serial,slot,difference

# and not sent
book cell,1,1
book write,0,a,4370,0,1,en,2,2,1,*,@
in-hex 00010001 00000002
in-hex 2f2b2b2b2b2b2b2b2b2b2b2b2b2b2b2b2b2b2b2b2b2b2b 2f2b2b2b2b2b2b2b2b2b2b2b2b2b2b2b2b2b2b2b2b2b2b
in-hex 2f2b2b2b2b2b2b2b2b2b2b2b2b2b2b2b2b2b2b2b2b2b2b 2f2b2b2b2b2b2b2b2b2b2b2b2b2b2b2b2b2b2b2b2b2b2b
in-hex 2f2b2b2b2b2b2b2b2b2b2b2b2b2b2b2b2b2b2b2b2b2b2b 2f2b2b2b2b2b2b2b2b2b2b2b2b2b2b2b2b2b2b2b2b2b2b
in-hex 2f2b2b2b2b2b2b2b2b2b2b2b2b2b2b2b2b2b2b2b2b2b2b 2f2b2b2b2b2b2b2b2b2b2b2b2b2b2b2b2b2b2b2b2b2b2b
run -> 1
out -> lac,ci,id,serial,slot,difference
out -> 1,1,4370,0010,2,broadcast 0 not whole
err -> warnc: differences: 1
args verify --slots 2 --explain --book book.csv
run -> 1
out -> lac,ci,id,serial,slot,difference,expected,got
out -> 1,1,4370,0010,2,broadcast 0 not whole,slots 0 to 1,nothing
err -> warnc: differences: 1
args verify --slots 2 --book book.csv

# the text is a pound sign, 01; the broadcast isn't whole
book cell,1,1
book write,0,a,4370,0,1,en,2,2,1,*,@
in-hex 00010001 00000002
in-hex 200010111201118146a3d168341a8d46a3d168341a8d46
in-hex 21a3d168341a8d46a3d168341a8d46a3d168341a8d46a3
in-hex 22d168341a8d46a3d168341a8d46a3d168341a8d46a3d1
in-hex 3368341a8d46a3d168341a8d46a3d168341a8d46a3d100
in-hex 2f2b2b2b2b2b2b2b2b2b2b2b2b2b2b2b2b2b2b2b2b2b2b 2f2b2b2b2b2b2b2b2b2b2b2b2b2b2b2b2b2b2b2b2b2b2b
in-hex 2f2b2b2b2b2b2b2b2b2b2b2b2b2b2b2b2b2b2b2b2b2b2b 2f2b2b2b2b2b2b2b2b2b2b2b2b2b2b2b2b2b2b2b2b2b2b
run -> 1
out -> lac,ci,id,serial,slot,difference
out -> 1,1,4370,0010,0,page 1 reads otherwise
out -> 1,1,4370,0010,2,broadcast 0 not whole
err -> warnc: differences: 2
args verify --slots 2 --book book.csv --explain
run -> 1
out -> lac,ci,id,serial,slot,difference,expected,got
out -> 1,1,4370,0010,0,page 1 reads otherwise,@,£
out -> 1,1,4370,0010,2,broadcast 0 not whole,slots 0 to 1,nothing
err -> warnc: differences: 2
args verify --slots 2 --book book.csv

# a message that nobody ordered, and the page once more when its periods are over
book cell,1,1
book write,0,a,4370,0,1,en,2,2,1,*,@
in-hex 00010001 00000004
in-hex 200010111201118046a3d168341a8d46a3d168341a8d46
in-hex 21a3d168341a8d46a3d168341a8d46a3d168341a8d46a3
in-hex 22d168341a8d46a3d168341a8d46a3d168341a8d46a3d1
in-hex 3368341a8d46a3d168341a8d46a3d168341a8d46a3d100
in-hex 200020111201118046a3d168341a8d46a3d168341a8d46
in-hex 21a3d168341a8d46a3d168341a8d46a3d168341a8d46a3
in-hex 22d168341a8d46a3d168341a8d46a3d168341a8d46a3d1
in-hex 3368341a8d46a3d168341a8d46a3d168341a8d46a3d100
in-hex 200010111201118046a3d168341a8d46a3d168341a8d46
in-hex 21a3d168341a8d46a3d168341a8d46a3d168341a8d46a3
in-hex 22d168341a8d46a3d168341a8d46a3d168341a8d46a3d1
in-hex 3368341a8d46a3d168341a8d46a3d168341a8d46a3d100
in-hex 2f2b2b2b2b2b2b2b2b2b2b2b2b2b2b2b2b2b2b2b2b2b2b 2f2b2b2b2b2b2b2b2b2b2b2b2b2b2b2b2b2b2b2b2b2b2b
in-hex 2f2b2b2b2b2b2b2b2b2b2b2b2b2b2b2b2b2b2b2b2b2b2b 2f2b2b2b2b2b2b2b2b2b2b2b2b2b2b2b2b2b2b2b2b2b2b
args verify --slots 4 --book book.csv --workers 2
run -> 1
out -> lac,ci,id,serial,slot,difference
out -> 1,1,4370,0020,1,not ordered
out -> 1,1,4370,0010,2,after its last broadcast
err -> warnc: differences: 2

# a tape with other slots, and none
book cell,1,1
book write,0,a,4370,0,1,en,2,2,1,*,@
in-hex 00010001 00000001
in-hex 200010111201118046a3d168341a8d46a3d168341a8d46
in-hex 21a3d168341a8d46a3d168341a8d46a3d168341a8d46a3
in-hex 22d168341a8d46a3d168341a8d46a3d168341a8d46a3d1
in-hex 3368341a8d46a3d168341a8d46a3d168341a8d46a3d100
run -> 1
out -> lac,ci,id,serial,slot,difference
out -> 1,1,,,,other slots
err -> warnc: differences: 1
book cell,1,1
book write,0,a,4370,0,1,en,2,2,1,*,@
in-none
run -> 1
out -> lac,ci,id,serial,slot,difference
out -> 1,1,,,,no tape
err -> warnc: differences: 1

# tapes in another order than the book's; a second one, and one of an unknown cell
book cell,1,1
book cell,1,2
book write,0,a,4370,0,1,en,2,2,1,*,@
in-hex 00010002 00000001
in-hex 200010111201118046a3d168341a8d46a3d168341a8d46
in-hex 21a3d168341a8d46a3d168341a8d46a3d168341a8d46a3
in-hex 22d168341a8d46a3d168341a8d46a3d168341a8d46a3d1
in-hex 3368341a8d46a3d168341a8d46a3d168341a8d46a3d100
in-hex 00010001 00000001
in-hex 200010111201118046a3d168341a8d46a3d168341a8d46
in-hex 21a3d168341a8d46a3d168341a8d46a3d168341a8d46a3
in-hex 22d168341a8d46a3d168341a8d46a3d168341a8d46a3d1
in-hex 3368341a8d46a3d168341a8d46a3d168341a8d46a3d100
args verify --slots 1 --book book.csv
run -> 0
out -> lac,ci,id,serial,slot,difference

book cell,1,1
book cell,1,2
book write,0,a,4370,0,1,en,2,2,1,*,@
in-hex 00010003 00000001
in-hex 200010111201118046a3d168341a8d46a3d168341a8d46
in-hex 21a3d168341a8d46a3d168341a8d46a3d168341a8d46a3
in-hex 22d168341a8d46a3d168341a8d46a3d168341a8d46a3d1
in-hex 3368341a8d46a3d168341a8d46a3d168341a8d46a3d100
in-hex 00010002 00000001
in-hex 200010111201118046a3d168341a8d46a3d168341a8d46
in-hex 21a3d168341a8d46a3d168341a8d46a3d168341a8d46a3
in-hex 22d168341a8d46a3d168341a8d46a3d168341a8d46a3d1
in-hex 3368341a8d46a3d168341a8d46a3d168341a8d46a3d100
in-hex 00010002 00000001
in-hex 2f2b2b2b2b2b2b2b2b2b2b2b2b2b2b2b2b2b2b2b2b2b2b 2f2b2b2b2b2b2b2b2b2b2b2b2b2b2b2b2b2b2b2b2b2b2b
in-hex 2f2b2b2b2b2b2b2b2b2b2b2b2b2b2b2b2b2b2b2b2b2b2b 2f2b2b2b2b2b2b2b2b2b2b2b2b2b2b2b2b2b2b2b2b2b2b
in-hex 00010001 00000001
in-hex 200010111201118046a3d168341a8d46a3d168341a8d46
in-hex 21a3d168341a8d46a3d168341a8d46a3d168341a8d46a3
in-hex 22d168341a8d46a3d168341a8d46a3d168341a8d46a3d1
in-hex 3368341a8d46a3d168341a8d46a3d168341a8d46a3d100
run -> 1
out -> lac,ci,id,serial,slot,difference
out -> 1,3,,,,unknown cell
out -> 1,2,,,,second tape
err -> warnc: differences: 2

# a book of no octets has no cells; its name may stand in one word with the option's
book-none
in-none
args verify --slots 1 --book=book.csv
run -> 0
out -> lac,ci,id,serial,slot,difference

# faults of the book and of the tapes: the book's is told first
book cell,1
in-none
args verify --slots 1 --book book.csv
fails -> 1 warnc: row 1: columns
in-hex 00010001
fails -> 1 warnc: row 1: columns
book cell,1,1
fails -> 1 warnc: tape is short
in-hex 00010001 00010000
fails -> 1 warnc: tape is long

# ends that fail: a book that isn't read is named
in-hex 00010001 00000000
reads 0 8 -> 3 warnc: read failed
book-reads 0 9 -> 3 warnc: book.csv: read failed
bookless
fails -> 3 warnc: book.csv: read failed
reader 1 0
bookless
fails -> 3 warnc: book.csv: read failed
args verify --slots 1 --book=no/such.csv
bookless
fails -> 3 warnc: no/such.csv: read failed
args verify --slots 1 --group 0 --book network.csv
book-reads 0 9 -> 3 warnc: network.csv: read failed
args verify --slots 1 --book book.csv
writer 33 1
run -> 3
err -> warnc: write failed
out -> lac,ci,id,serial,slot,difference

# a page in one block, as a network may send it, is judged with --short alone
args verify --slots 1 --short --book book.csv
book cell,1,1
book write,0,a,4370,0,1,en,2,1,1,*,@
in-hex 00010001 00000001
in-hex 300010111201118046a3d168341a8d46a3d168341a8d46
in-hex 2f2b2b2b2b2b2b2b2b2b2b2b2b2b2b2b2b2b2b2b2b2b2b 2f2b2b2b2b2b2b2b2b2b2b2b2b2b2b2b2b2b2b2b2b2b2b
in-hex 2f2b2b2b2b2b2b2b2b2b2b2b2b2b2b2b2b2b2b2b2b2b2b
run -> 0
out -> lac,ci,id,serial,slot,difference
args verify --slots 1 --book book.csv
run -> 1
out -> lac,ci,id,serial,slot,difference
out -> 1,1,4370,0010,1,broadcast 0 not whole
err -> warnc: differences: 1
# 18 letters come of 20
args verify --slots 1 --book book.csv --short
book cell,1,1
book write,0,a,4370,0,1,en,2,1,1,*,AAAAAAAAAAAAAAAAAAAA
in-hex 00010001 00000001
in-hex 30001011120111c16030180c0683c16030180c0683c160
in-hex 2f2b2b2b2b2b2b2b2b2b2b2b2b2b2b2b2b2b2b2b2b2b2b 2f2b2b2b2b2b2b2b2b2b2b2b2b2b2b2b2b2b2b2b2b2b2b
in-hex 2f2b2b2b2b2b2b2b2b2b2b2b2b2b2b2b2b2b2b2b2b2b2b
run -> 1
out -> lac,ci,id,serial,slot,difference
out -> 1,1,4370,0010,0,page 1 reads otherwise
out -> 1,1,4370,0010,1,broadcast 0 not whole
err -> warnc: differences: 2

args verify --slots 1
usage -> 2 error:
args verify --book book.csv
usage -> 2 error:
args verify --slots 1 --book
usage -> 2 error:
args verify --slots 1 --book book.csv --book book.csv
usage -> 2 error:
args compile --slots 1 --book book.csv
usage -> 2 error:
args verify --slots 1 --book book.csv --network
usage -> 2 error:
";

/// Differences with times on the clock, which are from Python's datetime and fractions.
const TIMES: &str = "
# in UTC, cut to the millisecond, whatever the zone and the fraction are that the words have
worked lac,ci,id,serial,slot,difference,time
worked 1,1,4370,0010,0,page 1 reads otherwise,2026-11-29T18:30:00.000Z
worked 1,1,4370,0010,2,broadcast 0 not whole,2026-11-29T18:30:03.766Z
worked 1,2,,,,no tape,
book cell,1,1
book cell,1,2
book write,0,a,4370,0,1,en,2,2,1,1-1,@
in-hex 00010001 00000002
in-hex 200010111201118146a3d168341a8d46a3d168341a8d46
in-hex 21a3d168341a8d46a3d168341a8d46a3d168341a8d46a3
in-hex 22d168341a8d46a3d168341a8d46a3d168341a8d46a3d1
in-hex 3368341a8d46a3d168341a8d46a3d168341a8d46a3d100
in-hex 2f2b2b2b2b2b2b2b2b2b2b2b2b2b2b2b2b2b2b2b2b2b2b 2f2b2b2b2b2b2b2b2b2b2b2b2b2b2b2b2b2b2b2b2b2b2b
in-hex 2f2b2b2b2b2b2b2b2b2b2b2b2b2b2b2b2b2b2b2b2b2b2b 2f2b2b2b2b2b2b2b2b2b2b2b2b2b2b2b2b2b2b2b2b2b2b
args verify --slots 2 --start 2026-11-29T18:30:00Z --book book.csv
run -> 1
all -> worked
err -> warnc: differences: 3
args verify --start=2026-11-29T19:30:00.0000009+01:00 --slots 2 --workers 2 --book=book.csv
run -> 1
all -> worked
err -> warnc: differences: 3
args verify --slots 2 --start 2105-12-31T23:59:59.999999Z --explain --book book.csv
run -> 1
out -> lac,ci,id,serial,slot,difference,expected,got,time
out -> 1,1,4370,0010,0,page 1 reads otherwise,@,£,2105-12-31T23:59:59.999Z
out -> 1,1,4370,0010,2,broadcast 0 not whole,slots 0 to 1,nothing,2106-01-01T00:00:03.766Z
out -> 1,2,,,,no tape,,,
err -> warnc: differences: 3
# without them it is as it was
args verify --slots 2 --book book.csv
run -> 1
out -> lac,ci,id,serial,slot,difference
out -> 1,1,4370,0010,0,page 1 reads otherwise
out -> 1,1,4370,0010,2,broadcast 0 not whole
out -> 1,2,,,,no tape
err -> warnc: differences: 3

# a book of no octets has no cells, and a table with times the names of its columns
book-none
in-none
args verify --slots 1 --start 1970-01-01T00:00:00Z --book book.csv
run -> 0
out -> lac,ci,id,serial,slot,difference,time
args verify --slots 1 --explain --start 1970-01-01T00:00:00Z --book book.csv
run -> 0
out -> lac,ci,id,serial,slot,difference,expected,got,time

# no such times
args verify --slots 2 --start 2106-01-01T00:00:00Z --book book.csv
fails -> 2 warnc: no such time: --start is as 2026-11-28T20:00:00Z, from 1970 to 2105
args verify --slots 2 --start 1969-12-31T23:59:59.999999Z --book book.csv
fails -> 2 warnc: no such time: --start is as 2026-11-28T20:00:00Z, from 1970 to 2105
args verify --slots 2 --start 18:30 --book book.csv
fails -> 2 warnc: no such time: --start is as 2026-11-28T20:00:00Z, from 1970 to 2105
args verify --slots 2 --book book.csv --start
usage -> 2 error:
";

#[test]
fn differences_have_times(rt: HostRuntime) -> Result<(), Fail> {
    expect_rows(&rt, TIMES, 52)
}

#[test]
fn tapes_are_judged_by_their_book(rt: HostRuntime) -> Result<(), Fail> {
    expect_rows(&rt, VERIFY, 215)
}
