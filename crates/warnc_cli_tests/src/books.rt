//! Runs of `compile`, `live` and `report` on books. The blocks are those of a worked page.

use crate::rows::expect_rows;
use std::test::Fail;

const COMPILE: &str = "
worked-hex 0001 0001 00000002
worked-hex 200010111201118046a3d168341a8d46a3d168341a8d46
worked-hex 21a3d168341a8d46a3d168341a8d46a3d168341a8d46a3
worked-hex 22d168341a8d46a3d168341a8d46a3d168341a8d46a3d1
worked-hex 3368341a8d46a3d168341a8d46a3d168341a8d46a3d100
worked-hex 2f2b2b2b2b2b2b2b2b2b2b2b2b2b2b2b2b2b2b2b2b2b2b
worked-hex 2f2b2b2b2b2b2b2b2b2b2b2b2b2b2b2b2b2b2b2b2b2b2b
worked-hex 2f2b2b2b2b2b2b2b2b2b2b2b2b2b2b2b2b2b2b2b2b2b2b
worked-hex 2f2b2b2b2b2b2b2b2b2b2b2b2b2b2b2b2b2b2b2b2b2b2b
# an alert in cell 1-1: its text is `@`, its period two slots
in cell,1,1
in write,0,a,4370,0,1,en,2,2,0,1-1,@

args compile --slots 2
run -> 0
all -> worked
reads 0 43 -> 3 warnc: read failed
# 43 octets and the end are read, and nothing more
reader 1 44
run -> 0
all -> worked
writer 10 10
run -> 3
err -> warnc: write failed
all -> 100 of 192
args compile --workers 4 --slots 2
run -> 0
all -> worked

args live --slots 2
run -> 0
all -> worked
args live --sessions=1 --slots=2
run -> 0
all -> worked
args live --slots 2 --sessions 64
run -> 0
all -> worked
args live --slots 2 --workers 3
run -> 0
all -> worked
args live --slots 2 --sessions 2
run -> 0
all -> worked
reads 0 43 -> 3 warnc: read failed
reader 1 44
run -> 0
all -> worked
writer 10 10
run -> 3
err -> warnc: write failed
all -> 100 of 192

# a book without cells has no tapes
in-none
run -> 0
args compile --slots 2
run -> 0

in cell,1
fails -> 1 warnc: row 1: columns
args live --slots 2 --sessions 2
fails -> 1 warnc: row 1: columns
args compile --slots 2
in cell,1,1
in write,0,a,4370,0,1,xx,2,2,0,1-1,@
fails -> 1 warnc: row 2: unknown language
";

const REPORT: &str = "
worked lac,ci,id,serial,start,end,completed,shown
worked 1,1,4370,0010,0,1,1,yes
worked 1,1,4370,0011,1,4,2,yes
worked 1,2,4370,0010,0,1,1,yes
worked 1,2,4371,0020,0,4,2,yes
worked 1,2,4370,0011,2,4,1,yes
# two alerts in two cells; the replacement waits in the second cell, whose load the other alert takes up
in cell,1,1
in cell,1,2
in write,0,a,4370,0,1,en,2,2,0,*,One
in write,0,b,4371,0,2,en,2,2,0,1-2,Two
in update,1,a,en,2,2,0,*,Three

args report --workers 3 --slots 4
run -> 0
all -> worked
args report --slots 4
run -> 0
all -> worked
reads 0 116 -> 3 warnc: read failed
# 116 octets and the end are read, and nothing more
reader 1 117
run -> 0
all -> worked
writer 10 5
run -> 3
err -> warnc: write failed
all -> 50 of 163

# an alert that takes up a cell, and one that finds no room; the stop of the first shows in its end alone
in cell,1,1
in write,0,a,1,0,1,en,0,1,0,*,One
in write,1,b,2,0,2,en,0,1,0,*,Two
in stop,3,a,*
run -> 0
out -> lac,ci,id,serial,start,end,completed,shown
out -> 1,1,1,0010,0,3,3,yes
out -> 1,1,2,0020,1,1,0,refused 06

# of two pages, the second alert is stopped after its first, so no phone shows it; the third finds no room yet
in cell,1,1
in write,0,a,1,0,1,en,2,2,0,*,A
in write,0,b,2,0,2,ru,2,4,0,*,ЖЖЖЖЖЖЖЖЖЖЖЖЖЖЖЖЖЖЖЖЖЖЖЖЖЖЖЖЖЖЖЖЖЖЖЖЖЖЖЖЖЖ
in stop,3,b,*
in write,3,c,3,0,3,ru,2,4,0,*,ЖЖЖЖЖЖЖЖЖЖЖЖЖЖЖЖЖЖЖЖЖЖЖЖЖЖЖЖЖЖЖЖЖЖЖЖЖЖЖЖЖЖ
in write,4,d,4,0,4,ru,2,4,0,*,ЖЖЖЖЖЖЖЖЖЖЖЖЖЖЖЖЖЖЖЖЖЖЖЖЖЖЖЖЖЖЖЖЖЖЖЖЖЖЖЖЖЖ
args report --slots 8
run -> 0
out -> lac,ci,id,serial,start,end,completed,shown
out -> 1,1,1,0010,0,8,4,yes
out -> 1,1,2,0020,0,3,0,no
out -> 1,1,3,0030,3,3,0,refused 06
out -> 1,1,4,0040,4,8,1,yes

# the first update waits for the end of the period, and is itself updated before: no phone shows it
in cell,1,1
in write,0,o,1,0,1,en,2,4,0,*,O
in write,0,f,2,0,2,ru,2,4,0,*,ЖЖЖЖЖЖЖЖЖЖЖЖЖЖЖЖЖЖЖЖЖЖЖЖЖЖЖЖЖЖЖЖЖЖЖЖЖЖЖЖЖЖЖЖЖЖЖЖЖЖЖЖЖЖЖЖЖЖЖЖЖЖЖЖЖЖЖЖЖЖЖЖЖЖЖЖЖЖЖЖЖЖЖ
in update,1,o,en,2,4,0,*,N
in update,2,o,en,2,2,0,*,M
in update,3,o,en,2,4,0,*,K
run -> 0
out -> lac,ci,id,serial,start,end,completed,shown
out -> 1,1,1,0010,0,1,1,yes
out -> 1,1,2,0020,0,8,2,yes
out -> 1,1,1,0011,4,3,0,no
out -> 1,1,1,0012,2,2,0,refused 06
out -> 1,1,1,0013,4,8,1,yes

# background is aired once the other alert is stopped
in cell,1,1
in write,0,f,1,0,1,en,2,1,0,*,F
in write,0,b,2,0,2,ru,1,4,0,*,ЖЖЖЖЖЖЖЖЖЖЖЖЖЖЖЖЖЖЖЖЖЖЖЖЖЖЖЖЖЖЖЖЖЖЖЖЖЖЖЖЖЖ
in stop,3,f,*
run -> 0
out -> lac,ci,id,serial,start,end,completed,shown
out -> 1,1,1,0010,0,3,3,yes
out -> 1,1,2,0020,0,8,1,yes

# three alerts that take up all of a cell
in cell,1,1
in write,0,r,1,0,1,en,2,6,0,*,R
in write,0,q,2,0,2,en,2,3,0,*,Q
in write,0,p,3,0,3,en,2,2,0,*,P
args report --slots 6
run -> 0
out -> lac,ci,id,serial,start,end,completed,shown
out -> 1,1,1,0010,0,6,1,yes
out -> 1,1,2,0020,0,6,2,yes
out -> 1,1,3,0030,0,6,3,yes
args report --slots 4

# no orders: the names of the columns alone
in-none
run -> 0
out -> lac,ci,id,serial,start,end,completed,shown
in cell,1,1
run -> 0
out -> lac,ci,id,serial,start,end,completed,shown

in cell,1
fails -> 1 warnc: row 1: columns
";

const FULL: &str = "
worked row,name,lac,ci,id,serial,start,end,completed,shown,first_shown,pages,period,share,cause
worked 3,a,1,1,4370,0010,0,1,1,yes,0,1,2,50,
worked 5,a,1,1,4370,0011,1,4,2,yes,1,1,2,50,
worked 3,a,1,2,4370,0010,0,1,1,yes,0,1,2,50,
worked 4,b,1,2,4371,0020,0,4,2,yes,1,1,2,50,
worked 5,a,1,2,4370,0011,2,4,1,yes,3,1,2,50,
# two alerts in two cells; the replacement waits in the second cell, and its first page comes after the other's second
in cell,1,1
in cell,1,2
in write,0,a,4370,0,1,en,2,2,0,*,One
in write,0,b,4371,0,2,en,2,2,0,1-2,Two
in update,1,a,en,2,2,0,*,Three

args report --full --slots 4
run -> 0
all -> worked
args report --slots 4 --workers 3 --full
run -> 0
all -> worked
reads 0 116 -> 3 warnc: read failed
# 116 octets and the end are read, and nothing more
reader 1 117
run -> 0
all -> worked
writer 10 5
run -> 3
err -> warnc: write failed
all -> 50 of 279
args report --slots 4 --network --full
run -> 0
all -> worked
args report --slots 4 --group 0 --full
run -> 0
all -> worked
args report --slots 4 --group 1 --full
fails -> 1 warnc: no such group: the network has 1

# of two pages, the second alert is stopped after its first, so no phone shows it; the third finds no room yet; one is
# stopped that is over
in cell,1,1
in write,0,a,1,0,1,en,2,2,2,*,A
in write,0,b,2,0,2,ru,2,4,0,*,ЖЖЖЖЖЖЖЖЖЖЖЖЖЖЖЖЖЖЖЖЖЖЖЖЖЖЖЖЖЖЖЖЖЖЖЖЖЖЖЖЖЖ
in stop,3,b,*
in write,3,c,3,0,3,ru,2,4,0,*,ЖЖЖЖЖЖЖЖЖЖЖЖЖЖЖЖЖЖЖЖЖЖЖЖЖЖЖЖЖЖЖЖЖЖЖЖЖЖЖЖЖЖ
in write,4,d,4,0,4,ru,2,4,0,*,ЖЖЖЖЖЖЖЖЖЖЖЖЖЖЖЖЖЖЖЖЖЖЖЖЖЖЖЖЖЖЖЖЖЖЖЖЖЖЖЖЖЖ
in write,4,e,5,0,5,en,1,3,0,*,E
in stop,5,a,*
args report --slots 8 --full
run -> 0
out -> row,name,lac,ci,id,serial,start,end,completed,shown,first_shown,pages,period,share,cause
out -> 2,a,1,1,1,0010,0,4,2,yes,0,1,2,50,
out -> 3,b,1,1,2,0020,0,3,0,no,,2,4,50,
out -> 5,c,1,1,3,0030,3,3,0,refused 06,,2,4,50,BSC capacity exceeded
out -> 6,d,1,1,4,0040,4,8,1,yes,5,2,4,50,
out -> 7,e,1,1,5,0050,4,8,2,yes,6,1,3,0,
out -> 8,a,1,1,1,0010,5,5,0,refused 02,,,,,message reference not identified

in cell,1
fails -> 1 warnc: row 1: columns
";

/// Reports with times on the clock, which are from Python's datetime and fractions.
const TIMES: &str = "
# in UTC, cut to the millisecond, whatever the zone and the fraction are that the words have
worked lac,ci,id,serial,start,end,completed,shown,start_time,end_time
worked 1,1,4370,0010,0,1,1,yes,2026-11-29T18:30:00.000Z,2026-11-29T18:30:01.883Z
worked 1,1,4370,0011,1,4,2,yes,2026-11-29T18:30:01.883Z,2026-11-29T18:30:07.532Z
worked 1,2,4370,0010,0,1,1,yes,2026-11-29T18:30:00.000Z,2026-11-29T18:30:01.883Z
worked 1,2,4371,0020,0,4,2,yes,2026-11-29T18:30:00.000Z,2026-11-29T18:30:07.532Z
worked 1,2,4370,0011,2,4,1,yes,2026-11-29T18:30:03.766Z,2026-11-29T18:30:07.532Z
in cell,1,1
in cell,1,2
in write,0,a,4370,0,1,en,2,2,0,*,One
in write,0,b,4371,0,2,en,2,2,0,1-2,Two
in update,1,a,en,2,2,0,*,Three

args report --slots 4 --start 2026-11-29T18:30:00Z
run -> 0
all -> worked
args report --start=2026-11-29T19:30:00.0000009+01:00 --workers 2 --slots 4
run -> 0
all -> worked
args report --slots 4 --network --start 2026-11-29T18:30:00Z
run -> 0
all -> worked
# without them it is as it was
args report --slots 4
run -> 0
out -> lac,ci,id,serial,start,end,completed,shown
out -> 1,1,4370,0010,0,1,1,yes
out -> 1,1,4370,0011,1,4,2,yes
out -> 1,2,4370,0010,0,1,1,yes
out -> 1,2,4371,0020,0,4,2,yes
out -> 1,2,4370,0011,2,4,1,yes

# full columns, and the latest start
worked row,name,lac,ci,id,serial,start,end,completed,shown,first_shown,pages,period,share,cause\
    ,start_time,end_time,first_shown_time
worked 3,a,1,1,4370,0010,0,1,1,yes,0,1,2,50,,2105-12-31T23:59:59.999Z,2106-01-01T00:00:01.883Z,2106-01-01T00:00:01.883Z
worked 5,a,1,1,4370,0011,1,4,2,yes,1,1,2,50,,2106-01-01T00:00:01.883Z,2106-01-01T00:00:07.532Z,2106-01-01T00:00:03.766Z
worked 3,a,1,2,4370,0010,0,1,1,yes,0,1,2,50,,2105-12-31T23:59:59.999Z,2106-01-01T00:00:01.883Z,2106-01-01T00:00:01.883Z
worked 4,b,1,2,4371,0020,0,4,2,yes,1,1,2,50,,2105-12-31T23:59:59.999Z,2106-01-01T00:00:07.532Z,2106-01-01T00:00:03.766Z
worked 5,a,1,2,4370,0011,2,4,1,yes,3,1,2,50,,2106-01-01T00:00:03.766Z,2106-01-01T00:00:07.532Z,2106-01-01T00:00:07.532Z
in cell,1,1
in cell,1,2
in write,0,a,4370,0,1,en,2,2,0,*,One
in write,0,b,4371,0,2,en,2,2,0,1-2,Two
in update,1,a,en,2,2,0,*,Three

args report --slots 4 --full --start 2105-12-31T23:59:59.999999Z
run -> 0
all -> worked
args report --start 2105-12-31T23:59:59.999999Z --slots 4 --full --group 0
run -> 0
all -> worked

# no such times
args report --slots 4 --start 2106-01-01T00:00:00Z
fails -> 2 warnc: no such time: --start is as 2026-11-28T20:00:00Z, from 1970 to 2105
args report --slots 4 --start 1969-12-31T23:59:59.999999Z
fails -> 2 warnc: no such time: --start is as 2026-11-28T20:00:00Z, from 1970 to 2105
args report --slots 4 --start 18:30
fails -> 2 warnc: no such time: --start is as 2026-11-28T20:00:00Z, from 1970 to 2105
args report --slots 4 --start
usage -> 2 error:
# not all commands have a start
args compile --slots 4 --start 2026-11-29T18:30:00Z
usage -> 2 error:
args live --slots 4 --start 2026-11-29T18:30:00Z
usage -> 2 error:
";

#[test]
fn books_give_tapes(rt: HostRuntime) -> Result<(), Fail> {
    expect_rows(&rt, COMPILE, 60)
}

#[test]
fn books_give_reports(rt: HostRuntime) -> Result<(), Fail> {
    expect_rows(&rt, REPORT, 86)
}

#[test]
fn books_give_full_reports(rt: HostRuntime) -> Result<(), Fail> {
    expect_rows(&rt, FULL, 52)
}

#[test]
fn books_give_reports_with_times(rt: HostRuntime) -> Result<(), Fail> {
    expect_rows(&rt, TIMES, 57)
}
