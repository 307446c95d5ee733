//! Runs of `check` and `texts`. What they say of books and texts of all kinds is in the tests of their engines.

use crate::rows::expect_rows;
use std::test::Fail;

const CHECK: &str = "
args check
in cell,1,1
in write,0,a,4370,0,1,en,2,2,0,*,One
run -> 0
out -> row,line,column,field,value,says

in cell,1,1
in write,0,a,4370,0,1,en,2,2,0,*,One
in stop,0,b,*
in write,0,c,4370,0,1,en,2,0,0,*,\"Two, three\"
run -> 1
out -> row,line,column,field,value,says
out -> 3,3,3,NAME,b,no earlier row writes this name
out -> 4,4,9,PERIOD,0,a number from 1 to 1024
err -> warnc: faults: 2
reads 0 90 -> 3 warnc: read failed
worked row,line,column,field,value,says
worked 3,3,3,NAME,b,no earlier row writes this name
worked 4,4,9,PERIOD,0,a number from 1 to 1024
writer 10 3
run -> 3
err -> warnc: write failed
all -> 30 of 117
args check --strict
usage -> 2 error:
args check book.csv
usage -> 2 error:
";

const REMARKS: &str = "
args check --slots 24
in cell,1,1
in write,0,a,4370,0,1,en,2,2,0,*,One
in stop,30,a,*
run -> 0
out -> row,name,cell,says
out -> 3,a,,past the end
out -> ,,1-1,fullest: 50 % at slot 0
args check --slots=24 --strict
run -> 1
out -> row,name,cell,says
out -> 3,a,,past the end
out -> ,,1-1,fullest: 50 % at slot 0
err -> warnc: remarks: 1
args check --strict --slots 31
run -> 0
out -> row,name,cell,says
out -> ,,1-1,fullest: 50 % at slot 0
reads 0 55 -> 3 warnc: read failed
args check --slots 24
worked row,name,cell,says
worked 3,a,,past the end
worked ,,1-1,fullest: 50 % at slot 0
writer 10 3
run -> 3
err -> warnc: write failed
all -> 30 of 67
in cell,1
in stop,0,b,*
run -> 1
out -> row,line,column,field,value,says
out -> 1,1,1,VERB,cell,\"2 columns, cell has 3\"
out -> 2,2,3,NAME,b,no earlier row writes this name
err -> warnc: faults: 2
args check --slots 0
usage -> 2 error:
args check --slots 24 --workers 2
usage -> 2 error:
";

/// Remarks with times on the clock, which are from Python's datetime and fractions.
const TIMES: &str = "
# in UTC, cut to the millisecond, whatever the zone and the fraction are that the words have
worked row,name,cell,says,time
worked 4,b,,done at slot 20,2026-11-29T18:30:37.661Z
worked 5,a,,past the end,
worked ,,1-2,gets nothing,
worked ,,1-1,fullest: 50 % at slot 20,2026-11-29T18:30:37.661Z
worked ,,1-2,fullest: 0 % at slot 0,2026-11-29T18:30:00.000Z
in cell,1,1
in cell,1,2
in write,20,a,4370,0,1,en,2,4,0,1-1,One
in write,4,b,4371,0,2,en,2,4,0,1-1,Two
in stop,30,a,1-1
args check --slots 24 --start 2026-11-29T18:30:00Z
run -> 0
all -> worked
args check --start=2026-11-29T19:30:00.0000009+01:00 --slots=24
run -> 0
all -> worked
args check --slots 24 --start 2026-11-29T18:30:00Z --strict
run -> 1
all -> worked
err -> warnc: remarks: 3
reads 0 90 -> 3 warnc: read failed
writer 25 3
run -> 3
err -> warnc: write failed
all -> 75 of 219
# without them it is as it was
args check --slots 24
run -> 0
out -> row,name,cell,says
out -> 4,b,,done at slot 20
out -> 5,a,,past the end
out -> ,,1-2,gets nothing
out -> ,,1-1,fullest: 50 % at slot 20
out -> ,,1-2,fullest: 0 % at slot 0

# the latest start; faults have no times
args check --slots 24 --start 2105-12-31T23:59:59.999999Z
in cell,1,1
run -> 0
out -> row,name,cell,says,time
out -> ,,1-1,gets nothing,
out -> ,,1-1,fullest: 0 % at slot 0,2105-12-31T23:59:59.999Z
in cell,1
run -> 1
out -> row,line,column,field,value,says
out -> 1,1,1,VERB,cell,\"2 columns, cell has 3\"
err -> warnc: faults: 1

# no such times, and none without a run
args check --slots 24 --start 2106-01-01T00:00:00Z
fails -> 2 warnc: no such time: --start is as 2026-11-28T20:00:00Z, from 1970 to 2105
args check --slots 24 --start 1969-12-31T23:59:59.999999Z
fails -> 2 warnc: no such time: --start is as 2026-11-28T20:00:00Z, from 1970 to 2105
args check --slots 24 --start 18:30
fails -> 2 warnc: no such time: --start is as 2026-11-28T20:00:00Z, from 1970 to 2105
args check --slots 24 --start
usage -> 2 error:
args check --start 2026-11-29T18:30:00Z
usage -> 2 error:
args check --start 2026-11-29T18:30:00Z --strict
usage -> 2 error:
";

const TEXTS: &str = "
args texts
in cell,1,1
in write,0,a,4370,0,1,en,2,2,0,*,Stay in!
in update,0,a,pl,2,2,0,*,żółw żółw
in stop,0,a,*
run -> 0
out -> row,name,lang,coding,characters,pages,room,first_ucs2,place
out -> 2,a,en,GSM 7-bit,8,1,85,,
out -> 3,a,pl,UCS-2,9,1,32,ż,0
args texts --pages 15
run -> 0
out -> row,name,lang,coding,characters,pages,room,first_ucs2,place,fits
out -> 2,a,en,GSM 7-bit,8,1,85,,,8
out -> 3,a,pl,UCS-2,9,1,32,ż,0,9
reads 0 80 -> 3 warnc: read failed
worked row,name,lang,coding,characters,pages,room,first_ucs2,place,fits
worked 2,a,en,GSM 7-bit,8,1,85,,,8
worked 3,a,pl,UCS-2,9,1,32,ż,0,9
writer 20 2
run -> 3
err -> warnc: write failed
all -> 40 of 120
in cell,1
fails -> 1 warnc: row 1: columns
args texts --pages 0
usage -> 2 error:
args texts --pages 16
usage -> 2 error:
args texts --lang en
usage -> 2 error:
";

/// Network books, and groups that are there or not.
const NETWORKS: &str = "
args check --network
in cell,1,1
in write,0,a,4370,0,1,en,2,2,0,*,One
in update,1,a,pl,2,2,0,1-1,żółw
run -> 0
out -> row,line,column,field,value,says
args check --group 0
run -> 0
out -> row,line,column,field,value,says
args check --group 1
fails -> 1 warnc: no such group: the network has 1
args texts --network
run -> 0
out -> row,name,lang,coding,characters,pages,room,first_ucs2,place
out -> 2,a,en,GSM 7-bit,3,1,90,,
out -> 3,a,pl,UCS-2,4,1,37,ż,0
args texts --group=0 --pages 1
run -> 0
out -> row,name,lang,coding,characters,pages,room,first_ucs2,place,fits
out -> 2,a,en,GSM 7-bit,3,1,90,,,3
out -> 3,a,pl,UCS-2,4,1,37,ż,0,4
args texts --group 65535
fails -> 1 warnc: no such group: the network has 1

# faults are those of the network, whichever group is asked for
args check --group 65535
in cell,1
in stop,0,b,*
run -> 1
out -> row,line,column,field,value,says
out -> 1,1,1,VERB,cell,\"2 columns, cell has 3\"
out -> 2,2,3,NAME,b,no earlier row writes this name
err -> warnc: faults: 2
args texts --group 65535
fails -> 1 warnc: row 1: columns
args check --network
reads 0 10 -> 3 warnc: read failed
worked row,line,column,field,value,says
worked 1,1,1,VERB,cell,\"2 columns, cell has 3\"
worked 2,2,3,NAME,b,no earlier row writes this name
writer 10 3
run -> 3
err -> warnc: write failed
all -> 30 of 118
args check --group 0 --network
usage -> 2 error:
args check --slots 24 --group 0 --network
usage -> 2 error:
args texts --network --group 0
usage -> 2 error:
args texts --group 65536
usage -> 2 error:
";

/// Runs of network books, and of a group of one.
const RUN_NETWORKS: &str = "
args check --slots 24 --network
in cell,1,1
in write,0,a,4370,0,1,en,2,2,0,*,One
in stop,30,a,*
run -> 0
out -> group,row,name,cell,says
out -> 0,3,a,,past the end
out -> 0,,,1-1,fullest: 50 % at slot 0
args check --slots 24 --network --strict
run -> 1
out -> group,row,name,cell,says
out -> 0,3,a,,past the end
out -> 0,,,1-1,fullest: 50 % at slot 0
err -> warnc: remarks: 1
args check --slots 31 --network --strict --start 2026-11-29T18:30:00Z
run -> 0
out -> group,row,name,cell,says,time
out -> 0,,,1-1,fullest: 50 % at slot 0,2026-11-29T18:30:00.000Z
reads 0 55 -> 3 warnc: read failed
args check --slots 24 --group=0
run -> 0
out -> row,name,cell,says
out -> 3,a,,past the end
out -> ,,1-1,fullest: 50 % at slot 0
args check --slots 24 --group 0 --strict
run -> 1
out -> row,name,cell,says
out -> 3,a,,past the end
out -> ,,1-1,fullest: 50 % at slot 0
err -> warnc: remarks: 1
args check --slots 24 --group 1
fails -> 1 warnc: no such group: the network has 1
args check --slots 24 --network
worked group,row,name,cell,says
worked 0,3,a,,past the end
worked 0,,,1-1,fullest: 50 % at slot 0
writer 10 3
run -> 3
err -> warnc: write failed
all -> 30 of 77

# faults are those of the network, whichever group is asked for
in cell,1
in stop,0,b,*
run -> 1
out -> row,line,column,field,value,says
out -> 1,1,1,VERB,cell,\"2 columns, cell has 3\"
out -> 2,2,3,NAME,b,no earlier row writes this name
err -> warnc: faults: 2
args check --slots 24 --group 65535
run -> 1
out -> row,line,column,field,value,says
out -> 1,1,1,VERB,cell,\"2 columns, cell has 3\"
out -> 2,2,3,NAME,b,no earlier row writes this name
err -> warnc: faults: 2
";

#[test]
fn books_are_checked(rt: HostRuntime) -> Result<(), Fail> {
    expect_rows(&rt, CHECK, 26)
}

#[test]
fn runs_are_remarked(rt: HostRuntime) -> Result<(), Fail> {
    expect_rows(&rt, REMARKS, 38)
}

#[test]
fn remarks_have_times(rt: HostRuntime) -> Result<(), Fail> {
    expect_rows(&rt, TIMES, 57)
}

#[test]
fn texts_are_costed(rt: HostRuntime) -> Result<(), Fail> {
    expect_rows(&rt, TEXTS, 30)
}

#[test]
fn networks_are_checked(rt: HostRuntime) -> Result<(), Fail> {
    expect_rows(&rt, NETWORKS, 50)
}

#[test]
fn networks_are_run(rt: HostRuntime) -> Result<(), Fail> {
    expect_rows(&rt, RUN_NETWORKS, 53)
}
