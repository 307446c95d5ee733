//! Runs of `load`, and of `chart` with the tables in front. Loads are those of a message's pages over its period, as
//! the pictures in `charts` have them.

use crate::rows::expect_rows;
use std::test::Fail;

const LOADS: &str = "
# an alert that takes up a cell until it is stopped, and one that finds no room
in cell,1,1
in write,0,a,1,0,1,en,0,1,0,*,One
in write,1,b,2,0,2,en,0,1,0,*,Two
in stop,3,a,*
args load --slots 4
run -> 0
out -> lac,ci,slot,share,fullest
out -> 1,1,0,100,yes
out -> 1,1,3,0,
args load --slots 4 --start 2026-11-29T18:30:00Z --workers 2
run -> 0
out -> lac,ci,slot,share,fullest,time
out -> 1,1,0,100,yes,2026-11-29T18:30:00.000Z
out -> 1,1,3,0,,2026-11-29T18:30:05.649Z
reads 0 30 -> 3 warnc: read failed
worked lac,ci,slot,share,fullest,time
worked 1,1,0,100,yes,2026-11-29T18:30:00.000Z
worked 1,1,3,0,,2026-11-29T18:30:05.649Z
writer 10 3
run -> 3
err -> warnc: write failed
all -> 30 of 104

# the update finds no room until the first alert's period is over at slot 4: till then it holds what it has over that
# one, a quarter of the cell
in cell,1,1
in write,0,a,1,0,1,en,2,4,0,*,One
in write,0,b,2,0,2,en,2,2,0,*,Two
in update,1,a,en,2,2,0,*,Three
args load --slots 8
run -> 0
out -> lac,ci,slot,share,fullest
out -> 1,1,0,75,
out -> 1,1,1,100,yes

# shares are rounded up; background reserves nothing; a cell that gets nothing has one line; each cell has its own
in cell,1,1
in cell,65535,0
in cell,1,2
in write,0,a,1,0,1,en,2,3,0,1-1 1-2,One
in write,2,b,2,0,2,en,1,2,0,1-1,Two
in write,32,c,3,0,3,en,2,2,1,1-2,Three
in stop,40,a,1-2
args load --slots=64 --start=2026-11-29T18:30:00Z
run -> 0
out -> lac,ci,slot,share,fullest,time
out -> 1,1,0,34,yes,2026-11-29T18:30:00.000Z
out -> 65535,0,0,0,yes,2026-11-29T18:30:00.000Z
out -> 1,2,0,34,,2026-11-29T18:30:00.000Z
out -> 1,2,32,84,yes,2026-11-29T18:31:00.258Z
out -> 1,2,34,34,,2026-11-29T18:31:04.024Z
out -> 1,2,42,0,,2026-11-29T18:31:19.089Z

# no cells
in-none
args load --slots 4
run -> 0
out -> lac,ci,slot,share,fullest

# a network: the line of names stands over the first group's loads alone
in-cells 0 65
in write,1,a,4370,0,1,en,2,2,1,1-64,@
args load --slots 4 --group 1
run -> 0
out -> 1,64,0,0,
out -> 1,64,1,50,yes
out -> 1,64,3,0,
args load --slots 4 --network --workers 2
run -> 0
out -> lac,ci,slot,share,fullest
out -> 1,0,0,0,yes
past 1,63,0,0,yes -> yes
out -> 1,64,0,0,
out -> 1,64,1,50,yes
out -> 1,64,3,0,
args load --slots 4 --group 2
fails -> 1 warnc: no such group: the network has 2
in cell,1,1
in stop,1,a,*
args load --slots 4
fails -> 1 warnc: row 2: unknown name
in-hex d4c3b2a1020004000000000000000000ffff000065000000
fails -> 1 warnc: row 1: columns (the input looks like a capture: warnc tape makes a tape of it)
";

const TABLES: &str = "
# the report, the loads and the chart, each after its name and its number of octets
in cell,1,1
in write,0,a,1,0,1,en,0,1,0,*,One
in write,1,b,2,0,2,en,0,1,0,*,Two
in stop,3,a,*
args chart --slots 4 --tables
run -> 0
out -> report 188
out -> row,name,lac,ci,id,serial,start,end,completed,shown,first_shown,pages,period,share,cause
out -> 2,a,1,1,1,0010,0,3,3,yes,0,1,1,100,
out -> 3,b,1,1,2,0020,1,1,0,refused 06,,1,1,100,BSC capacity exceeded
out -> load 49
out -> lac,ci,slot,share,fullest
out -> 1,1,0,100,yes
out -> 1,1,3,0,
starts chart -> yes
past <!DOCTYPE html> -> yes
past <path class=\"load\" d=\"M0 1008H0V0H3V1008H4V1008z\"/></svg></div> -> yes
past </html> -> yes
# with times, and a part of the chart: the tables are of the whole run
args chart --slots 4 --tables --strict --start 2026-11-29T18:30:00Z
run -> 1
err -> warnc: refused: 1, doing nothing: 0
args chart --from 2 --slots 4 --tables --start 2026-11-29T18:30:00Z --workers 2
run -> 0
starts report -> yes
past row,name,lac,ci,id,serial,start,end,completed,shown,first_shown,pages,period,share,cause,start_time -> yes
past 2,a,1,1,1,0010,0,3,3,yes,0,1,1,100,,2026-11-29T18:30:00.000Z -> yes
past refused 06,,1,1,100,BSC capacity exceeded -> yes
past load 104 -> yes
out -> lac,ci,slot,share,fullest,time
out -> 1,1,0,100,yes,2026-11-29T18:30:00.000Z
out -> 1,1,3,0,,2026-11-29T18:30:05.649Z
past <path class=\"load\" d=\"M2 1008H2V0H3V1008H4V1008z\"/></svg></div> -> yes
past </html> -> yes
# a later group alone
in-cells 0 65
args chart --tables --slots 1 --group 1
run -> 0
out -> report 0
out -> load 13
out -> 1,64,0,0,yes
past </html> -> yes
";

const USAGE: &str = "
args load
usage -> 2 error:
args load --slots 0
usage -> 2 error:
args load --slots 2 --workers 65
usage -> 2 error:
args load --slots 2 --cell 1-1
usage -> 2 error:
args load --slots 2 --network --group 1
usage -> 2 error:
args load --slots 2 --strict
usage -> 2 error:
args chart --slots 2 --tables --network
usage -> 2 error:
args report --slots 2 --tables
usage -> 2 error:
args load --slots 2 --start 2026
fails -> 2 warnc: no such time: --start is as 2026-11-28T20:00:00Z, from 1970 to 2105
args load --help
run -> 0
past --start <TIME> -> yes
says Example: warnc load --slots 4096 < book.csv -> yes
";

#[test]
fn loads_are_written_where_they_change(rt: HostRuntime) -> Result<(), Fail> {
    expect_rows(&rt, LOADS, 74)
}

#[test]
fn tables_stand_in_front_of_a_chart(rt: HostRuntime) -> Result<(), Fail> {
    expect_rows(&rt, TABLES, 40)
}

#[test]
fn other_words_of_load_are_refused(rt: HostRuntime) -> Result<(), Fail> {
    expect_rows(&rt, USAGE, 22)
}
