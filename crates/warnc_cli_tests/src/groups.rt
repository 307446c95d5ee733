//! Runs on network books: `groups`, and `--group` of the commands. The blocks are those of a worked page.

use crate::rows::expect_rows;
use std::test::Fail;

const GROUPS: &str = "
# the tape of the cell 1-64, which is alone in the second group: one broadcast in two slots
worked-hex 0001 0040 00000002
worked-hex 200010111201118046a3d168341a8d46a3d168341a8d46
worked-hex 21a3d168341a8d46a3d168341a8d46a3d168341a8d46a3
worked-hex 22d168341a8d46a3d168341a8d46a3d168341a8d46a3d1
worked-hex 3368341a8d46a3d168341a8d46a3d168341a8d46a3d100
worked-hex 2f2b2b2b2b2b2b2b2b2b2b2b2b2b2b2b2b2b2b2b2b2b2b
worked-hex 2f2b2b2b2b2b2b2b2b2b2b2b2b2b2b2b2b2b2b2b2b2b2b
worked-hex 2f2b2b2b2b2b2b2b2b2b2b2b2b2b2b2b2b2b2b2b2b2b2b
worked-hex 2f2b2b2b2b2b2b2b2b2b2b2b2b2b2b2b2b2b2b2b2b2b2b
in-cells 0 65
in write,0,a,4370,0,1,en,2,2,1,1-0 1-64,@

args groups
run -> 0
out -> 2
writer 1 1
run -> 3
err -> warnc: write failed
all -> 2
reads 0 9 -> 3 warnc: read failed

args compile --slots 2 --group 1
run -> 0
all -> worked
args live --slots 2 --sessions 2 --workers 2 --group=1
run -> 0
all -> worked

# the line of names stands over the first group's report alone
args report --slots 2 --group 0
run -> 0
out -> lac,ci,id,serial,start,end,completed,shown
out -> 1,0,4370,0010,0,2,1,yes
args report --slots 2 --group 1
run -> 0
out -> 1,64,4370,0010,0,2,1,yes
fronts 0 0 -> 1 warnc: no such group: the network has 1
args report --slots 2 --group 1 --full
run -> 0
out -> 66,a,1,64,4370,0010,0,2,1,yes,0,1,2,50,
args report --slots 2 --network --full --workers 2
run -> 0
out -> row,name,lac,ci,id,serial,start,end,completed,shown,first_shown,pages,period,share,cause
out -> 66,a,1,0,4370,0010,0,2,1,yes,0,1,2,50,
out -> 66,a,1,64,4370,0010,0,2,1,yes,0,1,2,50,

# all groups at once
args report --slots 2 --network
run -> 0
out -> lac,ci,id,serial,start,end,completed,shown
out -> 1,0,4370,0010,0,2,1,yes
out -> 1,64,4370,0010,0,2,1,yes
args report --slots 2 --network --workers 2
run -> 0
out -> lac,ci,id,serial,start,end,completed,shown
out -> 1,0,4370,0010,0,2,1,yes
out -> 1,64,4370,0010,0,2,1,yes
reads 0 9 -> 3 warnc: read failed
writer 1 42
run -> 3
err -> warnc: write failed
all -> lac,ci,id,serial,start,end,completed,shown

args chart --slots 2 --network --cell 1-64
run -> 0
out -> <!DOCTYPE html>
past is full.</p> -> yes
out -> <details>
out -> <summary><h2>Group 1</h2></summary>
out -> <details open id=\"c1-64\">
out -> <summary><h2>Cell 1-64</h2> messages: 1, refused: 0, fullest: 50 % at 0:00:00</summary>
past </details> -> yes
out -> </details>
out -> </body>
out -> </html>
args chart --slots 2 --network
run -> 0
past <summary><h2>Group 0</h2></summary> -> yes
out -> <nav aria-label=\"Cells\">
past <summary><h2>Cell 1-0</h2> messages: 1, refused: 0, fullest: 50 % at 0:00:00</summary> -> yes
past <summary><h2>Cells 1-1 to 1-63, 63 cells</h2> messages: 0, refused: 0, fullest: 0 % at 0:00:00</summary> -> yes
past <summary><h2>Group 1</h2></summary> -> yes
past <summary><h2>Cell 1-64</h2> messages: 1, refused: 0, fullest: 50 % at 0:00:00</summary> -> yes
past </html> -> yes
args chart --slots 2 --network --from 1
run -> 0
past Drawn from slot 1 (0:00:01) to slot 2 (0:00:03).</p> -> yes
past <summary><h2>Cell 1-0</h2> messages: 1, refused: 0, fullest: 50 % at 0:00:01</summary> -> yes
past <summary><h2>Cell 1-64</h2> messages: 1, refused: 0, fullest: 50 % at 0:00:01</summary> -> yes
past <rect class=\"f5\" x=\"1\" width=\"1\"/> -> yes
past </html> -> yes
args chart --slots 2 --group 1
run -> 0
past is full.</p> -> yes
out -> <details open id=\"c1-64\">
out -> <summary><h2>Cell 1-64</h2> messages: 1, refused: 0, fullest: 50 % at 0:00:00</summary>
past </html> -> yes

# and is no book of 64 cells
args report --slots 2
fails -> 1 warnc: row 65: too many rows
args report --slots 2 --group 2
fails -> 1 warnc: no such group: the network has 2
args compile --slots 2 --group 65535
fails -> 1 warnc: no such group: the network has 2
args live --slots 2 --group 2
fails -> 1 warnc: no such group: the network has 2

# a network of one group
in cell,1,64
in write,0,a,4370,0,1,en,2,2,1,*,@
args compile --slots 2 --network --workers 64
run -> 0
all -> worked
args live --slots 2 --network --sessions 2 --workers 2
run -> 0
all -> worked
args groups
run -> 0
out -> 1

# a group without an order: no line at all
in-cells 0 65
in write,0,a,4370,0,1,en,2,2,1,1-0,@
args report --slots 2 --group 1
run -> 0

# a fault of a row for another group
in-cells 0 65
in write,0,a,4370,0,1,xx,2,2,1,1-0,@
fails -> 1 warnc: row 66: unknown language
args groups
fails -> 1 warnc: row 66: unknown language
args report --slots 2 --network
fails -> 1 warnc: row 66: unknown language
args compile --slots 2 --network
fails -> 1 warnc: row 66: unknown language
in cell,1
fails -> 1 warnc: row 1: columns
args groups
fails -> 1 warnc: row 1: columns

# a tape of the second group's cell
book-cells 0 65
book write,0,a,4370,0,1,en,2,2,1,1-0 1-64,@
in-hex 0001 0040 00000002
in-hex 200010111201118046a3d168341a8d46a3d168341a8d46
in-hex 21a3d168341a8d46a3d168341a8d46a3d168341a8d46a3
in-hex 22d168341a8d46a3d168341a8d46a3d168341a8d46a3d1
in-hex 3368341a8d46a3d168341a8d46a3d168341a8d46a3d100
in-hex 2f2b2b2b2b2b2b2b2b2b2b2b2b2b2b2b2b2b2b2b2b2b2b 2f2b2b2b2b2b2b2b2b2b2b2b2b2b2b2b2b2b2b2b2b2b2b
in-hex 2f2b2b2b2b2b2b2b2b2b2b2b2b2b2b2b2b2b2b2b2b2b2b 2f2b2b2b2b2b2b2b2b2b2b2b2b2b2b2b2b2b2b2b2b2b2b
args verify --slots 2 --book network.csv --group 1
run -> 0
out -> lac,ci,id,serial,slot,difference
args verify --slots 2 --book network.csv --group 0
run -> 1
out -> lac,ci,id,serial,slot,difference
past 1,63,,,,no tape -> yes
out -> 1,64,,,,unknown cell
err -> warnc: differences: 65
args verify --slots 2 --book network.csv --group 2
fails -> 1 warnc: no such group: the network has 2
";

#[test]
fn groups_of_networks_are_run(rt: HostRuntime) -> Result<(), Fail> {
    expect_rows(&rt, GROUPS, 146)
}
