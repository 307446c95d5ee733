//! Runs of `compile`, `live` and `chart` whose orders are all to be done. The refusals are those that `report` writes
//! of such books, and what does nothing is what `check` remarks.

use crate::rows::expect_rows;
use std::test::Fail;

const UNDONE: &str = "
# the flood finds no room in 1-1; the update comes after the stop, and so does nothing; and the fire is ordered past the
# end of a run of 24 slots
in cell,1,1
in cell,1,2
in write,8,storm,4371,0,2,en,2,4,0,1-1,Stay away from windows
in write,4,flood,4372,0,3,en,2,1,0,*,Leave the river
in stop,6,storm,*
in update,16,storm,en,2,4,0,*,The storm is over
in write,30,fire,4370,0,1,en,2,4,0,1-2,Stay in!
args compile --strict --slots 24
fails -> 1 warnc: refused: 2, doing nothing: 1
args compile --slots 24 --strict --workers 3
fails -> 1 warnc: refused: 2, doing nothing: 1
args live --slots 24 --strict
fails -> 1 warnc: refused: 2, doing nothing: 1
args live --slots 24 --strict --workers 2
fails -> 1 warnc: refused: 2, doing nothing: 1
args chart --slots 24 --strict
fails -> 1 warnc: refused: 2, doing nothing: 1
args chart --slots 24 --strict --cell 1-2
fails -> 1 warnc: refused: 2, doing nothing: 1
args compile --slots 24 --strict --group 0
fails -> 1 warnc: refused: 2, doing nothing: 1
args compile --slots 24 --strict --group 1
fails -> 1 warnc: no such group: the network has 1
# it isn't past the end of 31 slots, and finds no room in 1-2, which the flood fills
args compile --slots 31 --strict
fails -> 1 warnc: refused: 2, doing nothing: 1
# in 1-1 it would be alone
in cell,1,1
in write,4,flood,4372,0,3,en,2,1,0,*,Leave the river
in stop,8,flood,*
in write,30,fire,4370,0,1,en,2,4,0,*,Stay in!
args compile --slots 30 --strict
fails -> 1 warnc: refused: 1, doing nothing: 0
args compile --slots 31 --strict
run -> 0
keep
args compile --slots 31
run -> 0
all -> worked
args compile --slots 24 --strict
reads 0 100 -> 3 warnc: read failed
args report --slots 24 --strict
usage -> 2 error:
args compile --slots 24 --strict --network
usage -> 2 error:
args live --slots 24 --network --strict
usage -> 2 error:
args chart --slots 24 --network --strict
usage -> 2 error:

# an update before its alert is begun in the other cell is done in one of them, which is enough
in cell,1,1
in cell,1,2
in write,0,a,4370,0,1,en,2,2,0,1-1,One
in update,2,a,en,2,2,0,*,Two
args compile --strict --slots 4
run -> 0
keep
args compile --slots 4
run -> 0
all -> worked
# and a stop in a cell that never had it does nothing
in cell,1,1
in cell,1,2
in write,0,a,4370,0,1,en,2,2,0,1-1,One
in stop,2,a,1-2
args compile --strict --slots 4
fails -> 1 warnc: refused: 0, doing nothing: 1
in cell,1
fails -> 1 warnc: row 1: columns
";

const DONE: &str = "
in cell,1,1
in cell,1,2
in write,0,a,4370,0,1,en,2,2,0,*,One
in stop,3,a,*
args compile --slots 6
run -> 0
keep
args compile --slots 6 --strict
run -> 0
all -> worked
args compile --slots 6 --strict --workers 2
run -> 0
all -> worked
args live --slots 6 --strict --sessions 1
run -> 0
all -> worked
args live --slots 6 --strict --group 0 --sessions 2 --workers 2
run -> 0
all -> worked
reads 0 60 -> 3 warnc: read failed
args compile --slots 6 --strict
writer 10 60
run -> 3
err -> warnc: write failed
all -> 600 of 1120
args chart --slots 6
run -> 0
keep
args chart --slots 6 --strict
run -> 0
all -> worked
args chart --slots 6 --strict --group 0
run -> 0
all -> worked
reads 0 60 -> 3 warnc: read failed
writer 16 1
run -> 3
err -> warnc: write failed
out -> <!DOCTYPE html>

# no orders are all done
in-none
args compile --slots 6 --strict
run -> 0
";

#[test]
fn what_is_not_done_is_not_written(rt: HostRuntime) -> Result<(), Fail> {
    expect_rows(&rt, UNDONE, 65)
}

#[test]
fn what_is_done_is_written(rt: HostRuntime) -> Result<(), Fail> {
    expect_rows(&rt, DONE, 42)
}
