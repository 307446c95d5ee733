//! Network books at the edge of each bound, and past it by one.

use crate::networks_table::expect_rows;
use std::test::Fail;

/// 65,536 cells, whose last group is the 1,024th.
const CELLS: &str = "
before
cells 0 65536
groups -> 1024
groups cell,2,0| -> row 65537: too many rows
group 1023 write,0,a,4370,0,1,en,2,2,0,*,@| \
    -> 64 cells 1-65472 to 1-65535; 0010 at slot 0 of row 65537 to 64 cells 1-65472 to 1-65535
group 0 write,0,a,4370,0,1,en,2,2,0,1-65535 1-63 1-64,@| \
    -> 64 cells 1-0 to 1-63; 0010 at slot 0 of row 65537 to 1-63
group 1024 -> no such group: the network has 1024
";

/// 4,096 rows that declare no cell.
const ORDERS: &str = "
before
cells 0 65
before write,0,a,4370,0,1,en,2,2,0,*,@|
times 4095 stop,1,a,1-64|
groups -> 2
groups stop,1,a,1-64| -> row 4162: too many rows
groups sell| -> row 4162: too many rows
groups cell,1,65| -> 2
groups cell,1,64| -> row 4162: named twice
";

/// 64 MiB.
const OCTETS: &str = "
line_feeds 67108864 -> 1, 0 left
line_feeds 67108866 -> row 0: too many rows, 1 left
";

#[test]
fn a_network_has_65536_cells(rt: HostRuntime) -> Result<(), Fail> {
    expect_rows(&rt, CELLS)
}

#[test]
fn a_network_has_4096_other_rows(rt: HostRuntime) -> Result<(), Fail> {
    expect_rows(&rt, ORDERS)
}

#[test]
fn a_network_has_64_mebioctets(rt: HostRuntime) -> Result<(), Fail> {
    expect_rows(&rt, OCTETS)
}
