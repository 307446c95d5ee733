//! Tables of lines, as `command_rows` reads them.

use command_rows::count_rows;
use std::process::Abort;
use std::sync::Wait;
use std::test::Fail;
use std::thread::Threads;

/// Expects what the rows of a table say, that there are so many, and that each run's octets are looked at.
pub fn expect_rows<T: AllocGlobal + Abort + Threads + Wait + Sync>(
    rt: &T,
    table: &str,
    count: u16,
) -> Result<(), Fail> {
    let rows = count_rows(rt, table)?;
    assert!(rt; rows == count, "{rows} rows");
    Ok(())
}
