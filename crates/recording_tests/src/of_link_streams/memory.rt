//! Captures that are refused memory.

use crate::of_link_streams::bench::expect_rows;
use std::test::Fail;

const SCARCE: &str = "
# two directions, a message that waits for its begin, and one that has begun
file
> 100 S
< 500 S
> 105 - 1700000300
< 501 - 10000000
> 101 - 16000000
> 110 - 000017
scarce messages -> refused; 4<10000000;5>16000000;6>17000003000000;

# in the middle, with a gap that stays
file
> 101 - 16000000
> 106 - 16000000
scarce messages -> refused; 1>16000000;

# what is no capture, and one without a packet of the link, need no memory
file
scarce messages ->
new
scarce messages -> not a capture file
";

#[test]
fn messages_are_refused_until_there_is_memory(rt: HostRuntime) -> Result<(), Fail> {
    expect_rows(&rt, rt.alloc(), SCARCE, 16)
}
