//! Messages that are read and written with scarce memory: they are refused until there is enough.

use crate::of_cbsp_link::table::expect_rows;
use std::test::Fail;

const SCARCE: &str = "
scarce in_order 010000c7 0e0001 030010 020020 04000501 00010001 1200 0502 060004 0703e7 1302 0c0f 2*010f5a5a5a5a5a5a5a\
    5a5a5a5a5a5a5a5a5a5a5a5a5a5a5a5a5a5a5a5a5a5a5a5a5a5a5a5a5a5a5a5a5a5a5a5a5a5a5a5a5a5a5a5a5a5a5a5a5a5a5a5a5a5a5a5a5a\
    5a5a5a5a5a5a5a5a5a5a5a5a5a5a5a5a5a5a \
    -> refused; type=1 id=1 new=16 old=32 cl=1:1.1 ch=0 cat=2 per=4 num=999 dcs=15 pg=15:5a5a5a5a5a5a5a5a5a5a5a5a5a5a5\
    a5a5a5a5a5a5a5a5a5a5a5a5a5a5a5a5a5a5a5a5a5a5a5a5a5a5a5a5a5a5a5a5a5a5a5a5a5a5a5a5a5a5a5a5a5a5a5a5a5a5a5a5a5a5a5a5a5\
    a5a5a5a5a5a5a5a5a5a5a pg=15:5a5a5a5a5a5a5a5a5a5a5a5a5a5a5a5a5a5a5a5a5a5a5a5a5a5a5a5a5a5a5a5a5a5a5a5a5a5a5a5a5a5a5a\
    5a5a5a5a5a5a5a5a5a5a5a5a5a5a5a5a5a5a5a5a5a5a5a5a5a5a5a5a5a5a5a5a5a5a5a5a5a5a5a
scarce in_order 0600003b 0e0001 020010 090012 01 00010001 06 01 00010002 02 01 00010003 02 08000f 01 00010004 0002 0\
    0 00010005 0003 00 04000901 00010006 00010007 1200 \
    -> refused; type=6 id=1 old=16 fl=1:1.1/6 fl=1:1.2/2 fl=1:1.3/2 nc=1:1.4/2/0,1.5/3/0 cl=1:1.6,1.7 ch=0
scarce in_order 14000007 0900020603 1600 -> refused; type=20 fl=6:/3 bt=0
# A message that is passed over takes none, and a fault that comes before lists.
scarce says 07000000 -> type=7, passed over
scarce says 0400000100 -> element 00 is unknown
";

#[test]
fn messages_are_read_and_written_once_there_is_memory(rt: HostRuntime) -> Result<(), Fail> {
    expect_rows(&rt, rt.alloc(), SCARCE, 5)
}
