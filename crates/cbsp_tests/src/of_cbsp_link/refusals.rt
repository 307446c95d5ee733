//! Each refusal, in its place.

use crate::of_cbsp_link::table::expect_rows;
use std::test::Fail;

const REFUSED: &str = "
# Less than a header, and less than it says.
says  -> the message is cut off
says 04 -> the message is cut off
says 040000 -> the message is cut off
says 04000001 -> the message is cut off
says 0400000e 0e0001 020010 04000501 000100 -> the message is cut off
split 0400000e 0e0001 -> the message is cut off
# Elements that go past the end, by their size and by their length, and one without its length.
says 04000002 0e00 -> element 0E is cut off
says 0400000b 0e0001 020010 04000501 00 -> element 04 is cut off
says 04000008 0e0001 020010 0400 -> element 04 is cut off
says 01000053 01 82*00 -> element 01 is cut off
# Identifiers that the standard does not have.
says 04000012 0e0001 020010 04000501 00010001 1200 99aa -> element 99 is unknown
says 04000001 00 -> element 00 is unknown
says 04000002 19 00 -> element 19 is unknown
# Of a message that is passed over nothing is looked at.
says 07000001 99 -> type=7, passed over
# Elements that are missing: of orders, of replies, and of what takes messages away.
says 0400000b 020010 04000501 00010001 -> element 0E is missing
says 0400000b 0e0001 04000501 00010001 -> element 02 is missing
says 04000006 0e0001 020010 -> element 04 is missing
says 01000003 0e0001 -> element 03 is missing
says 01000006 0e0001 030010 -> element 04 is missing
says 01000010 0e0001 030010 04000501 00010001 1200 -> element 06 is missing
says 01000013 0e0001 030010 04000501 00010001 1200 060001 -> element 07 is missing
says 01000016 0e0001 030010 04000501 00010001 1200 060001 070000 -> element 0C is missing
says 01000018 0e0001 030010 04000501 00010001 1200 060001 070000 0c01 -> element 13 is missing
says 02000003 0e0001 -> element 03 is missing
says 05000003 0e0001 -> element 02 is missing
says 03000006 0e0001 030010 -> element 09 is missing
says 06000003 020010 -> element 0E is missing
says 10000000  -> element 04 is missing
says 11000000  -> element 04 is missing
says 12000000  -> element 09 is missing
says 13000004 04000106 -> element 16 is missing
says 13000006 04000106 1600 -> element 0D is missing
says 14000005 0900020600 -> element 16 is missing
# Lists: without a discriminator, with one that there is not, with a part of an item, and with octets after all cells.
says 10000003 040000 -> element 04 is wrong
says 10000004 04000107 -> element 04 is wrong
says 10000007 04000401000100 -> element 04 is wrong
says 10000006 0400030600 01 -> element 04 is wrong
says 10000008 040005f100010001 -> type=16 cl=1:1.1
says 10000004 04000103 -> type=16 cl=3:
writes 10000004 04000103 -> 1000000404000103
says 02000009 0e0001 030010 080000 -> element 08 is wrong
says 0200000a 0e0001 030010 08000107 -> element 08 is wrong
says 0200000b 0e0001 030010 08000201 00 -> element 08 is wrong
in_order 02000010 0e0001 030010 0800070600 010000 0200 -> type=2 id=1 new=16 nc=6:/1/0,/2/0
says 12000005 0900020700 -> element 09 is wrong
says 12000004 09000106 -> element 09 is wrong
in_order 1200000b 0900080600 05000102 0306 -> type=18 fl=6:/0 fl=5:1/2 fl=3:/6
# A period above 12 bits, and numbers of pages.
says 0100006e 0e0001 030010 04000501 00010001 1200 061000 070000 1301 0c01 0105 82*41 -> element 06 is wrong
says 0100001a 0e0001 030010 04000501 00010001 1200 060fff 070000 1300 0c01 -> element 13 is wrong
says 0100055a 0e0001 030010 04000501 00010001 1200 060fff 070000 1310 0c01 16*0105414141414141414141414141414141414141\
    414141414141414141414141414141414141414141414141414141414141414141414141414141414141414141414141414141414141414141\
    41414141414141 \
    -> element 13 is wrong
says 010000c2 0e0001 030010 04000501 00010001 1200 060fff 070000 1301 0c01 2*01054141414141414141414141414141414141414\
    141414141414141414141414141414141414141414141414141414141414141414141414141414141414141414141414141414141414141414\
    1414141414141 \
    -> element 13 is wrong
says 0100006e 0e0001 030010 04000501 00010001 1200 060fff 070000 1302 0c01 1*01054141414141414141414141414141414141414\
    141414141414141414141414141414141414141414141414141414141414141414141414141414141414141414141414141414141414141414\
    1414141414141 \
    -> element 13 is wrong
# What is read and not written.
writes 07000000  -> the message is not one that is written
writes 0100000e 0e0001 030010 04000501 00010001 -> the message is not one that is written
writes 10000004 04000101 -> element 04 is wrong
writes 04000010 0e0001 020010 04000501 00010001 1202 -> element 12 is wrong
writes 13000008 04000106 1602 0d00 -> element 16 is wrong
writes 13000008 04000106 1601 0d02 -> element 0D is wrong
writes 01000070 0e0001 030010 04000501 00010001 1200 0503 060fff 070000 1301 0c01 0105 82*41 -> element 05 is wrong
writes 01000070 0e0001 030010 04000501 00010001 1200 0502 060fff 070000 1301 0c01 0153 82*41 -> element 01 is wrong
writes 12000003 090000 -> element 09 is wrong
writes 14000007 0900020600 1602 -> element 16 is wrong
writes 10002716 04 2713 02 5001*0001 -> element 04 is wrong
";

#[test]
fn octets_and_messages_are_refused(rt: HostRuntime) -> Result<(), Fail> {
    expect_rows(&rt, rt.alloc(), REFUSED, 63)
}
