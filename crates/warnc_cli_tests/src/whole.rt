//! Runs of `whole`. The pages are those of `read`'s rows; filling is carriage return (3GPP TS 23.038, 6.1.2.2).

use crate::rows::expect_rows;
use std::test::Fail;

const WHOLE: &str = "
args whole
# a page of one block, as osmo-bsc sent it, and the page that warnc makes of its text; an idle slot stays
in-hex 0001 0001 00000002
in-hex 30401011120111537a380f4abb438d46a3d168341a8d46
in-hex 2f2b2b2b2b2b2b2b2b2b2b2b2b2b2b2b2b2b2b2b2b2b2b
in-hex 2f2b2b2b2b2b2b2b2b2b2b2b2b2b2b2b2b2b2b2b2b2b2b
in-hex 2f2b2b2b2b2b2b2b2b2b2b2b2b2b2b2b2b2b2b2b2b2b2b
in-hex 2f2b2b2b2b2b2b2b2b2b2b2b2b2b2b2b2b2b2b2b2b2b2b
in-hex 2f2b2b2b2b2b2b2b2b2b2b2b2b2b2b2b2b2b2b2b2b2b2b
in-hex 2f2b2b2b2b2b2b2b2b2b2b2b2b2b2b2b2b2b2b2b2b2b2b
in-hex 2f2b2b2b2b2b2b2b2b2b2b2b2b2b2b2b2b2b2b2b2b2b2b
worked-hex 0001 0001 00000002
worked-hex 20401011120111537a380f4abb438d46a3d168341a8d46
worked-hex 21a3d168341a8d46a3d168341a8d46a3d168341a8d46a3
worked-hex 22d168341a8d46a3d168341a8d46a3d168341a8d46a3d1
worked-hex 3368341a8d46a3d168341a8d46a3d168341a8d46a3d100
worked-hex 2f2b2b2b2b2b2b2b2b2b2b2b2b2b2b2b2b2b2b2b2b2b2b
worked-hex 2f2b2b2b2b2b2b2b2b2b2b2b2b2b2b2b2b2b2b2b2b2b2b
worked-hex 2f2b2b2b2b2b2b2b2b2b2b2b2b2b2b2b2b2b2b2b2b2b2b
worked-hex 2f2b2b2b2b2b2b2b2b2b2b2b2b2b2b2b2b2b2b2b2b2b2b
run -> 0
all -> worked

# whole tapes stay as they are
in-worked
run -> 0
all -> worked

# two tapes: eight units in one block; a page that isn't cut, and a last block alone that isn't the first of its slot
in-hex 0001 0001 00000001
in-hex 30 0020 1112 48 11 0412 043e 0434 0430 0021 0021 0021 0021
in-hex 2f2b2b2b2b2b2b2b2b2b2b2b2b2b2b2b2b2b2b2b2b2b2b
in-hex 2f2b2b2b2b2b2b2b2b2b2b2b2b2b2b2b2b2b2b2b2b2b2b
in-hex 2f2b2b2b2b2b2b2b2b2b2b2b2b2b2b2b2b2b2b2b2b2b2b
in-hex fffe 0102 00000001
in-hex 2f2b2b2b2b2b2b2b2b2b2b2b2b2b2b2b2b2b2b2b2b2b2b
in-hex 30 0010 1112 01 11 c16030180c0683c16030180c0683c160
in-hex 2f2b2b2b2b2b2b2b2b2b2b2b2b2b2b2b2b2b2b2b2b2b2b
in-hex 2f2b2b2b2b2b2b2b2b2b2b2b2b2b2b2b2b2b2b2b2b2b2b
worked-hex 0001 0001 00000001
worked-hex 20 0020 1112 48 11 0412 043e 0434 0430 0021 0021 0021 0021
worked-hex 21 000d 000d 000d 000d 000d 000d 000d 000d 000d 000d 000d
worked-hex 22 000d 000d 000d 000d 000d 000d 000d 000d 000d 000d 000d
worked-hex 33 000d 000d 000d 000d 000d 000d 000d 000d 000d 000d 000d
worked-hex fffe 0102 00000001
worked-hex 2f2b2b2b2b2b2b2b2b2b2b2b2b2b2b2b2b2b2b2b2b2b2b
worked-hex 30 0010 1112 01 11 c16030180c0683c16030180c0683c160
worked-hex 2f2b2b2b2b2b2b2b2b2b2b2b2b2b2b2b2b2b2b2b2b2b2b
worked-hex 2f2b2b2b2b2b2b2b2b2b2b2b2b2b2b2b2b2b2b2b2b2b2b
run -> 0
all -> worked
";

const REFUSED: &str = "
args whole
in-hex 0001 0001 00000001
in-hex 30 0020 1112 48 11 0412 043e 0434 0430 0021 0021 0021 0021
in-hex 2f2b2b2b2b2b2b2b2b2b2b2b2b2b2b2b2b2b2b2b2b2b2b
in-hex 2f2b2b2b2b2b2b2b2b2b2b2b2b2b2b2b2b2b2b2b2b2b2b
in-hex 2f2b2b2b2b2b2b2b2b2b2b2b2b2b2b2b2b2b2b2b2b2b2b
worked-hex 0001 0001 00000001
worked-hex 20 0020 1112 48 11 0412 043e 0434 0430 0021 0021 0021 0021
worked-hex 21 000d 000d 000d 000d 000d 000d 000d 000d 000d 000d 000d
worked-hex 22 000d 000d 000d 000d 000d 000d 000d 000d 000d 000d 000d
worked-hex 33 000d 000d 000d 000d 000d 000d 000d 000d 000d 000d 000d
fronts 1 99 -> 1 warnc: tape is short
reads 0 100 -> 3 warnc: read failed
# 100 octets and the end are read, and nothing more
reader 1 101
run -> 0
all -> worked
writer 20 1
run -> 3
err -> warnc: write failed
all -> 20 of 100

# a header that says too many slots decides, and after 64 tapes so does an octet
in-hex 0001 0001 00010000
reader 8 1
fails -> 1 warnc: tape is long
in-hex 0001 0002 00000000
repeat 64
in-hex 00
fails -> 1 warnc: tape is long
";

#[test]
fn short_pages_get_four_blocks(rt: HostRuntime) -> Result<(), Fail> {
    expect_rows(&rt, WHOLE, 46)
}

#[test]
fn refused_tapes_and_failed_devices_are_told(rt: HostRuntime) -> Result<(), Fail> {
    expect_rows(&rt, REFUSED, 27)
}
