//! Runs of `page`. The pages are those of worked examples, packed by an independent script.

use crate::rows::expect_rows;
use std::test::Fail;

const PAGE: &str = "
args page --lang en --id 4370 --scope 0 --code 1 --update 0
in @
run -> 0
out -> 200010111201118046a3d168341a8d46a3d168341a8d46
out -> 21a3d168341a8d46a3d168341a8d46a3d168341a8d46a3
out -> 22d168341a8d46a3d168341a8d46a3d168341a8d46a3d1
out -> 3368341a8d46a3d168341a8d46a3d168341a8d46a3d100
out -> 4370 0010 @

# no line feed at the end of the text
in-hex 40
run -> 0
out -> 200010111201118046a3d168341a8d46a3d168341a8d46
out -> 21a3d168341a8d46a3d168341a8d46a3d168341a8d46a3
out -> 22d168341a8d46a3d168341a8d46a3d168341a8d46a3d1
out -> 3368341a8d46a3d168341a8d46a3d168341a8d46a3d100
out -> 4370 0010 @

# the options as one word with their values, in another order
args page --update=+0 --code=01 --scope=0 --id=4370 --lang=en
run -> 0
out -> 200010111201118046a3d168341a8d46a3d168341a8d46
out -> 21a3d168341a8d46a3d168341a8d46a3d168341a8d46a3
out -> 22d168341a8d46a3d168341a8d46a3d168341a8d46a3d1
out -> 3368341a8d46a3d168341a8d46a3d168341a8d46a3d100
out -> 4370 0010 @

# a serial number of ones alone
args page --lang en --id 4370 --scope 3 --code 1023 --update 15
run -> 0
out -> 20ffff111201118046a3d168341a8d46a3d168341a8d46
out -> 21a3d168341a8d46a3d168341a8d46a3d168341a8d46a3
out -> 22d168341a8d46a3d168341a8d46a3d168341a8d46a3d1
out -> 3368341a8d46a3d168341a8d46a3d168341a8d46a3d100
out -> 4370 ffff @

# two pages: the euro sign takes two places, and one is left on the first
args page --lang en --id 4370 --scope 0 --code 1 --update 0
in-hex 61
repeat 92
in-hex e282ac
run -> 0
out -> 20001011120112e170381c0e87c3e170381c0e87c3e170
out -> 21381c0e87c3e170381c0e87c3e170381c0e87c3e17038
out -> 221c0e87c3e170381c0e87c3e170381c0e87c3e170381c
out -> 330e87c3e170381c0e87c3e170381c0e87c3e17038dc00
out -> 200010111201229b72a3d168341a8d46a3d168341a8d46
out -> 21a3d168341a8d46a3d168341a8d46a3d168341a8d46a3
out -> 22d168341a8d46a3d168341a8d46a3d168341a8d46a3d1
out -> 3368341a8d46a3d168341a8d46a3d168341a8d46a3d100
out -> 4370 0010 aaaaaaaaaaaaaaaaaaaaaaaaaaaaaaaaaaaaaaaaaaaaaaaaaaaaaaaaaaaaaaaaaaaaaaaaaaaaaaaaaaaaaaaaaaaa€

# two lines
in a
in b
run -> 0
out -> 200010111201116185b8d168341a8d46a3d168341a8d46
out -> 21a3d168341a8d46a3d168341a8d46a3d168341a8d46a3
out -> 22d168341a8d46a3d168341a8d46a3d168341a8d46a3d1
out -> 3368341a8d46a3d168341a8d46a3d168341a8d46a3d100
out -> 4370 0010 a
out -> b

# UCS-2
args page --lang ru --id 4370 --scope 0 --code 1 --update 0
in Вода
run -> 0
out -> 200010111248110412043e04340430000d000d000d000d
out -> 21000d000d000d000d000d000d000d000d000d000d000d
out -> 22000d000d000d000d000d000d000d000d000d000d000d
out -> 33000d000d000d000d000d000d000d000d000d000d000d
out -> 4370 0010 Вода
";

const REFUSED: &str = "
args page --lang en --id 4370 --scope 0 --code 1 --update 0
in-hex 610d
fails -> 1 warnc: bad character at 1
# U+1F6A8
in-hex f09f9aa8
fails -> 1 warnc: bad character at 0
in-none
fails -> 1 warnc: text is empty
in
fails -> 1 warnc: text is empty
# one letter more than 15 pages have room for
in-hex 61
repeat 1396
fails -> 1 warnc: too many pages

args page --lang xx --id 4370 --scope 0 --code 1 --update 0
in-none
fails -> 1 warnc: unknown language
in-hex 61ff
fails -> 1 warnc: text is not UTF-8

# what is read once more would be told as a failed reader
# 16 MiB are no more than there may be
args page --lang xx --id 4370 --scope 0 --code 1 --update 0
in-hex 61
repeat 16777216
fails -> 1 warnc: unknown language
# 16 MiB and an octet are read of a text, and no more, in whatever language
args page --lang en --id 4370 --scope 0 --code 1 --update 0
in-hex 61
repeat 16777217
reader 1 16777217
fails -> 1 warnc: text is too long
args page --lang xx --id 4370 --scope 0 --code 1 --update 0
reader 1 16777217
fails -> 1 warnc: text is too long

# nothing is read after the end
args page --lang en --id 4370 --scope 0 --code 1 --update 0
in-hex 40
reader 7 2
run -> 0
worked 200010111201118046a3d168341a8d46a3d168341a8d46
worked 21a3d168341a8d46a3d168341a8d46a3d168341a8d46a3
worked 22d168341a8d46a3d168341a8d46a3d168341a8d46a3d1
worked 3368341a8d46a3d168341a8d46a3d168341a8d46a3d100
worked 4370 0010 @
all -> worked

in @
reads 0 1 -> 3 warnc: read failed
writer 90 0
run -> 3
err -> warnc: write failed
all -> 0 of 200
writer 90 1
run -> 3
err -> warnc: write failed
all -> 90 of 200
writer 90 2
run -> 3
err -> warnc: write failed
all -> 180 of 200
";

/// A table of the pages: their octets are those of the runs above, the octets that are used those of their septets or
/// units.
const EXPLAIN: &str = "
args page --lang en --id 4370 --scope 0 --code 1 --update 0 --explain
in @
run -> 0
out -> page,pages,serial,identifier,coding,used,block_1,block_2,block_3,block_4,text
out -> 1,1,0010,1112,01,1,\
    200010111201118046a3d168341a8d46a3d168341a8d46,\
    21a3d168341a8d46a3d168341a8d46a3d168341a8d46a3,\
    22d168341a8d46a3d168341a8d46a3d168341a8d46a3d1,\
    3368341a8d46a3d168341a8d46a3d168341a8d46a3d100,\
    @

# two pages, of 92 septets and of two: each shows its own part of the text
in-hex 61
repeat 92
in-hex e282ac
run -> 0
out -> page,pages,serial,identifier,coding,used,block_1,block_2,block_3,block_4,text
out -> 1,2,0010,1112,01,81,\
    20001011120112e170381c0e87c3e170381c0e87c3e170,\
    21381c0e87c3e170381c0e87c3e170381c0e87c3e17038,\
    221c0e87c3e170381c0e87c3e170381c0e87c3e170381c,\
    330e87c3e170381c0e87c3e170381c0e87c3e17038dc00,\
    aaaaaaaaaaaaaaaaaaaaaaaaaaaaaaaaaaaaaaaaaaaaaaaaaaaaaaaaaaaaaaaaaaaaaaaaaaaaaaaaaaaaaaaaaaaa
out -> 2,2,0010,1112,01,2,\
    200010111201229b72a3d168341a8d46a3d168341a8d46,\
    21a3d168341a8d46a3d168341a8d46a3d168341a8d46a3,\
    22d168341a8d46a3d168341a8d46a3d168341a8d46a3d1,\
    3368341a8d46a3d168341a8d46a3d168341a8d46a3d100,\
    €

# two lines: the text is quoted
in a
in b
run -> 0
out -> page,pages,serial,identifier,coding,used,block_1,block_2,block_3,block_4,text
out -> 1,1,0010,1112,01,3,\
    200010111201116185b8d168341a8d46a3d168341a8d46,\
    21a3d168341a8d46a3d168341a8d46a3d168341a8d46a3,\
    22d168341a8d46a3d168341a8d46a3d168341a8d46a3d1,\
    3368341a8d46a3d168341a8d46a3d168341a8d46a3d100,\
    \"a
out -> b\"

# UCS-2, and a serial number of ones alone
args page --explain --lang ru --id 4370 --scope 3 --code 1023 --update 15
in Вода
run -> 0
out -> page,pages,serial,identifier,coding,used,block_1,block_2,block_3,block_4,text
out -> 1,1,ffff,1112,48,8,\
    20ffff111248110412043e04340430000d000d000d000d,\
    21000d000d000d000d000d000d000d000d000d000d000d,\
    22000d000d000d000d000d000d000d000d000d000d000d,\
    33000d000d000d000d000d000d000d000d000d000d000d,\
    Вода
";

const EXPLAIN_REFUSED: &str = "
args page --explain --lang en --id 4370 --scope 0 --code 1 --update 0
in-hex 610d
fails -> 1 warnc: bad character at 1
in-none
fails -> 1 warnc: text is empty
in-hex 61ff
fails -> 1 warnc: text is not UTF-8
in @
reads 0 1 -> 3 warnc: read failed
worked page,pages,serial,identifier,coding,used,block_1,block_2,block_3,block_4,text
worked 1,1,0010,1112,01,1,\
    200010111201118046a3d168341a8d46a3d168341a8d46,\
    21a3d168341a8d46a3d168341a8d46a3d168341a8d46a3,\
    22d168341a8d46a3d168341a8d46a3d168341a8d46a3d1,\
    3368341a8d46a3d168341a8d46a3d168341a8d46a3d100,\
    @
writer 90 1
run -> 3
err -> warnc: write failed
all -> 90 of 287
";

#[test]
fn texts_go_out_and_come_back(rt: HostRuntime) -> Result<(), Fail> {
    expect_rows(&rt, PAGE, 60)
}

#[test]
fn refused_texts_and_failed_devices_are_named(rt: HostRuntime) -> Result<(), Fail> {
    expect_rows(&rt, REFUSED, 53)
}

#[test]
fn pages_are_explained(rt: HostRuntime) -> Result<(), Fail> {
    expect_rows(&rt, EXPLAIN, 23)
}

#[test]
fn refused_texts_are_not_explained(rt: HostRuntime) -> Result<(), Fail> {
    expect_rows(&rt, EXPLAIN_REFUSED, 15)
}
