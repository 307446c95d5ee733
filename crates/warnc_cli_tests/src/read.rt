//! Runs of `read`. The blocks are those of a worked page; UCS-2 pages are spelled out.

use crate::rows::expect_rows;
use std::test::Fail;

const READ: &str = "
args read
# the worked tape: cell 1-1, two slots, the text `@`, and an idle slot
worked-hex 0001 0001 00000002
worked-hex 200010111201118046a3d168341a8d46a3d168341a8d46
worked-hex 21a3d168341a8d46a3d168341a8d46a3d168341a8d46a3
worked-hex 22d168341a8d46a3d168341a8d46a3d168341a8d46a3d1
worked-hex 3368341a8d46a3d168341a8d46a3d168341a8d46a3d100
worked-hex 2f2b2b2b2b2b2b2b2b2b2b2b2b2b2b2b2b2b2b2b2b2b2b
worked-hex 2f2b2b2b2b2b2b2b2b2b2b2b2b2b2b2b2b2b2b2b2b2b2b
worked-hex 2f2b2b2b2b2b2b2b2b2b2b2b2b2b2b2b2b2b2b2b2b2b2b
worked-hex 2f2b2b2b2b2b2b2b2b2b2b2b2b2b2b2b2b2b2b2b2b2b2b
in-worked
run -> 0
out -> lac,ci,id,serial,text
out -> 1,1,4370,0010,@

in-none
run -> 0
out -> lac,ci,id,serial,text

# tapes follow each other: the worked one, a slot of `Вода` in UCS-2, the worked one
in-worked
in-hex fffe 0102 00000001
in-hex 20 0010 1112 48 11 0412 043e 0434 0430 000d 000d 000d 000d
in-hex 21 000d 000d 000d 000d 000d 000d 000d 000d 000d 000d 000d
in-hex 22 000d 000d 000d 000d 000d 000d 000d 000d 000d 000d 000d
in-hex 33 000d 000d 000d 000d 000d 000d 000d 000d 000d 000d 000d
in-worked
run -> 0
out -> lac,ci,id,serial,text
out -> 1,1,4370,0010,@
out -> 65534,258,4370,0010,Вода
out -> 1,1,4370,0010,@

# the text `a,\"b`, a line feed, `c`: it is quoted
in-hex 0007 0009 00000001
in-hex 20 0010 1112 48 11 0061 002c 0022 0062 000a 0063 000d 000d
in-hex 21 000d 000d 000d 000d 000d 000d 000d 000d 000d 000d 000d
in-hex 22 000d 000d 000d 000d 000d 000d 000d 000d 000d 000d 000d
in-hex 33 000d 000d 000d 000d 000d 000d 000d 000d 000d 000d 000d
run -> 0
out -> lac,ci,id,serial,text
out -> 7,9,4370,0010,\"a,\"\"b
out -> c\"
";

const REFUSED: &str = "
args read
in-hex 0001 0001 00000002
in-hex 200010111201118046a3d168341a8d46a3d168341a8d46
in-hex 21a3d168341a8d46a3d168341a8d46a3d168341a8d46a3
in-hex 22d168341a8d46a3d168341a8d46a3d168341a8d46a3d1
in-hex 3368341a8d46a3d168341a8d46a3d168341a8d46a3d100
in-hex 2f2b2b2b2b2b2b2b2b2b2b2b2b2b2b2b2b2b2b2b2b2b2b
in-hex 2f2b2b2b2b2b2b2b2b2b2b2b2b2b2b2b2b2b2b2b2b2b2b
in-hex 2f2b2b2b2b2b2b2b2b2b2b2b2b2b2b2b2b2b2b2b2b2b2b
in-hex 2f2b2b2b2b2b2b2b2b2b2b2b2b2b2b2b2b2b2b2b2b2b2b
in-hex 00
fronts 1 191 -> 1 warnc: tape is short
fails -> 1 warnc: tape is short

# 65,536 slots, 2,147,483,648 slots, and 65,535 slots
in-hex 0001 0001 00010000
fails -> 1 warnc: tape is long
in-hex 0001 0001 80000000
fails -> 1 warnc: tape is long
in-hex 0001 0001 0000ffff
fails -> 1 warnc: tape is short

# 64 tapes, and an octet more
in-hex 0001 0002 00000001
in-hex 20 0010 1112 48 11 044f 000d 000d 000d 000d 000d 000d 000d
in-hex 21 000d 000d 000d 000d 000d 000d 000d 000d 000d 000d 000d
in-hex 22 000d 000d 000d 000d 000d 000d 000d 000d 000d 000d 000d
in-hex 33 000d 000d 000d 000d 000d 000d 000d 000d 000d 000d 000d
repeat 64
run -> 0
out -> lac,ci,id,serial,text
out 64 -> 1,2,4370,0010,я
in-hex 0001 0002 00000001
in-hex 20 0010 1112 48 11 044f 000d 000d 000d 000d 000d 000d 000d
in-hex 21 000d 000d 000d 000d 000d 000d 000d 000d 000d 000d 000d
in-hex 22 000d 000d 000d 000d 000d 000d 000d 000d 000d 000d 000d
in-hex 33 000d 000d 000d 000d 000d 000d 000d 000d 000d 000d 000d
repeat 64
in-hex 00
fails -> 1 warnc: tape is long

# what is read once more would be told as a failed reader
worked lac,ci,id,serial,text
worked 1,1,4370,0010,@
in-hex 0001 0001 00000002
in-hex 200010111201118046a3d168341a8d46a3d168341a8d46
in-hex 21a3d168341a8d46a3d168341a8d46a3d168341a8d46a3
in-hex 22d168341a8d46a3d168341a8d46a3d168341a8d46a3d1
in-hex 3368341a8d46a3d168341a8d46a3d168341a8d46a3d100
in-hex 2f2b2b2b2b2b2b2b2b2b2b2b2b2b2b2b2b2b2b2b2b2b2b
in-hex 2f2b2b2b2b2b2b2b2b2b2b2b2b2b2b2b2b2b2b2b2b2b2b
in-hex 2f2b2b2b2b2b2b2b2b2b2b2b2b2b2b2b2b2b2b2b2b2b2b
in-hex 2f2b2b2b2b2b2b2b2b2b2b2b2b2b2b2b2b2b2b2b2b2b2b
reads 0 192 -> 3 warnc: read failed
# 192 octets and the end are read, and nothing more
reader 1 193
run -> 0
all -> worked
writer 20 0
run -> 3
err -> warnc: write failed
all -> 0 of 38
writer 20 1
run -> 3
err -> warnc: write failed
all -> 20 of 38

# 64 tapes of no slots: the end is looked for after the last one, and once
in-hex 0001 0002 00000000
repeat 64
reader 1 513
run -> 0
out -> lac,ci,id,serial,text
reader 1 512
fails -> 3 warnc: read failed

# a header that says too many slots decides
in-hex 0001 0001 00010000
reader 8 1
fails -> 1 warnc: tape is long
";

const SHORT: &str = "
# a network with osmo-cbc, osmo-bsc and osmo-bts, as tshark reads it: a page of four blocks and the next one in two, and
# a page in one
args read --short
worked-hex 0001 0001 00000003
worked-hex 20402011130f12b0986c46abd96eb81c2c269bd16ab61b
worked-hex 212e078bc966b49aed86cbc162b219ad66bbe172b0986c
worked-hex 2246abd96eb81c2c269bd16ab61b2e078bc966b49aed86
worked-hex 33cbc162b219ad66bbe172b0986c46abd96eb81c2c269b
worked-hex 20402011130f22d16ab61b2e078bc966b49aed86cbc162
worked-hex 31b219ad66bbe1728d46a3d168341a8d46a3d168341a8d
worked-hex 2f2b2b2b2b2b2b2b2b2b2b2b2b2b2b2b2b2b2b2b2b2b2b
worked-hex 2f2b2b2b2b2b2b2b2b2b2b2b2b2b2b2b2b2b2b2b2b2b2b
worked-hex 30401011120111537a380f4abb438d46a3d168341a8d46
worked-hex 2f2b2b2b2b2b2b2b2b2b2b2b2b2b2b2b2b2b2b2b2b2b2b
worked-hex 2f2b2b2b2b2b2b2b2b2b2b2b2b2b2b2b2b2b2b2b2b2b2b
worked-hex 2f2b2b2b2b2b2b2b2b2b2b2b2b2b2b2b2b2b2b2b2b2b2b
in-worked
run -> 0
out -> lac,ci,id,serial,text
past 34567890123456789012345678901234567890123456789012QUYÑaeAEIMQUYÑaeAEIMQUYÑae54444444444444444 -> yes
out -> 1,1,4370,4010,Stay in!
args read
in-worked
run -> 0
out -> lac,ci,id,serial,text

args read --short
in-none
run -> 0
out -> lac,ci,id,serial,text

# in three blocks 68 septets, and four bits of one more; what follows in the slot is no part of a page
in-hex 0001 0001 00000001
in-hex 20 0010 1112 01 11 b0986c46abd96eb81c2c269bd16ab61b
in-hex 21 2e078bc966b49aed86cbc162b219ad66bbe172b0986c
in-hex 32 46abd96eb81c2c269bd16ab61b2e078bc966b49aedf6
in-hex 33 46abd96eb81c2c269bd16ab61b2e078bc966b49aedf6
run -> 0
out -> lac,ci,id,serial,text
out -> 1,1,4370,0010,01234567890123456789012345678901234567890123456789012345678901234567

# in one block 18 septets, and two bits of one more; in UCS-2 eight units; a coding without an alphabet
in-hex 0001 0001 00000003
in-hex 30 0010 1112 01 11 c16030180c0683c16030180c0683c160
in-hex 31 30180c0683c16030180c0683c16030180c0683c16030
in-hex 32 180c0683c16030180c0683c16030180c0683c1603018
in-hex 33 0c0683c16030180c0683c16030180c0683c160301800
in-hex 30 0020 1112 48 11 0412 043e 0434 0430 0021 0021 0021 0021
in-hex 2f2b2b2b2b2b2b2b2b2b2b2b2b2b2b2b2b2b2b2b2b2b2b
in-hex 2f2b2b2b2b2b2b2b2b2b2b2b2b2b2b2b2b2b2b2b2b2b2b
in-hex 2f2b2b2b2b2b2b2b2b2b2b2b2b2b2b2b2b2b2b2b2b2b2b
in-hex 30 0030 1112 10 11 c16030180c0683c16030180c0683c160
in-hex 2f2b2b2b2b2b2b2b2b2b2b2b2b2b2b2b2b2b2b2b2b2b2b
in-hex 2f2b2b2b2b2b2b2b2b2b2b2b2b2b2b2b2b2b2b2b2b2b2b
in-hex 2f2b2b2b2b2b2b2b2b2b2b2b2b2b2b2b2b2b2b2b2b2b2b
run -> 0
out -> lac,ci,id,serial,text
out -> 1,1,4370,0010,AAAAAAAAAAAAAAAAAA
out -> 1,1,4370,0020,Вода!!!!

# a page in one block that isn't the first of its slot; a page of four blocks over the end of a slot
in-hex 0001 0001 00000003
in-hex 2f2b2b2b2b2b2b2b2b2b2b2b2b2b2b2b2b2b2b2b2b2b2b
in-hex 30 0010 1112 01 11 c16030180c0683c16030180c0683c160
in-hex 2f2b2b2b2b2b2b2b2b2b2b2b2b2b2b2b2b2b2b2b2b2b2b
in-hex 2f2b2b2b2b2b2b2b2b2b2b2b2b2b2b2b2b2b2b2b2b2b2b
in-hex 2f2b2b2b2b2b2b2b2b2b2b2b2b2b2b2b2b2b2b2b2b2b2b
in-hex 20 0020 1112 48 11 044f 000d 000d 000d 000d 000d 000d 000d
in-hex 21 000d 000d 000d 000d 000d 000d 000d 000d 000d 000d 000d
in-hex 22 000d 000d 000d 000d 000d 000d 000d 000d 000d 000d 000d
in-hex 33 000d 000d 000d 000d 000d 000d 000d 000d 000d 000d 000d
in-hex 2f2b2b2b2b2b2b2b2b2b2b2b2b2b2b2b2b2b2b2b2b2b2b
in-hex 2f2b2b2b2b2b2b2b2b2b2b2b2b2b2b2b2b2b2b2b2b2b2b
in-hex 2f2b2b2b2b2b2b2b2b2b2b2b2b2b2b2b2b2b2b2b2b2b2b
run -> 0
out -> lac,ci,id,serial,text
out -> 1,1,4370,0020,я

# the first page of a number that came counts, in however many blocks
in-hex 0001 0001 00000002
in-hex 30 0010 1112 48 11 0041 000d 000d 000d 000d 000d 000d 000d
in-hex 2f2b2b2b2b2b2b2b2b2b2b2b2b2b2b2b2b2b2b2b2b2b2b
in-hex 2f2b2b2b2b2b2b2b2b2b2b2b2b2b2b2b2b2b2b2b2b2b2b
in-hex 2f2b2b2b2b2b2b2b2b2b2b2b2b2b2b2b2b2b2b2b2b2b2b
in-hex 20 0010 1112 48 11 0042 000d 000d 000d 000d 000d 000d 000d
in-hex 21 000d 000d 000d 000d 000d 000d 000d 000d 000d 000d 000d
in-hex 22 000d 000d 000d 000d 000d 000d 000d 000d 000d 000d 000d
in-hex 33 000d 000d 000d 000d 000d 000d 000d 000d 000d 000d 000d
run -> 0
out -> lac,ci,id,serial,text
out -> 1,1,4370,0010,A
";

const SHORT_REFUSED: &str = "
args read --short
worked lac,ci,id,serial,text
worked 1,1,4383,0020,Bleib da
in-hex 0001 0001 00000001
in-hex 300020111f01114276392d0691c38d46a3d168341a8d46
in-hex 2f2b2b2b2b2b2b2b2b2b2b2b2b2b2b2b2b2b2b2b2b2b2b
in-hex 2f2b2b2b2b2b2b2b2b2b2b2b2b2b2b2b2b2b2b2b2b2b2b
in-hex 2f2b2b2b2b2b2b2b2b2b2b2b2b2b2b2b2b2b2b2b2b2b2b
fronts 1 99 -> 1 warnc: tape is short
reads 0 100 -> 3 warnc: read failed
# 100 octets and the end are read, and nothing more
reader 1 101
run -> 0
all -> worked
writer 20 1
run -> 3
err -> warnc: write failed
all -> 20 of 45

# a header that says too many slots decides, and after 64 tapes so does an octet
in-hex 0001 0001 00010000
reader 8 1
fails -> 1 warnc: tape is long
in-hex 0001 0002 00000000
repeat 64
in-hex 00
fails -> 1 warnc: tape is long
";

const SLOTS: &str = "
args read --slots
# the worked tape: a slot with the text `@`, and an idle slot
worked-hex 0001 0001 00000002
worked-hex 200010111201118046a3d168341a8d46a3d168341a8d46
worked-hex 21a3d168341a8d46a3d168341a8d46a3d168341a8d46a3
worked-hex 22d168341a8d46a3d168341a8d46a3d168341a8d46a3d1
worked-hex 3368341a8d46a3d168341a8d46a3d168341a8d46a3d100
worked-hex 2f2b2b2b2b2b2b2b2b2b2b2b2b2b2b2b2b2b2b2b2b2b2b
worked-hex 2f2b2b2b2b2b2b2b2b2b2b2b2b2b2b2b2b2b2b2b2b2b2b
worked-hex 2f2b2b2b2b2b2b2b2b2b2b2b2b2b2b2b2b2b2b2b2b2b2b
worked-hex 2f2b2b2b2b2b2b2b2b2b2b2b2b2b2b2b2b2b2b2b2b2b2b
in-worked
run -> 0
out -> lac,ci,slot,id,serial,page,pages
out -> 1,1,0,4370,0010,1,1

in-none
run -> 0
out -> lac,ci,slot,id,serial,page,pages

# a page again, also after another one: each slot has its row; and the next tape
in-hex 0001 0001 00000004
in-hex 20 0020 1112 48 12 044f 000d 000d 000d 000d 000d 000d 000d
in-hex 21 000d 000d 000d 000d 000d 000d 000d 000d 000d 000d 000d
in-hex 22 000d 000d 000d 000d 000d 000d 000d 000d 000d 000d 000d
in-hex 33 000d 000d 000d 000d 000d 000d 000d 000d 000d 000d 000d
in-hex 20 ffff 111f 48 22 0041 000d 000d 000d 000d 000d 000d 000d
in-hex 21 000d 000d 000d 000d 000d 000d 000d 000d 000d 000d 000d
in-hex 22 000d 000d 000d 000d 000d 000d 000d 000d 000d 000d 000d
in-hex 33 000d 000d 000d 000d 000d 000d 000d 000d 000d 000d 000d
in-hex 2f2b2b2b2b2b2b2b2b2b2b2b2b2b2b2b2b2b2b2b2b2b2b
in-hex 2f2b2b2b2b2b2b2b2b2b2b2b2b2b2b2b2b2b2b2b2b2b2b
in-hex 2f2b2b2b2b2b2b2b2b2b2b2b2b2b2b2b2b2b2b2b2b2b2b
in-hex 2f2b2b2b2b2b2b2b2b2b2b2b2b2b2b2b2b2b2b2b2b2b2b
in-hex 20 0020 1112 48 12 044f 000d 000d 000d 000d 000d 000d 000d
in-hex 21 000d 000d 000d 000d 000d 000d 000d 000d 000d 000d 000d
in-hex 22 000d 000d 000d 000d 000d 000d 000d 000d 000d 000d 000d
in-hex 33 000d 000d 000d 000d 000d 000d 000d 000d 000d 000d 000d
in-hex fffe 0102 00000002
in-hex 2f2b2b2b2b2b2b2b2b2b2b2b2b2b2b2b2b2b2b2b2b2b2b
in-hex 2f2b2b2b2b2b2b2b2b2b2b2b2b2b2b2b2b2b2b2b2b2b2b
in-hex 2f2b2b2b2b2b2b2b2b2b2b2b2b2b2b2b2b2b2b2b2b2b2b
in-hex 2f2b2b2b2b2b2b2b2b2b2b2b2b2b2b2b2b2b2b2b2b2b2b
in-hex 200010111201118046a3d168341a8d46a3d168341a8d46
in-hex 21a3d168341a8d46a3d168341a8d46a3d168341a8d46a3
in-hex 22d168341a8d46a3d168341a8d46a3d168341a8d46a3d1
in-hex 3368341a8d46a3d168341a8d46a3d168341a8d46a3d100
run -> 0
out -> lac,ci,slot,id,serial,page,pages
out -> 1,1,0,4370,0020,1,2
out -> 1,1,1,4383,ffff,2,2
out -> 1,1,3,4370,0020,1,2
out -> 65534,258,1,4370,0010,1,1

# a page parameter of 0 is page 1 of 1; no handset takes a number over the total, nor a coding without an alphabet
in-hex 0001 0001 00000003
in-hex 20 0020 1112 48 00 044f 000d 000d 000d 000d 000d 000d 000d
in-hex 21 000d 000d 000d 000d 000d 000d 000d 000d 000d 000d 000d
in-hex 22 000d 000d 000d 000d 000d 000d 000d 000d 000d 000d 000d
in-hex 33 000d 000d 000d 000d 000d 000d 000d 000d 000d 000d 000d
in-hex 20 0020 1112 48 32 044f 000d 000d 000d 000d 000d 000d 000d
in-hex 21 000d 000d 000d 000d 000d 000d 000d 000d 000d 000d 000d
in-hex 22 000d 000d 000d 000d 000d 000d 000d 000d 000d 000d 000d
in-hex 33 000d 000d 000d 000d 000d 000d 000d 000d 000d 000d 000d
in-hex 20 0020 1112 10 11 044f 000d 000d 000d 000d 000d 000d 000d
in-hex 21 000d 000d 000d 000d 000d 000d 000d 000d 000d 000d 000d
in-hex 22 000d 000d 000d 000d 000d 000d 000d 000d 000d 000d 000d
in-hex 33 000d 000d 000d 000d 000d 000d 000d 000d 000d 000d 000d
run -> 0
out -> lac,ci,slot,id,serial,page,pages
out -> 1,1,0,4370,0020,1,1

# blocks that are no page: without the third, in another order, and over the end of a slot
in-hex 0001 0001 00000005
in-hex 20 0020 1112 48 11 044f 000d 000d 000d 000d 000d 000d 000d
in-hex 21 000d 000d 000d 000d 000d 000d 000d 000d 000d 000d 000d
in-hex 2f2b2b2b2b2b2b2b2b2b2b2b2b2b2b2b2b2b2b2b2b2b2b
in-hex 33 000d 000d 000d 000d 000d 000d 000d 000d 000d 000d 000d
in-hex 20 0020 1112 48 11 044f 000d 000d 000d 000d 000d 000d 000d
in-hex 22 000d 000d 000d 000d 000d 000d 000d 000d 000d 000d 000d
in-hex 21 000d 000d 000d 000d 000d 000d 000d 000d 000d 000d 000d
in-hex 33 000d 000d 000d 000d 000d 000d 000d 000d 000d 000d 000d
in-hex 2f2b2b2b2b2b2b2b2b2b2b2b2b2b2b2b2b2b2b2b2b2b2b
in-hex 2f2b2b2b2b2b2b2b2b2b2b2b2b2b2b2b2b2b2b2b2b2b2b
in-hex 20 0020 1112 48 11 044f 000d 000d 000d 000d 000d 000d 000d
in-hex 21 000d 000d 000d 000d 000d 000d 000d 000d 000d 000d 000d
in-hex 22 000d 000d 000d 000d 000d 000d 000d 000d 000d 000d 000d
in-hex 33 000d 000d 000d 000d 000d 000d 000d 000d 000d 000d 000d
in-hex 2f2b2b2b2b2b2b2b2b2b2b2b2b2b2b2b2b2b2b2b2b2b2b
in-hex 2f2b2b2b2b2b2b2b2b2b2b2b2b2b2b2b2b2b2b2b2b2b2b
in-hex 2f2b2b2b2b2b2b2b2b2b2b2b2b2b2b2b2b2b2b2b2b2b2b
in-hex 2f2b2b2b2b2b2b2b2b2b2b2b2b2b2b2b2b2b2b2b2b2b2b
in-hex 2f2b2b2b2b2b2b2b2b2b2b2b2b2b2b2b2b2b2b2b2b2b2b
in-hex 2f2b2b2b2b2b2b2b2b2b2b2b2b2b2b2b2b2b2b2b2b2b2b
run -> 0
out -> lac,ci,slot,id,serial,page,pages

# a tape without slots
in-hex 0001 0001 00000000
run -> 0
out -> lac,ci,slot,id,serial,page,pages
";

const SLOTS_SHORT: &str = "
# pages in one block, in two and in four, and what follows the last block of one
args read --slots --short
worked-hex 0001 0001 00000004
worked-hex 30 0010 1112 48 11 0041 000d 000d 000d 000d 000d 000d 000d
worked-hex 20 0020 1112 48 12 0041 000d 000d 000d 000d 000d 000d 000d
worked-hex 33 000d 000d 000d 000d 000d 000d 000d 000d 000d 000d 000d
worked-hex 2f2b2b2b2b2b2b2b2b2b2b2b2b2b2b2b2b2b2b2b2b2b2b
worked-hex 20 0020 1112 48 22 0041 000d 000d 000d 000d 000d 000d 000d
worked-hex 31 000d 000d 000d 000d 000d 000d 000d 000d 000d 000d 000d
worked-hex 2f2b2b2b2b2b2b2b2b2b2b2b2b2b2b2b2b2b2b2b2b2b2b
worked-hex 2f2b2b2b2b2b2b2b2b2b2b2b2b2b2b2b2b2b2b2b2b2b2b
worked-hex 20 0030 111f 48 11 0042 000d 000d 000d 000d 000d 000d 000d
worked-hex 21 000d 000d 000d 000d 000d 000d 000d 000d 000d 000d 000d
worked-hex 22 000d 000d 000d 000d 000d 000d 000d 000d 000d 000d 000d
worked-hex 33 000d 000d 000d 000d 000d 000d 000d 000d 000d 000d 000d
worked-hex 30 0010 1112 10 11 0041 000d 000d 000d 000d 000d 000d 000d
worked-hex 2f2b2b2b2b2b2b2b2b2b2b2b2b2b2b2b2b2b2b2b2b2b2b
worked-hex 2f2b2b2b2b2b2b2b2b2b2b2b2b2b2b2b2b2b2b2b2b2b2b
worked-hex 2f2b2b2b2b2b2b2b2b2b2b2b2b2b2b2b2b2b2b2b2b2b2b
in-worked
run -> 0
out -> lac,ci,slot,id,serial,page,pages
out -> 1,1,0,4370,0010,1,1
out -> 1,1,1,4370,0020,2,2
out -> 1,1,2,4383,0030,1,1
args read --slots
in-worked
run -> 0
out -> lac,ci,slot,id,serial,page,pages
out -> 1,1,2,4383,0030,1,1
";

const SLOTS_REFUSED: &str = "
args read --slots
worked lac,ci,slot,id,serial,page,pages
worked 1,1,0,4370,0010,1,1
in-hex 0001 0001 00000001
in-hex 200010111201118046a3d168341a8d46a3d168341a8d46
in-hex 21a3d168341a8d46a3d168341a8d46a3d168341a8d46a3
in-hex 22d168341a8d46a3d168341a8d46a3d168341a8d46a3d1
in-hex 3368341a8d46a3d168341a8d46a3d168341a8d46a3d100
fronts 1 99 -> 1 warnc: tape is short
reads 0 100 -> 3 warnc: read failed
# 100 octets and the end are read, and nothing more
reader 1 101
run -> 0
all -> worked
writer 20 1
run -> 3
err -> warnc: write failed
all -> 20 of 53

# a header that says too many slots decides, and after 64 tapes so does an octet
in-hex 0001 0001 00010000
reader 8 1
fails -> 1 warnc: tape is long
in-hex 0001 0002 00000000
repeat 64
in-hex 00
fails -> 1 warnc: tape is long
";

#[test]
fn tapes_show_their_texts(rt: HostRuntime) -> Result<(), Fail> {
    expect_rows(&rt, READ, 38)
}

#[test]
fn refused_tapes_and_failed_devices_are_named(rt: HostRuntime) -> Result<(), Fail> {
    expect_rows(&rt, REFUSED, 69)
}

#[test]
fn pages_of_fewer_blocks_show_their_texts(rt: HostRuntime) -> Result<(), Fail> {
    expect_rows(&rt, SHORT, 80)
}

#[test]
fn refused_tapes_with_such_pages_are_named(rt: HostRuntime) -> Result<(), Fail> {
    expect_rows(&rt, SHORT_REFUSED, 24)
}

#[test]
fn slots_have_their_pages(rt: HostRuntime) -> Result<(), Fail> {
    expect_rows(&rt, SLOTS, 91)
}

#[test]
fn slots_have_pages_of_fewer_blocks(rt: HostRuntime) -> Result<(), Fail> {
    expect_rows(&rt, SLOTS_SHORT, 29)
}

#[test]
fn refused_tapes_have_no_slots(rt: HostRuntime) -> Result<(), Fail> {
    expect_rows(&rt, SLOTS_REFUSED, 24)
}
