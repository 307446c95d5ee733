//! Runs of `orders`. The captures were put together by the documents alone, with blocks of the air and segments of the
//! link, but for one of osmo-bsc. Slots are by a clock of 13 ticks in a microsecond, 60,000 in a frame, 24,480,000 in a
//! slot. `tools/link_orders_reference.py` makes the same of each.

use crate::rows::expect_rows;
use std::test::Fail;

const ORDERS: &str = "
# a block in frame 32 of its slot, 3.618461.. s before the second slot after it begins; a stop and its answer in the
# last microsecond of a slot, and a stop without an answer in the first one of the next
args orders --cell 1-1
in-hex d4c3b2a1020004000000000000000000ffff0000e4000000
in-hex 00ca9a3b20a107004300000043000000 4500004300000000401170a9000100010a000000
in-hex 12791279002f00000204010000000000000004e80f000200200010111201118046a3d168341a8d46a3d168341a8d46
in-hex 03ca9a3b20a107003c0000003c000000 4500003c00000000400666ba0a0000010a000002
in-hex 9c41bbb100000065000000015018ffff04270000040000100e111202001004000501000100011200
in-hex 04ca9a3bbdce01003f0000003f000000 4500003f00000000400666b70a0000020a000001
in-hex bbb19c41000001f5000000015018ffff0c7c0000050000130e111202001008000801000100010003001200
in-hex 04ca9a3bbece01003c0000003c000000 4500003c00000000400666ba0a0000010a000002
in-hex 9c41bbb100000079000000015018fffff7020000040000100e111f02002004000501000100011200
worked kill,1,4370,0010,ok,3
worked kill,2,4383,0020,,
run -> 0
all -> worked
reads 0 338 -> 3 warnc: read failed
# 338 octets and the end are read, and nothing more
reader 1 339
run -> 0
all -> worked
writer 10 3
run -> 3
err -> warnc: write failed
all -> 30 of 41
fronts 0 23 -> 1 warnc: not a capture file
fronts 25 106 -> 1 warnc: packet 1: capture is short
fronts 108 182 -> 1 warnc: packet 2: capture is short
fronts 263 337 -> 1 warnc: packet 4: capture is short
# options in another order, which take all that there is of the air and of the link
args orders --channel=cbch --bsc=10.0.0.2 --arfcn 0 --from 0.1.0.1 --first-slot 0 --cell=1-1
run -> 0
all -> worked
# no line: of another cell, and of another controller
args orders --cell 1-2
run -> 0
args orders --cell 1-1 --bsc 10.0.0.1
run -> 0
args orders --cell 1-1 --packets
worked 3,1000000004.118461000,kill,1,4370,0010,ok,3
worked 4,1000000004.118462000,kill,2,4383,0020,,
run -> 0
all -> worked
args orders --cell 1-1 --first-slot 65535
worked kill,65536,4370,0010,ok,3
worked kill,65537,4383,0020,,
run -> 0
all -> worked
args orders --first-slot=7 --packets --cell 1-1
worked 3,1000000004.118461000,kill,8,4370,0010,ok,3
worked 4,1000000004.118462000,kill,9,4383,0020,,
run -> 0
all -> worked
# without a block of the sender the first order stands in the first slot
worked kill,0,4370,0010,ok,3
worked kill,0,4383,0020,,
args orders --cell 1-1 --from 0.1.0.2
run -> 0
all -> worked
args orders --cell 1-1 --arfcn 1
run -> 0
all -> worked
args orders --cell 1-1 --channel sdcch
run -> 0
all -> worked
args orders --cell 1-1 --arfcn 1 --first-slot 7
worked kill,7,4370,0010,ok,3
worked kill,7,4383,0020,,
run -> 0
all -> worked
";

const RUN: &str = "
# what cell 1-1 is ordered in the run of a book: a write, one in its place after two of its broadcasts, a background one
# and its stop, the stop of the first, one that takes each slot, one that has no room, and one after the run's end
in cell,1,1
in cell,1,2
in write,0,a,4370,0,1,en,2,2,0,*,@
in update,3,a,en,0,4,5,1-1,@
in write,4,b,4383,0,2,de,1,8,0,1-1,@
in stop,6,b,1-1
in stop,7,a,*
in write,8,c,1,0,3,en,2,1,0,1-1,@
in write,9,d,2,0,4,en,2,8,0,1-1,@
in write,20,e,3,0,5,en,2,8,0,1-1,@
worked write,0,4370,0010,,2,2,0,01,ok,,1-8046a3d168341a8d46a3d168341a8d46a3d168341a8d46a3d168341a8d46a3d168341\
    a8d46a3d168341a8d46a3d168341a8d46a3d168341a8d46a3d168341a8d46a3d168341a8d46a3d168341a8d46a3d100
worked write,3,4370,0011,0010,0,4,5,01,ok,2,1-8046a3d168341a8d46a3d168341a8d46a3d168341a8d46a3d168341a8d46a3d1\
    68341a8d46a3d168341a8d46a3d168341a8d46a3d168341a8d46a3d168341a8d46a3d168341a8d46a3d168341a8d46a3d100
worked write,4,4383,0020,,1,8,0,00,ok,,1-8046a3d168341a8d46a3d168341a8d46a3d168341a8d46a3d168341a8d46a3d168341\
    a8d46a3d168341a8d46a3d168341a8d46a3d168341a8d46a3d168341a8d46a3d168341a8d46a3d168341a8d46a3d100
worked kill,6,4383,0020,ok,1
worked kill,7,4370,0011,ok,1
worked write,8,1,0030,,2,1,0,01,ok,,1-8046a3d168341a8d46a3d168341a8d46a3d168341a8d46a3d168341a8d46a3d168341a8d\
    46a3d168341a8d46a3d168341a8d46a3d168341a8d46a3d168341a8d46a3d168341a8d46a3d168341a8d46a3d100
worked write,9,2,0040,,2,8,0,01,06,,1-8046a3d168341a8d46a3d168341a8d46a3d168341a8d46a3d168341a8d46a3d168341a8d\
    46a3d168341a8d46a3d168341a8d46a3d168341a8d46a3d168341a8d46a3d168341a8d46a3d168341a8d46a3d100
worked write,16,3,0050,,2,8,0,01,0a,,1-8046a3d168341a8d46a3d168341a8d46a3d168341a8d46a3d168341a8d46a3d168341a8\
    d46a3d168341a8d46a3d168341a8d46a3d168341a8d46a3d168341a8d46a3d168341a8d46a3d168341a8d46a3d100
args orders --cell 1-1 --slots 16
run -> 0
all -> worked
reads 0 228 -> 3 warnc: read failed
# 228 octets and the end are read, and nothing more
reader 1 229
run -> 0
all -> worked
writer 10 3
run -> 3
err -> warnc: write failed
all -> 30 of 1235
args orders --workers=3 --slots=16 --cell=1-1
run -> 0
all -> worked
args orders --cell 1-1 --group 0 --slots 16
run -> 0
all -> worked
# the other cell has the first version up to the stop
worked write,0,4370,0010,,2,2,0,01,ok,,1-8046a3d168341a8d46a3d168341a8d46a3d168341a8d46a3d168341a8d46a3d168341\
    a8d46a3d168341a8d46a3d168341a8d46a3d168341a8d46a3d168341a8d46a3d168341a8d46a3d168341a8d46a3d100
worked kill,7,4370,0010,ok,4
args orders --cell 1-2 --slots 16
run -> 0
all -> worked
# the run has no such cell, and the network no such group
args orders --cell 2-1 --slots 16
run -> 0
args orders --cell 1-1 --slots 16 --group 1
fails -> 1 warnc: no such group: the network has 1
# no books
args orders --cell 1-1 --slots 16
in cell,1,1
in stop,1,a,*
fails -> 1 warnc: row 2: unknown name
in-hex d4c3b2a1020004000000000000000000ffff000065000000
fails -> 1 warnc: row 1: columns (the input looks like a capture: warnc tape makes a tape of it)
";

const CONTROLLERS: &str = "
# the same order to two controllers, without any block: each answers its own
args orders --cell 1-1
in-hex d4c3b2a1020004000000000000000000ffff0000e4000000
in-hex 00ca9a3b20a107003c0000003c000000 4500003c00000000400666ba0a0000010a000002
in-hex 9c41bbb100000065000000015018ffff04270000040000100e111202001004000501000100011200
in-hex 02ca9a3b20a107003c0000003c000000 4500003c00000000400666b90a0000010a000003
in-hex 9c42bbb100000065000000015018ffff04250000040000100e111202001004000501000100011200
in-hex 04ca9a3b20a107003f0000003f000000 4500003f00000000400666b60a0000030a000001
in-hex bbb19c42000001f5000000015018ffff0c7c0000050000130e111202001008000801000100010001001200
in-hex 06ca9a3b20a107003f0000003f000000 4500003f00000000400666b70a0000020a000001
in-hex bbb19c41000001f5000000015018ffff0c7d0000050000130e111202001008000801000100010002001200
worked kill,2,4370,0010,ok,1
worked kill,3,4370,0010,ok,2
run -> 0
all -> worked
args orders --cell 1-1 --bsc 10.0.0.2
worked kill,3,4370,0010,ok,2
run -> 0
all -> worked
# the other's first order comes later
args orders --bsc 10.0.0.3 --cell 1-1
worked kill,1,4370,0010,ok,1
run -> 0
all -> worked
";

const CAPTURED: &str = "
# of examples/osmo.pcap a block, what the controller said, and a stop: it restarts, and answers writes that aren't here
args orders --cell 1-1
in-hex d4c3b2a10200040000000000000000000000040001000000
in-hex ced3086b2a8602005100000051000000 000000000000000000000000080045000043c18040000111b16700000000efc11701
in-hex e3be1279002f07030204010003673f3f000000200f0000002f2b2b2b2b2b2b2b2b2b2b2b2b2b2b2b2b2b2b2b2b2b2b
in-hex ced3086b29f902004e0000004e000000 000000000000000000000000080045000040c72b4000400675817f00000a7f000001
in-hex bbb18bdeda5393bb1b7d7b7780180040fe3d00000101080a12f63bbfbc788197130000080400010616000d01
in-hex cfd3086ba2fb02005900000059000000 00000000000000000000000008004500004bc72d4000400675747f00000a7f000001
in-hex bbb18bdeda5393c71b7d7beb80180040fe4800000101080a12f63fa7bc78857f020000130e11120300100400080000f1100001000112
in-hex 00
in-hex cfd3086be0fc02005900000059000000 00000000000000000000000008004500004bc72e4000400675737f00000a7f000001
in-hex bbb18bdeda5393de1b7d7c5f80180040fe4800000101080a12f63fa8bc788580020000130e111f0300200400080000f1100001000112
in-hex 00
in-hex d8d3086b4c5209006a0000006a000000 00000000000000000000000008004500005cc72f4000400675617f00000a7f000001
in-hex bbb18bdeda5393f51b7d7cd680180040fe5900000101080a12f6646fbc78aa47020000240e111203001102001008000b0000f1100001
in-hex 00010002000400080000f110000100011200
in-hex ded3086b38f703005600000056000000 00000000000000000000000008004500004847df40004006f4c57f0000017f00000a
in-hex 8bdebbb11b7d7cd6da53941d80180040fe4500000101080abc78c05812f6646f040000100e111f02002004000501000100011200
in-hex ded3086b09f803005c0000005c000000 00000000000000000000000008004500004ec73040004006756e7f00000a7f000001
in-hex bbb18bdeda53941d1b7d7cea80180040fe4b00000101080a12f67a80bc78c058050000160e111f02002008000b0000f1100001000100
in-hex 03001200
worked clear,0
worked kill,8,4383,0020,ok,3
run -> 0
all -> worked
args orders --cell 1-1 --packets --bsc 127.0.0.10
worked 2,1795740622.194857000,clear,0
worked 7,1795740638.260105000,kill,8,4383,0020,ok,3
run -> 0
all -> worked
# it has another address than the centre
args orders --cell 1-1 --bsc 127.0.0.1
run -> 0
args orders --cell 1-2
worked clear,0
run -> 0
all -> worked
";

const PASSED_OVER: &str = "
# a write, a stop without a serial number, an emergency message to the cell, one to another, and RESET and its answer
args orders --cell 1-1
in-hex d4c3b2a1020004000000000000000000ffff0000e4000000
in-hex 00ca9a3b20a107009c0000009c000000 4500009c000000004006665a0a0000010a000002
in-hex 9c41bbb100000065000000015018ffff0b8b0000010000700e111203001004000501000100011200050206000407000013010c01
in-hex 01528d46a3d168341a8d46a3d168341a8d46a3d168341a8d46a3d168341a8d46a3d168341a8d46a3d168341a8d46a3d168341a8d
in-hex 46a3d168341a8d46a3d168341a8d46a3d168341a8d46a3d168341a8d46a3d100
in-hex 00ca9a3b20a107002f0000002f000000 4500002f00000000400666c70a0000010a000002
in-hex 9c41bbb1000000d9000000015018ffff1ee20000040000030e1112
in-hex 00ca9a3b20a107003a0000003a000000 4500003a00000000400666bc0a0000010a000002
in-hex 9c41bbb1000000e0000000015018ffff18af00000100000e0e11120300100400050100010001
in-hex 00ca9a3b20a107003a0000003a000000 4500003a00000000400666bc0a0000010a000002
in-hex 9c41bbb1000000f2000000015018ffff189c00000100000e0e11120300100400050100010002
in-hex 00ca9a3b20a107003400000034000000 4500003400000000400666c20a0000010a000002
in-hex 9c41bbb100000104000000015018ffff29bb0000100000080400050100010001
in-hex 02ca9a3b20a107003400000034000000 4500003400000000400666c20a0000020a000001
in-hex bbb19c41000001f5000000015018ffff27ca0000110000080400050100010001
run -> 0
err -> warnc: not in the table: 1 messages that can't be read, 1 emergency messages
starts write,0,4370,0010,,2,4,0,01,,,82-8d46a3d168341a8d46a3d168341a8d46a3d168341a8d46a3d168341a8 -> yes
out -> clear,1
# the same where the line can't be written
faults 10 0
run -> 0
starts write,0,4370,0010,,2,4,0,01,,,82-8d46a3d168341a8d46a3d168341a8d46a3d168341a8d46a3d168341a8 -> yes
out -> clear,1
# the emergency messages are to other cells; and of another controller there is no message
args orders --cell 1-3
run -> 0
err -> warnc: not in the table: 1 messages that can't be read, 0 emergency messages
args orders --cell 1-1 --bsc 10.0.0.1
run -> 0
";

const FAULTS: &str = "
# the block is in frame 32 of its slot, 4 s after the order: the slot begins 0.147.. s before it, and the order comes
# 2.04.. slots before that
args orders --cell 1-1
in-hex d4c3b2a1020004000000000000000000ffff0000e4000000
in-hex 00ca9a3b20a107003c0000003c000000 4500003c00000000400666ba0a0000010a000002
in-hex 9c41bbb100000065000000015018ffff04270000040000100e111202001004000501000100011200
in-hex 04ca9a3b20a107004300000043000000 4500004300000000401170a9000100010a000000
in-hex 12791279002f00000204010000000000000004e80f000200200010111201118046a3d168341a8d46a3d168341a8d46
fails -> 1 warnc: packet 1: before the tape begins: use --first-slot 3
args orders --cell 1-1 --first-slot 2
fails -> 1 warnc: packet 1: before the tape begins: use --first-slot 3
args orders --cell 1-1 --first-slot 3 --packets
worked 1,1000000000.500000000,kill,0,4370,0010,,
run -> 0
all -> worked
# it comes before the tape, but not to this cell
args orders --cell 1-2
run -> 0
# a simple packet of pcapng has no time, which is a fault of each message of the controller, to any cell
in-hex 0a0d0d0a0000001c1a2b3c4d00010000ffffffffffffffff0000001c
in-hex 000000010000001400e400000000000000000014
in-hex 000000030000004c0000003c4500003c 00000000400666ba0a0000010a0000029c41bbb1
in-hex 00000065000000015018ffff04270000040000100e1112020010040005010001000112000000004c
args orders --cell 1-1
fails -> 1 warnc: packet 1: no time
args orders --cell 1-2
fails -> 1 warnc: packet 1: no time
args orders --cell 1-1 --bsc 10.0.0.1
run -> 0
# a block that steps back, unless its sender isn't wanted; one that differs is no fault
args orders --cell 1-1
in-hex d4c3b2a1020004000000000000000000ffff0000e4000000
in-hex 00ca9a3b20a107004300000043000000 4500004300000000401170a9000100010a000000
in-hex 12791279002f00000204010000000000000009b00f000200200010111201118046a3d168341a8d46a3d168341a8d46
in-hex 00ca9a3b20a107004300000043000000 4500004300000000401170a9000100010a000000
in-hex 12791279002f00000204010000000000000000200f000200200010111201118046a3d168341a8d46a3d168341a8d46
in-hex 00ca9a3b20a107003c0000003c000000 4500003c00000000400666ba0a0000010a000002
in-hex 9c41bbb100000065000000015018ffff04270000040000100e111202001004000501000100011200
fails -> 1 warnc: packet 2: steps back: if several send, choose one by --from or --arfcn
worked kill,0,4370,0010,,
args orders --cell 1-1 --arfcn 1
run -> 0
all -> worked
args orders --cell 1-1
in-hex d4c3b2a1020004000000000000000000ffff0000e4000000
in-hex 00ca9a3b20a107004300000043000000 4500004300000000401170a9000100010a000000
in-hex 12791279002f00000204010000000000000004e80f000200200010111201118046a3d168341a8d46a3d168341a8d46
in-hex 00ca9a3b20a107004300000043000000 4500004300000000401170a9000100010a000000
in-hex 12791279002f00000204010000000000000004e80f000200200010121201118046a3d168341a8d46a3d168341a8d46
in-hex 00ca9a3b20a107003c0000003c000000 4500003c00000000400666ba0a0000010a000002
in-hex 9c41bbb100000065000000015018ffff04270000040000100e111202001004000501000100011200
run -> 0
all -> worked
# of three blocks the second comes 2 s late, and the third 0.1 s: the middle one of the three times is taken
in-hex d4c3b2a1020004000000000000000000ffff0000e4000000
in-hex 00ca9a3b20a107004300000043000000 4500004300000000401170a9000100010a000000
in-hex 12791279002f00000204010000000000000004e80f000200200010111201118046a3d168341a8d46a3d168341a8d46
in-hex 02ca9a3be09304003c0000003c000000 4500003c00000000400666ba0a0000010a000002
in-hex 9c41bbb100000065000000015018ffff04270000040000100e111202001004000501000100011200
in-hex 02ca9a3b99380b004300000043000000 4500004300000000401170a9000100010a000000
in-hex 12791279002f000002040100000000000000051b0f000200200010111201118046a3d168341a8d46a3d168341a8d46
in-hex 01ca9a3b721401004300000043000000 4500004300000000401170a9000100010a000000
in-hex 12791279002f000002040100000000000000054e0f000200200010111201118046a3d168341a8d46a3d168341a8d46
run -> 0
all -> worked
# files that are none
in-hex d4c3b2a1020004000000000000000000ffff000093000000
fails -> 1 warnc: unknown link type 147: known are 0, 1, 101, 108, 113, 228 and 276
in-none
fails -> 1 warnc: not a capture file
";

const USAGE: &str = "
args orders
usage -> 2 error:
args orders --packets
usage -> 2 error:
args orders --cell
usage -> 2 error:
args orders --cell 1
fails -> 2 warnc: no such cell: --cell is as 1-2
args orders --cell 1-65536
fails -> 2 warnc: no such cell: --cell is as 1-2
args orders --cell 1-1 --bsc 1.2.3
fails -> 2 warnc: no such cell or address: --cell is as 1-2, --from and --bsc as 127.0.0.1
args orders --cell 1-1 --from=1.2.3.256
fails -> 2 warnc: no such cell or address: --cell is as 1-2, --from and --bsc as 127.0.0.1
args orders --cell 1 --bsc 10.0.0.2
fails -> 2 warnc: no such cell or address: --cell is as 1-2, --from and --bsc as 127.0.0.1
args orders --cell 1-1 --bsc
usage -> 2 error:
args orders --cell 1-1 --first-slot 65536
usage -> 2 error:
args orders --cell 1-1 --first-slot -1
usage -> 2 error:
args orders --cell 1-1 --arfcn 1024
usage -> 2 error:
args orders --cell 1-1 --channel 51
usage -> 2 error:
args orders --cell 1-1 --packets=1
usage -> 2 error:
# what is of a capture isn't of a book, and the other way round
args orders --cell 1-1 --slots 0
usage -> 2 error:
args orders --slots 2
usage -> 2 error:
args orders --cell 1 --slots 2
fails -> 2 warnc: no such cell: --cell is as 1-2
args orders --cell 1-1 --group 0
usage -> 2 error:
args orders --cell 1-1 --workers 2
usage -> 2 error:
args orders --cell 1-1 --slots 2 --packets
usage -> 2 error:
args orders --cell 1-1 --slots 2 --bsc 10.0.0.2
usage -> 2 error:
args orders --cell 1-1 --slots 2 --first-slot 0
usage -> 2 error:
args orders --cell 1-1 --slots 2 --from 10.0.0.2
usage -> 2 error:
args orders --cell 1-1 --slots 2 --arfcn 871
usage -> 2 error:
args orders --cell 1-1 --slots 2 --channel cbch
usage -> 2 error:
args orders --cell 1-1 --slots 2 --workers 65
usage -> 2 error:
args orders --cell 1-1 --slots 2 --network
usage -> 2 error:
# only `tape` has a table of cells, and only `orders` a controller and packets
args orders --cells cells.csv
usage -> 2 error:
args tape --cell 1-1 --bsc 10.0.0.2
usage -> 2 error:
args cells --packets
usage -> 2 error:
args orders --help
run -> 0
past --bsc <IPV4> -> yes
past --packets -> yes
past --slots <SLOTS> -> yes
past --group <GROUP> -> yes
past Examples: warnc orders --cell 1-1 < link.pcap > orders.csv -> yes
says           warnc orders --cell 1-1 --slots 4096 < book.csv > orders.csv -> yes
";

#[test]
fn links_give_the_orders_of_a_cell(rt: HostRuntime) -> Result<(), Fail> {
    expect_rows(&rt, ORDERS, 64)?;
    expect_rows(&rt, CONTROLLERS, 22)?;
    expect_rows(&rt, CAPTURED, 35)
}

#[test]
fn runs_give_the_orders_of_a_cell(rt: HostRuntime) -> Result<(), Fail> {
    expect_rows(&rt, RUN, 50)
}

#[test]
fn messages_without_a_row_are_counted(rt: HostRuntime) -> Result<(), Fail> {
    expect_rows(&rt, PASSED_OVER, 29)
}

#[test]
fn captures_without_a_table_of_orders_are_refused(rt: HostRuntime) -> Result<(), Fail> {
    expect_rows(&rt, FAULTS, 63)
}

#[test]
fn other_words_of_orders_are_refused(rt: HostRuntime) -> Result<(), Fail> {
    expect_rows(&rt, USAGE, 68)
}
