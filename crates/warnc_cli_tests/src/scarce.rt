//! Runs that are short of memory: growths are refused one after the other. A refused run says so with status 4, and
//! writes nothing; and then the same run with all memory writes what it has to.

use crate::rows::expect_rows;
use std::test::Fail;

/// `page`, the engine of `page` alone, `read` and `whole`.
const PAGE: &str = "
args page --lang en --id 4370 --scope 0 --code 1 --update 0
in @
worked 200010111201118046a3d168341a8d46a3d168341a8d46
worked 21a3d168341a8d46a3d168341a8d46a3d168341a8d46a3
worked 22d168341a8d46a3d168341a8d46a3d168341a8d46a3d1
worked 3368341a8d46a3d168341a8d46a3d168341a8d46a3d100
worked 4370 0010 @
scarce 4 2300 -> worked
args page-stream
scarce 3 480 -> worked
args page --explain --lang en --id 4370 --scope 0 --code 1 --update 0
worked page,pages,serial,identifier,coding,used,block_1,block_2,block_3,block_4,text
worked 1,1,0010,1112,01,1,\
    200010111201118046a3d168341a8d46a3d168341a8d46,\
    21a3d168341a8d46a3d168341a8d46a3d168341a8d46a3,\
    22d168341a8d46a3d168341a8d46a3d168341a8d46a3d1,\
    3368341a8d46a3d168341a8d46a3d168341a8d46a3d100,\
    @
scarce 4 1500 -> worked

# a tape without slots
args read
in-hex 0001 0001 00000000
worked lac,ci,id,serial,text
scarce 4 3800 -> worked
args read --slots
worked lac,ci,slot,id,serial,page,pages
scarce 4 1000 -> worked
# a tape of one slot, with a page in one block
args read --short
in-hex 0001 0001 00000001
in-hex 300020111f01114276392d0691c38d46a3d168341a8d46
in-hex 2f2b2b2b2b2b2b2b2b2b2b2b2b2b2b2b2b2b2b2b2b2b2b
in-hex 2f2b2b2b2b2b2b2b2b2b2b2b2b2b2b2b2b2b2b2b2b2b2b
in-hex 2f2b2b2b2b2b2b2b2b2b2b2b2b2b2b2b2b2b2b2b2b2b2b
worked lac,ci,id,serial,text
worked 1,1,4383,0020,Bleib da
scarce 5 1000 -> worked
# the same page in four blocks
args whole
worked-hex 0001 0001 00000001
worked-hex 200020111f01114276392d0691c38d46a3d168341a8d46
worked-hex 21a3d168341a8d46a3d168341a8d46a3d168341a8d46a3
worked-hex 22d168341a8d46a3d168341a8d46a3d168341a8d46a3d1
worked-hex 3368341a8d46a3d168341a8d46a3d168341a8d46a3d100
scarce 5 100 -> worked
";

const CAPTURES: &str = "
args pcap
in-hex 0001 0001 00000001
in-hex 200010111201118046a3d168341a8d46a3d168341a8d46
in-hex 21a3d168341a8d46a3d168341a8d46a3d168341a8d46a3
in-hex 22d168341a8d46a3d168341a8d46a3d168341a8d46a3d1
in-hex 3368341a8d46a3d168341a8d46a3d168341a8d46a3d100
worked-hex d4c3b2a1020004000000000000000000ffff0000e4000000
worked-hex 00000000000000004300000043000000 4500004300000000401170a9000100010a000000
worked-hex 12791279002f0000 0204010000000000000000200f000200 200010111201118046a3d168341a8d46a3d168341a8d46
worked-hex 00000000789703004300000043000000 4500004300000000401170a9000100010a000000
worked-hex 12791279002f0000 0204010000000000000000530f000200 21a3d168341a8d46a3d168341a8d46a3d168341a8d46a3
worked-hex 00000000f12e07004300000043000000 4500004300000000401170a9000100010a000000
worked-hex 12791279002f0000 0204010000000000000000860f000200 22d168341a8d46a3d168341a8d46a3d168341a8d46a3d1
worked-hex 0000000069c60a004300000043000000 4500004300000000401170a9000100010a000000
worked-hex 12791279002f0000 0204010000000000000000b90f000200 3368341a8d46a3d168341a8d46a3d168341a8d46a3d100
scarce 4 2200 -> worked

args tape --cell 1-1 --slots 1
in-worked
worked-hex 0001 0001 00000001
worked-hex 200010111201118046a3d168341a8d46a3d168341a8d46
worked-hex 21a3d168341a8d46a3d168341a8d46a3d168341a8d46a3
worked-hex 22d168341a8d46a3d168341a8d46a3d168341a8d46a3d1
worked-hex 3368341a8d46a3d168341a8d46a3d168341a8d46a3d100
scarce 4 2200 -> worked

args orders --cell 1-1
in-hex d4c3b2a1020004000000000000000000ffff0000e4000000
in-hex 00ca9a3b20a107004300000043000000 4500004300000000401170a9000100010a000000
in-hex 12791279002f00000204010000000000000004e80f000200200010111201118046a3d168341a8d46a3d168341a8d46
in-hex 03ca9a3b20a107003c0000003c000000 4500003c00000000400666ba0a0000010a000002
in-hex 9c41bbb100000065000000015018ffff04270000040000100e111202001004000501000100011200
in-hex 04ca9a3bbdce01003f0000003f000000 4500003f00000000400666b70a0000020a000001
in-hex bbb19c41000001f5000000015018ffff0c7c0000050000130e111202001008000801000100010003001200
in-hex 04ca9a3bbece01003c0000003c000000 4500003c00000000400666ba0a0000010a000002
in-hex 9c41bbb100000079000000015018fffff7020000040000100e111f02002004000501000100011200
worked kill,1,4370,0010,ok,3
worked kill,2,4383,0020,,
scarce 4 2200 -> worked
";

/// The tapes of a book, of its group, and of its network.
const TAPES: &str = "
in cell,1,1
in write,0,a,4370,0,1,en,2,2,0,1-1,@
worked-hex 0001 0001 00000002
worked-hex 200010111201118046a3d168341a8d46a3d168341a8d46
worked-hex 21a3d168341a8d46a3d168341a8d46a3d168341a8d46a3
worked-hex 22d168341a8d46a3d168341a8d46a3d168341a8d46a3d1
worked-hex 3368341a8d46a3d168341a8d46a3d168341a8d46a3d100
worked-hex 2f2b2b2b2b2b2b2b2b2b2b2b2b2b2b2b2b2b2b2b2b2b2b
worked-hex 2f2b2b2b2b2b2b2b2b2b2b2b2b2b2b2b2b2b2b2b2b2b2b
worked-hex 2f2b2b2b2b2b2b2b2b2b2b2b2b2b2b2b2b2b2b2b2b2b2b
worked-hex 2f2b2b2b2b2b2b2b2b2b2b2b2b2b2b2b2b2b2b2b2b2b2b
args compile --slots 2
scarce 10 2600 -> worked
args compile --slots 2 --group 0
scarce 11 2600 -> worked
args compile --slots 2 --strict
scarce 11 2600 -> worked
args compile --slots 2 --network
scarce 12 2600 -> worked
";

/// So too of one session, which works in the calling thread, and the number of groups.
const LIVE: &str = "
in cell,1,1
in write,0,a,4370,0,1,en,2,2,0,1-1,@
worked-hex 0001 0001 00000002
worked-hex 200010111201118046a3d168341a8d46a3d168341a8d46
worked-hex 21a3d168341a8d46a3d168341a8d46a3d168341a8d46a3
worked-hex 22d168341a8d46a3d168341a8d46a3d168341a8d46a3d1
worked-hex 3368341a8d46a3d168341a8d46a3d168341a8d46a3d100
worked-hex 2f2b2b2b2b2b2b2b2b2b2b2b2b2b2b2b2b2b2b2b2b2b2b
worked-hex 2f2b2b2b2b2b2b2b2b2b2b2b2b2b2b2b2b2b2b2b2b2b2b
worked-hex 2f2b2b2b2b2b2b2b2b2b2b2b2b2b2b2b2b2b2b2b2b2b2b
worked-hex 2f2b2b2b2b2b2b2b2b2b2b2b2b2b2b2b2b2b2b2b2b2b2b
args live --slots 2 --group 0
scarce 11 2600 -> worked
args live --slots 2 --network
scarce 12 2600 -> worked

args groups
in cell,1,1
worked 1
scarce 9 2200 -> worked
";

const REPORT: &str = "
in cell,1,1
in write,0,a,4370,0,1,en,2,2,0,1-1,@
worked lac,ci,id,serial,start,end,completed,shown
worked 1,1,4370,0010,0,2,1,yes
args report --slots 2
scarce 14 4500 -> worked
args report --slots 2 --group 0
scarce 15 4500 -> worked
args report --slots 2 --network
scarce 16 4500 -> worked
";

const CHART: &str = "
in cell,1,1
in write,0,a,4370,0,1,en,2,2,0,1-1,@
args chart --slots 2
run -> 0
keep
scarce 14 4700 -> worked
args chart --slots 2 --from 1 --to 2
run -> 0
keep
scarce 14 4800 -> worked
args chart --slots 2 --group 0
run -> 0
keep
scarce 15 4800 -> worked
args chart --slots 2 --network
run -> 0
keep
scarce 16 4800 -> worked
";

const VERIFY: &str = "
args verify --slots 1 --book book.csv
book cell,1,1
book write,0,a,4370,0,1,en,2,2,1,*,@
in-hex 0001 0001 00000001
in-hex 2f2b2b2b2b2b2b2b2b2b2b2b2b2b2b2b2b2b2b2b2b2b2b
in-hex 2f2b2b2b2b2b2b2b2b2b2b2b2b2b2b2b2b2b2b2b2b2b2b
in-hex 2f2b2b2b2b2b2b2b2b2b2b2b2b2b2b2b2b2b2b2b2b2b2b
in-hex 2f2b2b2b2b2b2b2b2b2b2b2b2b2b2b2b2b2b2b2b2b2b2b
worked lac,ci,id,serial,slot,difference
scarce 13 2600 -> worked
args verify --slots 1 --book network.csv --group 0
scarce 14 2600 -> worked
args verify --slots 1 --short --book book.csv
scarce 13 2600 -> worked

# a page that is due after the tape
args verify --orders orders.csv --cell 1-1
book write,0,4370,0010,,2,2,1,01,ok,,1-8046a3d168341a8d46a3d168341a8d46a3d168341a8d46a3d168341a8d46a3d168341a8d46a3d1\
68341a8d46a3d168341a8d46a3d168341a8d46a3d168341a8d46a3d168341a8d46a3d168341a8d46a3d100
scarce 7 2000 -> worked
";

/// The second group of a network, once the first is written: 64 tapes of 100 octets, or a line under that of the names.
const NETWORK: &str = "
in-cells 0 65
in write,0,a,4370,0,1,en,2,2,1,1-0 1-64,@
args compile --slots 1 --network
run -> 0
keep
scarce-later 13 6400 16 190 -> worked

args report --slots 2 --network
worked lac,ci,id,serial,start,end,completed,shown
worked 1,0,4370,0010,0,2,1,yes
worked 1,64,4370,0010,0,2,1,yes
scarce-later 80 67 86 400 -> worked
";

/// With so little memory no thread can be made: a session works in the calling thread. Memory ends before there are
/// threads, since they keep memory of a process. Runs of one session come first, so that the stack has grown.
const SESSIONS: &str = "
in cell,1,1
in write,0,a,4370,0,1,en,2,2,0,1-1,@
worked-hex 0001 0001 00000002
worked-hex 200010111201118046a3d168341a8d46a3d168341a8d46
worked-hex 21a3d168341a8d46a3d168341a8d46a3d168341a8d46a3
worked-hex 22d168341a8d46a3d168341a8d46a3d168341a8d46a3d1
worked-hex 3368341a8d46a3d168341a8d46a3d168341a8d46a3d100
worked-hex 2f2b2b2b2b2b2b2b2b2b2b2b2b2b2b2b2b2b2b2b2b2b2b
worked-hex 2f2b2b2b2b2b2b2b2b2b2b2b2b2b2b2b2b2b2b2b2b2b2b
worked-hex 2f2b2b2b2b2b2b2b2b2b2b2b2b2b2b2b2b2b2b2b2b2b2b
worked-hex 2f2b2b2b2b2b2b2b2b2b2b2b2b2b2b2b2b2b2b2b2b2b2b
args live --slots 2
scarce 10 2600 -> worked
args live --slots 2 --sessions 2
scarce-threads 10 2700 -> worked
run -> 0
all -> worked
";

/// Two cells, two pages, and two workers: those of one session work in the calling thread, and those of two are refused
/// whatever else they have. The tapes are those of a program that isn't ours.
const TWO: &str = "
in cell,1,1
in cell,1,2
in write,0,a,4370,0,1,ru,2,2,0,1-1 1-2,Река поднимается! Идите сейчас же в школу.
worked-hex 0001 0001 00000002
worked-hex 2000101112481204200435043a04300020043f043e0434
worked-hex 21043d0438043c0430043504420441044f002100200418
worked-hex 2204340438044204350020044104350439044704300441
worked-hex 330020043604350020043200200448043a043e043b0443
worked-hex 20001011124822002e000d000d000d000d000d000d000d
worked-hex 21000d000d000d000d000d000d000d000d000d000d000d
worked-hex 22000d000d000d000d000d000d000d000d000d000d000d
worked-hex 33000d000d000d000d000d000d000d000d000d000d000d
worked-hex 0001 0002 00000002
worked-hex 2000101112481204200435043a04300020043f043e0434
worked-hex 21043d0438043c0430043504420441044f002100200418
worked-hex 2204340438044204350020044104350439044704300441
worked-hex 330020043604350020043200200448043a043e043b0443
worked-hex 20001011124822002e000d000d000d000d000d000d000d
worked-hex 21000d000d000d000d000d000d000d000d000d000d000d
worked-hex 22000d000d000d000d000d000d000d000d000d000d000d
worked-hex 33000d000d000d000d000d000d000d000d000d000d000d
args compile --slots 2
scarce 10 2900 -> worked

args read
in-worked
worked lac,ci,id,serial,text
worked 1,1,4370,0010,Река поднимается! Идите сейчас же в школу.
worked 1,2,4370,0010,Река поднимается! Идите сейчас же в школу.
scarce 7 3900 -> worked

in cell,1,1
in cell,1,2
in write,0,a,4370,0,1,ru,2,2,0,1-1 1-2,Река поднимается! Идите сейчас же в школу.
args compile --slots 2
run -> 0
keep
args compile --slots 2 --workers 2
scarce-threads 13 3600 -> worked
args live --slots 2 --sessions 2 --workers 2
scarce-threads 10 3600 -> refused to the end
run -> 0
all -> worked
args compile --slots 2 --workers 2
run -> 0
all -> worked
";

#[test]
fn pages_without_memory_are_status_4(rt: HostRuntime) -> Result<(), Fail> {
    expect_rows(&rt, PAGE, 37)
}

#[test]
fn captures_without_memory_are_status_4(rt: HostRuntime) -> Result<(), Fail> {
    expect_rows(&rt, CAPTURES, 37)
}

#[test]
fn tapes_without_memory_are_status_4(rt: HostRuntime) -> Result<(), Fail> {
    expect_rows(&rt, TAPES, 19)
}

#[test]
fn sessions_without_memory_are_status_4(rt: HostRuntime) -> Result<(), Fail> {
    expect_rows(&rt, LIVE, 19)
}

#[test]
fn a_report_without_memory_is_status_4(rt: HostRuntime) -> Result<(), Fail> {
    expect_rows(&rt, REPORT, 10)
}

#[test]
fn a_chart_without_memory_is_status_4(rt: HostRuntime) -> Result<(), Fail> {
    expect_rows(&rt, CHART, 18)
}

#[test]
fn a_verification_without_memory_is_status_4(rt: HostRuntime) -> Result<(), Fail> {
    expect_rows(&rt, VERIFY, 17)
}

#[test]
fn a_second_group_without_memory_is_status_4(rt: HostRuntime) -> Result<(), Fail> {
    expect_rows(&rt, NETWORK, 11)
}

// Threads keep memory of a process, so what starts some has a process of its own.

#[test]
fn two_sessions_without_memory_are_status_4(rt: HostRuntime) -> Result<(), Fail> {
    expect_rows(&rt, SESSIONS, 17)
}

#[test]
fn two_of_each_without_memory_are_status_4(rt: HostRuntime) -> Result<(), Fail> {
    expect_rows(&rt, TWO, 44)
}
