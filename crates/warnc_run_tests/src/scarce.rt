//! Runs that are short of memory: growths are refused one after the other, and nothing is written then.

use crate::rows::expect_rows;
use std::test::Fail;

/// An alert of each verb in a cell, and then two cells and texts of two pages. Each row has a bound of how often its
/// call is refused.
const COMPILE: &str = "
in cell,1,1
in write,0,a,4370,0,1,en,2,2,0,1-1,One
in update,1,a,en,2,2,0,*,Two
in stop,2,a,1-1
compile 3 1 -> done
cells -> 1-1
shown 1 -> 4370 0010 One, 4370 0011 Two
keep
scarce 300 compile 3 1 -> refused; done
all -> worked
scarce-threads 300 compile 3 2 -> refused; done
all -> worked

in cell,1,1
in cell,1,2
in write,0,a,4370,0,1,ru,2,4,0,*,ЖЖЖЖЖЖЖЖЖЖЖЖЖЖЖЖЖЖЖЖЖЖЖЖЖЖЖЖЖЖЖЖЖЖЖЖЖЖЖЖЖЖ
in write,0,b,4371,0,2,en,2,4,0,1-2 1-1,aaaaaaaaaaaaaaaaaaaaaaaaaaaaaaaaaaaaaaaaaaaaaaaaaaaaaaaaaaaaaaaaaaaaaaaaaaaaa\
    aaaaaaaaaaaaaaaaa
in update,4,a,ru,2,4,0,1-1,ЖЖЖЖЖЖЖЖЖЖЖЖЖЖЖЖЖЖЖЖЖЖЖЖЖЖЖЖЖЖЖЖЖЖЖЖЖЖЖЖЖЯ
in stop,4,b,1-2
in update,6,b,en,2,4,0,1-1,aaaaaaaaaaaaaaaaaaaaaaaaaaaaaaaaaaaaaaaaaaaaaaaaaaaaaaaaaaaaaaaaaaaaaaaaaaaaaaaaaaaaaaaaa\
    aaaab
compile 12 1 -> done
cells -> 1-1 1-2
shown 1 -> 4370 0010 ЖЖЖЖЖЖЖЖЖЖЖЖЖЖЖЖЖЖЖЖЖЖЖЖЖЖЖЖЖЖЖЖЖЖЖЖЖЖЖЖЖЖ, \
    4371 0020 aaaaaaaaaaaaaaaaaaaaaaaaaaaaaaaaaaaaaaaaaaaaaaaaaaaaaaaaaaaaaaaaaaaaaaaaaaaaaaaaaaaaaaaaaaaaaa, \
    4370 0011 ЖЖЖЖЖЖЖЖЖЖЖЖЖЖЖЖЖЖЖЖЖЖЖЖЖЖЖЖЖЖЖЖЖЖЖЖЖЖЖЖЖЯ, \
    4371 0021 aaaaaaaaaaaaaaaaaaaaaaaaaaaaaaaaaaaaaaaaaaaaaaaaaaaaaaaaaaaaaaaaaaaaaaaaaaaaaaaaaaaaaaaaaaaaab
shown 2 -> 4370 0010 ЖЖЖЖЖЖЖЖЖЖЖЖЖЖЖЖЖЖЖЖЖЖЖЖЖЖЖЖЖЖЖЖЖЖЖЖЖЖЖЖЖЖ, \
    4371 0020 aaaaaaaaaaaaaaaaaaaaaaaaaaaaaaaaaaaaaaaaaaaaaaaaaaaaaaaaaaaaaaaaaaaaaaaaaaaaaaaaaaaaaaaaaaaaaa
";

/// So too for two sessions. With so little memory no thread can be made: a session works in the calling thread, and
/// several workers of several sessions are refused whatever else they have.
const LIVE: &str = "
in cell,1,1
in cell,1,2
in write,0,a,4370,0,1,ru,2,4,0,1-1,ЖЖЖЖЖЖЖЖЖЖЖЖЖЖЖЖЖЖЖЖЖЖЖЖЖЖЖЖЖЖЖЖЖЖЖЖЖЖЖЖЖЖ
in write,0,b,4371,0,2,en,2,4,0,1-2,aaaaaaaaaaaaaaaaaaaaaaaaaaaaaaaaaaaaaaaaaaaaaaaaaaaaaaaaaaaaaaaaaaaaaaaaaaaaaaaaa\
    aaaaaaaaaaaaa
in update,4,a,ru,2,4,0,*,ЖЖЖЖЖЖЖЖЖЖЖЖЖЖЖЖЖЖЖЖЖЖЖЖЖЖЖЖЖЖЖЖЖЖЖЖЖЖЖЖЖЯ
in stop,4,b,1-2
compile 8 1 -> done
keep
scarce-threads 400 live 8 2 1 -> refused; done
all -> worked
scarce 400 live 8 1 1 -> refused; done
cells -> 1-1 1-2
shown 1 -> 4370 0010 ЖЖЖЖЖЖЖЖЖЖЖЖЖЖЖЖЖЖЖЖЖЖЖЖЖЖЖЖЖЖЖЖЖЖЖЖЖЖЖЖЖЖ, 4370 0011 ЖЖЖЖЖЖЖЖЖЖЖЖЖЖЖЖЖЖЖЖЖЖЖЖЖЖЖЖЖЖЖЖЖЖЖЖЖЖЖЖЖЯ
shown 2 -> 4371 0020 aaaaaaaaaaaaaaaaaaaaaaaaaaaaaaaaaaaaaaaaaaaaaaaaaaaaaaaaaaaaaaaaaaaaaaaaaaaaaaaaaaaaaaaaaaaaaa

# Memory ends in the first cell that an order names, in the second, at the update, and at the stop.
late 1 78 live 8 1 1 -> refused; done
all -> worked
late 2 50 live 8 1 1 -> refused; done
all -> worked
late 3 24 live 8 1 1 -> refused; done
all -> worked
late 4 5 live 8 1 1 -> refused; done
all -> worked

scarce-threads 400 live 8 2 2 -> refused to the end
all -> 0 of 1488
live 8 2 2 -> done
all -> worked
";

/// Memory ends when the second cell is played out after the first: so a worker plays both cells of two sessions, which
/// the settlement would hide.
const PLAYED: &str = "
in cell,1,1
in cell,1,2
in write,0,a,4370,0,1,en,2,2,0,1-1,One
in write,0,b,4371,0,2,en,2,4,0,1-2,Two
in update,4,a,en,2,2,0,1-1,Three
in stop,4,b,1-2
compile 8 1 -> done
keep
late 6 39 live 8 2 1 -> refused; done
all -> worked
";

/// The records of a book, and their report.
const REPORT: &str = "
in cell,1,1
in write,0,a,4370,0,1,en,2,2,0,1-1,@
scarce 200 records 2 1 -> refused; done
scarce-threads 200 records 2 2 -> refused; done

# lac,ci,id,serial,start,end,completed,shown; 1,1,4370,0010,0,2,1,yes
worked 6c61632c63692c69642c73657269616c2c73746172742c656e642c636f6d706c657465642c73686f776e0a312c312c343337
worked 302c303031302c302c322c312c7965730a
scarce 200 report 2 1 -> refused; done
all -> worked
scarce-threads 200 report 2 2 -> refused; done
all -> worked
records 2 2 -> done
";

/// Their chart.
const CHART: &str = "
in cell,1,1
in write,0,a,4370,0,1,en,2,2,0,1-1,@
chart 2 1 -> done
keep
scarce 200 chart 2 1 -> refused; done
all -> worked
scarce-threads 200 chart 2 2 -> refused; done
all -> worked

chart 2 2 -> done
all -> worked
";

/// The orders file of a cell.
const ORDERS: &str = "
in cell,1,1
in write,0,a,4370,0,1,en,2,2,0,1-1,@
# write,0,4370,0010,,2,2,0,01,ok,, and the page
worked 77726974652c302c343337302c303031302c2c322c322c302c30312c6f6b2c2c312d383034366133643136383334316138643436
worked 61336431363833343161386434366133643136383334316138643436613364313638333431613864343661336431363833343161
worked 38643436613364313638333431613864343661336431363833343161386434366133643136383334316138643436613364313638
worked 3334316138643436613364313638333431613864343661336431363833343161386434366133643130300a
scarce 150 orders 2 1 -> refused; done
all -> worked
scarce 150 network-orders 2 1 -> refused; done
all -> worked
scarce-threads 150 orders 2 2 -> refused; done
all -> worked
";

/// The link.
const LINK: &str = "
in cell,1,1
in write,0,a,4370,0,1,en,2,2,0,1-1,@
# SYN, SYN with ACK, ACK, the order and its answer
worked d4c3b2a1020004000000000000000000ffff0000e4000000000000000000000028000000280000004500002800000000400666ce
worked 0a0000010a0000029c40bbb100000000000000005002ffff43ee0000000000000000000028000000280000004500002800000000
worked 400666ce0a0000020a000001bbb19c4000000000000000015012ffff43dd00000000000000000000280000002800000045000028
worked 00000000400666ce0a0000010a0000029c40bbb100000001000000015010ffff43de000000000000000000009c0000009c000000
worked 4500009c000000004006665a0a0000010a0000029c40bbb100000001000000015018ffff1b410000010000700e11120300100400
worked 0501000100011200050206000207000013010c0101018046a3d168341a8d46a3d168341a8d46a3d168341a8d46a3d168341a8d46
worked a3d168341a8d46a3d168341a8d46a3d168341a8d46a3d168341a8d46a3d168341a8d46a3d168341a8d46a3d168341a8d46a3d100
worked 00000000000000003c0000003c0000004500003c00000000400666ba0a0000020a000001bbb19c4000000001000000755018ffff
worked 06170000020000100e111203001004000501000100011200
scarce 150 link 2 1 -> refused; done
all -> worked
scarce-threads 150 link 2 2 -> refused; done
all -> worked
";

/// The loads of a cell; and the report, the loads and the chart.
const LOADS: &str = "
in cell,1,1
in write,0,a,4370,0,1,en,2,2,0,1-1,@
# lac,ci,slot,share,fullest;1,1,0,50,yes;
worked 6c61632c63692c736c6f742c73686172652c66756c6c6573740a312c312c302c35302c7965730a
scarce 150 loads 2 1 -> refused; done
all -> worked
scarce 150 network-loads 2 1 -> refused; done
all -> worked
scarce-threads 150 loads 2 2 -> refused; done
all -> worked
tables 2 1 -> done
keep
scarce 200 tables 2 1 -> refused; done
all -> worked
network-tables 2 2 -> done
all -> worked
scarce-threads 200 tables 2 2 -> refused; done
all -> worked
";

/// A full report, of a book and of a network of one group.
const FULL: &str = "
in cell,1,1
in write,0,a,4370,0,1,en,2,2,0,1-1,@
# row,name,lac,ci,id,serial,start,end,completed,shown,first_shown,pages,period,share,cause;
# 2,a,1,1,4370,0010,0,2,1,yes,0,1,2,50,
worked 726f772c6e616d652c6c61632c63692c69642c73657269616c2c73746172742c656e642c636f6d706c657465642c73686f77
worked 6e2c66697273745f73686f776e2c70616765732c706572696f642c73686172652c63617573650a322c612c312c312c343337
worked 302c303031302c302c322c312c7965732c302c312c322c35302c0a
full 2 1 -> done
all -> worked
full 2 3 -> done
all -> worked
network-full 2 2 -> done
all -> worked
scarce 200 full 2 1 -> refused; done
all -> worked
scarce 200 network-full 2 1 -> refused; done
all -> worked
";

/// A full report with times, of a book and of a network of one group.
const TIMES: &str = "
in cell,1,1
in write,0,a,4370,0,1,en,2,2,0,1-1,@
# that of FULL, with start_time,end_time,first_shown_time; 2026-11-29T18:30:00.000Z, 18:30:03.766Z, 18:30:01.883Z
worked 726f772c6e616d652c6c61632c63692c69642c73657269616c2c73746172742c656e642c636f6d706c657465642c73686f77
worked 6e2c66697273745f73686f776e2c70616765732c706572696f642c73686172652c63617573652c73746172745f74696d652c
worked 656e645f74696d652c66697273745f73686f776e5f74696d650a322c612c312c312c343337302c303031302c302c322c312c
worked 7965732c302c312c322c35302c2c323032362d31312d32395431383a33303a30302e3030305a2c323032362d31312d323954
worked 31383a33303a30332e3736365a2c323032362d31312d32395431383a33303a30312e3838335a0a
times 2 1 -> done
all -> worked
network-times 2 2 -> done
all -> worked
scarce 200 times 2 1 -> refused; done
all -> worked
scarce 200 network-times 2 1 -> refused; done
all -> worked
";

/// The tapes, the report and the chart of a network of one group.
const NETWORK: &str = "
in cell,1,1
in write,0,a,4370,0,1,en,2,2,0,1-1,@
compile 2 1 -> done
keep
scarce 200 network-tapes 2 1 -> refused; done
all -> worked
scarce-threads 200 network-tapes 2 2 -> refused; done
all -> worked

report 2 1 -> done
keep
scarce 200 network-report 2 1 -> refused; done
all -> worked
scarce-threads 200 network-report 2 2 -> refused; done
all -> worked

network-chart 2 1 -> done
keep
scarce 200 network-chart 2 1 -> refused; done
all -> worked
";

/// Two sessions are each in a cell when memory ends: the one has no entry then, and if memory runs out for the passes
/// of both, too, that is told. Two workers of one session are so, too, each with cells of its own. Then workers of two
/// sessions find none, of whom no session is in a cell.
const STARVED: &str = "
in cell,1,1
in cell,1,2
in write,0,a,4370,0,1,en,2,2,0,1-1,@
in write,0,b,4371,0,2,en,2,2,0,1-2,Two
compile 2 1 -> done
keep
starve 2 2 1 -> Desk(Memory { done: 0 }), in both cells at once or Refused, in both cells at once
all -> 0 of 384
live 2 2 1 -> done
all -> worked
starve 2 1 2 -> Refused, in both cells at once or done, in both cells at once
all -> 0 of 384 or worked
live 2 1 2 -> done
all -> worked

in cell,1,1
in cell,1,2
compile 100 1 -> done
keep
starve 100 2 2 -> Compile(Refused), in both cells at once
all -> 0 of 18416
live 100 2 2 -> done
all -> worked
";

#[test]
fn refused_memory_is_reported(rt: HostRuntime) -> Result<(), Fail> {
    expect_rows(&rt, COMPILE)
}

// Threads keep memory of a process, so what starts some has a process of its own.

#[test]
fn refused_memory_is_reported_by_live(rt: HostRuntime) -> Result<(), Fail> {
    expect_rows(&rt, LIVE)
}

#[test]
fn refused_memory_is_reported_by_a_worker(rt: HostRuntime) -> Result<(), Fail> {
    expect_rows(&rt, PLAYED)
}

#[test]
fn refused_memory_is_reported_by_report(rt: HostRuntime) -> Result<(), Fail> {
    expect_rows(&rt, REPORT)
}

#[test]
fn refused_memory_is_reported_by_charts(rt: HostRuntime) -> Result<(), Fail> {
    expect_rows(&rt, CHART)
}

#[test]
fn refused_memory_is_reported_by_orders(rt: HostRuntime) -> Result<(), Fail> {
    expect_rows(&rt, ORDERS)
}

#[test]
fn refused_memory_is_reported_by_links(rt: HostRuntime) -> Result<(), Fail> {
    expect_rows(&rt, LINK)
}

#[test]
fn refused_memory_is_reported_by_loads(rt: HostRuntime) -> Result<(), Fail> {
    expect_rows(&rt, LOADS)
}

#[test]
fn refused_memory_is_reported_by_full_reports(rt: HostRuntime) -> Result<(), Fail> {
    expect_rows(&rt, FULL)
}

#[test]
fn refused_memory_is_reported_by_reports_with_times(rt: HostRuntime) -> Result<(), Fail> {
    expect_rows(&rt, TIMES)
}

#[test]
fn refused_memory_is_reported_by_networks(rt: HostRuntime) -> Result<(), Fail> {
    expect_rows(&rt, NETWORK)
}

#[test]
fn threads_that_find_no_memory_are_reported(rt: HostRuntime) -> Result<(), Fail> {
    expect_rows(&rt, STARVED)
}
