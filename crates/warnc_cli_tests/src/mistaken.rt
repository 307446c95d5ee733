//! Inputs of another kind than the command takes: the line of faults says what they look like. The octets are put
//! together by hand, as docs/formats.md describes them.

use crate::rows::expect_rows;
use std::test::Fail;

const TAPES: &str = "
# a tape of an idle slot, where a capture or a book is taken; the row of a book that it is has one column without a verb
in-hex 0001 0001 00000001
in-hex 2f2b2b2b2b2b2b2b2b2b2b2b2b2b2b2b2b2b2b2b2b2b2b 2f2b2b2b2b2b2b2b2b2b2b2b2b2b2b2b2b2b2b2b2b2b2b
in-hex 2f2b2b2b2b2b2b2b2b2b2b2b2b2b2b2b2b2b2b2b2b2b2b 2f2b2b2b2b2b2b2b2b2b2b2b2b2b2b2b2b2b2b2b2b2b2b
args cells
fails -> 1 warnc: not a capture file (the input looks like tapes: warnc read shows them)
args tape --cell 1-1
fails -> 1 warnc: not a capture file (the input looks like tapes: warnc read shows them)
args orders --cell 1-1
fails -> 1 warnc: not a capture file (the input looks like tapes: warnc read shows them)
# eight octets don't look like one yet; and a run that only needs a few of them
fronts 0 8 -> 1 warnc: not a capture file
fronts 9 23 -> 1 warnc: not a capture file (the input looks like tapes: warnc read shows them)
reads 0 12 -> 3 warnc: read failed
args compile --slots 1
fails -> 1 warnc: row 1: verb (the input looks like tapes: warnc read shows them)
args live --slots 1
fails -> 1 warnc: row 1: verb (the input looks like tapes: warnc read shows them)
args report --slots 1
fails -> 1 warnc: row 1: verb (the input looks like tapes: warnc read shows them)
args chart --slots 1
fails -> 1 warnc: row 1: verb (the input looks like tapes: warnc read shows them)
args orders --cell 1-1 --slots 1
fails -> 1 warnc: row 1: verb (the input looks like tapes: warnc read shows them)
args groups
fails -> 1 warnc: row 1: verb (the input looks like tapes: warnc read shows them)
args texts
fails -> 1 warnc: row 1: verb (the input looks like tapes: warnc read shows them)
args check
run -> 1
out -> row,line,column,field,value,says
starts 1,1,1, -> yes
err -> warnc: faults: 1 (the input looks like tapes: warnc read shows them)
# tapes of other first blocks, of a page in four blocks and in one, look so; no others, and none of more slots
args cells
in-hex 0001 0001 0000ffff 20
fails -> 1 warnc: not a capture file (the input looks like tapes: warnc read shows them)
in-hex 0001 0001 00000001 30
fails -> 1 warnc: not a capture file (the input looks like tapes: warnc read shows them)
in-hex 0001 0001 00000001 21
fails -> 1 warnc: not a capture file
in-hex 0001 0001 00010000 20
fails -> 1 warnc: not a capture file
in-hex 0001 0001 01000000 20
fails -> 1 warnc: not a capture file
# what is taken isn't named, whatever is wrong with it
args read
in-hex 0001 0001 00000001 20
fails -> 1 warnc: tape is short
";

const CAPTURES: &str = "
# captures where tapes or a book are taken: the classic format in both orders, with microseconds and nanoseconds, and
# pcapng, whose lengths make it a long tape or a short one
args read
in-hex d4c3b2a1020004000000000000000000ffff000065000000
fails -> 1 warnc: tape is long (the input looks like a capture: warnc tape makes a tape of it)
in-hex a1b2c3d4000200040000000000000000ffff000000000065
fails -> 1 warnc: tape is long (the input looks like a capture: warnc tape makes a tape of it)
in-hex 4d3cb2a1020004000000000000000000ffff000065000000
fails -> 1 warnc: tape is long (the input looks like a capture: warnc tape makes a tape of it)
in-hex a1b23c4d000200040000000000000000ffff000000000065
fails -> 1 warnc: tape is long (the input looks like a capture: warnc tape makes a tape of it)
in-hex 0a0d0d0a0000001c 1a2b3c4d00010000ffffffffffffffff 0000001c
fails -> 1 warnc: tape is short (the input looks like a capture: warnc tape makes a tape of it)
in-hex 0a0d0d0a1c000000 4d3c2b1a01000000ffffffffffffffff 1c000000
fails -> 1 warnc: tape is long (the input looks like a capture: warnc tape makes a tape of it)
fronts 8 28 -> 1 warnc: tape is long (the input looks like a capture: warnc tape makes a tape of it)
fronts 4 7 -> 1 warnc: tape is short (the input looks like a capture: warnc tape makes a tape of it)
fronts 1 3 -> 1 warnc: tape is short
args whole
fails -> 1 warnc: tape is long (the input looks like a capture: warnc tape makes a tape of it)
args pcap
fails -> 1 warnc: tape is long (the input looks like a capture: warnc tape makes a tape of it)
# rows end with CR and LF, and the first has an octet that no text in UTF-8 has
args compile --slots 1
fails -> 1 warnc: row 1: columns (the input looks like a capture: warnc tape makes a tape of it)
args page --lang en --id 4370 --scope 0 --code 1 --update 0
fails -> 1 warnc: text is not UTF-8
# tapes of a book
args verify --slots 1 --book book.csv
book cell,1,1
fails -> 1 warnc: tape is long (the input looks like a capture: warnc tape makes a tape of it)
# a capture without an octet of another kind, and none at all
args cells
in-hex d4c3b2a1
fails -> 1 warnc: not a capture file
in-hex d4c3b2
fails -> 1 warnc: not a capture file
";

const BOOKS: &str = "
# a book where tapes or a capture are taken
in cell,1,1
args read
fails -> 1 warnc: tape is long (the input looks like a book: warnc compile makes tapes of it)
args whole
fails -> 1 warnc: tape is long (the input looks like a book: warnc compile makes tapes of it)
args pcap
fails -> 1 warnc: tape is long (the input looks like a book: warnc compile makes tapes of it)
args cells
fails -> 1 warnc: not a capture file (the input looks like a book: warnc compile makes tapes of it)
args tape --cell 1-1
fails -> 1 warnc: not a capture file (the input looks like a book: warnc compile makes tapes of it)
args orders --cell 1-1
fails -> 1 warnc: not a capture file (the input looks like a book: warnc compile makes tapes of it)
fronts 0 4 -> 1 warnc: not a capture file
args verify --slots 1 --book book.csv
book cell,1,1
fails -> 1 warnc: tape is long (the input looks like a book: warnc compile makes tapes of it)
# and the book of verify: one that is none is named, whatever the tapes look like
book cell;1;1
fails -> 1 warnc: row 1: verb
# orders, which look like none of these
args verify --orders orders.csv --cell 1-1
book clear,0
fails -> 1 warnc: tape is long (the input looks like a book: warnc compile makes tapes of it)
book cell,1,1
fails -> 1 warnc: orders.csv: row 1: verb (the orders look like a book: warnc compile makes tapes of it)
";

#[test]
fn tapes_are_named_where_they_are_not_taken(rt: HostRuntime) -> Result<(), Fail> {
    expect_rows(&rt, TAPES, 45)
}

#[test]
fn captures_are_named_where_they_are_not_taken(rt: HostRuntime) -> Result<(), Fail> {
    expect_rows(&rt, CAPTURES, 32)
}

#[test]
fn books_are_named_where_they_are_not_taken(rt: HostRuntime) -> Result<(), Fail> {
    expect_rows(&rt, BOOKS, 24)
}
