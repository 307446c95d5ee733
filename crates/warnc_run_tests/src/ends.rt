//! Books that are refused, readers and writers that fail, and threads that meet.

use crate::rows::expect_rows;
use std::test::Fail;

const REFUSED: &str = "
last cell,1
compile 2 1 -> Book(BookFault { row: 1, kind: Columns })
live 2 2 1 -> Book(BookFault { row: 1, kind: Columns })
in cell,1,1
last cell,1,1
compile 2 1 -> Book(BookFault { row: 2, kind: TwiceNamed })
in cell,1,1
last write,0,a,4370,0,1,en,3,2,0,*,One
compile 2 1 -> Book(BookFault { row: 2, kind: Number })

# there are 1 to 64 workers; the reader, which would fail at once, isn't read
in cell,1,1
reader 10 0
compile 2 0 -> Compile(Workers)
reader 10 0
live 2 2 0 -> Compile(Workers)
reader 10 0
compile 2 65 -> Compile(Workers)
reader 10 0
live 2 2 65 -> Compile(Workers)
reader 10 0
compile 2 18446744073709551615 -> Compile(Workers)
reader 10 0
live 2 2 18446744073709551615 -> Compile(Workers)
";

const FAILED: &str = "
in cell,1,1
last write,0,a,4370,0,1,en,2,2,0,1-1,@
reader 10 1
compile 2 1 -> Book(BookFault { row: 0, kind: ReadFailed }), source failed
compile 2 1 -> done
keep
writer 10 10
compile 2 1 -> Write(WriteFailed { written: 100 }), sink failed
all -> 100 of 192

# two cells with a text each: two tapes of 192 octets
in cell,1,1
in cell,1,2
in write,0,a,4370,0,1,en,2,2,0,1-1,@
in write,0,b,4371,0,2,en,2,2,0,1-2,Two
compile 2 1 -> done
keep
writer 10 10
live 2 2 1 -> Write(WriteFailed { written: 100 }), sink failed
all -> 100 of 384
# in the second tape: the fault counts the octets of that one
writer 1 242
compile 2 1 -> Write(WriteFailed { written: 50 }), sink failed
all -> 242 of 384
writer 1 242
live 2 2 1 -> Write(WriteFailed { written: 50 }), sink failed
all -> 242 of 384
# between them, and at the last octet
writer 1 192
compile 2 1 -> Write(WriteFailed { written: 0 }), sink failed
all -> 192 of 384
writer 1 383
live 2 2 1 -> Write(WriteFailed { written: 191 }), sink failed
all -> 383 of 384
# a sink that had failed before takes nothing
failed-sink
writer 1 0
compile 2 1 -> Write(WriteFailed { written: 0 }), sink failed
all -> 0 of 384
failed-sink
writer 1 0
live 2 2 1 -> Write(WriteFailed { written: 0 }), sink failed
all -> 0 of 384
";

const MEETING: &str = "
# two sessions
in cell,1,1
in cell,1,2
in write,0,a,4370,0,1,en,2,2,0,1-1,@
in write,0,b,4371,0,2,en,2,2,0,1-2,Two
compile 2 1 -> done
keep
meet 2 2 1 -> done, in both cells at once
all -> worked

# two workers of two sessions; of these cells nothing is asked, so that no session enters them
in cell,1,1
in cell,1,2
compile 3 1 -> done
keep
meet 3 2 2 -> done, in both cells at once
all -> worked

# two workers of one session that orders in both cells, which it enters one after the other, if they are at one desk
in cell,1,1
in cell,1,2
in write,0,a,4370,0,1,en,2,2,0,*,@
compile 3 1 -> done
keep
meet 3 1 2 -> done, in both cells at once
all -> worked
";

#[test]
fn refused_books_and_failed_ends_are_reported(rt: HostRuntime) -> Result<(), Fail> {
    expect_rows(&rt, REFUSED)?;
    expect_rows(&rt, FAILED)
}

#[test]
fn threads_are_in_two_cells_at_once(rt: HostRuntime) -> Result<(), Fail> {
    expect_rows(&rt, MEETING)
}
