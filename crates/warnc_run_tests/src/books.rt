//! Worked books: their tapes, and what a handset shows of them.

use crate::rows::expect_rows;
use std::test::Fail;

/// A page `@` in every second slot of cell 1-1: two slots of its tape.
const WORKED: &str = "
worked 0001000100000002
worked 200010111201118046a3d168341a8d46a3d168341a8d46
worked 21a3d168341a8d46a3d168341a8d46a3d168341a8d46a3
worked 22d168341a8d46a3d168341a8d46a3d168341a8d46a3d1
worked 3368341a8d46a3d168341a8d46a3d168341a8d46a3d100
worked 2f2b2b2b2b2b2b2b2b2b2b2b2b2b2b2b2b2b2b2b2b2b2b
worked 2f2b2b2b2b2b2b2b2b2b2b2b2b2b2b2b2b2b2b2b2b2b2b
worked 2f2b2b2b2b2b2b2b2b2b2b2b2b2b2b2b2b2b2b2b2b2b2b
worked 2f2b2b2b2b2b2b2b2b2b2b2b2b2b2b2b2b2b2b2b2b2b2b
in cell,1,1
in write,0,a,4370,0,1,en,2,2,0,1-1,@
compile 2 1 -> done
all -> worked
live 2 1 1 -> done
all -> worked
compile 2 4 -> done
all -> worked
";

/// Two cells of which nothing is asked: three idle slots each.
const IDLE: &str = "
worked 0001000100000003
worked 2f2b2b2b2b2b2b2b2b2b2b2b2b2b2b2b2b2b2b2b2b2b2b
worked 2f2b2b2b2b2b2b2b2b2b2b2b2b2b2b2b2b2b2b2b2b2b2b
worked 2f2b2b2b2b2b2b2b2b2b2b2b2b2b2b2b2b2b2b2b2b2b2b
worked 2f2b2b2b2b2b2b2b2b2b2b2b2b2b2b2b2b2b2b2b2b2b2b
worked 2f2b2b2b2b2b2b2b2b2b2b2b2b2b2b2b2b2b2b2b2b2b2b
worked 2f2b2b2b2b2b2b2b2b2b2b2b2b2b2b2b2b2b2b2b2b2b2b
worked 2f2b2b2b2b2b2b2b2b2b2b2b2b2b2b2b2b2b2b2b2b2b2b
worked 2f2b2b2b2b2b2b2b2b2b2b2b2b2b2b2b2b2b2b2b2b2b2b
worked 2f2b2b2b2b2b2b2b2b2b2b2b2b2b2b2b2b2b2b2b2b2b2b
worked 2f2b2b2b2b2b2b2b2b2b2b2b2b2b2b2b2b2b2b2b2b2b2b
worked 2f2b2b2b2b2b2b2b2b2b2b2b2b2b2b2b2b2b2b2b2b2b2b
worked 2f2b2b2b2b2b2b2b2b2b2b2b2b2b2b2b2b2b2b2b2b2b2b
worked 0001000200000003
worked 2f2b2b2b2b2b2b2b2b2b2b2b2b2b2b2b2b2b2b2b2b2b2b
worked 2f2b2b2b2b2b2b2b2b2b2b2b2b2b2b2b2b2b2b2b2b2b2b
worked 2f2b2b2b2b2b2b2b2b2b2b2b2b2b2b2b2b2b2b2b2b2b2b
worked 2f2b2b2b2b2b2b2b2b2b2b2b2b2b2b2b2b2b2b2b2b2b2b
worked 2f2b2b2b2b2b2b2b2b2b2b2b2b2b2b2b2b2b2b2b2b2b2b
worked 2f2b2b2b2b2b2b2b2b2b2b2b2b2b2b2b2b2b2b2b2b2b2b
worked 2f2b2b2b2b2b2b2b2b2b2b2b2b2b2b2b2b2b2b2b2b2b2b
worked 2f2b2b2b2b2b2b2b2b2b2b2b2b2b2b2b2b2b2b2b2b2b2b
worked 2f2b2b2b2b2b2b2b2b2b2b2b2b2b2b2b2b2b2b2b2b2b2b
worked 2f2b2b2b2b2b2b2b2b2b2b2b2b2b2b2b2b2b2b2b2b2b2b
worked 2f2b2b2b2b2b2b2b2b2b2b2b2b2b2b2b2b2b2b2b2b2b2b
worked 2f2b2b2b2b2b2b2b2b2b2b2b2b2b2b2b2b2b2b2b2b2b2b
in cell,1,1
in cell,1,2
compile 3 1 -> done
all -> worked
";

const SHOWN: &str = "
# no cells
in-none
compile 7 1 -> done
cells ->

# two languages, a replacement and a stop
in cell,1,1
in cell,1,2
in write,0,fire-en,4370,0,1,en,2,4,0,*,Stay in!
in write,0,fire-de,4383,0,2,de,2,4,0,*,Bleib da
in update,4,fire-en,en,2,4,0,1-1,All safe
in stop,6,fire-de,1-2
compile 8 1 -> done
cells -> 1-1 1-2
shown 1 -> 4370 0010 Stay in!, 4383 0020 Bleib da, 4370 0011 All safe
shown 2 -> 4370 0010 Stay in!, 4383 0020 Bleib da

# a cell without room starts its replacement later
in cell,1,1
in cell,1,2
in write,0,a,4370,0,1,en,2,2,0,*,One
in write,0,b,4371,0,2,en,2,2,0,1-2,Two
in update,1,a,en,2,2,0,*,Three
compile 4 1 -> done
cells -> 1-1 1-2
shown 1 -> 4370 0010 One, 4370 0011 Three
shown 2 -> 4370 0010 One, 4371 0020 Two, 4370 0011 Three

# an order past the end is not broadcast
in cell,1,1
in cell,1,2
in write,3,a,4370,0,1,en,2,2,0,1-1,One
compile 3 1 -> done
cells -> 1-1 1-2
shown 1 ->
shown 2 ->

# a refused write has no update
in cell,1,1
in cell,1,2
in write,0,a,4370,0,1,en,2,1,1,1-1,One
in write,0,b,4371,0,2,en,2,1,0,1-1,Two
in update,1,b,en,2,1,0,*,Three
in update,2,a,en,2,1,0,*,Four
compile 4 1 -> done
cells -> 1-1 1-2
shown 1 -> 4370 0010 One
shown 2 ->

# two sessions share a cell: either may come first
in cell,1,1
in write,0,a,1,0,1,en,2,2,0,*,One
in write,0,b,2,0,2,en,2,2,0,*,Two
live 4 2 1 -> done
cells -> 1-1
shown 1 -> 1 0010 One, 2 0020 Two or 2 0020 Two, 1 0010 One
";

/// Three messages that take all slots: 3 in every second one, 2 in every third, 1 in every sixth.
const AIRED: &str = "
in cell,1,1
in write,0,r,1,0,1,en,2,6,0,*,R
in write,0,q,2,0,2,en,2,3,0,*,Q
in write,0,p,3,0,3,en,2,2,0,*,P
compile 6 1 -> done
aired -> 00300003 00200002 00300003 00100001 00200002 00300003

# a replacement at the end of a period starts at once
in cell,1,1
in write,0,r,1,0,1,en,2,6,0,*,R
in write,0,q,2,0,2,en,2,3,0,*,Q
in write,0,p,3,0,3,en,2,2,0,*,P
in update,3,q,en,2,3,0,*,Q
compile 6 1 -> done
aired -> 00300003 00200002 00300003 00100001 00300003 00210002

# a replacement inside a period waits for its end
in cell,1,1
in write,0,r,1,0,1,en,2,6,0,*,R
in write,0,q,2,0,2,en,2,3,0,*,Q
in write,0,p,3,0,3,en,2,2,0,*,P
in update,4,q,en,2,3,0,*,Q
compile 6 1 -> done
aired -> 00300003 00200002 00300003 00100001 00300003 2b2b2b2b
";

/// Sessions and workers give what one gives.
const SAME: &str = "
# a cell each for four alerts, with replacements and stops
in cell,1,1
in cell,1,2
in cell,1,3
in cell,1,4
in write,0,a,1,0,1,en,2,2,0,1-1,One
in write,0,b,2,0,2,en,2,3,0,1-2,Two
in write,1,c,3,0,3,en,0,2,3,1-3,Three
in update,2,a,en,2,4,0,1-1,One again
in stop,3,b,1-2
in update,5,a,en,2,2,0,1-1,One more
in write,4,d,2,0,7,en,2,3,0,1-4,Four
compile 9 1 -> done
keep
live 9 1 1 -> done
all -> worked
live 9 2 1 -> done
all -> worked
live 9 3 1 -> done
all -> worked
live 9 64 1 -> done
all -> worked
compile 9 1 -> done
all -> worked
compile 9 2 -> done
all -> worked
live 9 2 2 -> done
all -> worked
compile 9 3 -> done
all -> worked
live 9 2 3 -> done
all -> worked
compile 9 4 -> done
all -> worked
live 9 2 4 -> done
all -> worked
compile 9 5 -> done
all -> worked
live 9 2 5 -> done
all -> worked
compile 9 6 -> done
all -> worked
live 9 2 6 -> done
all -> worked
compile 9 7 -> done
all -> worked
live 9 2 7 -> done
all -> worked
compile 9 8 -> done
all -> worked
live 9 2 8 -> done
all -> worked
compile 9 64 -> done
all -> worked
live 9 2 64 -> done
all -> worked

in cell,1,1
compile 3 1 -> done
keep
live 3 2 1 -> done
all -> worked

in-none
compile 9 1 -> done
keep
compile 9 3 -> done
all -> worked
live 9 2 3 -> done
all -> worked
";

/// Of a book's cells whoever watches is told once each, whatever is made of them and by how many workers; of the groups
/// of a network nothing is told.
const TOLD: &str = "
in cell,1,1
in cell,1,2
in cell,1,3
in write,0,a,4370,0,1,en,2,2,0,*,@
tapes 4 1 -> done
cells -> 1-1 1-2 1-3
told -> 3
tapes 4 2 -> done
cells -> 1-1 1-2 1-3
told -> 3
report 4 1 -> done
keep
told -> 3
report 4 2 -> done
all -> worked
told -> 3
chart 4 1 -> done
keep
told -> 3
orders 4 1 -> done
keep
told -> 3
link 4 1 -> done
keep
told -> 3
loads 4 1 -> done
keep
told -> 3
tables 4 2 -> done
keep
told -> 3
network-report 4 1 -> done
keep
told -> 0
report 0 1 -> done
keep
told -> 3
";

#[test]
fn cells_that_are_done_are_told(rt: HostRuntime) -> Result<(), Fail> {
    expect_rows(&rt, TOLD)
}

#[test]
fn books_give_the_tapes_that_they_mean(rt: HostRuntime) -> Result<(), Fail> {
    expect_rows(&rt, WORKED)?;
    expect_rows(&rt, IDLE)?;
    expect_rows(&rt, SHOWN)?;
    expect_rows(&rt, AIRED)
}

#[test]
fn sessions_and_workers_give_what_one_gives(rt: HostRuntime) -> Result<(), Fail> {
    expect_rows(&rt, SAME)
}
