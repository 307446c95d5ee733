//! Worked air lists. `memory` says what the steps of a row are.

use crate::of_scheduler::memory::expect_rows;
use scheduler::{Refused, air_laws, background_laws};
use std::test::Fail;

const AIRED: &str = "
# By due slot.
add 0 0 1 2 0 normal; add 1 0 2 4 0 normal; done 1; air 1; done 1; air 1; done 1; air 1; done 1; air 1; \
    done 0; done 1 -> 0 0.1 0 1.1 0 0.1 0 1.2 2 1

# High first.
add 0 0 1 2 0 normal; add 1 0 1 2 0 high; air 2 -> 1.1 0.1

# Every slot is filled.
add 0 0 1 6 0 normal; add 1 0 1 3 0 normal; add 2 0 1 2 0 normal; air 6; done 0; done 1; done 2 -> \
    2.1 1.1 2.1 0.1 1.1 2.1 1 2 3

# It runs out.
add 0 0 1 3 2 normal; air 9; done 0 -> 0.1 - - 0.1 - - - - - 2

# A broadcast that is not whole at its due slot is dropped, and the next one begins with page 1. A stop is a stop.
add 4 0 3 2 0 normal; air 5; stop 4; stop 4; not 4 5 1 1 0 normal; add 5 5 1 1 0 high; air 1; stop 5; air 1; \
    done 5 -> 4.1 4.2 4.1 4.2 4.1 0 none none 5.1 1 - 1

# A message that is added ahead of its start is aired from there on, and one that is behind isn't added.
add 0 3 1 2 2 normal; air 9; done 0; not 1 3 1 2 2 normal -> - - - 0.1 - 0.1 - - - 2 none

# A plan keeps each message that was added, however many: 300 of one broadcast, all stopped but the last.
stopped 299; add 299 0 2 1024 1 normal; air 3; done 299; done 298 -> 299 299.1 299.2 - 1 0
";

const BACKGROUND: &str = "
# Background is aired in the slots that a normal message leaves.
add 0 0 1 2 0 normal; add 1 0 2 4 0 background; air 8; done 0; done 1 -> \
    0.1 1.1 0.1 1.2 0.1 1.1 0.1 1.2 4 2

# A message that needs every slot is stopped at slot 3. Of the background, the broadcast that is due at slot 4 is
# dropped with a page aired, and the next one begins with page 1.
add 0 0 1 1 0 normal; add 1 0 2 4 0 background; air 3; stop 0; air 5; done 0; done 1 -> \
    0.1 0.1 0.1 3 1.1 1.1 1.2 - - 3 1

# A high message, too, is before all background, whenever that is due; and background is aired by due slot.
add 0 0 2 4 1 background; add 1 0 1 2 1 background; add 2 0 1 8 1 high; air 4 -> 2.1 1.1 0.1 0.2

# Background of three pages in periods of two slots is never whole, and takes no slot of a normal message.
add 0 0 3 2 0 background; add 1 0 1 4 0 normal; air 6; done 0; done 1 -> 1.1 0.1 0.1 0.2 1.1 0.1 0 2
";

#[test]
fn airs_what_is_due_first(rt: HostRuntime) -> Result<(), Fail> {
    expect_rows(&rt, rt.alloc(), AIRED, 7)
}

#[test]
fn airs_background_where_nothing_else_is_pending(rt: HostRuntime) -> Result<(), Fail> {
    expect_rows(&rt, rt.alloc(), BACKGROUND, 4)
}

#[test]
fn tells_the_fault(rt: HostRuntime) -> Result<(), Fail> {
    air_laws();
    background_laws();
    assert_eq!(rt;
        Refused.to_string(rt.alloc())?.as_str(),
        "memory allocation failed"
    );
    Ok(())
}
