//! Sessions as tables: the messages that the rows of a book give, by the replies so far.
//!
//! After its part and the number of parts a session has steps: `row` is the row that gave its last message, the name of
//! a message asks for the next message after this reply, and `-` after none. A session that `goes` has no octets: each
//! of its steps asks for the next message after a reply that says of these cells that they accepted, or, with a cause,
//! that they refused.

use crate::books_table::expect_rows;
use crate::octets::{name_in, octets_in};
use alert_book::{Book, Session};
use cbsp_wire::{Cell, Cells, Failure, Failures, write};
use reply_outcome::Outcome;
use std::alloc::{AllocError, Global};
use std::test::Fail;
use test_support::Words;

/// Sessions of books of one cell or two.
const SESSIONS: &str = "
# A write and its stop.
before cell,1,1|write,0,a,4370,0,1,en,2,2,0,1-1,@|stop,1,a,*|
session 0 1 row - written - - \
    -> row 0; write-@ at slot 0 of row 2; kill-0010 at slot 1 of row 3; nothing; nothing

# A write that is refused, or whose reply is none or another message, has no later message.
before cell,1,1|write,0,a,4370,0,1,en,2,2,0,*,@|update,1,a,en,2,2,0,*,@|stop,2,a,*|
session 0 1 row - not-written - \
    -> row 0; write-@ at slot 0 of row 2; nothing; nothing
session 0 1 row - kill-0010 - \
    -> row 0; write-@ at slot 0 of row 2; nothing; nothing
session 0 1 row - - - \
    -> row 0; write-@ at slot 0 of row 2; nothing; nothing

# Of two cells the second refuses the alert: its update and its stop are for the first.
before cell,1,1|cell,1,2|write,0,a,4370,0,1,en,2,2,0,*,@|
times 1 update,7,a,en,2,2,3,1-2 1-1,@|stop,9,a,*|
session 0 1 row - written-but-in-1-2 replaced - - \
    -> row 0; write-to-both at slot 0 of row 3; update-@ at slot 7 of row 4; kill-0011 at slot 9 of row 5; \
       nothing; nothing

# Version 0 in cell 1-2 and version 1 in cell 1-1 are both stopped by one row. The second kill has no reply, so its
# version is believed live as before, and the next row stops it again.
before cell,1,1|cell,1,2|write,0,a,4370,0,1,en,2,2,0,*,@|
times 1 update,1,a,en,2,2,3,1-1,@|stop,2,a,*|stop,3,a,*|
session 0 1 row - written-in-both replaced not-killed-in-1-2 - - - \
    -> row 0; write-to-both at slot 0 of row 3; update-@ at slot 1 of row 4; kill-0010-in-1-2 at slot 2 of row 5; \
       kill-0011 at slot 2 of row 5; kill-0011 at slot 3 of row 6; nothing; nothing

# Of two alerts in two parts each part has one.
before cell,1,1|write,0,a,4370,0,1,en,2,2,0,*,@|write,5,b,4371,0,2,en,2,2,0,*,@|
session 0 2 row - - - \
    -> row 0; write-@ at slot 0 of row 2; nothing; nothing
session 1 2 row - - - \
    -> row 0; write-second-alert at slot 5 of row 3; nothing; nothing
";

/// The same sessions, by what their replies say.
const GOING: &str = "
# A write and its stop.
before cell,1,1|write,0,a,4370,0,1,en,2,2,0,1-1,@|stop,1,a,*|
goes 0 1 - 1-1 - - -> write-@ at slot 0 of row 2; kill-0010 at slot 1 of row 3; nothing; nothing

# A write that is refused, or whose reply says nothing, has no later message.
before cell,1,1|write,0,a,4370,0,1,en,2,2,0,*,@|update,1,a,en,2,2,0,*,@|stop,2,a,*|
goes 0 1 - 1-1:6 - -> write-@ at slot 0 of row 2; nothing; nothing
goes 0 1 - - - -> write-@ at slot 0 of row 2; nothing; nothing

# Of two cells the second refuses the alert: its update and its stop are for the first.
before cell,1,1|cell,1,2|write,0,a,4370,0,1,en,2,2,0,*,@|
times 1 update,7,a,en,2,2,3,1-2 1-1,@|stop,9,a,*|
goes 0 1 - 1-1,1-2:6 1-1 - \
    -> write-to-both at slot 0 of row 3; update-@ at slot 7 of row 4; kill-0011 at slot 9 of row 5; nothing

# A cell that refuses a kill since nothing is live there is asked no more; one that says nothing is asked again.
before cell,1,1|cell,1,2|write,0,a,4370,0,1,en,2,2,0,*,@|
times 1 update,1,a,en,2,2,3,1-1,@|stop,2,a,*|stop,3,a,*|
goes 0 1 - 1-1,1-2 1-1 1-2:2 - - - \
    -> write-to-both at slot 0 of row 3; update-@ at slot 1 of row 4; kill-0010-in-1-2 at slot 2 of row 5; \
       kill-0011 at slot 2 of row 5; kill-0011 at slot 3 of row 6; nothing; nothing

# Of two alerts in two parts each part has one.
before cell,1,1|write,0,a,4370,0,1,en,2,2,0,*,@|write,5,b,4371,0,2,en,2,2,0,*,@|
goes 1 2 - - -> write-second-alert at slot 5 of row 3; nothing
";

/// Books as people and spreadsheets write them: their cells, and the one message that the session then sends.
const WRITTEN: &str = r#"
most 5
# Rows end in LF, CR LF, CR or the end of the book, and empty lines are no rows.
sent cell,1,1|write,0,a,4370,0,1,en,2,2,0,*,@| -> 1-1; write-@ at slot 0 of row 2; nothing
sent cell,1,1%0D|write,0,a,4370,0,1,en,2,2,0,*,@%0D| -> 1-1; write-@ at slot 0 of row 2; nothing
sent cell,1,1%0Dwrite,0,a,4370,0,1,en,2,2,0,*,@%0D -> 1-1; write-@ at slot 0 of row 2; nothing
sent cell,1,1|write,0,a,4370,0,1,en,2,2,0,*,@ -> 1-1; write-@ at slot 0 of row 2; nothing
sent ||cell,1,1%0D|%0D|write,0,a,4370,0,1,en,2,2,0,*,@||| -> 1-1; write-@ at slot 0 of row 2; nothing

# The export of a spreadsheet quotes every field, and may begin with a byte order mark.
before "cell","1","1"%0D|
sent "write","0","a","4370","0","1","en","2","2","0","*","@"%0D|%0D| -> 1-1; write-@ at slot 0 of row 2; nothing
before %EF%BB%BF"cell","1","1"%0D|
sent "write","0","a","4370","0","1","en","2","2","0","*","@"%0D| -> 1-1; write-@ at slot 0 of row 2; nothing
before %EF%BB%BFcell,1,1|
sent write,0,a,4370,0,1,en,2,2,0,*,@| -> 1-1; write-@ at slot 0 of row 2; nothing

# A text has quotes, also where the last one is missing, and line feeds.
before cell,1,1|
sent write,0,a,4370,0,1,en,2,2,0,*,"say ""go"""| -> 1-1; write-say-go at slot 0 of row 2; nothing
sent write,0,a,4370,0,1,en,2,2,0,*,say "go"| -> 1-1; write-say-go at slot 0 of row 2; nothing
sent write,0,a,4370,0,1,en,2,2,0,*,"say ""go"" -> 1-1; write-say-go at slot 0 of row 2; nothing
before cell,1,1%0D|
sent write,0,"a,|b",4370,0,1,en,2,2,0,*,"go|now"%0D| -> 1-1; write-go-now at slot 0 of row 2; nothing
sent write,0,тревога,4370,0,1,ru,2,2,0,1-1,Вода%0D| -> 1-1; write-вода at slot 0 of row 2; nothing
"#;

/// Tells the names of cells.
pub fn tell_cells(told: &mut String, cells: &[Cell]) -> Result<(), AllocError> {
    for (place, cell) in cells.iter().enumerate() {
        let space = if place > 0 { " " } else { "" };
        write!(told, "{space}{}-{}", cell.lac, cell.ci)?;
    }
    told.push_str(if cells.is_empty() { "none" } else { "" })
}

/// The cell of a word.
fn cell_in(word: &str) -> Result<Cell, Fail> {
    let (lac, ci) = word.split_once('-').unwrap_or((word, ""));
    Ok(Cell {
        lac: lac.parse::<u16>()?,
        ci: ci.parse::<u16>()?,
    })
}

/// What a word says of cells.
fn said_in(alloc: Global, word: &str) -> Result<Outcome, Fail> {
    let mut accepted = Vec::new(alloc);
    let mut refused = Vec::new(alloc);
    for part in word.split(',') {
        match part.split_once(':') {
            Some((name, cause)) => refused.push(Failure {
                cell: cell_in(name)?,
                cause: cause.parse::<u8>()?,
            })?,
            None => accepted.push(cell_in(part)?)?,
        }
    }
    Ok(Outcome {
        accepted: Cells { list: accepted },
        refused: Failures { list: refused },
    })
}

/// Tells the name of a message, its slot and its row.
fn tell_message(
    alloc: Global,
    told: &mut String,
    octets: &[u8],
    slot: u16,
    row: u32,
) -> Result<(), AllocError> {
    let name = name_in(alloc, octets)?;
    write!(told, "{name} at slot {slot} of row {row}")
}

/// Tells the next message of a session after a reply.
fn tell_next(
    alloc: Global,
    told: &mut String,
    session: &mut Session<'_>,
    last: Option<&[u8]>,
) -> Result<(), Fail> {
    match session.next(last)? {
        Some((slot, octets)) => Ok(tell_message(alloc, told, &octets, slot, session.row())?),
        None => Ok(told.push_str("nothing")?),
    }
}

/// Tells the message that a session sent last.
fn tell_sent(alloc: Global, told: &mut String, session: &Session<'_>) -> Result<(), Fail> {
    let Some(request) = session.sent() else {
        return Ok(told.push_str("nothing")?);
    };
    let octets = write(alloc, &request.message)?;
    Ok(tell_message(alloc, told, &octets, request.at, request.row)?)
}

/// Tells what a step of a session gives that goes without octets.
fn tell_going(
    alloc: Global,
    told: &mut String,
    session: &mut Session<'_>,
    step: &str,
) -> Result<(), Fail> {
    let said = match step {
        "-" => None,
        word => Some(said_in(alloc, word)?),
    };
    session.go_on(said)?;
    tell_sent(alloc, told, session)
}

/// Tells what a step of a session gives.
fn tell_step(
    alloc: Global,
    told: &mut String,
    session: &mut Session<'_>,
    step: &str,
) -> Result<(), Fail> {
    match step {
        "row" => Ok(write!(told, "row {}", session.row())?),
        "-" => tell_next(alloc, told, session, None),
        name => {
            let reply = octets_in(alloc, name)?;
            tell_next(alloc, told, session, Some(&reply))
        }
    }
}

/// Tells what the steps of a session give that words say.
fn tell_steps(
    alloc: Global,
    told: &mut String,
    session: &mut Session<'_>,
    verb: &str,
    words: &mut Words<'_>,
) -> Result<(), Fail> {
    for _ in 0..12 {
        let step = words.word();
        if step.is_empty() {
            return Ok(());
        }
        if !told.is_empty() {
            told.push_str("; ")?;
        }
        if verb == "goes" {
            tell_going(alloc, told, session, step)?;
        } else {
            tell_step(alloc, told, session, step)?;
        }
    }
    Err(Fail::new("a session of too many steps"))
}

/// Tells what a session gives. The words: its part, the number of parts, and its steps.
pub fn tell_session(
    alloc: Global,
    told: &mut String,
    book: &Book,
    verb: &str,
    steps: &str,
) -> Result<(), Fail> {
    let mut words = Words::of(steps);
    let (part, parts) = (words.number16()?, words.number16()?);
    if part >= parts {
        return Err(Fail::new("no such part"));
    }
    let mut session = Session::new(alloc, book, part, parts)?;
    let result = tell_steps(alloc, told, &mut session, verb, &mut words);
    drop(session);
    result
}

#[test]
fn sessions_give_the_worked_messages(rt: HostRuntime) -> Result<(), Fail> {
    expect_rows(&rt, SESSIONS, 15)?;
    expect_rows(&rt, GOING, 13)?;
    expect_rows(&rt, WRITTEN, 19)
}
