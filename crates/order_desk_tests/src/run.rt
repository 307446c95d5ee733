//! A desk with three passes, and what its calls answer.

ghost use Rattle.std.specs.Prelude.{◌≡◌, true};
ghost use Rattle.cbsp_wire.specs.Range.{cells_are_valid};

use crate::lines::{cell_of, cells_of, message_of};
use bsc_table::{Answer, State};
use cbs_page::Serial;
use cbsp_wire::Cell;
use order_desk::{Desk, DeskFault, Note, Open, Pass, Piece, SettleFault, cells_ok};
use std::alloc::{AllocError, Global};
use std::fmt::Write;
use std::sync::Wait;
use std::test::Fail;
use test_support::{Drought, Outcomes, Words, digits_of};

/// A desk, and the passes of its users.
#[derive(Drop)]
pub struct Run {
    /// The desk, if one was opened.
    pub desk: Option<Desk>,
    /// The passes p, q and r.
    pub passes: Vec<Pass>,
    /// Scarce memory for the calls of a row.
    pub drought: Drought,
    /// What came of the step under way.
    pub told: String,
    /// What came of the steps of a row.
    pub row: String,
    /// What came of the attempts of a row.
    pub outcomes: Outcomes,
}

impl Run {
    /// A run without a desk.
    pub fn new(alloc: Global) -> Result<Run, Fail> {
        let drought = Drought::of_room(alloc)?;
        Ok(Run {
            desk: None,
            passes: Vec::new(alloc),
            drought,
            told: String::new(alloc),
            row: String::new(alloc),
            outcomes: Outcomes::new(alloc),
        })
    }
}

/// A desk of cells, opened where memory can be scarce.
fn opened_in(
    alloc: Global,
    drought: &mut Drought,
    cells: &[Cell],
    slots: u16,
) -> Result<Desk, AllocError>
    requires { cells_are_valid cells.now ≡ true }
{
    drought.begin(alloc);
    let outcome = Desk::open(alloc, cells, slots);
    drought.end();
    outcome
}

/// Has a desk that was opened take the place of the one before.
fn place(place: &mut Option<Desk>, opened: Result<Desk, AllocError>) -> Result<(), AllocError> {
    *place = Some(opened?);
    Ok(())
}

/// Makes three passes without notes.
fn renew(run: &mut Run) -> Result<(), AllocError> {
    run.passes.clear();
    if let Some(desk) = &run.desk {
        for _ in 0..3 {
            run.passes.push(desk.pass())?;
        }
    }
    Ok(())
}

/// `desk SLOTS CELLS` opens a desk, with new passes; after `next-desk` the passes stay.
pub fn begin(alloc: Global, run: &mut Run, verb: &str, words: &mut Words) -> Result<(), Fail> {
    let slots = words.number16()?;
    let cells = cells_of(alloc, words.word())?;
    if !cells_ok(&cells) {
        return Err(Fail::new("these cells are of no desk"));
    }
    let opened = opened_in(alloc, &mut run.drought, &cells, slots);
    if place(&mut run.desk, opened).is_err() {
        run.told.push_str("Refused")?;
    } else if verb == "desk" {
        renew(run)?;
    }
    Ok(())
}

/// Tells a fault by its names, and what it says.
pub fn put_fault(told: &mut String, fault: DeskFault) -> Result<(), AllocError> {
    write!(told, "{fault:?}: {fault}")
}

/// Tells a fault of a settlement by its names, and what it says.
pub fn put_settle_fault(told: &mut String, fault: SettleFault) -> Result<(), AllocError> {
    write!(told, "{fault:?}: {fault}")
}

/// Has an order carried out, where memory can be scarce.
fn order_in<T: AllocGlobal + Wait>(
    rt: &T,
    desk: &Desk,
    pass: &mut Pass,
    drought: &mut Drought,
    at: u16,
    octets: &[u8],
) -> Result<Vec<u8>, DeskFault> {
    drought.begin(rt.alloc());
    let outcome = desk.order(rt, rt.alloc(), pass, at, octets, &Open);
    drought.end();
    outcome
}

/// `orders SLOT MESSAGE`: the reply, or why there is none.
fn order<T: AllocGlobal + Wait>(
    rt: &T,
    desk: &Desk,
    pass: &mut Pass,
    drought: &mut Drought,
    told: &mut String,
    words: &mut Words,
) -> Result<(), Fail> {
    let at = words.number16()?;
    let octets = message_of(rt.alloc(), words)?;
    match order_in(rt, desk, pass, drought, at, &octets) {
        Ok(reply) => told.push_str(&digits_of(rt.alloc(), &reply)?)?,
        Err(fault) => put_fault(told, fault)?,
    }
    Ok(())
}

/// `plays CELL SLOTS`: the slots that were played, or why there are none.
fn play<T: AllocGlobal + Wait>(
    rt: &T,
    desk: &Desk,
    pass: &mut Pass,
    drought: &mut Drought,
    told: &mut String,
    words: &mut Words,
) -> Result<(), Fail> {
    let (cell, slots) = (cell_of(words.word())?, words.number16()?);
    drought.begin(rt.alloc());
    let outcome = desk.play(rt, rt.alloc(), pass, cell, slots, &Open);
    drought.end();
    match outcome {
        Ok(range) => write!(told, "{}..{}", range.from, range.to)?,
        Err(fault) => put_fault(told, fault)?,
    }
    Ok(())
}

/// Asks for a status, where memory can be scarce.
fn status_in<T: AllocGlobal + Wait>(
    rt: &T,
    desk: &Desk,
    pass: &mut Pass,
    drought: &mut Drought,
    message: (Cell, u16, Serial),
) -> Result<Option<(u16, State)>, DeskFault> {
    let (cell, id, serial) = message;
    drought.begin(rt.alloc());
    let outcome = desk.status(rt, rt.alloc(), pass, cell, id, serial, &Open);
    drought.end();
    outcome
}

/// `asks CELL ID SERIAL`: the status, or why there is none. `asks-often TIMES ..` asks once more if it is of an unknown
/// message, until it has asked so many times.
fn ask<T: AllocGlobal + Wait>(
    rt: &T,
    desk: &Desk,
    pass: &mut Pass,
    drought: &mut Drought,
    verb: &str,
    words: &mut Words,
) -> Result<Result<Option<(u16, State)>, DeskFault>, Fail> {
    let times = match verb {
        "asks-often" => words.number16()?,
        _ => 1,
    };
    let cell = cell_of(words.word())?;
    let (id, serial) = (words.number16()?, Serial::of(words.hex16()?));
    let mut status = Ok(None);
    for _ in 0..times {
        status = status_in(rt, desk, pass, drought, (cell, id, serial));
        if status != Ok(None) {
            break;
        }
    }
    Ok(status)
}

/// Tells a status, or why there is none.
fn put_status(
    told: &mut String,
    status: Result<Option<(u16, State)>, DeskFault>,
) -> Result<(), AllocError> {
    match status {
        Ok(None) => put_answer(told, Answer::Unknown),
        Ok(Some((completed, state))) => put_answer(told, Answer::Told { completed, state }),
        Err(fault) => put_fault(told, fault),
    }
}

/// Tells a piece: its cell, its first slot, and the serial number of the page of each slot, `-` for none.
fn put_piece(told: &mut String, piece: &Piece) -> Result<(), AllocError> {
    let Cell { lac, ci } = piece.cell;
    write!(told, "{lac}-{ci} from {}:", piece.from)?;
    for page in &piece.pages {
        match page {
            Some([high, low, ..]) => write!(told, " {high:02x}{low:02x}")?,
            None => told.push_str(" -")?,
        }
    }
    Ok(())
}

/// `piece CELL FROM SLOTS`: what a cell aired, in at most 64 slots, which is taken out where memory can be scarce.
pub fn take_out<T: AllocGlobal + Wait>(
    rt: &T,
    run: &mut Run,
    words: &mut Words,
) -> Result<(), Fail> {
    let (cell, from, slots) = (cell_of(words.word())?, words.number16()?, words.number16()?);
    let Some(desk) = &run.desk else {
        return Err(Fail::new("there is no desk"));
    };
    if slots > 64 {
        return Err(Fail::new("a piece has at most 64 slots"));
    }
    run.drought.begin(rt.alloc());
    let outcome = desk.piece(rt, rt.alloc(), cell, from, slots, &Open);
    run.drought.end();
    match outcome {
        Ok(piece) => put_piece(&mut run.told, &piece)?,
        Err(fault) => put_fault(&mut run.told, fault)?,
    }
    Ok(())
}

/// Tells an answer.
fn put_answer(told: &mut String, answer: Answer) -> Result<(), AllocError> {
    match answer {
        Answer::Cause(cause) => write!(told, "refused with cause {cause:02x}"),
        _ => write!(told, "{answer:?}"),
    }
}

/// Tells a note.
fn put_note(told: &mut String, note: &Note) -> Result<(), AllocError> {
    match note {
        Note::Event {
            cell,
            number,
            entry,
        } => {
            let Cell { lac, ci } = *cell;
            write!(told, "{lac}-{ci} entry {number} at {}: ", entry.slot)?;
            put_answer(told, entry.answer)
        }
        Note::Played { cell, from, to } => {
            write!(told, "{}-{} played {from}..{to}", cell.lac, cell.ci)
        }
        Note::Full { cell } => write!(told, "{}-{} full", cell.lac, cell.ci),
    }
}

/// `note PLACE`: a note of a pass, from 0; and `note all`: how many there are.
fn tell_notes(told: &mut String, pass: &Pass, place: &str) -> Result<(), Fail> {
    let notes = pass.notes();
    if place == "all" {
        return Ok(write!(told, "{} notes", notes.len())?);
    }
    match notes.get(place.parse::<usize>()?) {
        Some(note) => Ok(put_note(told, note)?),
        None => Err(Fail::new("there is no such note")),
    }
}

/// Has the pass of a name do what the words say.
pub fn with_pass<T: AllocGlobal + Wait>(
    rt: &T,
    run: &mut Run,
    name: &str,
    words: &mut Words,
) -> Result<(), Fail> {
    let Run {
        desk,
        passes,
        drought,
        told,
        ..
    } = run;
    let place = match name {
        "p" => 0,
        "q" => 1,
        _ => 2,
    };
    let (Some(desk), Some(pass)) = (desk, passes.get_mut(place)) else {
        return Err(Fail::new("there is no desk"));
    };
    match words.word() {
        "orders" => order(rt, desk, pass, drought, told, words),
        "plays" => play(rt, desk, pass, drought, told, words),
        "note" => tell_notes(told, pass, words.word()),
        verb => {
            let status = ask(rt, desk, pass, drought, verb, words)?;
            Ok(put_status(told, status)?)
        }
    }
}
