//! Replies to answers that are given, and lists of cells.

ghost use Rattle.std.specs.Prelude.{◌≡◌, ◌≤◌, true, All, IsTrue, length};
ghost use Rattle.cbsp_wire.specs.Range.{cells_are_valid};
ghost use Rattle.order_desk.specs.Reply.{cells_answered, IsAnswerTo};

use crate::lines::{cells_of, message_of};
use crate::run::Run;
use crate::table::expect_rows;
use bsc_table::{Answer, Command, orders_of};
use cbsp_wire::{Cell, read};
use order_desk::{cells_ok, reply_of};
use std::alloc::{AllocError, Global};
use std::test::Fail;
use test_support::{Words, digits_of};

/// Whether a command can get an answer.
fn can_get(command: &Command, answer: Answer) -> bool
    ensures { IsTrue result → IsAnswerTo command.now answer }
{
    match (command, answer) {
        (Command::Write { replaces: None, .. }, Answer::Started { .. } | Answer::Cause(_)) => true,
        (
            Command::Write {
                replaces: Some(_),
                ..
            },
            Answer::Replaced { .. } | Answer::Cause(_),
        ) => { true }
        (Command::Kill { .. }, Answer::Stopped { .. } | Answer::Cause(_)) => true,
        _ => false,
    }
}

/// The answer that words name.
fn answer_of(words: &mut Words) -> Result<Answer, Fail> {
    match words.word() {
        "started" => Ok(Answer::Started {
            slot: words.number16()?,
        }),
        "replaced" => Ok(Answer::Replaced {
            slot: u32::from(words.number16()?),
            completed: words.number16()?,
        }),
        "stopped" => Ok(Answer::Stopped {
            completed: words.number16()?,
        }),
        "cause" => {
            let cause = words.hex16()?;
            if cause > 0xFF {
                return Err(Fail::new("no cause has two octets"));
            }
            Ok(Answer::Cause(cause as u8))
        }
        "" => Ok(Answer::Unknown),
        _ => Err(Fail::new("no such answer")),
    }
}

/// Tells the octets of the reply to a command, by the answers of its cells, where memory can be scarce.
fn put_reply(
    alloc: Global,
    run: &mut Run,
    command: &Command,
    answers: &[(Cell, Answer)],
) -> Result<(), AllocError>
    requires some { 1 ≤ length answers.now }
    requires valid { cells_are_valid (cells_answered answers.now) ≡ true }
    requires answered { All (λ answer. IsAnswerTo command.now answer.1) answers.now }
{
    run.drought.begin(alloc);
    let outcome = reply_of(alloc, command, answers);
    run.drought.end();
    match outcome {
        Ok(reply) => run.told.push_str(&digits_of(alloc, &reply)?),
        Err(_) => run.told.push_str("Refused"),
    }
}

/// Tells the octets of the reply to a command, by the answer of its one cell, or by those of its two. It says so if the
/// command can't get such an answer.
fn put_reply_to(
    alloc: Global,
    run: &mut Run,
    command: &Command,
    cells: &[Cell],
    answers: (Answer, Answer),
) -> Result<(), AllocError> {
    let (first, second) = answers;
    match cells {
        [one] if can_get(command, first) && cells_ok(&[*one]) => {
            put_reply(alloc, run, command, &[(*one, first)])
        }
        [one, other]
            if can_get(command, first) && can_get(command, second) && cells_ok(&[*one, *other]) => {
            put_reply(alloc, run, command, &[(*one, first), (*other, second)])
        }
        _ => run.told.push_str("the command can't get this answer"),
    }
}

/// Tells the octets of the reply to an order, by the answers of its cells.
fn put_reply_to_order(
    alloc: Global,
    run: &mut Run,
    octets: &[u8],
    answers: (Answer, Answer),
) -> Result<(), Fail> {
    match orders_of(read(alloc, octets)?) {
        Ok((cells, command)) => {
            let done = put_reply_to(alloc, run, &command, &cells, answers);
            drop(command);
            Ok(done?)
        }
        Err(_) => Err(Fail::new("no order")),
    }
}

/// `reply ORDER ANSWER ..`: the octets of the reply to an order, by the answers of its cells.
pub fn reply(alloc: Global, run: &mut Run, words: &mut Words) -> Result<(), Fail> {
    let octets = message_of(alloc, words)?;
    let answers = (answer_of(words)?, answer_of(words)?);
    put_reply_to_order(alloc, run, &octets, answers)
}

/// `cells CELLS`: whether a desk may have these cells.
pub fn judge_cells(alloc: Global, run: &mut Run, words: &mut Words) -> Result<(), Fail> {
    let cells = cells_of(alloc, words.word())?;
    let text = if cells_ok(&cells) { "right" } else { "wrong" };
    Ok(run.told.push_str(text)?)
}

/// Worked by hand from the layouts of the elements.
const REPLIES: &str = "
reply write 4370 0010 normal 2 1-1 started 0 -> 0200000e0e11120300100400050100010001
reply write 4370 0010 normal 2 9-9 cause 03 -> 0300000f0e1112030010090006010009000903
reply kill 4370 0010 1-1 stopped 0 -> 050000110e11120200100800080100010001000000

# 3 + 3 octets of numbers, 9 of failures, 11 of completed broadcasts
reply kill 4370 0010 1-1,1-2 cause 02 stopped 258 -> 0600001a0e11120200100900060100010001020800080100010002010200

# A replacement in two cells: three numbers of three octets, and lists of what was refused and of what was completed.
reply replace 4370 0010 0011 normal 2 1-1,1-2 replaced 1 1 cause 06 -> \
    0300001d0e11120300110200100900060100010002060800080100010001000100
reply replace 4370 0010 0011 normal 2 1-1,1-2 replaced 1 1 replaced 2 1 -> \
    0200001b0e111203001102001008000f010001000100010000010002000100
reply replace 4370 0010 0011 normal 2 1-2,1-1 cause 06 cause 02 -> \
    030000180e111203001102001009000c010001000206010001000102

# A desk has at most 64 cells, and none twice.
cells 1-0,1-1,1-2,1-3,1-4,1-5,1-6,1-7,1-8,1-9,1-10,1-11,1-12,1-13,1-14,1-15,1-16,1-17,1-18,1-19,1-20,1-21,1-22,1-23,\
    1-24,1-25,1-26,1-27,1-28,1-29,1-30,1-31,1-32,1-33,1-34,1-35,1-36,1-37,1-38,1-39,1-40,1-41,1-42,1-43,1-44,1-45,\
    1-46,1-47,1-48,1-49,1-50,1-51,1-52,1-53,1-54,1-55,1-56,1-57,1-58,1-59,1-60,1-61,1-62,1-63 -> right
cells 1-0,1-1,1-2,1-3,1-4,1-5,1-6,1-7,1-8,1-9,1-10,1-11,1-12,1-13,1-14,1-15,1-16,1-17,1-18,1-19,1-20,1-21,1-22,1-23,\
    1-24,1-25,1-26,1-27,1-28,1-29,1-30,1-31,1-32,1-33,1-34,1-35,1-36,1-37,1-38,1-39,1-40,1-41,1-42,1-43,1-44,1-45,\
    1-46,1-47,1-48,1-49,1-50,1-51,1-52,1-53,1-54,1-55,1-56,1-57,1-58,1-59,1-60,1-61,1-62,1-63,1-64 -> wrong
cells 1-2,2-1,1-2 -> wrong
cells 1-2,2-1,2-2 -> right
cells none -> right
";

#[test]
fn a_reply_says_what_each_cell_answered(rt: HostRuntime) -> Result<(), Fail> {
    expect_rows(&rt, REPLIES, 12)
}
