//! Messages that are added with scarce memory.
//!
//! The steps of a row, which `;` parts, are carried out at a new plan. `add ENTRY START PAGES PERIOD BROADCASTS RANK`
//! adds a message; `air SLOTS` says what as many slots air, `4.2` for page 2 of entry 4 and `-` for nothing;
//! `stop ENTRY` and `done ENTRY` say the completed number, and `none` if there is no such message. `not ENTRY ..` says
//! `none` of a message that may not be added. `stopped N` adds N messages and stops each, and says how many of them had
//! no completed broadcast then.
//!
//! A message of a step `scarce add ..` is added with hardly any memory. If it is refused, the plan has to say what it
//! said before, and the message is added with all memory; the steps after it have to say what they would have said. The
//! row is then carried out anew, with one block more, until nothing is refused.

use crate::of_scheduler::plans::{add_item, air, done, stop};
use scheduler::{Item, Plan, Rank};
use std::alloc::Global;
use std::fmt::Write;
use std::process::Abort;
use std::test::Fail;
use test_support::{Drought, Row, Words, after_refusals};

const ADDED: &str = "
# The first message, alone and before others.
scarce add 0 0 1 2 0 normal; air 4; done 0 -> refused; 0.1 - 0.1 - 2
scarce add 0 0 1 2 0 normal; scarce add 1 0 2 4 0 normal; air 4; done 0; done 1 -> refused; 0.1 1.1 0.1 1.2 2 1
scarce add 0 0 2 4 0 background; add 1 0 1 2 0 normal; air 8; done 0; done 1 -> \
    refused; 1.1 0.1 1.1 0.2 1.1 0.1 1.1 0.2 2 4

# One that is added ahead of its start.
scarce add 0 3 1 2 2 normal; air 9; done 0 -> refused; - - - 0.1 - 0.1 - - - 2

# A fifth one at slot 2, where one is stopped.
add 0 0 1 8 0 normal; add 1 0 1 8 0 normal; add 2 0 1 8 0 normal; add 3 0 1 8 0 normal; air 2; stop 1; \
    scarce add 4 2 1 8 0 high; air 8; stop 4; done 0; done 1 -> \
    refused; 0.1 1.1 1 2.1 3.1 4.1 - - - 0.1 2.1 1 2 1

# Each of nine, of which the high one is aired first.
scarce add 0 0 1 1024 1 normal; scarce add 1 0 1 1024 1 normal; scarce add 2 0 1 1024 1 normal; \
    scarce add 3 0 1 1024 1 normal; scarce add 4 0 1 1024 1 normal; scarce add 5 0 1 1024 1 normal; \
    scarce add 6 0 1 1024 1 normal; scarce add 7 0 1 1024 1 normal; scarce add 8 0 1 1024 1 high; air 10; done 8 -> \
    refused; 8.1 0.1 1.1 2.1 3.1 4.1 5.1 6.1 7.1 - 1
";

/// What a plan says of the slot that is asked next, and of the messages 0 to 9.
fn said_by(alloc: Global, plan: &Plan) -> Result<String, Fail> {
    let mut text = plan.next_slot().to_string(alloc)?;
    for entry in 0..10 {
        let (is_above, is_standing) = (plan.is_above_all(entry), plan.is_standing(entry));
        write!(text, "; {is_above} {is_standing} {:?}", done(plan, entry))?;
    }
    Ok(text)
}

/// Adds a message, and says whether it was refused and then added with all memory.
fn is_refused(
    alloc: Global,
    drought: &mut Drought,
    plan: &mut Plan,
    item: Item,
) -> Result<bool, Fail> {
    let before = said_by(alloc, plan)?;
    if u32::from(plan.next_slot()) > item.start || item.pages == 0 || item.period == 0 {
        return Err(Fail::new("the message can't stand from there"));
    }
    if !plan.is_above_all(item.entry) {
        return Err(Fail::new("the message has no new number"));
    }
    drought.begin(alloc);
    let outcome = plan.add(item);
    drought.end();
    if outcome.is_ok() {
        return Ok(false);
    }
    if said_by(alloc, plan)? != before {
        return Err(Fail::new("a refused message changes the plan"));
    }
    match add_item(plan, item) {
        Some(_) => Ok(true),
        None => Err(Fail::new("the message is not added with all memory")),
    }
}

/// The message that words say.
fn item_of(words: &mut Words) -> Result<Item, Fail> {
    Ok(Item {
        entry: words.number16()?,
        start: u32::from(words.number16()?),
        pages: words.word().parse::<u8>()?,
        period: words.number16()?,
        broadcasts: words.number16()?,
        rank: match words.word() {
            "high" => Rank::High,
            "normal" => Rank::Normal,
            "background" => Rank::Background,
            _ => return Err(Fail::new("no such rank")),
        },
    })
}

/// Says what so many slots air.
fn air_all(plan: &mut Plan, slots: u16, text: &mut String) -> Result<(), Fail> {
    for _ in 0..slots {
        match air(plan) {
            Some((entry, page)) => write!(text, " {entry}.{page}")?,
            None => text.push_str(" -")?,
        }
    }
    Ok(())
}

/// Says a completed number, or that there is no such message.
fn put_number(text: &mut String, completed: Option<u16>) -> Result<(), Fail> {
    match completed {
        Some(number) => Ok(write!(text, " {number}")?),
        None => Ok(text.push_str(" none")?),
    }
}

/// Adds a message that may not be added, and says so.
fn put_unadded(text: &mut String, plan: &mut Plan, item: Item) -> Result<(), Fail> {
    match add_item(plan, item) {
        Some(_) => Ok(text.push_str(" added")?),
        None => Ok(text.push_str(" none")?),
    }
}

/// Adds so many messages of two pages and stops each. Gives how many had no completed broadcast.
fn add_and_stop(plan: &mut Plan, count: u16) -> u16 {
    let mut stopped = 0_u16;
    for entry in 0..count {
        let item = Item {
            entry,
            start: u32::from(plan.next_slot()),
            pages: 2,
            period: 1024,
            broadcasts: 1,
            rank: Rank::Normal,
        };
        if add_item(plan, item).is_some() && stop(plan, entry) == Some(0) {
            stopped = stopped.saturating_add(1);
        }
    }
    stopped
}

/// Carries out a step for which so many blocks of memory are left, and says whether it was refused before.
fn carry_out(
    alloc: Global,
    drought: &mut Drought,
    plan: &mut Plan,
    step: &str,
    blocks: u16,
    text: &mut String,
) -> Result<bool, Fail> {
    let mut words = Words::of(step);
    match drought.verb(&mut words, blocks) {
        "add" => return is_refused(alloc, drought, plan, item_of(&mut words)?),
        "air" => air_all(plan, words.number16()?, text)?,
        "not" => put_unadded(text, plan, item_of(&mut words)?)?,
        "stopped" => put_number(text, Some(add_and_stop(plan, words.number16()?)))?,
        "stop" => put_number(text, stop(plan, words.number16()?))?,
        "done" => put_number(text, done(plan, words.number16()?))?,
        _ => return Err(Fail::new("no such action")),
    }
    Ok(false)
}

/// Carries out the steps of a row at a new plan, and says whether any was refused before.
fn is_row_refused(
    alloc: Global,
    drought: &mut Drought,
    steps: &str,
    blocks: u16,
    text: &mut String,
) -> Result<bool, Fail> {
    let mut plan = Plan::new(alloc);
    let mut is_refused = false;
    for step in steps.split(';') {
        if carry_out(alloc, drought, &mut plan, step, blocks, text)? {
            is_refused = true;
        }
    }
    Ok(is_refused)
}

/// What comes of a row: it is carried out with one block more each time, until nothing is refused.
fn outcome(alloc: Global, drought: &mut Drought, row: Row) -> Result<String, Fail> {
    for refused in 0..Drought::MOST {
        let mut found = String::new(alloc);
        if !is_row_refused(alloc, drought, row.action, refused, &mut found)? {
            let found = String::from_str(alloc, found.trim())?;
            return after_refusals(alloc, refused, found);
        }
        if row.wanted.strip_prefix("refused; ") != Some(found.trim()) {
            return Ok(format!(in alloc; "refused, and then {found}")?);
        }
    }
    Err(Fail::new("it is refused to the end"))
}

/// Expects what a row says.
fn expect_row(rt: &impl Abort, alloc: Global, drought: &mut Drought, row: Row) -> Result<(), Fail> {
    let found = outcome(alloc, drought, row)?;
    assert_eq!(rt; found.as_str(), row.wanted, "{}", row.action);
    Ok(())
}

/// Expects what the rows of a table say, and returns how many there are.
fn expect_each(
    rt: &impl Abort,
    alloc: Global,
    drought: &mut Drought,
    table: &str,
) -> Result<u16, Fail> {
    let mut rows = 0_u16;
    for line in table.split('\n') {
        if let Some(row) = Row::of(line) {
            expect_row(rt, alloc, drought, row)?;
            rows = rows.saturating_add(1);
        }
    }
    Ok(rows)
}

/// Expects what the rows of a table say, which are so many.
pub fn expect_rows(rt: &impl Abort, alloc: Global, table: &str, count: u16) -> Result<(), Fail> {
    let mut drought = Drought::new(alloc)?;
    let rows = expect_each(rt, alloc, &mut drought, table);
    drop(drought);
    assert_eq!(rt; rows?, count);
    Ok(())
}

#[test]
fn messages_are_refused_until_there_is_memory(rt: HostRuntime) -> Result<(), Fail> {
    expect_rows(&rt, rt.alloc(), ADDED, 6)
}
