//! How the lines of a table, `action -> wanted`, are carried out.
//!
//! `scarce ACTION -> refused; WANTED`: the action is refused with hardly any memory, with one block more each time,
//! until it has enough. After each refusal it has all memory, and has to give what is wanted at once.

use crate::of_cbsp_wire::cells::looked_up;
use crate::of_cbsp_wire::made::make;
use crate::of_cbsp_wire::octets::{octets_in, set_octet};
use crate::of_cbsp_wire::rows::{fronts, reading, says, writes};
use std::alloc::{AllocError, Global};
use std::process::Abort;
use std::test::Fail;
use test_support::{Drought, Row, Words, after_refusals, is_refused};

/// What comes of an action on octets.
fn with_octets(
    alloc: Global,
    drought: &mut Drought,
    verb: &str,
    octets: &[u8],
) -> Result<String, AllocError> {
    match verb {
        "read" => String::from_str(alloc, reading(alloc, octets)),
        "fronts" => fronts(alloc, octets),
        "says" | "in_order" => says(alloc, drought, verb, octets),
        "writes" => writes(alloc, drought, octets),
        _ => String::from_str(alloc, "no such action"),
    }
}

/// What comes of an action, for which so many blocks of memory are left if it is `scarce`. Its words are all read.
fn carried_out(
    alloc: Global,
    drought: &mut Drought,
    action: &str,
    blocks: u16,
) -> Result<String, Fail> {
    let mut words = Words::of(action);
    let verb = drought.verb(&mut words, blocks);
    match verb {
        "make" => make(alloc, drought, &mut words),
        "octet" => set_octet(alloc, &mut words),
        "contains" | "contains_near" | "find" | "find_near" | "distinct" => {
            looked_up(alloc, verb, &mut words)
        }
        _ => {
            let octets = octets_in(alloc, &mut words)?;
            Ok(with_octets(alloc, drought, verb, &octets)?)
        }
    }
}

/// Expects what a row says. If memory is refused, the action has all memory, and then one block more than before.
fn expect_row(alloc: Global, drought: &mut Drought, row: Row) -> Result<(), Fail> {
    let ample = row.action.strip_prefix("scarce ").unwrap_or(row.action);
    for refused in 0..Drought::MOST {
        let found = carried_out(alloc, drought, row.action, refused)?;
        if !is_refused(&found) {
            let found = after_refusals(alloc, refused, found)?;
            if found.as_str() == row.wanted {
                return Ok(());
            }
            return Err(Fail::new(format_args!("{} -> {found}", row.action)));
        }
        let again = carried_out(alloc, drought, ample, 0)?;
        if row.wanted.strip_prefix("refused; ") != Some(again.as_str()) {
            return Err(Fail::new(format_args!("{} -> refused, and then {again}", row.action)));
        }
    }
    Err(Fail::new("it is refused to the end"))
}

/// Expects what the lines of a table say, which are as many.
pub fn expect_rows(rt: &impl Abort, alloc: Global, table: &str, count: u16) -> Result<(), Fail> {
    let mut drought = Drought::new(alloc)?;
    let mut rows = 0_u16;
    for line in table.split('\n') {
        if let Some(row) = Row::of(line) {
            expect_row(alloc, &mut drought, row)?;
            rows = rows.saturating_add(1);
        }
    }
    drop(drought);
    assert!(rt; rows == count);
    Ok(())
}
