//! How the lines of a table are read and carried out.
//!
//! `action -> wanted`: what an action gives is wanted behind the arrow, with `..` in place of what may stand before or
//! after it. On both sides `<000D>` is the character of this code point, and `<37*000d>` stands for `000d` 37 times.
//!
//! `scarce ACTION -> refused; WANTED`: the action is refused with hardly any memory, with one block more each time,
//! until it has enough. After each refusal it has all memory, and has to give what is wanted at once.

use crate::{codes, pages};
use std::alloc::Global;
use std::process::Abort;
use std::test::Fail;
use test_support::{Drought, Row, Words, after_refusals, is_refused};

/// Puts what stands between `<` and `>` for something.
fn put_sign(text: &mut String, sign: &str) -> Result<(), Fail> {
    if let Some((times, repeated)) = sign.split_once('*') {
        for _ in 0..times.parse::<u16>()? {
            text.push_str(repeated)?;
        }
        return Ok(());
    }
    match char::from_u32(u32::from_str_radix(sign, 16)?) {
        Some(character) => Ok(text.push(character)?),
        None => Err(Fail::new("no character")),
    }
}

/// A side of a line, written out.
fn written_out(alloc: Global, side: &str) -> Result<String, Fail> {
    let mut text = String::new(alloc);
    for part in side.split('<') {
        match part.split_once('>') {
            Some((sign, rest)) => {
                put_sign(&mut text, sign)?;
                text.push_str(rest)?;
            }
            None => text.push_str(part)?,
        }
    }
    Ok(text)
}

/// The octets that words of hexadecimal digits name.
pub fn octets_of(alloc: Global, words: &str) -> Result<Vec<u8>, Fail> {
    let mut digits = String::new(alloc);
    for word in words.split(' ') {
        digits.push_str(word)?;
    }
    test_support::octets_of(alloc, &digits)
}

/// Whether what was found is what was wanted.
fn agree(found: &str, wanted: &str) -> bool {
    if let Some(end) = wanted.strip_prefix("..") {
        return found.ends_with(end);
    }
    match wanted.strip_suffix("..") {
        Some(begin) => found.starts_with(begin),
        None => found == wanted,
    }
}

/// What comes of an action.
fn carried_out(alloc: Global, drought: &mut Drought, action: &str) -> Result<String, Fail> {
    let (verb, rest) = action.split_once(' ').unwrap_or((action, ""));
    match verb {
        "codes" => codes::codes_of(alloc, rest),
        "show" => codes::shown(alloc, rest),
        "pack" => codes::packed(alloc, rest),
        "unpack" => codes::unpacked(alloc, rest),
        "unit" => codes::unit(alloc, rest),
        "units" => codes::units(alloc, rest),
        "characters" => codes::characters(alloc, rest),
        _ => pages::carried_out(alloc, drought, verb, rest),
    }
}

/// Expects of a line what it says, with both sides written out. An action that is `scarce` has to give what is wanted
/// at once after each refusal.
fn expect_row(
    alloc: Global,
    drought: &mut Drought,
    action: &str,
    wanted: &str,
) -> Result<(), Fail> {
    let step = action.strip_prefix("scarce ").unwrap_or(action);
    for refused in 0..Drought::MOST {
        let _ = drought.verb(&mut Words::of(action), refused);
        let found = carried_out(alloc, drought, step)?;
        if !is_refused(&found) {
            let found = after_refusals(alloc, refused, found)?;
            if agree(&found, wanted) {
                return Ok(());
            }
            return Err(Fail::new(format_args!("{action} -> {found}")));
        }
        let _ = drought.verb(&mut Words::of(step), 0);
        let again = carried_out(alloc, drought, step)?;
        if wanted.strip_prefix("refused; ") != Some(again.as_str()) {
            return Err(Fail::new(format_args!("{action} -> refused, and then {again}")));
        }
    }
    Err(Fail::new("it is refused to the end"))
}

/// Expects what a row says.
fn expect_written(alloc: Global, drought: &mut Drought, row: Row) -> Result<(), Fail> {
    let action = written_out(alloc, row.action)?;
    let wanted = written_out(alloc, row.wanted)?;
    expect_row(alloc, drought, &action, &wanted)
}

/// Expects what the lines of a table say, which are as many.
pub fn expect_rows(rt: &impl Abort, alloc: Global, table: &str, count: u16) -> Result<(), Fail> {
    let mut drought = Drought::new(alloc)?;
    let mut rows = 0_u16;
    for line in table.split('\n') {
        if let Some(row) = Row::of(line) {
            expect_written(alloc, &mut drought, row)?;
            rows = rows.saturating_add(1);
        }
    }
    drop(drought);
    assert!(rt; rows == count);
    Ok(())
}
