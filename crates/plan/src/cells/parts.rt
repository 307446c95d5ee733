//! The parts of a text between its gaps.

ghost use Rattle.std.specs.Prelude.{◌≡◌, ◌++◌, OnOk};
ghost use Rattle.plan.specs.PlanCells.{is_gap, parts_of, unless_empty};

use crate::octets::{Octets, copy_of};
use std::alloc::{AllocError, Global};

/// Whether an octet may stand between cells.
fn is_gap(octet: u8) -> bool
    ensures { result ≡ is_gap octet }
{
    octet == b' '
        || octet == b','
        || octet == b';'
        || octet == b'\t'
        || octet == b'\n'
        || octet == b'\r'
}

/// Appends a part, unless it is empty.
fn push_part(alloc: Global, parts: &mut Vec<Octets>, part: &[u8]) -> Result<(), AllocError>
    ensures { OnOk result (parts.new.items ≡ parts.old.items ++ unless_empty part.now) }
{
    if part.is_empty() {
        return Ok(());
    }
    let copy = copy_of(alloc, part)?;
    parts.push(copy)?;
    Ok(())
}

/// Appends the parts of a text.
pub(crate) fn push_parts(
    alloc: Global,
    parts: &mut Vec<Octets>,
    text: &[u8],
) -> Result<(), AllocError>
    ensures { OnOk result (parts.new.items ≡ parts.old.items ++ parts_of text.now) }
{
    let mut part = Vec::new(alloc);
    for octet in text {
        if is_gap(*octet) {
            push_part(alloc, parts, &part)?;
            part.clear();
        } else {
            part.push(*octet)?;
        }
    }
    push_part(alloc, parts, &part)
}
