//! Lines of the explained table, as CSV.

ghost use Rattle.std.specs.Prelude.{◌≡◌, ◌++◌, ℕ, List, [], IfOk, None, OnOk, map, string_bytes};
ghost use Rattle.csv.specs.Writing.{default_writer, row_text};
ghost use Rattle.verification.specs.LineSteps.{HasWritten};
ghost use Rattle.verification.specs.Table.{explained_header, finding_line, finding_name, shift_line, shift_name};
ghost use Rattle.verification.specs.Table.{slots_named, told_line, whole_line};

use crate::difference::Difference;
use crate::explained::Explanation;
use crate::row::Finding;
use crate::shift::Shift;
use crate::text::kind_text;
use crate::timed::{timed_header, timed_told, timed_whole};
use cbsp_wire::Cell;
use csv::{Writer, WriterBuilder};
use itoa::Buffer;
use slot_times::Start;
use std::alloc::{AllocError, Global};

/// A writer that has written nothing.
fn nothing_written(alloc: Global) -> Writer<Vec<u8>>
    ensures { HasWritten result [] }
{
    WriterBuilder::new().from_writer(Vec::new(alloc))
}

/// Writes a line. A writer to memory fails only if out of memory.
fn write(writer: &mut Writer<Vec<u8>>, fields: &[&[u8]]) -> Result<(), AllocError>
    ensures { OnOk result ((octets : List ℕ) → HasWritten writer.old octets
        → HasWritten writer.new (octets ++ row_text default_writer (map (λ f. f.now) fields.now))) }
{
    match writer.write_fields(fields) {
        Ok(()) => Ok(()),
        Err(_) => Err(AllocError),
    }
}

/// What was written. The only error is out of memory.
fn written(writer: Writer<Vec<u8>>) -> Result<Vec<u8>, AllocError>
    ensures { IfOk result (λ octets. (text : List ℕ) → HasWritten writer text → octets.items ≡ text) }
{
    match writer.into_inner() {
        Ok(octets) => Ok(octets),
        Err(_) => Err(AllocError),
    }
}

/// The line of some fields. The only error is out of memory.
pub(crate) fn line(alloc: Global, fields: &[&[u8]]) -> Result<Vec<u8>, AllocError>
    ensures { IfOk result (λ octets. octets.items ≡ row_text default_writer (map (λ f. f.now) fields.now)) }
{
    let mut writer = nothing_written(alloc);
    write(&mut writer, fields)?;
    let octets = written(writer)?;
    Ok(octets)
}

/// The line of the columns' names, with one for times if slot 0 has one. The only error is out of memory.
pub fn header_line(alloc: Global, start: Option<Start>) -> Result<Vec<u8>, AllocError>
    ensures { IfOk result (λ octets. octets.items ≡ explained_header start) }
{
    match start {
        None => untimed_header(alloc),
        Some(_) => timed_header(alloc),
    }
}

/// The line of the columns' names without times. The only error is out of memory.
fn untimed_header(alloc: Global) -> Result<Vec<u8>, AllocError>
    ensures { IfOk result (λ octets. octets.items ≡ explained_header None) }
{
    line(
        alloc,
        &[
            b"lac",
            b"ci",
            b"id",
            b"serial",
            b"slot",
            b"difference",
            b"expected",
            b"got",
        ],
    )
}

/// What a finding is called. The only error is out of memory.
pub(crate) fn finding_name(alloc: Global, finding: &Finding) -> Result<String, AllocError>
    ensures { IfOk result (λ text. string_bytes text ≡ finding_name finding.now) }
{
    match finding {
        Finding::Differs(difference) => kind_text(alloc, difference.kind),
        Finding::NoTape => String::from_str(alloc, "no tape"),
        Finding::OtherSlots => String::from_str(alloc, "other slots"),
        Finding::SecondTape => String::from_str(alloc, "second tape"),
        Finding::UnknownCell => String::from_str(alloc, "unknown cell"),
    }
}

/// The line of a finding of a whole cell or tape, whose column of times is empty if there is one. The only error is out
/// of memory.
fn whole_line(
    alloc: Global,
    start: Option<Start>,
    cell: Cell,
    name: &str,
) -> Result<Vec<u8>, AllocError>
    ensures { IfOk result (λ octets. octets.items ≡ whole_line start cell name.now) }
{
    match start {
        None => untimed_whole(alloc, cell, name),
        Some(_) => timed_whole(alloc, cell, name),
    }
}

/// The line of a finding of a whole cell or tape, in a table without times. The only error is out of memory.
fn untimed_whole(alloc: Global, cell: Cell, name: &str) -> Result<Vec<u8>, AllocError>
    ensures { IfOk result (λ octets. octets.items ≡ whole_line None cell name.now) }
{
    let (mut lac, mut ci) = (Buffer::new(), Buffer::new());
    line(
        alloc,
        &[
            lac.format(cell.lac).as_bytes(),
            ci.format(cell.ci).as_bytes(),
            b"",
            b"",
            b"",
            name.as_bytes(),
            b"",
            b"",
        ],
    )
}

/// The line of a finding that tells of a whole cell or tape. The only error is out of memory.
pub fn finding_line(
    alloc: Global,
    start: Option<Start>,
    cell: Cell,
    finding: &Finding,
) -> Result<Vec<u8>, AllocError>
    ensures { IfOk result (λ octets. octets.items ≡ finding_line start cell finding.now) }
{
    let name = finding_name(alloc, finding)?;
    whole_line(alloc, start, cell, &name)
}

/// A number of slots. The only error is out of memory.
fn slots_named(alloc: Global, slots: usize) -> Result<String, AllocError>
    ensures { IfOk result (λ text. string_bytes text ≡ slots_named slots) }
{
    if slots == 1 {
        return String::from_str(alloc, "1 slot");
    }
    format!(in alloc; "{slots} slots")
}

/// What a shift is called. The only error is out of memory.
fn shift_name(alloc: Global, shift: Shift) -> Result<String, AllocError>
    ensures { IfOk result (λ text. string_bytes text ≡ shift_name shift) }
{
    match shift {
        Shift::Early(slots) => {
            let slots = slots_named(alloc, slots as usize)?;
            format!(in alloc; "all pages come {slots} early")
        }
        Shift::Late(slots) => {
            let slots = slots_named(alloc, slots)?;
            format!(in alloc; "all pages come {slots} late")
        }
    }
}

/// The line of a cell whose pages are all shifted. The only error is out of memory.
pub fn shift_line(
    alloc: Global,
    start: Option<Start>,
    cell: Cell,
    shift: Shift,
) -> Result<Vec<u8>, AllocError>
    ensures { IfOk result (λ octets. octets.items ≡ shift_line start cell shift) }
{
    let name = shift_name(alloc, shift)?;
    whole_line(alloc, start, cell, &name)
}

/// The line of what is told of a difference, with the time at which its slot begins if slot 0 has one. The only error
/// is out of memory.
pub fn told_line(
    alloc: Global,
    start: Option<Start>,
    cell: Cell,
    difference: &Difference,
    told: &Explanation,
) -> Result<Vec<u8>, AllocError>
    ensures { IfOk result (λ octets. octets.items ≡ told_line start cell difference.now told.now) }
{
    match start {
        None => untimed_told(alloc, cell, difference, told),
        Some(start) => timed_told(alloc, start, cell, difference, told),
    }
}

/// The line of what is told of a difference, without a time. The only error is out of memory.
fn untimed_told(
    alloc: Global,
    cell: Cell,
    difference: &Difference,
    told: &Explanation,
) -> Result<Vec<u8>, AllocError>
    ensures { IfOk result (λ octets. octets.items ≡ told_line None cell difference.now told.now) }
{
    let (mut lac, mut ci) = (Buffer::new(), Buffer::new());
    let (mut id, mut slot) = (Buffer::new(), Buffer::new());
    let serial = hex::encode(alloc, difference.serial.number().to_be_bytes().as_slice())?;
    line(
        alloc,
        &[
            lac.format(cell.lac).as_bytes(),
            ci.format(cell.ci).as_bytes(),
            id.format(difference.id).as_bytes(),
            serial.as_bytes(),
            slot.format(difference.slot).as_bytes(),
            told.difference.as_bytes(),
            told.expected.as_bytes(),
            told.got.as_bytes(),
        ],
    )
}
