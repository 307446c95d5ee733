//! The command `plan`: a plan to a book.

ghost use Rattle.std.specs.Prelude.{◌≡◌, ◌+◌, ◌≤◌, length, IfErr, IfOk, OnOk};
ghost use Rattle.device_ends.specs.Moves.{ConsumesSome};
ghost use Rattle.device_ends.specs.Source.{reader_of};
ghost use Rattle.device_ends.specs.Stream.{FaultOfInput, IsStreamBetween, OutputOfInput};
ghost use Rattle.plan.specs.PlanOutput.{IsPlanFault, IsPlanOutput, IsPlanWriteFault};
ghost use Rattle.plan.specs.PlanSteps.{IsNoPlan};

use crate::book::{first_fault, is_book, rows_text};
use crate::fault::PlanFault;
use crate::records::records_of;
use crate::rows::planned_rows;
use alert_book::MAX_INPUT;
use device_ends::{Failed, ReadFault, Sink, Source, read_up_to, write_all};
use std::alloc::Global;
use std::io::{Read, Write};

/// Reads a plan, and writes the book that it comes to. A book comes to itself. Nothing is written before all of it is
/// made.
///
/// # Errors
///
/// The first [`PlanFault`] that applies, with nothing written but after `WriteFailed`.
pub fn plan_stream<R: Read, W: Write>(
    alloc: Global,
    source: &mut Source<R>,
    sink: &mut Sink<W>,
) -> Result<(), PlanFault>
    // What was written is the book of the plan that was read, at any reader of some plan.
    ensures ok { OnOk result (OutputOfInput R.remaining W.contents IsPlanOutput source.old sink.old sink.new) }
    ensures err { IfErr result (FaultOfInput R.remaining W.contents IsPlanFault source.old sink.old sink.new) }

    // One octet past the bound is read at most.
    ensures reads { ConsumesSome (R.remaining (reader_of source.old)) (R.remaining (reader_of source.new))
        (MAX_INPUT + 1) }

    // At any reader and any writer.
    ensures any_ends { IsStreamBetween PlanFault.ReadFailed IsPlanWriteFault result W.contents source.old source.new
        sink.old sink.new }
{
    let input = match read_up_to(source, alloc, MAX_INPUT) {
        Ok(input) => input,
        Err(ReadFault::Device) => return Err(PlanFault::ReadFailed),
        Err(ReadFault::Refused) => return Err(PlanFault::Refused),
    };
    if input.len() > MAX_INPUT {
        return Err(PlanFault::TooLong);
    }
    let output = match planned_book(alloc, &input) {
        Ok(output) => output,
        Err(fault) => return Err(fault),
    };
    match write_all(sink, &output) {
        Ok(()) => Ok(()),
        Err(Failed) => Err(PlanFault::WriteFailed),
    }
}

/// The book that octets come to.
fn planned_book(alloc: Global, input: &[u8]) -> Result<Vec<u8>, PlanFault>
    requires { length input.now ≤ 16777216 }
    ensures ok { IfOk result (λ output. IsPlanOutput input.now output.items) }
    ensures err { IfErr result (IsNoPlan input.now) }
{
    if is_book(alloc, input)? {
        let copy = Vec::from_slice(alloc, input)?;
        return Ok(copy);
    }
    let records = records_of(alloc, input)?;
    let rows = planned_rows(alloc, &records)?;
    let text = rows_text(alloc, &rows)?;
    if text.len() > MAX_INPUT {
        return Err(PlanFault::TooLong);
    }
    if is_book(alloc, &text)? {
        return Ok(text);
    }
    match first_fault(alloc, &rows)? {
        Some(fault) => Err(PlanFault::Row(fault)),
        None => Err(PlanFault::Refused),
    }
}
