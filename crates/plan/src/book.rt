//! Planned rows as a book.

ghost use Rattle.std.specs.Prelude.{◌≡◌, ◌≤◌, ◌++◌, ℕ, List, [], length, map, IfOk, IfSome, OnOk};
ghost use Rattle.std.specs.Bool.{MatchBool};
ghost use Rattle.csv.specs.Records.{fields_of};
ghost use Rattle.plan.specs.PlanOutput.{IsFirstFault, IsSomeBook, row_line, rows_text};
ghost use Rattle.plan.specs.PlanSteps.{IsText, is_right};

use crate::cells::new::text_at;
use crate::fault::PlanRowFault;
use crate::octets::{Octets, octets_of, texts_of};
use crate::rows::Planned;
use crate::rows::word::verb_of;
use alert_book::{Bounds, Judge, Verdict};
use book_check::{check_laws, table_of};
use csv::{ByteRecord, Writer, WriterBuilder};
use std::alloc::{AllocError, Global};

/// Whether octets are a book.
pub(crate) fn is_book(alloc: Global, octets: &[u8]) -> Result<bool, AllocError>
    requires { length octets.now ≤ 16777216 }
    ensures { IfOk result (λ is. MatchBool is (IsSomeBook octets.now) (IsSomeBook octets.now → ⊥)) }
{
    let checked = table_of(alloc, Bounds::Book, octets)?;
    check_laws();
    Ok(checked.count == 0)
}

/// The text of a book, as it is written.
#[derive(Drop)]
struct BookText {
    writer: Writer<Vec<u8>>,
}

impl BookText {
    /// The text of no row.
    fn new(alloc: Global) -> BookText
        ensures { IsText result [] }
    {
        BookText {
            writer: WriterBuilder::new()
                .flexible(true)
                .from_writer(Vec::new(alloc)),
        }
    }

    /// Appends a row. A writer to memory fails only if out of memory.
    fn push(&mut self, alloc: Global, planned: &Planned) -> Result<(), AllocError>
        ensures { OnOk result ((octets : List ℕ) → IsText self.old octets →
            IsText self.new (octets ++ row_line planned.now)) }
    {
        let record = record_of(alloc, planned)?;
        match self.writer.write_byte_record(&record) {
            Ok(()) => Ok(()),
            Err(_) => Err(AllocError),
        }
    }

    /// The octets.
    fn into_octets(self) -> Result<Vec<u8>, AllocError>
        ensures { IfOk result (λ octets. (text : List ℕ) → IsText self text → octets.items ≡ text) }
    {
        match self.writer.into_inner() {
            Ok(octets) => Ok(octets),
            Err(_) => Err(AllocError),
        }
    }
}

/// The slices of texts.
fn slices_of(alloc: Global, texts: &[Octets]) -> Result<Vec<&[u8]>, AllocError>
    ensures { IfOk result (λ slices. map (λ slice. slice.now) slices.items ≡ texts.now) }
{
    let mut slices = Vec::new(alloc);
    for octets in texts {
        slices.push(octets_of(octets))?;
    }
    Ok(slices)
}

/// The record of a row.
fn record_of(alloc: Global, planned: &Planned) -> Result<ByteRecord, AllocError>
    ensures { IfOk result (λ line. fields_of line ≡ planned.now.fields) }
{
    let slices = slices_of(alloc, texts_of(&planned.fields))?;
    ByteRecord::from_fields(alloc, &slices)
}

/// The text of rows.
pub(crate) fn rows_text(alloc: Global, rows: &[Planned]) -> Result<Vec<u8>, AllocError>
    ensures { IfOk result (λ octets. octets.items ≡ rows_text rows.now) }
{
    let mut text = BookText::new(alloc);
    for planned in rows {
        text.push(alloc, planned)?;
    }
    text.into_octets()
}

/// The fault of the first row that has one, if one has.
pub(crate) fn first_fault(
    alloc: Global,
    rows: &[Planned],
) -> Result<Option<PlanRowFault>, AllocError>
    ensures { IfOk result (λ fault. IfSome fault (IsFirstFault rows.now)) }
{
    let mut judge = Judge::new(alloc);
    for planned in rows {
        let record = record_of(alloc, planned)?;
        let verdict = judge.judge(alloc, &record)?;
        if !is_right(verdict) {
            return Ok(Some(PlanRowFault {
                row: planned.row,
                verb: verb_of(text_at(&planned.fields, 0)),
                verdict,
            }));
        }
    }
    Ok(None)
}

/// Whether a verdict is that a row is right.
fn is_right(verdict: Verdict) -> bool
    ensures { result ≡ is_right verdict }
{
    match verdict {
        Verdict::Right => true,
        Verdict::Wrong(_) | Verdict::Unsendable(_) => false,
    }
}
