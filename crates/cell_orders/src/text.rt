//! The text of an orders file.

ghost use Rattle.std.specs.Prelude.{◌≡◌, ◌++◌, ◌∷◌, ℕ, List, [], IfOk, OnOk, decimal, map, string_bytes};
ghost use Rattle.csv.specs.Records.{fields_of, partial_of};
ghost use Rattle.cell_orders.specs.Steps.{IsText};
ghost use Rattle.cell_orders.specs.Text.{answer_text, outcome_text, done_text, fields_of_order, octet_text};
ghost use Rattle.cell_orders.specs.Text.{orders_text};
ghost use Rattle.cell_orders.specs.Text.{page_text, pair_text, row_fields, row_line, text_if};

use crate::row::{CellAnswer, CellOrder, OrderRow};
use cbs_page::{Content, Dcs, Serial};
use csv::{ByteRecord, Writer, WriterBuilder};
use itoa::Buffer;
use std::alloc::{AllocError, Global};

/// Four hexadecimal digits. The only error is out of memory, here and below.
fn pair_text(alloc: Global, number: u16) -> Result<String, AllocError>
    ensures { IfOk result (λ text. string_bytes text ≡ pair_text number) }
{
    hex::encode(alloc, number.to_be_bytes().as_slice())
}

/// Two hexadecimal digits.
fn octet_text(alloc: Global, octet: u8) -> Result<String, AllocError>
    ensures { IfOk result (λ text. string_bytes text ≡ octet_text octet) }
{
    hex::encode(alloc, [octet].as_slice())
}

/// A serial number, or nothing.
fn serial_text(alloc: Global, serial: Option<Serial>) -> Result<String, AllocError>
    ensures { IfOk result (λ text. string_bytes text ≡ text_if pair_text serial) }
{
    match serial {
        Some(serial) => pair_text(alloc, serial.number()),
        None => Ok(String::new(alloc)),
    }
}

/// That a cell took an order, or why it didn't.
fn outcome_text(alloc: Global, cause: Option<u8>) -> Result<String, AllocError>
    ensures { IfOk result (λ text. string_bytes text ≡ outcome_text cause) }
{
    match cause {
        Some(cause) => octet_text(alloc, cause),
        None => String::from_str(alloc, "ok"),
    }
}

/// An answer, if there is one.
fn answer_text(alloc: Global, answer: Option<CellAnswer>) -> Result<String, AllocError>
    ensures { IfOk result (λ text. string_bytes text ≡ answer_text answer) }
{
    match answer {
        Some(answer) => outcome_text(alloc, answer.cause),
        None => Ok(String::new(alloc)),
    }
}

/// A number, or nothing.
fn number_text(alloc: Global, number: Option<u16>) -> Result<String, AllocError>
    ensures { IfOk result (λ text. string_bytes text ≡ text_if decimal number) }
{
    match number {
        Some(number) => format!(in alloc; "{number}"),
        None => Ok(String::new(alloc)),
    }
}

/// How many broadcasts an answer says, if it does.
fn done_text(alloc: Global, answer: Option<CellAnswer>) -> Result<String, AllocError>
    ensures { IfOk result (λ text. string_bytes text ≡ done_text answer) }
{
    match answer {
        Some(answer) => number_text(alloc, answer.done),
        None => Ok(String::new(alloc)),
    }
}

/// A page: its used octets, and all.
fn page_text(alloc: Global, content: &Content) -> Result<String, AllocError>
    ensures { IfOk result (λ text. string_bytes text ≡ page_text content.now) }
{
    let octets = hex::encode(alloc, content.octets.as_slice())?;
    format!(in alloc; "{}-{octets}", content.used)
}

/// Appends a field.
fn push(line: &mut ByteRecord, field: &[u8]) -> Result<(), AllocError>
    requires { partial_of line.old ≡ [] }
    ensures fields { OnOk result (fields_of line.new ≡ fields_of line.old ++ field.now ∷ []) }
    ensures whole { OnOk result (partial_of line.new ≡ []) }
{
    line.push_field(field)
}

/// The record of the first fields of an order.
fn head_of(
    alloc: Global,
    kind: &[u8],
    at: u64,
    id: u16,
    serial: Serial,
) -> Result<ByteRecord, AllocError>
    ensures fields { IfOk result (λ line. fields_of line
        ≡ kind.now ∷ decimal at ∷ decimal id ∷ pair_text serial ∷ []) }
    ensures whole { IfOk result (λ line. partial_of line ≡ []) }
{
    let (mut slot, mut number) = (Buffer::new(), Buffer::new());
    let serial = pair_text(alloc, serial.number())?;
    ByteRecord::from_fields(
        alloc,
        &[
            kind,
            slot.format(at).as_bytes(),
            number.format(id).as_bytes(),
            serial.as_bytes(),
        ],
    )
}

/// Appends what an order to broadcast asks for.
fn push_terms(
    alloc: Global,
    line: &mut ByteRecord,
    old_serial: Option<Serial>,
    category: u8,
    period: u16,
    broadcasts: u16,
    dcs: Dcs,
) -> Result<(), AllocError>
    requires { partial_of line.old ≡ [] }
    ensures fields { OnOk result (fields_of line.new ≡ fields_of line.old
        ++ text_if pair_text old_serial ∷ decimal category ∷ decimal period ∷ decimal broadcasts
        ∷ octet_text dcs.0 ∷ []) }
    ensures whole { OnOk result (partial_of line.new ≡ []) }
{
    let mut digits = Buffer::new();
    push(line, serial_text(alloc, old_serial)?.as_bytes())?;
    push(line, digits.format(category).as_bytes())?;
    push(line, digits.format(period).as_bytes())?;
    push(line, digits.format(broadcasts).as_bytes())?;
    push(line, octet_text(alloc, dcs.0)?.as_bytes())
}

/// Appends an answer, and how many broadcasts it says.
fn push_answer(
    alloc: Global,
    line: &mut ByteRecord,
    answer: Option<CellAnswer>,
) -> Result<(), AllocError>
    requires { partial_of line.old ≡ [] }
    ensures fields { OnOk result (fields_of line.new ≡ fields_of line.old
        ++ answer_text answer ∷ done_text answer ∷ []) }
    ensures whole { OnOk result (partial_of line.new ≡ []) }
{
    push(line, answer_text(alloc, answer)?.as_bytes())?;
    push(line, done_text(alloc, answer)?.as_bytes())
}

/// Appends pages.
fn push_pages(alloc: Global, line: &mut ByteRecord, contents: &[Content]) -> Result<(), AllocError>
    requires { partial_of line.old ≡ [] }
    ensures { OnOk result (fields_of line.new ≡ fields_of line.old ++ map page_text contents.now) }
{
    for content in contents {
        push(line, page_text(alloc, content)?.as_bytes())?;
    }
    Ok(())
}

/// The record that a cell lost its messages.
fn record_of_clear(alloc: Global, at: u64) -> Result<ByteRecord, AllocError>
    ensures { IfOk result (λ line. fields_of line ≡ fields_of_order at CellOrder.Clear) }
{
    let mut slot = Buffer::new();
    ByteRecord::from_fields(alloc, &[b"clear", slot.format(at).as_bytes()])
}

/// The record of a row.
fn record_of(alloc: Global, at: u64, order: &CellOrder) -> Result<ByteRecord, AllocError>
    ensures { IfOk result (λ line. fields_of line ≡ fields_of_order at order.now) }
{
    match order {
        CellOrder::Write {
            id,
            new_serial,
            old_serial,
            category,
            period,
            broadcasts,
            dcs,
            contents,
            answer,
        } => {
            let mut line = head_of(alloc, b"write", at, *id, *new_serial)?;
            push_terms(
                alloc,
                &mut line,
                *old_serial,
                *category,
                *period,
                *broadcasts,
                *dcs,
            )?;
            push_answer(alloc, &mut line, *answer)?;
            push_pages(alloc, &mut line, contents.as_slice())?;
            Ok(line)
        }
        CellOrder::Kill {
            id,
            old_serial,
            answer,
        } => {
            let mut line = head_of(alloc, b"kill", at, *id, *old_serial)?;
            push_answer(alloc, &mut line, *answer)?;
            Ok(line)
        }
        CellOrder::Clear => record_of_clear(alloc, at),
    }
}

/// The text of an orders file, as it is written.
#[derive(Drop)]
struct OrdersText {
    writer: Writer<Vec<u8>>,
}

impl OrdersText {
    /// The text of no row.
    fn new(alloc: Global) -> OrdersText
        ensures { IsText result [] }
    {
        OrdersText {
            writer: WriterBuilder::new()
                .flexible(true)
                .from_writer(Vec::new(alloc)),
        }
    }

    /// Appends a row. A writer to memory fails only if out of memory.
    fn push(&mut self, alloc: Global, row: &OrderRow) -> Result<(), AllocError>
        ensures { OnOk result ((octets : List ℕ) → IsText self.old octets →
            IsText self.new (octets ++ row_line row.now)) }
    {
        let line = record_of(alloc, row.at, &row.order)?;
        match self.writer.write_byte_record(&line) {
            Ok(()) => Ok(()),
            Err(_) => Err(AllocError),
        }
    }

    /// The octets.
    fn into_octets(self) -> Result<Vec<u8>, AllocError>
        ensures { IfOk result (λ octets. (text : List ℕ) → IsText self text → octets.items ≡ text) }
    {
        match self.writer.into_inner() {
            Ok(octets) => Ok(octets),
            Err(_) => Err(AllocError),
        }
    }
}

/// The text of an orders file of rows: a line for each, without a first line of names.
///
/// # Errors
///
/// Out of memory.
pub fn orders_text(alloc: Global, rows: &[OrderRow]) -> Result<Vec<u8>, AllocError>
    ensures { IfOk result (λ octets. octets.items ≡ orders_text rows.now) }
{
    let mut text = OrdersText::new(alloc);
    for row in rows {
        text.push(alloc, row)?;
    }
    text.into_octets()
}
