//! The command `page`: one text to the blocks of its pages, and what a handset shows of them; or to a table of them.

ghost use Rattle.std.specs.Prelude.{◌≡◌, ◌≤◌, ◌+◌, ◌++◌, length, string_bytes, IfErr, IfOk, IsSome, OnOk};
ghost use Rattle.std.specs.List.{flat_map};
ghost use Rattle.cbs_page.specs.Coding.{alphabet_of};
ghost use Rattle.cbs_page.specs.Text.{max_pages};
ghost use Rattle.device_ends.specs.Moves.{ConsumesSome};
ghost use Rattle.device_ends.specs.Source.{reader_of};
ghost use Rattle.device_ends.specs.Stream.{FaultOfInput, IsStreamBetween, OutputOfInput};
ghost use Rattle.handset.specs.Keeping.{HasRead, message_shown, messages_shown};
ghost use Rattle.warnc_inspect.specs.PageOutput.{without_final_lf, blocks_of_message, block_line, shown_line};
ghost use Rattle.warnc_inspect.specs.PageOutput.{lines_of, written_as, IsPageOutput, IsPageFault, IsStreamFault};
ghost use Rattle.warnc_inspect.specs.PageOutput.{IsPageWriteFault};

use crate::pages::table_of_pages;
use cbch_blocks::cut;
use cbs_page::{Paged, Serial, TextFault, page_bytes, paginate};
use device_ends::{Failed, ReadFault, Sink, Source, read_up_to, write_all};
use handset::{Handset, Refused, Shown};
use std::alloc::{AllocError, Global};
use std::io::{Read, Write};
use std::str;
use thiserror::Error;

/// The most octets that are read: 16 MiB.
pub const MAX_INPUT: usize = 0x100_0000;

/// What is written of a text's pages.
#[derive(Clone, Copy, Debug, PartialEq, Eq)]
pub enum PageForm {
    /// A line for each block, and then what a handset shows of them.
    Lines,
    /// A table of the pages, as CSV: what the octets of each are, and the text that it shows.
    Table,
}

/// Why `page` writes no page. If several of the first four apply, it is the first of them.
#[derive(Clone, Copy, Debug, PartialEq, Eq, Error)]
pub enum PageFault {
    /// The reader failed.
    #[error("read failed")]
    ReadFailed,
    /// There are more than 16,777,216 octets.
    #[error("text is too long")]
    TooLong,
    /// The octets, without one final LF, aren't UTF-8.
    #[error("text is not UTF-8")]
    NotUtf8,
    /// The text can't be sent.
    #[error("{0}")]
    Text(TextFault),
    /// Out of memory.
    #[error("out of memory")]
    Refused,
    /// The writer failed. Some of the output may be out.
    #[error("write failed")]
    WriteFailed,
}

/// Reads one text, and writes the blocks of its pages, a line each, and then what a handset shows of these blocks; or a
/// table of its pages. One LF at the end of the input isn't part of the text. Nothing is written before all of the
/// output is made.
///
/// # Errors
///
/// The first [`PageFault`] that applies, with nothing written but after `WriteFailed`.
pub fn page_stream<R: Read, W: Write>(
    alloc: Global,
    source: &mut Source<R>,
    sink: &mut Sink<W>,
    form: PageForm,
    language: &str,
    id: u16,
    serial: Serial,
) -> Result<(), PageFault>
    // What was written is what the definitions make of the octets that were read, at any reader of some octets.
    ensures ok { OnOk result (OutputOfInput R.remaining W.contents (IsPageOutput form language.now id serial)
        source.old sink.old sink.new) }
    ensures err { IfErr result (FaultOfInput R.remaining W.contents (IsStreamFault form language.now id serial)
        source.old sink.old sink.new) }

    // One octet past the bound is read at most.
    ensures reads { ConsumesSome (R.remaining (reader_of source.old)) (R.remaining (reader_of source.new))
        (MAX_INPUT + 1) }

    // At any reader and any writer.
    ensures any_ends { IsStreamBetween PageFault.ReadFailed IsPageWriteFault result W.contents source.old source.new
        sink.old sink.new }
{
    let input = match read_up_to(source, alloc, MAX_INPUT) {
        Ok(input) => input,
        Err(ReadFault::Device) => return Err(PageFault::ReadFailed),
        Err(ReadFault::Refused) => return Err(PageFault::Refused),
    };
    let output = match page_output(alloc, &input, form, language, id, serial) {
        Ok(output) => output,
        Err(fault) => return Err(fault),
    };
    match write_all(sink, &output) {
        Ok(()) => Ok(()),
        Err(Failed) => Err(PageFault::WriteFailed),
    }
}

/// What is written for the octets that were read.
fn page_output(
    alloc: Global,
    input: &[u8],
    form: PageForm,
    language: &str,
    id: u16,
    serial: Serial,
) -> Result<Vec<u8>, PageFault>
    ensures output { IfOk result (λ output. IsPageOutput form language.now id serial input.now output.items) }
    ensures fault { IfErr result (IsPageFault language.now input.now) }
{
    if input.len() > MAX_INPUT {
        return Err(PageFault::TooLong);
    }
    let text = match str::from_utf8(text_octets(input)) {
        Ok(text) => text,
        Err(_) => return Err(PageFault::NotUtf8),
    };
    let paged = match paginate(alloc, text, language) {
        Ok(paged) => paged,
        Err(TextFault::Refused) => return Err(PageFault::Refused),
        Err(fault) => return Err(PageFault::Text(fault)),
    };
    match written_as(alloc, form, id, serial, &paged) {
        Ok(output) => Ok(output),
        Err(_) => Err(PageFault::Refused),
    }
}

/// A message as it is written in a form.
fn written_as(
    alloc: Global,
    form: PageForm,
    id: u16,
    serial: Serial,
    paged: &Paged,
) -> Result<Vec<u8>, AllocError>
    requires few { length paged.now.pages.items ≤ max_pages }
    requires known { IsSome (alphabet_of paged.now.dcs.0) }
    ensures { IfOk result (λ output. output.items ≡ written_as form id serial paged.now) }
{
    match form {
        PageForm::Lines => {
            let lines = lines_of(alloc, id, serial, paged)?;
            Ok(lines.into_bytes())
        }
        PageForm::Table => table_of_pages(alloc, id, serial, paged),
    }
}

/// The lines of a message's blocks, and of what they show.
fn lines_of(alloc: Global, id: u16, serial: Serial, paged: &Paged) -> Result<String, AllocError>
    requires { length paged.now.pages.items ≤ max_pages }
    ensures { IfOk result (λ output. string_bytes output ≡ lines_of (blocks_of_message id serial paged.now)) }
{
    let blocks = blocks_of(alloc, id, serial, paged)?;
    let Ok(handset) = feed_all(alloc, &blocks) else {
        return Err(AllocError);
    };
    let mut output = String::new(alloc);
    push_block_lines(alloc, &mut output, &blocks)?;
    push_message_lines(alloc, &mut output, handset.shown())?;
    Ok(output)
}

/// A handset that has read these blocks.
fn feed_all(alloc: Global, blocks: &[[u8; 23]]) -> Result<Handset, Refused>
    ensures { IfOk result (λ handset. HasRead handset blocks.now) }
{
    let mut handset = Handset::new(alloc);
    for block in blocks {
        handset.feed(block)?;
    }
    Ok(handset)
}

/// The octets of the text: one LF at the end isn't part of it.
fn text_octets(input: &[u8]) -> &[u8]
    ensures { result.now ≡ without_final_lf input.now }
{
    match input.split_last() {
        Some((b'\n', text)) => text,
        _ => input,
    }
}

/// The blocks of a message, in the order in which they are sent.
fn blocks_of(
    alloc: Global,
    id: u16,
    serial: Serial,
    paged: &Paged,
) -> Result<Vec<[u8; 23]>, AllocError>
    requires { length paged.now.pages.items ≤ max_pages }
    ensures { IfOk result (λ blocks. blocks.items ≡ blocks_of_message id serial paged.now) }
{
    let total = paged.pages.len() as u8;
    let mut blocks = Vec::new(alloc);
    for (place, content) in paged.pages.iter().enumerate() {
        let number = place as u8 + 1;
        let page = page_bytes(id, serial, paged.dcs, number, total, &content.octets);
        blocks.extend_from_slice(&cut(&page))?;
    }
    Ok(blocks)
}

/// Appends a line for each block.
fn push_block_lines(
    alloc: Global,
    output: &mut String,
    blocks: &[[u8; 23]],
) -> Result<(), AllocError>
    ensures { OnOk result (string_bytes output.new ≡ string_bytes output.old ++ flat_map block_line blocks.now) }
{
    for block in blocks {
        let digits = hex::encode(alloc, block.as_slice())?;
        output.push_str(&digits)?;
        output.push('\n')?;
    }
    Ok(())
}

/// Appends a line for each shown message.
fn push_message_lines(alloc: Global, output: &mut String, shown: &[Shown]) -> Result<(), AllocError>
    ensures { OnOk result (string_bytes output.new ≡ string_bytes output.old ++ flat_map shown_line
        (messages_shown shown.now)) }
{
    for message in shown {
        push_message_line(alloc, output, message)?;
    }
    Ok(())
}

/// Appends the line of a shown message.
fn push_message_line(alloc: Global, output: &mut String, message: &Shown) -> Result<(), AllocError>
    ensures { OnOk result (string_bytes output.new ≡ string_bytes output.old ++ shown_line
        (message_shown message.now)) }
{
    let id = message.id.to_string(alloc)?;
    let serial = hex::encode(alloc, message.serial.number().to_be_bytes().as_slice())?;
    output.push_str(&id)?;
    output.push(' ')?;
    output.push_str(&serial)?;
    output.push(' ')?;
    output.push_str(&message.text)?;
    output.push('\n')
}
