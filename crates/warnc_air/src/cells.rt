//! The command `cells`: a capture file to a table of who sends in it.

ghost use Rattle.std.specs.Prelude.{◌≡◌, ◌+◌, ◌++◌, IfErr, IfOk, OnOk, string_bytes};
ghost use Rattle.std.specs.List.{flat_map};
ghost use Rattle.std.specs.Option.{option_map};
ghost use Rattle.device_ends.specs.Moves.{ConsumesSome};
ghost use Rattle.device_ends.specs.Source.{reader_of};
ghost use Rattle.device_ends.specs.Stream.{FaultOfInput, IsStreamBetween, OutputOfInput};
ghost use Rattle.gsmtap.specs.Carried.{summary_of};
ghost use Rattle.warnc_air.specs.TapeOutput.{IsCellsFault, IsCellsOutput, IsTapeWriteFault};
ghost use Rattle.warnc_air.specs.TapeOutput.{address_text, carried_text, channel_text, columns_text};
ghost use Rattle.warnc_air.specs.TapeOutput.{joined_text, row_text};
ghost use Rattle.warnc_air.specs.TapeOutput.{seconds_text, sender_text, three_digits, time_text, times_text};

use crate::reading::walk_over;
use crate::tape::{MAX_INPUT, TapeCommandFault, fault_of_air};
use device_ends::{Failed, ReadFault, Sink, Source, write_all};
use gsmtap::{Carried, ChannelType, Heard, SenderRow, SenderTable, Walk};
use std::alloc::{AllocError, Global};
use std::io::{Read, Write};

/// The names of the columns.
const COLUMNS: &str =
    "source,arfcn,channel,blocks,first,last,slots,pages,identifiers,first_time,last_time\n";

/// Reads a capture file, and writes a table of who sends blocks of a cell broadcast channel in it, as CSV: the source
/// address, the radio channel, the word of the channel that the packets name, how many packets have a block, and the
/// numbers of the first and the last of them; of the tape that these blocks make alone the number of its slots and of
/// its pages, and their message identifiers, which are empty if they make none; and when the first packet and the last
/// one came, in seconds from 1970-01-01T00:00:00Z on, which is empty if the file doesn't say it. Nothing is written
/// before all of the table is made. The file isn't kept, nor any of its packets.
pub fn cells_stream<R: Read, W: Write>(
    alloc: Global,
    source: &mut Source<R>,
    sink: &mut Sink<W>,
) -> Result<(), TapeCommandFault>
    // What was written is the table of the file that was read, at any reader of some file.
    ensures ok { OnOk result (OutputOfInput R.remaining W.contents IsCellsOutput source.old sink.old sink.new) }
    ensures err { IfErr result (FaultOfInput R.remaining W.contents IsCellsFault source.old sink.old sink.new) }

    // One octet past the bound is read at most.
    ensures reads { ConsumesSome (R.remaining (reader_of source.old)) (R.remaining (reader_of source.new))
        (MAX_INPUT + 1) }

    // At any reader and any writer.
    ensures any_ends { IsStreamBetween TapeCommandFault.ReadFailed IsTapeWriteFault result W.contents source.old
        source.new sink.old sink.new }
{
    if source.failed() {
        return Err(TapeCommandFault::ReadFailed);
    }
    let mut walk = Walk::new(alloc, SenderTable::new(alloc));
    let count = match walk_over(alloc, source, &mut walk) {
        Ok(count) => count,
        Err(ReadFault::Device) => return Err(TapeCommandFault::ReadFailed),
        Err(ReadFault::Refused) => return Err(TapeCommandFault::Refused),
    };
    if count > MAX_INPUT {
        return Err(TapeCommandFault::TooLong);
    }
    let senders = match walk.end() {
        Ok(senders) => senders,
        Err(fault) => return Err(fault_of_air(fault)),
    };
    let Ok(rows) = senders.rows() else {
        return Err(TapeCommandFault::Refused);
    };
    let Ok(output) = table_of(alloc, &rows) else {
        return Err(TapeCommandFault::Refused);
    };
    match write_all(sink, output.as_bytes()) {
        Ok(()) => Ok(()),
        Err(Failed) => Err(TapeCommandFault::WriteFailed),
    }
}

/// The table of who sends in a capture file.
fn table_of(alloc: Global, rows: &[SenderRow]) -> Result<String, AllocError>
    ensures { IfOk result (λ text. string_bytes text ≡ columns_text ++ flat_map row_text rows.now) }
{
    let mut text = String::from_str(alloc, COLUMNS)?;
    for row in rows {
        text.push_str(&row_text(alloc, row)?)?;
    }
    Ok(text)
}

/// The line of a sender.
fn row_text(alloc: Global, row: &SenderRow) -> Result<String, AllocError>
    ensures { IfOk result (λ text. string_bytes text ≡ row_text row.now) }
{
    let mut text = sender_text(alloc, &row.heard)?;
    text.push_str(&carried_text(alloc, &row.carried)?)?;
    text.push_str(&times_text(alloc, row.first_time, row.last_time)?)?;
    text.push_str("\n")?;
    Ok(text)
}

/// The columns of when a sender's first and last packets came, and the commas before them.
fn times_text(alloc: Global, first: Option<u64>, last: Option<u64>) -> Result<String, AllocError>
    ensures { IfOk result (λ text. string_bytes text ≡ times_text first last) }
{
    let first = time_text(alloc, first)?;
    let last = time_text(alloc, last)?;
    format!(in alloc; ",{first},{last}")
}

/// A time in seconds with nine decimals, or nothing.
fn time_text(alloc: Global, time: Option<u64>) -> Result<String, AllocError>
    ensures { IfOk result (λ text. string_bytes text ≡ time_text time) }
{
    match time {
        Some(time) => seconds_text(alloc, time),
        None => Ok(String::new(alloc)),
    }
}

/// Nanoseconds as seconds with nine decimals.
pub(crate) fn seconds_text(alloc: Global, time: u64) -> Result<String, AllocError>
    ensures { IfOk result (λ text. string_bytes text ≡ seconds_text time) }
{
    let second = time / 1_000_000_000;
    let thousandths = three_digits(alloc, time / 1_000_000 % 1000)?;
    let millionths = three_digits(alloc, time / 1000 % 1000)?;
    let billionths = three_digits(alloc, time % 1000)?;
    format!(in alloc; "{second}.{thousandths}{millionths}{billionths}")
}

/// The three digits of a number below 1,000.
fn three_digits(alloc: Global, number: u64) -> Result<String, AllocError>
    ensures { IfOk result (λ text. string_bytes text ≡ three_digits number) }
{
    let (first, second, third) = (number / 100, number / 10 % 10, number % 10);
    format!(in alloc; "{first}{second}{third}")
}

/// The first columns of a sender.
fn sender_text(alloc: Global, one: &Heard) -> Result<String, AllocError>
    ensures { IfOk result (λ text. string_bytes text ≡ sender_text one.now) }
{
    let address = address_text(alloc, one.station.address)?;
    let channel = channel_text(one.station.channel);
    let (arfcn, blocks) = (one.station.arfcn, one.blocks);
    let (first, last) = (one.first, one.last);
    format!(in alloc; "{address},{arfcn},{channel},{blocks},{first},{last}")
}

/// The columns of what a sender's blocks carry, and the commas before them.
fn carried_text(alloc: Global, carried: &Option<Carried>) -> Result<String, AllocError>
    ensures { IfOk result (λ text. string_bytes text ≡ carried_text (option_map summary_of carried.now)) }
{
    let Some(carried) = carried else {
        return String::from_str(alloc, ",,,");
    };
    let (slots, pages) = (carried.slots, carried.pages);
    let identifiers = joined_text(alloc, &carried.identifiers)?;
    format!(in alloc; ",{slots},{pages},{identifiers}")
}

/// Numbers, with one space between two.
fn joined_text(alloc: Global, numbers: &[u16]) -> Result<String, AllocError>
    ensures { IfOk result (λ text. string_bytes text ≡ joined_text numbers.now) }
{
    let Some((first, rest)) = numbers.split_first() else {
        return Ok(String::new(alloc));
    };
    let mut text = format!(in alloc; "{first}")?;
    for next in rest {
        text.push_str(&format!(in alloc; " {next}")?)?;
    }
    Ok(text)
}

/// An IPv4 address, with dots between its octets.
fn address_text(alloc: Global, address: u32) -> Result<String, AllocError>
    ensures { IfOk result (λ text. string_bytes text ≡ address_text address) }
{
    let [a, b, c, d] = address.to_be_bytes();
    format!(in alloc; "{a}.{b}.{c}.{d}")
}

/// The word of a channel, as `tape` takes it.
fn channel_text(channel: ChannelType) -> &'static str
    ensures { result.now ≡ channel_text channel }
{
    match channel {
        ChannelType::Cbch => "cbch",
        ChannelType::Sdcch => "sdcch",
    }
}
