//! The command `read`: tapes to a table of what a handset shows of them.

ghost use Rattle.std.specs.Prelude.{◌≡◌, false, true, IfErr, IfOk, IfSome, OnOk};
ghost use Rattle.std.specs.Io.KnownBytes.{IsAtEnd};
ghost use Rattle.device_ends.specs.Source.{reader_of, source_failed};
ghost use Rattle.device_ends.specs.Stream.{FaultOfInput, IsStreamBetween, OutputOfInput, Reads};
ghost use Rattle.handset.specs.Tape.{IsTapesFault, max_tapes, reports_read_failed};
ghost use Rattle.handset.specs.TapeExtent.{StopsAt};
ghost use Rattle.warnc_inspect.specs.ReadOutput.{IsReadOutput, IsReadFault, IsReadTo, IsReadWriteFault};
ghost use Rattle.warnc_inspect.specs.ReadSteps.{IsTableOf, fault_of_tapes};

use crate::air_table::AirTable;
use crate::table::Table;
use device_ends::{Failed, Sink, Source, write_all};
use handset::{TapeFault, read_each, record_each};
use short_pages::Pages;
use std::alloc::Global;
use std::io::{Read, Write};
use thiserror::Error;

/// Why `read` writes no table.
#[derive(Clone, Copy, Debug, PartialEq, Eq, Error)]
pub enum ReadCommandFault {
    /// The input ends inside a tape.
    #[error("tape is short")]
    Short,
    /// The input goes on after the 64th tape, or a tape says that it has more than 65,535 slots.
    #[error("tape is long")]
    Long,
    /// The reader failed.
    #[error("read failed")]
    ReadFailed,
    /// Out of memory.
    #[error("out of memory")]
    Refused,
    /// The writer failed. Some of the table may be out.
    #[error("write failed")]
    WriteFailed,
}

/// Reads 0 to 64 tapes up to the end of the input, and writes a table of the messages that they show by the wanted
/// pages, as CSV: a row of the columns' names, and then a row for each message, tapes in order, messages in the order
/// in which they are shown. Nothing is written before the last tape is read and the table is made; of the tapes no more
/// is kept than their rows, but that for [`Pages::OfAny`] each tape is held whole while it is read.
///
/// # Errors
///
/// The first [`ReadCommandFault`] that applies, with nothing written but after `WriteFailed`.
pub fn read_stream<R: Read, W: Write>(
    alloc: Global,
    source: &mut Source<R>,
    sink: &mut Sink<W>,
    wanted: Pages,
) -> Result<(), ReadCommandFault>
    // What was written is the table of what the tapes show, at any reader of some tapes.
    ensures ok { OnOk result (OutputOfInput R.remaining W.contents (IsReadOutput wanted) source.old sink.old sink.new) }
    ensures err { IfErr result (FaultOfInput R.remaining W.contents (IsReadFault wanted) source.old sink.old sink.new) }

    // How far the source was read: to its end, or as the fault says and no further.
    ensures whole { OnOk result (IsAtEnd (R.remaining (reader_of source.new))) }
    ensures extent { IfErr result (IsReadTo (R.remaining (reader_of source.old)) (R.remaining (reader_of source.new))) }

    // At any reader and any writer.
    ensures any_ends { IsStreamBetween ReadCommandFault.ReadFailed IsReadWriteFault result W.contents source.old
        source.new sink.old sink.new }
{
    let table = match table_of_tapes(alloc, source, wanted) {
        Ok(table) => table,
        Err(fault) => return Err(fault_of_tapes(fault)),
    };
    let Ok(octets) = table.into_octets() else {
        return Err(ReadCommandFault::Refused);
    };
    match write_all(sink, &octets) {
        Ok(()) => Ok(()),
        Err(Failed) => Err(ReadCommandFault::WriteFailed),
    }
}

/// The table of what the tapes of an input show by the wanted pages, which are 0 to 64.
///
/// # Errors
///
/// Those of [`handset::read_tapes`].
pub fn table_of_tapes<R: Read>(
    alloc: Global,
    source: &mut Source<R>,
    wanted: Pages,
) -> Result<Table, TapeFault>
    ensures table { IfOk result (IsTableOf wanted (R.remaining (reader_of source.old))) }
    ensures fault { IfErr result (λ fault. IfSome (R.remaining (reader_of source.old)) (λ input.
        IsTapesFault input fault)) }
    ensures whole { OnOk result (IsAtEnd (R.remaining (reader_of source.new))) }
    ensures extent { IfErr result (λ fault. Reads R.remaining (λ old new. StopsAt max_tapes old new fault)
        source.old source.new) }
    ensures failed { source_failed source.new ≡ reports_read_failed result }
    ensures failed_stays { source_failed source.old ≡ true → source.new ≡ source.old }
{
    if source.failed() {
        return Err(TapeFault::ReadFailed);
    }
    match wanted {
        Pages::OfFour => table_of_four(alloc, source),
        Pages::OfAny => table_of_any(alloc, source),
    }
}

/// The table of what they show by pages of four blocks: each tape is read by pieces.
fn table_of_four<R: Read>(alloc: Global, source: &mut Source<R>) -> Result<Table, TapeFault>
    requires { source_failed source.old ≡ false }
    ensures table { IfOk result (IsTableOf Pages.OfFour (R.remaining (reader_of source.old))) }
    ensures fault { IfErr result (λ fault. IfSome (R.remaining (reader_of source.old)) (λ input.
        IsTapesFault input fault)) }
    ensures whole { OnOk result (IsAtEnd (R.remaining (reader_of source.new))) }
    ensures extent { IfErr result (λ fault. Reads R.remaining (λ old new. StopsAt max_tapes old new fault)
        source.old source.new) }
    ensures failed { source_failed source.new ≡ reports_read_failed result }
{
    let Ok(mut table) = Table::new(alloc) else {
        return Err(TapeFault::Refused);
    };
    read_each(alloc, source, &mut table)?;
    Ok(table)
}

/// The table of what they show by all pages: each tape is held whole while it is read.
fn table_of_any<R: Read>(alloc: Global, source: &mut Source<R>) -> Result<Table, TapeFault>
    requires { source_failed source.old ≡ false }
    ensures table { IfOk result (IsTableOf Pages.OfAny (R.remaining (reader_of source.old))) }
    ensures fault { IfErr result (λ fault. IfSome (R.remaining (reader_of source.old)) (λ input.
        IsTapesFault input fault)) }
    ensures whole { OnOk result (IsAtEnd (R.remaining (reader_of source.new))) }
    ensures extent { IfErr result (λ fault. Reads R.remaining (λ old new. StopsAt max_tapes old new fault)
        source.old source.new) }
    ensures failed { source_failed source.new ≡ reports_read_failed result }
{
    let Ok(table) = Table::new(alloc) else {
        return Err(TapeFault::Refused);
    };
    let mut air = AirTable { alloc, table };
    record_each(alloc, source, &mut air)?;
    Ok(air.table)
}

/// The fault that a fault of tapes is.
pub(crate) fn fault_of_tapes(fault: TapeFault) -> ReadCommandFault
    ensures { result ≡ fault_of_tapes fault }
{
    match fault {
        TapeFault::Short => ReadCommandFault::Short,
        TapeFault::Long => ReadCommandFault::Long,
        TapeFault::ReadFailed => ReadCommandFault::ReadFailed,
        TapeFault::Refused => ReadCommandFault::Refused,
    }
}
