//! The command `whole`: tapes to tapes in which each page has four blocks.

ghost use Rattle.std.specs.Prelude.{◌≡◌, ◌++◌, [], IfErr, OnOk};
ghost use Rattle.std.specs.Io.KnownBytes.{IsAtEnd};
ghost use Rattle.device_ends.specs.Source.{reader_of};
ghost use Rattle.device_ends.specs.Stream.{FaultOfInput, IsStreamBetween, OutputOfInput};
ghost use Rattle.handset.specs.Tape.{octets_of_blocks, tape_octets};
ghost use Rattle.short_pages.specs.Slots.{completed};
ghost use Rattle.warnc_inspect.specs.ReadOutput.{IsReadTo, IsReadWriteFault};
ghost use Rattle.warnc_inspect.specs.ReadSteps.{fault_of_tapes};
ghost use Rattle.warnc_inspect.specs.WholeOutput.{IsWholeFault, IsWholeOutput, whole_tape};

use crate::read::{ReadCommandFault, fault_of_tapes};
use device_ends::{Failed, Sink, Source, write_all};
use handset::{Recording, TakesRecordings, record_each};
use short_pages::completed_slot;
use std::alloc::{AllocError, Global};
use std::io::{Read, Write};

/// Whole tapes, one after another.
#[derive(Drop)]
struct WholeTapes {
    octets: Vec<u8>,
}

impl WholeTapes {
    /// Appends the whole tape of a recording.
    fn push(&mut self, recording: &Recording) -> Result<(), AllocError>
        ensures { OnOk result (self.new.octets.items ≡ self.old.octets.items ++ whole_tape recording.now) }
    {
        self.octets.extend_from_slice(&header_of(recording))?;
        push_slots(&mut self.octets, recording.blocks())
    }
}

impl TakesRecordings for WholeTapes {
    ghost use Rattle.warnc_inspect.specs.WholeOutput.{whole_tapes};

    ghost Given = { Unit {0} };

    ghost HasTaken = { λ _ tapes recordings. tapes.octets.items ≡ whole_tapes recordings };

    fn take(&mut self, recording: Recording) -> Result<(), AllocError> {
        self.push(&recording)
    }
}

/// The header of the tape of a recording.
fn header_of(recording: &Recording) -> [u8; 8]
    ensures { result ≡ tape_octets recording.now.cell recording.now.slots [] }
{
    let cell = recording.cell();
    let [lac_high, lac_low] = cell.lac.to_be_bytes();
    let [ci_high, ci_low] = cell.ci.to_be_bytes();
    let [first, second, third, fourth] = recording.slots().to_be_bytes();
    [
        lac_high, lac_low, ci_high, ci_low, first, second, third, fourth,
    ]
}

/// Appends the blocks of slots, of which each page has four.
fn push_slots(octets: &mut Vec<u8>, blocks: &[[u8; 23]]) -> Result<(), AllocError>
    ensures { OnOk result (octets.new.items ≡ octets.old.items ++ octets_of_blocks (completed blocks.now)) }
{
    let (slots, rest) = blocks.as_chunks::<4>();
    for slot in slots {
        octets.extend_from_slice(completed_slot(slot).as_flattened())?;
    }
    octets.extend_from_slice(rest.as_flattened())
}

/// Reads 0 to 64 tapes up to the end of the input, and writes them with four blocks of each page: a page of one to
/// three blocks gets those of the page of four that shows the characters that came whole (3GPP TS 44.012, 3.3), and
/// everything else stays as it is. Nothing is written before all of it is made.
///
/// # Errors
///
/// The first [`ReadCommandFault`] that applies, with nothing written but after `WriteFailed`.
pub fn whole_stream<R: Read, W: Write>(
    alloc: Global,
    source: &mut Source<R>,
    sink: &mut Sink<W>,
) -> Result<(), ReadCommandFault>
    // What was written is the whole tapes of those that were read, at any reader of some tapes.
    ensures ok { OnOk result (OutputOfInput R.remaining W.contents IsWholeOutput source.old sink.old sink.new) }
    ensures err { IfErr result (FaultOfInput R.remaining W.contents IsWholeFault source.old sink.old sink.new) }

    // How far the source was read: to its end, or as the fault says and no further.
    ensures whole { OnOk result (IsAtEnd (R.remaining (reader_of source.new))) }
    ensures extent { IfErr result (IsReadTo (R.remaining (reader_of source.old)) (R.remaining (reader_of source.new))) }

    // At any reader and any writer.
    ensures any_ends { IsStreamBetween ReadCommandFault.ReadFailed IsReadWriteFault result W.contents source.old
        source.new sink.old sink.new }
{
    if source.failed() {
        return Err(ReadCommandFault::ReadFailed);
    }
    let mut tapes = WholeTapes {
        octets: Vec::new(alloc),
    };
    match record_each(alloc, source, &mut tapes) {
        Ok(()) => {}
        Err(fault) => return Err(fault_of_tapes(fault)),
    }
    match write_all(sink, &tapes.octets) {
        Ok(()) => Ok(()),
        Err(Failed) => Err(ReadCommandFault::WriteFailed),
    }
}
