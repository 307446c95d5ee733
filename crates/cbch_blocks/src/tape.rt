//! Tapes: the octets of a record's blocks, behind a header that says its cell and how many slots it has.

ghost use Rattle.std.specs.Prelude.{◌≡◌, ◌↔◌, ◌++◌, ◌+◌, ◌*◌, ◌<◌, ◌≤◌, true, is_err, length, take, IfErr, IfOk, IsOk};
ghost use Rattle.std.specs.Prelude.{IsTrue, OnOk};
ghost use Rattle.std.specs.Io.KnownBytes.{Appends};
ghost use Rattle.device_ends.specs.Sink.{sink_failed, writer_of};
ghost use Rattle.device_ends.specs.Stream.{Writes};
ghost use Rattle.cbch_blocks.specs.Blocks.{blocks_of_page};
ghost use Rattle.cbch_blocks.specs.RecordBlocks.{tape_header, tape_of_record};
ghost use Rattle.cbch_blocks.specs.Slots.{silent_record, with_slot};
ghost use Rattle.cbch_blocks.specs.TapeSteps.{HasRoom};

use crate::blocks::{cut, idle};
use crate::front::strip_front;
use crate::slot::{put_slots, strip_slot};
use bsc_table::CellRecord;
use cbs_page::PAGE_OCTETS;
use cbsp_wire::Cell;
use device_ends::{Sink, write_front};
use std::alloc::Global;
use std::io::Write;
use std::marker::Model;
use thiserror::Error;

/// Out of memory.
pub use std::alloc::AllocError as Refused;

/// How many octets the header of a tape has.
pub(crate) const HEADER: usize = 8;

/// How many octets the blocks of a slot have.
pub(crate) const SLOT: usize = 92;

/// A tape could not be written whole.
#[derive(Clone, Copy, Debug, PartialEq, Eq, Error)]
#[error("write failed")]
pub struct WriteFailed {
    /// How many octets of the tape went out: its first ones.
    pub written: u64,
}

/// The tape of a record: the location area code and the cell identity of its cell in two octets each, the number of its
/// slots in four, high octets first, and then the four blocks of each slot, of 23 octets each. In clauses it is its
/// octets.
#[derive(Debug, Drop)]
pub struct Tape {
    octets: Vec<u8>,
}

impl Model for Tape {
    ghost use Rattle.std.specs.Prelude.{ℕ, List};

    ghost Value = { List ℕ };

    ghost view = { λ tape. tape.octets.items };
}

impl Tape {
    /// The tape of a cell that airs nothing in its run of `slots` slots. Takes the memory for all its octets at once,
    /// and no other.
    ///
    /// # Errors
    ///
    /// Returns [`Refused`] if out of memory.
    pub fn open(alloc: Global, cell: Cell, slots: u16) -> Result<Tape, Refused>
        ensures { IfOk result (λ tape. tape ≡ tape_of_record (silent_record cell slots)) }
    {
        let mut octets = Vec::with_capacity(alloc, HEADER + SLOT * usize::from(slots))?;
        octets.extend_from_slice(&header_of(cell, slots))?;
        let blocks = idle();
        let idle = blocks.as_flattened();
        for _ in 0..slots {
            octets.extend_from_slice(idle)?;
        }
        Ok(Tape { octets })
    }

    /// Has a slot of the tape air a page: the blocks of the slot become those of the page, and no other octet changes.
    /// Takes no memory.
    pub fn set(&mut self, slot: u16, page: &[u8; PAGE_OCTETS])
        requires { 8 + 92 * (slot + 1) ≤ length self.old }
        ensures set { self.new ≡ with_slot slot (blocks_of_page page.now) self.old }
        ensures long { length self.new ≡ length self.old }
        ensures headed { take 8 self.new ≡ take 8 self.old }
    {
        let first = HEADER + SLOT * slot as usize;
        let blocks = cut(page);
        self.octets[first..first + SLOT].copy_from_slice(blocks.as_flattened());
    }

    /// Whether the tape is that of a record. Takes no memory.
    pub fn is_of(&self, run: &CellRecord) -> bool
        ensures { IsTrue result ↔ (self.now ≡ tape_of_record run.now) }
    {
        // Each used slot airs a page of an accepted write of the log.
        bsc_table::legal_histories();
        let header = header_of(run.cell(), run.slots());
        let Some(mut left) = strip_front(self.bytes(), &header) else {
            return false;
        };
        // The octets of an idle slot are made once, as most slots are idle.
        let blocks = idle();
        let idle = blocks.as_flattened();
        for used in run.air() {
            match strip_slot(left, idle, run.log(), *used) {
                Some(rest) => left = rest,
                None => return false,
            }
        }
        left.is_empty()
    }

    /// The octets, at most 8 + 92 * 65,535 of them.
    pub fn bytes(&self) -> &[u8]
        ensures { result.now ≡ self.now }
    {
        self.octets.as_slice()
    }

    /// Writes all octets, and takes no memory.
    ///
    /// # Errors
    ///
    /// Returns [`WriteFailed`] exactly if the sink has failed, with how many of the first octets went out. A sink that
    /// had failed before takes none.
    pub fn write_to<W: Write>(&self, sink: &mut Sink<W>) -> Result<(), WriteFailed>
        ensures ok { OnOk result (Appends (W.contents (writer_of sink.old))
            (W.contents (writer_of sink.new)) self.now) }
        ensures err { IfErr result (λ fault. Writes W.contents (λ old new.
            Appends old new (take fault.written self.now)) sink.old sink.new) }

        // At any writer.
        ensures front { IfErr result (λ fault. 0 < length self.now → fault.written < length self.now) }
        ensures failed { sink_failed sink.new ≡ is_err result }
        ensures failed_stays { sink_failed sink.old ≡ true → sink.new ≡ sink.old }
    {
        write_octets(self.bytes(), sink)
    }
}

/// Writes octets of a tape, and takes no memory.
///
/// # Errors
///
/// Those of [`Tape::write_to`].
pub(crate) fn write_octets<W: Write>(octets: &[u8], sink: &mut Sink<W>) -> Result<(), WriteFailed>
    ensures ok { OnOk result (Appends (W.contents (writer_of sink.old))
        (W.contents (writer_of sink.new)) octets.now) }
    ensures err { IfErr result (λ fault. Writes W.contents (λ old new.
        Appends old new (take fault.written octets.now)) sink.old sink.new) }
    ensures front { IfErr result (λ fault. 0 < length octets.now → fault.written < length octets.now) }
    ensures failed { sink_failed sink.new ≡ is_err result }
    ensures failed_stays { sink_failed sink.old ≡ true → sink.new ≡ sink.old }
{
    let written = write_front(sink, octets);
    if sink.failed() {
        Err(WriteFailed {
            written: written as u64,
        })
    } else {
        Ok(())
    }
}

/// The header of a tape.
pub(crate) fn header_of(cell: Cell, slots: u16) -> [u8; HEADER]
    ensures { result ≡ tape_header cell slots }
{
    let [lac_high, lac_low] = cell.lac.to_be_bytes();
    let [ci_high, ci_low] = cell.ci.to_be_bytes();
    let [first, second, third, fourth] = u32::from(slots).to_be_bytes();
    [
        lac_high, lac_low, ci_high, ci_low, first, second, third, fourth,
    ]
}

/// Appends the tape of a record. Takes no memory where there is room for its octets.
fn put_tape(octets: &mut Vec<u8>, run: &CellRecord) -> Result<(), Refused>
    ensures put { OnOk result (octets.new.items ≡ octets.old.items ++ tape_of_record run.now) }
    ensures room { HasRoom octets.old (tape_of_record run.now) → IsOk result }
{
    // Each used slot airs a page of an accepted write of the log.
    bsc_table::legal_histories();
    octets.extend_from_slice(&header_of(run.cell(), run.slots()))?;
    put_slots(octets, run.log(), run.air())
}

/// The tape of the record of a run. Takes the memory for all its octets at once, and no other.
///
/// # Errors
///
/// Returns [`Refused`] if out of memory.
pub fn tape_of(alloc: Global, run: &CellRecord) -> Result<Tape, Refused>
    ensures { IfOk result (λ tape. tape ≡ tape_of_record run.now) }
{
    let mut octets = Vec::with_capacity(alloc, HEADER + SLOT * usize::from(run.slots()))?;
    put_tape(&mut octets, run)?;
    Ok(Tape { octets })
}
