//! Pieces of tapes: so small that a processor's own memory holds one from when it is made until it is written.

ghost use Rattle.std.specs.Prelude.{◌≡◌, ◌++◌, ◌+◌, ◌*◌, ◌<◌, ◌≤◌, [], true, drop, is_err, length, take, vec_capacity};
ghost use Rattle.std.specs.Prelude.{vec_len, IfErr, IfOk, IsOk, OnOk};
ghost use Rattle.std.specs.Io.KnownBytes.{Appends};
ghost use Rattle.device_ends.specs.Sink.{sink_failed, writer_of};
ghost use Rattle.device_ends.specs.Stream.{Writes};
ghost use Rattle.cbch_blocks.specs.PieceLaws.{PiecesAreShort, PiecesFollow, PiecesHaveOctets, PiecesStart};
ghost use Rattle.cbch_blocks.specs.PieceLaws.{TapesBegin, TapesEnd};
ghost use Rattle.cbch_blocks.specs.Pieces.{header_before, most_piece_slots, piece_from, piece_start};
ghost use Rattle.cbch_blocks.specs.TapeSteps.{HasRoom};

use crate::slot::put_slots;
use crate::tape::{HEADER, Refused, SLOT, WriteFailed, header_of, write_octets};
use bsc_table::{Aired, CellRecord};
use device_ends::Sink;
use std::alloc::Global;
use std::io::Write;
use std::marker::Model;

/// How many slots a piece has at most (own).
pub const PIECE_SLOTS: u16 = 256;

/// A piece of a tape, at most 256 slots of it; that of slot 0 begins with the tape's header. It has room for each
/// piece of any tape, so that pieces that are written one after the other need the memory of one. In clauses it is its
/// octets.
#[derive(Debug, Drop)]
pub struct TapePiece {
    octets: Vec<u8>,
}

impl Model for TapePiece {
    ghost use Rattle.std.specs.Prelude.{ℕ, List, ◌≤◌, vec_capacity};
    ghost use Rattle.cbch_blocks.specs.Pieces.{piece_size};

    ghost Value = { List ℕ };

    ghost view = { λ piece. piece.octets.items };

    ghost invariant = { λ piece. piece_size ≤ vec_capacity piece.octets };
}

impl TapePiece {
    /// A piece without octets. Takes the memory for those of any piece at once, and no other.
    ///
    /// # Errors
    ///
    /// Returns [`Refused`] if out of memory.
    pub fn open(alloc: Global) -> Result<TapePiece, Refused>
        ensures { IfOk result (λ piece. piece ≡ []) }
    {
        let octets = Vec::with_capacity(alloc, HEADER + SLOT * usize::from(PIECE_SLOTS))?;
        Ok(TapePiece { octets })
    }

    /// Becomes the piece of a record's tape whose first slot is this. Takes no memory.
    pub fn become_that_of(&mut self, run: &CellRecord, first: u16)
        ensures { self.new ≡ piece_from first run.now }
    {
        self.octets.clear();
        let _ = put_piece(&mut self.octets, run, first);
    }

    /// The octets, at most 8 + 92 * 256 of them.
    pub fn bytes(&self) -> &[u8]
        ensures { result.now ≡ self.now }
    {
        self.octets.as_slice()
    }

    /// Writes all octets, and takes no memory.
    ///
    /// # Errors
    ///
    /// Returns [`WriteFailed`] exactly if the sink has failed, with how many of the first octets went out. A sink that
    /// had failed before takes none.
    pub fn write_to<W: Write>(&self, sink: &mut Sink<W>) -> Result<(), WriteFailed>
        ensures ok { OnOk result (Appends (W.contents (writer_of sink.old))
            (W.contents (writer_of sink.new)) self.now) }
        ensures err { IfErr result (λ fault. Writes W.contents (λ old new.
            Appends old new (take fault.written self.now)) sink.old sink.new) }

        // At any writer.
        ensures front { IfErr result (λ fault. 0 < length self.now → fault.written < length self.now) }
        ensures failed { sink_failed sink.new ≡ is_err result }
        ensures failed_stays { sink_failed sink.old ≡ true → sink.new ≡ sink.old }
    {
        write_octets(self.bytes(), sink)
    }
}

/// How many octets of a tape are before its piece whose first slot is this.
pub fn piece_start(first: u16) -> u64
    ensures { result ≡ piece_start first }
{
    if first == 0 {
        0
    } else {
        (HEADER + SLOT * usize::from(first)) as u64
    }
}

/// What the slots of a piece air, of which this is the first.
fn slots_from(air: &[Option<Aired>], first: u16) -> &[Option<Aired>]
    ensures { result.now ≡ take most_piece_slots (drop first air.now) }
{
    let from = usize::from(first).min(air.len());
    let rest = &air[from..];
    let count = usize::from(PIECE_SLOTS).min(rest.len());
    &rest[..count]
}

/// Appends the header of a record's tape, if this slot is its first. Takes no memory where there is room for it.
fn put_header(octets: &mut Vec<u8>, run: &CellRecord, first: u16) -> Result<(), Refused>
    ensures put { OnOk result (octets.new.items ≡ octets.old.items ++ header_before first run.now) }
    ensures len { OnOk result (vec_len octets.new ≡ vec_len octets.old + length (header_before first run.now)) }
    ensures room { HasRoom octets.old (header_before first run.now) → IsOk result }
    ensures capacity { vec_capacity octets.old ≤ vec_capacity octets.new }
{
    if first > 0 {
        return Ok(());
    }
    octets.extend_from_slice(&header_of(run.cell(), run.slots()))
}

/// Appends a piece of a record's tape. Takes no memory where there is room for its octets.
fn put_piece(octets: &mut Vec<u8>, run: &CellRecord, first: u16) -> Result<(), Refused>
    ensures put { OnOk result (octets.new.items ≡ octets.old.items ++ piece_from first run.now) }
    ensures room { HasRoom octets.old (piece_from first run.now) → IsOk result }
    ensures capacity { vec_capacity octets.old ≤ vec_capacity octets.new }
{
    // Each used slot airs a page of an accepted write of the log.
    bsc_table::legal_histories();
    let _ = run.slots();
    put_header(octets, run, first)?;
    put_slots(octets, run.log(), slots_from(run.air(), first))
}

/// The pieces of a tape from slot 0 on, each 256 slots behind the one before it, are the tape. It does nothing: its
/// contract is the law.
pub fn piece_laws()
    ensures begin { TapesBegin }
    ensures follow { PiecesFollow }
    ensures end { TapesEnd }
    ensures octets { PiecesHaveOctets }
    ensures start { PiecesStart }
    ensures short { PiecesAreShort }
{}
