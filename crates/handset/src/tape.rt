//! Tapes (this project's own format): what a cell's broadcast channel sent, slot by slot, and what a handset shows of
//! it. A tape is its cell (LAC 2 octets, CI 2), the number of its slots (4), and four blocks of 23 octets for each,
//! high octets first; several tapes follow each other with nothing between. `specs/Tape.antt` says which octets are
//! tapes, and what they say and show.

ghost use Rattle.std.specs.Prelude.{◌≡◌, ◌≢◌, ◌+◌, ◌*◌, ◌<◌, ◌≤◌, ◌++◌, ℕ, List, false, true, is_err, length, IfErr};
ghost use Rattle.std.specs.Prelude.{IfOk, IfSome, IfNone, OnOk, vec_len, [], ◌∷◌, MatchBool};
ghost use Rattle.std.specs.Io.KnownBytes.{Consumes, IsAtEnd};
ghost use Rattle.std.specs.Option.{option_to_list};
ghost use Rattle.device_ends.specs.Source.{reader_of, source_failed};
ghost use Rattle.device_ends.specs.Stream.{Reads};
ghost use Rattle.handset.specs.Reception.{shown_in};
ghost use Rattle.handset.specs.Keeping.{HasRead, messages_shown};
ghost use Rattle.handset.specs.Tape.{TapeReading, cell_in, slots_in, max_slots, max_tapes, reading_of, readings_of};
ghost use Rattle.handset.specs.Tape.{AreTapes, AreTaken, reports_read_failed};
ghost use Rattle.handset.specs.Tape.{IsTape, IsTapeFault, IsTapesFault};
ghost use Rattle.handset.specs.declared.tape.TapeFault.TheVariants.{ReadFailed, Refused};
ghost use Rattle.handset.specs.TapeExtent.{StopsAt};
ghost use Rattle.handset.specs.TapeSteps.{IsNextTapeFault, NextStopsAt, ReadsBlocks, ReadsCount, ReadsFewer};
ghost use Rattle.handset.specs.TapeSteps.{ReadsPiece};
ghost use Rattle.handset.specs.TapeSteps.{ReadsHeader, ReadsTape, StopsInOctets};

use crate::input::read_front;
use crate::{Handset, Shown};
use cbsp_wire::Cell;
use device_ends::{Failed, Source};
use std::alloc::{AllocError, Global};
use std::io::Read;
use thiserror::Error;

/// The most slots of a tape.
pub const MAX_SLOTS: u32 = 65_535;

/// The most tapes of an input.
pub const MAX_TAPES: usize = 64;

/// How many octets the blocks of a slot have.
pub(crate) const SLOT: usize = 92;

/// How many slots are read at a time at most: their octets are just under 64 KiB.
const PIECE_SLOTS: usize = 712;

/// How many octets these slots have.
const PIECE: usize = PIECE_SLOTS * SLOT;

/// What a tape says and shows.
#[derive(Drop, Debug)]
pub struct Reading {
    /// The cell whose channel it is.
    pub cell: Cell,
    /// How many slots it has, at most 65,535.
    pub slots: u32,
    /// The messages that a handset shows of its blocks, in order.
    pub shown: Vec<Shown>,
}

/// Why an input gives no readings.
#[derive(Clone, Copy, Debug, PartialEq, Eq, Error)]
pub enum TapeFault {
    /// The input ends inside a tape.
    #[error("tape is short")]
    Short,
    /// The input goes on after its last tape, or a tape has more than 65,535 slots.
    #[error("tape is long")]
    Long,
    /// The reader failed.
    #[error("read failed")]
    ReadFailed,
    /// Out of memory.
    #[error("out of memory")]
    Refused,
}

// By hand, as the two below: a derived conversion has no contract, and `?` is to give a fault that clauses name.
impl From<Failed> for TapeFault {
    ghost from_gives = { λ _ fault. fault ≡ ReadFailed };

    fn from(_failed: Failed) -> TapeFault {
        TapeFault::ReadFailed
    }
}

impl From<AllocError> for TapeFault {
    ghost from_gives = { λ _ fault. fault ≡ Refused };

    fn from(_error: AllocError) -> TapeFault {
        TapeFault::Refused
    }
}

/// Reads one tape, after which the input is to end.
///
/// # Errors
///
/// [`TapeFault::Short`] if the input ends before its tape does, [`TapeFault::Long`] if it goes on after the
/// tape or the header says more than 65,535 slots, [`TapeFault::ReadFailed`] exactly if the source has failed, now or
/// earlier, and [`TapeFault::Refused`] if out of memory. Of a long input no more is read than the header that says
/// too many slots, or one octet after the tape.
pub fn read_tape<R: Read>(alloc: Global, source: &mut Source<R>) -> Result<Reading, TapeFault>
    ensures ok { IfOk result (λ reading. IfSome (R.remaining (reader_of source.old)) (λ input.
        IsTape input (reading_of reading))) }
    ensures fault { IfErr result (λ fault. IfSome (R.remaining (reader_of source.old)) (λ input.
        IsTapeFault input fault)) }

    // How far the source was read: to its end, or as the fault says and no further.
    ensures whole { OnOk result (IsAtEnd (R.remaining (reader_of source.new))) }
    ensures extent { IfErr result (λ fault. Reads R.remaining (λ old new. StopsAt 1 old new fault)
        source.old source.new) }

    // At any reader.
    ensures tape { IfOk result (λ reading. (octets : List ℕ) × IsTape octets (reading_of reading)) }
    ensures failed { source_failed source.new ≡ reports_read_failed result }
    ensures failed_stays { source_failed source.old ≡ true → source.new ≡ source.old }
{
    if source.failed() {
        return Err(TapeFault::ReadFailed);
    }
    let mut piece = zeros(alloc, PIECE)?;
    let reading = match next_tape(alloc, source, &mut piece) {
        Ok(Some(reading)) => reading,
        Ok(None) => return Err(TapeFault::Short),
        Err(fault) => return Err(fault),
    };
    match is_at_end(source) {
        Ok(true) => Ok(reading),
        Ok(false) => Err(TapeFault::Long),
        Err(Failed) => Err(TapeFault::ReadFailed),
    }
}

/// Reads tapes up to the end of the input, at most 64; an input of no octets has none.
///
/// # Errors
///
/// Those of [`read_tape`]: an input is short if it ends inside one of its tapes, and long if it goes on after the 64th
/// or has a header of too many slots.
pub fn read_tapes<R: Read>(alloc: Global, source: &mut Source<R>) -> Result<Vec<Reading>, TapeFault>
    ensures ok { IfOk result (λ tapes. IfSome (R.remaining (reader_of source.old)) (λ input.
        AreTapes input (readings_of tapes.items))) }
    ensures fault { IfErr result (λ fault. IfSome (R.remaining (reader_of source.old)) (λ input.
        IsTapesFault input fault)) }

    // How far the source was read: to its end, or as the fault says and no further.
    ensures whole { OnOk result (IsAtEnd (R.remaining (reader_of source.new))) }
    ensures extent { IfErr result (λ fault. Reads R.remaining (λ old new. StopsAt max_tapes old new fault)
        source.old source.new) }

    // At any reader.
    ensures tapes { IfOk result (λ readings. (octets : List ℕ) × AreTapes octets (readings_of readings.items)) }
    ensures failed { source_failed source.new ≡ reports_read_failed result }
    ensures failed_stays { source_failed source.old ≡ true → source.new ≡ source.old }
{
    let mut readings = Vec::new(alloc);
    read_each(alloc, source, &mut readings)?;
    Ok(readings)
}

/// What becomes of the readings of an input's tapes, which come one after another: a list of them, or rows of a table.
pub trait TakesReadings {
    /// It has taken these readings, in order.
    ghost HasTaken: { Self → List TapeReading → Type 0 };

    /// Takes the next reading. The only error is out of memory.
    fn take(&mut self, reading: Reading) -> Result<(), AllocError>
        ensures { OnOk result ((before : List TapeReading) → HasTaken self.old before →
            HasTaken self.new (before ++ reading_of reading ∷ [])) };
}

impl TakesReadings for Vec<Reading> {
    ghost HasTaken = { λ taken readings. readings_of taken.items ≡ readings };

    fn take(&mut self, reading: Reading) -> Result<(), AllocError> {
        match self.push(reading) {
            Ok(()) => Ok(()),
            Err(_) => Err(AllocError),
        }
    }
}

/// Reads tapes up to the end of the input as [`read_tapes`] does, with the same faults, and hands on the reading of
/// each before it reads the next one. After a fault some readings may have been handed on.
pub fn read_each<R: Read, T: TakesReadings>(
    alloc: Global,
    source: &mut Source<R>,
    taker: &mut T,
) -> Result<(), TapeFault>
    ensures taken { OnOk result (AreTaken T.HasTaken (R.remaining (reader_of source.old)) taker.old taker.new) }
    ensures fault { IfErr result (λ fault. IfSome (R.remaining (reader_of source.old)) (λ input.
        IsTapesFault input fault)) }

    // How far the source was read: to its end, or as the fault says and no further.
    ensures whole { OnOk result (IsAtEnd (R.remaining (reader_of source.new))) }
    ensures extent { IfErr result (λ fault. Reads R.remaining (λ old new. StopsAt max_tapes old new fault)
        source.old source.new) }

    // At any reader.
    ensures failed { source_failed source.new ≡ reports_read_failed result }
    ensures failed_stays { source_failed source.old ≡ true → source.new ≡ source.old }
{
    if source.failed() {
        return Err(TapeFault::ReadFailed);
    }
    let mut piece = zeros(alloc, PIECE)?;
    let mut count = 0;
    while count < MAX_TAPES {
        match next_tape(alloc, source, &mut piece) {
            Ok(Some(reading)) => taker.take(reading)?,
            Ok(None) => return Ok(()),
            Err(fault) => return Err(fault),
        }
        count += 1;
    }
    match is_at_end(source) {
        Ok(true) => Ok(()),
        Ok(false) => Err(TapeFault::Long),
        Err(Failed) => Err(TapeFault::ReadFailed),
    }
}

/// `length` octets of 0.
pub(crate) fn zeros(alloc: Global, length: usize) -> Result<Vec<u8>, AllocError>
    ensures { IfOk result (λ octets. vec_len octets ≡ length) }
{
    vec![in alloc; 0; length]
}

/// Whether the input is at its end. If it isn't, one octet more is gone.
pub(crate) fn is_at_end<R: Read>(source: &mut Source<R>) -> Result<bool, Failed>
    requires { source_failed source.old ≡ false }
    ensures end { IfOk result (λ end. MatchBool end (IsAtEnd (R.remaining (reader_of source.old)))
        (IfSome (R.remaining (reader_of source.old)) (λ left. 0 < length left))) }
    ensures read { IfOk result (λ end. MatchBool end (IsAtEnd (R.remaining (reader_of source.new)))
        (ReadsCount (R.remaining (reader_of source.old)) (R.remaining (reader_of source.new)) 1)) }
    ensures stopped { IfErr result (λ _. ReadsFewer (R.remaining (reader_of source.old))
        (R.remaining (reader_of source.new)) 1) }
    ensures failed { source_failed source.new ≡ is_err result }
{
    let mut octet = [0];
    let count = read_front(source, &mut octet)?;
    Ok(count == 0)
}

/// Reads the next tape, if there is one.
fn next_tape<R: Read>(
    alloc: Global,
    source: &mut Source<R>,
    piece: &mut [u8],
) -> Result<Option<Reading>, TapeFault>
    requires not_failed { source_failed source.old ≡ false }
    requires piece { length piece.old ≡ 65504 }
    ensures tape { IfOk result (λ next. IfSome next (λ reading. ReadsTape (R.remaining (reader_of source.old))
        (R.remaining (reader_of source.new)) (reading_of reading))) }
    ensures end { IfOk result (λ next. IfNone next (IsAtEnd (R.remaining (reader_of source.old)))) }
    ensures whole { IfOk result (λ next. IfNone next (IsAtEnd (R.remaining (reader_of source.new)))) }
    ensures extent { IfErr result (λ fault. NextStopsAt (R.remaining (reader_of source.old))
        (R.remaining (reader_of source.new)) fault) }
    ensures fault { IfErr result (λ fault. IfSome (R.remaining (reader_of source.old)) (λ left.
        IsNextTapeFault left fault)) }
    ensures failed { source_failed source.new ≡ reports_read_failed result }
{
    let Some(header) = next_header(source)? else {
        return Ok(None);
    };
    let slots = slots_of(&header);
    let shown = read_slots(alloc, source, piece, slots)?;
    Ok(Some(Reading {
        cell: cell_of(&header),
        slots,
        shown,
    }))
}

/// Reads the header of the next tape, if there is one, and judges it.
pub(crate) fn next_header<R: Read>(source: &mut Source<R>) -> Result<Option<[u8; 8]>, TapeFault>
    requires { source_failed source.old ≡ false }
    ensures header { IfOk result (λ next. IfSome next (λ header. Reads R.remaining (λ old new.
        ReadsHeader old new header) source.old source.new)) }
    ensures end { IfOk result (λ next. IfNone next (IsAtEnd (R.remaining (reader_of source.old)))) }
    ensures whole { IfOk result (λ next. IfNone next (IsAtEnd (R.remaining (reader_of source.new)))) }
    ensures extent { IfErr result (λ fault. NextStopsAt (R.remaining (reader_of source.old))
        (R.remaining (reader_of source.new)) fault) }
    ensures fault { IfErr result (λ fault. IfSome (R.remaining (reader_of source.old)) (λ left.
        IsNextTapeFault left fault)) }
    ensures failed { source_failed source.new ≡ reports_read_failed result }
{
    let mut header = [0; 8];
    let count = read_front(source, &mut header)?;
    if count == 0 {
        return Ok(None);
    }
    if count < 8 {
        return Err(TapeFault::Short);
    }
    if slots_of(&header) > MAX_SLOTS {
        return Err(TapeFault::Long);
    }
    Ok(Some(header))
}

/// The cell that a header names.
pub(crate) fn cell_of(header: &[u8; 8]) -> Cell
    ensures { result ≡ cell_in header.now }
{
    Cell {
        lac: u16::from_be_bytes([header[0], header[1]]),
        ci: u16::from_be_bytes([header[2], header[3]]),
    }
}

/// How many slots a header says.
pub(crate) fn slots_of(header: &[u8; 8]) -> u32
    ensures { result ≡ slots_in header.now }
{
    u32::from_be_bytes([header[4], header[5], header[6], header[7]])
}

/// Reads the blocks of this many slots, and returns what they show.
fn read_slots<R: Read>(
    alloc: Global,
    source: &mut Source<R>,
    piece: &mut [u8],
    slots: u32,
) -> Result<Vec<Shown>, TapeFault>
    requires not_failed { source_failed source.old ≡ false }
    requires few { slots ≤ max_slots }
    requires piece { length piece.old ≡ 65504 }
    ensures shown { IfOk result (λ shown. ReadsBlocks (R.remaining (reader_of source.old))
        (R.remaining (reader_of source.new)) slots (messages_shown shown.items)) }
    ensures short { IfErr result (λ fault. fault ≡ TapeFault.Short
        → IfSome (R.remaining (reader_of source.old)) (λ left. length left < 92 * slots)) }
    ensures extent { IfErr result (λ fault. StopsInOctets (R.remaining (reader_of source.old))
        (R.remaining (reader_of source.new)) (92 * slots) fault) }
    ensures fits { IfErr result (λ fault. fault ≢ TapeFault.Long) }
    ensures failed { source_failed source.new ≡ reports_read_failed result }
{
    let mut handset = Handset::new(alloc);
    let mut left = slots as usize;
    while left > 0 {
        let wanted = left.min(PIECE_SLOTS);
        let length = SLOT * wanted;
        read_piece(source, &mut piece[..length], &mut handset)?;
        left -= wanted;
    }
    Ok(handset.into_shown())
}

/// Reads as many octets as the piece has, and has a handset read the blocks that they are.
fn read_piece<R: Read>(
    source: &mut Source<R>,
    piece: &mut [u8],
    handset: &mut Handset,
) -> Result<(), TapeFault>
    requires { source_failed source.old ≡ false }
    ensures piece { OnOk result (ReadsPiece (R.remaining (reader_of source.old)) (R.remaining (reader_of source.new))
        (length piece.old) handset.old handset.new) }
    ensures short { IfErr result (λ fault. fault ≡ TapeFault.Short
        → IfSome (R.remaining (reader_of source.old)) (λ left. length left < length piece.old)) }
    ensures extent { IfErr result (λ fault. StopsInOctets (R.remaining (reader_of source.old))
        (R.remaining (reader_of source.new)) (length piece.old) fault) }
    ensures fits { IfErr result (λ fault. fault ≢ TapeFault.Long) }
    ensures failed { source_failed source.new ≡ reports_read_failed result }
{
    let count = read_front(source, piece)?;
    if count < piece.len() {
        return Err(TapeFault::Short);
    }
    let (blocks, _) = piece.as_chunks::<23>();
    handset.accept_all(blocks)?;
    Ok(())
}
