//! Tapes as they are: the blocks that they hold, and not what these show.

ghost use Rattle.std.specs.Prelude.{◌≡◌, ◌≢◌, ◌<◌, ◌≤◌, ◌+◌, ◌++◌, ◌∷◌, [], List, false, length, true, IfErr, IfNone};
ghost use Rattle.std.specs.Prelude.{IfOk, IfSome, OnOk};
ghost use Rattle.std.specs.Io.KnownBytes.{Consumes, IsAtEnd};
ghost use Rattle.device_ends.specs.Source.{reader_of, source_failed};
ghost use Rattle.device_ends.specs.Stream.{Reads};
ghost use Rattle.handset.specs.Recording.{TapeRecording, AreRecorded, GivesFault, GivesNoMore, ReadsRecording};
ghost use Rattle.handset.specs.Recording.{StopsAfter};
ghost use Rattle.handset.specs.Tape.{max_tapes, reports_read_failed, IsTapesFault};
ghost use Rattle.handset.specs.TapeExtent.{StopsAt};
ghost use Rattle.handset.specs.TapeSteps.{IsMoreThanAll, IsNextTapeFault, LastStopsAt, NextStopsAt, StopsInOctets};

use crate::input::read_front;
use crate::tape::{MAX_TAPES, SLOT, TapeFault, cell_of, is_at_end, next_header, slots_of, zeros};
use cbsp_wire::Cell;
use device_ends::{Failed, Source};
use std::alloc::{AllocError, Global};
use std::io::Read;
use std::marker::Model;

/// What a tape holds.
#[derive(Drop, Debug)]
pub struct Recording {
    cell: Cell,
    slots: u32,
    octets: Vec<u8>,
}

impl Model for Recording {
    ghost use Rattle.std.specs.Prelude.{◌*◌, ◌≡◌, length};
    ghost use Rattle.std.specs.Simd.{first_chunks};
    ghost use Rattle.handset.specs.Recording.{TapeRecording};

    ghost Value = { TapeRecording };

    ghost view = { λ r. record {
      cell = r.cell;
      slots = r.slots;
      blocks = first_chunks 23 (4 * r.slots) r.octets.items;
    } };

    ghost invariant = { λ r. length r.octets.items ≡ 92 * r.slots };
}

impl Recording {
    /// The cell whose channel it is.
    pub fn cell(&self) -> Cell
        ensures { result ≡ self.now.cell }
    {
        self.cell
    }

    /// How many slots it has, at most 65,535.
    pub fn slots(&self) -> u32
        ensures { result ≡ self.now.slots }
    {
        self.slots
    }

    /// Its blocks, four for each slot.
    pub fn blocks(&self) -> &[[u8; 23]]
        ensures { result.now ≡ self.now.blocks }
    {
        let (blocks, _) = self.octets.as_chunks::<23>();
        blocks
    }
}

/// What becomes of the tapes of an input, which come one after another.
pub trait TakesRecordings {
    /// What it takes them for, which no tape changes.
    ghost Given: { Type 0 };

    /// For this it has taken these, in order.
    ghost HasTaken: { Given → Self → List TapeRecording → Type 0 };

    /// Takes what the next tape holds. The only error is out of memory.
    fn take(&mut self, recording: Recording) -> Result<(), AllocError>
        ensures { OnOk result ((given : Given) (before : List TapeRecording) → HasTaken given self.old before →
            HasTaken given self.new (before ++ recording ∷ [])) };
}

impl TakesRecordings for Vec<Recording> {
    ghost Given = { Unit {0} };

    ghost HasTaken = { λ _ taken recordings. taken.items ≡ recordings };

    fn take(&mut self, recording: Recording) -> Result<(), AllocError> {
        match self.push(recording) {
            Ok(()) => Ok(()),
            Err(_) => Err(AllocError),
        }
    }
}

/// Reads the tapes of an input one after another: how many were read.
#[derive(Debug, Drop)]
pub struct Recorder {
    read: usize,
}

impl Model for Recorder {
    ghost use Rattle.std.specs.Prelude.{ℕ, ◌≤◌};
    ghost use Rattle.handset.specs.Tape.{max_tapes};

    ghost Value = { ℕ };

    ghost view = { λ r. r.read };

    ghost invariant = { λ r. r.read ≤ max_tapes };
}

impl Recorder {
    /// Of an input of which none was read.
    pub fn new() -> Recorder
        ensures { result ≡ 0 }
    {
        Recorder { read: 0 }
    }

    /// Reads the next tape of the input, if there is one: at most 64 have one. So whoever calls it decides how many are
    /// in memory at a time. [`record_each`] is its loop.
    ///
    /// # Errors
    ///
    /// Those of [`read_tapes`](crate::read_tapes).
    pub fn next<R: Read>(
        &mut self,
        alloc: Global,
        source: &mut Source<R>,
    ) -> Result<Option<Recording>, TapeFault>
        ensures tape { IfOk result (λ next. IfSome next (λ recording. Reads R.remaining (λ old new.
            ReadsRecording old new recording) source.old source.new)) }
        ensures count { IfOk result (λ next. IfSome next (λ _. self.new ≡ self.old + 1)) }
        ensures few { IfOk result (λ next. IfSome next (λ _. self.new ≤ max_tapes)) }
        ensures end { IfOk result (λ next. IfNone next (GivesNoMore self.old
            (R.remaining (reader_of source.old)))) }
        ensures err { IfErr result (GivesFault self.old (R.remaining (reader_of source.old))) }

        // How far the source was read: to its end, or as the fault says and no further.
        ensures whole { IfOk result (λ next. IfNone next (IsAtEnd (R.remaining (reader_of source.new)))) }
        ensures extent { IfErr result (λ fault. Reads R.remaining (λ old new. StopsAfter self.old old new fault)
            source.old source.new) }

        // At any reader.
        ensures failed { source_failed source.new ≡ reports_read_failed result }
        ensures failed_stays { source_failed source.old ≡ true → source.new ≡ source.old }
    {
        let is_full = self.read == MAX_TAPES;
        if source.failed() {
            return Err(TapeFault::ReadFailed);
        }
        if is_full {
            return none_at_end(source);
        }
        let next = next_recording(alloc, source)?;
        if next.is_some() {
            self.read += 1;
        }
        Ok(next)
    }
}

/// No tape, at the end of an input that has as many as it may.
fn none_at_end<R: Read>(source: &mut Source<R>) -> Result<Option<Recording>, TapeFault>
    requires { source_failed source.old ≡ false }
    ensures none { IfOk result (λ next. IfSome next (λ _. ⊥)) }
    ensures end { IfOk result (λ next. IfNone next (IsAtEnd (R.remaining (reader_of source.old)))) }
    ensures whole { IfOk result (λ next. IfNone next (IsAtEnd (R.remaining (reader_of source.new)))) }
    ensures more { IfErr result (IsMoreThanAll (R.remaining (reader_of source.old))) }
    ensures extent { IfErr result (LastStopsAt (R.remaining (reader_of source.old))
        (R.remaining (reader_of source.new))) }
    ensures failed { source_failed source.new ≡ reports_read_failed result }
{
    match is_at_end(source) {
        Ok(true) => Ok(None),
        Ok(false) => Err(TapeFault::Long),
        Err(Failed) => Err(TapeFault::ReadFailed),
    }
}

/// Reads tapes up to the end of the input as [`read_each`](crate::read_each) does, with the same faults, and hands on
/// what each holds before it reads the next one. So one tape is in memory at a time, unless they are kept. After a
/// fault some may have been handed on.
///
/// # Errors
///
/// Those of [`read_tapes`](crate::read_tapes).
pub fn record_each<R: Read, T: TakesRecordings>(
    alloc: Global,
    source: &mut Source<R>,
    taker: &mut T,
) -> Result<(), TapeFault>
    ensures ok { OnOk result (AreRecorded T.HasTaken (R.remaining (reader_of source.old)) taker.old taker.new) }
    ensures err { IfErr result (λ fault. IfSome (R.remaining (reader_of source.old)) (λ input.
        IsTapesFault input fault)) }

    // How far the source was read: to its end, or as the fault says and no further.
    ensures whole { OnOk result (IsAtEnd (R.remaining (reader_of source.new))) }
    ensures extent { IfErr result (λ fault. Reads R.remaining (λ old new. StopsAt max_tapes old new fault)
        source.old source.new) }

    // At any reader.
    ensures failed { source_failed source.new ≡ reports_read_failed result }
    ensures failed_stays { source_failed source.old ≡ true → source.new ≡ source.old }
{
    let mut recorder = Recorder::new();
    while let Some(recording) = recorder.next(alloc, source)? {
        taker.take(recording)?;
    }
    Ok(())
}

/// Reads the next tape, if there is one.
fn next_recording<R: Read>(
    alloc: Global,
    source: &mut Source<R>,
) -> Result<Option<Recording>, TapeFault>
    requires { source_failed source.old ≡ false }
    ensures tape { IfOk result (λ next. IfSome next (λ recording. Reads R.remaining (λ old new.
        ReadsRecording old new recording) source.old source.new)) }
    ensures end { IfOk result (λ next. IfNone next (IsAtEnd (R.remaining (reader_of source.old)))) }
    ensures whole { IfOk result (λ next. IfNone next (IsAtEnd (R.remaining (reader_of source.new)))) }
    ensures extent { IfErr result (λ fault. NextStopsAt (R.remaining (reader_of source.old))
        (R.remaining (reader_of source.new)) fault) }
    ensures fault { IfErr result (λ fault. IfSome (R.remaining (reader_of source.old)) (λ left.
        IsNextTapeFault left fault)) }
    ensures failed { source_failed source.new ≡ reports_read_failed result }
{
    let Some(header) = next_header(source)? else {
        return Ok(None);
    };
    let slots = slots_of(&header);
    let octets = read_octets(alloc, source, SLOT * slots as usize)?;
    Ok(Some(Recording {
        cell: cell_of(&header),
        slots,
        octets,
    }))
}

/// Reads this many octets.
fn read_octets<R: Read>(
    alloc: Global,
    source: &mut Source<R>,
    wanted: usize,
) -> Result<Vec<u8>, TapeFault>
    requires { source_failed source.old ≡ false }
    ensures octets { IfOk result (λ octets. Reads R.remaining (λ old new. Consumes old new octets.items)
        source.old source.new) }
    ensures long { IfOk result (λ octets. length octets.items ≡ wanted) }
    ensures short { IfErr result (λ fault. fault ≡ TapeFault.Short
        → IfSome (R.remaining (reader_of source.old)) (λ left. length left < wanted)) }
    ensures extent { IfErr result (λ fault. StopsInOctets (R.remaining (reader_of source.old))
        (R.remaining (reader_of source.new)) wanted fault) }
    ensures fits { IfErr result (λ fault. fault ≢ TapeFault.Long) }
    ensures failed { source_failed source.new ≡ reports_read_failed result }
{
    let mut octets = zeros(alloc, wanted)?;
    let count = read_front(source, &mut octets)?;
    if count < wanted {
        return Err(TapeFault::Short);
    }
    Ok(octets)
}
