//! What handsets read of the tapes of a run's records: workers make and read them side by side, each one at a time.

ghost use Rattle.std.specs.Prelude.{◌≡◌, ◌<◌, ◌∷◌, [], length, map, All, IfOk};
ghost use Rattle.std.specs.List.{flat_map};
ghost use Rattle.cbch_blocks.specs.RecordBlocks.{tape_of_record};
ghost use Rattle.handset.specs.Tape.{reading_of, readings_of, IsTape};
ghost use Rattle.warnc_run.specs.Products.{own_rows, reading_of_record};
ghost use Rattle.warnc_run.specs.ReadSteps.{readings_in, rows_in, AreAllReadings, AreRowsAt, AreAllRows};
ghost use Rattle.warnc_run.specs.ReadSteps.{HasOwnTape, WasMade, IsReadingAt};

use crate::run::Workers;
use crate::watch::Watch;
use bsc_table::CellRecord;
use cbch_blocks::tape_of;
use device_ends::Source;
use handset::{Reading, read_tape};
use report::Row;
use std::alloc::{AllocError, AllocGlobal, Global};
use std::thread::Threads;
use std::{slice, thread};

/// What a handset reads of the tape of a record. The only error is out of memory, here and below.
pub(crate) fn reading_of(alloc: Global, run: &CellRecord) -> Result<Reading, AllocError>
    ensures { IfOk result (λ reading. HasOwnTape run.now → reading_of reading ≡ reading_of_record run.now) }
{
    // Octets are one tape at most.
    handset::tape_laws();
    let Ok(tape) = tape_of(alloc, run) else {
        return Err(AllocError);
    };
    // The tape is whole, and memory doesn't fail to be read: only memory to read to can be refused.
    match read_tape(alloc, &mut Source::new(tape.bytes())) {
        Ok(reading) => Ok(reading),
        Err(_) => Err(AllocError),
    }
}

/// The rows of a record, by what a handset reads of its tape, of which nothing is held then.
fn rows_of(alloc: Global, run: &CellRecord) -> Result<Vec<Row>, AllocError>
    ensures { IfOk result (λ rows. HasOwnTape run.now → rows.items ≡ own_rows (run.now ∷ [])) }
{
    let reading = reading_of(alloc, run)?;
    // The reading is of the record's cell, so only memory can be refused.
    match report::rows(alloc, slice::from_ref(run), slice::from_ref(&reading)) {
        Ok(rows) => Ok(rows),
        Err(_) => Err(AllocError),
    }
}

/// Places for rows, of which none came yet.
fn no_rows_yet(alloc: Global, count: usize) -> Result<Vec<Result<Vec<Row>, AllocError>>, AllocError>
    ensures { IfOk result (λ all. length all.items ≡ count) }
{
    let mut all = Vec::with_capacity(alloc, count)?;
    for _ in 0..count {
        all.push(Err(AllocError))?;
    }
    Ok(all)
}

/// Places for readings, of which none came yet.
fn no_readings_yet(
    alloc: Global,
    count: usize,
) -> Result<Vec<Result<Reading, AllocError>>, AllocError>
    ensures { IfOk result (λ all. length all.items ≡ count) }
{
    let mut all = Vec::with_capacity(alloc, count)?;
    for _ in 0..count {
        all.push(Err(AllocError))?;
    }
    Ok(all)
}

/// What comes of each record's tape: its rows.
fn rows_of_each<T: AllocGlobal + Threads + Sync, G: Watch>(
    rt: &T,
    records: &[CellRecord],
    workers: Workers,
    watch: &G,
) -> Result<Vec<Result<Vec<Row>, AllocError>>, AllocError>
    ensures { IfOk result (λ all. AreAllRows records.now all.items) }
{
    let mut all = no_rows_yet(rt.alloc(), records.len())?;
    thread::for_each_mut(
        rt,
        &mut all,
        workers.number as usize,
        &|place: usize, made: &mut Result<Vec<Row>, AllocError>|
            requires { place < length records.now }
            ensures { AreRowsAt records.entry.now place made.new }
        {
            *made = rows_of(rt.alloc(), &records[place]);
            watch.done();
        },
    );
    Ok(all)
}

/// What comes of each record's tape: its reading.
fn reading_of_each<T: AllocGlobal + Threads + Sync, G: Watch>(
    rt: &T,
    records: &[CellRecord],
    workers: Workers,
    watch: &G,
) -> Result<Vec<Result<Reading, AllocError>>, AllocError>
    ensures { IfOk result (λ all. AreAllReadings records.now all.items) }
{
    let mut all = no_readings_yet(rt.alloc(), records.len())?;
    thread::for_each_mut(
        rt,
        &mut all,
        workers.number as usize,
        &|place: usize, made: &mut Result<Reading, AllocError>|
            requires { place < length records.now }
            ensures { IsReadingAt records.entry.now place made.new }
        {
            *made = reading_of(rt.alloc(), &records[place]);
            watch.done();
        },
    );
    Ok(all)
}

/// The rows that came of records, one after the other.
fn joined_rows(
    alloc: Global,
    all: Vec<Result<Vec<Row>, AllocError>>,
) -> Result<Vec<Row>, AllocError>
    ensures { IfOk result (λ rows. All WasMade all.items × (rows.items ≡ flat_map rows_in all.items)) }
{
    let mut rows = Vec::new(alloc);
    for made in all {
        let mut own = made?;
        rows.append(&mut own)?;
    }
    Ok(rows)
}

/// The readings that came of records, one after the other.
fn joined_readings(
    alloc: Global,
    all: Vec<Result<Reading, AllocError>>,
) -> Result<Vec<Reading>, AllocError>
    ensures { IfOk result (λ readings. All WasMade all.items
        × (readings_of readings.items ≡ flat_map readings_in all.items)) }
{
    let mut readings = Vec::new(alloc);
    for made in all {
        let reading = made?;
        readings.push(reading)?;
    }
    Ok(readings)
}

/// The rows of records, by what handsets read of their tapes. Each worker holds one tape, and what is read of it. Once
/// that is there, `watch` is told.
pub(crate) fn rows_by<T: AllocGlobal + Threads + Sync, G: Watch>(
    rt: &T,
    records: &[CellRecord],
    workers: Workers,
    watch: &G,
) -> Result<Vec<Row>, AllocError>
    requires { All (λ r. IsTape (tape_of_record r) (reading_of_record r)) records.now }
    ensures { IfOk result (λ rows. rows.items ≡ own_rows records.now) }
{
    let all = rows_of_each(rt, records, workers, watch)?;
    joined_rows(rt.alloc(), all)
}

/// What handsets read of the tapes of records. Each worker holds one tape. Once it is read, `watch` is told.
pub(crate) fn readings_by<T: AllocGlobal + Threads + Sync, G: Watch>(
    rt: &T,
    records: &[CellRecord],
    workers: Workers,
    watch: &G,
) -> Result<Vec<Reading>, AllocError>
    requires { All (λ r. IsTape (tape_of_record r) (reading_of_record r)) records.now }
    ensures { IfOk result (λ readings. readings_of readings.items ≡ map reading_of_record records.now) }
{
    let all = reading_of_each(rt, records, workers, watch)?;
    joined_readings(rt.alloc(), all)
}
