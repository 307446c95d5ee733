//! Tapes that workers judge side by side: one for each worker is in memory at a time.
//!
//! The tapes come from one reader, and what they find is kept in their order. So some are read, each is judged by a
//! worker, which changes nothing, and then what they found is taken, one after another.

ghost use Rattle.std.specs.Prelude.{◌≡◌, ◌<◌, ⊤, ℕ, false, true, length, slice_index_or, IfErr, IfOk, IfSome};
ghost use Rattle.std.specs.Prelude.{IsErrOf, MatchBool, OnOk};
ghost use Rattle.std.specs.Io.KnownBytes.{IsAtEnd};
ghost use Rattle.device_ends.specs.Source.{reader_of, source_failed};
ghost use Rattle.device_ends.specs.Stream.{Reads};
ghost use Rattle.handset.specs.Recording.{GivesFault};
ghost use Rattle.handset.specs.Tape.{reports_read_failed, IsTapesFault};
ghost use Rattle.handset.specs.declared.tape.TapeFault.TheVariants as tape;
ghost use Rattle.warnc_verify.specs.VerifySteps.{held_by, AreTheLast, HaveJudged, ReadsMore, TakesBatch, WasJudged};

use crate::judge::{found_of, take_found};
use bsc_table::CellRecord;
use device_ends::Source;
use handset::{Recorder, Recording, TapeFault};
use short_pages::Pages;
use std::alloc::{AllocError, AllocGlobal, Global};
use std::io::Read;
use std::thread;
use std::thread::Threads;
use verification::{Findings, Judgement, TableLayout};
use warnc_run::Workers;

/// A tape that was read, and what it finds, once a worker has judged it.
#[derive(Drop)]
struct Judging {
    recording: Recording,
    found: Result<Judgement, AllocError>,
}

/// Tapes that were read, one after another, and whether the input has no more.
#[derive(Drop)]
struct Batch {
    tapes: Vec<Judging>,
    is_last: bool,
}

/// Reads the next tapes: so many, or those that are left.
fn next_tapes<R: Read>(
    alloc: Global,
    tapes: &mut Source<R>,
    recorder: &mut Recorder,
    most: usize,
) -> Result<Batch, TapeFault>
    requires some { 0 < most }
    ensures more { IfOk result (λ batch. MatchBool batch.is_last ⊤ (Reads R.remaining (λ old new.
        ReadsMore recorder.old recorder.new old new (held_by batch.tapes.items)) tapes.old tapes.new)) }
    ensures last { IfOk result (λ batch. MatchBool batch.is_last (AreTheLast recorder.old
        (R.remaining (reader_of tapes.old)) (held_by batch.tapes.items)) ⊤) }
    ensures whole { IfOk result (λ batch. MatchBool batch.is_last (IsAtEnd (R.remaining (reader_of tapes.new))) ⊤) }
    ensures err { IfErr result (GivesFault recorder.old (R.remaining (reader_of tapes.old))) }
    ensures failed { source_failed tapes.new ≡ reports_read_failed result }
    ensures stays { source_failed tapes.old ≡ true → tapes.new ≡ tapes.old }
{
    let mut batch = Vec::new(alloc);
    while batch.len() < most {
        let Some(recording) = recorder.next(alloc, tapes)? else {
            return Ok(Batch {
                tapes: batch,
                is_last: true,
            });
        };
        let found = Err(AllocError);
        match batch.push(Judging { recording, found }) {
            Ok(()) => {}
            Err(_) => return Err(TapeFault::Refused),
        }
    }
    Ok(Batch {
        tapes: batch,
        is_last: false,
    })
}

/// Has workers judge tapes by what was found so far.
fn judge_batch<T: AllocGlobal + Threads + Sync>(
    rt: &T,
    findings: &Findings,
    pages: Pages,
    mut batch: Vec<Judging>,
    workers: Workers,
) -> Vec<Judging>
    ensures long { length result.items ≡ length batch.items }
    ensures each { (place : ℕ) (d : Judging) → place < length batch.items → WasJudged pages findings.now
        (slice_index_or batch.items place d) (slice_index_or result.items place d) }
{
    thread::for_each_mut(
        rt,
        &mut batch,
        workers.number as usize,
        &|_: usize, one: &mut Judging|
            ensures { WasJudged pages findings.entry.now one.old one.new }
        {
            one.found = found_of(rt.alloc(), findings, pages, &one.recording);
        },
    );
    batch
}

/// Takes what judged tapes found, one after another.
fn take_batch(findings: &mut Findings, batch: Vec<Judging>) -> Result<(), AllocError>
    ensures { OnOk result ((pages : Pages) → TakesBatch pages findings.old findings.new batch.items) }
{
    for one in batch {
        let Judging { recording, found } = one;
        take_found(findings, &recording, found?)?;
    }
    Ok(())
}

/// What tapes have otherwise than the records of a run, read by these pages, as
/// [`judged_in_turn`](crate::judge::judged_in_turn) finds it.
pub(crate) fn judged_side_by_side<T: AllocGlobal + Threads + Sync, R: Read>(
    rt: &T,
    records: Vec<CellRecord>,
    tapes: &mut Source<R>,
    pages: Pages,
    layout: TableLayout,
    workers: Workers,
) -> Result<Findings, TapeFault>
    ensures ok { IfOk result (HaveJudged pages layout records.items (R.remaining (reader_of tapes.old))) }
    ensures whole { OnOk result (IsAtEnd (R.remaining (reader_of tapes.new))) }
    ensures err { IfErr result (λ fault. IfSome (R.remaining (reader_of tapes.old)) (λ input.
        IsTapesFault input fault)) }
    ensures failed { source_failed tapes.old ≡ false → source_failed tapes.new ≡ reports_read_failed result }
    ensures reported { IsErrOf result tape.ReadFailed → source_failed tapes.new ≡ true }
    ensures read { OnOk result (source_failed tapes.new ≡ false) }
    ensures stays { source_failed tapes.old ≡ true → tapes.new ≡ tapes.old }
{
    let alloc = rt.alloc();
    let mut findings = Findings::new(alloc, layout, records)?;
    let mut recorder = Recorder::new();
    loop {
        let batch = next_tapes(alloc, tapes, &mut recorder, workers.number as usize)?;
        let judged = judge_batch(rt, &findings, pages, batch.tapes, workers);
        take_batch(&mut findings, judged)?;
        if batch.is_last {
            return Ok(findings);
        }
    }
}
