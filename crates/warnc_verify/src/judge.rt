//! What judges the tapes of an input, one after another.

ghost use Rattle.std.specs.Prelude.{◌≡◌, [], false, true, map, IfErr, IfOk, IfSome, IsErrOf, OnOk};
ghost use Rattle.std.specs.Io.KnownBytes.{IsAtEnd};
ghost use Rattle.device_ends.specs.Source.{reader_of, source_failed};
ghost use Rattle.handset.specs.Tape.{reports_read_failed, IsTapesFault};
ghost use Rattle.handset.specs.declared.tape.TapeFault.TheVariants as tape;
ghost use Rattle.short_pages.specs.Slots.{recording_by};
ghost use Rattle.verification.specs.Found.{HasTaken};
ghost use Rattle.verification.specs.Judgement.{FindsOf, TakesJudged};
ghost use Rattle.warnc_verify.specs.VerifySteps.{HaveJudged, Judged};

use bsc_table::CellRecord;
use device_ends::Source;
use handset::{Recording, TakesRecordings, TapeFault, record_each};
use short_pages::{Pages, completed_blocks};
use std::alloc::{AllocError, Global};
use std::io::Read;
use verification::{Findings, Judgement, TableLayout};

/// What a tape finds, read by the wanted pages. The only error is out of memory, here and in the next.
pub(crate) fn found_of(
    alloc: Global,
    findings: &Findings,
    pages: Pages,
    recording: &Recording,
) -> Result<Judgement, AllocError>
    ensures { IfOk result (FindsOf findings.now (recording_by pages recording.now)) }
{
    let (cell, slots) = (recording.cell(), recording.slots());
    match pages {
        Pages::OfFour => findings.judged(cell, slots, recording.blocks()),
        Pages::OfAny => {
            let blocks = completed_blocks(alloc, recording.blocks())?;
            findings.judged(cell, slots, &blocks)
        }
    }
}

/// Takes a tape, of which that was found, read by these pages.
pub(crate) fn take_found(
    findings: &mut Findings,
    recording: &Recording,
    found: Judgement,
) -> Result<(), AllocError>
    ensures { OnOk result ((pages : Pages) →
        TakesJudged findings.old findings.new (recording_by pages recording.now) found) }
{
    findings.take_judged(recording.cell(), found)
}

/// Judges each tape as it comes, read by the wanted pages, and keeps what it found.
#[derive(Drop)]
struct Judge {
    alloc: Global,
    pages: Pages,
    findings: Findings,
}

impl TakesRecordings for Judge {
    ghost Given = { Judged };

    ghost HasTaken = { λ judged judge tapes. (judge.pages ≡ judged.pages)
        × HasTaken judged.layout judged.records judge.findings (map (recording_by judged.pages) tapes) };

    fn take(&mut self, recording: Recording) -> Result<(), AllocError> {
        let found = found_of(self.alloc, &self.findings, self.pages, &recording)?;
        take_found(&mut self.findings, &recording, found)
    }
}

/// What tapes have otherwise than the records of a run, read by these pages. One tape is in memory at a time.
pub(crate) fn judged_in_turn<R: Read>(
    alloc: Global,
    records: Vec<CellRecord>,
    tapes: &mut Source<R>,
    pages: Pages,
    layout: TableLayout,
) -> Result<Findings, TapeFault>
    ensures ok { IfOk result (HaveJudged pages layout records.items (R.remaining (reader_of tapes.old))) }
    ensures whole { OnOk result (IsAtEnd (R.remaining (reader_of tapes.new))) }
    ensures err { IfErr result (λ fault. IfSome (R.remaining (reader_of tapes.old)) (λ input.
        IsTapesFault input fault)) }
    ensures failed { source_failed tapes.old ≡ false → source_failed tapes.new ≡ reports_read_failed result }
    ensures reported { IsErrOf result tape.ReadFailed → source_failed tapes.new ≡ true }
    ensures read { OnOk result (source_failed tapes.new ≡ false) }
    ensures stays { source_failed tapes.old ≡ true → tapes.new ≡ tapes.old }
{
    let mut judge = Judge {
        alloc,
        pages,
        findings: Findings::new(alloc, layout, records)?,
    };
    record_each(alloc, tapes, &mut judge)?;
    Ok(judge.findings)
}
