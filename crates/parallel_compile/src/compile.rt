//! The tapes of records, by the calling thread or by workers.

ghost use Rattle.std.specs.Prelude.{◌≡◌, ◌<◌, ◌≤◌, IfErr, IfOk, length, map};
ghost use Rattle.cbsp_wire.specs.Range.{max_listed};
ghost use Rattle.cbch_blocks.specs.RecordBlocks.{tape_of_record};
ghost use Rattle.parallel_compile.specs.declared.fault.CompileFault.TheVariants as faults;
ghost use Rattle.parallel_compile.specs.Workers.{IsOfWorkers, max_workers};

use crate::fault::CompileFault;
use crate::gathered::gather;
use crate::work::pieces_of;
use bsc_table::CellRecord;
use cbch_blocks::{Tape, tape_of};
use order_desk::Gate;
use std::alloc::Global;
use std::thread::Threads;

/// The most workers of a call (own).
pub const MAX_WORKERS: u64 = 64;

/// The tapes of records, in their order.
///
/// # Errors
///
/// Returns [`CompileFault::Refused`] if out of memory.
pub fn compile_one(alloc: Global, records: &[CellRecord]) -> Result<Vec<Tape>, CompileFault>
    ensures ok { IfOk result (λ tapes. tapes.items ≡ map tape_of_record records.now) }
    ensures err { IfErr result (λ fault. fault ≡ faults.Refused) }
{
    let mut tapes = Vec::with_capacity(alloc, records.len())?;
    for record in records {
        tapes.push(tape_of(alloc, record)?)?;
    }
    Ok(tapes)
}

/// The tapes of at most 64 records, in their order, by this many workers: 1 to 64. They are those of [`compile_one`],
/// whichever worker makes which. `gate` is called with a record's place before its tape is made. Where no thread can be
/// made, workers work one after the other.
///
/// # Errors
///
/// Returns [`CompileFault::Workers`] exactly if there are no workers or over 64, and else [`CompileFault::Refused`] if
/// out of memory, after all workers have ended.
pub fn compile_all<R: Threads + Sync, G: Gate>(
    rt: &R,
    alloc: Global,
    records: &[CellRecord],
    workers: u64,
    gate: &G,
) -> Result<Vec<Tape>, CompileFault>
    requires { length records.now ≤ max_listed }
    ensures ok { IfOk result (λ tapes. tapes.items ≡ map tape_of_record records.now) }
    ensures workers { IfOk result (λ _. (0 < workers) × (workers ≤ max_workers)) }
    ensures err { IfErr result (IsOfWorkers workers) }
{
    if workers == 0 || workers > MAX_WORKERS {
        return Err(CompileFault::Workers);
    }
    let pieces = pieces_of(rt, alloc, records, workers, gate)?;
    gather(alloc, records.len(), pieces)
}
