//! The sessions of a book's parts, side by side.

ghost use Rattle.std.specs.Prelude.{◌≡◌, ◌⊎◌, ◌<◌, ℕ, map, vec_len, All, IfErr, IfOk, List};
ghost use Rattle.book_runs.specs.Fit.{IsFit};
ghost use Rattle.warnc_run.specs.Faults.{IsOfRun};
ghost use Rattle.warnc_run.specs.RunSteps.{IsFirstUserFault};
ghost use Rattle.warnc_run.specs.declared.fault.RunFault.TheVariants as faults;

use crate::fault::RunFault;
use crate::run::Sessions;
use crate::session::run_session;
use alert_book::Book;
use order_desk::{Desk, Gate, Pass};
use std::alloc::AllocGlobal;
use std::sync::Wait;
use std::thread;
use std::thread::Threads;

/// A session that is to be served, with its pass.
#[derive(Drop)]
struct SessionJob {
    part: u16,
    pass: Pass,
}

/// What a thread at a desk has done: its pass, and the fault that ended it, if one did.
#[derive(Drop)]
pub(crate) struct UserEnd {
    pub(crate) pass: Pass,
    pub(crate) done: Result<(), RunFault>,
}

/// A job for each part.
fn jobs_of<T: AllocGlobal>(rt: &T, desk: &Desk, parts: u16) -> Result<Vec<SessionJob>, RunFault>
    ensures ok { IfOk result (λ jobs. All (λ job. job.part < parts) jobs.items × (vec_len jobs ≡ parts)) }
    ensures err { IfErr result IsOfRun }
{
    let mut jobs = Vec::with_capacity(rt.alloc(), usize::from(parts))?;
    for part in 0..parts {
        let pass = desk.pass();
        jobs.push(SessionJob { part, pass })?;
    }
    Ok(jobs)
}

/// Serves the session of a part, and gives its pass back.
fn run_part<T: AllocGlobal + Wait, G: Gate>(
    rt: &T,
    book: &Book,
    parts: u16,
    desk: &Desk,
    job: SessionJob,
    gate: &G,
) -> UserEnd
    requires part { job.part < parts }
    requires book { IsFit book.now }
    ensures { IfErr result.done IsOfRun }
{
    let SessionJob { part, mut pass } = job;
    let done = run_session(rt, rt.alloc(), book, part, parts, desk, &mut pass, gate);
    UserEnd { pass, done }
}

/// The passes of threads that have all done their work, or the fault of the first that hasn't.
pub(crate) fn passes_or_fault<T: AllocGlobal>(
    rt: &T,
    all: Vec<UserEnd>,
) -> Result<Vec<Pass>, RunFault>
    requires { All (λ ended. IfErr ended.done IsOfRun) all.items }
    ensures ok { IfOk result (λ passes. vec_len passes ≡ vec_len all) }
    ensures err { IfErr result IsOfRun }

    // It is the first one's fault, if it isn't memory.
    ensures first { IfErr result (λ fault. (fault ≡ faults.Refused)
        ⊎ IsFirstUserFault (map (λ e. e.done) all.items) fault) }
{
    let mut passes = Vec::with_capacity(rt.alloc(), all.len())?;
    for ended in all {
        let UserEnd { pass, done } = ended;
        if let Err(fault) = done {
            return Err(fault);
        }
        passes.push(pass)?;
    }
    Ok(passes)
}

/// Serves a session of each part of a book, side by side, and returns their passes.
pub(crate) fn run_sessions<T: AllocGlobal + Threads + Wait + Sync, G: Gate>(
    rt: &T,
    book: &Book,
    desk: &Desk,
    sessions: Sessions,
    gate: &G,
) -> Result<Vec<Pass>, RunFault>
    requires { IsFit book.now }
    ensures ok { IfOk result (λ passes. vec_len passes ≡ sessions.number) }
    ensures err { IfErr result IsOfRun }
{
    let parts = sessions.number;
    let jobs = jobs_of(rt, desk, parts)?;
    let all = thread::map_vec(
        rt,
        jobs,
        &|job: SessionJob| -> UserEnd
            requires part { job.part < parts }
            requires book { IsFit book.now }
            ensures { IfErr result.done IsOfRun }
        { run_part(rt, book, parts, desk, job, gate) },
    )?;
    passes_or_fault(rt, all)
}
