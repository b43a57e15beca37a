//! One row: a job, a script, and how the run ends.
ghost use Rattle.driver_laws.specs.Jobs.{IsSoundJob};

use crate::jobs::{Team, job_of};
use memory_nursery::{MemNursery, Refusal, Scripted};
use px_base::{Loss, Pos, Value};
use std::alloc::Global;
use std::process::Abort;
use std::sync::Wait;
use std::test::Fail;
use std::thread::Threads;
use supervisor::{Finished, Job, Stop, supervise_serial};

/// A job on the lines of its edges.
#[derive(Clone, Copy)]
pub struct Task<'a> {
    /// The name of the program.
    pub program: &'a str,
    /// The edges.
    pub lines: &'a str,
    /// The positions of its sources.
    pub sources: &'a [Pos],
    /// The workers and the limits.
    pub team: Team,
}

/// What is scripted.
#[derive(Clone, Copy)]
pub struct Script<'a> {
    /// The losses.
    pub losses: &'a [Scripted],
    /// The starts that are refused.
    pub refusals: &'a [Refusal],
}

/// How a run ends.
#[derive(Clone, Copy)]
pub enum Ending<'a> {
    /// With these core values, and these losses.
    Finished(&'a [Value], &'a [Loss]),
    /// There is no replacement for this worker.
    NoReplacement(u32),
    /// There are too many losses, these.
    TooManyLosses(&'a [Loss]),
    /// The rounds are spent, from this base on.
    Budget(u64),
}

/// Whether it ended so.
pub fn ended_so(outcome: &Result<Finished, Stop>, ending: Ending) -> bool {
    match (outcome, ending) {
        (Ok(finished), Ending::Finished(values, losses)) => {
            finished.values.as_slice() == values && finished.losses.as_slice() == losses
        }
        (Err(Stop::NoReplacement { worker }), Ending::NoReplacement(named)) => *worker == named,
        (Err(Stop::TooManyLosses { losses }), Ending::TooManyLosses(named)) => {
            losses.as_slice() == named
        }
        (Err(Stop::Budget { base }), Ending::Budget(named)) => *base == named,
        _ => false,
    }
}

/// Runs the job with the script.
fn run<R: Threads + Wait + Sync>(
    rt: &R,
    alloc: Global,
    job: &Job,
    script: &Script,
) -> Result<Result<Finished, Stop>, Fail>
    requires { IsSoundJob job.now }
{
    let losses = script.losses.to_vec(alloc)?;
    let refusals = script.refusals.to_vec(alloc)?;
    let mut nursery = MemNursery::new(alloc, losses, refusals);
    match supervise_serial(rt, alloc, job, &mut nursery) {
        Err(Stop::Memory) => Err(Fail::new("memory was wanting")),
        outcome => Ok(outcome),
    }
}

/// Runs the row, which has to end so.
pub fn ends<R: Abort + Threads + Wait + Sync>(
    rt: &R,
    alloc: Global,
    task: &Task,
    script: &Script,
    ending: Ending,
) -> Result<(), Fail> {
    let job = job_of(alloc, task.program, task.lines, task.sources, &task.team)?;
    let outcome = run(rt, alloc, &job, script)?;
    assert!(rt; ended_so(&outcome, ending));
    Ok(())
}
