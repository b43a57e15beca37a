//! Runs over links that tell nothing: one worker, whose first link hands on what is written down here.
ghost use Rattle.std.specs.Prelude.{All, IfOk};
ghost use Rattle.px_base.specs.Values.{IsValue};
ghost use Rattle.hub_terms.specs.Systems.{AnswersValues};
ghost use Rattle.link_calls.specs.Silent.{CarryValues};

use crate::jobs::{Team, job_of};
use crate::rows::{Ending, ended_so};
use link_calls::silent::SilentNursery;
use px_base::{Answer, Broken, Foreign, Header, Items, Loss, LossKind, Update, Value};
use std::alloc::Global;
use std::process::Abort;
use std::sync::Wait;
use std::test::Fail;
use std::thread::Threads;
use supervisor::{Limits, Stop, supervise_serial};

/// So many workers, of whom one may be lost.
fn team_of(workers: u32) -> Team {
    Team {
        workers,
        limits: Limits {
            lag: 0,
            rounds: 10,
            losses: 1,
        },
        chunks: 1,
    }
}

/// Runs the distances along one edge. The first link of worker 0 hands on the answers, the last one first, and then it breaks so,
/// or ends; later links do that at once.
fn ends<R: Abort + Threads + Wait + Sync>(
    rt: &R,
    alloc: Global,
    workers: u32,
    answers: Vec<Answer>,
    broken: Option<Broken>,
    ending: Ending,
) -> Result<(), Fail>
    requires { CarryValues answers.items }
{
    let job = job_of(alloc, "bfs", "1 2\n", &[0], &team_of(workers))?;
    let mut nursery = SilentNursery::new(alloc, answers, broken);
    let outcome = supervise_serial(rt, alloc, &job, &mut nursery);
    if let Err(Stop::Memory) = outcome {
        return Err(Fail::new("memory was wanting"));
    }
    assert!(rt; ended_so(&outcome, ending));
    Ok(())
}

/// An answer to the Step of this round, with no updates.
fn stepped(alloc: Global, round: u64) -> Answer
    ensures { AnswersValues result }
{
    Answer::Stepped {
        epoch: 1,
        round,
        changed: round == 0,
        updates: Items::from_vec(Vec::new(alloc)),
    }
}

/// An answer to a Report.
fn reported(alloc: Global, values: &[Value]) -> Result<Answer, Fail>
    requires { All IsValue values.now }
    ensures { IfOk result (λ answer. AnswersValues answer) }
{
    Ok(Answer::Reported {
        epoch: 1,
        values: Items::from_vec(values.to_vec(alloc)?),
    })
}

/// The worker was lost in this epoch, in this way.
fn loss(epoch: u32, kind: LossKind) -> Loss {
    Loss {
        worker: 0,
        epoch,
        kind,
    }
}

/// What is refused of the first link, which is lost; the second one ends, and that is one loss too many.
fn is_refused<R: Abort + Threads + Wait + Sync>(
    rt: &R,
    alloc: Global,
    answers: Vec<Answer>,
    fault: Foreign,
) -> Result<(), Fail>
    requires { CarryValues answers.items }
{
    let lost = [
        loss(1, LossKind::Broke(Broken::Foreign(fault))),
        loss(2, LossKind::Ended),
    ];
    ends(rt, alloc, 1, answers, None, Ending::TooManyLosses(&lost))
}

/// Well formed answers are taken, though the second value is a lie.
#[test]
fn a_lie_is_taken(rt: HostRuntime) -> Result<(), Fail> {
    let alloc = rt.alloc();
    let last = reported(alloc, &[0, 9])?;
    let answers = vec![in alloc; last, stepped(alloc, 1), stepped(alloc, 0)]?;
    ends(&rt, alloc, 1, answers, None, Ending::Finished(&[0, 9], &[]))
}

/// An answer to another order is refused.
#[test]
fn unordered(rt: HostRuntime) -> Result<(), Fail> {
    let alloc = rt.alloc();
    let answers = vec![in alloc; reported(alloc, &[7])?]?;
    let due = Header {
        kind: 9,
        epoch: 1,
        round: 0,
    };
    let got = Header {
        kind: 10,
        epoch: 1,
        round: 0,
    };
    is_refused(&rt, alloc, answers, Foreign::Unordered { due, got })
}

/// A report of too few values is refused.
#[test]
fn short(rt: HostRuntime) -> Result<(), Fail> {
    let alloc = rt.alloc();
    let last = reported(alloc, &[0])?;
    let answers = vec![in alloc; last, stepped(alloc, 1), stepped(alloc, 0)]?;
    is_refused(&rt, alloc, answers, Foreign::Short { due: 2, got: 1 })
}

/// An update of a vertex that nobody mirrors is refused.
#[test]
fn unknown_vertex(rt: HostRuntime) -> Result<(), Fail> {
    let alloc = rt.alloc();
    let update = Update {
        vertex: 1,
        value: 4,
    };
    let answer = Answer::Stepped {
        epoch: 1,
        round: 0,
        changed: true,
        updates: Items::from_vec(vec![in alloc; update]?),
    };
    let answers = vec![in alloc; answer]?;
    is_refused(&rt, alloc, answers, Foreign::Vertex { vertex: 1 })
}

/// A link that breaks is a loss with its fault.
#[test]
fn broken(rt: HostRuntime) -> Result<(), Fail> {
    let fault = Broken::Other { kind: 6 };
    let lost = [
        loss(1, LossKind::Broke(fault)),
        loss(2, LossKind::Broke(fault)),
    ];
    let none = Vec::new(rt.alloc());
    let ending = Ending::TooManyLosses(&lost);
    ends(&rt, rt.alloc(), 1, none, Some(fault), ending)
}

/// The start of the second worker is refused.
#[test]
fn no_second_worker(rt: HostRuntime) -> Result<(), Fail> {
    let none = Vec::new(rt.alloc());
    ends(&rt, rt.alloc(), 2, none, None, Ending::NoReplacement(1))
}
