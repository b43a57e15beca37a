//! Losses and refused starts, at every place of one job: the distances from vertex 1 along `1 2 4`, `1 3 1`, `3 2 2`, `2 4 5` are 0,
//! 3, 1 and 8. Without a loss each of its two workers takes three Steps and then reports.
use crate::jobs::Team;
use crate::rows::{Ending, Script, Task, ends};
use memory_nursery::{Moment, Refusal, Scripted};
use px_base::{Loss, LossKind, Value};
use std::test::Fail;
use supervisor::Limits;

/// The job, with so many losses allowed.
fn job_with(losses: u32) -> Task<'static> {
    Task {
        program: "sssp",
        lines: "1 2 4\n1 3 1\n3 2 2\n2 4 5\n",
        sources: &[0],
        team: Team {
            workers: 2,
            limits: Limits {
                lag: 0,
                rounds: 1000,
                losses,
            },
            chunks: 1,
        },
    }
}

/// Its answer.
const DISTANCES: [Value; 4] = [0, 3, 1, 8];

/// The link of the worker is to end then.
fn end_of(worker: u32, link: u32, moment: Moment) -> Scripted {
    Scripted {
        worker,
        link,
        moment,
    }
}

/// The worker was lost in the epoch.
fn loss(worker: u32, epoch: u32) -> Loss {
    Loss {
        worker,
        epoch,
        kind: LossKind::Ended,
    }
}

/// Nothing is lost.
#[test]
fn no_loss(rt: HostRuntime) -> Result<(), Fail> {
    let script = Script {
        losses: &[],
        refusals: &[],
    };
    let ending = Ending::Finished(&DISTANCES, &[]);
    ends(&rt, rt.alloc(), &job_with(0), &script, ending)
}

/// Each worker is lost at each of its calls in turn, the fourth of which is its report.
#[test]
fn each_call_of_each_worker(rt: HostRuntime) -> Result<(), Fail> {
    for worker in 0..2u32 {
        for call in 1..5u32 {
            let losses = [end_of(worker, 0, Moment::Call(call))];
            let script = Script {
                losses: &losses,
                refusals: &[],
            };
            let lost = [loss(worker, 1)];
            let ending = Ending::Finished(&DISTANCES, &lost);
            ends(&rt, rt.alloc(), &job_with(1), &script, ending)?;
        }
    }
    Ok(())
}

/// Each worker is lost in place of its first report.
#[test]
fn each_report(rt: HostRuntime) -> Result<(), Fail> {
    for worker in 0..2u32 {
        let losses = [end_of(worker, 0, Moment::Report)];
        let script = Script {
            losses: &losses,
            refusals: &[],
        };
        let lost = [loss(worker, 1)];
        let ending = Ending::Finished(&DISTANCES, &lost);
        ends(&rt, rt.alloc(), &job_with(1), &script, ending)?;
    }
    Ok(())
}

/// No link has a fifth call, and no second link a Report that isn't its first one.
#[test]
fn no_call_too_many(rt: HostRuntime) -> Result<(), Fail> {
    let losses = [
        end_of(0, 0, Moment::Call(5)),
        end_of(1, 0, Moment::Call(5)),
        end_of(0, 1, Moment::Call(1)),
    ];
    let script = Script {
        losses: &losses,
        refusals: &[],
    };
    let ending = Ending::Finished(&DISTANCES, &[]);
    ends(&rt, rt.alloc(), &job_with(0), &script, ending)
}

/// Two links that are to end, by worker, number and moment; and the two losses, by worker and epoch, in order.
type TwoLosses = ([(u32, u32, Moment); 2], [(u32, u32); 2]);

/// Two losses each.
const SEVERAL: [TwoLosses; 5] = [
    // a replacement at its first call
    (
        [(0, 0, Moment::Call(1)), (0, 1, Moment::Call(1))],
        [(0, 1), (0, 2)],
    ),
    // a replacement at its report
    (
        [(1, 0, Moment::Report), (1, 1, Moment::Report)],
        [(1, 1), (1, 2)],
    ),
    // both workers at once, each at its first call
    (
        [(0, 0, Moment::Call(1)), (1, 0, Moment::Call(1))],
        [(0, 1), (1, 2)],
    ),
    // the one at its second call, and the other at its first
    (
        [(0, 0, Moment::Call(2)), (1, 0, Moment::Call(1))],
        [(1, 1), (0, 2)],
    ),
    // both at their first reports, of which the second comes after the first replacement
    (
        [(0, 0, Moment::Report), (1, 0, Moment::Report)],
        [(0, 1), (1, 2)],
    ),
];

/// Two losses are made good where two are allowed, and stop the run where one is.
#[test]
fn two_losses(rt: HostRuntime) -> Result<(), Fail> {
    for ([first, second], [sooner, later]) in SEVERAL {
        let losses = [
            end_of(first.0, first.1, first.2),
            end_of(second.0, second.1, second.2),
        ];
        let lost = [loss(sooner.0, sooner.1), loss(later.0, later.1)];
        let script = Script {
            losses: &losses,
            refusals: &[],
        };
        let ending = Ending::Finished(&DISTANCES, &lost);
        ends(&rt, rt.alloc(), &job_with(2), &script, ending)?;
        let stop = Ending::TooManyLosses(&lost);
        ends(&rt, rt.alloc(), &job_with(1), &script, stop)?;
    }
    Ok(())
}

/// One loss is one too many where none is allowed.
#[test]
fn one_loss_too_many(rt: HostRuntime) -> Result<(), Fail> {
    let losses = [end_of(1, 0, Moment::Call(3))];
    let script = Script {
        losses: &losses,
        refusals: &[],
    };
    let lost = [loss(1, 1)];
    let ending = Ending::TooManyLosses(&lost);
    ends(&rt, rt.alloc(), &job_with(0), &script, ending)
}

/// The first start of a worker is refused; and the second one, that of its replacement.
#[test]
fn refused_starts(rt: HostRuntime) -> Result<(), Fail> {
    for worker in 0..2u32 {
        for start in 1..3u32 {
            let losses = [end_of(worker, 0, Moment::Call(1))];
            let refusals = [Refusal { worker, start }];
            let script = Script {
                losses: &losses,
                refusals: &refusals,
            };
            let ending = Ending::NoReplacement(worker);
            ends(&rt, rt.alloc(), &job_with(2), &script, ending)?;
        }
    }
    Ok(())
}
