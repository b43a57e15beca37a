//! Jobs of each class, by several workers, with a loss and without.
use crate::jobs::Team;
use crate::rows::{Ending, Script, Task, ends};
use memory_nursery::{Moment, Scripted};
use px_base::{Loss, LossKind, Pos, TOP, Value};
use std::alloc::Global;
use std::test::Fail;
use supervisor::Limits;

/// Four edges, of which the first three make a triangle.
const A: &str = "1 2 4\n1 3 1\n3 2 2\n2 4 5\n";

/// So many workers, how many rounds one may go ahead, and in how many pieces each renews its masters.
type Workers = (u32, u32, u32);

/// The same, with rounds enough, and one loss allowed.
fn team_of((workers, lag, chunks): Workers) -> Team {
    Team {
        workers,
        limits: Limits {
            lag,
            rounds: 1000,
            losses: 1,
        },
        chunks,
    }
}

/// Programs, their lines and sources, the workers, and the core values of the answer.
const ANSWERS: [(&str, &str, &[Pos], Workers, &[Value]); 12] = [
    ("sssp", A, &[0], (1, 0, 1), &[0, 3, 1, 8]),
    ("sssp", A, &[0], (64, 0, 1), &[0, 3, 1, 8]),
    ("sssp", A, &[0], (2, 2, 3), &[0, 3, 1, 8]),
    (
        "widest",
        A,
        &[0],
        (2, 0, 1),
        &[0, TOP - 4, TOP - 1, TOP - 4],
    ),
    ("bfs", A, &[3], (2, 0, 1), &[TOP, TOP, TOP, 0]),
    ("colour", A, &[], (2, 0, 1), &[0, 1, 2, 0]),
    (
        "levels",
        A,
        &[],
        (2, 2, 3),
        &[TOP, TOP - 1, TOP - 2, TOP - 2],
    ),
    ("kcore:2", A, &[], (2, 0, 1), &[1, 1, 1, 0]),
    ("components", "", &[], (3, 0, 1), &[]),
    ("components", "7 5\n9 8\n", &[], (3, 0, 1), &[5, 5, 8, 8]),
    ("kcore:1", "5 5\n5 6\n6 5\n", &[], (2, 0, 1), &[1, 1]),
    ("levels", "5 5\n5 6\n6 5\n", &[], (2, 0, 1), &[TOP, TOP - 1]),
];

/// Each has its answer.
#[test]
fn answers(rt: HostRuntime) -> Result<(), Fail> {
    let script = Script {
        losses: &[],
        refusals: &[],
    };
    for (program, lines, sources, workers, values) in ANSWERS {
        let task = Task {
            program,
            lines,
            sources,
            team: team_of(workers),
        };
        let ending = Ending::Finished(values, &[]);
        ends(&rt, rt.alloc(), &task, &script, ending)?;
    }
    Ok(())
}

/// Programs, their lines and sources, whose link ends and at which call, and the core values of the answer.
const LOST: [(&str, &str, &[Pos], u32, u32, &[Value]); 4] = [
    // vertices 1 and 2 read each other at no cost
    ("sssp", "1 2 0\n2 1 0\n3 1 7\n", &[2], 0, 2, &[7, 7, 0]),
    // the dead that were announced before the loss are announced again
    ("kcore:2", "1 4\n3 4\n2 3\n", &[], 1, 3, &[0, 0, 0, 0]),
    // a death that is announced twice counts once
    ("kcore:2", "1 2\n1 3\n2 3\n1 4\n", &[], 1, 2, &[1, 1, 1, 0]),
    ("colour", A, &[], 0, 1, &[0, 1, 2, 0]),
];

/// Each has its answer after a loss.
#[test]
fn answers_after_a_loss(rt: HostRuntime) -> Result<(), Fail> {
    for (program, lines, sources, worker, call, values) in LOST {
        let task = Task {
            program,
            lines,
            sources,
            team: team_of((2, 0, 1)),
        };
        let losses = [Scripted {
            worker,
            link: 0,
            moment: Moment::Call(call),
        }];
        let script = Script {
            losses: &losses,
            refusals: &[],
        };
        let lost = [Loss {
            worker,
            epoch: 1,
            kind: LossKind::Ended,
        }];
        let ending = Ending::Finished(values, &lost);
        ends(&rt, rt.alloc(), &task, &script, ending)?;
    }
    Ok(())
}

/// A path of forty vertices.
fn long_path(alloc: Global) -> Result<String, Fail> {
    let mut lines = String::new(alloc);
    for k in 1..40u32 {
        write!(lines, "{k} {}\n", k + 1)?;
    }
    Ok(lines)
}

/// The distances along the path.
fn distances(alloc: Global) -> Result<Vec<Value>, Fail> {
    let mut values = Vec::new(alloc);
    for k in 0..40u64 {
        values.push(k)?;
    }
    Ok(values)
}

/// The job of the distances along the path, with so many rounds.
fn path_job(lines: &str, rounds: u64) -> Task<'_> {
    Task {
        program: "bfs",
        lines,
        sources: &[0],
        team: Team {
            workers: 2,
            limits: Limits {
                lag: 0,
                rounds,
                losses: 1,
            },
            chunks: 1,
        },
    }
}

/// Each round takes the distances one vertex further. Five rounds are too few, and eight more than there are vertices are enough.
#[test]
fn rounds_are_counted(rt: HostRuntime) -> Result<(), Fail> {
    let lines = long_path(rt.alloc())?;
    let values = distances(rt.alloc())?;
    let script = Script {
        losses: &[],
        refusals: &[],
    };
    let few = path_job(&lines, 5);
    ends(&rt, rt.alloc(), &few, &script, Ending::Budget(0))?;
    let enough = path_job(&lines, 48);
    let ending = Ending::Finished(&values, &[]);
    ends(&rt, rt.alloc(), &enough, &script, ending)
}

/// After a loss rounds are counted from the greatest round at the join: worker 0 is lost at its second call, worker 1 takes its
/// second Step, and then the new worker 0 joins at round 2.
#[test]
fn rounds_are_counted_anew(rt: HostRuntime) -> Result<(), Fail> {
    let lines = long_path(rt.alloc())?;
    let losses = [Scripted {
        worker: 0,
        link: 0,
        moment: Moment::Call(2),
    }];
    let script = Script {
        losses: &losses,
        refusals: &[],
    };
    let few = path_job(&lines, 5);
    ends(&rt, rt.alloc(), &few, &script, Ending::Budget(2))
}
