//! Runs with a loss, event by event: each order, each answer and the values at the end.
use crate::jobs::CutJob;
use crate::plays::Play;
use px_base::Pos;
use std::alloc::Global;
use std::process::Abort;
use std::test::Fail;
use std::thread::Threads;

/// Plays the events on the program's job on these lines, whose cuts have to be these.
fn play_all<R: Abort + Threads + Sync>(
    rt: &R,
    alloc: Global,
    (name, lines, sources): (&str, &str, &[Pos]),
    cuts: &[Pos],
    events: &[(u32, &str)],
) -> Result<(), Fail> {
    let job = CutJob::new(alloc, name, lines, sources)?;
    assert_eq!(rt; job.cuts(), cuts);
    let mut play = Play::new(alloc, job, 48)?;
    for (i, event) in events {
        play.play(rt, *i, event)?;
    }
    Ok(())
}

/// Vertices 1 and 2 read each other at no cost, and the second worker's part holds what begins it. The first worker is lost,
/// and its values come back from the second.
#[test]
fn zero_weight_cycle(rt: HostRuntime) -> Result<(), Fail> {
    let events = [
        (0, "joined"),
        (1, "joined"),
        (0, "step 1 0"),
        (0, "stepped 1 0 changed 0:7"),
        (1, "step 1 0 0:7"),
        (1, "stepped 1 0 changed 1:7 2:0"),
        (0, "step 1 1 1:7 2:0"),
        (0, "lost"),
        (0, "joined"),
        (1, "step 2 1"),
        (1, "stepped 2 1 same 1:7 2:0"),
        (0, "step 2 1 1:7 2:0"),
        (0, "stepped 2 1 changed 0:7"),
        (1, "step 2 2 0:7"),
        (1, "stepped 2 2 same"),
        (0, "step 2 2"),
        (0, "stepped 2 2 same"),
        (1, "report 2"),
        (1, "reported 2 7 0"),
        (0, "report 2"),
        (0, "reported 2 7"),
        (1, "done 7 7 0"),
    ];
    let job = ("sssp", "1 2 0\n2 1 0\n3 1 7\n", [2].as_slice());
    play_all(&rt, rt.alloc(), job, &[0, 1, 3], &events)
}

/// A path of four, in which all die. The second worker is lost while it owes its report.
#[test]
fn dying_path(rt: HostRuntime) -> Result<(), Fail> {
    let events = [
        (0, "joined"),
        (1, "joined"),
        (0, "step 1 0"),
        (0, "stepped 1 0 changed 2:1 3:1"),
        (1, "step 1 0 2:1 3:1"),
        (1, "stepped 1 0 changed 0:1 1:1"),
        (0, "step 1 1 0:1 1:1"),
        (0, "stepped 1 1 same"),
        (1, "step 1 1"),
        (1, "stepped 1 1 same"),
        (0, "report 1"),
        (0, "reported 1 0 0"),
        (1, "report 1"),
        (1, "lost"),
        (1, "joined"),
        (0, "step 2 2"),
        (0, "stepped 2 2 same 2:1 3:1"),
        (1, "step 2 2 2:1 3:1"),
        (1, "stepped 2 2 changed 0:1 1:1"),
        (0, "step 2 3 0:1 1:1"),
        (0, "stepped 2 3 same"),
        (1, "step 2 3"),
        (1, "stepped 2 3 same"),
        (0, "report 2"),
        (0, "reported 2 0 0"),
        (1, "report 2"),
        (1, "reported 2 0 0"),
        (0, "done 0 0 0 0"),
    ];
    let job = ("kcore:2", "1 4\n3 4\n2 3\n", [].as_slice());
    play_all(&rt, rt.alloc(), job, &[0, 2, 4], &events)
}

/// A triangle lives on, and the vertex that hangs on it dies. The second worker is lost with a Step.
#[test]
fn triangle_with_a_tail(rt: HostRuntime) -> Result<(), Fail> {
    let events = [
        (0, "joined"),
        (1, "joined"),
        (0, "step 1 0"),
        (0, "stepped 1 0 same"),
        (1, "step 1 0"),
        (1, "stepped 1 0 changed 0:1"),
        (0, "step 1 1 0:1"),
        (0, "stepped 1 1 same"),
        (1, "step 1 1"),
        (1, "lost"),
        (1, "joined"),
        (0, "step 2 2"),
        (0, "stepped 2 2 same"),
        (1, "step 2 2"),
        (1, "stepped 2 2 changed 0:1"),
        (0, "step 2 3 0:1"),
        (0, "stepped 2 3 same"),
        (1, "step 2 3"),
        (1, "stepped 2 3 same"),
        (0, "report 2"),
        (0, "reported 2 1 1"),
        (1, "report 2"),
        (1, "reported 2 1 0"),
        (0, "done 1 1 1 0"),
    ];
    let job = ("kcore:2", "1 2\n1 3\n2 3\n1 4\n", [].as_slice());
    play_all(&rt, rt.alloc(), job, &[0, 2, 4], &events)
}

/// A path of three, in which all die. The first worker is lost with a Step that told it of deaths.
#[test]
fn short_path(rt: HostRuntime) -> Result<(), Fail> {
    let events = [
        (0, "joined"),
        (1, "joined"),
        (0, "step 1 0"),
        (0, "stepped 1 0 changed 1:1"),
        (1, "step 1 0 1:1"),
        (1, "stepped 1 0 changed 0:1"),
        (0, "step 1 1 0:1"),
        (0, "lost"),
        (0, "joined"),
        (1, "step 2 1"),
        (1, "stepped 2 1 same 0:1"),
        (0, "step 2 1 0:1"),
        (0, "stepped 2 1 changed 1:1"),
        (1, "step 2 2 1:1"),
        (1, "stepped 2 2 same"),
        (0, "step 2 2"),
        (0, "stepped 2 2 same"),
        (1, "report 2"),
        (1, "reported 2 0 0"),
        (0, "report 2"),
        (0, "reported 2 0"),
        (1, "done 0 0 0"),
    ];
    let job = ("kcore:2", "1 2\n2 3\n", [].as_slice());
    play_all(&rt, rt.alloc(), job, &[0, 1, 3], &events)
}

/// A triangle, in which nothing ever changes. The second worker is lost while it owes its report.
#[test]
fn triangle(rt: HostRuntime) -> Result<(), Fail> {
    let events = [
        (0, "joined"),
        (1, "joined"),
        (0, "step 1 0"),
        (0, "stepped 1 0 same"),
        (1, "step 1 0"),
        (1, "stepped 1 0 same"),
        (0, "report 1"),
        (0, "reported 1 1"),
        (1, "report 1"),
        (1, "lost"),
        (1, "joined"),
        (0, "step 2 1"),
        (0, "stepped 2 1 same"),
        (1, "step 2 1"),
        (1, "stepped 2 1 same"),
        (0, "report 2"),
        (0, "reported 2 1"),
        (1, "report 2"),
        (1, "reported 2 1 1"),
        (0, "done 1 1 1"),
    ];
    let job = ("kcore:2", "1 2\n2 3\n1 3\n", [].as_slice());
    play_all(&rt, rt.alloc(), job, &[0, 1, 3], &events)
}

/// Four vertices, whose second report is lost: the second worker's distances come back from the first's.
#[test]
fn lost_report(rt: HostRuntime) -> Result<(), Fail> {
    let events = [
        (0, "joined"),
        (1, "joined"),
        (0, "step 1 0"),
        (0, "stepped 1 0 changed 0:0 1:4"),
        (1, "step 1 0 0:0 1:4"),
        (1, "stepped 1 0 changed 2:1"),
        (0, "step 1 1 2:1"),
        (0, "stepped 1 1 changed 1:3"),
        (1, "step 1 1 1:3"),
        (1, "stepped 1 1 changed"),
        (0, "step 1 2"),
        (1, "step 1 2"),
        (0, "stepped 1 2 same"),
        (1, "stepped 1 2 same"),
        (0, "report 1"),
        (0, "reported 1 0 3"),
        (1, "report 1"),
        (1, "lost"),
        (1, "joined"),
        (0, "step 2 3"),
        (0, "stepped 2 3 same 0:0 1:3"),
        (1, "step 2 3 0:0 1:3"),
        (1, "stepped 2 3 changed 2:1"),
        (0, "step 2 4 2:1"),
        (0, "stepped 2 4 same"),
        (1, "step 2 4"),
        (1, "stepped 2 4 same"),
        (0, "report 2"),
        (0, "reported 2 0 3"),
        (1, "report 2"),
        (1, "reported 2 1 8"),
        (0, "done 0 3 1 8"),
    ];
    let job = ("sssp", "1 2 4\n1 3 1\n3 2 2\n2 4 5\n", [0].as_slice());
    play_all(&rt, rt.alloc(), job, &[0, 2, 4], &events)
}
