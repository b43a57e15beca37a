//! Whole runs, in which the workers have turns one after the other.
use crate::jobs::CutJob;
use crate::plays::{Outcome, Play};
use px_base::Value;
use recovery::{Hub, Why};
use std::alloc::Global;
use std::test::Fail;
use std::thread::Threads;
use system_core::System;

/// A path of forty vertices.
fn long_path(alloc: Global) -> Result<String, Fail> {
    let mut lines = String::new(alloc);
    for k in 1..40u32 {
        write!(lines, "{k} {}\n", k + 1)?;
    }
    Ok(lines)
}

/// How far each of forty vertices is from the first one.
fn distances(alloc: Global) -> Result<Vec<Value>, Fail> {
    let mut all = Vec::new(alloc);
    for k in 0..40u64 {
        all.push(k)?;
    }
    Ok(all)
}

/// What a search from the first vertex of the path comes to with so many rounds.
fn outcome_of<R: Threads + Sync>(rt: &R, alloc: Global, rounds: u64) -> Result<Outcome, Fail> {
    let lines = long_path(alloc)?;
    let job = CutJob::new(alloc, "bfs", &lines, &[0])?;
    let mut play = Play::new(alloc, job, rounds)?;
    play.run(rt)
}

/// Each round takes the distances one vertex further, so that few rounds are too few.
#[test]
fn few_rounds(rt: HostRuntime) -> Result<(), Fail> {
    let outcome = outcome_of(&rt, rt.alloc(), 5)?;
    assert_eq!(&rt; outcome, Outcome::Stopped(Why::Budget));
    Ok(())
}

/// Eight rounds more than there are vertices are enough.
#[test]
fn enough_rounds(rt: HostRuntime) -> Result<(), Fail> {
    let outcome = outcome_of(&rt, rt.alloc(), 48)?;
    assert_eq!(&rt; outcome, Outcome::Done(distances(rt.alloc())?));
    Ok(())
}

/// What a system keeps for contracts has no bytes.
#[test]
fn systems_are_hubs(rt: HostRuntime) {
    assert_eq!(&rt; size_of::<System>(), size_of::<Hub>());
}
