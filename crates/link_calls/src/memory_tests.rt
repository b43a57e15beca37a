//! Lives of links to worlds in memory, by their scripts. What comes of each was worked out by hand.
ghost use Rattle.std.specs.Prelude.{◌≡◌, ◌≤◌, ◌<◌, false, IfOk, OnOk};

use crate::lives::Asked::{self, Report, Step};
use crate::lives::Life::{self, Ended, Refused, Retired};
use crate::lives::live;
use link_trait::Nursery;
use memory_nursery::{MemNursery, Moment, Refusal, Scripted};
use std::alloc::Global;
use std::sync::Wait;
use std::test::Fail;
use std::thread::Threads;

/// A link of this worker is started, and asked these. That comes of it.
#[derive(Clone, Copy)]
struct Row(u32, &'static [Asked], Life);

/// The link with the second number, of the worker with the first, ends at this moment.
#[derive(Clone, Copy)]
struct Loss(u32, u32, Moment);

/// The start with the second number, of the worker with the first, is refused.
#[derive(Clone, Copy)]
struct Refuse(u32, u32);

/// The losses.
fn losses_of(alloc: Global, losses: &[Loss]) -> Result<Vec<Scripted>, Fail> {
    let mut script = Vec::with_capacity(alloc, losses.len())?;
    for Loss(worker, link, moment) in losses {
        script.push(Scripted {
            worker: *worker,
            link: *link,
            moment: *moment,
        })?;
    }
    Ok(script)
}

/// The refusals.
fn refusals_of(alloc: Global, refusals: &[Refuse]) -> Result<Vec<Refusal>, Fail> {
    let mut script = Vec::with_capacity(alloc, refusals.len())?;
    for Refuse(worker, start) in refusals {
        script.push(Refusal {
            worker: *worker,
            start: *start,
        })?;
    }
    Ok(script)
}

/// Lends two spawners, lives the lives, and takes the spawners back.
fn lend_for<R: Threads + Wait + Sync>(
    rt: &R,
    alloc: Global,
    nursery: &mut MemNursery,
    rows: &[Row],
) -> Result<(), Fail>
    requires { nursery.old.nursery.lent ≡ false }
    ensures { OnOk result (nursery.new.nursery.lent ≡ false) }
{
    if rows.len() > 100 {
        return Err(Fail::new("too many rows"));
    }
    let mut spawners = nursery.lend(2)?;
    for Row(worker, asked, life) in rows {
        if *worker >= 2 {
            return Err(Fail::new("no such worker"));
        }
        let lived = live(rt, alloc, &mut spawners[*worker as usize], *worker, asked)?;
        if lived != *life {
            return Err(Fail::new("another life"));
        }
    }
    nursery.take_back(spawners);
    nursery.known();
    Ok(())
}

/// Each list of rows is one lending.
fn lend_for_each<R: Threads + Wait + Sync>(
    rt: &R,
    alloc: Global,
    nursery: &mut MemNursery,
    lendings: &[&'static [Row]],
) -> Result<(), Fail>
    requires { nursery.old.nursery.lent ≡ false }
    ensures { OnOk result (nursery.new.nursery.lent ≡ false) }
{
    for rows in lendings {
        lend_for(rt, alloc, nursery, rows)?;
    }
    Ok(())
}

/// Four calls: the last one is a Report.
const FOUR: &[Asked] = &[Step, Step, Step, Report];

/// The lives over a new nursery with these scripts, each list in a lending of its own. The nursery that is left.
fn over_new<R: Threads + Wait + Sync>(
    rt: &R,
    alloc: Global,
    losses: &[Loss],
    refusals: &[Refuse],
    lendings: &[&'static [Row]],
) -> Result<MemNursery, Fail>
    ensures { IfOk result (λ nursery. nursery.nursery.lent ≡ false) }
{
    let mut nursery = MemNursery::new(
        alloc,
        losses_of(alloc, losses)?,
        refusals_of(alloc, refusals)?,
    );
    lend_for_each(rt, alloc, &mut nursery, lendings)?;
    Ok(nursery)
}

const PLAIN: &[Row] = &[
    Row(0, FOUR, Retired(4)),
    Row(1, FOUR, Retired(4)),
    Row(0, FOUR, Retired(4)),
];

/// Without scripts all links answer all that they are asked.
#[test]
fn no_script(rt: HostRuntime) -> Result<(), Fail> {
    over_new(&rt, rt.alloc(), &[], &[], &[PLAIN])?;
    Ok(())
}

const CALLS: [Loss; 3] = [
    Loss(0, 0, Moment::Call(2)),
    Loss(1, 0, Moment::Call(1)),
    Loss(0, 2, Moment::Call(4)),
];

const AT_CALLS: &[Row] = &[
    Row(0, FOUR, Ended(1)),
    Row(1, FOUR, Ended(0)),
    Row(0, FOUR, Retired(4)),
    Row(1, FOUR, Retired(4)),
    Row(0, FOUR, Ended(3)),
];

/// A link ends in place of its answer to the scripted call, and no other link does.
#[test]
fn ends_at_calls(rt: HostRuntime) -> Result<(), Fail> {
    over_new(&rt, rt.alloc(), &CALLS, &[], &[AT_CALLS])?;
    Ok(())
}

const REPORTS: [Loss; 2] = [Loss(0, 0, Moment::Report), Loss(1, 0, Moment::Report)];

const AT_REPORTS: &[Row] = &[
    Row(0, FOUR, Ended(3)),
    Row(1, &[Step, Step], Retired(2)),
    Row(0, &[Step, Report, Report], Retired(3)),
];

/// A link ends at its first Report, if it is asked for one.
#[test]
fn ends_at_reports(rt: HostRuntime) -> Result<(), Fail> {
    over_new(&rt, rt.alloc(), &REPORTS, &[], &[AT_REPORTS])?;
    Ok(())
}

const SEVERAL: [Loss; 4] = [
    Loss(0, 0, Moment::Call(0)),
    Loss(0, 0, Moment::Call(5)),
    Loss(1, 0, Moment::Call(3)),
    Loss(1, 0, Moment::Call(2)),
];

const AT_SEVERAL: &[Row] = &[Row(0, FOUR, Retired(4)), Row(1, FOUR, Ended(1))];

/// Calls count from 1, and the first of several moments counts.
#[test]
fn several_moments(rt: HostRuntime) -> Result<(), Fail> {
    over_new(&rt, rt.alloc(), &SEVERAL, &[], &[AT_SEVERAL])?;
    Ok(())
}

const FIRST: [Loss; 1] = [Loss(0, 0, Moment::Call(1))];

const REFUSED: [Refuse; 3] = [Refuse(0, 1), Refuse(0, 4), Refuse(1, 2)];

const AT_STARTS: &[Row] = &[
    Row(0, FOUR, Refused),
    Row(0, FOUR, Ended(0)),
    Row(0, FOUR, Retired(4)),
    Row(0, FOUR, Refused),
    Row(1, FOUR, Retired(4)),
    Row(1, FOUR, Refused),
];

/// A refused start counts as a start and gives no link, so the next link has its number.
#[test]
fn refused_starts(rt: HostRuntime) -> Result<(), Fail> {
    over_new(&rt, rt.alloc(), &FIRST, &REFUSED, &[AT_STARTS])?;
    Ok(())
}

const SECOND: [Loss; 1] = [Loss(0, 1, Moment::Call(1))];

const THIRD: [Refuse; 1] = [Refuse(0, 3)];

const LENT_ONCE: &[Row] = &[Row(0, FOUR, Retired(4))];

const LENT_AGAIN: &[Row] = &[
    Row(0, FOUR, Ended(0)),
    Row(0, FOUR, Refused),
    Row(0, FOUR, Retired(4)),
];

const ANEW: [Loss; 1] = [Loss(0, 0, Moment::Call(2))];

const REFUSED_ANEW: [Refuse; 1] = [Refuse(1, 1)];

const SCRIPTED_ANEW: &[Row] = &[
    Row(0, FOUR, Ended(1)),
    Row(0, FOUR, Retired(4)),
    Row(1, FOUR, Refused),
];

/// Numbers of links and starts go on from one lending to the next, and begin anew with new scripts.
#[test]
fn numbers(rt: HostRuntime) -> Result<(), Fail> {
    let alloc = rt.alloc();
    let mut nursery = over_new(&rt, alloc, &SECOND, &THIRD, &[LENT_ONCE, LENT_AGAIN])?;
    nursery.script(losses_of(alloc, &ANEW)?, refusals_of(alloc, &REFUSED_ANEW)?);
    lend_for(&rt, alloc, &mut nursery, SCRIPTED_ANEW)
}
