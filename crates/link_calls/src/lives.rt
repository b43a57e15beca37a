//! A link to a world in memory is started, asked for one thing after another, and comes back.
ghost use Rattle.std.specs.Prelude.{◌≡◌, ◌≤◌, ◌<◌, ◌+◌, ◌^◌, [], ◌∷◌, None, IsOk, IfOk, OnOk, IsSome};
ghost use Rattle.px_base.specs.Classes.{class_of};
ghost use Rattle.px_base.specs.Core.{core_form};
ghost use Rattle.px_base.specs.Parts.{PartFits};
ghost use Rattle.px_base.specs.RowTexts.{IsRowProgram};
ghost use Rattle.link_trait.specs.Links.{CanStart, IsSameLink};
ghost use Rattle.link_calls.specs.Asked.{IsReady, small_rows};

use crate::orders::{report_for, step_for};
use link_trait::{Link, LinkFault, Spawner, StartFault};
use memory_nursery::{MemLink, MemSpawner};
use px_base::{
    Along, Answer, CoreProgram, Fold, Form, Items, Own, Part, Pos, Program, Reads, Rows,
    RowsBuilder, Start, TOP, Value, part_fits,
};
use std::alloc::Global;
use std::sync::Wait;
use std::test::Fail;
use std::thread::Threads;
use value_laws::core_form;

/// What a link is asked.
#[derive(Clone, Copy, Debug, PartialEq, Eq)]
pub enum Asked {
    /// To take the first Step.
    Step,
    /// To report.
    Report,
}

/// What came of a start.
#[derive(Clone, Copy, Debug, PartialEq, Eq)]
pub enum Life {
    /// It was refused.
    Refused,
    /// The link ended, after it had answered so often.
    Ended(usize),
    /// The link answered all, so often.
    Retired(usize),
}

/// A program that counts reads, from the first vertex on.
pub fn program() -> CoreProgram
    ensures form { result ≡ core_form result.program }
    ensures class { IsOk (class_of result.program) }
    ensures numbers { IsRowProgram result.program }
{
    core_form(&Program {
        form: Form::Given,
        reads: Reads::All,
        start: Start::Source(0, TOP),
        along: Along::Plus(1),
        fold: Fold::Least,
        own: Own::Keep,
    })
}

/// The rows of two vertices, of which the second reads the first.
fn rows(alloc: Global, low: Pos) -> Result<Rows, Fail>
    ensures { IfOk result (λ rows. rows ≡ small_rows low) }
{
    let mut rows = RowsBuilder::new(alloc, 2, 1)?;
    rows.end_row()?;
    rows.push(low, 1)?;
    rows.end_row()?;
    Ok(rows.finish())
}

/// A part of two vertices for a worker, of which the second reads the first. Nobody else reads them.
pub fn small_part(alloc: Global, worker: u32) -> Result<Part, Fail>
    requires { worker < 64 }
    ensures fits { IfOk result (λ part. PartFits part) }
    ensures index { IfOk result (λ part. part.index ≡ worker) }
    ensures rows { IfOk result (λ part. part.rows ≡ small_rows (worker + worker)) }
{
    let low = worker + worker;
    let starts: Vec<Value> = vec![in alloc; 0, TOP]?;
    let part = Part {
        index: worker,
        low,
        high: low + 2,
        rows: rows(alloc, low)?,
        starts: Items::from_vec(starts),
        mirrors: Items::from_vec(Vec::new(alloc)),
        mirror_starts: Items::from_vec(Vec::new(alloc)),
        boundary: Items::from_vec(Vec::new(alloc)),
    };
    if part_fits(&part) {
        Ok(part)
    } else {
        Err(Fail::new("no part"))
    }
}

/// The first Step of the link's worker, or its answer, which is none where the link ended.
fn step<R: Threads + Wait + Sync>(
    rt: &R,
    alloc: Global,
    epoch: u32,
    link: &mut MemLink,
) -> Result<Option<Answer>, Fail>
    requires ready { IsReady epoch link.old }
    requires early { epoch ≤ 1 }
    ensures ready { IfOk result (λ answer. IsSome answer → IsReady 1 link.new) }
    ensures same { OnOk result (IsSameLink link.old link.new) }
{
    let given = step_for(alloc, link.worker())?;
    match link.call(rt, given) {
        Ok(answer) => Ok(Some(answer)),
        Err(LinkFault::Ended) => Ok(None),
        Err(_) => Err(Fail::new("another fault")),
    }
}

/// The same with a Report.
fn report<R: Threads + Wait + Sync>(
    rt: &R,
    alloc: Global,
    link: &mut MemLink,
) -> Result<Option<Answer>, Fail>
    requires { IsReady 1 link.old }
    ensures ready { IfOk result (λ answer. IsSome answer → IsReady 1 link.new) }
    ensures same { OnOk result (IsSameLink link.old link.new) }
{
    let given = report_for(alloc, link.worker())?;
    match link.call(rt, given) {
        Ok(answer) => Ok(Some(answer)),
        Err(LinkFault::Ended) => Ok(None),
        Err(_) => Err(Fail::new("another fault")),
    }
}

/// What the link says to what it is asked.
fn ask<R: Threads + Wait + Sync>(
    rt: &R,
    alloc: Global,
    epoch: u32,
    link: &mut MemLink,
    asked: Asked,
) -> Result<Option<Answer>, Fail>
    requires ready { IsReady epoch link.old }
    requires early { epoch ≤ 1 }
    ensures ready { IfOk result (λ answer. IsSome answer → IsReady 1 link.new) }
    ensures same { OnOk result (IsSameLink link.old link.new) }
{
    match asked {
        Asked::Step => step(rt, alloc, epoch, link),
        Asked::Report => {
            if epoch == 1 {
                report(rt, alloc, link)
            } else {
                Err(Fail::new("a Report before a Step"))
            }
        }
    }
}

/// The answer is the right one: the first Step finds that the second vertex is one read away, and any later one changes nothing.
fn is_right(answer: &Answer, asked: Asked, first: bool) -> bool {
    match (asked, answer) {
        (
            Asked::Step,
            Answer::Stepped {
                epoch,
                round,
                changed,
                updates,
            },
        ) => *epoch == 1 && *round == 0 && *changed == first && updates.as_slice().is_empty(),
        (Asked::Report, Answer::Reported { epoch, values }) => {
            *epoch == 1 && values.as_slice() == [0, 1].as_slice()
        }
        _ => false,
    }
}

/// Asks the link for one thing after another, until it ends.
fn ask_all<R: Threads + Wait + Sync>(
    rt: &R,
    alloc: Global,
    link: &mut MemLink,
    asked: &[Asked],
) -> Result<Life, Fail>
    requires { IsReady 0 link.old }
    ensures { OnOk result (IsSameLink link.old link.new) }
{
    let mut epoch = 0;
    let mut answered = 0;
    for what in asked {
        match ask(rt, alloc, epoch, link, *what)? {
            Some(answer) => {
                if !is_right(&answer, *what, epoch == 0) {
                    return Err(Fail::new("a wrong answer"));
                }
                epoch = 1;
                answered += 1;
            }
            None => return Ok(Life::Ended(answered)),
        }
    }
    Ok(Life::Retired(answered))
}

/// A link of the spawner: it is started, asked, and retired where it is alive then.
pub fn live<R: Threads + Wait + Sync>(
    rt: &R,
    alloc: Global,
    spawner: &mut MemSpawner,
    worker: u32,
    asked: &[Asked],
) -> Result<Life, Fail>
    requires few { spawner.old.spawner.starts < 2 ^ 32 }
    requires home { spawner.old.spawner.out ≡ None }
    requires mine { worker ≡ spawner.old.spawner.worker }
    requires inside { worker < 64 }
    ensures home { OnOk result (spawner.new.spawner.out ≡ None) }
    ensures worker { OnOk result (spawner.new.spawner.worker ≡ spawner.old.spawner.worker) }
    ensures mark { OnOk result (spawner.new.spawner.lent_as ≡ spawner.old.spawner.lent_as) }
    ensures starts { OnOk result (spawner.new.spawner.starts ≡ spawner.old.spawner.starts + 1) }
{
    let part = small_part(alloc, worker)?;
    match spawner.start(rt, &part, &program(), 1) {
        Ok(mut link) => {
            let life = ask_all(rt, alloc, &mut link, asked)?;
            match life {
                Life::Retired(_) => spawner.retire(link),
                _ => spawner.discard(link),
            }
            Ok(life)
        }
        Err(StartFault::Refused) => Ok(Life::Refused),
        Err(StartFault::Memory) => Err(Fail::new("no memory")),
    }
}
