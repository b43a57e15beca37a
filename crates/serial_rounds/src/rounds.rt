//! The rounds of all workers, in core values.
ghost use Rattle.std.specs.Prelude.{◌≡◌, ◌≤◌, All, IfOk, IsFalse, IsTrue, map};
ghost use Rattle.std.specs.List.{flat_map};
ghost use Rattle.px_base.specs.declared.TheConstants.{MOST_READS, MOST_VERTICES};
ghost use Rattle.px_base.specs.Values.{IsValueList};
ghost use Rattle.px_base.specs.Graphs.{HasWeights, RowsFit, read_count};
ghost use Rattle.px_base.specs.Parts.{IsWorkerCuts, PartFits};
ghost use Rattle.px_base.specs.Classes.{counts_reads, is_mex, keeps};
ghost use Rattle.px_base.specs.Core.{core_form};
ghost use Rattle.px_base.specs.Worlds.{masters_of, new_world};
ghost use Rattle.consistent_solver.specs.CoreLists.{IsGreatestCoreConsistent};

use crate::inboxes::{deliver, empty_inboxes};
use crate::steps::{are_still, step_all};
use partitioner::{Cuts, parts_and_routes};
use px_base::{CoreProgram, Items, Memory, Part, ReadGraph, Value};
use std::alloc::Global;
use std::thread::Threads;
use worker_world::World;

/// Each worker computes on one thread.
const CHUNKS: u32 = 1;

/// The new worlds of the parts, in their order.
fn new_worlds(alloc: Global, parts: Items<Part>, core: CoreProgram) -> Result<Vec<World>, Memory>
    requires fits { All PartFits parts }
    requires weights { All (λ part. HasWeights part.rows) parts }
    requires reads { All (λ part. read_count part.rows ≤ MOST_READS) parts }
    requires core { core ≡ core_form core.program }
    ensures { IfOk result (λ worlds. worlds.items ≡ map (λ part. new_world part core) parts) }
{
    let parts = parts.into_vec();
    let mut worlds = Vec::with_capacity(alloc, parts.len())?;
    for part in parts {
        worlds.push(World::new(alloc, part, core, CHUNKS)?)?;
    }
    Ok(worlds)
}

/// The values of all masters, in the order of the workers.
fn joined(alloc: Global, n: u32, worlds: &[World]) -> Result<Vec<Value>, Memory>
    ensures { IfOk result (λ values. values.items ≡ flat_map masters_of worlds.now) }
{
    let mut values = Vec::with_capacity(alloc, n as usize)?;
    for world in worlds {
        values.extend_from_slice(world.masters())?;
    }
    Ok(values)
}

/// The greatest consistent list of core values, by a worker for each part that the cuts make. Each round but the first lowers
/// the value of some vertex, so the rounds come to an end.
pub fn settled<R: Threads + Sync>(
    rt: &R,
    alloc: Global,
    graph: ReadGraph,
    core: CoreProgram,
    starts: &[Value],
    cuts: &Cuts,
) -> Result<Vec<Value>, Memory>
    requires core { core ≡ core_form core.program }
    requires keeps { IsTrue (keeps core.program.own) }
    requires mex { IsFalse (is_mex core.program.fold) }
    requires count { IsFalse (counts_reads core.program.fold) }
    requires rows { RowsFit graph.n graph.rows }
    requires vertices { graph.n ≤ MOST_VERTICES }
    requires reads { read_count graph.rows ≤ MOST_READS }
    requires starts { IsValueList graph.n starts.now }
    requires cuts { IsWorkerCuts graph.n cuts.now.ends }
    ensures { IfOk result (λ values. IsGreatestCoreConsistent core graph.rows starts.now values.items) }
{
    let n = graph.n;
    let (parts, routes) = parts_and_routes(alloc, &graph.rows, starts, cuts)?;
    drop(graph);
    let mut worlds = new_worlds(alloc, parts, core)?;
    let mut inboxes = empty_inboxes(alloc, worlds.len())?;
    let mut round: u64 = 0;
    loop {
        let sent = step_all(rt, alloc, round, &mut worlds, &mut inboxes)?;
        if are_still(&sent) {
            return joined(alloc, n, &worlds);
        }
        deliver(&mut inboxes, routes.to.as_slice(), &sent)?;
        round = round.saturating_add(1);
    }
}
