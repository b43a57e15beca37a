//! What a system keeps for contracts alone. None of it is in any byte: each content is made from what a function is lent.
ghost use Rattle.std.specs.Prelude.{◌≡◌, replicate, slice_set, None};
ghost use Rattle.hub_terms.specs.Hubs.{worker_count};
ghost use Rattle.hub_terms.specs.Jobs.{job_of};
ghost use Rattle.hub_terms.specs.Systems.{new_world_at, world_after};

use crate::system::System;
use px_base::{CoreProgram, ReadGraph, Value};
use recovery::Hub;
use shadow::Shadow;
use std::marker::Model;

/// The graph's rows, the program and the core start values, for contracts.
#[derive(Drop)]
pub struct KeptJob {}

impl Model for KeptJob {
    ghost use Rattle.hub_terms.specs.Jobs.{Job};
    ghost use Rattle.system_core.specs.Kept.{no_job};

    ghost Value = { Job };

    ghost view = { λ _. no_job };
}

/// The world of each worker that has one, for contracts.
#[derive(Drop)]
pub struct KeptWorlds {}

impl Model for KeptWorlds {
    ghost use Rattle.std.specs.Prelude.{List, [], Option};
    ghost use Rattle.px_base.specs.Worlds.{World as WorldData};

    ghost Value = { List (Option WorldData) };

    ghost view = { λ _. [] };
}

/// The program and the start values of a job.
fn note_program(job: &mut Shadow<KeptJob>, core: &CoreProgram, starts: &[Value])
    ensures { job.new ≡ record job.old { core = core.now; starts = starts.now } }
{
    job.go_to(&(core, starts));
}

/// The rows of a job.
fn note_rows(job: &mut Shadow<KeptJob>, graph: &ReadGraph)
    ensures { job.new ≡ record job.old { rows = graph.now.rows } }
{
    job.go_to(graph);
}

/// The job of the graph, the program and the core start values.
pub fn job_of(graph: &ReadGraph, core: &CoreProgram, starts: &[Value]) -> Shadow<KeptJob>
    ensures { result ≡ job_of graph.now core.now starts.now }
{
    let mut job = Shadow::of(&KeptJob {});
    note_program(&mut job, core, starts);
    note_rows(&mut job, graph);
    job
}

/// No worker has a world.
pub fn no_worlds(hub: &Hub) -> Shadow<KeptWorlds>
    ensures { result ≡ replicate (worker_count hub.now) None }
{
    let mut worlds = Shadow::of(&KeptWorlds {});
    worlds.go_to(hub);
    worlds
}

/// The worlds once that of worker `i` has taken the step of its order.
pub fn worlds_stepped(system: &System, i: u32) -> Shadow<KeptWorlds>
    ensures { result ≡ slice_set system.now.worlds i (world_after system.now i) }
{
    let mut worlds = Shadow::of(&KeptWorlds {});
    worlds.go_to(&(system, i));
    worlds
}

/// The worlds without that of worker `i`.
pub fn worlds_without(system: &System, i: u32) -> Shadow<KeptWorlds>
    ensures { result ≡ slice_set system.now.worlds i None }
{
    let mut worlds = Shadow::of(&KeptWorlds {});
    worlds.go_to(&(system, i));
    worlds
}

/// The worlds with a new one for worker `i`, where the links tell their peers.
pub fn worlds_with_new(system: &System, i: u32) -> Shadow<KeptWorlds>
    ensures { result ≡ slice_set system.now.worlds i (new_world_at system.now i) }
{
    let mut worlds = Shadow::of(&KeptWorlds {});
    worlds.go_to(&(system, i));
    worlds
}
