//! What a run is made of before its first event.
ghost use Rattle.std.specs.Prelude.{◌≡◌, ◌<◌, ◌≤◌, length, replicate, IfOk, None};
ghost use Rattle.px_base.specs.Classes.{counts_reads};
ghost use Rattle.px_base.specs.Parts.{block_cuts};
ghost use Rattle.hub_terms.specs.Jobs.{job_of};
ghost use Rattle.hub_terms.specs.Systems.{opening_system};
ghost use Rattle.link_trait.specs.Nurseries.{NurseryView};
ghost use Rattle.driver_laws.specs.Jobs.{IsSoundJob, vertices};
ghost use Rattle.supervisor.specs.Teams.{IsTeamOf};

use driver_laws::Job;
use link_trait::{Nursery, Spawner};
use partitioner::{cut, parts_and_routes};
use px_base::{CoreProgram, Fold, Items, Memory, Part};
use recovery::Hub;
use shadow::Shadow;
use std::alloc::Global;
use system_core::System;

/// What the workers are started with: the part of each, and for all of them the program, and in how many pieces they renew their
/// masters. It is made once, and lent to each start.
#[derive(Drop)]
pub struct Team {
    /// The part of each worker, in the order of the workers.
    pub parts: Items<Part>,
    /// The program in core values.
    pub core: CoreProgram,
    /// In how many pieces a worker renews its masters.
    pub chunks: u32,
}

/// Whether the program counts.
fn counts(fold: Fold) -> bool
    ensures { result ≡ counts_reads fold }
{
    match fold {
        Fold::Count(_) => true,
        Fold::Least => false,
        Fold::Greatest => false,
        Fold::Mex => false,
    }
}

/// The parts of the job's workers, and the system before its first event.
///
/// # Errors
/// `Memory` where there is no room for the parts or for the hub.
pub fn prepared(alloc: Global, job: &Job, told: Shadow<bool>) -> Result<(Team, System), Memory>
    requires { IsSoundJob job.now }
    ensures team { IfOk result (λ both. IsTeamOf both.0 both.1) }
    ensures system { IfOk result (λ both. both.1 ≡ opening_system (block_cuts (vertices job.now) job.now.workers) job.now.limits told (job_of job.now.graph job.now.core job.now.starts)) }
{
    let rows = &job.graph.rows;
    let cuts = cut(alloc, rows.row_count() as u32, job.workers)?;
    let starts = job.starts.as_slice();
    let (parts, routes) = parts_and_routes(alloc, rows, starts, &cuts)?;
    let hub = Hub::new(
        alloc,
        routes,
        cuts,
        counts(job.core.program.fold),
        job.limits,
    )?;
    let system = System::new(hub, &job.graph, &job.core, starts, told);
    let team = Team {
        parts,
        core: job.core,
        chunks: job.chunks,
    };
    Ok((team, system))
}

/// Whether the links of the nursery tell their peers, for contracts.
pub fn told_by<N: Nursery>(nursery: &N) -> Shadow<bool>
    ensures { result ≡ (N.shown nursery.now).tells }
{
    let mut told = Shadow::of(&false);
    told.go_to(nursery);
    told
}

/// No link for any worker.
///
/// # Errors
/// `Memory` where there is no room for so many links.
pub fn no_links<S: Spawner>(alloc: Global, workers: u32) -> Result<Vec<Option<S::L>>, Memory>
    ensures { IfOk result (λ links. links.items ≡ replicate workers None) }
{
    let mut links: Vec<Option<S::L>> = Vec::with_capacity(alloc, workers as usize)?;
    for _ in 0..workers {
        links.push(None)?;
    }
    Ok(links)
}
