//! A run on one thread.
ghost use Rattle.std.specs.Prelude.{◌≡◌, ◌<◌, ◌^◌, false, sum, IfOk, IfErr};
ghost use Rattle.driver_laws.specs.Jobs.{IsSoundJob};
ghost use Rattle.driver_laws.specs.Endings.{HasStopped, IsBack, IsFinished};

use crate::endings::{keeps_links, outcome_of};
use crate::release::release_all;
use crate::rounds::rounds;
use crate::team::{no_links, prepared, told_by};
use driver_laws::{Finished, Job, Stop};
use link_trait::Nursery;
use std::alloc::Global;
use std::sync::Wait;
use std::thread::Threads;

/// Runs the job over links of the nursery, on this thread. It starts workers 0 to P - 1 in this order, for P workers. Then it gives
/// each worker a turn, in rising order, again and again; a lost worker is replaced in its own turn. After the answer, and where the
/// rounds are spent, the links are retired, and else discarded; all spawners are taken back on every path.
///
/// It may wait for its links and spawners. Where each of their calls returns, it returns.
///
/// # Errors
/// - `NoReplacement` where a start of that worker was refused.
/// - `TooManyLosses` where more losses came than the limits allow, with all of them.
/// - `Budget` where no worker has a round left, though all isn't quiet, with the base. Where the links tell their peers, it never
///   comes with lag 0 and at least n + 8 rounds, for n vertices.
/// - `Memory`. It may come at any time.
pub fn supervise_serial<N: Nursery, R: Threads + Wait + Sync>(
    rt: &R,
    alloc: Global,
    job: &Job,
    nursery: &mut N,
) -> Result<Finished, Stop>
    requires sound { IsSoundJob job.now }
    requires none_lent { (N.shown nursery.old).lent ≡ false }
    requires few_starts { sum (N.shown nursery.old).starts < 2 ^ 62 }
    ensures finished { IfOk result (λ finished. IsFinished job.now (N.shown nursery.old) (N.shown nursery.new) finished) }
    ensures stopped { IfErr result (λ stop. HasStopped job.now (N.shown nursery.old) (N.shown nursery.new) stop) }
    ensures back { IsBack (N.shown nursery.old) (N.shown nursery.new) }
{
    let Ok((team, mut system)) = prepared(alloc, job, told_by(nursery)) else {
        return Err(Stop::Memory);
    };
    let Ok(mut links) = no_links::<N::S>(alloc, job.workers) else {
        return Err(Stop::Memory);
    };
    let Ok(mut spawners) = nursery.lend(job.workers) else {
        return Err(Stop::Memory);
    };
    rounds(rt, &team, &mut system, &mut spawners, &mut links);
    system.known();
    let outcome = outcome_of(alloc, &system);
    release_all(keeps_links(&outcome), &mut spawners, &mut links);
    nursery.take_back(spawners);
    outcome
}
