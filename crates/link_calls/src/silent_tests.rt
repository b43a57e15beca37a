//! Links that tell nothing.
ghost use Rattle.std.specs.Prelude.{◌≡◌, ◌<◌, ◌^◌, true, false, None, IfOk, OnOk};
ghost use Rattle.link_trait.specs.Links.{IsSameLink};
ghost use Rattle.hub_terms.specs.Systems.{AnswersValues};

use crate::lives::{program, small_part};
use crate::orders::step_for;
use crate::silent::{SilentLink, SilentNursery, SilentSpawner};
use link_trait::{Link, LinkFault, Nursery, Spawner, StartFault};
use px_base::{Answer, Broken, Items, Value};
use std::alloc::Global;
use std::sync::Wait;
use std::test::Fail;
use std::thread::Threads;

/// An answer that only this worker gives.
fn odd_answer(alloc: Global) -> Result<Answer, Fail>
    ensures { IfOk result (λ answer. AnswersValues answer) }
{
    let values: Vec<Value> = vec![in alloc; 7]?;
    Ok(Answer::Reported {
        epoch: 3,
        values: Items::from_vec(values),
    })
}

/// A start for this worker is refused.
fn refuses<R: Threads + Wait + Sync>(
    rt: &R,
    alloc: Global,
    spawner: &mut SilentSpawner,
    worker: u32,
) -> Result<(), Fail>
    requires mine { worker ≡ spawner.old.worker }
    requires inside { worker < 64 }
    requires few { spawner.old.starts < 2 ^ 32 }
    requires home { spawner.old.out ≡ None }
    ensures worker { OnOk result (spawner.new.worker ≡ spawner.old.worker) }
    ensures mark { OnOk result (spawner.new.lent_as ≡ spawner.old.lent_as) }
    ensures home { OnOk result (spawner.new.out ≡ None) }
{
    let part = small_part(alloc, worker)?;
    match spawner.start(rt, &part, &program(), 1) {
        Err(StartFault::Refused) => Ok(()),
        _ => Err(Fail::new("not refused")),
    }
}

/// The link hands on the answer, and then it has this fault.
fn hands_on<R: Threads + Wait + Sync>(
    rt: &R,
    alloc: Global,
    link: &mut SilentLink,
    fault: LinkFault,
) -> Result<(), Fail>
    requires mine { link.old.worker ≡ 0 }
    requires silent { link.old.peer ≡ None }
    requires alive { link.old.alive ≡ true }
    ensures same { IsSameLink link.old link.new }
{
    if link.call(rt, step_for(alloc, 0)?) != Ok(odd_answer(alloc)?) {
        return Err(Fail::new("another answer"));
    }
    if link.call(rt, step_for(alloc, 0)?) != Err(fault) {
        return Err(Fail::new("another fault"));
    }
    Ok(())
}

/// The first link of worker 0 hands on the answer, has this fault, and comes back.
fn lives<R: Threads + Wait + Sync>(
    rt: &R,
    alloc: Global,
    spawner: &mut SilentSpawner,
    fault: LinkFault,
) -> Result<(), Fail>
    requires mine { spawner.old.worker ≡ 0 }
    requires few { spawner.old.starts < 2 ^ 32 }
    requires home { spawner.old.out ≡ None }
    requires silent { spawner.old.tells ≡ false }
    ensures worker { OnOk result (spawner.new.worker ≡ spawner.old.worker) }
    ensures mark { OnOk result (spawner.new.lent_as ≡ spawner.old.lent_as) }
    ensures home { OnOk result (spawner.new.out ≡ None) }
{
    let part = small_part(alloc, 0)?;
    match spawner.start(rt, &part, &program(), 1) {
        Ok(mut link) => {
            hands_on(rt, alloc, &mut link, fault)?;
            spawner.discard(link);
            Ok(())
        }
        Err(_) => Err(Fail::new("no link")),
    }
}

/// Lends two spawners that tell nothing. The first link hands on one answer, and then comes this fault.
fn lend_two<R: Threads + Wait + Sync>(
    rt: &R,
    alloc: Global,
    broken: Option<Broken>,
    fault: LinkFault,
) -> Result<(), Fail> {
    let answers = vec![in alloc; odd_answer(alloc)?]?;
    let mut nursery = SilentNursery::new(alloc, answers, broken);
    let mut spawners = nursery.lend(2)?;
    refuses(rt, alloc, &mut spawners[1], 1)?;
    lives(rt, alloc, &mut spawners[0], fault)?;
    nursery.take_back(spawners);
    Ok(())
}

/// No clause needs a peer that is told.
#[test]
fn a_link_ends(rt: HostRuntime) -> Result<(), Fail> {
    lend_two(&rt, rt.alloc(), None, LinkFault::Ended)
}

/// A broken frame carries its fault.
#[test]
fn a_link_breaks(rt: HostRuntime) -> Result<(), Fail> {
    let broken = Broken::Other { kind: 6 };
    lend_two(&rt, rt.alloc(), Some(broken), LinkFault::Broke(broken))
}
