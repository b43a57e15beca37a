//! A link to a world in memory.
ghost use Rattle.std.specs.Prelude.{◌≡◌};

use crate::kept::{KeptPlan, same_plan};
use crate::scripts::{moments_in, next_count, reports_with, some_comes};
use link_trait::{Link, LinkFault, Moment, Scripted};
use px_base::{Answer, Memory};
use recovery::Given;
use shadow::Shadow;
use std::alloc::Global;
use std::marker::Model;
use std::sync::Wait;
use std::thread::Threads;
use worker_world::World;

/// A link to a world in memory, which it tells. It ends in place of its answer at the moments that are scripted for it.
#[derive(Drop)]
pub struct MemLink {
    worker: u32,
    number: u64,
    plan: Shadow<KeptPlan>,
    world: World,
    moments: Vec<Moment>,
    calls: u64,
    reports: u64,
    alive: bool,
    ends: u64,
}

impl Model for MemLink {
    ghost use Rattle.link_trait.specs.Links.{LinkView};

    ghost Value = { LinkView };

    ghost use Rattle.memory_nursery.specs.Views.{link_view, IsMemLink};

    ghost view = { link_view };

    ghost invariant = { IsMemLink };
}

/// What is kept of a link that was retired. Its world isn't in any byte.
#[derive(Drop)]
pub struct RetiredLink {
    worker: u32,
    number: u64,
    calls: u64,
    reports: u64,
    plan: Shadow<KeptPlan>,
    world: Shadow<World>,
}

impl Model for RetiredLink {
    ghost use Rattle.link_trait.specs.Spawners.{Retired};

    ghost Value = { Retired };

    ghost use Rattle.memory_nursery.specs.Views.{retired_view};

    ghost view = { retired_view };
}

impl MemLink {
    ghost use Rattle.std.specs.Prelude.{◌≡◌, ◌≤◌, ◌∷◌, [], true, length, Some, None, IfOk};
    ghost use Rattle.link_trait.specs.Spawners.{kept_of};
    ghost use Rattle.memory_nursery.specs.Keeping.{KeepsLink};
    ghost use Rattle.memory_nursery.specs.Scripts.{moments_of, losses_of};

    /// A link of this number, among those of its worker, to this world. `losses` are those that are scripted for the worker.
    /// Errors: want of memory.
    pub(crate) fn new(
        alloc: Global,
        worker: u32,
        number: u64,
        plan: Shadow<KeptPlan>,
        losses: &[Scripted],
        world: World,
    ) -> Result<MemLink, Memory>
        requires { losses.now ≡ losses_of plan worker }
        ensures { IfOk result (λ link. link ≡ record { worker = worker; mark = record { plan = plan; number = number }; peer = Some world; calls = 0; reports = 0; alive = true; ends = 0; refused = None }) }
    {
        let moments = moments_in(alloc, losses, number)?;
        Ok(MemLink {
            worker,
            number,
            plan,
            world,
            moments,
            calls: 0,
            reports: 0,
            alive: true,
            ends: 0,
        })
    }

    /// Its ends.
    pub(crate) fn ends(&self) -> u64
        ensures ends { result ≡ self.now.ends }
        ensures kept { KeepsLink self.now (moments_of self.now.mark.plan self.now.worker self.now.mark.number) }
    {
        self.ends
    }

    /// What is kept of it once it is retired.
    pub(crate) fn to_keep(&self) -> RetiredLink
        ensures { kept_of self.now self.now.peer ≡ result ∷ [] }
    {
        RetiredLink {
            worker: self.worker,
            number: self.number,
            calls: self.calls,
            reports: self.reports,
            plan: same_plan(&self.plan),
            world: Shadow::of(&self.world),
        }
    }
}

impl Link for MemLink {
    ghost use Rattle.std.specs.Prelude.{◌≡◌, ◌≢◌, ◌↔◌, true, false, IfOk, OnOk, OnErr, Err};
    ghost use denote.Param.Send.{IsSync};
    ghost use Rattle.px_base.specs.declared.wire.Broken.{Broken};
    ghost use Rattle.px_io.specs.Causes.{one_more};
    ghost use Rattle.link_trait.specs.declared.faults.LinkFault.TheVariants as fault;
    ghost use Rattle.link_trait.specs.Counts.{HasRisen};
    ghost use Rattle.link_trait.specs.Links.{Accepts, IsAnswered, IsDead, IsSameLink, is_told, peer_after, refused_after, reports_with};
    ghost use Rattle.memory_nursery.specs.Scripts.{is_to_end};

    ghost shown = { λ link. link };

    fn worker(&self) -> u32 {
        self.worker
    }

    /// Steps the world in memory. It ends in place of its answer, raising its ends by one, exactly where that is scripted for
    /// this call.
    ///
    /// # Errors
    /// `Ended`, exactly where it is scripted for this call; else want of memory alone.
    fn call<R: Threads + Wait + Sync>(&mut self, rt: &R, given: Given) -> Result<Answer, LinkFault>
        requires alive { self.old.alive ≡ true }
        requires mine { given.worker ≡ self.old.worker }
        requires accepted { Accepts self.old.peer given.order }
        requires sync { IsSync R.row }
        ensures scripted { (result ≡ Err fault.Ended) ↔ (is_to_end self.old given.order ≡ true) }
        ensures never { (broken : Broken) → result ≢ Err (fault.Broke broken) }
        ensures ok { IfOk result (λ answer. IsAnswered self.old self.new given.order answer) }
        ensures answered { OnOk result (self.new ≡ record self.old { peer = peer_after self.old.peer given.order; calls = one_more self.old.calls; reports = reports_with self.old.reports given.order }) }
        ensures ended { result ≡ Err fault.Ended → self.new ≡ record self.old { alive = false; ends = one_more self.old.ends } }
        ensures wanted { result ≡ Err fault.Memory → self.new ≡ record self.old { alive = false } }
        ensures risen { result ≡ Err fault.Ended → HasRisen self.old.ends self.new.ends }
        ensures broke { (broken : Broken) → result ≡ Err (fault.Broke broken) → is_told self.old ≡ false }
        ensures refused { self.new.refused ≡ refused_after self.old.refused result }
        ensures dead { OnErr result (IsDead self.old self.new) }
        ensures same { IsSameLink self.old self.new }
    {
        let order = given.order();
        if some_comes(self.moments.as_slice(), next_count(self.calls), order) {
            self.alive = false;
            self.ends = next_count(self.ends);
            return Err(LinkFault::Ended);
        }
        match self.world.step(rt, order) {
            Ok(answer) => {
                self.calls = next_count(self.calls);
                self.reports = reports_with(self.reports, order);
                Ok(answer)
            }
            Err(_) => {
                self.alive = false;
                Err(LinkFault::Memory)
            }
        }
    }
}
