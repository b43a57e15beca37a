//! What starts the links of one worker to worlds in memory.
ghost use Rattle.std.specs.Prelude.{◌≡◌, ◌<◌, ◌≤◌, IfOk, OnOk, vec_len, vec_capacity};
ghost use Rattle.px_base.specs.Worlds.{new_world};
ghost use Rattle.link_trait.specs.Links.{CanStart};

use crate::counts::WorkerCounts;
use crate::kept::{KeptMark, plan_of};
use crate::mem_link::{MemLink, RetiredLink};
use crate::scripts::{is_refused, next_count};
use link_trait::{Scripted, Spawner, StartFault};
use px_base::{CoreProgram, Memory, Part};
use shadow::Shadow;
use std::alloc::Global;
use std::marker::Model;
use std::sync::Wait;
use std::thread::Threads;
use worker_world::World;

/// Starts the links of one worker to worlds in memory. The starts that are scripted are refused.
#[derive(Drop)]
pub struct MemSpawner {
    alloc: Global,
    worker: u32,
    starts_before: u64,
    links_before: u64,
    losses: Vec<Scripted>,
    refused: Vec<u32>,
    starts: u64,
    faults: u64,
    ends: u64,
    links: u64,
    retired: Vec<RetiredLink>,
    out: Option<u64>,
    lent_as: Shadow<KeptMark>,
}

impl Model for MemSpawner {
    ghost use Rattle.memory_nursery.specs.States.{SpawnerState};

    ghost Value = { SpawnerState };

    ghost use Rattle.memory_nursery.specs.Views.{spawner_view, IsMemSpawner};

    ghost view = { spawner_view };

    ghost invariant = { IsMemSpawner };
}

/// Makes room for one retired link. Errors: want of memory.
fn make_room(retired: &mut Vec<RetiredLink>) -> Result<(), Memory>
    ensures items { retired.new.items ≡ retired.old.items }
    ensures len { vec_len retired.new ≡ vec_len retired.old }
    ensures room { OnOk result (vec_len retired.new < vec_capacity retired.new) }
    ensures capacity { vec_capacity retired.old ≤ vec_capacity retired.new }
{
    retired.reserve(1)?;
    Ok(())
}

/// The new world of the part. Errors: want of memory.
fn new_world(alloc: Global, part: &Part, core: &CoreProgram, chunks: u32) -> Result<World, Memory>
    requires { CanStart part.now core.now chunks }
    ensures { IfOk result (λ world. world ≡ new_world part.now core.now) }
{
    let own = part.try_clone()?;
    World::new(alloc, own, *core, chunks)
}

impl MemSpawner {
    ghost use Rattle.std.specs.Prelude.{◌≡◌, ◌<◌, ◌^◌, [], true, None, IfOk, slice_index};
    ghost use Rattle.memory_nursery.specs.Scripts.{losses_of, refused_starts};
    ghost use Rattle.memory_nursery.specs.States.{new_link, next_start, refuses_next};
    ghost use Rattle.memory_nursery.specs.Keeping.{KeepsSpawner};
    ghost use Rattle.memory_nursery.specs.Tallies.{with_spawner};

    /// A spawner of this mark for the worker, which had so many starts and links before. `losses` are those that are scripted
    /// for it, and `refused` its starts that are to be refused. Takes no memory.
    pub(crate) fn new(
        alloc: Global,
        worker: u32,
        starts_before: u64,
        links_before: u64,
        losses: Vec<Scripted>,
        refused: Vec<u32>,
        lent_as: Shadow<KeptMark>,
    ) -> MemSpawner
        requires starts { starts_before ≡ slice_index lent_as.starts worker }
        requires links { links_before ≡ slice_index lent_as.links worker }
        requires losses { losses.items ≡ losses_of lent_as.plan worker }
        requires refused { refused.items ≡ refused_starts lent_as.plan worker }
        ensures { result ≡ record { spawner = record { worker = worker; starts = 0; faults = 0; ends = 0; retired = []; lent_as = lent_as; out = None; tells = true; plan = lent_as.plan }; links = 0 } }
    {
        MemSpawner {
            alloc,
            worker,
            starts_before,
            links_before,
            losses,
            refused,
            starts: 0,
            faults: 0,
            ends: 0,
            links: 0,
            retired: Vec::new(alloc),
            out: None,
            lent_as,
        }
    }

    /// Whether the next start is to be refused.
    fn refuses_next(&self) -> bool
        requires few { self.now.spawner.starts < 2 ^ 32 }
        ensures listed { result ≡ refuses_next self.now }
        ensures early { result ≡ true → next_start self.now < 2 ^ 32 }
    {
        let start = self.starts_before.saturating_add(self.starts + 1);
        is_refused(self.refused.as_slice(), start)
    }

    /// Adds up what came back with it, and moves its list of retired links out.
    pub(crate) fn into_counts(self, counts: &mut WorkerCounts) -> Vec<RetiredLink>
        ensures counts { counts.new ≡ with_spawner counts.old self }
        ensures retired { result.items ≡ self.spawner.retired }
        ensures kept { KeepsSpawner self }
    {
        let MemSpawner {
            starts,
            faults,
            ends,
            links,
            retired,
            ..
        } = self;
        counts.starts = counts.starts.saturating_add(starts);
        counts.faults = counts.faults.saturating_add(faults);
        counts.ends = counts.ends.saturating_add(ends);
        counts.starts_since = counts.starts_since.saturating_add(starts);
        counts.links_since = counts.links_since.saturating_add(links);
        retired
    }
}

impl Spawner for MemSpawner {
    type L = MemLink;

    ghost use Rattle.std.specs.Prelude.{◌≡◌, ◌<◌, ◌≤◌, ◌^◌, ◌↔◌, true, None, Err, IfOk, OnOk, OnErr};
    ghost use denote.Param.Send.{IsSync};
    ghost use Rattle.link_trait.specs.declared.faults.StartFault.TheVariants as fault;
    ghost use Rattle.link_trait.specs.Links.{CanStart};
    ghost use Rattle.link_trait.specs.Counts.{HasRisen};
    ghost use Rattle.link_trait.specs.Spawners.{IsLinkOf, IsStarted, not_started, retired, discarded};
    ghost use Rattle.memory_nursery.specs.States.{refuses_next, new_link, with_link, without_start};

    ghost shown = { λ s. s.spawner };

    /// Makes the new world of the part. The start is refused, raising the count of faults by one, exactly where that is
    /// scripted.
    ///
    /// # Errors
    /// `Refused`, exactly where it is scripted; else want of memory alone.
    fn start<R: Threads + Wait + Sync>(
        &mut self,
        _rt: &R,
        part: &Part,
        core: &CoreProgram,
        chunks: u32,
    ) -> Result<MemLink, StartFault>
        requires mine { part.now.index ≡ self.old.spawner.worker }
        requires can { CanStart part.now core.now chunks }
        requires few { self.old.spawner.starts < 2 ^ 32 }
        requires none_out { self.old.spawner.out ≡ None }
        requires sync { IsSync R.row }
        ensures scripted { (result ≡ Err fault.Refused) ↔ (refuses_next self.old ≡ true) }
        ensures link { IfOk result (λ link. link ≡ new_link self.old part.now core.now) }
        ensures started { OnOk result (self.new ≡ with_link self.old) }
        ensures unstarted { OnErr result (self.new ≡ without_start self.old) }
        ensures ok { IfOk result (λ link. IsStarted self.old.spawner self.new.spawner part.now core.now link) }
        ensures refused { result ≡ Err fault.Refused → HasRisen self.old.spawner.faults self.new.spawner.faults }
        ensures err { OnErr result (self.new.spawner ≡ not_started self.old.spawner self.new.spawner.faults) }
        ensures faults { self.old.spawner.faults ≤ self.new.spawner.faults }
    {
        if self.refuses_next() {
            self.starts += 1;
            self.faults = next_count(self.faults);
            return Err(StartFault::Refused);
        }
        self.starts += 1;
        make_room(&mut self.retired)?;
        let world = new_world(self.alloc, part, core, chunks)?;
        let number = self.links_before.saturating_add(self.links);
        let link = MemLink::new(
            self.alloc,
            self.worker,
            number,
            plan_of(&self.lent_as),
            self.losses.as_slice(),
            world,
        )?;
        self.out = Some(number);
        self.links += 1;
        Ok(link)
    }

    /// Takes the link back, and keeps of it what contracts want. Takes no memory.
    fn retire(&mut self, link: MemLink)
        requires { IsLinkOf self.old.spawner link }
        ensures { self.new ≡ record self.old { spawner = retired self.old.spawner link } }
    {
        self.ends = self.ends.saturating_add(link.ends());
        self.out = None;
        self.retired.push_reserved(link.to_keep());
    }

    /// Takes the link back, and keeps nothing of it. Takes no memory.
    fn discard(&mut self, link: MemLink)
        requires { IsLinkOf self.old.spawner link }
        ensures { self.new ≡ record self.old { spawner = discarded self.old.spawner link } }
    {
        self.ends = self.ends.saturating_add(link.ends());
        self.out = None;
    }
}
