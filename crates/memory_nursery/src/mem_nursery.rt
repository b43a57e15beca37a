//! What lends spawners of links to worlds in memory.
ghost use Rattle.std.specs.Prelude.{◌≡◌, ◌+◌, ◌++◌, ◌<◌, ◌≤◌, All, IfOk, map, flat_map, length, vec_len, vec_capacity};
ghost use Rattle.memory_nursery.specs.States.{NurseryState, plan_now};
ghost use Rattle.memory_nursery.specs.Keeping.{KeepsSpawner};
ghost use Rattle.memory_nursery.specs.Tallies.{begun_anew, with_spawner, with_spawners};

use crate::counts::{WORKERS, WorkerCounts, no_counts};
use crate::kept::{KeptMark, KeptPlan, next_mark, note_counts, note_scripts, same_mark};
use crate::mem_link::RetiredLink;
use crate::mem_spawner::MemSpawner;
use crate::scripts::{losses_of, refused_starts};
use link_trait::{Nursery, Refusal, Scripted};
use px_base::Memory;
use shadow::Shadow;
use std::alloc::Global;
use std::marker::Model;

/// Lends spawners of links to worlds in memory, which tell everything, and end where a script says so.
///
/// Links of a worker count from 0, calls of a link and starts of a worker from 1. The numbers of links and starts go on from one
/// lending to the next, and begin anew where new scripts are put.
#[derive(Drop)]
pub struct MemNursery {
    alloc: Global,
    losses: Vec<Scripted>,
    refusals: Vec<Refusal>,
    counts: [WorkerCounts; WORKERS],
    retired: Vec<Vec<RetiredLink>>,
    lent: bool,
    count: u32,
    mark: Shadow<KeptMark>,
    plan: Shadow<KeptPlan>,
}

impl Model for MemNursery {
    ghost use Rattle.memory_nursery.specs.States.{NurseryState};

    ghost Value = { NurseryState };

    ghost use Rattle.memory_nursery.specs.Views.{nursery_view, IsMemNursery};

    ghost view = { nursery_view };

    ghost invariant = { IsMemNursery };
}

/// Adds up what came back with a spawner, and moves its list of retired links in.
fn take_one(counts: &mut WorkerCounts, retired: &mut Vec<Vec<RetiredLink>>, spawner: MemSpawner)
    requires room { vec_len retired.old < vec_capacity retired.old }
    ensures counts { counts.new ≡ with_spawner counts.old spawner }
    ensures retired { flat_map (λ list. list.items) retired.new.items ≡ flat_map (λ list. list.items) retired.old.items ++ spawner.spawner.retired }
    ensures len { vec_len retired.new ≡ vec_len retired.old + 1 }
    ensures capacity { vec_capacity retired.new ≡ vec_capacity retired.old }
    ensures kept { KeepsSpawner spawner }
{
    let list = spawner.into_counts(counts);
    retired.push_reserved(list);
}

/// Adds up what came back with the spawners, the k-th for worker k, and moves their lists of retired links in.
fn take_all(
    counts: &mut [WorkerCounts; WORKERS],
    retired: &mut Vec<Vec<RetiredLink>>,
    spawners: Vec<MemSpawner>,
)
    requires few { length spawners.items ≤ 64 }
    requires room { vec_len retired.old + length spawners.items ≤ vec_capacity retired.old }
    ensures counts { counts.new ≡ with_spawners counts.old spawners.items }
    ensures retired { flat_map (λ list. list.items) retired.new.items ≡ flat_map (λ list. list.items) retired.old.items ++ flat_map (λ s. s.spawner.retired) spawners.items }
    ensures len { vec_len retired.new ≡ vec_len retired.old + length spawners.items }
    ensures capacity { vec_capacity retired.new ≡ vec_capacity retired.old }
    ensures kept { All KeepsSpawner spawners.items }
{
    let mut k = 0;
    for spawner in spawners {
        take_one(&mut counts[k], retired, spawner);
        k += 1;
    }
}

/// The numbers of a worker begin anew.
fn begin_anew(counts: &mut WorkerCounts)
    ensures { counts.new ≡ begun_anew counts.old }
{
    counts.starts_since = 0;
    counts.links_since = 0;
}

/// The numbers of all workers begin anew.
fn begin_all_anew(counts: &mut [WorkerCounts; WORKERS])
    ensures { counts.new ≡ map begun_anew counts.old }
{
    for worker in counts.iter_mut() {
        begin_anew(worker);
    }
}

impl MemNursery {
    ghost use Rattle.std.specs.Prelude.{◌≡◌, ◌<◌, ◌≤◌, false, IfOk};
    ghost use Rattle.px_base.specs.Values.{by_position};
    ghost use Rattle.memory_nursery.specs.States.{KeepsScripts, SpawnerState, new_nursery, new_spawner_state, scripted};

    /// A nursery with these scripts, of which nothing is lent and nothing came back. Takes no memory.
    pub fn new(alloc: Global, losses: Vec<Scripted>, refusals: Vec<Refusal>) -> MemNursery
        ensures { result ≡ new_nursery losses.items refusals.items }
    {
        let mut plan = Shadow::of(&KeptPlan {});
        note_scripts(&mut plan, losses.as_slice(), refusals.as_slice());
        MemNursery {
            alloc,
            losses,
            refusals,
            counts: no_counts(),
            retired: Vec::new(alloc),
            lent: false,
            count: 0,
            mark: Shadow::of(&KeptMark {}),
            plan,
        }
    }

    /// Puts new scripts in place of the old ones. The numbers of links and starts begin anew; what came back stays. Takes no
    /// memory.
    pub fn script(&mut self, losses: Vec<Scripted>, refusals: Vec<Refusal>)
        requires { self.old.nursery.lent ≡ false }
        ensures { self.new ≡ scripted self.old losses.items refusals.items }
    {
        let mut plan = Shadow::of(&KeptPlan {});
        note_scripts(&mut plan, losses.as_slice(), refusals.as_slice());
        note_counts(&mut plan, self);
        self.plan = plan;
        self.losses = losses;
        self.refusals = refusals;
        begin_all_anew(&mut self.counts);
    }

    /// What the scripts have brought about since they were put.
    pub fn known(&self)
        ensures { KeepsScripts self.now.nursery }
    {
        let _ = &self.losses;
    }

    /// The spawner of a worker, with the mark of the next lending. Errors: want of memory.
    fn spawner(&self, worker: u32) -> Result<MemSpawner, Memory>
        requires { worker < 64 }
        ensures { IfOk result (λ s. s ≡ new_spawner_state self.now worker) }
    {
        let counts = self.counts[worker as usize];
        let losses = losses_of(self.alloc, self.losses.as_slice(), worker)?;
        let refused = refused_starts(self.alloc, self.refusals.as_slice(), worker)?;
        Ok(MemSpawner::new(
            self.alloc,
            worker,
            counts.starts_since,
            counts.links_since,
            losses,
            refused,
            next_mark(self),
        ))
    }

    /// The spawners of the first workers, with the mark of the next lending. Errors: want of memory.
    fn spawners(&self, count: u32) -> Result<Vec<MemSpawner>, Memory>
        requires { count ≤ 64 }
        ensures { IfOk result (λ all. all.items ≡ by_position count (new_spawner_state self.now)) }
    {
        let mut all = Vec::with_capacity(self.alloc, count as usize)?;
        for worker in 0..count {
            all.push(self.spawner(worker)?)?;
        }
        Ok(all)
    }
}

impl Nursery for MemNursery {
    type S = MemSpawner;

    ghost use Rattle.std.specs.Prelude.{◌≡◌, ◌≤◌, false, IfOk, OnErr, map};
    ghost use Rattle.link_trait.specs.Nurseries.{AreBack, IsTakenBack, with_room};
    ghost use Rattle.memory_nursery.specs.States.{AreLentBy, taken_back};

    ghost shown = { λ n. n.nursery };

    /// Lends the spawners, with numbers that go on from those before.
    ///
    /// # Errors
    /// Want of memory; the nursery is then as before.
    fn lend(&mut self, count: u32) -> Result<Vec<MemSpawner>, Memory>
        requires count { (1 ≤ count) × (count ≤ 64) }
        requires none_lent { self.old.nursery.lent ≡ false }
        ensures ok { IfOk result (λ all. AreLentBy self.old self.new count all.items) }
        ensures err { OnErr result (self.new ≡ record self.old { nursery = with_room self.old.nursery self.new.nursery.room }) }
    {
        let all = self.spawners(count)?;
        let mark = next_mark(self);
        self.retired.reserve(count as usize)?;
        self.lent = true;
        self.count = count;
        self.mark = mark;
        Ok(all)
    }

    /// Takes the spawners back. Takes no memory.
    fn take_back(&mut self, spawners: Vec<MemSpawner>)
        requires { AreBack self.old.nursery (map (λ s. s.spawner) spawners.items) }
        ensures back { IsTakenBack self.old.nursery self.new.nursery (map (λ s. s.spawner) spawners.items) }
        ensures numbers { self.new ≡ taken_back self.old spawners.items }
    {
        take_all(&mut self.counts, &mut self.retired, spawners);
        self.lent = false;
    }
}
