//! A nursery whose links hand on answers that came from outside, and tell nothing of their peers.
ghost use Rattle.std.specs.Prelude.{◌≡◌, ◌≤◌, [], All, length, map};
ghost use Rattle.link_trait.specs.Counts.{all_more_by};

use link_trait::{Link, LinkFault, Nursery, Spawner, StartFault};
use px_base::{Answer, Broken, CoreProgram, Memory, Part};
use recovery::Given;
use std::alloc::Global;
use std::marker::Model;
use std::mem;
use std::sync::Wait;
use std::thread::Threads;

/// A link that hands on its answers, from the last one to the first. Then it has a broken frame, or ends.
#[derive(Drop)]
pub struct SilentLink {
    worker: u32,
    answers: Vec<Answer>,
    broken: Option<Broken>,
    alive: bool,
    ends: u64,
}

impl Model for SilentLink {
    ghost use Rattle.link_trait.specs.Links.{LinkView};

    ghost Value = { LinkView };

    ghost use Rattle.link_calls.specs.Silent.{CarryValues, link_view};

    ghost view = { link_view };

    ghost invariant = { λ l. CarryValues l.answers.items };
}

impl Link for SilentLink {
    ghost shown = { λ link. link };

    fn worker(&self) -> u32 {
        self.worker
    }

    fn call<R: Threads + Wait + Sync>(
        &mut self,
        _rt: &R,
        _given: Given,
    ) -> Result<Answer, LinkFault> {
        if let Some(answer) = self.answers.pop() {
            return Ok(answer);
        }
        self.alive = false;
        match self.broken {
            Some(broken) => Err(LinkFault::Broke(broken)),
            None => {
                self.ends = self.ends.saturating_add(1);
                Err(LinkFault::Ended)
            }
        }
    }
}

/// Starts links of worker 0, the first of which has the answers. Any other worker is refused.
#[derive(Drop)]
pub struct SilentSpawner {
    alloc: Global,
    worker: u32,
    answers: Vec<Answer>,
    broken: Option<Broken>,
    starts: u64,
    faults: u64,
    ends: u64,
    out: bool,
}

impl Model for SilentSpawner {
    ghost use Rattle.link_trait.specs.Spawners.{SpawnerView};

    ghost Value = { SpawnerView };

    ghost use Rattle.link_calls.specs.Silent.{CarryValues, spawner_view};

    ghost view = { spawner_view };

    ghost invariant = { λ s. CarryValues s.answers.items };
}

impl Spawner for SilentSpawner {
    type L = SilentLink;

    ghost shown = { λ spawner. spawner };

    fn start<R: Threads + Wait + Sync>(
        &mut self,
        _rt: &R,
        _part: &Part,
        _core: &CoreProgram,
        _chunks: u32,
    ) -> Result<SilentLink, StartFault> {
        self.starts += 1;
        if self.worker != 0 {
            self.faults = self.faults.saturating_add(1);
            return Err(StartFault::Refused);
        }
        self.out = true;
        Ok(SilentLink {
            worker: self.worker,
            answers: mem::replace(&mut self.answers, Vec::new(self.alloc)),
            broken: self.broken,
            alive: true,
            ends: 0,
        })
    }

    fn retire(&mut self, link: SilentLink) {
        self.ends = self.ends.saturating_add(link.ends);
        self.out = false;
    }

    fn discard(&mut self, link: SilentLink) {
        self.ends = self.ends.saturating_add(link.ends);
        self.out = false;
    }
}

/// Lends spawners that tell nothing. The first link of worker 0 hands on the answers.
#[derive(Drop)]
pub struct SilentNursery {
    alloc: Global,
    answers: Vec<Answer>,
    broken: Option<Broken>,
    starts: [u64; 64],
    faults: [u64; 64],
    ends: [u64; 64],
    lent: bool,
    count: u32,
    room: u64,
}

impl Model for SilentNursery {
    ghost use Rattle.std.specs.Prelude.{◌≤◌};
    ghost use Rattle.link_trait.specs.Nurseries.{NurseryView};

    ghost Value = { NurseryView };

    ghost use Rattle.link_calls.specs.Silent.{CarryValues, nursery_view};

    ghost view = { nursery_view };

    ghost invariant = { λ n. CarryValues n.answers.items × (n.count ≤ 64) };
}

/// What came back with a spawner.
#[derive(Drop)]
struct Came {
    starts: u64,
    faults: u64,
    ends: u64,
}

impl SilentSpawner {
    ghost use Rattle.std.specs.Prelude.{◌≡◌, [], None, false};
    ghost use Rattle.link_calls.specs.Silent.{CarryValues, no_plan, one_mark};

    /// A spawner of this worker, whose first link has these answers.
    fn new(
        alloc: Global,
        worker: u32,
        answers: Vec<Answer>,
        broken: Option<Broken>,
    ) -> SilentSpawner
        requires { CarryValues answers.items }
        ensures { result ≡ record { worker = worker; starts = 0; faults = 0; ends = 0; retired = []; lent_as = one_mark; out = None; tells = false; plan = no_plan } }
    {
        SilentSpawner {
            alloc,
            worker,
            answers,
            broken,
            starts: 0,
            faults: 0,
            ends: 0,
            out: false,
        }
    }

    /// What came back with it.
    fn came(self) -> Came
        ensures starts { result.starts ≡ self.starts }
        ensures faults { result.faults ≡ self.faults }
        ensures ends { result.ends ≡ self.ends }
        ensures nothing { self.retired ≡ [] }
    {
        Came {
            starts: self.starts,
            faults: self.faults,
            ends: self.ends,
        }
    }
}

/// Adds up what came back with the spawners, the k-th for worker k.
fn add_all(
    starts: &mut [u64; 64],
    faults: &mut [u64; 64],
    ends: &mut [u64; 64],
    spawners: Vec<SilentSpawner>,
)
    requires { length spawners.items ≤ 64 }
    ensures starts { starts.new ≡ all_more_by starts.old (map (λ s. s.starts) spawners.items) }
    ensures faults { faults.new ≡ all_more_by faults.old (map (λ s. s.faults) spawners.items) }
    ensures ends { ends.new ≡ all_more_by ends.old (map (λ s. s.ends) spawners.items) }
    ensures nothing { All (λ s. s.retired ≡ []) spawners.items }
{
    let mut k = 0;
    for spawner in spawners {
        let came = spawner.came();
        starts[k] = starts[k].saturating_add(came.starts);
        faults[k] = faults[k].saturating_add(came.faults);
        ends[k] = ends[k].saturating_add(came.ends);
        k += 1;
    }
}

impl SilentNursery {
    ghost use Rattle.std.specs.Prelude.{◌≡◌, false, replicate};
    ghost use Rattle.link_calls.specs.Silent.{CarryValues};

    /// A nursery of which nothing is lent. The answers are handed on from the last one to the first; then comes the broken
    /// frame, or the end.
    pub fn new(alloc: Global, answers: Vec<Answer>, broken: Option<Broken>) -> SilentNursery
        requires { CarryValues answers.items }
        ensures home { result.lent ≡ false }
        ensures silent { result.tells ≡ false }
        ensures starts { result.starts ≡ replicate 64 0 }
    {
        SilentNursery {
            alloc,
            answers,
            broken,
            starts: [0; 64],
            faults: [0; 64],
            ends: [0; 64],
            lent: false,
            count: 0,
            room: 0,
        }
    }
}

impl Nursery for SilentNursery {
    type S = SilentSpawner;

    ghost use Rattle.std.specs.Prelude.{map};
    ghost use Rattle.link_trait.specs.Nurseries.{AreBack, IsTakenBack};

    ghost shown = { λ nursery. nursery };

    fn lend(&mut self, count: u32) -> Result<Vec<SilentSpawner>, Memory> {
        let mut all = Vec::with_capacity(self.alloc, count as usize)?;
        let mut answers = mem::replace(&mut self.answers, Vec::new(self.alloc));
        for worker in 0..count {
            let own = mem::replace(&mut answers, Vec::new(self.alloc));
            all.push(SilentSpawner::new(self.alloc, worker, own, self.broken))?;
        }
        self.lent = true;
        self.count = count;
        self.room = u64::from(count);
        Ok(all)
    }

    fn take_back(&mut self, spawners: Vec<SilentSpawner>)
        requires { AreBack self.old (map (λ s. s) spawners.items) }
        ensures { IsTakenBack self.old self.new (map (λ s. s) spawners.items) }
    {
        let count = spawners.len();
        add_all(&mut self.starts, &mut self.faults, &mut self.ends, spawners);
        self.room -= count as u64;
        self.lent = false;
    }
}
