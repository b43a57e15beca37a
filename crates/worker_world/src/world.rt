//! A world of values or of counts.
use crate::value_world::ValueWorld;
use count_world::CountWorld;
use px_base::{Answer, CoreProgram, Fold, Memory, Order, Part, StepFault, Value};
use std::alloc::Global;
use std::marker::Model;
use std::thread::Threads;

/// A world of either kind.
#[derive(Drop)]
enum Kind {
    Values(ValueWorld),
    Counts(CountWorld),
}

/// A worker's part of the graph, how far it has come, and what it knows of its vertices: the core value of each master and
/// mirror, or which masters are alive and how many living neighbours each of them counts.
#[derive(Drop)]
pub struct World {
    kind: Kind,
}

impl Model for World {
    ghost use Rattle.px_base.specs.Worlds.{World as WorldData};

    ghost Value = { WorldData };

    ghost use Rattle.worker_world.specs.Kinds.{world_of};

    ghost view = { λ w. world_of w.kind };
}

impl World {
    ghost use Rattle.px_base.specs.declared.TheConstants.{MOST_READS};
    ghost use Rattle.std.specs.Prelude.{◌≡◌, ◌≤◌, Ok, OnErr, IfOk, IfErr};
    ghost use Rattle.px_base.specs.Graphs.{HasWeights, read_count};
    ghost use Rattle.px_base.specs.Parts.{PartFits};
    ghost use Rattle.px_base.specs.Core.{core_form};
    ghost use Rattle.px_base.specs.Steps.{Refuses};
    ghost use Rattle.px_base.specs.Worlds.{new_world, masters_of, updates_in, CarriesValues};
    ghost use Rattle.px_base.specs.WorldSteps.{world_step};
    ghost use Rattle.count_world.specs.Answers.{FitsWith};
    ghost use Rattle.worker_world.specs.Kept.{KeepsWorld};

    /// The new world of a part for a program. Where it counts, all masters are alive, and each counts its whole row. Else
    /// each master and each mirror has its start value where the program keeps what a vertex had, and core value 0 where it
    /// drops it. `chunks` is kept, and has no effect yet. Errors: want of memory.
    pub fn new(alloc: Global, part: Part, core: CoreProgram, chunks: u32) -> Result<World, Memory>
        requires fits { PartFits part }
        requires weights { HasWeights part.rows }
        requires reads { read_count part.rows ≤ MOST_READS }
        requires core { core ≡ core_form core.program }
        requires chunks { (1 ≤ chunks) × (chunks ≤ 64) }
        ensures { IfOk result (λ w. w ≡ new_world part core) }
    {
        let kind = match core.program.fold {
            Fold::Count(k) => Kind::Counts(CountWorld::new(alloc, part, k)?),
            Fold::Least => Kind::Values(ValueWorld::new(alloc, part, core, chunks)?),
            Fold::Greatest => Kind::Values(ValueWorld::new(alloc, part, core, chunks)?),
            Fold::Mex => Kind::Values(ValueWorld::new(alloc, part, core, chunks)?),
        };
        Ok(World { kind })
    }

    /// What the world reports of its masters, by position from the part's first on: their core values, or 1 for alive and 0
    /// for dead.
    pub fn masters(&self) -> &[Value]
        ensures values { result.now ≡ masters_of self.now }
        ensures kept { KeepsWorld self.now }
    {
        match &self.kind {
            Kind::Values(world) => world.masters(),
            Kind::Counts(world) => world.masters(),
        }
    }

    /// One step. A Step of the world's epoch or a later one puts its updates in place and renews all masters at once, or takes
    /// its updates off the counts and lets masters die; a Report of the world's epoch is answered by what the world reports of
    /// all masters. Errors: the epoch doesn't go with the world's, an update is of a vertex of which the world takes none, want
    /// of memory. An error changes nothing. Where the order has a frame, so has the answer.
    pub fn step<R: Threads + Sync>(&mut self, _rt: &R, order: &Order) -> Result<Answer, StepFault>
        requires values { CarriesValues (updates_in order.now) }
        ensures ok { IfOk result (λ answer. world_step self.old order.now ≡ Ok (record { world = self.new; answer = answer })) }
        ensures refused { IfErr result (λ fault. Refuses fault (world_step self.old order.now)) }
        ensures fits { IfOk result (λ answer. FitsWith order.now answer) }
        ensures kept { OnErr result (self.new ≡ self.old) }
    {
        match &mut self.kind {
            Kind::Values(world) => world.step(order),
            Kind::Counts(world) => world.step(order),
        }
    }
}
