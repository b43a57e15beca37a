//! A world of values, and one step of it.
ghost use Rattle.std.specs.Prelude.{◌≡◌};

use crate::known::Known;
use crate::places::find_places;
use crate::steps::copy_of;
use mirror_places::PlaceTable;
use placed_parts::PlacedPart;
use px_base::{Answer, CoreProgram, Items, Memory, Order, Part, StepFault, Update, Value};
use std::alloc::Global;
use std::marker::Model;

/// A world of values: a worker's part of the graph, how far it has come, and the core value of each of its masters and
/// mirrors. `places` is room for the places of a Step's updates, so that each is looked up once.
#[derive(Drop)]
pub struct ValueWorld {
    alloc: Global,
    part: PlacedPart,
    core: CoreProgram,
    chunks: u32,
    epoch: u32,
    round: u64,
    known: Known,
    places: Vec<u32>,
}

impl Model for ValueWorld {
    ghost use Rattle.px_base.specs.Worlds.{World as WorldData};

    ghost Value = { WorldData };

    ghost use Rattle.worker_world.specs.Views.{world_of, IsKept};

    ghost view = { world_of };

    ghost invariant = { IsKept };
}

impl ValueWorld {
    ghost use Rattle.px_base.specs.declared.TheConstants.{MOST_READS};
    ghost use Rattle.std.specs.Prelude.{◌≡◌, ◌≤◌, ℕ, Some, None, Ok, OnErr, IfOk, IfErr, IfSome, IfNone, IsFalse};
    ghost use Rattle.px_base.specs.Graphs.{HasWeights, read_count};
    ghost use Rattle.px_base.specs.Parts.{PartFits};
    ghost use Rattle.px_base.specs.Classes.{counts_reads};
    ghost use Rattle.px_base.specs.Steps.{Refuses};
    ghost use Rattle.px_base.specs.Worlds.{new_world, masters_of, epoch_of, takes_update, updates_in, CarriesValues, is_fresh, first_foreign, foreign};
    ghost use Rattle.px_base.specs.WorldSteps.{world_step};
    ghost use Rattle.count_world.specs.Answers.{FitsWith};
    ghost use Rattle.worker_world.specs.Kept.{KeepsValues};

    /// The new world of a part for a program: each master and each mirror has its start value where the program keeps what
    /// a vertex had, and else core value 0. `chunks` is kept, and has no effect yet. Errors: want of memory.
    pub fn new(
        alloc: Global,
        part: Part,
        core: CoreProgram,
        chunks: u32,
    ) -> Result<ValueWorld, Memory>
        requires fits { PartFits part }
        requires weights { HasWeights part.rows }
        requires reads { read_count part.rows ≤ MOST_READS }
        requires chunks { (1 ≤ chunks) × (chunks ≤ 64) }
        requires fold { IsFalse (counts_reads core.program.fold) }
        ensures { IfOk result (λ w. w ≡ new_world part core) }
    {
        let table = PlaceTable::new(alloc, part.mirrors.as_slice())?;
        let part = PlacedPart::new(part, &table);
        let known = Known::new(alloc, &part, table, &core)?;
        Ok(ValueWorld {
            alloc,
            part,
            core,
            chunks,
            epoch: 0,
            round: 0,
            known,
            places: Vec::new(alloc),
        })
    }

    /// The core values of the masters, by position from the part's first on.
    pub fn masters(&self) -> &[Value]
        ensures values { result.now ≡ masters_of self.now }
        ensures kept { KeepsValues self.now }
    {
        &self.known.values[..self.part.master_count()]
    }

    /// One step. A Step of the world's epoch or a later one puts its updates in place and renews all masters at once; a
    /// Report of the world's epoch is answered by the values of all masters. Errors: the epoch doesn't go with the
    /// world's, an update is of a vertex that is no mirror, want of memory. An error changes nothing. Where the order has a
    /// frame, so has the answer.
    pub fn step(&mut self, order: &Order) -> Result<Answer, StepFault>
        requires values { CarriesValues (updates_in order.now) }
        ensures ok { IfOk result (λ answer. world_step self.old order.now ≡ Ok (record { world = self.new; answer = answer })) }
        ensures refused { IfErr result (λ fault. Refuses fault (world_step self.old order.now)) }
        ensures fits { IfOk result (λ answer. FitsWith order.now answer) }
        ensures kept { OnErr result (self.new ≡ self.old) }
    {
        match order {
            Order::Report { epoch } => self.report(*epoch),
            Order::Step {
                epoch,
                round,
                updates,
            } => self.advance(*epoch, *round, updates.as_slice()),
        }
    }

    fn report(&self, epoch: u32) -> Result<Answer, StepFault>
        ensures ok { IfOk result (λ answer. world_step self.now (Order.Report epoch) ≡ Ok (record { world = self.now; answer = answer })) }
        ensures refused { IfErr result (λ fault. Refuses fault (world_step self.now (Order.Report epoch))) }
        ensures fits { IfOk result (λ answer. FitsWith (Order.Report epoch) answer) }
    {
        if epoch != self.epoch {
            return Err(StepFault::WrongEpoch {
                had: self.epoch,
                got: epoch,
            });
        }
        let values = copy_of(self.alloc, self.masters())?;
        Ok(Answer::Reported {
            epoch,
            values: Items::from_vec(values),
        })
    }

    /// A Step of any epoch.
    fn advance(&mut self, epoch: u32, round: u64, updates: &[Update]) -> Result<Answer, StepFault>
        requires { CarriesValues updates.now }
        ensures ok { IfOk result (λ answer. world_step self.old (Order.Step epoch round updates.now) ≡ Ok (record { world = self.new; answer = answer })) }
        ensures refused { IfErr result (λ fault. Refuses fault (world_step self.old (Order.Step epoch round updates.now))) }
        ensures fits { IfOk result (λ answer. FitsWith (Order.Step epoch round updates.now) answer) }
        ensures kept { OnErr result (self.new ≡ self.old) }
    {
        let had = self.epoch;
        if epoch < had {
            return Err(StepFault::WrongEpoch { had, got: epoch });
        }
        self.renew(epoch, round, updates)
    }

    /// A Step of the world's epoch or a later one. Each update's mirror is looked up before anything changes. After that
    /// nothing wants memory but the answer; where that is wanting, the updates are taken back.
    #[tactic(auto, using(crate::proofs::Placing::all_in_both))]
    fn renew(&mut self, epoch: u32, round: u64, updates: &[Update]) -> Result<Answer, StepFault>
        requires epoch { epoch_of self.old ≤ epoch }
        requires values { CarriesValues updates.now }
        ensures ok { IfOk result (λ answer. world_step self.old (Order.Step epoch round updates.now) ≡ Ok (record { world = self.new; answer = answer })) }
        ensures refused { IfErr result (λ fault. Refuses fault (world_step self.old (Order.Step epoch round updates.now))) }
        ensures kept { OnErr result (self.new ≡ self.old) }
    {
        let mirrors = self.part.mirrors();
        let found = find_places(mirrors, &self.known.table, updates, &mut self.places);
        if let Err(fault) = found {
            return Err(fault);
        }
        let places = self.places.as_slice();
        let fresh = self.epoch < epoch;
        let changed = self.known.note(&self.part, &self.core, updates, places);
        let Ok(announced) = self.known.announced(self.alloc, &self.part, fresh) else {
            self.known.forget(&self.part, updates, places);
            return Err(StepFault::Memory);
        };
        self.known.commit(&self.part, updates, places);
        self.epoch = epoch;
        self.round = round;
        Ok(Answer::Stepped {
            epoch,
            round,
            changed,
            updates: Items::from_vec(announced),
        })
    }
}
