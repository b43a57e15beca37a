//! A world that counts, and its step.
ghost use Rattle.std.specs.Prelude.{◌≡◌, IfOk};

use crate::known::Known;
use px_base::{Answer, Items, Memory, Order, Part, Pos, StepFault, Update, Value};
use std::alloc::Global;
use std::marker::Model;

fn copy_of(alloc: Global, values: &[Value]) -> Result<Vec<Value>, Memory>
    ensures { IfOk result (λ copy. copy.items ≡ values.now) }
{
    Ok(Vec::from_slice(alloc, values)?)
}

/// A worker's part of the graph, how far it has come, which of its masters are alive, and how many living neighbours each
/// of them counts.
#[derive(Drop)]
pub struct CountWorld {
    alloc: Global,
    part: Part,
    epoch: u32,
    round: u64,
    known: Known,
}

impl Model for CountWorld {
    ghost use Rattle.px_base.specs.Worlds.{CountWorld as CountData};

    ghost Value = { CountData };

    ghost use Rattle.count_world.specs.Views.{counting_of, IsKept};

    ghost view = { counting_of };

    ghost invariant = { IsKept };
}

impl CountWorld {
    ghost use Rattle.px_base.specs.declared.TheConstants.{MOST_READS};
    ghost use Rattle.std.specs.Prelude.{◌≡◌, ◌≤◌, Some, None, Ok, OnErr, IfOk, IfErr, IfSome, IfNone};
    ghost use Rattle.px_base.specs.Graphs.{read_count};
    ghost use Rattle.px_base.specs.Parts.{PartFits};
    ghost use Rattle.px_base.specs.Steps.{Refuses};
    ghost use Rattle.px_base.specs.Worlds.{new_count_world, of_counts, takes_update, first_foreign, foreign};
    ghost use Rattle.px_base.specs.CountSteps.{count_step};
    ghost use Rattle.px_base.specs.WorldSteps.{world_step};
    ghost use Rattle.count_world.specs.Answers.{FitsWith};
    ghost use Rattle.count_world.specs.Kept.{KeepsCounts};

    /// The new world of a part, where a vertex needs `k` living neighbours: all masters are alive, and each counts its whole
    /// row. Errors: want of memory.
    pub fn new(alloc: Global, part: Part, k: u32) -> Result<CountWorld, Memory>
        requires fits { PartFits part }
        requires reads { read_count part.rows ≤ MOST_READS }
        ensures { IfOk result (λ w. w ≡ new_count_world part k) }
    {
        let known = Known::new(alloc, &part, k)?;
        Ok(CountWorld {
            alloc,
            part,
            epoch: 0,
            round: 0,
            known,
        })
    }

    /// 1 for each living master and 0 for each dead one, by position from the part's first on.
    pub fn masters(&self) -> &[Value]
        ensures flags { result.now ≡ self.now.alive }
        ensures kept { KeepsCounts self.now }
    {
        self.known.census.alive.as_slice()
    }

    /// One step. A Step of the world's epoch or a later one takes its updates off the counts, and lets the masters whose
    /// count is too low die at once; where its epoch is later, the counts begin anew. A Report of the world's epoch is
    /// answered by which masters are alive. Errors: the epoch doesn't go with the world's, an update is of a vertex that is
    /// no master, want of memory. An error changes nothing. Where the order has a frame, so has the answer.
    ///
    /// A Step costs its updates, the rows and the readers of the masters that die in it, and putting in order the mirrors
    /// that stand in these rows. A fresh one also costs a pass over all masters, and the rows and the readers of all dead.
    pub fn step(&mut self, order: &Order) -> Result<Answer, StepFault>
        ensures ok { IfOk result (λ answer. count_step self.old order.now ≡ Ok (record { world = self.new; answer = answer })) }
        ensures refused { IfErr result (λ fault. Refuses fault (world_step (of_counts self.old) order.now)) }
        ensures fits { IfOk result (λ answer. FitsWith order.now answer) }
        ensures kept { OnErr result (self.new ≡ self.old) }
    {
        match order {
            Order::Report { epoch } => self.report(*epoch),
            Order::Step {
                epoch,
                round,
                updates,
            } => self.advance(*epoch, *round, updates.as_slice()),
        }
    }

    fn report(&self, epoch: u32) -> Result<Answer, StepFault>
        ensures ok { IfOk result (λ answer. count_step self.now (Order.Report epoch) ≡ Ok (record { world = self.now; answer = answer })) }
        ensures refused { IfErr result (λ fault. Refuses fault (world_step (of_counts self.now) (Order.Report epoch))) }
        ensures fits { IfOk result (λ answer. FitsWith (Order.Report epoch) answer) }
    {
        if epoch != self.epoch {
            return Err(StepFault::WrongEpoch {
                had: self.epoch,
                got: epoch,
            });
        }
        let flags = copy_of(self.alloc, self.masters())?;
        Ok(Answer::Reported {
            epoch,
            values: Items::from_vec(flags),
        })
    }

    /// Whether the world takes an update of this vertex.
    fn takes(&self, v: Pos) -> bool
        ensures { result ≡ takes_update (of_counts self.now) v }
    {
        self.part.low <= v && v < self.part.high
    }

    /// The first vertex of an update that isn't taken.
    #[tactic(auto, using(crate::proofs::Foreign::foreign_at, crate::proofs::Foreign::none_foreign))]
    fn foreign_vertex(&self, updates: &[Update]) -> Option<Pos>
        ensures some { IfSome result (λ v. first_foreign (takes_update (of_counts self.now)) updates.now ≡ Some (foreign v)) }
        ensures none { IfNone result (first_foreign (takes_update (of_counts self.now)) updates.now ≡ None) }
    {
        for update in updates {
            if !self.takes(update.vertex) {
                return Some(update.vertex);
            }
        }
        None
    }

    /// A Step of any epoch.
    fn advance(&mut self, epoch: u32, round: u64, updates: &[Update]) -> Result<Answer, StepFault>
        ensures ok { IfOk result (λ answer. count_step self.old (Order.Step epoch round updates.now) ≡ Ok (record { world = self.new; answer = answer })) }
        ensures refused { IfErr result (λ fault. Refuses fault (world_step (of_counts self.old) (Order.Step epoch round updates.now))) }
        ensures fits { IfOk result (λ answer. FitsWith (Order.Step epoch round updates.now) answer) }
        ensures kept { OnErr result (self.new ≡ self.old) }
    {
        let had = self.epoch;
        if epoch < had {
            return Err(StepFault::WrongEpoch { had, got: epoch });
        }
        if let Some(vertex) = self.foreign_vertex(updates) {
            return Err(StepFault::Foreign { vertex });
        }
        match self.count(epoch, round, updates) {
            Ok(answer) => Ok(answer),
            Err(Memory) => Err(StepFault::Memory),
        }
    }

    /// A Step that isn't refused.
    #[tactic(auto, using(crate::proofs::Foreign::all_taken))]
    fn count(&mut self, epoch: u32, round: u64, updates: &[Update]) -> Result<Answer, Memory>
        requires epoch { self.old.epoch ≤ epoch }
        requires taken { first_foreign (takes_update (of_counts self.old)) updates.now ≡ None }
        ensures ok { IfOk result (λ answer. count_step self.old (Order.Step epoch round updates.now) ≡ Ok (record { world = self.new; answer = answer })) }
        ensures kept { OnErr result (self.new ≡ self.old) }
    {
        let fresh = self.epoch < epoch;
        let (changed, told) = self.known.step(self.alloc, &self.part, fresh, updates)?;
        self.epoch = epoch;
        self.round = round;
        Ok(Answer::Stepped {
            epoch,
            round,
            changed,
            updates: Items::from_vec(told),
        })
    }
}
