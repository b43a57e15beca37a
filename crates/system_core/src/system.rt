//! The hub beside the worlds.
ghost use Rattle.std.specs.Prelude.{◌≡◌, ◌≢◌, true, All, Ok, Err, IsOk, IfOk, OnErr, OnOk, MatchBool, MatchResult, None, ◌<◌, length};
ghost use Rattle.px_base.specs.Classes.{counts_reads};
ghost use Rattle.px_base.specs.Values.{IsValue};
ghost use Rattle.px_base.specs.Parts.{routes_of};
ghost use Rattle.recovery.specs.Givens.{GivenState};
ghost use Rattle.recovery.specs.TurnFor.{IsStepTurn, turn_for};
ghost use Rattle.recovery.specs.declared.given.Turn.TheVariants.{Work, Done, Stop};
ghost use Rattle.hub_terms.specs.declared.stops.Why.TheVariants as why;
ghost use Rattle.hub_terms.specs.Jobs.{IsSound, job_of};
ghost use Rattle.hub_terms.specs.Hubs.{all_reported, opening_hub, reported_values, turn_of, order_at, worker_at, worker_count};
ghost use Rattle.hub_terms.specs.HubEvents.{after_answer};
ghost use Rattle.hub_terms.specs.Systems.{HasOrder, MayCome, give, halt, joined, lost, opening_system, state_after, took};
ghost use Rattle.hub_terms.specs.Valid.{IsCoreAnswer};
ghost use Rattle.round_laws.specs.OnTime.{AllowsEnough, AreSpent, IsTimed, RoundsAreWithin};
ghost use Rattle.budget_laws.specs.KeptFacts.{KeepsAll};
ghost use Rattle.system_core.specs.Promises.{IsDone, IsHandedOut, OthersStay};

use crate::contents::{
    KeptJob, KeptWorlds, job_of, no_worlds, worlds_stepped, worlds_with_new, worlds_without,
};
use px_base::{Answer, CoreProgram, Foreign, Loss, LossKind, Memory, ReadGraph, Value};
use recovery::{Halt, Hub, Turn, Why};
use shadow::Shadow;
use std::marker::Model;

/// The hub of a run beside the world of each worker.
///
/// Contracts see the hub's state, the job, whether the links tell their peers, and where they do, a world for each live worker.
/// In every state hub and worlds are in step, and the state is valid for the class of its program. Where the links don't tell,
/// the hub's own facts hold, and nothing is claimed of worlds. At run time a system is its hub.
#[derive(Drop)]
pub struct System {
    hub: Hub,
    job: Shadow<KeptJob>,
    told: Shadow<bool>,
    worlds: Shadow<KeptWorlds>,
}

impl Model for System {
    ghost use Rattle.hub_terms.specs.Systems.{SystemState};
    ghost use Rattle.budget_laws.specs.KeptFacts.{KeepsAll};

    ghost Value = { SystemState };

    ghost view = { λ s. record { hub = s.hub; job = s.job; told = s.told; worlds = s.worlds } };

    ghost invariant = { λ s. KeepsAll (record { hub = s.hub; job = s.job; told = s.told; worlds = s.worlds }) };
}

impl System {
    /// A system before its first event. The hub is a new one for the graph; the graph, the program and the core start values are
    /// those of a sound job, and are kept for contracts alone. The content of `told` is whether the links tell their peers.
    pub fn new(
        hub: Hub,
        graph: &ReadGraph,
        core: &CoreProgram,
        starts: &[Value],
        told: Shadow<bool>,
    ) -> System
        requires new { hub ≡ opening_hub hub.inboxes.cuts hub.inboxes.routes hub.inboxes.counting hub.members.limits }
        requires sound { IsSound (job_of graph.now core.now starts.now) }
        requires routes { hub.inboxes.routes ≡ routes_of graph.now.rows hub.inboxes.cuts }
        requires counting { hub.inboxes.counting ≡ counts_reads core.now.program.fold }
        ensures { result ≡ opening_system hub.inboxes.cuts hub.members.limits told (job_of graph.now core.now starts.now) }
    {
        hub.known();
        let job = job_of(graph, core, starts);
        let worlds = no_worlds(&hub);
        System {
            hub,
            job,
            told,
            worlds,
        }
    }

    /// What holds of every state. Where the links tell their peers and the lag is 0, no live worker's round is more than n + 8 above
    /// the base while all are live, for n vertices.
    pub fn known(&self)
        ensures facts { KeepsAll self.now }
        ensures within { IsTimed self.now → RoundsAreWithin self.now }
    {
        let _ = &self.hub;
    }

    /// Gives worker `i` a turn.
    ///
    /// # Errors
    /// `Memory`, only where the worker's turn is a Step, for its updates; the system is then as before.
    pub fn give(&mut self, i: u32) -> Result<Turn, Memory>
        requires { MayCome self.old (give i) }
        ensures turn { IfOk result (λ turn. turn ≡ turn_for i (turn_of self.old.hub i)) }
        ensures gave { OnOk result (self.new ≡ state_after self.old (give i)) }
        ensures kept { OnErr result (self.new ≡ self.old) }
        ensures wants { OnErr result (IsStepTurn (turn_of self.old.hub i)) }
        ensures work { (given : GivenState) → result ≡ Ok (Work given) → IsHandedOut self.new i given }
        ensures done { result ≡ Ok Done → IsDone self.new }
        ensures enough { IsTimed self.old → AllowsEnough self.old → result ≢ Ok (Stop why.Budget) }
        ensures spent { result ≡ Ok (Stop why.Budget) → AreSpent self.new }
        ensures others { OthersStay i self.old self.new }
    {
        self.hub.give(i)
    }

    /// Takes the answer of worker `i` to its order. Where the links tell their peers, the answer is the one that the worker's
    /// world gives, and its world is stepped.
    ///
    /// # Errors
    /// What is wrong with the answer, which comes only where the links don't tell; the system is then as before.
    pub fn took(&mut self, i: u32, answer: &Answer) -> Result<(), Foreign>
        requires { MayCome self.old (took i answer.now) }
        ensures answer { MatchResult result (λ done. after_answer self.old.hub i answer.now ≡ Ok self.new.hub) (λ foreign. after_answer self.old.hub i answer.now ≡ Err foreign) }
        ensures took { self.new ≡ state_after self.old (took i answer.now) }
        ensures honest { self.old.told ≡ true → IsOk result }
        ensures others { OthersStay i self.old self.new }
    {
        let worlds = worlds_stepped(self, i);
        self.hub.took(i, answer)?;
        self.worlds = worlds;
        Ok(())
    }

    /// Worker `i` is lost, and its world with it.
    pub fn lost(&mut self, i: u32, kind: LossKind)
        requires { MayCome self.old (lost i kind) }
        ensures lost { self.new ≡ state_after self.old (lost i kind) }
        ensures others { OthersStay i self.old self.new }
    {
        self.worlds = worlds_without(self, i);
        self.hub.lost(i, kind);
    }

    /// A new worker `i` joins, with the new world of its part.
    pub fn joined(&mut self, i: u32)
        requires { MayCome self.old (joined i) }
        ensures joined { self.new ≡ state_after self.old (joined i) }
        ensures others { OthersStay i self.old self.new }
    {
        self.worlds = worlds_with_new(self, i);
        self.hub.joined(i);
    }

    /// Keeps the reason to stop that worker `i` gives, where none is kept yet.
    pub fn halt(&mut self, i: u32, reason: Halt)
        requires { MayCome self.old (halt i reason) }
        ensures halted { self.new ≡ state_after self.old (halt i reason) }
        ensures others { OthersStay i self.old self.new }
    {
        self.hub.halt(i, reason);
    }

    /// The reported core values by position, once each worker has reported.
    pub fn values(&self) -> &[Value]
        requires { all_reported self.now.hub ≡ true }
        ensures values { result.now ≡ reported_values self.now.hub }
        ensures one_each { length result.now ≡ length self.now.job.rows }
        ensures in_range { All IsValue result.now }
        ensures answer { self.now.told ≡ true → IsCoreAnswer self.now.job result.now }
    {
        self.hub.values()
    }

    /// The base: the greatest round of a live worker at the last join, 0 before the first. Rounds are counted from it.
    pub fn base_round(&self) -> u64
        ensures { result ≡ self.now.hub.members.base }
    {
        self.hub.base_round()
    }

    /// The losses that were noted, in order.
    pub fn losses(&self) -> &[Loss]
        ensures { result.now ≡ self.now.hub.members.losses }
    {
        self.hub.losses()
    }

    /// How many workers there are, live and missing: one for each part.
    pub fn worker_count(&self) -> u32
        ensures { result ≡ worker_count self.now.hub }
    {
        self.hub.worker_count()
    }

    /// Whether worker `i` has joined, and wasn't lost since.
    pub fn is_live(&self, i: u32) -> bool
        requires { i < worker_count self.now.hub }
        ensures { result ≡ (worker_at self.now.hub i).live }
    {
        self.hub.is_live(i)
    }

    /// Whether worker `i` has an order that it hasn't answered yet.
    pub fn has_order(&self, i: u32) -> bool
        requires { i < worker_count self.now.hub }
        ensures { MatchBool result (HasOrder self.now.hub i) (order_at self.now.hub i ≡ None) }
    {
        self.hub.has_order(i)
    }

    /// The reason to stop, where one is kept.
    pub fn halted(&self) -> Option<Why>
        ensures { result ≡ self.now.hub.halt }
    {
        self.hub.halted()
    }
}
