//! What the hub knows of all workers: who is live, the epoch, the losses, and who may step.

use crate::workers::{
    Span, all_due, all_idle, all_spent, has_rounds, has_work, is_free, keeps_pace, live_span,
    opening, span_around,
};
use hub_terms::{Limits, MemberState, Task};
use px_base::{Loss, LossKind, Memory};
use std::alloc::Global;
use std::marker::Model;

/// What the hub knows of its workers, the epoch, and the losses so far. Workers are named by their numbers, from 0 on. Only
/// `new` takes memory.
#[derive(Drop)]
pub struct Members {
    limits: Limits,
    epoch: u32,
    base: u64,
    losses: Vec<Loss>,
    members: Vec<MemberState>,
}

impl Model for Members {
    ghost use Rattle.std.specs.Prelude.{◌<◌, vec_capacity};
    ghost use Rattle.hub_terms.specs.Jobs.{LimitsFit};
    ghost use Rattle.hub_terms.specs.Members.{MembersState};

    ghost Value = { MembersState };

    ghost view = { λ m. record { limits = m.limits; epoch = m.epoch; base = m.base; losses = m.losses.items; members = m.members.items } };

    ghost invariant = { λ m. m.limits.losses < vec_capacity m.losses };
}

impl Members {
    ghost use Rattle.std.specs.Prelude.{◌≡◌, ◌≤◌, ◌<◌, ◌+◌, ◌-◌, ◌^◌, true, false, IfOk, length, slice_index_or, if◌then◌else◌};
    ghost use Rattle.hub_terms.specs.declared.tasks.Task.TheVariants as task;
    ghost use Rattle.hub_terms.specs.Jobs.{LimitsFit};
    ghost use Rattle.hub_terms.specs.Members.{opening_members, member_at, may_step, is_quiet, is_spent, with_given, with_stepped, with_reported, with_lost, with_joined};

    /// So many workers, all of them missing and due, in epoch 1 at round 0, with no loss. Errors: want of memory.
    pub fn new(alloc: Global, workers: u32, limits: Limits) -> Result<Members, Memory>
        requires some { 1 ≤ workers }
        requires most { workers ≤ 64 }
        requires limits { LimitsFit limits }
        ensures { IfOk result (λ m. m ≡ opening_members workers limits) }
    {
        Ok(Members {
            limits,
            epoch: 1,
            base: 0,
            losses: Vec::with_capacity(alloc, limits.losses as usize + 1)?,
            members: opening(alloc, workers)?,
        })
    }

    /// The limits of the run.
    pub fn limits(&self) -> Limits
        ensures { result ≡ self.now.limits }
    {
        self.limits
    }

    /// The epoch: 1, and one more after each loss.
    pub fn epoch(&self) -> u32
        ensures { result ≡ self.now.epoch }
    {
        self.epoch
    }

    /// The base: the greatest round of a live worker at the last join, or 0 before the first one. No worker steps more than
    /// `limits.rounds` rounds beyond it.
    pub fn base_round(&self) -> u64
        ensures { result ≡ self.now.base }
    {
        self.base
    }

    /// The round of worker `i`: that at which it joined, and one more for each Step that it has answered since.
    pub fn round(&self, i: u32) -> u64
        requires { i < length self.now.members }
        ensures { result ≡ (member_at self.now i).round }
    {
        self.members[i as usize].round
    }

    /// Whether worker `i` has joined, and wasn't lost since.
    pub fn live(&self, i: u32) -> bool
        requires { i < length self.now.members }
        ensures { result ≡ (member_at self.now i).live }
    {
        self.members[i as usize].live
    }

    /// The losses that were noted, in the order in which they came.
    pub fn losses(&self) -> &[Loss]
        ensures { result.now ≡ self.now.losses }
    {
        &self.losses
    }

    /// Whether worker `i` may step: it is live, has nothing to answer, has work, is at most `limits.lag` rounds ahead of each live
    /// worker, and has a round left. `waiting` says whether its inbox has an update.
    pub fn may_step(&self, i: u32, waiting: bool) -> bool
        requires { i < length self.now.members }
        ensures { result ≡ may_step self.now i waiting }
    {
        let member = &self.members[i as usize];
        let span = span_around(&self.members, member.round);
        is_free(member)
            && has_work(member, waiting, span.greatest)
            && keeps_pace(member.round, span.least, self.limits.lag)
            && has_rounds(member.round, self.base, self.limits.rounds)
    }

    /// Whether all is quiet: each worker is live, has answered a Step of this epoch, has none to answer, and changed nothing in
    /// its last one. `all_empty` says whether all inboxes are empty, and without that nothing is quiet.
    pub fn is_quiet(&self, all_empty: bool) -> bool
        ensures { result ≡ is_quiet self.now all_empty }
    {
        all_empty && all_idle(&self.members)
    }

    /// All workers are live, none has anything to answer, and none has a round left.
    pub fn is_spent(&self) -> bool
        ensures { result ≡ is_spent self.now }
    {
        all_spent(&self.members, self.base, self.limits.rounds)
    }

    /// Worker `i` is given an order: a Step where `step` is true, else a Report.
    pub fn given(&mut self, i: u32, step: bool)
        requires inside { i < length self.old.members }
        requires live { (member_at self.old i).live ≡ true }
        requires free { (member_at self.old i).task ≡ task.Nothing }
        requires may { (if step then may_step self.old i true else is_quiet self.old true) ≡ true }
        ensures { self.new ≡ with_given self.old i step }
    {
        let member = &mut self.members[i as usize];
        member.task = if step { Task::Step } else { Task::Report };
    }

    /// Worker `i` has answered its Step, which counts as a round. `epoch` is that of the answer. Where it is the epoch now, the
    /// worker is no longer due, and `changed` is kept. An answer of an older epoch does nothing more.
    ///
    /// That the round has room isn't known here, where nothing bounds how often workers join. The hub knows it: few losses are
    /// allowed, so there are few joins, and no round passes the base by more than `limits.rounds` between two of them.
    pub fn stepped(&mut self, i: u32, epoch: u32, changed: bool)
        requires inside { i < length self.old.members }
        requires asked { (member_at self.old i).task ≡ task.Step }
        requires room { (member_at self.old i).round < 2 ^ 64 - 1 }
        ensures { self.new ≡ with_stepped self.old i epoch changed }
    {
        let current = epoch == self.epoch;
        let member = &mut self.members[i as usize];
        member.task = Task::Nothing;
        member.round += 1;
        if current {
            member.due = false;
            member.changed = changed;
        }
    }

    /// Worker `i` has answered its Report.
    pub fn reported(&mut self, i: u32)
        requires inside { i < length self.old.members }
        requires asked { (member_at self.old i).task ≡ task.Report }
        ensures { self.new ≡ with_reported self.old i }
    {
        self.members[i as usize].task = Task::Nothing;
    }

    /// Worker `i` is lost. It is missing, its order is dropped, a new epoch begins, and all workers are due. The loss is put at
    /// the end of the list where `noted` is true.
    pub fn lost(&mut self, i: u32, kind: LossKind, noted: bool)
        requires inside { i < length self.old.members }
        requires live { (member_at self.old i).live ≡ true }
        requires epoch { self.old.epoch < 2 ^ 32 - 1 }
        requires room { noted ≡ true → length self.old.losses ≤ self.old.limits.losses }
        ensures { self.new ≡ with_lost self.old i kind noted }
    {
        if noted {
            self.losses.push_reserved(Loss {
                worker: i,
                epoch: self.epoch,
                kind,
            });
        }
        self.epoch += 1;
        all_due(&mut self.members);
        let member = &mut self.members[i as usize];
        member.live = false;
        member.task = Task::Nothing;
    }

    /// Worker `i` joins. It stands at the least round of a live worker, or at 0 where none is live, and the greatest such round
    /// becomes the base. It is due.
    pub fn joined(&mut self, i: u32)
        requires inside { i < length self.old.members }
        requires missing { (member_at self.old i).live ≡ false }
        ensures { self.new ≡ with_joined self.old i }
    {
        let span = live_span(&self.members).unwrap_or(Span {
            least: 0,
            greatest: 0,
        });
        let member = &mut self.members[i as usize];
        member.live = true;
        member.due = true;
        member.round = span.least;
        self.base = span.greatest;
    }
}
