//! What is kept for contracts alone. None of it is in any byte: each content is made from what a function is lent.
ghost use Rattle.std.specs.Prelude.{◌≡◌};
ghost use Rattle.memory_nursery.specs.States.{next_mark, plan_now};

use crate::mem_nursery::MemNursery;
use link_trait::{Refusal, Scripted};
use shadow::Shadow;
use std::marker::Model;

/// A plan, for contracts.
#[derive(Drop)]
pub struct KeptPlan {}

impl Model for KeptPlan {
    ghost use Rattle.link_trait.specs.Plans.{Plan};
    ghost use Rattle.memory_nursery.specs.States.{no_plan};

    ghost Value = { Plan };

    ghost view = { λ _. no_plan };
}

/// The mark of a lending, for contracts.
#[derive(Drop)]
pub struct KeptMark {}

impl Model for KeptMark {
    ghost use Rattle.link_trait.specs.Plans.{LentAs};
    ghost use Rattle.memory_nursery.specs.States.{no_mark};

    ghost Value = { LentAs };

    ghost view = { λ _. no_mark };
}

/// The same plan.
pub fn same_plan(plan: &Shadow<KeptPlan>) -> Shadow<KeptPlan>
    ensures { result ≡ plan.now }
{
    let mut same = Shadow::of(&KeptPlan {});
    same.go_to(plan);
    same
}

/// The plan of this mark.
pub fn plan_of(mark: &Shadow<KeptMark>) -> Shadow<KeptPlan>
    ensures { result ≡ mark.now.plan }
{
    let mut plan = Shadow::of(&KeptPlan {});
    plan.go_to(mark);
    plan
}

/// The same mark.
pub fn same_mark(mark: &Shadow<KeptMark>) -> Shadow<KeptMark>
    ensures { result ≡ mark.now }
{
    let mut same = Shadow::of(&KeptMark {});
    same.go_to(mark);
    same
}

/// The mark of the next lending.
pub fn next_mark(nursery: &MemNursery) -> Shadow<KeptMark>
    ensures { result ≡ next_mark nursery.now }
{
    let mut mark = Shadow::of(&KeptMark {});
    mark.go_to(nursery);
    mark
}

/// Puts these scripts into the plan.
pub fn note_scripts(plan: &mut Shadow<KeptPlan>, losses: &[Scripted], refusals: &[Refusal])
    ensures { plan.new ≡ record plan.old { losses = losses.now; refusals = refusals.now } }
{
    plan.go_to(&(losses, refusals));
}

/// Puts into the plan how things stand now.
pub fn note_counts(plan: &mut Shadow<KeptPlan>, nursery: &MemNursery)
    ensures { plan.new ≡ plan_now nursery.now.nursery plan.old.losses plan.old.refusals }
{
    plan.go_to(nursery);
}
