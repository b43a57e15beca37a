//! That worlds fit their parts.
ghost use Rattle.std.specs.Prelude.{◌≡◌, ◌<◌, ℕ, List, Ok, length};
ghost use Rattle.px_base.specs.declared.wire.Order.{Order as OrderData};
ghost use Rattle.px_base.specs.Parts.{IsWorkerCuts, part_count, part_of};
ghost use Rattle.px_base.specs.Worlds.{CarriesValues, StepOutcome, World as WorldData, new_world, updates_in};
ghost use Rattle.px_base.specs.WorldSteps.{world_step};
ghost use Rattle.hub_terms.specs.InStep.{IsWorldOf};
ghost use Rattle.hub_terms.specs.Jobs.{IsSound, Job};

/// The new world of a part of a sound job is a world of that part, and stays one after each order that it doesn't refuse,
/// whether it is one of values or one that counts.
pub fn worlds_of_sound_jobs_fit()
    ensures new { (job : Job) (cuts : List ℕ) (i : ℕ) →
        IsSound job → IsWorkerCuts (length job.rows) cuts → i < part_count cuts →
        IsWorldOf (part_of job.rows job.starts cuts i) job.core (new_world (part_of job.rows job.starts cuts i) job.core) }
    ensures stepped { (job : Job) (cuts : List ℕ) (i : ℕ) (w : WorldData) (order : OrderData) (outcome : StepOutcome WorldData) →
        IsSound job → IsWorldOf (part_of job.rows job.starts cuts i) job.core w →
        CarriesValues (updates_in order) → world_step w order ≡ Ok outcome →
        IsWorldOf (part_of job.rows job.starts cuts i) job.core outcome.world }
{}
