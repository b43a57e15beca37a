//! What settles in each round of a job, and that all has settled in the last.
ghost use Rattle.std.specs.Prelude.{◌≡◌, ◌<◌, ◌≤◌, ℕ, List, length, slice_index};
ghost use Rattle.px_base.specs.declared.program.Class.TheVariants.{GloballyCorrecting, LocallyCorrecting, SelfStabilising};
ghost use Rattle.px_base.specs.Answers.{IsKCore, reads_needed};
ghost use Rattle.px_base.specs.Values.{is_in};
ghost use Rattle.consistent_solver.specs.CoreLists.{IsGreatestCoreConsistent};
ghost use Rattle.hub_terms.specs.Jobs.{Job};
ghost use Rattle.walk_terms.specs.Walks.{IsCarried, IsWalk, core_carried};
ghost use Rattle.settling_laws.specs.Settling.{IsGathered, IsShallow, IsSoundAs, is_above_layer, last_settling, value_after};

/// In a locally correcting job what has settled after k rounds is the least that a walk of at most k reads brings: no such walk
/// brings less, and some such walk brings it.
pub fn walks_settle()
    ensures none_less { (job : Job) (k u v : ℕ) (weights : List ℕ) → IsSoundAs LocallyCorrecting job → v < length job.rows → IsWalk job.rows u v weights → length weights ≤ k →
        value_after job k v ≤ core_carried job.core (slice_index job.starts u) weights }
    ensures brought { (job : Job) (k v : ℕ) → IsSoundAs LocallyCorrecting job → v < length job.rows → IsCarried job.core job.rows job.starts k v (value_after job k v) }
{}

/// After one round fewer than there are vertices all has settled. A locally correcting job then has the greatest consistent list
/// at each vertex. Of a self-stabilising one no chain of reads is longer, so each vertex has its right value by then, and there
/// are right values. Of a globally correcting one exactly the core is left.
pub fn all_settles()
    ensures locally { (job : Job) (answer : List ℕ) (v : ℕ) → IsSoundAs LocallyCorrecting job → IsGreatestCoreConsistent job.core job.rows job.starts answer → v < length job.rows →
        value_after job (last_settling job) v ≡ slice_index answer v }
    ensures shallow { (job : Job) (v : ℕ) → IsSoundAs SelfStabilising job → v < length job.rows → IsShallow job.rows (last_settling job) v }
    ensures right { (job : Job) → IsSoundAs SelfStabilising job → (list : List ℕ) × IsGathered job list }
    ensures globally { (job : Job) (core : List ℕ) (v : ℕ) → IsSoundAs GloballyCorrecting job → IsKCore (reads_needed job.core.program.fold) job.rows core → v < length job.rows →
        is_above_layer job (last_settling job) v ≡ is_in core v }
{}
