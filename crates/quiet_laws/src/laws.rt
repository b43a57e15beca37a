//! What the masters and the reports are where all is quiet.
ghost use Rattle.std.specs.Prelude.{◌≡◌, ℕ, ◌+◌, ◌<◌, true, List, Some, Ok, length, slice_index};
ghost use Rattle.px_base.specs.declared.program.Class.TheVariants.{GloballyCorrecting, LocallyCorrecting, SelfStabilising};
ghost use Rattle.px_base.specs.Classes.{class_of};
ghost use Rattle.px_base.specs.Parts.{low_of};
ghost use Rattle.px_base.specs.Values.{is_in};
ghost use Rattle.px_base.specs.Worlds.{CountWorld, ValueWorld, of_counts, of_values};
ghost use Rattle.hub_terms.specs.Hubs.{all_reported, is_quiet_hub, reported_values, worker_count};
ghost use Rattle.hub_terms.specs.Systems.{SystemState, world_at};
ghost use Rattle.hub_terms.specs.InStep.{IsInStep};
ghost use Rattle.hub_terms.specs.Valid.{IsCoreAnswer, IsValid};

/// In a quiet state the masters of all worlds are the core answer, by position: their values, or those that are alive. A
/// self-stabilising program needs no validity for that.
pub fn quiet_is_the_answer()
    ensures values { (s : SystemState) (answer : List ℕ) (i k : ℕ) (u : ValueWorld) →
        IsInStep s → IsValid s → s.told ≡ true → is_quiet_hub s.hub ≡ true →
        class_of s.job.core.program ≡ Ok LocallyCorrecting → IsCoreAnswer s.job answer →
        i < worker_count s.hub → world_at s i ≡ Some (of_values u) → k < length u.masters →
        slice_index u.masters k ≡ slice_index answer (low_of s.hub.inboxes.cuts i + k) }
    ensures fixed { (s : SystemState) (answer : List ℕ) (i k : ℕ) (u : ValueWorld) →
        IsInStep s → s.told ≡ true → is_quiet_hub s.hub ≡ true →
        class_of s.job.core.program ≡ Ok SelfStabilising → IsCoreAnswer s.job answer →
        i < worker_count s.hub → world_at s i ≡ Some (of_values u) → k < length u.masters →
        slice_index u.masters k ≡ slice_index answer (low_of s.hub.inboxes.cuts i + k) }
    ensures living { (s : SystemState) (answer : List ℕ) (i k : ℕ) (c : CountWorld) →
        IsInStep s → IsValid s → s.told ≡ true → is_quiet_hub s.hub ≡ true →
        class_of s.job.core.program ≡ Ok GloballyCorrecting → IsCoreAnswer s.job answer →
        i < worker_count s.hub → world_at s i ≡ Some (of_counts c) → k < length c.alive →
        is_in c.alive k ≡ is_in answer (low_of s.hub.inboxes.cuts i + k) }
{}

/// Where each worker has reported, all is quiet, and the reported values are the core answer, whatever the class.
pub fn reports_are_the_answer()
    ensures quiet { (s : SystemState) →
        IsInStep s → all_reported s.hub ≡ true →
        is_quiet_hub s.hub ≡ true }
    ensures values { (s : SystemState) (answer : List ℕ) →
        IsInStep s → IsValid s → s.told ≡ true → all_reported s.hub ≡ true →
        IsCoreAnswer s.job answer →
        reported_values s.hub ≡ answer }
{}
