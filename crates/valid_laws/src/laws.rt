//! That every state of every run is in step, and valid for its class.
ghost use Rattle.std.specs.Prelude.{ℕ, Bool, List, length};
ghost use Rattle.px_base.specs.Parts.{IsWorkerCuts};
ghost use Rattle.hub_terms.specs.declared.tasks.Limits.{Limits as LimitsData};
ghost use Rattle.hub_terms.specs.Jobs.{Job, IsSound, LimitsFit};
ghost use Rattle.hub_terms.specs.Systems.{Event, IsRun, MayCome, SystemState, opening_system, state_after, state_after_all};
ghost use Rattle.hub_terms.specs.InStep.{IsInStep};
ghost use Rattle.hub_terms.specs.Valid.{IsValid};

/// The state before the first event of a sound job is in step, and valid.
pub fn openings_are_valid()
    ensures in_step { (cuts : List ℕ) (limits : LimitsData) (told : Bool) (job : Job) →
        IsSound job → LimitsFit limits → IsWorkerCuts (length job.rows) cuts →
        IsInStep (opening_system cuts limits told job) }
    ensures valid { (cuts : List ℕ) (limits : LimitsData) (told : Bool) (job : Job) →
        IsSound job →
        IsValid (opening_system cuts limits told job) }
{}

/// Every event that may come keeps that a state is in step, and that it is valid.
pub fn events_keep()
    ensures in_step { (s : SystemState) (e : Event) →
        IsInStep s → MayCome s e →
        IsInStep (state_after s e) }
    ensures valid { (s : SystemState) (e : Event) →
        IsInStep s → IsValid s → MayCome s e →
        IsValid (state_after s e) }
{}

/// Every state of every run of a sound job is in step and valid, whatever was lost, and whenever.
pub fn runs_stay_valid()
    ensures { (cuts : List ℕ) (limits : LimitsData) (told : Bool) (job : Job) (events : List Event) →
        IsSound job → LimitsFit limits → IsWorkerCuts (length job.rows) cuts →
        IsRun (opening_system cuts limits told job) events →
        IsInStep (state_after_all (opening_system cuts limits told job) events) × IsValid (state_after_all (opening_system cuts limits told job) events) }
{}
