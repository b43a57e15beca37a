//! The laws.
ghost use Rattle.std.specs.Prelude.{◌≡◌, ◌≢◌, ℕ, Bool, List, None};
ghost use Rattle.hub_terms.specs.declared.tasks.Limits.{Limits as LimitsData};
ghost use Rattle.hub_terms.specs.declared.stops.Why.TheVariants as why;
ghost use Rattle.hub_terms.specs.Jobs.{Job};
ghost use Rattle.hub_terms.specs.Hubs.{turn_of, stop};
ghost use Rattle.hub_terms.specs.Systems.{SystemState, Event, give, MayCome, state_after, opening_system};
ghost use Rattle.hub_terms.specs.InStep.{IsInStep};
ghost use Rattle.round_laws.specs.Rounds.{AllLive, RoundsAreNear};
ghost use Rattle.round_laws.specs.OnTime.{IsTimed, AllowsEnough, IsOnTime, AreSpent, StopsOnlySpent};

/// Whatever lag is allowed, live workers stand near to each other: with lag 0 none begins a round before all other live ones have
/// ended the round before.
pub fn rounds_stay_near()
    ensures opens { (cuts : List ℕ) (limits : LimitsData) (told : Bool) (job : Job) → RoundsAreNear (opening_system cuts limits told job).hub }
    ensures keeps { (s : SystemState) (e : Event) → IsInStep s → RoundsAreNear s.hub → MayCome s e → RoundsAreNear (state_after s e).hub }
{}

/// Of a timed state that is on time no turn tells a worker that the rounds are spent, where enough are allowed.
pub fn budget_is_never_told()
    ensures { (s : SystemState) (i : ℕ) → IsInStep s → IsOnTime s → IsTimed s → AllowsEnough s → turn_of s.hub i ≢ stop why.Budget }
{}

/// Whatever lag and however many rounds are allowed, a run is stopped for want of rounds only where they were spent: each world has
/// then made its last Step in the last round. The first turn that tells so comes while all workers are live.
pub fn budget_shows()
    ensures opens { (cuts : List ℕ) (limits : LimitsData) (told : Bool) (job : Job) → StopsOnlySpent (opening_system cuts limits told job) }
    ensures keeps { (s : SystemState) (e : Event) → IsInStep s → StopsOnlySpent s → MayCome s e → StopsOnlySpent (state_after s e) }
    ensures told { (s : SystemState) (i : ℕ) → IsInStep s → StopsOnlySpent s → MayCome s (give i) → turn_of s.hub i ≡ stop why.Budget → AreSpent (state_after s (give i)) }
    ensures all_live { (s : SystemState) (i : ℕ) → IsInStep s → s.hub.halt ≡ None → turn_of s.hub i ≡ stop why.Budget → AllLive s.hub }
{}
