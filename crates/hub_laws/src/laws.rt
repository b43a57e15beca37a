//! What each event keeps of the hub, whatever its workers answer, and that the hub is never stuck.
ghost use Rattle.std.specs.Prelude.{◌≡◌, ◌≢◌, ℕ, ◌<◌, ◌≤◌, Bool, true, false, List, None, Ok};
ghost use Rattle.px_base.specs.declared.wire.Answer.{Answer as AnswerData};
ghost use Rattle.px_base.specs.declared.wire.LossKind.{LossKind as LossKindData};
ghost use Rattle.hub_terms.specs.declared.stops.Halt.{Halt as HaltData};
ghost use Rattle.hub_terms.specs.declared.tasks.Limits.{Limits as LimitsData};
ghost use Rattle.hub_terms.specs.Jobs.{LimitsFit};
ghost use Rattle.hub_terms.specs.Hubs.{HubState, after_turn, opening_hub, order_at, turn_of, wait, worker_at, worker_count};
ghost use Rattle.hub_terms.specs.HubEvents.{after_answer, after_halt, after_join, after_loss};
ghost use Rattle.hub_terms.specs.HubInStep.{IsHubInStep};
ghost use Rattle.hub_terms.specs.Systems.{AnswersValues, HasOrder};

/// The hub is in step before the first event, and each event that may come keeps it so. No honest answer is asked for: each
/// answer counts that carries values.
pub fn hubs_stay_in_step()
    ensures opens { (cuts : List ℕ) (routes : List (List ℕ)) (counting : Bool) (limits : LimitsData) →
        LimitsFit limits →
        IsHubInStep (opening_hub cuts routes counting limits) }
    ensures gave { (hub : HubState) (i : ℕ) →
        IsHubInStep hub → i < worker_count hub → (worker_at hub i).live ≡ true → order_at hub i ≡ None →
        IsHubInStep (after_turn hub i (turn_of hub i)) }
    ensures took { (hub new : HubState) (i : ℕ) (answer : AnswerData) →
        IsHubInStep hub → i < worker_count hub → HasOrder hub i → AnswersValues answer →
        after_answer hub i answer ≡ Ok new →
        IsHubInStep new }
    ensures lost { (hub : HubState) (i : ℕ) (kind : LossKindData) →
        IsHubInStep hub → i < worker_count hub → (worker_at hub i).live ≡ true →
        IsHubInStep (after_loss hub i kind) }
    ensures joined { (hub : HubState) (i : ℕ) →
        IsHubInStep hub → i < worker_count hub → (worker_at hub i).live ≡ false → hub.halt ≡ None →
        IsHubInStep (after_join hub i) }
    ensures halted { (hub : HubState) (i : ℕ) (reason : HaltData) →
        IsHubInStep hub →
        IsHubInStep (after_halt hub i reason) }
{}

/// Where all workers are live, none has an order and nothing stops the run, some worker isn't told to wait.
pub fn never_stuck()
    ensures { (hub : HubState) →
        IsHubInStep hub → 1 ≤ worker_count hub →
        ((i : ℕ) → i < worker_count hub → (worker_at hub i).live ≡ true) →
        ((i : ℕ) → order_at hub i ≡ None) →
        hub.halt ≡ None →
        (i : ℕ) × (i < worker_count hub) × (turn_of hub i ≢ wait) }
{}
