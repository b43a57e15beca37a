//! That all facts are kept, and that rounds suffice.
ghost use Rattle.std.specs.Prelude.{◌≡◌, ◌≢◌, ℕ, Bool, List, None, Some};
ghost use Rattle.hub_terms.specs.declared.stops.Why.TheVariants as why;
ghost use Rattle.hub_terms.specs.declared.tasks.Limits.{Limits as LimitsData};
ghost use Rattle.hub_terms.specs.Hubs.{stop, turn_of};
ghost use Rattle.hub_terms.specs.Jobs.{Job};
ghost use Rattle.hub_terms.specs.Systems.{Event, MayCome, SystemState, give, opening_system, state_after};
ghost use Rattle.round_laws.specs.Rounds.{AllLive};
ghost use Rattle.round_laws.specs.OnTime.{AllowsEnough, AreSpent, IsTimed, RoundsAreWithin};
ghost use Rattle.budget_laws.specs.KeptFacts.{KeepsAll};
ghost use Rattle.budget_laws.specs.Starts.{IsReached, MayStart};

/// All facts hold before the first event, and each event that may come keeps them. So every state that a run reaches has them.
pub fn all_facts_are_kept()
    ensures opens { (cuts : List ℕ) (limits : LimitsData) (told : Bool) (job : Job) → MayStart cuts limits job → KeepsAll (opening_system cuts limits told job) }
    ensures keeps { (s : SystemState) (e : Event) → KeepsAll s → MayCome s e → KeepsAll (state_after s e) }
    ensures reached { (s : SystemState) → IsReached s → KeepsAll s }
{}

/// Rounds suffice. In every state that a run reaches with lag 0, where the links tell their worlds and all workers are live, no
/// worker's round is further above the base than the number of vertices and eight more. Where so many rounds are allowed, the run
/// isn't stopped for want of rounds, and no worker is told so.
pub fn rounds_suffice()
    ensures within { (s : SystemState) → IsReached s → IsTimed s → RoundsAreWithin s }
    ensures kept { (s : SystemState) → IsReached s → IsTimed s → AllowsEnough s → s.hub.halt ≢ Some why.Budget }
    ensures told { (s : SystemState) (i : ℕ) → IsReached s → IsTimed s → AllowsEnough s → turn_of s.hub i ≢ stop why.Budget }
{}

/// Whatever lag and however many rounds are allowed, a worker is told that the rounds are spent only where they are: no order is
/// under way then, and each world has made its last Step in the last round. The first time all workers are live.
pub fn budget_is_spent()
    ensures spent { (s : SystemState) (i : ℕ) → IsReached s → MayCome s (give i) → turn_of s.hub i ≡ stop why.Budget → AreSpent (state_after s (give i)) }
    ensures all_live { (s : SystemState) (i : ℕ) → IsReached s → s.hub.halt ≡ None → turn_of s.hub i ≡ stop why.Budget → AllLive s.hub }
{}
