//! What an event leaves of the state of a whole run.
ghost use Rattle.std.specs.Prelude.{◌≡◌, ◌≢◌, ℕ, Some, None};
ghost use Rattle.px_base.specs.declared.wire.Order.{Order as OrderData};
ghost use Rattle.px_base.specs.declared.wire.Answer.{Answer as AnswerData};
ghost use Rattle.px_base.specs.Worlds.{World as WorldData};
ghost use Rattle.hub_terms.specs.Hubs.{order_at};
ghost use Rattle.hub_terms.specs.HubEvents.{foreign_of};
ghost use Rattle.hub_terms.specs.Systems.{Event, IsHonestAnswer, MayCome, SystemState, state_after, world_at};
ghost use Rattle.hub_terms.specs.InStep.{IsInStep};
ghost use Rattle.hub_terms.specs.Seats.{seat_part, worker_of};

/// Nothing is wrong with the answer that a worker's world gives to its order.
pub fn honest_answers_are_taken()
    ensures { (s : SystemState) (i : ℕ) (order : OrderData) (answer : AnswerData) (w : WorldData) →
        IsInStep s → order_at s.hub i ≡ Some order → world_at s i ≡ Some w →
        IsHonestAnswer s i answer →
        foreign_of s.hub.inboxes i order answer ≡ None }
{}

/// No event of a worker changes the part of another one.
pub fn seats_are_apart()
    ensures { (s : SystemState) (e : Event) (j : ℕ) →
        IsInStep s → MayCome s e → worker_of e ≢ j →
        seat_part (state_after s e) j ≡ seat_part s j }
{}
