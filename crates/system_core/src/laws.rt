//! That a run is never stuck.
ghost use Rattle.std.specs.Prelude.{◌≡◌, ◌≢◌, ◌<◌, ℕ, None};
ghost use Rattle.hub_terms.specs.Hubs.{order_at, turn_of, wait, worker_count};
ghost use Rattle.hub_terms.specs.Systems.{SystemState};
ghost use Rattle.round_laws.specs.Rounds.{AllLive};
ghost use Rattle.budget_laws.specs.KeptFacts.{KeepsAll};

/// Where all workers are live, none has an order to answer and nothing stops the run, some worker that asks for a turn isn't
/// told to wait.
pub fn some_worker_moves()
    ensures { (s : SystemState) →
        KeepsAll s → AllLive s.hub →
        ((i : ℕ) → order_at s.hub i ≡ None) →
        s.hub.halt ≡ None →
        (i : ℕ) × (i < worker_count s.hub) × (turn_of s.hub i ≢ wait) }
{}
