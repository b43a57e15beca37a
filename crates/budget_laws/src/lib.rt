//! Laws of the budget of rounds: what each class of programs settles in a round, so that the rounds suffice; and all facts that
//! every state of a run keeps.
#![tactic(auto)]

mod laws;

pub use laws::{all_facts_are_kept, budget_is_spent, rounds_suffice};
