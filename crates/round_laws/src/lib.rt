//! Laws of rounds: live workers stay near to each other, and the rounds that are spent show.
#![tactic(auto)]

mod laws;

pub use laws::{budget_is_never_told, budget_shows, rounds_stay_near};
