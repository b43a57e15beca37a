//! Laws of the hub: each event keeps its book-keeping, and it is never stuck.
#![tactic(auto)]

mod laws;

pub use laws::{hubs_stay_in_step, never_stuck};
