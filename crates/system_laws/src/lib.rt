//! Laws of the state of a whole run: honest answers are taken, and an event changes no other worker. Its lemmas say that each
//! event keeps hub and worlds in step.
#![tactic(auto)]

mod laws;

pub use laws::{honest_answers_are_taken, seats_are_apart};
