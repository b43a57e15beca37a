//! Laws of validity: every state of every run is in step, and valid for its class.
#![tactic(auto)]

mod laws;

pub use laws::{events_keep, openings_are_valid, runs_stay_valid};
