//! The hub: which order each worker gets, what its answer changes, and what a loss does.
#![tactic(auto)]

mod faults;
mod given;
mod hub;
mod kept;
mod mail;
mod reports;
mod route_words;

pub use given::{Given, Turn};
pub use hub::Hub;
pub use hub_terms::{Halt, Limits, Why};
