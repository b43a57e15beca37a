//! The graph that a list of edges makes: who reads whom, and which vertex stands first.
#![tactic(auto)]

mod graph;
mod keep;
mod order;
mod rank;
mod units;

pub use graph::build;
pub use rank::before;
