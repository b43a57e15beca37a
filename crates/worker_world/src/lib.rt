//! A worker's world: its part of the graph, and the core value of each master and each mirror, or what counting workers
//! keep.
#![tactic(auto)]

mod due;
mod known;
mod places;
mod pulls;
mod read_rules;
mod readers;
mod stamps;
mod steps;
mod telling;
mod value_world;
mod world;

pub use px_base::StepFault;
pub use world::World;
