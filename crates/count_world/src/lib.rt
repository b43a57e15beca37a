//! A worker's world that counts living neighbours: its part of the graph, which masters are alive, and how many living
//! neighbours each of them counts.
#![tactic(auto)]

mod census;
mod known;
mod lists;
mod readers;
mod saved;
mod tally;
mod world;

pub use px_base::StepFault;
pub use world::CountWorld;
