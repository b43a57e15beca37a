//! The load of a worker: the frames that bring its part of the graph, and the part that they make.
#![tactic(auto)]

mod assembly;
mod entries;
mod load;
mod rows;

pub use load::{Load, LoadFault};
