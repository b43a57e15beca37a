//! Which workers are live and how far they have come, when a worker may step, and when all is quiet: the part of the hub that
//! looks at no graph, no update and no answer.
#![tactic(auto)]

mod members;
mod workers;

pub use members::Members;
