//! What a supervisor is given and what it answers; what a turn of a worker is, how spawners and links go with the state of the
//! run, and what a run leaves of its nursery; and the laws that lead from the one to the other.
#![tactic(auto)]

mod endings;
mod job;
mod laws;

pub use endings::{Finished, Stop};
pub use job::Job;
pub use laws::losses_are_ends;
