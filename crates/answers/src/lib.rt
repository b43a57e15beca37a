//! The answer of every accepted program on a graph: that there is one and no other, and how to find it on one thread.
#![tactic(auto)]

mod laws;
mod solver;

pub use laws::every_program_has_one_answer;
pub use solver::solve;
