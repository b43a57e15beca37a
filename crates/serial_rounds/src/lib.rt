//! The answer of a locally correcting program by any number of workers, in rounds on one thread.
//!
//! In each round each worker takes one Step, with all that the others sent it in the round before. So one round renews the
//! whole list of core values at once, until nothing changes and nothing is to be sent.
#![tactic(auto)]

mod inboxes;
mod rounds;
mod solve;
mod steps;

pub use solve::solve_in_rounds;
