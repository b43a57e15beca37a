//! The k-core of a graph whose reads are mutual, the greatest set of vertices that each have enough reads of members: that
//! there is one and no other, and a solver that peels off what is short of reads.
#![tactic(auto)]

mod laws;
mod peeling;
mod solve;

pub use laws::greatest_core;
pub use solve::solve_core;
