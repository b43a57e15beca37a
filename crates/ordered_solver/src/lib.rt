//! The fixed point of programs whose vertices read only vertices that stand before them: that there is one and no other,
//! and a solver that goes through the vertices once, in the order of their rank.
#![tactic(auto)]

mod laws;
mod mex;
mod order;
mod pulls;
mod solve;

pub use laws::fixed_point_of_earlier_reads;
pub use solve::solve_in_order;
