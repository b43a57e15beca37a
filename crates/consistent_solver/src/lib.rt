//! The answer of a locally correcting program, on one thread: the greatest consistent list.
//!
//! There is exactly one such list. Every consistent list is at most the start values in core values, and stays at most a
//! list that is renewed. So renewals step down from the start values to the answer, in whatever order they come.
#![tactic(auto)]

mod following;
mod laws;
mod solve;
mod sweeps;
mod waiting;

pub use laws::{
    consistent_lists_stay_below, greatest_consistent_list, greatest_core_list,
    locally_correcting_form, renewals_step_down,
};
pub use solve::solve_consistent;
