//! Laws of settling, without workers: what is right at a vertex after how many rounds of a job, class by class, and that all is
//! right after one round fewer than there are vertices.
#![tactic(auto)]

mod laws;

pub use laws::{all_settles, walks_settle};
