//! The text of each command, or why there is none.
#![tactic(auto)]

mod answer_texts;
mod answers_on;
mod class_texts;
mod job;
mod parts_on;
mod parts_texts;
mod planning;
mod solution;
mod sources;

pub use answer_texts::answer_text;
pub use job::{Job, Plan};
pub use planning::plan;
pub use solution::job_text;
