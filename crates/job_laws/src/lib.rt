//! Laws of sound jobs: each has one answer, and what is built for an accepted program is one.
#![tactic(auto)]

mod laws;

pub use laws::{built_jobs_are_sound, every_sound_job_has_one_answer};
