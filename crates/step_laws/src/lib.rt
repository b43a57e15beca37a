//! Laws of parts and of the steps of worlds: the worlds of a sound job fit their parts, and stay so. Its lemmas say where
//! positions stand, what a step of either kind of world leaves, and what updates take off counts.
#![tactic(auto)]

mod laws;

pub use laws::worlds_of_sound_jobs_fit;
