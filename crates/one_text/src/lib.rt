//! That an edge list has one graph in a form, and that whatever a job is to write on an input has one text. There are laws
//! alone here.
#![tactic(auto)]

mod laws;

pub use laws::{every_ending_has_one_text, every_input_has_one_text};
