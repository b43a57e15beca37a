//! What recovery needs of a program, or why the program is refused.
#![tactic(auto)]

mod classes;
mod laws;

pub use classes::classify;
pub use laws::{classes_keep_promises, refusals_show_why};
pub use px_base::{Class, Refused};
