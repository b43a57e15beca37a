//! Laws of quiet states: the masters of all worlds are the core answer, and so are the reports.
#![tactic(auto)]

mod laws;

pub use laws::{quiet_is_the_answer, reports_are_the_answer};
