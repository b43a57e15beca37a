//! How a command ends without a text of its own: why, with which status, and with which line for the user.
#![tactic(auto)]

mod pieces;
mod reports;
mod stop;

pub use reports::report;
pub use stop::{FrameFault, Stop, stop_status};
