//! A lock round one value, for a fixed number of seats. Each seat has one part of the value, and finds it as it last left it.
#![tactic(auto)]

mod bell;
mod lock;
mod parted;
mod rule;
mod steps;

pub use lock::{Seat, SeatLock};
pub use parted::Parted;
pub use rule::{LockRule, View};
