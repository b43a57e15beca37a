//! Runs a job over the links of a nursery, and answers its values or why it stopped: starts the workers, gives each its turns,
//! replaces the lost ones, and takes all links and spawners back.
#![tactic(auto)]

mod endings;
mod release;
mod rounds;
mod serial;
mod team;
mod turns;

pub use driver_laws::{Finished, Job, Stop};
pub use recovery::Limits;
pub use serial::supervise_serial;
