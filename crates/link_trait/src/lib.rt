//! Links to workers: the traits of a link, of what starts the links of one worker, and of what lends these, with all that their
//! calls promise.
#![tactic(auto)]

mod faults;
mod link;
mod nursery;
mod scripts;
mod spawner;

pub use faults::{LinkFault, StartFault};
pub use link::Link;
pub use nursery::Nursery;
pub use scripts::{Moment, Refusal, Scripted};
pub use spawner::Spawner;
