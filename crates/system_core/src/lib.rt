//! The core: the hub of a run beside the world of each worker. The worlds are kept for contracts alone, which say what every
//! interleaving of turns, answers, losses and replacements leaves: hub and worlds in step, a state valid for its class, and at
//! the end the answer.
#![tactic(auto)]

mod contents;
mod laws;
mod system;

pub use laws::some_worker_moves;
pub use system::System;
