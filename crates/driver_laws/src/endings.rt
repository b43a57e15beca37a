//! How a run ends.
use px_base::{Items, Loss, Value};

/// The answer of a job, and what was lost on the way.
#[derive(Debug, PartialEq, Eq, Drop)]
pub struct Finished {
    /// The core value of each vertex, by position.
    pub values: Items<Value>,
    /// The losses, in order. Each lost worker was replaced.
    pub losses: Items<Loss>,
}

/// Why a run stopped before its answer.
#[derive(Debug, PartialEq, Eq, Drop)]
pub enum Stop {
    /// There was no replacement for a worker.
    NoReplacement {
        /// The number of that worker, counted from 0.
        worker: u32,
    },
    /// More losses came than are allowed.
    TooManyLosses {
        /// The losses, in order.
        losses: Items<Loss>,
    },
    /// No worker had a round left, though all wasn't quiet.
    Budget {
        /// The base: the greatest round of a live worker at the last join. Rounds are counted from it.
        base: u64,
    },
    /// Memory was wanting.
    Memory,
}
