//! Why a run stops before its answer.

/// Why a run stops early, as the hub keeps it. The first reason stays.
#[derive(Clone, Copy, Debug, PartialEq, Eq)]
pub enum Why {
    /// One loss more came than the limits allow.
    TooManyLosses,
    /// All workers are live and have answered, and none has a round left, though all isn't quiet.
    Budget,
    /// There is no replacement for a worker that was lost.
    NoReplacement {
        /// The number of that worker, counted from 0.
        worker: u32,
    },
    /// Memory was wanting.
    Memory,
}

/// Why a worker's supervisor asks the run to stop.
#[derive(Clone, Copy, Debug, PartialEq, Eq)]
pub enum Halt {
    /// There is no replacement for the worker.
    NoReplacement,
    /// Memory was wanting.
    Memory,
}
