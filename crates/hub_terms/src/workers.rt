//! What the hub knows of one worker.

use crate::tasks::Task;

/// How far one worker has come.
#[derive(Clone, Copy, Debug, PartialEq, Eq)]
pub struct MemberState {
    /// Whether the worker has joined, and wasn't lost since.
    pub live: bool,
    /// Whether the worker has answered no Step of this epoch.
    pub due: bool,
    /// What it has to answer.
    pub task: Task,
    /// How many Steps it has answered, counted from the round at which it joined.
    pub round: u64,
    /// Whether its last Step of this epoch changed any of its masters.
    pub changed: bool,
}
