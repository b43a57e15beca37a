//! What is to be computed, and by how many workers.
use hub_terms::Limits;
use px_base::{CoreProgram, Items, ReadGraph, Value};

/// What is to be computed, by how many workers, and within which limits.
#[derive(Debug, Drop)]
pub struct Job {
    /// The graph. Row v lists the reads of vertex v.
    pub graph: ReadGraph,
    /// The core start value of each vertex, by position.
    pub starts: Items<Value>,
    /// The program, in core form.
    pub core: CoreProgram,
    /// How many workers there are, one for each part of the graph: 1 to 64.
    pub workers: u32,
    /// How far ahead a worker may be, how many rounds it may go, and how many losses are allowed.
    pub limits: Limits,
    /// In how many pieces a worker renews its masters: 1 to 64.
    pub chunks: u32,
}
