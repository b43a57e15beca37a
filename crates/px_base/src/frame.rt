//! What workers and their hub send each other.
use crate::items::Items;
use crate::program::Program;
use crate::wire::{Answer, Order, Update};
use crate::{Pos, Value, Weight};

/// The first frame of a load: the part's index and range, the program, the number of chunks, and how many entries the
/// other frames of the load have.
#[derive(Clone, Copy, Debug, PartialEq, Eq)]
pub struct Setup {
    /// The number of the part.
    pub index: u32,
    /// The first master.
    pub low: Pos,
    /// The position after the last master.
    pub high: Pos,
    /// The core program.
    pub program: Program,
    /// Into how many chunks a round is split.
    pub chunks: u32,
    /// How many mirrors follow.
    pub mirrors: u32,
    /// How many vertices of the boundary follow.
    pub boundary: u32,
    /// How many reads follow.
    pub reads: u32,
}

/// A read, with the vertex that reads.
#[derive(Clone, Copy, Debug, PartialEq, Eq)]
pub struct Triple {
    /// The vertex that reads.
    pub target: Pos,
    /// The vertex that is read.
    pub source: Pos,
    /// The weight that it is read with.
    pub weight: Weight,
}

/// What is sent between a worker and its hub. A load is one setup, then starts, mirrors, boundary and reads in pieces, and
/// ready. Orders and answers follow it.
#[derive(Debug, PartialEq, Eq, Drop)]
pub enum Frame {
    /// A load begins.
    Setup(Setup),
    /// Core starts of masters, in the order of positions.
    Starts(Items<Value>),
    /// Mirrors with their core starts, by rising position.
    Mirrors(Items<Update>),
    /// Vertices of the boundary, rising.
    Boundary(Items<Pos>),
    /// Reads by target, then source, then weight.
    Reads(Items<Triple>),
    /// The load ends.
    Ready,
    /// What the hub asks of a worker.
    Order(Order),
    /// What a worker answers.
    Answer(Answer),
}
