//! The plain types of the project, and the definitions that its contracts cite.
#![tactic(auto)]

mod fits;
mod frame;
mod graph;
mod items;
mod laws;
mod memory;
mod number;
mod places;
mod program;
mod row;
mod row_fault;
mod rows;
mod rows_builder;
mod wire;
mod words;

pub use fits::part_fits;
pub use frame::{Frame, Setup, Triple};
pub use graph::{Edge, EdgeList, Part, Read, ReadGraph};
pub use items::Items;
pub use laws::{least_is_least, mex_is_least_absent, one_answer, rank_is_an_order};
pub use memory::Memory;
pub use number::{NumberFault, read_number, write_number, write_value};
pub use places::find_place;
pub use program::{
    Along, Class, CoreProgram, Fold, Form, Own, Program, Rank, Reads, Refused, Start,
};
pub use row::{Row, RowReads};
pub use row_fault::RowFault;
pub use rows::{FlatLists, FlatSlices, Rows, RowsIter};
pub use rows_builder::RowsBuilder;
pub use wire::{Answer, Broken, Foreign, Header, Loss, LossKind, Order, StepFault, Update};
pub use words::Words;

/// The greatest value, printed as `inf`.
pub const TOP: u64 = (1 << 63) - 1;

/// The most vertices of a graph: each position is below it.
pub const MOST_VERTICES: u32 = 1 << 22;

/// The most edge lines of an input.
pub const MOST_EDGES: usize = 1 << 24;

/// The most reads that all rows of a graph have together: an edge makes two at most.
pub const MOST_READS: usize = 1 << 25;

/// Each id is below it.
pub const ID_LIMIT: u64 = 1 << 32;

/// Each weight is below it.
pub const WEIGHT_LIMIT: u64 = 1 << 32;

/// A value of a vertex: a whole number from 0 to `TOP`.
pub type Value = u64;

/// What an input calls a vertex.
pub type Id = u64;

/// The weight of an edge.
pub type Weight = u64;

/// A weight as rows of reads keep it: greater weights want a wider type here, and nowhere else.
pub type RowWeight = u32;

/// A vertex by its position: an index into the rising list of ids.
pub type Pos = u32;
