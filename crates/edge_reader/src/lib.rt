//! Reads an edge list: text lines of two ids and maybe a weight.
#![tactic(auto)]

mod fault;
mod finish;
mod laws;
mod lines;
mod marks;
mod places;
mod reader;
mod scan;

pub use fault::EdgeFault;
pub use laws::inputs_fit;
pub use reader::read_edges;
