//! Where a position stands in a rising list, found by a table in constant time.
#![tactic(auto)]

mod blocks;
mod place_table;

pub use place_table::PlaceTable;
