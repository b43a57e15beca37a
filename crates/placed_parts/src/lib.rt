//! Parts whose reads have places in place of positions.
#![tactic(auto)]

mod placed_part;
mod places;

pub use placed_part::PlacedPart;
pub use places::place_of;
