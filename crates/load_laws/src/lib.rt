//! Laws of loads: each part that fits has frames, and what they make is that part.
#![tactic(auto)]

mod laws;

pub use laws::{graph_parts_have_frames, parts_have_frames};
