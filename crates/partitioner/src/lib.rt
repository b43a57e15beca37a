//! Cuts the vertices of a graph into parts, one for each worker: which vertices a part has, which it reads from other
//! parts, and which parts each vertex has to be sent to.
#![tactic(auto)]

mod cuts;
mod laws;
mod marks;
mod parts;
mod sets;
mod tables;
mod whole;
mod words;

pub use cuts::{Cuts, cut, owner};
pub use laws::{blocks_are_cuts, mirrors_are_routed, one_owner, parts_fit};
pub use parts::part;
pub use tables::{RouteTable, routes};
pub use whole::parts_and_routes;
