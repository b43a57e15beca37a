//! What a value becomes on a read and what a vertex gathers, with the laws that the workers rest on. A value is a whole
//! number from 0 to `TOP`. In core values every program takes the least, or the least number that is absent.
#![tactic(auto)]

mod absent;
mod edges;
mod gathers;
mod laws;
mod values;

pub use edges::EdgeRule;
pub use gathers::{Gather, LeastGather, MexGather};
pub use laws::{flip_turns_the_order, least_is_monotone};
pub use px_base::{CoreProgram, least_is_least, mex_is_least_absent};
pub use values::{core_form, edge_value, flip, turn};
