//! Links to worlds in memory. A test can say beforehand which link ends at which call, and which start is refused.
#![tactic(auto)]

mod counts;
mod kept;
mod mem_link;
mod mem_nursery;
mod mem_spawner;
mod scripts;

pub use link_trait::{Moment, Refusal, Scripted};
pub use mem_link::MemLink;
pub use mem_nursery::MemNursery;
pub use mem_spawner::MemSpawner;
