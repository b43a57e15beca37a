//! Links that are called by hand: to worlds in memory, with scripts, and of a nursery that tells nothing.
#![tactic(auto)]

#[cfg(test)]
mod lives;
#[cfg(test)]
mod memory_tests;
#[cfg(test)]
mod orders;
pub mod silent;
#[cfg(test)]
mod silent_tests;
