//! For each place a list of its readers, as chains of links in one list.
#![tactic(auto)]

mod chain;
mod readers;

pub use chain::Chain;
pub use readers::Readers;
