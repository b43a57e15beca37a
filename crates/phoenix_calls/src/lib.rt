//! Tests of public calls whose answers no row of the top call shows, against answers that were worked out by hand.
#![tactic(auto)]

#[cfg(test)]
mod graph_tests;
#[cfg(test)]
mod graphs;
#[cfg(test)]
mod rule_tests;
#[cfg(test)]
mod session_tests;
#[cfg(test)]
mod world_tests;
