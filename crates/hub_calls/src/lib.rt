//! Tests of the hub's parts, call after call, against states that were worked out by hand.
#![tactic(auto)]

#[cfg(test)]
mod graphs;
#[cfg(test)]
mod hub_events;
#[cfg(test)]
mod hub_tests;
#[cfg(test)]
mod inbox_tests;
#[cfg(test)]
mod member_tests;
