//! Tests of the core's public calls, event by event, against answers that were worked out by hand.
#![tactic(auto)]

#[cfg(test)]
mod jobs;
#[cfg(test)]
mod plays;
#[cfg(test)]
mod row_tests;
#[cfg(test)]
mod turn_tests;
