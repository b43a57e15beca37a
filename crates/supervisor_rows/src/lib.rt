//! Tests of whole runs: each row has a job, a script of losses and refused starts, and how the run ends, worked out by hand.
#![tactic(auto)]

#[cfg(test)]
mod jobs;
#[cfg(test)]
mod loss_rows;
#[cfg(test)]
mod program_rows;
#[cfg(test)]
mod rows;
#[cfg(test)]
mod silent_rows;
