//! Tests of the lock: a thread a seat over one value, what each seat left, and that seats which sleep are woken.
#![tactic(auto)]

mod board;
mod each;
#[cfg(test)]
mod tests;

pub use board::{Board, Tally};
pub use each::count_each;
