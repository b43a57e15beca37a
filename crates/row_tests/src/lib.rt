//! Small rows by hand, and what the calls make of them.
#![tactic(auto)]

#[cfg(test)]
mod tests;
