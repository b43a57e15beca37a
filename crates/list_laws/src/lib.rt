//! Lemmas on lists that several crates cite: items written and counted, sums over places, ranges, what was told and delivered.
#![tactic(auto)]
