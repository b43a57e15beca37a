//! Walks through rows of reads and what values become along them: the definitions, and the lemmas that several crates cite.
#![tactic(auto)]
