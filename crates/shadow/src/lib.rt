//! A content for contracts alone, which has no bytes.
#![tactic(auto)]

mod shadow;

pub use shadow::Shadow;
