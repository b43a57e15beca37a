//! The commands of Phoenix, from words and bytes to bytes and a status.
#![tactic(auto)]

mod run;
mod serving;

pub use command_texts::answer_text;
pub use run::phoenix;
