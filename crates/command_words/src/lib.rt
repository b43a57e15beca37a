//! The words of a command line, read by one table of commands, options and flags.
#![tactic(auto)]

mod command;
mod found;
mod items;
mod judging;
mod numbers;
mod positionals;
mod programs;
mod reader;
mod table;

pub use command::{Command, PartsCommand, ProgramFault, RunCommand, SolveCommand};
pub use reader::read_command;
