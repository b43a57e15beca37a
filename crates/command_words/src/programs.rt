//! The program that the word PROGRAM names or spells.
ghost use Rattle.std.specs.Prelude.{◌≡◌};
ghost use Rattle.px_base.specs.Values.{is_listed};
ghost use Rattle.command_words.specs.CommandFits.{ProgramFits};
ghost use Rattle.command_words.specs.CommandWords.{program_of};

use crate::command::ProgramFault;
use program_table::{builtin, read_row};
use px_base::Program;

/// Whether the word is read as a row.
fn is_row(word: &str) -> bool
    ensures { result ≡ is_listed word.now 59 }
{
    word.as_bytes().iter().any(|byte| *byte == b';')
}

/// The program that the word names.
#[tactic(auto, unfolding(crate::specs::CommandWords::program_of))]
pub fn read_program(word: &str) -> Result<Program, ProgramFault>
    ensures program { result ≡ program_of word.now }
    ensures fits { ProgramFits result }
{
    if is_row(word) {
        match read_row(word) {
            Ok(program) => Ok(program),
            Err(fault) => Err(ProgramFault::BadRow(fault)),
        }
    } else {
        match builtin(word) {
            Some(program) => Ok(program),
            None => Err(ProgramFault::Unknown),
        }
    }
}
