//! Reads a command from the words of a command line.
ghost use Rattle.std.specs.Prelude.{◌≡◌, ◌<◌, ◌-◌, IfOk, IfSome, IsSome, OnErr, Some, length, drop};
ghost use Rattle.command_words.specs.CommandFits.{CommandFits, ProgramFits};
ghost use Rattle.command_words.specs.CommandTable.{line_of};
ghost use Rattle.command_words.specs.CommandWords.{command_of, command_said, items_of, program_said, sources_said};
ghost use Rattle.command_words.specs.Judging.{IsFound, TakesProgram, TakesSources, items_after};

use crate::command::{Command, PartsCommand, ProgramFault, RunCommand, SolveCommand};
use crate::found::Found;
use crate::judging::judged;
use crate::positionals::{next_positional, source_numbers};
use crate::programs::read_program;
use crate::table::{CommandName, command_named};
use px_base::{Id, Items, Memory, Program, Words};
use std::alloc::Global;

/// The number of workers where none is given.
const USUAL_WORKERS: u32 = 2;

/// The program of words that are right.
fn program(command: CommandName, words: &Words, found: Found) -> Result<Program, ProgramFault>
    requires right { IsFound command words.now found }
    requires takes { TakesProgram command }
    ensures program { result ≡ program_said (items_after command words.now) }
    ensures fits { ProgramFits result }
{
    read_program(words.word(next_positional(command, words, 1)))
}

/// The sources of words that are right, of a command that takes them.
fn sources(
    alloc: Global,
    command: CommandName,
    words: &Words,
    found: Found,
) -> Result<Items<Id>, Memory>
    requires right { IsFound command words.now found }
    requires takes { TakesProgram command }
    requires sources { TakesSources command }
    ensures { IfOk result (λ sources. sources ≡ sources_said (items_after command words.now)) }
{
    let from = next_positional(command, words, 1) + 1;
    let numbers = source_numbers(alloc, command, words, from, found.positionals - 1)?;
    Ok(Items::from_vec(numbers))
}

/// What words that are right ask for.
#[tactic(auto, using(crate::proofs::Ranges::workers_fit))]
fn command_said(
    alloc: Global,
    command: CommandName,
    words: &Words,
    found: Found,
) -> Result<Command, Memory>
    requires { IsFound command words.now found }
    ensures said { IfOk result (λ said. said ≡ command_said command (items_after command words.now)) }
    ensures fits { IfOk result (λ said. CommandFits said) }
{
    let workers = found.workers.unwrap_or(USUAL_WORKERS);
    let unweighted = found.unweighted;
    match command {
        CommandName::Run => {
            let program = program(command, words, found);
            let sources = sources(alloc, command, words, found)?;
            Ok(Command::Run(RunCommand {
                program,
                sources,
                workers,
            }))
        }
        CommandName::Solve => {
            let program = program(command, words, found);
            let sources = sources(alloc, command, words, found)?;
            Ok(Command::Solve(SolveCommand {
                program,
                sources,
                unweighted,
            }))
        }
        CommandName::Classify => Ok(Command::Classify(program(command, words, found))),
        CommandName::Parts => Ok(Command::Parts(PartsCommand {
            program: program(command, words, found),
            workers,
            unweighted,
        })),
        CommandName::Worker => Ok(Command::Worker),
    }
}

/// What the words of a command line ask for. `None` exactly where they are outside the table of commands: no words, an
/// unknown command, a word that is no part of an item, an option or flag that stands twice, other positionals than
/// the command has. All words are judged before the PROGRAM is read.
///
/// # Errors
/// `Memory` where there is no room for the sources. Words outside the table never want memory.
pub fn read_command(alloc: Global, words: &Words) -> Result<Option<Command>, Memory>
    ensures command { IfOk result (λ command. command ≡ command_of words.now) }
    ensures fits { IfOk result (λ command. IfSome command (λ command. CommandFits command)) }
    ensures wants { OnErr result (IsSome (command_of words.now)) }
{
    if words.len() == 0 {
        return Ok(None);
    }
    let Some(command) = command_named(words.word(0)) else {
        return Ok(None);
    };
    let Some(found) = judged(command, words) else {
        return Ok(None);
    };
    let said = command_said(alloc, command, words, found)?;
    Ok(Some(said))
}
