//! The table of commands, options and flags. A new one is a line in each match here.

ghost use Rattle.std.specs.Prelude.{◌≡◌, ◌&&◌, is_some, length};
ghost use Rattle.command_words.specs.CommandTable.{commands, flag_text, line_of, option_range, option_text};
ghost use Rattle.command_words.specs.CommandWords.{command_in, flag_in, option_in};
ghost use Rattle.command_words.specs.Judging.{positional_at};

use crate::numbers::NumberRange;

/// A command, by the first word of the command line.
#[derive(Clone, Copy, Debug, PartialEq, Eq)]
pub enum CommandName {
    /// `run`.
    Run,
    /// `solve`.
    Solve,
    /// `classify`.
    Classify,
    /// `parts`.
    Parts,
    /// `worker`.
    Worker,
}

/// An option has a number.
#[derive(Clone, Copy, Debug, PartialEq, Eq)]
pub enum OptionName {
    /// `--workers`, from 1 to 64.
    Workers,
}

/// A flag stands alone, without a number.
#[derive(Clone, Copy, Debug, PartialEq, Eq)]
pub enum FlagName {
    /// `--unweighted`.
    Unweighted,
}

/// What a positional is.
#[derive(Clone, Copy, Debug, PartialEq, Eq)]
pub enum Positional {
    /// PROGRAM: a built-in name or a row.
    Program,
    /// SOURCE: the id of a vertex, below 2^32.
    Source,
}

/// The command of this name.
pub fn command_named(word: &str) -> Option<CommandName>
    ensures { result ≡ command_in commands word.now }
{
    if word == "run" {
        Some(CommandName::Run)
    } else if word == "solve" {
        Some(CommandName::Solve)
    } else if word == "classify" {
        Some(CommandName::Classify)
    } else if word == "parts" {
        Some(CommandName::Parts)
    } else if word == "worker" {
        Some(CommandName::Worker)
    } else {
        None
    }
}

fn has_option(command: CommandName, option: OptionName) -> bool
    ensures { result ≡ is_some (option_in (line_of command).options (option_text option)) }
{
    match command {
        CommandName::Run => matches!(option, OptionName::Workers),
        CommandName::Solve => false,
        CommandName::Classify => false,
        CommandName::Parts => matches!(option, OptionName::Workers),
        CommandName::Worker => false,
    }
}

/// The command's option of this name.
pub fn option_named(command: CommandName, word: &str) -> Option<OptionName>
    ensures { result ≡ option_in (line_of command).options word.now }
{
    if word == "--workers" && has_option(command, OptionName::Workers) {
        Some(OptionName::Workers)
    } else {
        None
    }
}

/// The numbers that the option takes.
pub fn option_range(option: OptionName) -> NumberRange
    ensures { result ≡ option_range option }
{
    match option {
        OptionName::Workers => NumberRange {
            least: 1,
            greatest: 64,
        },
    }
}

fn has_flag(command: CommandName, flag: FlagName) -> bool
    ensures { result ≡ is_some (flag_in (line_of command).flags (flag_text flag)) }
{
    match command {
        CommandName::Run => false,
        CommandName::Solve => matches!(flag, FlagName::Unweighted),
        CommandName::Classify => false,
        CommandName::Parts => matches!(flag, FlagName::Unweighted),
        CommandName::Worker => false,
    }
}

/// The command's flag of this name.
pub fn flag_named(command: CommandName, word: &str) -> Option<FlagName>
    ensures { result ≡ flag_in (line_of command).flags word.now }
{
    if word == "--unweighted" && has_flag(command, FlagName::Unweighted) {
        Some(FlagName::Unweighted)
    } else {
        None
    }
}

/// What the command's first positional is, if it may have one.
fn first_positional(command: CommandName) -> Option<Positional>
    ensures { result ≡ positional_at (line_of command) 0 }
{
    match command {
        CommandName::Run => Some(Positional::Program),
        CommandName::Solve => Some(Positional::Program),
        CommandName::Classify => Some(Positional::Program),
        CommandName::Parts => Some(Positional::Program),
        CommandName::Worker => None,
    }
}

/// What the command's positional at this place is, counted from 0, if it may have one there.
pub fn positional_at(command: CommandName, place: usize) -> Option<Positional>
    ensures { result ≡ positional_at (line_of command) place }
{
    if place == 0 {
        return first_positional(command);
    }
    match command {
        CommandName::Run => Some(Positional::Source),
        CommandName::Solve => Some(Positional::Source),
        CommandName::Classify => None,
        CommandName::Parts => None,
        CommandName::Worker => None,
    }
}

/// How many positionals the command needs.
pub fn least_positionals(command: CommandName) -> usize
    ensures { result ≡ length (line_of command).positionals }
{
    match command {
        CommandName::Run => 1,
        CommandName::Solve => 1,
        CommandName::Classify => 1,
        CommandName::Parts => 1,
        CommandName::Worker => 0,
    }
}
