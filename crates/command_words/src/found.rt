//! The items of a command line that were accepted so far.
ghost use Rattle.std.specs.Prelude.{◌≡◌, ◌+◌, ◌^◌, ◌<◌, ◌≤◌, IfSome};
ghost use Rattle.command_words.specs.CommandTable.{line_of};
ghost use Rattle.command_words.specs.Judging.{accept, fits_place, item_with, with_flag, with_number};

use crate::items::Kind;
use crate::numbers::is_source;
use crate::table::{CommandName, FlagName, OptionName, Positional, positional_at};

/// The options and flags that are given, and how many positionals there are.
#[derive(Clone, Copy)]
pub struct Found {
    /// The number of `--workers`, where it is given.
    pub workers: Option<u32>,
    /// Whether `--unweighted` is given.
    pub unweighted: bool,
    /// How many positionals there are, PROGRAM among them.
    pub positionals: usize,
}

/// Nothing is given.
pub const NOTHING: Found = Found {
    workers: None,
    unweighted: false,
    positionals: 0,
};

/// The option is given too. `None` where it stands there already.
fn with_number(found: Found, option: OptionName, number: u32) -> Option<Found>
    ensures with { result ≡ with_number found option number }
    ensures same { IfSome result (λ next. next.positionals ≡ found.positionals) }
{
    match option {
        OptionName::Workers => match found.workers {
            Some(_) => None,
            None => Some(Found {
                workers: Some(number),
                ..found
            }),
        },
    }
}

/// The flag is given too. `None` where it stands there already.
fn with_flag(found: Found, flag: FlagName) -> Option<Found>
    ensures with { result ≡ with_flag found flag }
    ensures same { IfSome result (λ next. next.positionals ≡ found.positionals) }
{
    match flag {
        FlagName::Unweighted => {
            if found.unweighted {
                None
            } else {
                Some(Found {
                    unweighted: true,
                    ..found
                })
            }
        }
    }
}

/// Whether the word may be the positional at this place.
fn fits_place(command: CommandName, place: usize, word: &str) -> bool
    ensures { result ≡ fits_place (line_of command) place word.now }
{
    match positional_at(command, place) {
        Some(Positional::Program) => true,
        Some(Positional::Source) => is_source(word),
        None => false,
    }
}

/// The item whose first word this is stands there too. `None` where it may not.
pub fn accepted(command: CommandName, found: Found, word: &str, kind: Kind) -> Option<Found>
    requires { found.positionals + 1 < 2 ^ 64 }
    ensures accept { result ≡ accept (line_of command) found (item_with word.now kind) }
    ensures one_more { IfSome result (λ next. next.positionals ≤ found.positionals + 1) }
{
    match kind {
        Kind::Option(option, number) => with_number(found, option, number),
        Kind::Flag(flag) => with_flag(found, flag),
        Kind::Positional => {
            if fits_place(command, found.positionals, word) {
                Some(Found {
                    positionals: found.positionals + 1,
                    ..found
                })
            } else {
                None
            }
        }
    }
}
