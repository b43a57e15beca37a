//! Whether the words after the name of a command are right.
ghost use Rattle.std.specs.Prelude.{◌≡◌, ◌<◌, drop, length};
ghost use Rattle.command_words.specs.CommandTable.{line_of};
ghost use Rattle.command_words.specs.CommandWords.{items_of};
ghost use Rattle.command_words.specs.Judging.{accepted_from, found_if_right};

use crate::found::{Found, NOTHING, accepted};
use crate::items::{item_at, item_length};
use crate::table::{CommandName, least_positionals};
use px_base::Words;

/// The items after the command's name, taken one by one.
fn all_accepted(command: CommandName, words: &Words) -> Option<Found>
    requires { 0 < length words.now }
    ensures { result ≡ accepted_from (line_of command) NOTHING (items_of (line_of command) (drop 1 words.now)) }
{
    let mut found = NOTHING;
    let mut at = 1;
    while at < words.len() {
        let word = words.word(at);
        let kind = item_at(command, words, at)?;
        found = accepted(command, found, word, kind)?;
        at += item_length(command, word);
    }
    Some(found)
}

/// What the words after the command's name give, where they are right.
pub fn judged(command: CommandName, words: &Words) -> Option<Found>
    requires { 0 < length words.now }
    ensures { result ≡ found_if_right (line_of command) (items_of (line_of command) (drop 1 words.now)) }
{
    let found = all_accepted(command, words)?;
    if found.positionals < least_positionals(command) {
        None
    } else {
        Some(found)
    }
}
