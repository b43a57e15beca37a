//! One item of the words after the command's name: an option with its number, a flag, or a positional.

ghost use Rattle.std.specs.Prelude.{◌≡◌, ◌+◌, ◌<◌, ◌≤◌, ◌==◌, ℕ, IsSome, List, [], drop, length, slice_index, slice_index_or, true, false};
ghost use Rattle.std.specs.Option.{option_map};
ghost use Rattle.command_words.specs.CommandTable.{line_of};
ghost use Rattle.command_words.specs.CommandWords.{item_alone, items_of, joined_item, option_item, with_item};
ghost use Rattle.command_words.specs.Judging.{is_positional_kind, item_length, item_with};

use crate::numbers::number_in;
use crate::table::{CommandName, FlagName, OptionName, flag_named, option_named, option_range};
use px_base::Words;

/// What an item is. A positional is the word itself.
#[derive(Clone, Copy)]
pub enum Kind {
    /// An option with its number.
    Option(OptionName, u32),
    /// A flag.
    Flag(FlagName),
    /// A word that doesn't begin with `-`.
    Positional,
}

fn option_item(option: OptionName, word: &str) -> Option<Kind>
    ensures item { (any : List ℕ) → option_map (item_with any) result ≡ option_item option word.now }
    ensures named { is_positional_kind result ≡ false }
{
    match number_in(option_range(option), word.as_bytes()) {
        Some(number) => Some(Kind::Option(option, number)),
        None => None,
    }
}

/// The item of a word `--name=value`.
fn joined_item(command: CommandName, word: &str) -> Option<Kind>
    ensures { option_map (item_with word.now) result ≡ joined_item (line_of command) word.now }
{
    let (name, value) = word.split_once('=')?;
    let option = option_named(command, name)?;
    option_item(option, value)
}

/// Whether the word begins with `-`.
fn has_dash(word: &str) -> bool
    ensures { result ≡ (slice_index word.now 0 == 45) }
{
    match word.as_bytes() {
        [first, ..] => *first == b'-',
        [] => false,
    }
}

/// The item that the word is by itself.
fn item_alone(command: CommandName, word: &str) -> Option<Kind>
    ensures { option_map (item_with word.now) result ≡ item_alone (line_of command) word.now }
{
    if word.is_empty() {
        return None;
    }
    if !has_dash(word) {
        return Some(Kind::Positional);
    }
    match flag_named(command, word) {
        Some(flag) => Some(Kind::Flag(flag)),
        None => joined_item(command, word),
    }
}

/// How many words the item takes whose first word this is: an option takes the next one for its number.
pub fn item_length(command: CommandName, word: &str) -> usize
    ensures length { result ≡ item_length (line_of command) word.now }
    ensures some { 1 ≤ result }
{
    match option_named(command, word) {
        Some(_) => 2,
        None => 1,
    }
}

/// The item whose first word is at this place. `None` where it is no item.
pub fn item_at(command: CommandName, words: &Words, at: usize) -> Option<Kind>
    requires { at < length words.now }
    ensures item { let word = slice_index_or words.now at [] in items_of (line_of command) (drop at words.now) ≡ with_item (option_map (item_with word) result) (items_of (line_of command) (drop (at + item_length (line_of command) word) words.now)) }
    ensures alone { is_positional_kind result ≡ true → item_length (line_of command) (slice_index_or words.now at []) ≡ 1 }
    ensures within { IsSome result → at + item_length (line_of command) (slice_index_or words.now at []) ≤ length words.now }
{
    let end = words.len();
    match option_named(command, words.word(at)) {
        None => item_alone(command, words.word(at)),
        Some(option) => {
            if at + 1 == end {
                None
            } else {
                option_item(option, words.word(at + 1))
            }
        }
    }
}
