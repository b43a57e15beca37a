//! The positionals of words that are right.

ghost use Rattle.std.specs.Prelude.{◌≡◌, ◌+◌, ◌^◌, ◌<◌, [], ◌∷◌, IfOk, length, map, slice_index_or, true};
ghost use Rattle.px_base.specs.Text.{number_of};
ghost use Rattle.command_words.specs.Judging.{AreItems, are_sources, is_positional_kind, positionals_from};

use crate::items::{Kind, item_at, item_length};
use crate::numbers::source_number;
use crate::table::CommandName;
use px_base::{Id, Memory, Words};
use std::alloc::Global;

fn is_positional(kind: Option<Kind>) -> bool
    ensures { result ≡ is_positional_kind kind }
{
    match kind {
        Some(Kind::Positional) => true,
        Some(Kind::Option(_, _)) => false,
        Some(Kind::Flag(_)) => false,
        None => false,
    }
}

/// The place of the first positional among the items from this place on.
pub fn next_positional(command: CommandName, words: &Words, from: usize) -> usize
    requires items { AreItems command words.now from }
    requires one { 0 < length (positionals_from command words.now from) }
    ensures within { result < length words.now }
    ensures more { result + 1 < 2 ^ 64 }
    ensures items { AreItems command words.now (result + 1) }
    ensures next { positionals_from command words.now from ≡ slice_index_or words.now result [] ∷ positionals_from command words.now (result + 1) }
{
    let mut at = from;
    while at < words.len() {
        let kind = item_at(command, words, at);
        if is_positional(kind) {
            return at;
        }
        at += item_length(command, words.word(at));
    }
    at
}

/// The numbers of the positionals among the items from this place on, which are `count` sources.
pub fn source_numbers(
    alloc: Global,
    command: CommandName,
    words: &Words,
    from: usize,
    count: usize,
) -> Result<Vec<Id>, Memory>
    requires items { AreItems command words.now from }
    requires sources { are_sources (positionals_from command words.now from) ≡ true }
    requires count { length (positionals_from command words.now from) ≡ count }
    ensures { IfOk result (λ found. found.items ≡ map number_of (positionals_from command words.now from)) }
{
    let mut found = Vec::with_capacity(alloc, count)?;
    let mut at = from;
    for _ in 0..count {
        let place = next_positional(command, words, at);
        found.push(source_number(words.word(place)))?;
        at = place + 1;
    }
    Ok(found)
}
