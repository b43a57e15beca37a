//! Numbers in the words of a command line.
ghost use Rattle.std.specs.Prelude.{◌≡◌, ◌≤◌, IfSome, is_some, true};
ghost use Rattle.px_base.specs.Text.{number_of};
ghost use Rattle.command_words.specs.CommandTable.{number_in, source_range};

use px_base::{Id, read_number};

/// The most digits of a number in the words.
const MOST_DIGITS: usize = 20;

/// The numbers from the least to the greatest.
#[derive(Clone, Copy, Debug, PartialEq, Eq)]
pub struct NumberRange {
    /// The least of them.
    pub least: u32,
    /// The greatest of them.
    pub greatest: u32,
}

/// The numbers that a SOURCE can be.
const SOURCE_RANGE: NumberRange = NumberRange {
    least: 0,
    greatest: u32::MAX,
};

/// The number of the word, where it is 1 to 20 decimal digits of a number in the range.
pub fn number_in(range: NumberRange, word: &[u8]) -> Option<u32>
    ensures { result ≡ number_in range word.now }
{
    if word.len() > MOST_DIGITS {
        return None;
    }
    match read_number(word, u64::from(range.greatest)) {
        Ok(number) if number >= u64::from(range.least) => Some(number as u32),
        Ok(_) => None,
        Err(_) => None,
    }
}

/// Whether the word can be a SOURCE.
pub fn is_source(word: &str) -> bool
    ensures { result ≡ is_some (number_in source_range word.now) }
{
    number_in(SOURCE_RANGE, word.as_bytes()).is_some()
}

/// The number of the SOURCE.
pub fn source_number(word: &str) -> Id
    requires { is_some (number_in source_range word.now) ≡ true }
    ensures { result ≡ number_of word.now }
{
    match number_in(SOURCE_RANGE, word.as_bytes()) {
        Some(number) => u64::from(number),
        None => unreachable!(),
    }
}
