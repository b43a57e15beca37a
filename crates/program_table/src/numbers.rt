//! The numbers that rows and names write: below 2^32, and `inf` for the greatest value.
ghost use Rattle.std.specs.Prelude.{◌≡◌, ◌^◌, ◌<◌, IfSome};
ghost use Rattle.px_base.specs.Lines.{small_number};
ghost use Rattle.px_base.specs.Rows.{row_value};
ghost use Rattle.px_base.specs.RowTexts.{IsRowValue};

use px_base::{TOP, Value, read_number};

/// The greatest number of a row or a name.
const GREATEST_NUMBER: u64 = (1 << 32) - 1;

/// The number below 2^32 that the digits write, where they write one.
pub fn small_number(digits: &[u8]) -> Option<u64>
    ensures number { result ≡ small_number digits.now }
    ensures small { IfSome result (λ n. n < 2 ^ 32) }
{
    match read_number(digits, GREATEST_NUMBER) {
        Ok(number) => Some(number),
        Err(_) => None,
    }
}

/// The value that the word names: `inf` is the greatest value, and else it is a number below 2^32.
pub fn row_value(word: &str) -> Option<Value>
    ensures value { result ≡ row_value word.now }
    ensures range { IfSome result (λ x. IsRowValue x) }
{
    if word == "inf" {
        Some(TOP)
    } else {
        small_number(word.as_bytes())
    }
}
