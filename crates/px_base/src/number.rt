//! Numbers as texts, read and written.
ghost use Rattle.std.specs.Prelude.{◌≡◌, ◌≤◌, ◌++◌, OnErr, OnOk, decimal, length, nat_lt, if◌then◌else◌};
ghost use Rattle.px_base.specs.Text.{number_read, value_text, digits_end, number_of};

use crate::{Memory, TOP, Value};
use itoa::Buffer;

/// Why a text is no number.
#[derive(Clone, Copy, Debug, PartialEq, Eq)]
pub enum NumberFault {
    /// It has no byte.
    Empty,
    /// A byte is no digit.
    NotDigit {
        /// The place of the first such byte, from 0 on.
        at: usize,
    },
    /// It writes a number above the greatest that is allowed.
    TooGreat,
}

/// The decimal value of the text. Leading zeros are allowed. Errors: the text is empty, has a byte that is no digit, or writes
/// a number above `max`, the first of these.
pub fn read_number(text: &[u8], max: u64) -> Result<u64, NumberFault>
    ensures { result ≡ number_read text.now max }
{
    if text.is_empty() {
        return Err(NumberFault::Empty);
    }
    let at = digits_end(text);
    if at < text.len() {
        return Err(NumberFault::NotDigit { at });
    }
    number_of_digits(text, max)
}

/// The place of the first byte that is no digit, or the length.
#[tactic(auto, using(crate::proofs::Numbers::digits_end_is))]
fn digits_end(text: &[u8]) -> usize
    ensures at { result ≡ digits_end text.now }
    ensures within { result ≤ length text.now }
{
    for (at, byte) in text.iter().enumerate() {
        if !byte.is_ascii_digit() {
            return at;
        }
    }
    text.len()
}

#[tactic(auto, using(crate::proofs::Numbers::next_digit))]
fn number_of_digits(text: &[u8], max: u64) -> Result<u64, NumberFault>
    requires { digits_end text.now ≡ length text.now }
    ensures { result ≡ (if nat_lt max (number_of text.now) then Err NumberFault.TooGreat else Ok (number_of text.now)) }
{
    let mut value: u64 = 0;
    for &byte in text {
        let more = u128::from(value) * 10 + u128::from(byte - b'0');
        if more > u128::from(max) {
            return Err(NumberFault::TooGreat);
        }
        value = more as u64;
    }
    Ok(value)
}

/// Appends the decimal digits, without leading zeros. Errors: want of memory; nothing is appended then.
pub fn write_number(out: &mut Vec<u8>, value: u64) -> Result<(), Memory>
    ensures ok { OnOk result (out.new.items ≡ out.old.items ++ decimal value) }
    ensures err { OnErr result (out.new.items ≡ out.old.items) }
{
    let mut digits = Buffer::new();
    out.extend_from_slice(digits.format(value).as_bytes())?;
    Ok(())
}

/// Appends `inf` for the greatest value, and else the decimal digits. Errors: want of memory; nothing is appended then.
pub fn write_value(out: &mut Vec<u8>, value: Value) -> Result<(), Memory>
    ensures ok { OnOk result (out.new.items ≡ out.old.items ++ value_text value) }
    ensures err { OnErr result (out.new.items ≡ out.old.items) }
{
    if value == TOP {
        out.extend_from_slice(b"inf")?;
        Ok(())
    } else {
        write_number(out, value)
    }
}
