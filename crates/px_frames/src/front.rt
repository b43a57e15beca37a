//! The frame at the front of some bytes.
ghost use Rattle.std.specs.Prelude.{◌≡◌, ◌+◌, ◌≤◌, IfOk, length};
ghost use Rattle.px_base.specs.FrameFits.{word_at, is_right_header};
ghost use Rattle.px_frames.specs.Fronts.{IsFront};

use crate::write::{HEADER, MARK, VERSION};
use byteorder::{BigEndian, ByteOrder};
use frame_bodies::{REPORTED, SETUP, read_body};
use px_base::{Frame, Memory};
use std::alloc::Global;

/// The longest body in bytes.
const MOST_BODY: u32 = 1 << 26;

/// What stands at the front of some bytes.
#[derive(Drop)]
pub enum Front {
    /// A frame, and the length of its spelling.
    Whole { frame: Frame, length: usize },
    /// Less than a whole frame, and maybe nothing.
    Short,
    /// What begins no frame.
    Torn,
}

/// The number in the four bytes from this place on.
fn word_at(bytes: &[u8], at: usize) -> u32
    requires { at + 4 ≤ length bytes.now }
    ensures { result ≡ word_at bytes.now at }
{
    BigEndian::read_u32(&bytes[at..])
}

/// Whether some frame may have this header.
fn is_right_header(bytes: &[u8]) -> bool
    requires { 8 ≤ length bytes.now }
    ensures { result ≡ is_right_header bytes.now }
{
    let kind = bytes[2];
    bytes[0] == MARK
        && bytes[1] == VERSION
        && SETUP <= kind
        && kind <= REPORTED
        && bytes[3] == 0
        && word_at(bytes, 4) <= MOST_BODY
}

/// What stands at the front of the bytes. A body is read once it is whole, so memory is asked for by what came.
pub fn read_front(alloc: Global, bytes: &[u8]) -> Result<Front, Memory>
    ensures { IfOk result (IsFront bytes.now) }
{
    if bytes.len() < HEADER {
        return Ok(Front::Short);
    }
    if !is_right_header(bytes) {
        return Ok(Front::Torn);
    }
    let length = HEADER + word_at(bytes, 4) as usize;
    if bytes.len() < length {
        return Ok(Front::Short);
    }
    match read_body(alloc, bytes[2], &bytes[HEADER..length])? {
        Some(frame) => Ok(Front::Whole { frame, length }),
        None => Ok(Front::Torn),
    }
}
