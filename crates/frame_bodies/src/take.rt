//! Numbers at the front of some bytes.
ghost use Rattle.std.specs.Prelude.{◌≡◌, ◌<◌, ◌∷◌, ◌++◌, MatchOption, length};
ghost use Rattle.px_base.specs.Frames.{four_bytes, eight_bytes};
ghost use Rattle.px_base.specs.FrameFits.{IsWord};
ghost use Rattle.frame_bodies.specs.Widths.{IsLong};

use byteorder::{BigEndian, ByteOrder};

/// The number in the first four bytes, and the bytes after them.
pub fn take_four(bytes: &[u8]) -> Option<(u32, &[u8])>
    ensures { MatchOption result (length bytes.now < 4) (λ p. (bytes.now ≡ four_bytes p.0 ++ p.1.now) × IsWord p.0) }
{
    if bytes.len() < 4 {
        return None;
    }
    Some((BigEndian::read_u32(bytes), &bytes[4..]))
}

/// The number in the first eight bytes, and the bytes after them.
pub fn take_eight(bytes: &[u8]) -> Option<(u64, &[u8])>
    ensures { MatchOption result (length bytes.now < 8) (λ p. (bytes.now ≡ eight_bytes p.0 ++ p.1.now) × IsLong p.0) }
{
    if bytes.len() < 8 {
        return None;
    }
    Some((BigEndian::read_u64(bytes), &bytes[8..]))
}

/// The first byte, and the bytes after it.
pub fn take_byte(bytes: &[u8]) -> Option<(u8, &[u8])>
    ensures { MatchOption result (length bytes.now < 1) (λ p. bytes.now ≡ p.0 ∷ p.1.now) }
{
    match bytes.split_first() {
        Some((first, rest)) => Some((*first, rest)),
        None => None,
    }
}
