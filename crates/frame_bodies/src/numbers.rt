//! Numbers as bytes, the most significant byte first.
ghost use Rattle.std.specs.Prelude.{◌≡◌, ◌+◌, ◌≤◌, ◌++◌, length, vec_len, vec_capacity};
ghost use Rattle.px_base.specs.Frames.{four_bytes, eight_bytes};

use byteorder::{BigEndian, ByteOrder};

/// Appends the bytes, for which there is room.
pub fn put(out: &mut Vec<u8>, bytes: &[u8])
    requires { vec_len out.old + length bytes.now ≤ vec_capacity out.old }
    ensures items { out.new.items ≡ out.old.items ++ bytes.now }
    ensures len { vec_len out.new ≡ vec_len out.old + length bytes.now }
    ensures room { vec_capacity out.old ≤ vec_capacity out.new }
{
    let _ = out.extend_from_slice(bytes);
}

/// Appends the number in four bytes, for which there is room.
pub fn put_four(out: &mut Vec<u8>, number: u32)
    requires { vec_len out.old + 4 ≤ vec_capacity out.old }
    ensures items { out.new.items ≡ out.old.items ++ four_bytes number }
    ensures len { vec_len out.new ≡ vec_len out.old + 4 }
    ensures room { vec_capacity out.old ≤ vec_capacity out.new }
{
    let mut bytes = [0u8; 4];
    BigEndian::write_u32(&mut bytes, number);
    put(out, &bytes);
}

/// Appends the number in eight bytes, for which there is room.
pub fn put_eight(out: &mut Vec<u8>, number: u64)
    requires { vec_len out.old + 8 ≤ vec_capacity out.old }
    ensures items { out.new.items ≡ out.old.items ++ eight_bytes number }
    ensures len { vec_len out.new ≡ vec_len out.old + 8 }
    ensures room { vec_capacity out.old ≤ vec_capacity out.new }
{
    let mut bytes = [0u8; 8];
    BigEndian::write_u64(&mut bytes, number);
    put(out, &bytes);
}
