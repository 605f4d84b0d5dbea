//! Numbers in a file, little-endian.

ghost use Rattle.std.specs.Prelude.{◌≡◌, ◌+◌, ◌≤◌, length};
ghost use Rattle.guest_model.specs.Segment.{half_at, word_at};

use byteorder::{ByteOrder, LittleEndian};

/// The number of two bytes at this place.
pub fn half_at(bytes: &[u8], at: usize) -> u16
    requires { at + 2 ≤ length bytes.now }
    ensures { result ≡ half_at bytes.now at }
{
    LittleEndian::read_u16(&bytes[at..])
}

/// The number of four bytes at this place.
pub fn word_at(bytes: &[u8], at: usize) -> u32
    requires { at + 4 ≤ length bytes.now }
    ensures { result ≡ word_at bytes.now at }
{
    LittleEndian::read_u32(&bytes[at..])
}
