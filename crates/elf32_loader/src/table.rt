//! The program header table, read into memory of a fixed size.

ghost use Rattle.std.specs.Prelude.{◌≡◌, ◌+◌, ◌≤◌, length, take};
ghost use Rattle.guest_model.specs.Segment.{segment_at, segments, e_phnum};
ghost use Rattle.elf32_loader.specs.HeaderTable.{HasTable};

use crate::fields::{half_at, word_at};
use crate::segment::Segment;

/// How many program headers an image has at most.
pub const MOST_SEGMENTS: usize = 64;

/// How many bytes a program header has.
pub const ENTRY_SIZE: usize = 32;

/// How many program headers the file has.
pub fn segment_count(bytes: &[u8]) -> usize
    requires { HasTable bytes.now }
    ensures value { result ≡ e_phnum bytes.now }
    ensures bound { result ≤ 64 }
{
    half_at(bytes, 44) as usize
}

/// The program headers of the file, which come first, and empty ones behind them.
pub fn read_segments(bytes: &[u8]) -> [Segment; MOST_SEGMENTS]
    requires { HasTable bytes.now }
    ensures { take (e_phnum bytes.now) result ≡ segments bytes.now }
{
    let start = word_at(bytes, 28) as usize;
    let mut table = [Segment::EMPTY; MOST_SEGMENTS];
    for i in 0..segment_count(bytes) {
        table[i] = read_segment(bytes, start + ENTRY_SIZE * i);
    }
    table
}

/// The program header that begins at this place.
fn read_segment(bytes: &[u8], at: usize) -> Segment
    requires { at + 32 ≤ length bytes.now }
    ensures { result ≡ segment_at bytes.now at }
{
    Segment {
        kind: word_at(bytes, at),
        offset: word_at(bytes, at + 4),
        address: word_at(bytes, at + 8),
        file_size: word_at(bytes, at + 16),
        memory_size: word_at(bytes, at + 20),
    }
}
