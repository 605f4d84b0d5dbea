//! What a line of a file of counts asks for.

ghost use Rattle.std.specs.Prelude.{◌≤◌, ◌^◌, decimal};
ghost use Rattle.state_listing.specs.Requests.{IsRequest, IsRange, request_text, range_text};
ghost use Rattle.state_listing.specs.Values.{IsValueOf};

use crate::words::{cut_at, read_address, read_number};
use basic_types::MOST_BUDGET;

/// The most bytes that a line asks for.
pub const MOST_LENGTH: u64 = 256;

/// The state of a program that is asked for.
#[derive(Clone, Copy, Debug, PartialEq, Eq)]
pub struct StateRequest {
    /// After how many instructions.
    pub count: u64,
    /// The address and the length of the bytes that are to be told too.
    pub bytes: Option<(u32, u32)>,
}

/// What this line asks for, the line being without its line feed: none exactly where it is no request's.
pub(crate) fn read_request(line: &[u8]) -> Option<StateRequest>
    ensures { IsValueOf IsRequest request_text line.now result }
{
    match cut_at(b' ', line) {
        None => Some(StateRequest {
            count: read_count(line)?,
            bytes: None,
        }),
        Some((count, range)) => Some(StateRequest {
            count: read_count(count)?,
            bytes: Some(read_range(range)?),
        }),
    }
}

/// The count that this word writes.
fn read_count(word: &[u8]) -> Option<u64>
    ensures { IsValueOf (λ n. n ≤ 2 ^ 40) decimal word.now result }
{
    read_number(word, 0, MOST_BUDGET)
}

/// The address and the length that these two words write.
fn read_range(words: &[u8]) -> Option<(u32, u32)>
    ensures { IsValueOf IsRange range_text words.now result }
{
    let (address, length) = cut_at(b' ', words)?;
    Some((
        read_address(address)?,
        read_number(length, 1, MOST_LENGTH)? as u32,
    ))
}
