//! Files of counts.

ghost use Rattle.std.specs.Prelude.{◌≡◌, IfOk, IfSome, IfNone};
ghost use Rattle.state_listing.specs.Counts.{BeginsWithLine, HasNoLine, IsAnswer, answer_of};
ghost use Rattle.state_listing.specs.Lines.{IsRead};

use crate::fault::CountsFault;
use crate::request::{StateRequest, read_request};
use crate::words::cut_at;
use basic_types::NoMemory;
use std::alloc::Global;

/// The most lines of a file of counts.
pub const MOST_LINES: usize = 1_024;

/// The most bytes of a file of counts: those of 1,024 lines of 27.
pub const MOST_BYTES: usize = 27_648;

/// What a file of counts asks for, line by line. A line is `COUNT` or `COUNT ADDRESS LENGTH` and a line feed: plain decimal
/// numbers without leading zeros, the count at most 2^40, the length 1 to 256, and the address in eight hexadecimal digits in
/// lower case, with one space between words. There are 1 to 1,024 lines.
///
/// # Errors
/// `Line` with the first line that isn't so, from 1: the first one of an empty file, and line 1,025 where bytes follow 1,024
/// lines. A file of more than 27,648 bytes is refused with line 0. `NoMemory` where the host's memory ran out.
pub fn read_counts(alloc: Global, text: &[u8]) -> Result<Vec<StateRequest>, CountsFault>
    ensures read { IfSome (answer_of result) (IsAnswer text.now) }
    // The same from the other side.
    ensures only { (answer : _) → IsAnswer text.now answer → IfSome (answer_of result) (λ a. a ≡ answer) }
{
    if text.len() > MOST_BYTES {
        return Err(CountsFault::Line(0));
    }
    let (requests, rest) = read_lines(alloc, text)?;
    if requests.is_empty() || !rest.is_empty() {
        return Err(CountsFault::Line(requests.len() as u64 + 1));
    }
    Ok(requests)
}

/// What the lines of the form ask for with which a text begins, at most 1,024 of them, and what follows these lines.
///
/// # Errors
/// `NoMemory` where there was no room for a request.
fn read_lines(alloc: Global, text: &[u8]) -> Result<(Vec<StateRequest>, &[u8]), NoMemory>
    ensures { IfOk result (λ read. IsRead text.now read.0.items read.1.now) }
{
    let mut requests = Vec::new(alloc);
    let mut rest = text;
    while requests.len() < MOST_LINES {
        let Some((request, behind)) = read_line(rest) else {
            break;
        };
        requests.push(request)?;
        rest = behind;
    }
    Ok((requests, rest))
}

/// What the first line asks for, and what stands behind that line: none exactly where the text doesn't begin with the line of
/// a request.
fn read_line(text: &[u8]) -> Option<(StateRequest, &[u8])>
    ensures line { IfSome result (λ line. BeginsWithLine text.now line.0 line.1.now) }
    ensures none { IfNone result (HasNoLine text.now) }
{
    let (line, rest) = cut_at(b'\n', text)?;
    let request = read_request(line)?;
    Some((request, rest))
}
