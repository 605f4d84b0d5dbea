//! An image from the texts of its words, line by line.

ghost use Rattle.std.specs.Prelude.{MatchResult};
ghost use Rattle.word_listing.specs.Packing.{IsTextOfWords, IsImageOf, HasFault};

use crate::fault::{PackFault, TextPlace};
use crate::lines::read_line;
use basic_types::Bytes;
use rv32_asm::small_image;
use std::alloc::Global;

/// The most bytes of a text of words: 2 MiB.
pub const MOST_BYTES: usize = 2_097_152;

/// The most words of a text, each on a line: 65,536.
pub const MOST_LINES: usize = 65_536;

/// The small image of the words whose texts stand in `text`, one on each line, every line with its line feed. It puts
/// them at 0x10000, where the program starts. An empty text makes an image without words.
///
/// # Errors
/// The place where the text goes wrong, the first of these:
/// - line 0, place 0, where the text has more than `MOST_BYTES` bytes;
/// - one of the first `MOST_LINES` lines that is no word's text with its line feed. The place is 0 where the line isn't
///   UTF-8, the line's length where only its line feed lacks, and else the place at which `rv32_text::read` refuses it;
/// - line `MOST_LINES` + 1, place 0, where there are more lines.
///
/// `NoMemory` where there is no room for the words or their image.
pub fn pack(alloc: Global, text: &[u8]) -> Result<Bytes, PackFault>
    ensures { MatchResult result (IsImageOf text.now) (HasFault text.now) }
{
    let words = read_words(alloc, text)?;
    let image = small_image(alloc, words.as_slice())?;
    Ok(image)
}

/// The words whose texts are the lines of `text`.
fn read_words(alloc: Global, text: &[u8]) -> Result<Vec<u32>, PackFault>
    ensures { MatchResult result (λ words. IsTextOfWords text.now words.items) (HasFault text.now) }
{
    if text.len() > MOST_BYTES {
        return Err(PackFault::Text(TextPlace { line: 0, place: 0 }));
    }
    let mut words = Vec::new(alloc);
    let mut rest = text;
    while !rest.is_empty() {
        let line = words.len() as u64 + 1;
        if words.len() == MOST_LINES {
            return Err(PackFault::Text(TextPlace { line, place: 0 }));
        }
        match read_line(rest) {
            Ok((word, behind)) => {
                words.push(word)?;
                rest = behind;
            }
            Err(place) => return Err(PackFault::Text(TextPlace { line, place })),
        }
    }
    Ok(words)
}
