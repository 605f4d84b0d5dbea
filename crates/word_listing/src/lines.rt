//! The lines of a text, each the text of a word.

ghost use Rattle.std.specs.Prelude.{◌≡◌, ◌≢◌, [], ◌∷◌, ◌++◌, All, IfNone, IfSome, MatchResult};
ghost use Rattle.word_listing.specs.Packing.{BeginsWith, IsTextOf, IsNoWord, IsRefused};

use memchr::memchr;
use rv32_text::{TextFault, read};
use std::str;

/// The word whose text and line feed the text begins with, and what stands behind these; else the place at which the
/// first line goes wrong.
pub(crate) fn read_line(text: &[u8]) -> Result<(u32, &[u8]), u64>
    ensures { MatchResult result (λ line. BeginsWith text.now (line.0 ∷ []) line.1.now) (IsRefused text.now) }
{
    match cut_line(text) {
        Some((line, behind)) => match read_word(line) {
            Ok(word) => Ok((word, behind)),
            Err(place) => Err(place),
        },
        None => match read_word(text) {
            Ok(_) => Err(text.len() as u64),
            Err(place) => Err(place),
        },
    }
}

/// The bytes before the first line feed, and those behind it: none exactly where there is no line feed.
fn cut_line(text: &[u8]) -> Option<(&[u8], &[u8])>
    ensures parts { IfSome result (λ cut. text.now ≡ cut.0.now ++ (10 ∷ cut.1.now)) }
    ensures first { IfSome result (λ cut. All (λ byte. byte ≢ 10) cut.0.now) }
    ensures none { IfNone result (All (λ byte. byte ≢ 10) text.now) }
{
    let end = memchr(b'\n', text)?;
    Some((&text[..end], &text[end + 1..]))
}

/// The word whose text this is; else the place at which the line goes wrong.
fn read_word(line: &[u8]) -> Result<u32, u64>
    ensures { MatchResult result (IsTextOf line.now) (IsNoWord line.now) }
{
    match str::from_utf8(line) {
        Ok(line) => match read(line) {
            Ok(word) => Ok(word),
            Err(TextFault { place }) => Err(place),
        },
        Err(_) => Err(0),
    }
}
