//! The lines of a journal.

ghost use Rattle.std.specs.Prelude.{◌≡◌, ◌≢◌, ◌∷◌, ◌++◌, All, IfSome, IfNone};
ghost use Rattle.speculation.specs.declared.history.Entry.{Entry};
ghost use Rattle.board_events.specs.Texts.{text_of, EntryFits};
ghost use Rattle.journal_check.specs.Journals.{BeginsWith, HasNoEntry};

use board_events::read_entry;
use memchr::memchr;
use std::str;
use track_board::Entry;

/// The entry of the first line, and what stands behind that line: none exactly where the text doesn't begin with the text of an
/// entry and a line feed.
pub(crate) fn read_line(text: &[u8]) -> Option<(Entry, &[u8])>
    ensures line { IfSome result (λ line. BeginsWith text.now line.0 line.1.now) }
    ensures none { IfNone result (HasNoEntry text.now) }
{
    let (line, rest) = cut_line(text)?;
    let entry = entry_of(line)?;
    Some((entry, rest))
}

/// The bytes before the first line feed, and those behind it: none exactly where there is no line feed.
fn cut_line(text: &[u8]) -> Option<(&[u8], &[u8])>
    ensures parts { IfSome result (λ cut. text.now ≡ cut.0.now ++ (10 ∷ cut.1.now)) }
    ensures first { IfSome result (λ cut. All (λ byte. byte ≢ 10) cut.0.now) }
    ensures none { IfNone result (All (λ byte. byte ≢ 10) text.now) }
{
    let end = memchr(b'\n', text)?;
    Some((&text[..end], &text[end + 1..]))
}

/// The entry whose text this is.
fn entry_of(line: &[u8]) -> Option<Entry>
    ensures is { IfSome result (λ entry. text_of entry ≡ line.now) }
    ensures fits { IfSome result EntryFits }
    ensures none { IfNone result ((entry : Entry) → EntryFits entry → text_of entry ≢ line.now) }
{
    match str::from_utf8(line) {
        Ok(line) => read_entry(line),
        Err(_) => None,
    }
}
