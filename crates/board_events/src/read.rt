//! Entries read back from their text.

ghost use Rattle.std.specs.Prelude.{◌≡◌, ◌≢◌, Bool, IfSome, IfNone};
ghost use Rattle.speculation.specs.declared.tracks.Name.{Name};
ghost use Rattle.speculation.specs.declared.history.Entry.{Entry};
ghost use Rattle.board_events.specs.Texts.{kind_text, name_text, text_of, words_of, WithOne, WithTwo, NameFits, EntryFits};

use crate::number::read_number;
use speculation::{Entry, Name};

/// The entry that this line stands for, the line being without its line feed. There is none exactly where the line is
/// no entry's: it is read letter by letter, with one space between words and no leading zeros.
pub fn read_entry(line: &str) -> Option<Entry>
    ensures is { IfSome result (λ e. text_of e ≡ line.now) }
    ensures none { IfNone result ((e : Entry) → EntryFits e → text_of e ≢ line.now) }
{
    let Some((word, rest)) = line.split_once(' ') else {
        return if line == "finish" {
            Some(Entry::Finish)
        } else {
            None
        };
    };
    match rest.split_once(' ') {
        None => read_one(word, rest),
        Some((first, second)) => read_two(word, first, second),
    }
}

/// The entry of these two words.
fn read_one(word: &str, argument: &str) -> Option<Entry>
    ensures is { IfSome result (λ e. words_of e ≡ WithOne word.now argument.now) }
    ensures none { IfNone result ((e : Entry) → EntryFits e → words_of e ≢ WithOne word.now argument.now) }
{
    match word {
        "gone" => read_name(argument).map(|name| Entry::Gone { name }),
        "fork" => read_name(argument).map(|name| Entry::Fork { name }),
        "cross" => read_name(argument).map(|name| Entry::Cross { name }),
        "keep" => read_number(argument).map(|row| Entry::Keep { row }),
        "discard" => read_number(argument).map(|row| Entry::Discard { row }),
        "release" => read_number(argument).map(|bytes| Entry::Release { bytes }),
        "halt" => read_number(argument).map(|seat| Entry::Halt { seat }),
        _ => None,
    }
}

/// The entry of these three words.
fn read_two(word: &str, first: &str, second: &str) -> Option<Entry>
    ensures is { IfSome result (λ e. words_of e ≡ WithTwo word.now first.now second.now) }
    ensures none { IfNone result ((e : Entry) → EntryFits e → words_of e ≢ WithTwo word.now first.now second.now) }
{
    match word {
        "lend" => Some(Entry::Lend {
            seat: read_number(first)?,
            name: read_name(second)?,
        }),
        "back" => Some(Entry::Back {
            name: read_name(first)?,
            count: read_number(second)?,
        }),
        _ => None,
    }
}

/// The name that this text writes.
fn read_name(text: &str) -> Option<Name>
    ensures is { IfSome result (λ n. name_text n ≡ text.now) }
    ensures none { IfNone result ((n : Name) → NameFits n → name_text n ≢ text.now) }
{
    let (generation, rest) = text.split_once('.')?;
    let (region, kind) = rest.split_once('.')?;
    Some(Name {
        generation: read_number(generation)?,
        region: read_number(region)?,
        normal: read_kind(kind)?,
    })
}

/// Whether this letter is a normal track's, and not a lead's.
fn read_kind(letter: &str) -> Option<bool>
    ensures is { IfSome result (λ normal. kind_text normal ≡ letter.now) }
    ensures none { IfNone result ((normal : Bool) → kind_text normal ≢ letter.now) }
{
    match letter {
        "n" => Some(true),
        "f" => Some(false),
        _ => None,
    }
}
