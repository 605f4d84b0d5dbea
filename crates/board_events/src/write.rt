//! Entries as text.

ghost use Rattle.std.specs.Prelude.{◌≡◌, ◌++◌, ◌∷◌, [], IfOk, string_bytes};
ghost use Rattle.board_events.specs.Texts.{text_of};

use crate::name_text::NameText;
use basic_types::NoMemory;
use speculation::Entry;
use std::alloc::Global;
use std::fmt;

/// An entry, which prints as its line without the line feed.
#[derive(Debug, Clone, Copy, PartialEq, Eq)]
pub struct EntryText(pub Entry);

impl fmt::Display for EntryText {
    ghost use Rattle.std.specs.Prelude.{Some};
    ghost use Rattle.board_events.specs.Texts.{text_of};

    ghost output = { λ e. Some (text_of e.0) };

    fn fmt<W: fmt::Write>(&self, f: &mut fmt::Formatter<W>) -> fmt::Result {
        match self.0 {
            Entry::Lend { seat, name } => {
                let name = NameText(name);
                write!(f, "lend {seat} {name}")
            }
            Entry::Back { name, count } => {
                let name = NameText(name);
                write!(f, "back {name} {count}")
            }
            Entry::Gone { name } => {
                let name = NameText(name);
                write!(f, "gone {name}")
            }
            Entry::Fork { name } => {
                let name = NameText(name);
                write!(f, "fork {name}")
            }
            Entry::Cross { name } => {
                let name = NameText(name);
                write!(f, "cross {name}")
            }
            Entry::Keep { row } => write!(f, "keep {row}"),
            Entry::Discard { row } => write!(f, "discard {row}"),
            Entry::Release { bytes } => write!(f, "release {bytes}"),
            Entry::Finish => write!(f, "finish"),
            Entry::Halt { seat } => write!(f, "halt {seat}"),
        }
    }
}

/// The line of an entry, with its line feed.
///
/// # Errors
/// `NoMemory` where there is no room for it.
pub fn entry_text(alloc: Global, entry: &Entry) -> Result<String, NoMemory>
    ensures { IfOk result (λ text. string_bytes text ≡ text_of entry.now ++ 10 ∷ []) }
{
    let entry = EntryText(*entry);
    Ok(format!(in alloc; "{entry}\n")?)
}
