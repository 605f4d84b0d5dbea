//! Lists of entries.

ghost use Rattle.std.specs.Prelude.{◌≡◌};

use speculation::Entry;
use std::marker::Model;

/// A list of entries.
#[derive(Debug, Drop)]
pub struct Entries {
    entries: Vec<Entry>,
}

impl Model for Entries {
    ghost use Rattle.std.specs.Prelude.{List};
    ghost use Rattle.speculation.specs.declared.history.Entry.{Entry};

    ghost Value = { List Entry };

    ghost view = { λ e. e.entries.items };
}

impl Entries {
    /// The entries of `entries`, which are not copied.
    pub fn from_vec(entries: Vec<Entry>) -> Entries
        ensures { result ≡ entries.items }
    {
        Entries { entries }
    }

    pub fn as_slice(&self) -> &[Entry]
        ensures { result.now ≡ self.now }
    {
        self.entries.as_slice()
    }
}
