//! What holds of the lines of all entries, as the contract of a function that does nothing.

ghost use Rattle.std.specs.Prelude.{◌≡◌};
ghost use Rattle.speculation.specs.declared.history.Entry.{Entry};
ghost use Rattle.board_events.specs.Texts.{text_of, EntryFits};

/// The line of an entry tells the entry. So no line stands for two, and `read_entry` answers the one that was written.
pub fn lines_tell_entries()
    ensures { (e f : Entry) → EntryFits e → EntryFits f → text_of e ≡ text_of f → e ≡ f }
{}
