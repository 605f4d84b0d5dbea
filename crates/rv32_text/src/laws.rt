//! What holds of the texts of all words, as the contract of a function that does nothing.

ghost use Rattle.std.specs.Prelude.{◌≡◌, ℕ, ◌<◌, ◌^◌};
ghost use Rattle.rv32_text.specs.Texts.{text_of};

/// The text of a word tells the word. So no text stands for two, and `read` answers the word that `list` wrote.
pub fn texts_tell_words()
    ensures { (v w : ℕ) → v < 2 ^ 32 → w < 2 ^ 32 → text_of v ≡ text_of w → v ≡ w }
{}
