//! What holds of all texts of words, as the contracts of functions that do nothing.

ghost use Rattle.std.specs.Prelude.{◌≡◌, ℕ, ◌≤◌, List, length, All};
ghost use Rattle.word_listing.specs.declared.fault.TextPlace.{TextPlace};
ghost use Rattle.word_listing.specs.Packing.{most_lines, IsWord, lines_of, IsTextOfWords, IsFault};

/// A text has one answer: either its words, of which it has one list, or one fault. So `pack` gives an image exactly
/// where the text has no fault, and the fault that it tells is the only one.
pub fn texts_have_one_answer()
    ensures words { (text vs ws : List ℕ) → IsTextOfWords text vs → IsTextOfWords text ws → vs ≡ ws }
    ensures fault { (text : List ℕ) (f g : TextPlace) → IsFault text f → IsFault text g → f ≡ g }
    ensures either { (text ws : List ℕ) (f : TextPlace) → IsTextOfWords text ws → IsFault text f → ⊥ }
{}

/// The lines of at most `MOST_LINES` words are never too many bytes. So `pack` gives the image of these words for them.
pub fn lines_of_words_are_read()
    ensures { (ws : List ℕ) → All IsWord ws → length ws ≤ most_lines → IsTextOfWords (lines_of ws) ws }
{}
