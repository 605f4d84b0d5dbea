//! Literal parts of a text.

ghost use Rattle.std.specs.Prelude.{◌≡◌, ◌≤◌, ◌++◌, length, IfErr, MatchResult};
ghost use Rattle.rv32_text.specs.Languages.{Differs, ended, rest};

/// Ok where `text` begins with `literal`; else how many letters of it they share.
pub(crate) fn expect(text: &[u8], literal: &str) -> Result<(), usize>
    ensures begins { MatchResult result (λ _. (ended text.now ≡ literal.now ++ rest text.now (length literal.now)) × (length literal.now ≤ length text.now)) (λ place. Differs literal.now (ended text.now) place) }
    ensures within { IfErr result (λ place. place ≤ length text.now) }
{
    for (place, &wanted) in literal.as_bytes().iter().enumerate() {
        if place == text.len() {
            return Err(place);
        }
        if text[place] != wanted {
            return Err(place);
        }
    }
    Ok(())
}

/// Ok where `text` is `literal`; else how many letters of it they share.
pub(crate) fn expect_last(text: &[u8], literal: &str) -> Result<(), usize>
    ensures ends { MatchResult result (λ _. ended text.now ≡ ended literal.now) (λ place. Differs (ended literal.now) (ended text.now) place) }
    ensures within { IfErr result (λ place. place ≤ length text.now) }
{
    match expect(text, literal) {
        Ok(()) => {
            if text.len() == literal.len() {
                Ok(())
            } else {
                Err(literal.len())
            }
        }
        Err(shared) => Err(shared),
    }
}
