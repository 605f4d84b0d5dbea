//! Names of tracks as text.

use speculation::Name;
use std::fmt;

/// A name, which prints as its generation, its region, and `n` for a normal track or `f` for a lead, with a dot between
/// each two.
#[derive(Debug, Clone, Copy, PartialEq, Eq)]
pub struct NameText(pub Name);

impl fmt::Display for NameText {
    ghost use Rattle.std.specs.Prelude.{Some};
    ghost use Rattle.board_events.specs.Texts.{name_text};

    ghost output = { λ n. Some (name_text n.0) };

    fn fmt<W: fmt::Write>(&self, f: &mut fmt::Formatter<W>) -> fmt::Result {
        let Name {
            generation,
            region,
            normal,
        } = self.0;
        if normal {
            write!(f, "{generation}.{region}.n")
        } else {
            write!(f, "{generation}.{region}.f")
        }
    }
}
