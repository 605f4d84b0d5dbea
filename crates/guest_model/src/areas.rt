//! Areas of bytes, as the segments, the stack and the heap of an image make them.

ghost use Rattle.std.specs.Prelude.{◌≡◌};

use basic_types::Bytes;
use std::marker::Model;

/// The bytes from one address on.
#[derive(Debug, Drop)]
pub struct Area {
    /// The address of the first byte.
    pub base: u32,
    pub bytes: Bytes,
}

/// A list of areas.
#[derive(Debug, Drop)]
pub struct Areas {
    areas: Vec<Area>,
}

impl Model for Areas {
    ghost use Rattle.std.specs.Prelude.{List};
    ghost use Rattle.guest_model.specs.declared.areas.Area.{Area};

    ghost Value = { List Area };

    ghost view = { λ a. a.areas.items };
}

impl Areas {
    /// The areas of `areas`, which are not copied.
    pub fn from_vec(areas: Vec<Area>) -> Areas
        ensures { result ≡ areas.items }
    {
        Areas { areas }
    }

    pub fn as_slice(&self) -> &[Area]
        ensures { result.now ≡ self.now }
    {
        self.areas.as_slice()
    }
}
