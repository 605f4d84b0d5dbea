//! What an assembler keeps.

ghost use Rattle.std.specs.Prelude.{◌≡◌};

use guest_model::{Cond, Instr};

/// A label of an assembler: its number, from 0 in the order in which the labels were made.
#[derive(Debug, Clone, Copy, PartialEq, Eq)]
pub struct Label(pub(crate) u32);

impl Label {
    /// The number by which an `AsmFault` names the label.
    pub fn number(self) -> u32
        ensures { result ≡ self.0 }
    {
        self.0
    }
}

/// One instruction. A label is kept by its number.
#[derive(Debug, Clone, Copy)]
pub enum Item {
    /// An instruction as it was given.
    Given(Instr),
    /// A branch to a label.
    BranchTo {
        cond: Cond,
        rs1: u8,
        rs2: u8,
        to: u32,
    },
    /// JAL to a label.
    JumpTo {
        rd: u8,
        to: u32,
    },
    /// LUI with the upper part of a label's address.
    UpperOf {
        rd: u8,
        of: u32,
    },
    /// ADDI that adds the lower part.
    LowerOf {
        rd: u8,
        of: u32,
    },
}

/// What a label is bound to.
#[derive(Debug, Clone, Copy)]
pub enum Binding {
    Unbound,
    /// The instruction at this place, counted from 0.
    Code(u32),
    /// The placed byte at this place, counted from 0.
    Placed(u32),
}
