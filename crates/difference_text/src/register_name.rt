//! Registers by name.

use std::fmt;

/// A register, which prints as its number and its name in the calling convention of RISC-V, as in `x10 a0`.
#[derive(Clone, Copy)]
pub(crate) struct RegisterName(pub u8);

impl fmt::Display for RegisterName {
    ghost use Rattle.std.specs.Prelude.{Some};
    ghost use Rattle.difference_text.specs.Differences.{register_name};

    ghost output = { λ r. Some (register_name r.0) };

    fn fmt<W: fmt::Write>(&self, f: &mut fmt::Formatter<W>) -> fmt::Result {
        let r = self.0;
        write!(f, "x{r} ")?;
        let name = ConventionName(r);
        write!(f, "{name}")
    }
}

/// A register, which prints as its name in the calling convention.
#[derive(Clone, Copy)]
struct ConventionName(u8);

impl fmt::Display for ConventionName {
    ghost use Rattle.std.specs.Prelude.{Some};
    ghost use Rattle.difference_text.specs.Differences.{convention_name};

    ghost output = { λ r. Some (convention_name r.0) };

    fn fmt<W: fmt::Write>(&self, f: &mut fmt::Formatter<W>) -> fmt::Result {
        let r = self.0;
        if r == 0 {
            write!(f, "zero")
        } else if r == 1 {
            write!(f, "ra")
        } else if r == 2 {
            write!(f, "sp")
        } else if r == 3 {
            write!(f, "gp")
        } else if r == 4 {
            write!(f, "tp")
        } else if r < 8 {
            let n = r - 5;
            write!(f, "t{n}")
        } else if r < 10 {
            let n = r - 8;
            write!(f, "s{n}")
        } else if r < 18 {
            let n = r - 10;
            write!(f, "a{n}")
        } else if r < 28 {
            let n = r - 16;
            write!(f, "s{n}")
        } else {
            let n = r - 25;
            write!(f, "t{n}")
        }
    }
}
