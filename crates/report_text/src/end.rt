//! The end of a run as text.

ghost use Rattle.std.specs.Prelude.{◌≡◌, IfOk, string_bytes};
ghost use Rattle.report_text.specs.Reports.{end_line};

use crate::address::Address;
use crate::traps::trap_name;
use basic_types::NoMemory;
use guest_model::End;
use std::alloc::Global;
use std::fmt;

/// The end of a run, which prints as its line without its line feed.
#[derive(Debug, Clone, Copy, PartialEq, Eq)]
pub(crate) struct EndText(pub End);

impl fmt::Display for EndText {
    ghost use Rattle.std.specs.Prelude.{Some};
    ghost use Rattle.report_text.specs.Reports.{end_words};

    ghost output = { λ e. Some (end_words e.0) };

    fn fmt<W: fmt::Write>(&self, f: &mut fmt::Formatter<W>) -> fmt::Result {
        match self.0 {
            End::Exit(code) => write!(f, "end exit {code}"),
            End::Trap(trap, pc) => {
                let name = trap_name(trap);
                let pc = Address(pc);
                write!(f, "end trap {name} at {pc}")
            }
            End::Spent => write!(f, "end spent"),
        }
    }
}

/// The line of a run's end, with its line feed.
///
/// # Errors
/// `NoMemory` where there is no room for it.
pub fn end_text(alloc: Global, end: &End) -> Result<String, NoMemory>
    ensures { IfOk result (λ text. string_bytes text ≡ end_line end.now) }
{
    let end = EndText(*end);
    Ok(format!(in alloc; "{end}\n")?)
}
