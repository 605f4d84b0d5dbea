//! The line of a fast version that ended the program.

ghost use Rattle.std.specs.Prelude.{◌≡◌, IfOk, string_bytes};
ghost use Rattle.region_account.specs.Accounts.{ended_line, ending_words};
ghost use Rattle.track_state.specs.Kept.{flat_state};

use crate::access::accessed;
use basic_types::NoMemory;
use guest_model::End;
use report_text::{Address, trap_name};
use std::alloc::Global;
use std::fmt;
use track_state::TrackState;

/// An end, which prints as its words.
#[derive(Clone, Copy)]
struct EndingWords(End);

impl fmt::Display for EndingWords {
    ghost use Rattle.std.specs.Prelude.{Some};
    ghost use Rattle.region_account.specs.Accounts.{ending_words};

    ghost output = { λ e. Some (ending_words e.0) };

    fn fmt<W: fmt::Write>(&self, f: &mut fmt::Formatter<W>) -> fmt::Result {
        match self.0 {
            End::Exit(code) => write!(f, "exit {code}"),
            End::Trap(trap, pc) => {
                let name = trap_name(trap);
                let pc = Address(pc);
                write!(f, "trap {name} at {pc}")
            }
            End::Spent => write!(f, "spent"),
        }
    }
}

/// The line of a fast version that ended so after `own` instructions, the last of which met the end in this state.
pub(crate) fn ended_text(
    alloc: Global,
    state: &TrackState,
    end: End,
    own: u64,
) -> Result<String, NoMemory>
    ensures { IfOk result (λ text. string_bytes text ≡ ended_line (flat_state state.now) end own) }
{
    let words = EndingWords(end);
    let line = match accessed(state) {
        Some(at) => {
            let at = Address(at);
            format!(in alloc; "  fast version {words} after {own} of {at}\n")?
        }
        None => format!(in alloc; "  fast version {words} after {own}\n")?,
    };
    Ok(line)
}
