//! Traps by name.

ghost use Rattle.std.specs.Prelude.{◌≡◌};
ghost use Rattle.report_text.specs.Texts.{trap_text};

use guest_model::Trap;

/// The name of a trap in texts.
pub fn trap_name(trap: Trap) -> &'static str
    ensures { result.now ≡ trap_text trap }
{
    match trap {
        Trap::Misaligned => "misaligned",
        Trap::FetchUnmapped => "fetch",
        Trap::Illegal => "illegal",
        Trap::Breakpoint => "breakpoint",
        Trap::LoadUnmapped => "load",
        Trap::StoreUnmapped => "store",
    }
}
