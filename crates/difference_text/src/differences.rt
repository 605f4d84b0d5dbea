//! The lines of all that differs in two states.

ghost use Rattle.std.specs.Prelude.{◌≡◌, ◌++◌, OnOk, IfOk, string_bytes};
ghost use Rattle.guest_model.specs.Registers.{reg};
ghost use Rattle.track_state.specs.Kept.{flat_state, AreComparable};
ghost use Rattle.difference_text.specs.Differences.{word_line, register_name, registers_lines, unless_same, pair_line, differences_lines};
ghost use Rattle.std.specs.Prelude.{codes, decimal};

use crate::bytes::write_memory;
use crate::register_name::RegisterName;
use basic_types::NoMemory;
use guest_model::Regs;
use report_text::Address;
use std::alloc::Global;
use track_state::TrackState;

/// The lines of all differences of two states, in the order in which states are compared: pc, x1 to x31, the place in the
/// input, the break, and the runs of bytes by rising addresses. The left one is the original's.
///
/// Their layout is one, and outside of both write sets their bytes are the same, as of two states that keep one start.
///
/// # Errors
/// `NoMemory` where there is no room for them.
pub fn differences_text(
    alloc: Global,
    original: &TrackState,
    fast: &TrackState,
) -> Result<String, NoMemory>
    requires { AreComparable original.now fast.now }
    ensures { IfOk result (λ text. string_bytes text ≡ differences_lines (flat_state original.now) (flat_state fast.now)) }
{
    let mut text = String::new(alloc);
    write_words("pc", original.regs.pc(), fast.regs.pc(), &mut text)?;
    write_registers(&original.regs, &fast.regs, &mut text)?;
    write_place(original.place, fast.place, &mut text)?;
    write_words("break", original.heap.brk, fast.heap.brk, &mut text)?;
    write_memory(alloc, &original.memory, &fast.memory, &mut text)?;
    Ok(text)
}

/// Adds the line of two words with this name, where they differ.
fn write_words(name: &str, original: u32, fast: u32, text: &mut String) -> Result<(), NoMemory>
    ensures { OnOk result (string_bytes text.new ≡ string_bytes text.old ++ word_line name.now original fast) }
{
    if original == fast {
        return Ok(());
    }
    let original = Address(original);
    let fast = Address(fast);
    write!(text, "  {name} original {original} fast {fast}\n")?;
    Ok(())
}

/// Adds the lines of the registers that differ.
fn write_registers(original: &Regs, fast: &Regs, text: &mut String) -> Result<(), NoMemory>
    ensures { OnOk result (string_bytes text.new ≡ string_bytes text.old ++ registers_lines original.now fast.now 31) }
{
    for r in 1..32u8 {
        write_register(r, original.get(r), fast.get(r), text)?;
    }
    Ok(())
}

/// Adds the line of a register with these values, where they differ.
fn write_register(r: u8, original: u32, fast: u32, text: &mut String) -> Result<(), NoMemory>
    ensures { OnOk result (string_bytes text.new ≡ string_bytes text.old ++ word_line (register_name r) original fast) }
{
    if original == fast {
        return Ok(());
    }
    let name = RegisterName(r);
    let original = Address(original);
    let fast = Address(fast);
    write!(text, "  {name} original {original} fast {fast}\n")?;
    Ok(())
}

/// Adds the line of the places in the input, where they differ.
fn write_place(original: u64, fast: u64, text: &mut String) -> Result<(), NoMemory>
    ensures { OnOk result (string_bytes text.new ≡ string_bytes text.old ++ unless_same original fast (pair_line (codes "place") (decimal original) (decimal fast))) }
{
    if original == fast {
        return Ok(());
    }
    write!(text, "  place original {original} fast {fast}\n")?;
    Ok(())
}
