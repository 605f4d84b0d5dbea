//! The state of a program as text.

ghost use Rattle.std.specs.Prelude.{◌≡◌, ◌++◌, OnOk, IfOk, string_bytes};
ghost use Rattle.guest_model.specs.MachineState.{flat};
ghost use Rattle.report_text.specs.States.{registers_line, bytes_line, asked_bytes, state_lines};

use crate::address::Address;
use crate::byte::write_digits;
use crate::end::EndText;
use basic_types::NoMemory;
use guest_model::{End, Memory, Regs, State};
use std::alloc::Global;

/// The lines that tell of a program after `count` instructions, of which it took `taken`: pc, place and break of its state,
/// the registers, the end, and, where asked for, the bytes at an address. These are given by address and number.
///
/// # Errors
/// `NoMemory` where there is no room for them.
pub fn state_text<M: Memory>(
    alloc: Global,
    count: u64,
    state: &State<M>,
    taken: u64,
    end: &End,
    bytes: Option<(u32, u32)>,
) -> Result<String, NoMemory>
    ensures { IfOk result (λ text. string_bytes text ≡ state_lines count (flat M.bytes state.now) taken end.now bytes) }
{
    let pc = Address(state.regs.pc());
    let place = state.place;
    let brk = Address(state.heap.brk);
    let mut text = format!(in alloc;
        "at {count} taken {taken} pc {pc} place {place} break {brk}\n"
    )?;
    write_registers(&state.regs, &mut text)?;
    let end = EndText(*end);
    write!(text, "{end}\n")?;
    write_asked(alloc, &state.memory, bytes, &mut text)?;
    Ok(text)
}

/// Adds the line of the registers x1 to x31.
fn write_registers(regs: &Regs, text: &mut String) -> Result<(), NoMemory>
    ensures { OnOk result (string_bytes text.new ≡ string_bytes text.old ++ registers_line regs.now) }
{
    let first = Address(regs.get(1));
    write!(text, "x1 {first}")?;
    for r in 2..32u8 {
        let value = Address(regs.get(r));
        write!(text, " x{r} {value}")?;
    }
    write!(text, "\n")?;
    Ok(())
}

/// Adds the line of the bytes that were asked for, if any were.
fn write_asked<M: Memory>(
    alloc: Global,
    memory: &M,
    bytes: Option<(u32, u32)>,
    text: &mut String,
) -> Result<(), NoMemory>
    ensures { OnOk result (string_bytes text.new ≡ string_bytes text.old ++ asked_bytes (M.bytes memory.now) bytes) }
{
    match bytes {
        Some((at, number)) => write_bytes(alloc, memory, at, number, text),
        None => Ok(()),
    }
}

/// Adds the line of the `number` bytes at this address.
fn write_bytes<M: Memory>(
    alloc: Global,
    memory: &M,
    at: u32,
    number: u32,
    text: &mut String,
) -> Result<(), NoMemory>
    ensures { OnOk result (string_bytes text.new ≡ string_bytes text.old ++ bytes_line (M.bytes memory.now) at number) }
{
    let address = Address(at);
    let mut bytes = vec![in alloc; 0; number as usize]?;
    if memory.copy_out(at, bytes.as_mut_slice()) {
        write!(text, "bytes {address} ")?;
        write_digits(bytes.as_slice(), text)?;
        write!(text, "\n")?;
    } else {
        write!(text, "bytes {address} unmapped\n")?;
    }
    Ok(())
}
