//! The address that an instruction loads or stores.

ghost use Rattle.std.specs.Prelude.{◌≡◌, IfSome};
ghost use Rattle.guest_model.specs.MachineState.{flat};
ghost use Rattle.guest_model.specs.InstructionTable.{FieldsFit};
ghost use Rattle.region_account.specs.Accounts.{accessed, accessed_by};

use guest_model::{Instr, Memory, Regs, State};
use rv32_decode::decode;

/// The address that the next instruction loads or stores, if it is one that does.
#[tactic(auto, unfolding(crate::specs::Accounts::accessed))]
pub(crate) fn accessed<M: Memory>(state: &State<M>) -> Option<u32>
    ensures { result ≡ accessed (flat M.bytes state.now) }
{
    let word = state.memory.load32(state.regs.pc())?;
    accessed_by(&state.regs, decode(word))
}

/// The address that this instruction loads or stores, if it is one that does.
fn accessed_by(regs: &Regs, instruction: Option<Instr>) -> Option<u32>
    requires { IfSome instruction FieldsFit }
    ensures { result ≡ accessed_by regs.now instruction }
{
    match instruction {
        Some(Instr::Load { rs1, offset, .. }) | Some(Instr::Store { rs1, offset, .. }) => {
            Some(regs.get(rs1).wrapping_add(offset.cast_unsigned()))
        }
        _ => None,
    }
}
