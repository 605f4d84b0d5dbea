//! Laws about definitions, each the contract of a function that does nothing.

ghost use Rattle.std.specs.Prelude.{◌≡◌, ℕ, Some};
ghost use Rattle.guest_model.specs.InstructionTable.{instr};
ghost use Rattle.guest_model.specs.declared.instr.Instr.{Instr};
ghost use Rattle.rv32_asm.specs.Encoding.{IsInRange};

/// Every instruction that the instruction table gives has its fields in range. With what `encode` ensures, these are
/// exactly the instructions that have a word.
pub fn table_gives_fields_in_range()
    ensures { (word : ℕ) (instruction : Instr) → instr word ≡ Some instruction → IsInRange instruction }
{}
