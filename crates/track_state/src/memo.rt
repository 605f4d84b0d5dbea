//! The words that were decoded last.

ghost use Rattle.std.specs.Prelude.{◌≡◌, Some, None, length, IfSome, IfNone};
ghost use Rattle.guest_model.specs.InstructionTable.{instr};
ghost use Rattle.rv32_step.specs.Decoded.{instr_of};

use rv32_decode::decode;
use rv32_step::{Decoded, Operation};

/// How many words are kept.
const SLOTS: usize = 256;

/// The word of ADDI x0, x0, 0.
const NOP: u32 = 0x0000_0013;

/// A word and its instruction.
#[derive(Clone, Copy)]
struct Slot {
    word: u32,
    decoded: Decoded,
    ghost row: { Some (instr_of decoded) ≡ instr word },
}

/// Words with their instructions, in the slots of the addresses at which they stood. What memory holds is never taken
/// from here: the word that was fetched is compared first.
#[derive(Drop)]
pub struct Memo {
    slots: [Slot; 256],
    ghost whole: { length slots ≡ 256 },
}

impl Memo {
    ghost use Rattle.std.specs.Prelude.{◌≡◌, Some, None, IfSome, IfNone};
    ghost use Rattle.guest_model.specs.InstructionTable.{instr};
    ghost use Rattle.rv32_step.specs.Decoded.{instr_of};

    /// Each slot has the word of NOP.
    pub fn new() -> Memo {
        let decoded = Decoded {
            operation: Operation::Addi,
            rd: 0,
            rs1: 0,
            rs2: 0,
            imm: 0,
        };
        Memo {
            slots: [Slot { word: NOP, decoded }; SLOTS],
        }
    }

    /// The instruction of a word that was fetched from `pc`. None where it is illegal.
    #[inline(always)]
    pub fn decode(&mut self, pc: u32, word: u32) -> Option<Decoded>
        ensures none { IfNone result (instr word ≡ None) }
        ensures row { IfSome result (λ decoded. Some (instr_of decoded) ≡ instr word) }
    {
        let place = (pc / 4) as usize % SLOTS;
        let slot = self.slots[place];
        if slot.word == word {
            return Some(slot.decoded);
        }
        let decoded = decode_anew(word)?;
        self.slots[place] = Slot { word, decoded };
        Some(decoded)
    }
}

/// Apart from `Memo::decode`, so that the loop over instructions stays short.
#[cold]
#[inline(never)]
fn decode_anew(word: u32) -> Option<Decoded>
    ensures none { IfNone result (instr word ≡ None) }
    ensures row { IfSome result (λ decoded. Some (instr_of decoded) ≡ instr word) }
{
    Some(Decoded::of(decode(word)?))
}
