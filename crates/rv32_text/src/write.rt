//! Words as text.

ghost use Rattle.std.specs.Prelude.{◌≡◌, IfOk, string_bytes};
ghost use Rattle.rv32_text.specs.Texts.{text_of};

use crate::mnemonic::Mnemonic;
use basic_types::NoMemory;
use guest_model::Instr;
use report_text::Address;
use rv32_decode::decode;
use std::alloc::Global;
use std::fmt;

/// A byte, which prints as two hexadecimal digits in lower case.
#[derive(Debug, Clone, Copy, PartialEq, Eq)]
struct ByteDigits(u8);

#[tactic(auto, using(std::proofs::lemmas::Fmt::hex_byte))]
impl fmt::Display for ByteDigits {
    ghost use Rattle.std.specs.Prelude.{Some};
    ghost use Rattle.report_text.specs.Texts.{byte_text};

    ghost output = { λ b. Some (byte_text b.0) };

    fn fmt<W: fmt::Write>(&self, f: &mut fmt::Formatter<W>) -> fmt::Result {
        let byte = self.0;
        write!(f, "{byte:02x}")
    }
}

/// A number below 16, which prints as a hexadecimal digit in lower case.
#[derive(Debug, Clone, Copy, PartialEq, Eq)]
struct HexDigit(u8);

#[tactic(auto, using(std::proofs::lemmas::Fmt::hex_one_digit))]
impl fmt::Display for HexDigit {
    ghost use Rattle.std.specs.Prelude.{Some, ◌∷◌, [], ◌%◌};
    ghost use Rattle.report_text.specs.Texts.{hex_digit};

    ghost output = { λ d. Some (hex_digit (d.0 % 16) ∷ []) };

    fn fmt<W: fmt::Write>(&self, f: &mut fmt::Formatter<W>) -> fmt::Result {
        let digit = self.0 % 16;
        write!(f, "{digit:x}")
    }
}

/// An immediate of LUI or AUIPC, which prints as its bits 31 to 12: five hexadecimal digits in lower case.
#[derive(Debug, Clone, Copy, PartialEq, Eq)]
struct UpperDigits(u32);

impl fmt::Display for UpperDigits {
    ghost use Rattle.std.specs.Prelude.{Some, ◌/◌, ◌^◌};
    ghost use Rattle.rv32_text.specs.Texts.{hex_text};

    ghost output = { λ u. Some (hex_text 5 (u.0 / 2 ^ 12)) };

    fn fmt<W: fmt::Write>(&self, f: &mut fmt::Formatter<W>) -> fmt::Result {
        let first = ByteDigits((self.0 >> 24) as u8);
        let second = ByteDigits(((self.0 >> 16) % 256) as u8);
        let last = HexDigit(((self.0 >> 12) % 16) as u8);
        write!(f, "{first}{second}{last}")
    }
}

/// A word that FENCE or no instruction has, which prints as eight hexadecimal digits in lower case.
#[derive(Debug, Clone, Copy, PartialEq, Eq)]
struct WordDigits(u32);

impl fmt::Display for WordDigits {
    ghost use Rattle.std.specs.Prelude.{Some};
    ghost use Rattle.rv32_text.specs.Texts.{hex_text};

    ghost output = { λ w. Some (hex_text 8 w.0) };

    fn fmt<W: fmt::Write>(&self, f: &mut fmt::Formatter<W>) -> fmt::Result {
        let word = Address(self.0);
        write!(f, "{word}")
    }
}

/// An instruction and its word, which print as what follows the mnemonic.
#[derive(Debug, Clone, Copy, PartialEq, Eq)]
struct Operands(Instr, u32);

impl fmt::Display for Operands {
    ghost use Rattle.std.specs.Prelude.{Some};
    ghost use Rattle.rv32_text.specs.Texts.{operands};

    ghost output = { λ i. Some (operands i.0 i.1) };

    fn fmt<W: fmt::Write>(&self, f: &mut fmt::Formatter<W>) -> fmt::Result {
        match self.0 {
            Instr::Upper { rd, imm, .. } => {
                let digits = UpperDigits(imm);
                write!(f, "x{rd}, {digits}")
            }
            Instr::Jal { rd, offset } => write!(f, "x{rd}, {offset}"),
            Instr::Jalr { rd, rs1, offset } => write!(f, "x{rd}, x{rs1}, {offset}"),
            Instr::Branch {
                rs1,
                rs2,
                offset,
                ..
            } => write!(f, "x{rs1}, x{rs2}, {offset}"),
            Instr::Load {
                rd,
                rs1,
                offset,
                ..
            } => write!(f, "x{rd}, {offset}(x{rs1})"),
            Instr::Store {
                rs1,
                rs2,
                offset,
                ..
            } => write!(f, "x{rs2}, {offset}(x{rs1})"),
            Instr::OpImm { rd, rs1, imm, .. } => write!(f, "x{rd}, x{rs1}, {imm}"),
            Instr::Op { rd, rs1, rs2, .. } => write!(f, "x{rd}, x{rs1}, x{rs2}"),
            Instr::Fence => {
                let word = WordDigits(self.1);
                write!(f, "{word}")
            }
            Instr::Ecall | Instr::Ebreak => Ok(()),
        }
    }
}

/// A word, which prints as its text.
#[derive(Debug, Clone, Copy, PartialEq, Eq)]
pub struct WordText(pub u32);

impl fmt::Display for WordText {
    ghost use Rattle.std.specs.Prelude.{Some};
    ghost use Rattle.rv32_text.specs.Texts.{text_of};

    ghost output = { λ w. Some (text_of w.0) };

    fn fmt<W: fmt::Write>(&self, f: &mut fmt::Formatter<W>) -> fmt::Result {
        match decode(self.0) {
            Some(instruction) => {
                let start = Mnemonic::of(instruction).start();
                let operands = Operands(instruction, self.0);
                write!(f, "{start}{operands}")
            }
            None => {
                let start = Mnemonic::Word.start();
                let word = WordDigits(self.0);
                write!(f, "{start}{word}")
            }
        }
    }
}

/// The text of a word: its instruction in assembly language, such as `addi x1, x2, -3`; `word` and eight hexadecimal
/// digits where it is no instruction. FENCE is written as `fence` and its whole word.
///
/// # Errors
/// `NoMemory` where there is no room for the text.
pub fn list(alloc: Global, word: u32) -> Result<String, NoMemory>
    ensures { IfOk result (λ text. string_bytes text ≡ text_of word) }
{
    let word = WordText(word);
    Ok(format!(in alloc; "{word}")?)
}
