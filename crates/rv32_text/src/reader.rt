//! Words read back from their texts.

ghost use Rattle.std.specs.Prelude.{◌≡◌, ◌≢◌, ◌≤◌, ◌<◌, ◌^◌, ℕ, length, IfOk, IfErr, IsOk, MatchResult};
ghost use Rattle.guest_model.specs.InstructionTable.{instr};
ghost use Rattle.rv32_asm.specs.Encoding.{IsInRange};
ghost use Rattle.rv32_text.specs.FaultPlace.{IsFaultPlace};
ghost use Rattle.rv32_text.specs.Hexadecimals.{digit_count, HasDigits};
ghost use Rattle.rv32_text.specs.Languages.{ended, rest, StopsAt};
ghost use Rattle.rv32_text.specs.Shapes.{Row, Nothing, Shape, IsWordRead};
ghost use Rattle.rv32_text.specs.Texts.{hex_text, text_of};

use crate::digits::{Digits, read_digits};
use crate::expect::expect_last;
use crate::instruction::{
    read_branch, read_jal, read_jalr, read_load, read_op, read_op_imm, read_store, read_upper,
};
use crate::mnemonic::Mnemonic;
use crate::start::read_start;
use guest_model::Instr;
use rv32_asm::encode;

/// Where a text goes wrong: the length in bytes of its longest beginning with which some word's text begins too.
#[derive(Debug, Clone, Copy, PartialEq, Eq)]
pub struct TextFault {
    pub place: u64,
}

/// The word of an instruction that was read.
fn encoded(read: Result<Instr, usize>) -> Result<u32, usize>
    requires { IfOk read IsInRange }
    ensures { MatchResult read (λ i. IsOk result × IfOk result (λ w. instr w ≡ Some i)) (λ place. result ≡ Err place) }
{
    match read {
        Ok(instruction) => Ok(encode(instruction)),
        Err(place) => Err(place),
    }
}

/// A row of eight hexadecimal digits, with which the text ends.
fn read_row(digits: Digits, text: &[u8], from: usize) -> Result<u32, usize>
    requires from { from ≤ length text.now }
    requires row { digit_count digits ≡ 8 }
    ensures { MatchResult result (λ w. HasDigits digits w × (rest text.now from ≡ ended (hex_text 8 w))) (λ place. StopsAt (Row digits) text.now from place) }
{
    let read = read_digits(&text[from..], digits);
    let end = from + read.used;
    match read.value {
        None => Err(end),
        Some(value) => match expect_last(&text[end..], "") {
            Ok(()) => Ok(value),
            Err(shared) => Err(end + shared),
        },
    }
}

/// This word, whose text has nothing behind its mnemonic.
fn read_nothing(word: u32, text: &[u8], from: usize) -> Result<u32, usize>
    requires { from ≤ length text.now }
    ensures { MatchResult result (λ w. (w ≡ word) × Nothing (rest text.now from)) (λ place. StopsAt Nothing text.now from place) }
{
    if from == text.len() {
        Ok(word)
    } else {
        Err(from)
    }
}

/// The word that has this mnemonic and the operands behind it.
fn read_rest(mnemonic: Mnemonic, text: &[u8], from: usize) -> Result<u32, usize>
    requires { from ≤ length text.now }
    ensures { MatchResult result (IsWordRead mnemonic text.now from) (λ place. StopsAt (Shape mnemonic) text.now from place) }
{
    match mnemonic {
        Mnemonic::Upper(op) => encoded(read_upper(op, text, from)),
        Mnemonic::Jal => encoded(read_jal(text, from)),
        Mnemonic::Jalr => encoded(read_jalr(text, from)),
        Mnemonic::Branch(cond) => encoded(read_branch(cond, text, from)),
        Mnemonic::Load(width) => encoded(read_load(width, text, from)),
        Mnemonic::Store(width) => encoded(read_store(width, text, from)),
        Mnemonic::OpImm(op) => encoded(read_op_imm(op, text, from)),
        Mnemonic::Op(op) => encoded(read_op(op, text, from)),
        Mnemonic::Fence => read_row(Digits::Fence, text, from),
        Mnemonic::Ecall => read_nothing(0x0000_0073, text, from),
        Mnemonic::Ebreak => read_nothing(0x0010_0073, text, from),
        Mnemonic::Word => read_row(Digits::Word, text, from),
    }
}

/// The word whose text this is (`list` writes it). No other text is read, and no memory is taken.
///
/// # Errors
/// The place at which the text goes wrong, where it is no word's text.
pub fn read(text: &str) -> Result<u32, TextFault>
    ensures ok { IfOk result (λ w. text.now ≡ text_of w) }
    ensures exact { (w : ℕ) → w < 2 ^ 32 → text.now ≡ text_of w → result ≡ Ok w }
    ensures err { IfErr result (λ fault. (w : ℕ) → w < 2 ^ 32 → text.now ≢ text_of w) }
    ensures place { IfErr result (λ fault. IsFaultPlace text.now fault.place) }
{
    match read_word(text.as_bytes()) {
        Ok(word) => Ok(word),
        Err(place) => Err(TextFault {
            place: place as u64,
        }),
    }
}

/// The word whose text this is, else the place at which it goes wrong.
fn read_word(text: &[u8]) -> Result<u32, usize>
    ensures { MatchResult result (λ w. text.now ≡ text_of w) (λ place. IsFaultPlace text.now place × ((w : ℕ) → w < 2 ^ 32 → text.now ≢ text_of w)) }
{
    match read_start(text) {
        Err(place) => Err(place),
        Ok(mnemonic) => read_rest(mnemonic, text, mnemonic.start().len()),
    }
}
