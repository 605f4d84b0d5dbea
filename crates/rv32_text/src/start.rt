//! The mnemonic with which a text begins.

ghost use Rattle.std.specs.Prelude.{◌≡◌, ◌≤◌, ◌++◌, ◌⊎◌, length, MatchResult};
ghost use Rattle.rv32_text.specs.Languages.{ended, rest};
ghost use Rattle.rv32_text.specs.Starts.{start_of};
ghost use Rattle.rv32_text.specs.Mnemonics.{EachParts, Longest, HasNoStart};

use crate::expect::expect;
use crate::mnemonic::Mnemonic;
use guest_model::{Cond, ImmOp, LoadWidth, RegOp, StoreWidth, UpperOp};

const MNEMONICS: [Mnemonic; 49] = [
    Mnemonic::Upper(UpperOp::Lui),
    Mnemonic::Upper(UpperOp::Auipc),
    Mnemonic::Jal,
    Mnemonic::Jalr,
    Mnemonic::Branch(Cond::Eq),
    Mnemonic::Branch(Cond::Ne),
    Mnemonic::Branch(Cond::Lt),
    Mnemonic::Branch(Cond::Ge),
    Mnemonic::Branch(Cond::Ltu),
    Mnemonic::Branch(Cond::Geu),
    Mnemonic::Load(LoadWidth::B),
    Mnemonic::Load(LoadWidth::H),
    Mnemonic::Load(LoadWidth::W),
    Mnemonic::Load(LoadWidth::Bu),
    Mnemonic::Load(LoadWidth::Hu),
    Mnemonic::Store(StoreWidth::B),
    Mnemonic::Store(StoreWidth::H),
    Mnemonic::Store(StoreWidth::W),
    Mnemonic::OpImm(ImmOp::Add),
    Mnemonic::OpImm(ImmOp::Slt),
    Mnemonic::OpImm(ImmOp::Sltu),
    Mnemonic::OpImm(ImmOp::Xor),
    Mnemonic::OpImm(ImmOp::Or),
    Mnemonic::OpImm(ImmOp::And),
    Mnemonic::OpImm(ImmOp::Sll),
    Mnemonic::OpImm(ImmOp::Srl),
    Mnemonic::OpImm(ImmOp::Sra),
    Mnemonic::Op(RegOp::Add),
    Mnemonic::Op(RegOp::Sub),
    Mnemonic::Op(RegOp::Sll),
    Mnemonic::Op(RegOp::Slt),
    Mnemonic::Op(RegOp::Sltu),
    Mnemonic::Op(RegOp::Xor),
    Mnemonic::Op(RegOp::Srl),
    Mnemonic::Op(RegOp::Sra),
    Mnemonic::Op(RegOp::Or),
    Mnemonic::Op(RegOp::And),
    Mnemonic::Op(RegOp::Mul),
    Mnemonic::Op(RegOp::Mulh),
    Mnemonic::Op(RegOp::Mulhsu),
    Mnemonic::Op(RegOp::Mulhu),
    Mnemonic::Op(RegOp::Div),
    Mnemonic::Op(RegOp::Divu),
    Mnemonic::Op(RegOp::Rem),
    Mnemonic::Op(RegOp::Remu),
    Mnemonic::Fence,
    Mnemonic::Ecall,
    Mnemonic::Ebreak,
    Mnemonic::Word,
];

/// The mnemonic whose start the text has; else the greatest number of letters that a start and the text share.
pub(crate) fn read_start(text: &[u8]) -> Result<Mnemonic, usize>
    ensures { MatchResult result
        (λ m. (ended text.now ≡ start_of m ++ rest text.now (length (start_of m))) × (length (start_of m) ≤ length text.now))
        (λ place. HasNoStart text.now place) }
{
    find_start(text, &MNEMONICS)
}

/// The same for these mnemonics.
fn find_start(text: &[u8], mnemonics: &[Mnemonic]) -> Result<Mnemonic, usize>
    ensures { MatchResult result
        (λ m. (ended text.now ≡ start_of m ++ rest text.now (length (start_of m))) × (length (start_of m) ≤ length text.now))
        (λ place. EachParts text.now place mnemonics.now × (place ≡ 0 ⊎ Longest text.now place)) }
{
    let mut most = 0;
    for &mnemonic in mnemonics {
        match expect(text, mnemonic.start()) {
            Ok(()) => return Ok(mnemonic),
            Err(shared) => most = most.max(shared),
        }
    }
    Err(most)
}
