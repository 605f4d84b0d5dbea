//! How the texts of words begin.

ghost use Rattle.std.specs.Prelude.{◌≡◌};
ghost use Rattle.rv32_text.specs.Starts.{upper_start, cond_start, load_start, store_start, imm_op_start, reg_op_start, start_of, mnemonic_of};

use guest_model::{Cond, ImmOp, Instr, LoadWidth, RegOp, StoreWidth, UpperOp};

/// What the text of a word begins with: the mnemonic of its instruction, and `Word` where it has none.
#[derive(Debug, Clone, Copy, PartialEq, Eq)]
pub(crate) enum Mnemonic {
    Upper(UpperOp),
    Jal,
    Jalr,
    Branch(Cond),
    Load(LoadWidth),
    Store(StoreWidth),
    OpImm(ImmOp),
    Op(RegOp),
    Fence,
    Ecall,
    Ebreak,
    Word,
}

impl Mnemonic {
    pub(crate) fn of(instruction: Instr) -> Mnemonic
        ensures { result ≡ mnemonic_of instruction }
    {
        match instruction {
            Instr::Upper { op, .. } => Mnemonic::Upper(op),
            Instr::Jal { .. } => Mnemonic::Jal,
            Instr::Jalr { .. } => Mnemonic::Jalr,
            Instr::Branch { cond, .. } => Mnemonic::Branch(cond),
            Instr::Load { width, .. } => Mnemonic::Load(width),
            Instr::Store { width, .. } => Mnemonic::Store(width),
            Instr::OpImm { op, .. } => Mnemonic::OpImm(op),
            Instr::Op { op, .. } => Mnemonic::Op(op),
            Instr::Fence => Mnemonic::Fence,
            Instr::Ecall => Mnemonic::Ecall,
            Instr::Ebreak => Mnemonic::Ebreak,
        }
    }

    /// The mnemonic in lower case, with one space behind it where operands follow.
    pub(crate) fn start(self) -> &'static str
        ensures { result.now ≡ start_of self }
    {
        match self {
            Mnemonic::Upper(op) => upper_start(op),
            Mnemonic::Jal => "jal ",
            Mnemonic::Jalr => "jalr ",
            Mnemonic::Branch(cond) => cond_start(cond),
            Mnemonic::Load(width) => load_start(width),
            Mnemonic::Store(width) => store_start(width),
            Mnemonic::OpImm(op) => imm_op_start(op),
            Mnemonic::Op(op) => reg_op_start(op),
            Mnemonic::Fence => "fence ",
            Mnemonic::Ecall => "ecall",
            Mnemonic::Ebreak => "ebreak",
            Mnemonic::Word => "word ",
        }
    }
}

fn upper_start(op: UpperOp) -> &'static str
    ensures { result.now ≡ upper_start op }
{
    match op {
        UpperOp::Lui => "lui ",
        UpperOp::Auipc => "auipc ",
    }
}

fn cond_start(cond: Cond) -> &'static str
    ensures { result.now ≡ cond_start cond }
{
    match cond {
        Cond::Eq => "beq ",
        Cond::Ne => "bne ",
        Cond::Lt => "blt ",
        Cond::Ge => "bge ",
        Cond::Ltu => "bltu ",
        Cond::Geu => "bgeu ",
    }
}

fn load_start(width: LoadWidth) -> &'static str
    ensures { result.now ≡ load_start width }
{
    match width {
        LoadWidth::B => "lb ",
        LoadWidth::H => "lh ",
        LoadWidth::W => "lw ",
        LoadWidth::Bu => "lbu ",
        LoadWidth::Hu => "lhu ",
    }
}

fn store_start(width: StoreWidth) -> &'static str
    ensures { result.now ≡ store_start width }
{
    match width {
        StoreWidth::B => "sb ",
        StoreWidth::H => "sh ",
        StoreWidth::W => "sw ",
    }
}

fn imm_op_start(op: ImmOp) -> &'static str
    ensures { result.now ≡ imm_op_start op }
{
    match op {
        ImmOp::Add => "addi ",
        ImmOp::Slt => "slti ",
        ImmOp::Sltu => "sltiu ",
        ImmOp::Xor => "xori ",
        ImmOp::Or => "ori ",
        ImmOp::And => "andi ",
        ImmOp::Sll => "slli ",
        ImmOp::Srl => "srli ",
        ImmOp::Sra => "srai ",
    }
}

fn reg_op_start(op: RegOp) -> &'static str
    ensures { result.now ≡ reg_op_start op }
{
    match op {
        RegOp::Add => "add ",
        RegOp::Sub => "sub ",
        RegOp::Sll => "sll ",
        RegOp::Slt => "slt ",
        RegOp::Sltu => "sltu ",
        RegOp::Xor => "xor ",
        RegOp::Srl => "srl ",
        RegOp::Sra => "sra ",
        RegOp::Or => "or ",
        RegOp::And => "and ",
        RegOp::Mul => "mul ",
        RegOp::Mulh => "mulh ",
        RegOp::Mulhsu => "mulhsu ",
        RegOp::Mulhu => "mulhu ",
        RegOp::Div => "div ",
        RegOp::Divu => "divu ",
        RegOp::Rem => "rem ",
        RegOp::Remu => "remu ",
    }
}
