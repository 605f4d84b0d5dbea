//! The instruction formats (RISC-V Unprivileged ISA, chapter RV32I, "Base Instruction Formats" and "Immediate Encoding
//! Variants"). An immediate is given as a word, of which a format has the bits that it names.

ghost use Rattle.std.specs.Prelude.{◌≡◌, ◌<◌};
ghost use Rattle.rv32_asm.specs.Encoding.{r_type, i_type, s_type, b_type, u_type, j_type};

pub fn r_type(opcode: u32, funct3: u32, rd: u8, rs1: u8, rs2: u8, funct7: u32) -> u32
    requires codes { (opcode < 128) × (funct3 < 8) × (funct7 < 128) }
    requires registers { (rd < 32) × (rs1 < 32) × (rs2 < 32) }
    ensures { result ≡ r_type opcode funct3 rd rs1 rs2 funct7 }
{
    opcode
        + ((rd as u32) << 7)
        + (funct3 << 12)
        + ((rs1 as u32) << 15)
        + ((rs2 as u32) << 20)
        + (funct7 << 25)
}

pub fn i_type(opcode: u32, funct3: u32, rd: u8, rs1: u8, imm: u32) -> u32
    requires codes { (opcode < 128) × (funct3 < 8) }
    requires registers { (rd < 32) × (rs1 < 32) }
    ensures { result ≡ i_type opcode funct3 rd rs1 imm }
{
    opcode + ((rd as u32) << 7) + (funct3 << 12) + ((rs1 as u32) << 15) + ((imm & 0xFFF) << 20)
}

pub fn s_type(opcode: u32, funct3: u32, rs1: u8, rs2: u8, imm: u32) -> u32
    requires codes { (opcode < 128) × (funct3 < 8) }
    requires registers { (rs1 < 32) × (rs2 < 32) }
    ensures { result ≡ s_type opcode funct3 rs1 rs2 imm }
{
    opcode
        + ((imm & 0x1F) << 7)
        + (funct3 << 12)
        + ((rs1 as u32) << 15)
        + ((rs2 as u32) << 20)
        + ((imm >> 5 & 0x7F) << 25)
}

pub fn b_type(opcode: u32, funct3: u32, rs1: u8, rs2: u8, imm: u32) -> u32
    requires codes { (opcode < 128) × (funct3 < 8) }
    requires registers { (rs1 < 32) × (rs2 < 32) }
    ensures { result ≡ b_type opcode funct3 rs1 rs2 imm }
{
    let low = ((imm >> 11 & 1) << 7) + ((imm >> 1 & 0xF) << 8);
    let high = ((imm >> 5 & 0x3F) << 25) + ((imm >> 12 & 1) << 31);
    opcode + low + (funct3 << 12) + ((rs1 as u32) << 15) + ((rs2 as u32) << 20) + high
}

pub fn u_type(opcode: u32, rd: u8, imm: u32) -> u32
    requires codes { opcode < 128 }
    requires registers { rd < 32 }
    ensures { result ≡ u_type opcode rd imm }
{
    opcode + ((rd as u32) << 7) + (imm & 0xFFFF_F000)
}

pub fn j_type(opcode: u32, rd: u8, imm: u32) -> u32
    requires codes { opcode < 128 }
    requires registers { rd < 32 }
    ensures { result ≡ j_type opcode rd imm }
{
    let low = ((imm >> 12 & 0xFF) << 12) + ((imm >> 11 & 1) << 20);
    let high = ((imm >> 1 & 0x3FF) << 21) + ((imm >> 20 & 1) << 31);
    opcode + ((rd as u32) << 7) + low + high
}
