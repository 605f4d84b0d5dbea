//! What no clause says: the texts of worked words, both ways, and the places of worked faults.

use crate::{TextFault, list, read};
use std::test::Fail;

/// Each row of the instruction table with its least and greatest immediate and one between them, and words without a
/// row.
const TEXTS: [(u32, &str); 111] = [
    (0x0000_0037, "lui x0, 00000"),
    (0xffff_ffb7, "lui x31, fffff"),
    (0x12ab_c2b7, "lui x5, 12abc"),
    (0x0000_0017, "auipc x0, 00000"),
    (0xffff_ff97, "auipc x31, fffff"),
    (0x12ab_c297, "auipc x5, 12abc"),
    (0x8000_006f, "jal x0, -1048576"),
    (0x7fff_ffef, "jal x31, 1048574"),
    (0xff9f_f0ef, "jal x1, -8"),
    (0x800f_8067, "jalr x0, x31, -2048"),
    (0x7ff0_0fe7, "jalr x31, x0, 2047"),
    (0x00a1_00e7, "jalr x1, x2, 10"),
    (0x81f0_0063, "beq x0, x31, -4096"),
    (0x7e0f_8fe3, "beq x31, x0, 4094"),
    (0x00a2_8063, "beq x5, x10, 0"),
    (0x81f0_1063, "bne x0, x31, -4096"),
    (0x7e0f_9fe3, "bne x31, x0, 4094"),
    (0x00a2_9a63, "bne x5, x10, 20"),
    (0x81f0_4063, "blt x0, x31, -4096"),
    (0x7e0f_cfe3, "blt x31, x0, 4094"),
    (0x04a2_c863, "blt x5, x10, 80"),
    (0x81f0_5063, "bge x0, x31, -4096"),
    (0x7e0f_dfe3, "bge x31, x0, 4094"),
    (0x06a2_d263, "bge x5, x10, 100"),
    (0x81f0_6063, "bltu x0, x31, -4096"),
    (0x7e0f_efe3, "bltu x31, x0, 4094"),
    (0x06a2_ec63, "bltu x5, x10, 120"),
    (0x81f0_7063, "bgeu x0, x31, -4096"),
    (0x7e0f_ffe3, "bgeu x31, x0, 4094"),
    (0x08a2_f663, "bgeu x5, x10, 140"),
    (0x800f_8003, "lb x0, -2048(x31)"),
    (0x7ff0_0f83, "lb x31, 2047(x0)"),
    (0x0005_0483, "lb x9, 0(x10)"),
    (0x800f_9003, "lh x0, -2048(x31)"),
    (0x7ff0_1f83, "lh x31, 2047(x0)"),
    (0x0015_1483, "lh x9, 1(x10)"),
    (0x800f_a003, "lw x0, -2048(x31)"),
    (0x7ff0_2f83, "lw x31, 2047(x0)"),
    (0x0025_2483, "lw x9, 2(x10)"),
    (0x800f_c003, "lbu x0, -2048(x31)"),
    (0x7ff0_4f83, "lbu x31, 2047(x0)"),
    (0x0045_4483, "lbu x9, 4(x10)"),
    (0x800f_d003, "lhu x0, -2048(x31)"),
    (0x7ff0_5f83, "lhu x31, 2047(x0)"),
    (0x0055_5483, "lhu x9, 5(x10)"),
    (0x81f0_0023, "sb x31, -2048(x0)"),
    (0x7e0f_8fa3, "sb x0, 2047(x31)"),
    (0x00a4_8023, "sb x10, 0(x9)"),
    (0x81f0_1023, "sh x31, -2048(x0)"),
    (0x7e0f_9fa3, "sh x0, 2047(x31)"),
    (0xfea4_9fa3, "sh x10, -1(x9)"),
    (0x81f0_2023, "sw x31, -2048(x0)"),
    (0x7e0f_afa3, "sw x0, 2047(x31)"),
    (0xfea4_af23, "sw x10, -2(x9)"),
    (0x800f_8013, "addi x0, x31, -2048"),
    (0x7ff0_0f93, "addi x31, x0, 2047"),
    (0x000a_0993, "addi x19, x20, 0"),
    (0x800f_a013, "slti x0, x31, -2048"),
    (0x7ff0_2f93, "slti x31, x0, 2047"),
    (0xffea_2993, "slti x19, x20, -2"),
    (0x800f_b013, "sltiu x0, x31, -2048"),
    (0x7ff0_3f93, "sltiu x31, x0, 2047"),
    (0xffda_3993, "sltiu x19, x20, -3"),
    (0x800f_c013, "xori x0, x31, -2048"),
    (0x7ff0_4f93, "xori x31, x0, 2047"),
    (0xffca_4993, "xori x19, x20, -4"),
    (0x800f_e013, "ori x0, x31, -2048"),
    (0x7ff0_6f93, "ori x31, x0, 2047"),
    (0xffaa_6993, "ori x19, x20, -6"),
    (0x800f_f013, "andi x0, x31, -2048"),
    (0x7ff0_7f93, "andi x31, x0, 2047"),
    (0xff9a_7993, "andi x19, x20, -7"),
    (0x000f_9013, "slli x0, x31, 0"),
    (0x01f0_1f93, "slli x31, x0, 31"),
    (0x00cf_1e93, "slli x29, x30, 12"),
    (0x000f_d013, "srli x0, x31, 0"),
    (0x01f0_5f93, "srli x31, x0, 31"),
    (0x00cf_5e93, "srli x29, x30, 12"),
    (0x400f_d013, "srai x0, x31, 0"),
    (0x41f0_5f93, "srai x31, x0, 31"),
    (0x40cf_5e93, "srai x29, x30, 12"),
    (0x01f4_0033, "add x0, x8, x31"),
    (0x01e4_90b3, "sll x1, x9, x30"),
    (0x01d5_2133, "slt x2, x10, x29"),
    (0x01c5_b1b3, "sltu x3, x11, x28"),
    (0x01b6_4233, "xor x4, x12, x27"),
    (0x01a6_d2b3, "srl x5, x13, x26"),
    (0x0197_6333, "or x6, x14, x25"),
    (0x0187_f3b3, "and x7, x15, x24"),
    (0x03f4_0033, "mul x0, x8, x31"),
    (0x03e4_90b3, "mulh x1, x9, x30"),
    (0x03d5_2133, "mulhsu x2, x10, x29"),
    (0x03c5_b1b3, "mulhu x3, x11, x28"),
    (0x03b6_4233, "div x4, x12, x27"),
    (0x03a6_d2b3, "divu x5, x13, x26"),
    (0x0397_6333, "rem x6, x14, x25"),
    (0x0387_f3b3, "remu x7, x15, x24"),
    (0x4031_00b3, "sub x1, x2, x3"),
    (0x4062_d233, "sra x4, x5, x6"),
    (0x0000_000f, "fence 0000000f"),
    (0xffff_8f8f, "fence ffff8f8f"),
    (0x0ff0_000f, "fence 0ff0000f"),
    (0x0000_0073, "ecall"),
    (0x0010_0073, "ebreak"),
    (0x0000_0000, "word 00000000"),
    (0xffff_ffff, "word ffffffff"),
    (0x0000_100f, "word 0000100f"),
    (0x0020_0073, "word 00200073"),
    (0x0200_1013, "word 02001013"),
    (0x0000_2063, "word 00002063"),
    (0x4000_1033, "word 40001033"),
];

#[test]
fn lists_and_reads_worked_words(rt: HostRuntime) -> Result<(), Fail> {
    for (word, text) in TEXTS {
        let listed = list(rt.alloc(), word)?;
        assert_eq!(rt; listed.as_str(), text);
        assert_eq!(rt; read(text), Ok(word));
    }
    Ok(())
}

#[test]
fn reads_what_it_lists(rt: HostRuntime) -> Result<(), Fail> {
    let mut word = 1_u32;
    for _ in 0..1000 {
        word = word.wrapping_mul(1_664_525).wrapping_add(1_013_904_223);
        let text = list(rt.alloc(), word)?;
        assert_eq!(rt; read(text.as_str()), Ok(word));
    }
    Ok(())
}

/// Texts that are no word's, and where each goes wrong.
const FAULTS: [(&str, u64); 33] = [
    ("", 0),
    ("addi x1, x2, 2048", 16),
    ("beq x0, x0, 3", 13),
    ("ADD x1, x1, x1", 0),
    ("word 00000013", 12),
    ("add x01", 6),
    ("addi x1, x0, -0", 14),
    ("addi x1, x0, +1", 13),
    ("addi x1, x0, 01", 14),
    ("addi x32, x0, 0", 7),
    ("add x1, x2", 10),
    ("add x1,  x2, x3", 8),
    ("add\tx1, x2, x3", 3),
    ("ecall ", 5),
    ("ecal", 4),
    ("addi x1, x0, 1 ", 14),
    ("addi x1, x0, -2049", 17),
    ("slli x1, x0, 32", 14),
    ("slli x1, x0, -1", 13),
    ("lui x1, 1234", 12),
    ("lui x1, 123456", 13),
    ("lui x1, 1234A", 12),
    ("fence 0000100f", 10),
    ("fence 0000001f", 12),
    ("fence 00000000", 13),
    ("beq x0, x0, 4096", 15),
    ("beq x0, x0, 4095", 15),
    ("jal x0, 1048575", 14),
    ("lw x1, 4(x2", 11),
    ("lw x1, 4[x2)", 8),
    ("bne x1, x2, é", 12),
    ("bgtu x0, x1, 4", 2),
    ("sraw x1, x2, x3", 3),
];

#[test]
fn refuses_other_texts(rt: HostRuntime) -> Result<(), Fail> {
    for (text, place) in FAULTS {
        assert_eq!(rt; read(text), Err(TextFault { place }), "{text}");
    }
    Ok(())
}
