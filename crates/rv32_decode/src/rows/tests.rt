use super::decode;
use guest_model::{Cond, ImmOp, Instr, LoadWidth, RegOp, StoreWidth, UpperOp};

/// Words as assemblers write them.
#[test]
fn decodes_assembled_words(rt: HostRuntime) {
    // lui a5, 0x10
    assert_eq!(rt;
        decode(0x0001_07B7),
        Some(Instr::Upper {
            op: UpperOp::Lui,
            rd: 15,
            imm: 0x10000
        })
    );
    // j -12
    assert_eq!(rt;
        decode(0xFF5F_F06F),
        Some(Instr::Jal { rd: 0, offset: -12 })
    );
    // ret
    assert_eq!(rt;
        decode(0x0000_8067),
        Some(Instr::Jalr {
            rd: 0,
            rs1: 1,
            offset: 0
        })
    );
    // bnez a4, -16
    assert_eq!(rt;
        decode(0xFE07_18E3),
        Some(Instr::Branch {
            cond: Cond::Ne,
            rs1: 14,
            rs2: 0,
            offset: -16
        })
    );
    // lw a5, -20(s0)
    assert_eq!(rt;
        decode(0xFEC4_2783),
        Some(Instr::Load {
            width: LoadWidth::W,
            rd: 15,
            rs1: 8,
            offset: -20
        })
    );
    // sw a5, -20(s0)
    assert_eq!(rt;
        decode(0xFEF4_2623),
        Some(Instr::Store {
            width: StoreWidth::W,
            rs1: 8,
            rs2: 15,
            offset: -20
        })
    );
    // srai a0, a0, 31
    assert_eq!(rt;
        decode(0x41F5_5513),
        Some(Instr::OpImm {
            op: ImmOp::Sra,
            rd: 10,
            rs1: 10,
            imm: 31
        })
    );
    // div a0, a1, a2
    assert_eq!(rt;
        decode(0x02C5_C533),
        Some(Instr::Op {
            op: RegOp::Div,
            rd: 10,
            rs1: 11,
            rs2: 12
        })
    );
    // fence iorw, iorw
    assert_eq!(rt; decode(0x0FF0_000F), Some(Instr::Fence));
    assert_eq!(rt; decode(0x0000_0073), Some(Instr::Ecall));
    assert_eq!(rt; decode(0x0010_0073), Some(Instr::Ebreak));
}

/// All zeros and all ones; FENCE.I, MRET, WFI and RDCYCLE; words of RV64: LD, SD, and SLLI by 32; and SLL with the
/// function code of SUB.
#[test]
fn refuses_words_without_a_row(rt: HostRuntime) {
    for word in [
        0x0000_0000,
        0xFFFF_FFFF,
        0x0000_100F,
        0x3020_0073,
        0x1050_0073,
        0xC000_2573,
        0x0005_3503,
        0x00A5_3023,
        0x0205_1513,
        0x40B5_1533,
    ] {
        assert_eq!(rt; decode(word), None);
    }
}
