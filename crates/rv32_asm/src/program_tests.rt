//! Programs that are assembled, against their words.

ghost use Rattle.std.specs.Prelude.{◌≡◌, ◌+◌, ◌<◌, ◌≤◌, All, IfOk, OnOk, length, vec_len};
ghost use Rattle.rv32_asm.specs.Encoding.{IsInRange};

use crate::mnemonics::{addi, jal, lui};
use crate::{AsmFault, Assembler, Label, generate, small_image};
use guest_model::{Bytes, Cond, Instr, RegOp, StoreWidth};
use std::alloc::{AllocError, Global};
use std::process::Abort;
use std::test::Fail;

/// The call that begins the region and the original, which adds up 10 to 1, up to its jump to the end.
const ORIGINAL: [u32; 8] = [
    0x7D00_0893,
    0x0000_0073,
    0x0005_1E63,
    0x0000_0513,
    0x00A0_0293,
    0x0055_0533,
    0xFFF2_8293,
    0xFE02_9CE3,
];

/// The call that ends the region.
const END: [u32; 2] = [0x7D10_0893, 0x0000_0073];

const EXIT: [u32; 2] = [0x05D0_0893, 0x0000_0073];

fn store(width: StoreWidth, rs1: u8, rs2: u8, offset: i32) -> Instr
    ensures { result ≡ Instr.Store width rs1 rs2 offset }
{
    Instr::Store {
        width,
        rs1,
        rs2,
        offset,
    }
}

/// Emits several instructions.
fn emit_all(asm: &mut Assembler, instrs: &[Instr]) -> Result<(), AsmFault>
    requires { All IsInRange instrs.now }
    ensures { OnOk result (length asm.new.labels ≡ length asm.old.labels) }
{
    for instr in instrs {
        asm.emit(*instr)?;
    }
    Ok(())
}

/// The region with a fast version, and what stands behind it.
fn region_program(
    alloc: Global,
    fast_version: &[Instr],
    behind: &[Instr],
) -> Result<Bytes, AsmFault>
    requires fast_version { All IsInRange fast_version.now }
    requires behind { All IsInRange behind.now }
{
    let mut asm = Assembler::new(alloc);
    let fast = asm.label()?;
    let end = asm.label()?;
    let again = asm.label()?;
    asm.open_region(fast)?;
    emit_all(&mut asm, &[addi(10, 0, 0), addi(5, 0, 10)])?;
    asm.bind(again)?;
    let add = Instr::Op {
        op: RegOp::Add,
        rd: 10,
        rs1: 10,
        rs2: 5,
    };
    emit_all(&mut asm, &[add, addi(5, 5, -1)])?;
    asm.branch(Cond::Ne, 5, 0, again)?;
    asm.jump(0, end)?;
    asm.bind(fast)?;
    emit_all(&mut asm, fast_version)?;
    asm.bind(end)?;
    asm.close_region()?;
    emit_all(&mut asm, behind)?;
    asm.finish()
}

/// The words of that program; `to_end` is the original's last jump.
fn region_words(
    alloc: Global,
    to_end: u32,
    fast_version: &[u32],
    behind: &[u32],
) -> Result<Vec<u32>, AllocError>
    requires { length fast_version.now + length behind.now < 100 }
    ensures { IfOk result (λ v. vec_len v < 200) }
{
    let mut words = Vec::from_slice(alloc, &ORIGINAL)?;
    words.extend_from_slice(&[to_end])?;
    words.extend_from_slice(fast_version)?;
    words.extend_from_slice(&END)?;
    words.extend_from_slice(behind)?;
    Ok(words)
}

fn check_region(
    rt: &(impl Abort + AllocGlobal),
    fast_version: &[Instr],
    to_end: u32,
    fast_words: &[u32],
) -> Result<(), Fail>
    requires range { All IsInRange fast_version.now }
    requires short { length fast_words.now < 50 }
{
    let image = region_program(rt.alloc(), fast_version, &[addi(17, 0, 93), Instr::Ecall])?;
    let words = region_words(rt.alloc(), to_end, fast_words, &EXIT)?;
    let expected = small_image(rt.alloc(), &words)?;
    assert_eq!(rt; image.as_slice(), expected.as_slice());
    Ok(())
}

#[test]
fn assembles_regions(rt: HostRuntime) -> Result<(), Fail> {
    let zero_t0 = addi(5, 0, 0);
    check_region(
        &rt,
        &[addi(10, 0, 55), zero_t0],
        0x00C0_006F,
        &[0x0370_0513, 0x0000_0293],
    )?;
    check_region(
        &rt,
        &[addi(10, 0, 54), zero_t0],
        0x00C0_006F,
        &[0x0360_0513, 0x0000_0293],
    )?;
    let spill = store(StoreWidth::B, 2, 17, -1);
    check_region(
        &rt,
        &[addi(10, 0, 55), spill],
        0x00C0_006F,
        &[0x0370_0513, 0xFF11_0FA3],
    )?;
    let clear = store(StoreWidth::B, 2, 0, -1);
    check_region(
        &rt,
        &[addi(10, 0, 55), clear],
        0x00C0_006F,
        &[0x0370_0513, 0xFE01_0FA3],
    )?;
    check_region(
        &rt,
        &[jal(0, 0), zero_t0],
        0x00C0_006F,
        &[0x0000_006F, 0x0000_0293],
    )?;
    check_region(
        &rt,
        &[Instr::Ebreak, zero_t0],
        0x00C0_006F,
        &[0x0010_0073, 0x0000_0293],
    )?;
    check_region(
        &rt,
        &[jal(0, -24), zero_t0],
        0x00C0_006F,
        &[0xFE9F_F06F, 0x0000_0293],
    )?;
    Ok(())
}

#[test]
fn assembles_longer_fast_versions(rt: HostRuntime) -> Result<(), Fail> {
    let reads = [
        addi(10, 0, 0),
        addi(11, 2, -1),
        addi(12, 0, 1),
        addi(17, 0, 63),
        Instr::Ecall,
        addi(10, 0, 55),
        addi(11, 0, 0),
        addi(12, 0, 0),
    ];
    let words = [
        0x0000_0513,
        0xFFF1_0593,
        0x0010_0613,
        0x03F0_0893,
        0x0000_0073,
        0x0370_0513,
        0x0000_0593,
        0x0000_0613,
    ];
    check_region(&rt, &reads, 0x0240_006F, &words)?;
    let overwrites = [
        lui(5, 0x1_0000),
        store(StoreWidth::W, 5, 0, 12),
        addi(10, 0, 55),
        addi(5, 0, 0),
    ];
    let words = [0x0001_02B7, 0x0002_A623, 0x0370_0513, 0x0000_0293];
    check_region(&rt, &overwrites, 0x0140_006F, &words)
}

/// A loop that copies the input to the output.
#[test]
fn assembles_a_loop(rt: HostRuntime) -> Result<(), Fail> {
    let mut asm = Assembler::new(rt.alloc());
    let again = asm.label()?;
    let done = asm.label()?;
    asm.bind(again)?;
    let read = [
        addi(10, 0, 0),
        addi(11, 2, -16),
        addi(12, 0, 2),
        addi(17, 0, 63),
        Instr::Ecall,
    ];
    emit_all(&mut asm, &read)?;
    asm.branch(Cond::Eq, 10, 0, done)?;
    let write = [
        addi(12, 10, 0),
        addi(10, 0, 1),
        addi(17, 0, 64),
        Instr::Ecall,
    ];
    emit_all(&mut asm, &write)?;
    asm.jump(0, again)?;
    asm.bind(done)?;
    emit_all(&mut asm, &[addi(17, 0, 93), Instr::Ecall])?;
    let words = [
        0x0000_0513,
        0xFF01_0593,
        0x0020_0613,
        0x03F0_0893,
        0x0000_0073,
        0x0005_0C63,
        0x0005_0613,
        0x0010_0513,
        0x0400_0893,
        0x0000_0073,
        0xFD9F_F06F,
        0x05D0_0893,
        0x0000_0073,
    ];
    assert_eq!(rt;
        asm.finish()?.as_slice(),
        small_image(rt.alloc(), &words)?.as_slice()
    );
    Ok(())
}

/// The file of three words, byte by byte.
#[test]
fn lays_out_a_file(rt: HostRuntime) -> Result<(), Fail> {
    let image = small_image(rt.alloc(), &[0x0000_0513, 0x05D0_0893, 0x0000_0073])?;
    let file = b"\x7fELF\x01\x01\x01\0\0\0\0\0\0\0\0\0\
        \x02\0\xf3\0\x01\0\0\0\0\0\x01\0\x34\0\0\0\
        \0\0\0\0\0\0\0\0\x34\0\x20\0\x01\0\0\0\
        \0\0\0\0\
        \x01\0\0\0\x54\0\0\0\0\0\x01\0\0\0\x01\0\
        \x0c\0\0\0\x0c\0\0\0\x07\0\0\0\x04\0\0\0\
        \x13\x05\0\0\x93\x08\xd0\x05\x73\0\0\0";
    assert_eq!(rt; image.as_slice(), file.as_slice());
    Ok(())
}

/// A branch over `more` instructions.
fn branch_over(alloc: Global, more: u32) -> Result<Bytes, AsmFault> {
    let mut asm = Assembler::new(alloc);
    let far = asm.label()?;
    asm.branch(Cond::Ne, 5, 0, far)?;
    for _ in 0..more {
        asm.emit(Instr::Fence)?;
    }
    asm.bind(far)?;
    asm.finish()
}

#[test]
fn tells_what_is_wrong(rt: HostRuntime) -> Result<(), Fail> {
    assert!(rt; branch_over(rt.alloc(), 1022).is_ok());
    assert_eq!(rt;
        branch_over(rt.alloc(), 1023).err(),
        Some(AsmFault::Far(0x1_0000))
    );

    let mut asm = Assembler::new(rt.alloc());
    let first = asm.label()?;
    let second = asm.label()?;
    asm.jump(0, second)?;
    asm.address(5, first)?;
    assert_eq!(rt; asm.finish().err(), Some(AsmFault::Unbound(first.number())));
    asm.bind(first)?;
    assert_eq!(rt; asm.bind(first), Err(AsmFault::Twice(0)));
    assert_eq!(rt; asm.finish().err(), Some(AsmFault::Unbound(1)));
    asm.bind(second)?;
    assert!(rt; asm.finish().is_ok());
    Ok(())
}

/// Placed bytes stand behind the code, and no offset leads to an odd address.
#[test]
fn places_bytes_behind(rt: HostRuntime) -> Result<(), Fail> {
    let mut asm = Assembler::new(rt.alloc());
    let one = asm.place_bytes(b"a")?;
    let two = asm.place_bytes(b"bc\0")?;
    asm.constant(6, 0x1234_5FFF)?;
    asm.address(5, two)?;
    let words = [
        0x1234_6337,
        0xFFF3_0313,
        0x0001_02B7,
        0x0112_8293,
        0x0063_6261,
    ];
    assert_eq!(rt;
        asm.finish()?.as_slice(),
        small_image(rt.alloc(), &words)?.as_slice()
    );
    asm.jump(0, one)?;
    asm.jump(0, two)?;
    assert_eq!(rt; asm.finish().err(), Some(AsmFault::Far(0x1_0014)));
    Ok(())
}

/// The fast version of a region of the generated program.
fn fast_version(asm: &mut Assembler, kind: u64, turns: u32, end: Label) -> Result<(), AsmFault>
    requires turns { turns < 20000 }
    requires label { end.0 < length asm.old.labels }
    ensures { OnOk result (length asm.old.labels ≤ length asm.new.labels) }
{
    if kind == 3 {
        let here = asm.label()?;
        asm.bind(here)?;
        return asm.jump(0, here);
    }
    let wrong = (kind == 2) as u32;
    asm.constant(10, 3 * turns + wrong)?;
    asm.emit(addi(5, 0, 0))?;
    asm.jump(0, end)
}

/// One region of the generated program, by labels.
fn region(asm: &mut Assembler, number: u64, index: u64) -> Result<(), AsmFault>
    requires { number + index < 1000 }
{
    let turns = 10_000 + ((number + 7 * index) % 64) as u32;
    let fast = asm.label()?;
    let end = asm.label()?;
    let again = asm.label()?;
    asm.open_region(fast)?;
    asm.constant(5, turns)?;
    asm.emit(addi(10, 0, 0))?;
    asm.bind(again)?;
    emit_all(asm, &[addi(10, 10, 3), addi(5, 5, -1)])?;
    asm.branch(Cond::Ne, 5, 0, again)?;
    asm.jump(0, end)?;
    asm.bind(fast)?;
    fast_version(asm, (number + index) % 4, turns, end)?;
    asm.bind(end)?;
    asm.close_region()?;
    let add = Instr::Op {
        op: RegOp::Add,
        rd: 8,
        rs1: 8,
        rs2: 10,
    };
    let write = [
        add,
        store(StoreWidth::W, 9, 8, 0),
        addi(10, 0, 1),
        addi(11, 9, 0),
    ];
    emit_all(asm, &write)?;
    emit_all(asm, &[addi(12, 0, 4), addi(17, 0, 64), Instr::Ecall])
}

fn regions_by_labels(alloc: Global, number: u64, regions: u64) -> Result<Bytes, AsmFault>
    requires { number + regions < 1000 }
{
    let mut asm = Assembler::new(alloc);
    let buffer = asm.place_bytes(&[0; 4])?;
    asm.address(9, buffer)?;
    asm.emit(addi(8, 0, 0))?;
    for index in 0..regions {
        region(&mut asm, number, index)?;
    }
    emit_all(&mut asm, &[addi(10, 0, 0), addi(17, 0, 93), Instr::Ecall])?;
    asm.finish()
}

/// The generated program is the one that labels give.
#[test]
fn generates_regions(rt: HostRuntime) -> Result<(), Fail> {
    let image = generate(rt.alloc(), 1, 6)?;
    let expected = regions_by_labels(rt.alloc(), 1, 6)?;
    assert_eq!(rt; image.as_slice(), expected.as_slice());
    Ok(())
}
