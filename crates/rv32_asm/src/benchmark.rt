//! A program for benches: a row of regions.

ghost use Rattle.std.specs.Prelude.{◌≡◌, ◌+◌, ◌*◌, ◌<◌, ◌≤◌, ◌++◌, ◌==◌, ◌^◌, ℕ, if◌then◌else◌, All, length, map, vec_len, slice_index, OnOk, IfOk, IsOkAnd};
ghost use Rattle.rv32_asm.specs.Encoding.{encoding, IsInRange, IsShortOffset, IsBranchOffset, IsJumpOffset};
ghost use Rattle.rv32_asm.specs.Constant.{upper_part};
ghost use Rattle.guest_model.specs.Image.{image};
ghost use Rattle.rv32_asm.specs.Generated.{addi, turns, kind, opening, original, shortcut, closing, versions, region, all_regions, prologue, epilogue, words_around, generated_words, zeros, generated};
ghost use Rattle.rv32_asm.specs.SmallImage.{small_image, Holds};

use crate::constant::{lower_part, upper_part};
use crate::image::{BASE, begin_image, push_words};
use crate::mnemonics::{A0, A1, A2, A7, S0, S1, T0, ZERO, addi, bne, jal, lui};
use crate::words::encode;
use guest_model::{Bytes, Cond, ImmOp, Instr, NoMemory, RegOp, StoreWidth, UpperOp};
use std::alloc::Global;

/// The words of the program before and behind its regions.
const OUTSIDE_REGIONS: usize = 6;

/// Adds the words of instructions.
///
/// # Errors
/// `NoMemory`; some of the words may then have been added.
fn push(words: &mut Vec<u32>, instrs: &[Instr]) -> Result<(), NoMemory>
    requires { All IsInRange instrs.now }
    ensures { OnOk result (words.new.items ≡ words.old.items ++ map encoding instrs.now) }
{
    for instr in instrs {
        words.push(encode(*instr))?;
    }
    Ok(())
}

/// The call that begins a region, and the branch past the original.
fn opening() -> [Instr; 3]
    ensures value { result ≡ opening }
    ensures range { All IsInRange result }
{
    [addi(A7, ZERO, 2000), Instr::Ecall, bne(A0, ZERO, 32)]
}

/// Adds 3 to a0 in each turn, counting t0 down to 0.
fn original(turns: u32, to_end: i32) -> [Instr; 7]
    requires { IsJumpOffset to_end }
    ensures value { result ≡ original turns to_end }
    ensures range { All IsInRange result }
{
    [
        lui(T0, turns),
        addi(T0, T0, lower_part(turns)),
        addi(A0, ZERO, 0),
        addi(A0, A0, 3),
        addi(T0, T0, -1),
        bne(T0, ZERO, -8),
        jal(ZERO, to_end),
    ]
}

/// The sum at once.
fn shortcut(sum: u32) -> [Instr; 4]
    ensures value { result ≡ shortcut sum }
    ensures range { All IsInRange result }
{
    [
        lui(A0, sum),
        addi(A0, A0, lower_part(sum)),
        addi(T0, ZERO, 0),
        jal(ZERO, 4),
    ]
}

/// The call that ends a region, and the writing of the sum so far.
fn closing() -> [Instr; 9]
    ensures value { result ≡ closing }
    ensures range { All IsInRange result }
{
    let add = Instr::Op {
        op: RegOp::Add,
        rd: S0,
        rs1: S0,
        rs2: A0,
    };
    let store = Instr::Store {
        width: StoreWidth::W,
        rs1: S1,
        rs2: S0,
        offset: 0,
    };
    [
        addi(A7, ZERO, 2001),
        Instr::Ecall,
        add,
        store,
        addi(A0, ZERO, 1),
        addi(A1, S1, 0),
        addi(A2, ZERO, 4),
        addi(A7, ZERO, 64),
        Instr::Ecall,
    ]
}

/// How often the loop of a region turns.
fn turns(number: u32, index: u32) -> u32
    requires { index < 4096 }
    ensures value { result ≡ turns number index }
    ensures bound { result < 10064 }
{
    10_000 + ((number as u64 + 7 * index as u64) % 64) as u32
}

/// The kind of a region, 0 to 3.
fn kind(number: u32, index: u32) -> u32
    requires { index < 4096 }
    ensures { result ≡ kind number index }
{
    ((number as u64 + index as u64) % 4) as u32
}

/// What the fast version of a region answers.
fn shortcut_sum(kind: u32, turns: u32) -> u32
    requires { turns < 10064 }
    ensures { result ≡ (if kind == 2 then 3 * turns + 1 else 3 * turns) }
{
    let sum = 3 * turns;
    if kind == 2 { sum + 1 } else { sum }
}

/// The original, and the fast version behind it.
fn push_versions(words: &mut Vec<u32>, kind: u32, turns: u32) -> Result<(), NoMemory>
    requires { turns < 10064 }
    ensures { OnOk result (words.new.items ≡ words.old.items ++ map encoding (versions kind turns)) }
{
    if kind == 3 {
        push(words, &original(turns, 8))?;
        return push(words, &[jal(ZERO, 0)]);
    }
    push(words, &original(turns, 20))?;
    push(words, &shortcut(shortcut_sum(kind, turns)))
}

fn push_region(words: &mut Vec<u32>, number: u32, index: u32) -> Result<(), NoMemory>
    requires { index < 4096 }
    ensures { OnOk result (words.new.items ≡ words.old.items ++ map encoding (region number index)) }
{
    push(words, &opening())?;
    push_versions(words, kind(number, index), turns(number, index))?;
    push(words, &closing())
}

/// The words of all regions.
fn region_words(alloc: Global, number: u32, regions: u32) -> Result<Vec<u32>, NoMemory>
    requires { regions ≤ 4096 }
    ensures value { IfOk result (λ v. v.items ≡ map encoding (all_regions number regions)) }
    ensures bound { IfOk result (λ v. vec_len v ≤ 23 * regions) }
{
    let mut words = Vec::new(alloc);
    for index in 0..regions {
        push_region(&mut words, number, index)?;
    }
    Ok(words)
}

/// The address of the buffer into s1, and 0 into s0.
fn prologue(buffer: u32) -> [u32; 3]
    ensures value { result ≡ map encoding (prologue buffer) }
    ensures words { (k : ℕ) → slice_index result k < 2 ^ 32 }
{
    [
        encode(lui(S1, buffer)),
        encode(addi(S1, S1, lower_part(buffer))),
        encode(addi(S0, ZERO, 0)),
    ]
}

/// Exit with 0.
fn epilogue() -> [u32; 3]
    ensures value { result ≡ map encoding epilogue }
    ensures words { (k : ℕ) → slice_index result k < 2 ^ 32 }
{
    [
        encode(addi(A0, ZERO, 0)),
        encode(addi(A7, ZERO, 93)),
        encode(Instr::Ecall),
    ]
}

/// The image of the program with the words of its regions.
fn image_around(alloc: Global, body: &[u32]) -> Result<Bytes, NoMemory>
    requires { length body.now ≤ 100000 }
    ensures value { IfOk result (λ b. b ≡ small_image (words_around body.now) zeros) }
    ensures loads { IfOk result (λ b. IsOkAnd (image b) (Holds (words_around body.now) zeros)) }
{
    let code_len = 4 * (OUTSIDE_REGIONS + body.len()) as u32;
    let mut bytes = begin_image(alloc, code_len + 4)?;
    push_words(&mut bytes, &prologue(BASE + code_len))?;
    push_words(&mut bytes, body)?;
    push_words(&mut bytes, &epilogue())?;
    bytes.extend_from_slice(&[0; 4])?;
    Ok(Bytes::from_vec(bytes))
}

/// The image of a program with this many regions, of which the number chooses the lengths and the kinds.
///
/// The original of region i adds 3 in each of `10000 + (number + 7 * i) % 64` turns. The fast version of every fourth
/// region has no end, that of every fourth gives one more than the original, and the others give the same at once.
/// Each region writes the sum of the answers so far, 4 bytes little-endian. The program exits with 0.
///
/// # Errors
/// `NoMemory` where there is no room for the image.
pub fn generate(alloc: Global, number: u32, regions: u32) -> Result<Bytes, NoMemory>
    requires { regions ≤ 4096 }
    ensures value { IfOk result (λ b. b ≡ generated number regions) }
    ensures loads { IfOk result (λ b. IsOkAnd (image b) (Holds (generated_words number regions) zeros)) }
{
    let body = region_words(alloc, number, regions)?;
    image_around(alloc, &body)
}
