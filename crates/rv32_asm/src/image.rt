//! Small executable images (System V ABI, chapters "Object Files" and "Program Loading", ELF32).

ghost use Rattle.std.specs.Prelude.{◌≡◌, ◌+◌, ◌*◌, ◌<◌, ◌≤◌, ◌++◌, [], length, OnOk, IfOk, IsOkAnd};
ghost use Rattle.guest_model.specs.Image.{image};
ghost use Rattle.guest_model.specs.ImageFault.{Entry};
ghost use Rattle.rv32_asm.specs.SmallImage.{word_bytes, program_header, headers, size_of, small_image, Holds};

use guest_model::{Bytes, NoMemory};
use std::alloc::Global;

/// The most bytes of words and placed bytes together: 16 MiB.
pub const SIZE_LIMIT: usize = 16_777_216;

/// Where the words stand in memory, and where the program starts.
pub const BASE: u32 = 0x1_0000;

/// An executable file for RISC-V of 32 bits, little-endian, with one program header behind this one.
const ELF_HEADER: [u8; 52] = [
    0x7F, b'E', b'L', b'F', 1, 1, 1, 0, 0, 0, 0, 0, 0, 0, 0, 0, //
    2, 0, 243, 0, 1, 0, 0, 0, 0, 0, 1, 0, 52, 0, 0, 0, //
    0, 0, 0, 0, 0, 0, 0, 0, 52, 0, 32, 0, 1, 0, 0, 0, //
    0, 0, 0, 0,
];

/// The length of both headers.
const HEADERS_LEN: usize = 84;

/// p_type, p_offset, p_vaddr, p_paddr, p_filesz, p_memsz, p_flags and p_align of the one segment.
fn program_header(size: u32) -> [u32; 8]
    ensures { result ≡ program_header size }
{
    [1, 84, BASE, BASE, size, size, 7, 4]
}

/// Adds words, each little-endian.
///
/// # Errors
/// `NoMemory`; some of the words may then have been added.
pub fn push_words(bytes: &mut Vec<u8>, words: &[u32]) -> Result<(), NoMemory>
    ensures { OnOk result (bytes.new.items ≡ bytes.old.items ++ word_bytes words.now) }
{
    for word in words {
        bytes.extend_from_slice(&word.to_le_bytes())?;
    }
    Ok(())
}

/// The headers of an image of `size` bytes, with room for these.
#[tactic(auto, unfolding(crate::specs::SmallImage::headers))]
pub fn begin_image(alloc: Global, size: u32) -> Result<Vec<u8>, NoMemory>
    ensures { IfOk result (λ v. v.items ≡ headers size) }
{
    let mut bytes = Vec::with_capacity(alloc, HEADERS_LEN + size as usize)?;
    bytes.extend_from_slice(&ELF_HEADER)?;
    push_words(&mut bytes, &program_header(size))?;
    Ok(bytes)
}

/// The small image of words with placed bytes behind them.
#[tactic(auto, unfolding(crate::specs::SmallImage::small_image))]
pub fn image_of(alloc: Global, words: &[u32], placed: &[u8]) -> Result<Bytes, NoMemory>
    requires { size_of words.now placed.now ≤ 16777216 }
    ensures { IfOk result (λ b. b ≡ small_image words.now placed.now) }
{
    let size = words.len() * 4 + placed.len();
    let mut bytes = begin_image(alloc, size as u32)?;
    push_words(&mut bytes, words)?;
    bytes.extend_from_slice(placed)?;
    Ok(Bytes::from_vec(bytes))
}

/// The small image of these words: an ELF32 file for RISC-V with one segment, which puts them at 0x10000, where the
/// program starts.
///
/// # Errors
/// `NoMemory` where there is no room for the image.
pub fn small_image(alloc: Global, words: &[u32]) -> Result<Bytes, NoMemory>
    requires { 4 * length words.now ≤ 16777216 }
    ensures value { IfOk result (λ b. b ≡ small_image words.now []) }
    ensures loads { IfOk result (λ b. 0 < length words.now → IsOkAnd (image b) (Holds words.now [])) }
    ensures empty { IfOk result (λ b. length words.now ≡ 0 → image b ≡ Err Entry) }
{
    image_of(alloc, words, &[])
}
