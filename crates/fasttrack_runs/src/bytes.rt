//! The lines that make bytes.

use crate::fault::Fault;
use rv32_asm::{generate, small_image};
use std::alloc::Global;
use std::collections::BTreeMap;

/// The bytes of a table's blocks, by their names.
pub type Blocks = BTreeMap<String, Vec<u8>>;

/// How many words a program has at most.
const MOST_WORDS: usize = 1000;

/// How many regions a generated program has at most.
const MOST_REGIONS: u32 = 4096;

/// How many times a line repeats the bytes of a block at most.
const MOST_TIMES: usize = 1 << 20;

/// How many bytes a line makes at most.
const MOST_BYTES: usize = 1 << 26;

/// Splits a line behind its first word.
pub fn split_word(line: &str) -> (&str, &str) {
    line.split_once(' ').unwrap_or((line, ""))
}

/// Appends the bytes that a line makes, or changes those before it.
pub fn append_line(
    alloc: Global,
    blocks: &Blocks,
    bytes: &mut Vec<u8>,
    line: &str,
) -> Result<(), Fault> {
    let (kind, rest) = split_word(line);
    match kind {
        "chars" => Ok(bytes.extend_from_slice(rest.as_bytes())?),
        "line" => append_text_line(bytes, rest),
        "hex" => append_hex(bytes, rest),
        "word" => append_word(bytes, rest),
        "zeros" => append_zeros(bytes, rest),
        "all" => Ok(bytes.extend_from_slice(block(blocks, rest)?)?),
        "part" => append_part(blocks, bytes, rest),
        "times" => append_times(blocks, bytes, rest),
        "program" => append_program(alloc, bytes, block(blocks, rest)?),
        "generated" => append_generated(alloc, bytes, rest),
        "at" => overwrite(bytes, rest),
        _ => Err(Fault::Unreadable),
    }
}

/// The bytes of a block.
fn block<'a>(blocks: &'a Blocks, name: &str) -> Result<&'a [u8], Fault> {
    match blocks.get(name) {
        Some(bytes) => Ok(bytes.as_slice()),
        None => Err(Fault::Unreadable),
    }
}

fn append_text_line(bytes: &mut Vec<u8>, text: &str) -> Result<(), Fault> {
    bytes.extend_from_slice(text.as_bytes())?;
    bytes.push(b'\n')?;
    Ok(())
}

fn append_hex(bytes: &mut Vec<u8>, text: &str) -> Result<(), Fault> {
    for word in text.split_whitespace() {
        bytes.push(u8::from_str_radix(word, 16)?)?;
    }
    Ok(())
}

/// The first word of the text is the number; what stands behind it is a remark.
fn append_word(bytes: &mut Vec<u8>, text: &str) -> Result<(), Fault> {
    let (word, _) = split_word(text);
    let word = u32::from_str_radix(word, 16)?;
    bytes.extend_from_slice(&word.to_le_bytes())?;
    Ok(())
}

fn append_zeros(bytes: &mut Vec<u8>, text: &str) -> Result<(), Fault> {
    let count = text.parse::<usize>()?;
    if count > MOST_BYTES || bytes.len() > MOST_BYTES {
        return Err(Fault::Unreadable);
    }
    bytes.resize(bytes.len() + count, 0)?;
    Ok(())
}

/// NAME FROM TO: the bytes of a block from offset FROM on, up to TO.
fn append_part(blocks: &Blocks, bytes: &mut Vec<u8>, text: &str) -> Result<(), Fault> {
    let (name, range) = split_word(text);
    let (from, to) = split_word(range);
    let range = from.parse::<usize>()?..to.parse::<usize>()?;
    match block(blocks, name)?.get(range) {
        Some(part) => Ok(bytes.extend_from_slice(part)?),
        None => Err(Fault::Unreadable),
    }
}

/// COUNT NAME: the bytes of a block so many times.
fn append_times(blocks: &Blocks, bytes: &mut Vec<u8>, text: &str) -> Result<(), Fault> {
    let (count, name) = split_word(text);
    let count = count.parse::<usize>()?;
    let part = block(blocks, name)?;
    if count > MOST_TIMES {
        return Err(Fault::Unreadable);
    }
    for _time in 0..count {
        if bytes.len() > MOST_BYTES {
            return Err(Fault::Unreadable);
        }
        bytes.extend_from_slice(part)?;
    }
    Ok(())
}

/// The small image of the words in a block.
fn append_program(alloc: Global, bytes: &mut Vec<u8>, block: &[u8]) -> Result<(), Fault> {
    let mut words = Vec::new(alloc);
    for word in block.chunks_exact(4) {
        if let [a, b, c, d] = word {
            words.push(u32::from_le_bytes([*a, *b, *c, *d]))?;
        }
    }
    if words.len() > MOST_WORDS || words.len() * 4 != block.len() {
        return Err(Fault::Unreadable);
    }
    let image = small_image(alloc, words.as_slice())?;
    bytes.extend_from_slice(image.as_slice())?;
    Ok(())
}

/// NUMBER REGIONS: the image of the generated program.
fn append_generated(alloc: Global, bytes: &mut Vec<u8>, text: &str) -> Result<(), Fault> {
    let (number, regions) = split_word(text);
    let number = number.parse::<u32>()?;
    let regions = regions.parse::<u32>()?;
    if regions > MOST_REGIONS {
        return Err(Fault::Unreadable);
    }
    let image = generate(alloc, number, regions)?;
    bytes.extend_from_slice(image.as_slice())?;
    Ok(())
}

/// OFFSET BYTE ..: puts these bytes, in hexadecimal, in place of those from the offset on.
fn overwrite(bytes: &mut Vec<u8>, text: &str) -> Result<(), Fault> {
    let (offset, to) = split_word(text);
    let mut at = offset.parse::<usize>()?;
    for word in to.split_whitespace() {
        match bytes.get_mut(at) {
            Some(byte) => *byte = u8::from_str_radix(word, 16)?,
            None => return Err(Fault::Unreadable),
        }
        at = at.saturating_add(1);
    }
    Ok(())
}
