//! Slices run outside of turns, on several threads at once. No clause says so: it is shown by a gate that lets two slices
//! pass together alone.

use crate::holding::Holding;
use basic_types::Bytes;
use fasttrack_program::{Answer, Histories, fasttrack_main};
use host_io::{MemoryFiles, MemorySink, MemorySource};
use rv32_asm::generate;
use std::alloc::Global;
use std::test::Fail;

/// The words of the call.
const WORDS: [&str; 7] = ["run", "g", "--tracks", "4", "--workers", "1", "--no-input"];

/// What `generate(1, 6)` writes.
const SIX_SUMS: [u8; 24] = [
    0x33, 0x75, 0x00, 0x00, 0x7b, 0xea, 0x00, 0x00, 0xd8, 0x5f, 0x01, 0x00, 0x4a, 0xd5, 0x01, 0x00,
    0xd1, 0x4a, 0x02, 0x00, 0x6d, 0xc0, 0x02, 0x00,
];

fn words(alloc: Global) -> Result<Vec<String>, Fail> {
    let mut words = Vec::new(alloc);
    for word in WORDS {
        words.push(String::from_str(alloc, word)?)?;
    }
    Ok(words)
}

/// The file `g` with the image of a generated program of six regions.
fn files(alloc: Global) -> Result<MemoryFiles, Fail> {
    let mut files = MemoryFiles::new(alloc, Vec::new(alloc));
    files.add(String::from_str(alloc, "g")?, generate(alloc, 1, 6)?)?;
    Ok(files)
}

#[test]
fn slices_run_side_by_side(rt: HostRuntime) -> Result<(), Fail> {
    let alloc = rt.alloc();
    let words = words(alloc)?;
    let mut files = files(alloc)?;
    let mut input = MemorySource::new(Bytes::new(alloc), Vec::new(alloc));
    let mut out = MemorySink::new(alloc, 1_024, Vec::new(alloc))?;
    let mut notes = MemorySink::new(alloc, 1_024, Vec::new(alloc))?;
    let mut told = Histories::new(alloc);
    let gate = Holding::new();
    let answer = fasttrack_main(
        &rt,
        alloc,
        words.as_slice(),
        &mut files,
        &mut input,
        &mut out,
        &mut notes,
        &gate,
        &mut told,
    );
    assert_eq!(rt; answer, Answer::Exited(0));
    assert!(rt; out.written() == SIX_SUMS.as_slice());
    assert!(rt; gate.let_both_pass());
    Ok(())
}
