ghost use Rattle.std.specs.Prelude.{None};

use crate::{
    CalmFiles, CalmSource, CountSink, Failed, Files, MemoryFiles, MemorySink, MemorySource,
    RealFiles, RealInput, RealNotes, RealOutput, Sink, Source, Took, take_file, take_source,
    write_whole,
};
use basic_types::{Bytes, NoMemory};
use std::alloc::Global;
use std::test::Fail;

fn bytes_from(alloc: Global, text: &[u8]) -> Result<Bytes, NoMemory> {
    let mut bytes = Bytes::new(alloc);
    bytes.append(text)?;
    Ok(bytes)
}

/// The bytes that were taken, or the answer in words.
fn answer(took: &Took) -> &[u8] {
    match took {
        Took::Whole(bytes) => bytes.as_slice(),
        Took::TooLong => b"too long",
        Took::Failed => b"failed",
        Took::NoMemory => b"no memory",
    }
}

#[test]
fn takes_files_and_sources_in_memory(rt: HostRuntime) -> Result<(), Fail> {
    let alloc = rt.alloc();
    // The call that fails, if it is below 9; the limit; the answer for the bytes `abcde`.
    let rows: [(u64, u64, &[u8]); 8] = [
        (9, 6, b"abcde"),
        (9, 5, b"abcde"),
        (9, 4, b"too long"),
        (9, 0, b"too long"),
        (0, 5, b"failed"),
        (1, 5, b"failed"),
        (1, 4, b"too long"),
        (2, 5, b"abcde"),
    ];
    for (failing, limit, want) in rows {
        let mut files = MemoryFiles::new(alloc, vec![in alloc; failing]?);
        files.add(
            String::from_str(alloc, "image")?,
            bytes_from(alloc, b"abcde")?,
        )?;
        let took = take_file(alloc, &mut files, "image", limit);
        assert_eq!(rt; answer(&took), want, "file, {failing}, {limit}");

        let mut source = MemorySource::new(bytes_from(alloc, b"abcde")?, vec![in alloc; failing]?);
        let took = take_source(alloc, &mut source, limit);
        assert_eq!(rt; answer(&took), want, "source, {failing}, {limit}");
    }
    let mut none = MemoryFiles::new(alloc, Vec::new(alloc));
    let took = take_file(alloc, &mut none, "image", 5);
    assert_eq!(rt; answer(&took), b"failed".as_slice());
    Ok(())
}

#[test]
fn takes_calm_files_and_sources(rt: HostRuntime) -> Result<(), Fail> {
    let alloc = rt.alloc();
    let mut files = CalmFiles::new(alloc);
    files.add(String::from_str(alloc, "a")?, bytes_from(alloc, b"old")?)?;
    files.add(String::from_str(alloc, "a")?, bytes_from(alloc, b"new")?)?;
    let took = take_file(alloc, &mut files, "a", 3);
    assert_eq!(rt; answer(&took), b"new".as_slice());
    let took = take_file(alloc, &mut files, "b", 3);
    assert_eq!(rt; answer(&took), b"".as_slice());

    let mut source = CalmSource::new(bytes_from(alloc, b"abc")?);
    let took = take_source(alloc, &mut source, 3);
    assert_eq!(rt; answer(&took), b"abc".as_slice());
    let took = take_source(alloc, &mut source, 3);
    assert_eq!(rt; answer(&took), b"".as_slice());
    Ok(())
}

/// A source that tells nothing, and gives one byte at a call.
#[derive(Drop)]
struct Trickle {
    left: u64,
    calls: u64,
}

impl Source for Trickle {
    ghost remaining = { λ _. None };

    ghost faults = { λ _. 0 };

    fn read(&mut self, into: &mut [u8]) -> Result<usize, Failed> {
        self.calls = self.calls.saturating_add(1);
        if self.left == 0 || into.is_empty() {
            return Ok(0);
        }
        self.left -= 1;
        into[0] = b'x';
        Ok(1)
    }
}

#[test]
fn makes_few_calls(rt: HostRuntime) {
    // The bytes that are left, the limit, the answer and the calls of read that it takes.
    let rows: [(u64, u64, &[u8], u64); 3] = [
        (3, 3, b"xxx", 4),
        (3, 2, b"too long", 3),
        (0, 0, b"", 1),
    ];
    for (left, limit, want, calls) in rows {
        let mut source = Trickle { left, calls: 0 };
        let took = take_source(rt.alloc(), &mut source, limit);
        assert_eq!(rt; answer(&took), want);
        assert_eq!(rt; source.calls, calls);
    }
}

#[test]
fn writes_whole(rt: HostRuntime) -> Result<(), Fail> {
    let alloc = rt.alloc();
    // The room, the call that fails, and what is written of `abc` and then `def`.
    let rows: [(usize, u64, &[u8], bool); 4] = [
        (6, 9, b"abcdef", true),
        (4, 9, b"abcd", false),
        (6, 1, b"abc", false),
        (6, 2, b"abcdef", true),
    ];
    for (room, failing, want, whole) in rows {
        let mut sink = MemorySink::new(alloc, room, vec![in alloc; failing]?)?;
        write_whole(&mut sink, b"abc")?;
        assert_eq!(rt; write_whole(&mut sink, b"def").is_ok(), whole);
        assert_eq!(rt; sink.written(), want);
    }
    let mut count = CountSink::new();
    write_whole(&mut count, b"abc")?;
    write_whole(&mut count, b"de")?;
    assert_eq!(rt; count.count(), 5);
    Ok(())
}

#[test]
fn reads_and_writes_the_system(rt: HostRuntime) -> Result<(), Fail> {
    let mut files = RealFiles::new(&rt);
    let mut magic = [0; 3];
    assert_eq!(rt; files.read("/proc/self/exe", 1, &mut magic)?, 3);
    assert_eq!(rt; magic, *b"ELF");
    let took = take_file(rt.alloc(), &mut files, "/dev/zero", 600_000);
    assert_eq!(rt; answer(&took), b"too long".as_slice());
    let took = take_file(rt.alloc(), &mut files, "/dev/null", 0);
    assert_eq!(rt; answer(&took), b"".as_slice());
    let took = take_file(rt.alloc(), &mut files, "/no/such/file", 9);
    assert_eq!(rt; answer(&took), b"failed".as_slice());

    assert_eq!(rt; RealInput::new(&rt).read(&mut [])?, 0);
    write_whole(&mut RealOutput::new(&rt), b"standard output is written\n")?;
    assert_eq!(rt; RealOutput::new(&rt).write(b"")?, 0);
    write_whole(&mut RealNotes::new(&rt), b"standard error is written\n")?;
    Ok(())
}
