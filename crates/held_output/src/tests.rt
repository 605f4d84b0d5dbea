//! What no clause says: the worked bytes under their limits, runs of one stream as chunks, and pieces parted by limits.

ghost use Rattle.std.specs.Prelude.{◌≡◌, ◌+◌, ◌%◌, ◌^◌, ◌<◌, ◌≤◌, All, OnOk, length};
ghost use Rattle.held_output.specs.Held.{IsStream};

use crate::{Bytes, Chunks, Held, NoMemory};
use guest_model::{Area, FlatMemory, Memory};
use std::alloc::Global;
use std::process::Abort;
use std::test::Fail;

const AT: u32 = 0x1000;

/// Zeros.
fn zeros(alloc: Global, base: u32, size: usize) -> Result<FlatMemory, NoMemory>
    requires base { base % 4096 ≡ 0 }
    requires size { size % 4096 ≡ 0 }
    requires end { base + size ≤ 2 ^ 32 }
{
    let bytes = Bytes::from_vec(vec![in alloc; 0; size]?);
    FlatMemory::from_areas(alloc, &[Area { base, bytes }])
}

/// A page that begins with this text.
fn page(alloc: Global, text: &[u8]) -> Result<FlatMemory, Fail>
    requires { length text.now < 2 ^ 32 }
{
    let mut memory = zeros(alloc, AT, 4096)?;
    let _stored = memory.copy_in(AT, text);
    Ok(memory)
}

/// Holds back the `count` bytes of the page from `at` on.
fn write(
    rt: &impl Abort,
    held: &mut Held,
    memory: &FlatMemory,
    number: u64,
    stream: u8,
    at: u32,
    count: u32,
) -> Result<(), Fail>
    requires above { All (λ p. p.number < number) held.old }
    requires stream { IsStream stream }
    ensures { OnOk result (All (λ p. p.number < number + 1) held.new) }
{
    assert!(rt; memory.mapped(at, count));
    assert!(rt; held.size() < 100);
    held.push(number, stream, memory, at, count)?;
    Ok(())
}

fn shows(chunks: &Chunks, wanted: &[(u8, &str)]) -> bool {
    let chunks = chunks.as_slice();
    chunks.len() == wanted.len()
        && chunks.iter().zip(wanted).all(|(chunk, (stream, text))| chunk.stream == *stream
            && chunk.bytes.as_slice() == text.as_bytes())
}

/// The two pieces of a program that writes `7` with its instructions 7 and 9.
#[test]
fn gives_the_bytes_up_to_a_limit(rt: HostRuntime) -> Result<(), Fail> {
    let memory = page(rt.alloc(), b"7")?;
    let mut held = Held::new(rt.alloc());
    write(&rt, &mut held, &memory, 7, 1, AT, 1)?;
    write(&rt, &mut held, &memory, 9, 1, AT, 1)?;
    for (limit, size, wanted) in [
        (6, 0, [].as_slice()),
        (7, 1, [(1, "7")].as_slice()),
        (9, 2, [(1, "77")].as_slice()),
    ] {
        let mut chunks = Chunks::new(rt.alloc());
        held.append_bytes(limit, &mut chunks)?;
        assert!(rt; shows(&chunks, wanted));
        assert_eq!(rt; chunks.size(), size);
    }
    Ok(())
}

/// The pieces `ab` and `c` on stream 1 with one without bytes between them, `d` on stream 2, and `e` on stream 1.
fn mixed(rt: &impl Abort, alloc: Global) -> Result<Held, Fail> {
    let memory = page(alloc, b"abcde")?;
    let mut held = Held::new(alloc);
    write(rt, &mut held, &memory, 1, 1, AT, 2)?;
    write(rt, &mut held, &memory, 2, 2, AT, 0)?;
    write(rt, &mut held, &memory, 4, 1, AT + 2, 1)?;
    write(rt, &mut held, &memory, 5, 2, AT + 3, 1)?;
    write(rt, &mut held, &memory, 8, 1, AT + 4, 1)?;
    Ok(held)
}

#[test]
fn joins_runs_of_one_stream(rt: HostRuntime) -> Result<(), Fail> {
    let held = mixed(&rt, rt.alloc())?;
    let mut chunks = Chunks::new(rt.alloc());
    assert!(rt; chunks.is_empty());
    for (limit, wanted) in [
        (0, [].as_slice()),
        (2, [(1, "ab")].as_slice()),
        (5, [(1, "ababc"), (2, "d")].as_slice()),
        (
            9,
            [(1, "ababc"), (2, "d"), (1, "abc"), (2, "d"), (1, "e")].as_slice(),
        ),
    ] {
        held.append_bytes(limit, &mut chunks)?;
        assert!(rt; shows(&chunks, wanted), "up to {limit}");
    }
    assert_eq!(rt; chunks.size(), 11);
    Ok(())
}

#[test]
fn parts_pieces_by_a_limit(rt: HostRuntime) -> Result<(), Fail> {
    for (limit, size, left) in [(0, 0, 5), (1, 2, 3), (3, 2, 3), (4, 3, 2), (9, 5, 0)] {
        let mut held = mixed(&rt, rt.alloc())?;
        assert_eq!(rt; held.size_upto(limit), size);
        let taken = held.cut(limit)?;
        assert_eq!(rt; (taken.size(), held.size()), (size, left), "cut at {limit}");
        let mut held = mixed(&rt, rt.alloc())?;
        held.discard(limit);
        assert_eq!(rt;
            (held.size(), held.is_empty()),
            (left, left == 0),
            "discarded at {limit}"
        );
    }
    Ok(())
}
