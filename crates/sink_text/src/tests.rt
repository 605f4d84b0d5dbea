//! Texts on sinks in memory that have room for some bytes alone.

use crate::texts::{write_bytes, write_made, write_text};
use guest_model::NoMemory;
use guest_streams::OutputFault;
use host_io::MemorySink;
use std::test::Fail;

#[test]
fn texts_are_written_whole_or_up_to_the_room(rt: HostRuntime) -> Result<(), Fail> {
    let alloc = rt.alloc();
    for (room, wanted, written) in [
        (3, Ok(()), "abc"),
        (2, Err(OutputFault::Write), "ab"),
        (0, Err(OutputFault::Write), ""),
    ] {
        let mut out = MemorySink::new(alloc, room, Vec::new(alloc))?;
        assert_eq!(rt; write_text("abc", &mut out), wanted);
        assert!(rt; out.written() == written.as_bytes());
    }
    Ok(())
}

#[test]
fn bytes_are_written_as_they_are(rt: HostRuntime) -> Result<(), Fail> {
    let alloc = rt.alloc();
    for (room, wanted, written) in [
        (3, Ok(()), [0xFF, 0, b'\n'].as_slice()),
        (1, Err(OutputFault::Write), &[0xFF]),
    ] {
        let mut out = MemorySink::new(alloc, room, Vec::new(alloc))?;
        assert_eq!(rt; write_bytes(&[0xFF, 0, b'\n'], &mut out), wanted);
        assert_eq!(rt; out.written(), written);
    }
    Ok(())
}

#[test]
fn a_text_without_room_is_not_written(rt: HostRuntime) -> Result<(), Fail> {
    let alloc = rt.alloc();
    let mut out = MemorySink::new(alloc, 3, Vec::new(alloc))?;
    let made = Ok(String::from_str(alloc, "abc")?);
    assert_eq!(rt; write_made(made, &mut out), Ok(()));
    assert_eq!(rt;
        write_made(Err(NoMemory), &mut out),
        Err(OutputFault::NoMemory)
    );
    assert!(rt; out.written() == "abc".as_bytes());
    Ok(())
}
