//! What no clause says: files read and refused, the lines of a worked program, and a sink that fails.

use crate::{CountsFault, MOST_BYTES, MOST_LINES, StateRequest, read_counts, write_states};
use elf32_loader::{Loaded, load};
use guest_streams::OutputFault;
use host_io::MemorySink;
use rv32_asm::small_image;
use std::alloc::Global;
use std::test::Fail;

/// A sum by a loop, and then the exit with it, with instruction 40.
const SUM: [u32; 15] = [
    0x7D00_0893,
    0x0000_0073,
    0x0005_1E63,
    0x0000_0513,
    0x00A0_0293,
    0x0055_0533,
    0xFFF2_8293,
    0xFE02_9CE3,
    0x00C0_006F,
    0x0370_0513,
    0x0000_0293,
    0x7D10_0893,
    0x0000_0073,
    0x05D0_0893,
    0x0000_0073,
];

#[test]
fn reads_a_file(rt: HostRuntime) -> Result<(), Fail> {
    let text = b"37\n0\n1099511627776 ffffffff 256\n100 00010000 4\n100 0001a000 1\n";
    let requests = read_counts(rt.alloc(), text)?;
    let expected = [
        (37, None),
        (0, None),
        (1_099_511_627_776, Some((0xFFFF_FFFF, 256))),
        (100, Some((0x1_0000, 4))),
        (100, Some((0x1_A000, 1))),
    ];
    assert_eq!(rt; requests.len(), expected.len());
    for (request, (count, bytes)) in requests.iter().zip(expected) {
        assert_eq!(rt; *request, StateRequest { count, bytes });
    }
    Ok(())
}

#[test]
fn refuses_files(rt: HostRuntime) -> Result<(), Fail> {
    let table = [
        ("", 1),
        ("\n", 1),
        ("5\n05\n", 2),
        ("5\n5", 2),
        ("5\n6\n\n", 3),
        ("5\n\r\n6\n+\n", 2),
        ("5\r\n", 1),
        ("5 \n", 1),
        (" 5\n", 1),
        ("+5\n", 1),
        ("-5\n", 1),
        ("00\n", 1),
        ("1099511627777\n", 1),
        ("18446744073709551616\n", 1),
        ("5 00010000\n", 1),
        ("5 00010000 \n", 1),
        ("5 00010000 0\n", 1),
        ("5 00010000 04\n", 1),
        ("5 00010000 257\n", 1),
        ("5 00010000 4294967297\n", 1),
        ("5 00010000 4 4\n", 1),
        ("5  00010000 4\n", 1),
        ("5 0001A000 4\n", 1),
        ("5 0x010000 4\n", 1),
        ("5 0010000 4\n", 1),
        ("5 000010000 4\n", 1),
        ("5 +0010000 4\n", 1),
    ];
    for (text, line) in table {
        let read = read_counts(rt.alloc(), text.as_bytes());
        assert_eq!(rt; read.err(), Some(CountsFault::Line(line)), "{text}");
    }
    let no_text = read_counts(rt.alloc(), b"5\n\xff\n");
    assert_eq!(rt; no_text.err(), Some(CountsFault::Line(2)));
    Ok(())
}

/// This line so many times, and then this end.
fn lines(alloc: Global, line: &[u8], times: usize, end: &[u8]) -> Result<Vec<u8>, Fail> {
    let mut text = Vec::new(alloc);
    for _time in 0..times {
        text.extend_from_slice(line)?;
    }
    text.extend_from_slice(end)?;
    Ok(text)
}

#[test]
fn reads_as_many_lines_as_may_be(rt: HostRuntime) -> Result<(), Fail> {
    let alloc = rt.alloc();
    let longest = b"1099511627776 00010000 256\n";
    let text = lines(alloc, longest, MOST_LINES, b"")?;
    assert_eq!(rt; text.len(), MOST_BYTES);
    let requests = read_counts(alloc, text.as_slice())?;
    assert_eq!(rt; requests.len(), MOST_LINES);
    for (line, times, end, fault) in [
        (longest.as_slice(), MOST_LINES, b"5".as_slice(), 0),
        (b"05\n".as_slice(), 9_216, b"5".as_slice(), 0),
        (b"5\n".as_slice(), MOST_LINES, b"5".as_slice(), 1_025),
        (b"5\n".as_slice(), MOST_LINES, b"5\n".as_slice(), 1_025),
        (b"5\n".as_slice(), MOST_LINES - 1, b"5".as_slice(), 1_024),
    ] {
        let text = lines(alloc, line, times, end)?;
        let read = read_counts(alloc, text.as_slice());
        assert_eq!(rt; read.err(), Some(CountsFault::Line(fault)));
    }
    Ok(())
}

#[test]
fn tells_faults(rt: HostRuntime) -> Result<(), Fail> {
    let fault = CountsFault::Line(1_025);
    let text = format!(in rt.alloc(); "{fault}")?;
    assert_eq!(rt; text.as_str(), "bad counts: line 1025");
    Ok(())
}

fn sum_program(alloc: Global) -> Result<Loaded, Fail> {
    let image = small_image(alloc, &SUM)?;
    Ok(load(alloc, image.as_slice())?)
}

const ROW_AT_37: &str = "at 37 taken 37 pc 00010030 place 0 break 00011000\n\
    x1 00000000 x2 7fffff00 x3 00000000 x4 00000000 x5 00000000 x6 00000000 x7 00000000 x8 \
    00000000 x9 00000000 x10 00000037 x11 00000000 x12 00000000 x13 00000000 x14 00000000 x15 \
    00000000 x16 00000000 x17 000007d1 x18 00000000 x19 00000000 x20 00000000 x21 00000000 x22 \
    00000000 x23 00000000 x24 00000000 x25 00000000 x26 00000000 x27 00000000 x28 00000000 x29 \
    00000000 x30 00000000 x31 00000000\n\
    end spent\n";

const ROW_AT_100: &str = "at 100 taken 40 pc 00010038 place 0 break 00011000\n\
    x1 00000000 x2 7fffff00 x3 00000000 x4 00000000 x5 00000000 x6 00000000 x7 00000000 x8 \
    00000000 x9 00000000 x10 00000037 x11 00000000 x12 00000000 x13 00000000 x14 00000000 x15 \
    00000000 x16 00000000 x17 0000005d x18 00000000 x19 00000000 x20 00000000 x21 00000000 x22 \
    00000000 x23 00000000 x24 00000000 x25 00000000 x26 00000000 x27 00000000 x28 00000000 x29 \
    00000000 x30 00000000 x31 00000000\n\
    end exit 55\n\
    bytes 00010000 9308007d\n";

const ROW_AT_0: &str = "at 0 taken 0 pc 00010000 place 0 break 00011000\n\
    x1 00000000 x2 7fffff00 x3 00000000 x4 00000000 x5 00000000 x6 00000000 x7 00000000 x8 \
    00000000 x9 00000000 x10 00000000 x11 00000000 x12 00000000 x13 00000000 x14 00000000 x15 \
    00000000 x16 00000000 x17 00000000 x18 00000000 x19 00000000 x20 00000000 x21 00000000 x22 \
    00000000 x23 00000000 x24 00000000 x25 00000000 x26 00000000 x27 00000000 x28 00000000 x29 \
    00000000 x30 00000000 x31 00000000\n\
    end spent\n\
    bytes ffffffff unmapped\n";

#[test]
fn writes_states_in_order(rt: HostRuntime) -> Result<(), Fail> {
    let alloc = rt.alloc();
    let loaded = sum_program(alloc)?;
    for (text, expected) in [
        ("37\n", format!(in alloc; "{ROW_AT_37}")?),
        ("100 00010000 4\n", format!(in alloc; "{ROW_AT_100}")?),
        (
            "100 00010000 4\n0 ffffffff 2\n37\n",
            format!(in alloc; "{ROW_AT_100}{ROW_AT_0}{ROW_AT_37}")?,
        ),
    ] {
        let requests = read_counts(alloc, text.as_bytes())?;
        let mut out = MemorySink::new(alloc, 4_096, Vec::new(alloc))?;
        let written = write_states(alloc, &loaded, &[], requests.as_slice(), &mut out);
        assert_eq!(rt; written, Ok(()));
        assert_eq!(rt; out.written(), expected.as_bytes());
    }
    Ok(())
}

/// Each call writes the lines of one state, so that the sink has those before the call that fails.
#[test]
fn stops_where_the_sink_fails(rt: HostRuntime) -> Result<(), Fail> {
    let alloc = rt.alloc();
    let loaded = sum_program(alloc)?;
    let requests = read_counts(alloc, b"37\n100 00010000 4\n37\n")?;
    let all = format!(in alloc; "{ROW_AT_37}{ROW_AT_100}{ROW_AT_37}")?;
    let lengths = [0, ROW_AT_37.len(), ROW_AT_37.len() + ROW_AT_100.len()];
    for (call, length) in lengths.iter().enumerate() {
        let failing = vec![in alloc; call as u64]?;
        let mut out = MemorySink::new(alloc, 4_096, failing)?;
        let written = write_states(alloc, &loaded, &[], requests.as_slice(), &mut out);
        assert_eq!(rt; written, Err(OutputFault::Write), "call {call}");
        assert_eq!(rt; Some(out.written()), all.as_bytes().get(..*length));
    }
    Ok(())
}
