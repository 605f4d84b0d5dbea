ghost use Rattle.std.specs.Prelude.{◌≡◌, ◌+◌, ◌%◌, ◌^◌, ◌≤◌};

use super::serve;
use crate::served::Served;
use guest_model::{Area, Bytes, FlatMemory, Heap, Memory, NoMemory};
use std::alloc::Global;
use std::test::Fail;

const STACK: u32 = 0x7FF0_0000;

const STACK_SIZE: usize = 1 << 20;

/// A memory of this many zeros.
fn zeros(alloc: Global, base: u32, size: usize) -> Result<FlatMemory, NoMemory>
    requires base { base % 4096 ≡ 0 }
    requires size { size % 4096 ≡ 0 }
    requires end { base + size ≤ 2 ^ 32 }
{
    let bytes = Bytes::from_vec(vec![in alloc; 0; size]?);
    FlatMemory::from_areas(alloc, &[Area { base, bytes }])
}

fn error(number: i32) -> Served {
    Served::Answer(number.cast_unsigned())
}

#[test]
fn answers_by_the_table(rt: HostRuntime) -> Result<(), Fail> {
    let mut memory = zeros(rt.alloc(), STACK, STACK_SIZE)?;
    let sp = 0x7FFF_FF00;
    for (number, a0, a1, a2, want) in [
        (
            64,
            1,
            STACK,
            1_048_577,
            Served::Wrote {
                stream: 1,
                at: STACK,
                count: 1_048_576,
            },
        ),
        (64, 1, STACK + 1, 1_048_576, error(-14)),
        (
            64,
            2,
            sp,
            1,
            Served::Wrote {
                stream: 2,
                at: sp,
                count: 1,
            },
        ),
        (64, 3, sp, 1, error(-9)),
        (63, 0, 0, 0, Served::Answer(0)),
        (63, 0, 0, 1, error(-14)),
        (63, 1, sp, 1, error(-9)),
        (93, 7, 0, 0, Served::Exit(7)),
        (94, 8, 0, 0, Served::Exit(8)),
        (2000, 0, 0, 0, Served::FastTrack),
        (2001, 0, 0, 0, Served::EndDual),
        (999, 0, 0, 0, error(-38)),
    ] {
        let mut heap = Heap {
            start: 0,
            size: 0,
            brk: 0,
        };
        let mut place = 0;
        let served = serve(
            number,
            a0,
            a1,
            a2,
            &mut memory,
            &mut heap,
            b"abc".as_slice(),
            &mut place,
        );
        assert_eq!(rt; served, want, "service {number}");
    }
    Ok(())
}

#[test]
fn reads_what_is_left(rt: HostRuntime) -> Result<(), Fail> {
    let mut memory = zeros(rt.alloc(), 0x1000, 0x1000)?;
    let mut heap = Heap {
        start: 0,
        size: 0,
        brk: 0,
    };
    let mut place = 1;
    let served = serve(
        63,
        0,
        0x1FFC,
        4,
        &mut memory,
        &mut heap,
        b"abc".as_slice(),
        &mut place,
    );
    assert_eq!(rt; served, Served::Answer(2));
    assert_eq!(rt; place, 3);
    assert_eq!(rt; memory.load32(0x1FFC), Some(0x6362));
    Ok(())
}

#[test]
fn moves_the_break(rt: HostRuntime) -> Result<(), Fail> {
    let mut memory = zeros(rt.alloc(), 0x1000, 0x1000)?;
    let mut heap = Heap {
        start: 0x1000,
        size: 0x1000,
        brk: 0x1000,
    };
    for (at, want) in [
        (0, 0x1000),
        (0x2000, 0x2000),
        (0x2001, 0x2000),
        (0x1010, 0x1010),
    ] {
        let mut place = 0;
        let served = serve(
            214,
            at,
            0,
            0,
            &mut memory,
            &mut heap,
            b"".as_slice(),
            &mut place,
        );
        assert_eq!(rt; served, Served::Answer(want));
    }
    Ok(())
}
