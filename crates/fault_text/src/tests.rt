//! The texts of all faults, letter by letter.

use crate::FaultText;
use elf32_loader::ImageFault;
use std::test::Fail;

#[test]
fn tells_every_fault(rt: HostRuntime) -> Result<(), Fail> {
    let table = [
        (ImageFault::Short, "short"),
        (ImageFault::Magic, "magic"),
        (ImageFault::Class, "class"),
        (ImageFault::ByteOrder, "byte order"),
        (ImageFault::Version, "version"),
        (ImageFault::Kind, "kind"),
        (ImageFault::Machine, "machine"),
        (ImageFault::Headers, "headers"),
        (ImageFault::Dynamic(0), "dynamic 0"),
        (ImageFault::Segment(63), "segment 63"),
        (ImageFault::Overlap(2, 10), "overlap 2 10"),
        (ImageFault::StackOverlap(7), "stack overlap 7"),
        (ImageFault::TooLarge, "too large"),
        (ImageFault::Entry, "entry"),
        (ImageFault::NoMemory, "no memory"),
    ];
    for (fault, expected) in table {
        let fault = FaultText(fault);
        let text = format!(in rt.alloc(); "{fault}")?;
        assert_eq!(rt; text.as_str(), expected);
    }
    Ok(())
}
