//! What no clause says: the lines of a worked journal, there and back, and lines that are no entry's.

use crate::{Entries, Entry, Name, entry_text, read_entry};
use std::test::Fail;

#[test]
fn writes_and_reads_entries(rt: HostRuntime) -> Result<(), Fail> {
    let name = Name {
        generation: 0,
        region: 1,
        normal: true,
    };
    let lead = Name {
        normal: false,
        ..name
    };
    let table = [
        (Entry::Lend { seat: 0, name }, "lend 0 0.1.n\n"),
        (Entry::Back { name, count: 36 }, "back 0.1.n 36\n"),
        (Entry::Gone { name: lead }, "gone 0.1.f\n"),
        (Entry::Fork { name: lead }, "fork 0.1.f\n"),
        (Entry::Cross { name: lead }, "cross 0.1.f\n"),
        (Entry::Keep { row: 0 }, "keep 0\n"),
        (Entry::Discard { row: 10 }, "discard 10\n"),
        (
            Entry::Release { bytes: u64::MAX },
            "release 18446744073709551615\n",
        ),
        (Entry::Finish, "finish\n"),
        (Entry::Halt { seat: 3 }, "halt 3\n"),
    ];
    for (entry, line) in table {
        let text = entry_text(rt.alloc(), &entry)?;
        assert_eq!(rt; text.as_str(), line);
        let line = line.strip_suffix('\n').unwrap_or(line);
        assert_eq!(rt; read_entry(line), Some(entry));
    }
    Ok(())
}

#[test]
fn refuses_other_lines(rt: HostRuntime) -> Result<(), Fail> {
    let table = [
        "",
        "lend 0  0.0.f",
        "lend 0 0.0.f ",
        "lend 0 0.0.F",
        "lend +0 0.0.f",
        "back 0.1.n 01",
        "back 0.1.n",
        "gone 0.1",
        "keep 18446744073709551616",
        "keep 0\n",
        "Finish",
        "finish ",
    ];
    for line in table {
        assert_eq!(rt; read_entry(line), None);
    }
    Ok(())
}

#[test]
fn lists_entries(rt: HostRuntime) -> Result<(), Fail> {
    let entries = Entries::from_vec(vec![in rt.alloc(); Entry::Finish]?);
    assert_eq!(rt; entries.as_slice().len(), 1);
    Ok(())
}
