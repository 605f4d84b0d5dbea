//! Journals of which one line is changed.

use crate::journals::Line;
use std::alloc::Global;
use std::test::Fail;

/// One change of a line.
#[derive(Clone, Copy)]
pub enum Change {
    /// It is left out.
    LeftOut,
    /// It stands twice.
    Doubled,
    /// It changes places with the line behind it.
    Exchanged,
    /// Its number of this place is so much more.
    Number { place: usize, by: i64 },
}

/// The changes, in the order of a line's marks.
pub const CHANGES: [Change; 9] = [
    Change::LeftOut,
    Change::Doubled,
    Change::Exchanged,
    Change::Number { place: 0, by: 1 },
    Change::Number { place: 1, by: 1 },
    Change::Number { place: 2, by: 1 },
    Change::Number { place: 0, by: -1 },
    Change::Number { place: 1, by: -1 },
    Change::Number { place: 2, by: -1 },
];

/// The text of these lines.
pub fn text_of(alloc: Global, lines: &[Line]) -> Result<String, Fail> {
    let mut text = String::new(alloc);
    for (line, _) in lines {
        text.push_str(line)?;
        text.push('\n')?;
    }
    Ok(text)
}

/// This line, and a text behind it.
fn line_before(alloc: Global, line: &str, behind: &str) -> Result<String, Fail> {
    Ok(format!(in alloc; "{line}\n{behind}")?)
}

/// This line and those behind it with one change: none where there is no such change.
pub fn changed_text(
    alloc: Global,
    line: &str,
    behind: &[Line],
    change: Change,
) -> Result<Option<String>, Fail> {
    let rest = text_of(alloc, behind)?;
    match change {
        Change::LeftOut => Ok(Some(rest)),
        Change::Doubled => {
            let once = line_before(alloc, line, rest.as_str())?;
            Ok(Some(line_before(alloc, line, once.as_str())?))
        }
        Change::Exchanged => exchange(alloc, line, behind),
        Change::Number { place, by } => match change_number(alloc, line, place, by)? {
            Some(changed) => Ok(Some(line_before(alloc, changed.as_str(), rest.as_str())?)),
            None => Ok(None),
        },
    }
}

/// The line behind this one, this line, and the others: none where there is no line behind it.
fn exchange(alloc: Global, line: &str, behind: &[Line]) -> Result<Option<String>, Fail> {
    let Some(((next, _), others)) = behind.split_first() else {
        return Ok(None);
    };
    let rest = text_of(alloc, others)?;
    let exchanged = line_before(alloc, line, rest.as_str())?;
    Ok(Some(line_before(alloc, next, exchanged.as_str())?))
}

/// The line whose number of this place is so much more: none where it has no such number, or the sum is no number.
fn change_number(alloc: Global, line: &str, place: usize, by: i64) -> Result<Option<String>, Fail> {
    let mut changed = String::new(alloc);
    let mut numbers = 0usize;
    for part in line.split_inclusive([' ', '.']) {
        let word = part.trim_end_matches([' ', '.']);
        match word.parse::<u64>() {
            Ok(number) => {
                let step = if numbers == place { by } else { 0 };
                let Some(sum) = number.checked_add_signed(step) else {
                    return Ok(None);
                };
                write!(changed, "{sum}")?;
                numbers = numbers.saturating_add(1);
            }
            Err(_) => changed.push_str(word)?,
        }
        changed.push_str(part.strip_prefix(word).unwrap_or(""))?;
    }
    Ok((place < numbers).then_some(changed))
}
