//! The file names of a list.

ghost use Rattle.std.specs.Prelude.{◌≡◌, ◌≢◌, ◌∷◌, ◌++◌, true, false, All, IfSome, IfNone};
ghost use Rattle.job_listing.specs.Lines.{BeginsWithName, HasNoName};
ghost use Rattle.job_listing.specs.Lists.{is_name, names_in, ReadsList};

use memchr::memchr;
use std::alloc::{AllocError, AllocFailed, Global};
use std::str;
use thiserror::Error;

/// The most bytes of a list.
pub const MOST_BYTES: usize = 4_096;

/// The most names of a list.
pub const MOST_NAMES: usize = 16;

/// The most bytes of a name.
pub const MOST_NAME: usize = 255;

/// Why a list names no jobs.
#[derive(Debug, Clone, Copy, PartialEq, Eq, Error)]
pub enum ListFault {
    /// It is not of the form.
    #[error("bad list")]
    Form,
    /// The host's memory ran out.
    #[error("out of memory")]
    NoMemory,
}

impl From<AllocError> for ListFault {
    ghost use Rattle.std.specs.Prelude.{◌≡◌};
    ghost use Rattle.job_listing.specs.declared.names.ListFault.TheVariants as Faults;

    ghost from_gives = { λ _ fault. fault ≡ Faults.NoMemory };

    fn from(_refusal: AllocError) -> ListFault {
        ListFault::NoMemory
    }
}

/// The value that could not be stored is dropped.
impl<T: Drop> From<AllocFailed<T>> for ListFault {
    ghost use Rattle.std.specs.Prelude.{◌≡◌};
    ghost use Rattle.job_listing.specs.declared.names.ListFault.TheVariants as Faults;

    ghost from_gives = { λ _ fault. fault ≡ Faults.NoMemory };

    fn from(_refusal: AllocFailed<T>) -> ListFault {
        ListFault::NoMemory
    }
}

/// The file names of a list: 1 to 16 lines, each ending with a line feed, each a name of 1 to 255 bytes in UTF-8; at most
/// 4,096 bytes in all.
///
/// # Errors
/// `Form` exactly where the list is not so, and `NoMemory` where there is no room for the names.
pub fn read_list(alloc: Global, list: &[u8]) -> Result<Vec<String>, ListFault>
    ensures { ReadsList (names_in list.now) result }
{
    if list.len() > MOST_BYTES {
        return Err(ListFault::Form);
    }
    let mut names = Vec::new(alloc);
    let mut rest = list;
    while !rest.is_empty() {
        if names.len() == MOST_NAMES {
            return Err(ListFault::Form);
        }
        let Some((name, behind)) = first_name(rest) else {
            return Err(ListFault::Form);
        };
        names.push(String::from_str(alloc, name)?)?;
        rest = behind;
    }
    if names.is_empty() {
        return Err(ListFault::Form);
    }
    Ok(names)
}

/// The first line, if it is a name, and what stands behind its line feed.
fn first_name(list: &[u8]) -> Option<(&str, &[u8])>
    ensures name { IfSome result (λ cut. BeginsWithName list.now cut.0.now cut.1.now) }
    ensures none { IfNone result (HasNoName list.now) }
{
    let (line, behind) = cut_line(list)?;
    let name = name_in(line)?;
    Some((name, behind))
}

/// The bytes before the first line feed, and those behind it: none exactly where there is no line feed.
fn cut_line(list: &[u8]) -> Option<(&[u8], &[u8])>
    ensures parts { IfSome result (λ cut. list.now ≡ cut.0.now ++ (10 ∷ cut.1.now)) }
    ensures first { IfSome result (λ cut. All (λ byte. byte ≢ 10) cut.0.now) }
    ensures none { IfNone result (All (λ byte. byte ≢ 10) list.now) }
{
    let end = memchr(b'\n', list)?;
    Some((&list[..end], &list[end + 1..]))
}

/// The name that a line is.
#[tactic(auto, using(crate::proofs::OnLists::name_true, crate::proofs::OnLists::name_false))]
fn name_in(line: &[u8]) -> Option<&str>
    ensures name { IfSome result (λ name. (name.now ≡ line.now) × (is_name line.now ≡ true)) }
    ensures none { IfNone result (is_name line.now ≡ false) }
{
    if line.is_empty() || line.len() > MOST_NAME {
        return None;
    }
    match str::from_utf8(line) {
        Ok(name) => Some(name),
        Err(_) => None,
    }
}
