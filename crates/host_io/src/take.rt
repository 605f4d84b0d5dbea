ghost use Rattle.std.specs.Prelude.{◌≡◌, ℕ, ◌+◌, ◌≤◌, ◌<◌, length};
ghost use Rattle.host_io.specs.Takes.{Takes, CountsFailed, TakesFrom};

use crate::failed::Failed;
use crate::files::Files;
use crate::source::Source;
use basic_types::Bytes;
use std::alloc::Global;

/// How the taking of a whole file or source ended.
#[derive(Debug, Drop)]
pub enum Took {
    /// All bytes, in order.
    Whole(Bytes),
    /// There are more bytes than the limit.
    TooLong,
    /// A call of read failed, and was the last one.
    Failed,
    /// There was no memory for the bytes.
    NoMemory,
}

/// How many bytes one call of read may bring.
const PIECE_LEN: usize = 262_144;

/// How many bytes the next read may bring, so that at most one byte more than the limit is read.
fn room_for(taken: usize, limit: u64, piece_len: usize) -> usize
    requires taken { taken ≤ limit }
    requires piece { 0 < piece_len }
    ensures some { 0 < result }
    ensures fits { result ≤ piece_len }
    ensures within { taken + result ≤ limit + 1 }
{
    let beyond = (limit - taken as u64).min(piece_len as u64 - 1);
    beyond as usize + 1
}

/// Reads the file `name` whole, in pieces, if it has at most `limit` bytes.
///
/// Each call of read but the last brings at least one byte, so there are at most `limit` + 2.
pub fn take_file<F: Files>(alloc: Global, files: &mut F, name: &str, limit: u64) -> Took
    ensures takes { Takes (F.contents files.old name.now) limit result }
    ensures held { F.contents files.new ≡ F.contents files.old }
    ensures counted { CountsFailed (F.faults files.old) (F.faults files.new) result }
    ensures grows { F.faults files.old ≤ F.faults files.new }
{
    let Ok(mut piece) = vec![in alloc; 0u8; PIECE_LEN] else {
        return Took::NoMemory;
    };
    take_file_by(alloc, files, name, limit, &mut piece)
}

/// `take_file` by pieces of the length of `piece`.
fn take_file_by<F: Files>(
    alloc: Global,
    files: &mut F,
    name: &str,
    limit: u64,
    piece: &mut [u8],
) -> Took
    requires { 0 < length piece.old }
    ensures takes { Takes (F.contents files.old name.now) limit result }
    ensures held { F.contents files.new ≡ F.contents files.old }
    ensures counted { CountsFailed (F.faults files.old) (F.faults files.new) result }
    ensures grows { F.faults files.old ≤ F.faults files.new }
{
    let mut bytes = Bytes::new(alloc);
    while bytes.len() as u64 <= limit {
        let room = room_for(bytes.len(), limit, piece.len());
        match files.read(name, bytes.len() as u64, &mut piece[..room]) {
            Err(Failed) => return Took::Failed,
            Ok(0) => return Took::Whole(bytes),
            Ok(count) => {
                if bytes.append(&piece[..count]).is_err() {
                    return Took::NoMemory;
                }
            }
        }
    }
    Took::TooLong
}

/// Reads all that the source has left, in pieces, if it is at most `limit` bytes.
///
/// Each call of read but the last brings at least one byte, so there are at most `limit` + 2.
pub fn take_source<S: Source>(alloc: Global, source: &mut S, limit: u64) -> Took
    ensures takes { Takes (S.remaining source.old) limit result }
    ensures left { TakesFrom (S.remaining source.old) (S.remaining source.new) limit result }
    ensures counted { CountsFailed (S.faults source.old) (S.faults source.new) result }
    ensures grows { S.faults source.old ≤ S.faults source.new }
{
    let Ok(mut piece) = vec![in alloc; 0u8; PIECE_LEN] else {
        return Took::NoMemory;
    };
    take_source_by(alloc, source, limit, &mut piece)
}

/// `take_source` by pieces of the length of `piece`.
fn take_source_by<S: Source>(alloc: Global, source: &mut S, limit: u64, piece: &mut [u8]) -> Took
    requires { 0 < length piece.old }
    ensures takes { Takes (S.remaining source.old) limit result }
    ensures left { TakesFrom (S.remaining source.old) (S.remaining source.new) limit result }
    ensures counted { CountsFailed (S.faults source.old) (S.faults source.new) result }
    ensures grows { S.faults source.old ≤ S.faults source.new }
{
    let mut bytes = Bytes::new(alloc);
    while bytes.len() as u64 <= limit {
        let room = room_for(bytes.len(), limit, piece.len());
        match source.read(&mut piece[..room]) {
            Err(Failed) => return Took::Failed,
            Ok(0) => return Took::Whole(bytes),
            Ok(count) => {
                if bytes.append(&piece[..count]).is_err() {
                    return Took::NoMemory;
                }
            }
        }
    }
    Took::TooLong
}
