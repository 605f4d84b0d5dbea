//! The table of services.

ghost use Rattle.std.specs.Prelude.{◌≡◌, ◌≢◌, ℕ, ◌≤◌, Bool, length};
ghost use Rattle.guest_model.specs.ByteMap.{ByteMap, Keeps};
ghost use Rattle.guest_model.specs.Registers.{RegFile};
ghost use Rattle.guest_model.specs.Service.{service_of, read_service, write_service, brk_service, answer};
ghost use Rattle.guest_calls.specs.Serves.{Serves, StoresInput, state_of};

use crate::served::Served;
use guest_model::{Heap, Memory, StoreFault};

/// The most bytes that one call moves.
const LARGEST_COUNT: u32 = 1 << 20;

/// The word of -9: no descriptor of this kind.
const BAD_DESCRIPTOR: u32 = 0xFFFF_FFF7;

/// The word of -14: a byte of the range is unmapped.
const BAD_ADDRESS: u32 = 0xFFFF_FFF2;

/// The word of -38: no service of this number.
const NO_SUCH_SERVICE: u32 = 0xFFFF_FFDA;

#[inline]
fn read<M: Memory>(
    descriptor: u32,
    at: u32,
    count: u32,
    memory: &mut M,
    input: &[u8],
    place: &mut u64,
) -> Served
    requires { place.old ≤ length input.now }
    ensures means { (fast : Bool) (f : RegFile) (heap : Heap) →
        let old = state_of (M.bytes memory.old) place.old heap f in
        let new = state_of (M.bytes memory.new) place.new heap f in
        Serves M.REFUSES fast (read_service input.now old descriptor at count) old new result }
    ensures no_memory { result ≡ Served.NoMemory → StoresInput (M.bytes memory.old) 63 descriptor at count }
    ensures place { place.new ≤ length input.now }
    ensures kept { Keeps (M.written memory.old) (M.bytes memory.old) (M.written memory.new) (M.bytes memory.new) }
{
    if descriptor != 0 {
        return Served::Answer(BAD_DESCRIPTOR);
    }
    let count = count.min(LARGEST_COUNT);
    if count == 0 {
        return Served::Answer(0);
    }
    if !memory.mapped(at, count) {
        return Served::Answer(BAD_ADDRESS);
    }
    let left = &input[*place as usize..];
    let bytes = &left[..left.len().min(count as usize)];
    match memory.copy_in(at, bytes) {
        Ok(()) => {
            *place += bytes.len() as u64;
            Served::Answer(bytes.len() as u32)
        }
        Err(StoreFault::NoMemory) => Served::NoMemory,
        Err(StoreFault::Unmapped) => unreachable!(),
    }
}

#[inline]
fn write<M: Memory>(descriptor: u32, at: u32, count: u32, memory: &M) -> Served
    ensures means { (fast : Bool) (f : RegFile) (heap : Heap) (place : ℕ) →
        let old = state_of (M.bytes memory.now) place heap f in
        Serves M.REFUSES fast (write_service old descriptor at count) old old result }
    ensures no_memory { result ≢ Served.NoMemory }
{
    let stream = match descriptor {
        1 => 1,
        2 => 2,
        _ => return Served::Answer(BAD_DESCRIPTOR),
    };
    let count = count.min(LARGEST_COUNT);
    if count == 0 {
        return Served::Answer(0);
    }
    if !memory.mapped(at, count) {
        return Served::Answer(BAD_ADDRESS);
    }
    Served::Wrote { stream, at, count }
}

#[inline]
fn move_break(at: u32, heap: &mut Heap) -> u32
    ensures { (f : RegFile) (memory : ByteMap) (place : ℕ) →
        brk_service (state_of memory place heap.old f) at ≡ answer (state_of memory place heap.new f) result }
{
    if heap.start <= at && at - heap.start <= heap.size {
        heap.brk = at;
        return at;
    }
    heap.brk
}

/// Carries out the service `number` with the arguments a0, a1 and a2: 63 read, 64 write, 93 and 94 exit, 214 brk, 2000
/// FastTrack, 2001 EndDualTrack; every other number answers -38. The numbers are chosen after Linux system calls and
/// say nothing about Linux.
///
/// `input` is the whole input of the guest and `place` the number of its bytes that were read. NoMemory comes only
/// at a read of the input into a range that is mapped and not empty.
#[inline]
pub fn serve<M: Memory>(
    number: u32,
    a0: u32,
    a1: u32,
    a2: u32,
    memory: &mut M,
    heap: &mut Heap,
    input: &[u8],
    place: &mut u64,
) -> Served
    requires { place.old ≤ length input.now }
    ensures means { (fast : Bool) (f : RegFile) →
        let old = state_of (M.bytes memory.old) place.old heap.old f in
        let new = state_of (M.bytes memory.new) place.new heap.new f in
        Serves M.REFUSES fast (service_of fast input.now old number a0 a1 a2) old new result }
    ensures no_memory { result ≡ Served.NoMemory → StoresInput (M.bytes memory.old) number a0 a1 a2 }
    ensures place { place.new ≤ length input.now }
    ensures kept { Keeps (M.written memory.old) (M.bytes memory.old) (M.written memory.new) (M.bytes memory.new) }
{
    match number {
        63 => read(a0, a1, a2, memory, input, place),
        64 => write(a0, a1, a2, memory),
        93 | 94 => Served::Exit(a0),
        214 => Served::Answer(move_break(a0, heap)),
        2000 => Served::FastTrack,
        2001 => Served::EndDual,
        _ => Served::Answer(NO_SUCH_SERVICE),
    }
}

#[cfg(test)]
mod tests;
