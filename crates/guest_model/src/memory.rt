//! What the interpreter asks of a memory.

ghost use Rattle.std.specs.Prelude.{◌≡◌, ℕ, ◌^◌, ◌<◌, ◌≤◌, List, [], ◌∷◌, Bool, Option, None, length};
ghost use Rattle.std.specs.Int.{Width, w8, w16, w32, to_le_bytes};
ghost use Rattle.guest_model.specs.ByteMap.{ByteMap, mapped, load, Stores, CopiesOut, Keeps};

/// Why a store was refused. No byte has changed then.
#[derive(Debug, Clone, Copy, PartialEq, Eq)]
pub enum StoreFault {
    /// A byte of the range is unmapped, or the range passes 2^32.
    Unmapped,
    /// The host's memory ran out.
    NoMemory,
}

/// A byte-addressed, little-endian memory of at most 2^32 bytes, which contracts see as the map `bytes` from address
/// to byte. Every mapped byte may be read, written and run; accesses have any alignment.
pub trait Memory {
    /// Stores may be refused for want of memory.
    ghost REFUSES: { Bool };

    /// The byte at each mapped address.
    ghost bytes: { Self → ByteMap };

    /// The addresses that may have been written since the memory was made or last snapshotted.
    ghost written: { Self → ℕ → Bool };

    const REFUSES: bool;

    /// The byte at `a`; None exactly where it is unmapped.
    fn load8(&self, a: u32) -> Option<u8>
        ensures { result ≡ load w8 (bytes self.now) a };

    /// The two bytes from `a` on; None exactly where one is unmapped.
    fn load16(&self, a: u32) -> Option<u16>
        ensures { result ≡ load w16 (bytes self.now) a };

    /// The four bytes from `a` on; None exactly where one is unmapped.
    fn load32(&self, a: u32) -> Option<u32>
        ensures { result ≡ load w32 (bytes self.now) a };

    /// Stores one byte.
    fn store8(&mut self, a: u32, v: u8) -> Result<(), StoreFault>
        ensures stores { Stores REFUSES (bytes self.old) (bytes self.new) a (v ∷ []) result }
        ensures kept { Keeps (written self.old) (bytes self.old) (written self.new) (bytes self.new) };

    /// Stores two bytes.
    fn store16(&mut self, a: u32, v: u16) -> Result<(), StoreFault>
        ensures stores { Stores REFUSES (bytes self.old) (bytes self.new) a (to_le_bytes w16 v) result }
        ensures kept { Keeps (written self.old) (bytes self.old) (written self.new) (bytes self.new) };

    /// Stores four bytes.
    fn store32(&mut self, a: u32, v: u32) -> Result<(), StoreFault>
        ensures stores { Stores REFUSES (bytes self.old) (bytes self.new) a (to_le_bytes w32 v) result }
        ensures kept { Keeps (written self.old) (bytes self.old) (written self.new) (bytes self.new) };

    /// The `n` addresses from `a` on are below 2^32 and mapped.
    fn mapped(&self, a: u32, n: u32) -> bool
        ensures { result ≡ mapped (bytes self.now) a n };

    /// Stores these bytes from `a` on, or none of them.
    fn copy_in(&mut self, a: u32, from: &[u8]) -> Result<(), StoreFault>
        requires { length from.now < 2 ^ 32 }
        ensures stores { Stores REFUSES (bytes self.old) (bytes self.new) a from.now result }
        ensures kept { Keeps (written self.old) (bytes self.old) (written self.new) (bytes self.new) };

    /// Fills `into` with the bytes from `a` on; false, and `into` as before, exactly where one is unmapped.
    fn copy_out(&self, a: u32, into: &mut [u8]) -> bool
        requires { length into.old < 2 ^ 32 }
        ensures { CopiesOut (bytes self.now) a into.old into.new result };

    /// No byte has an address of 2^32 or more.
    ghost bounded: { (m : Self) (q : ℕ) → 2 ^ 32 ≤ q → bytes m q ≡ None };
}
