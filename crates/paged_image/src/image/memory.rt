//! An image as the memory that the interpreter works on.

ghost use Rattle.std.specs.Prelude.{◌≡◌, ℕ, ◌+◌, ◌/◌, ◌%◌, ◌^◌, ◌<◌, ◌≤◌, true, [], ◌∷◌, length, IfSome};
ghost use Rattle.std.specs.Int.{w8, w16, w32, to_le_bytes};
ghost use Rattle.guest_model.specs.ByteMap.{mapped, load, Stores, CopiesOut, Keeps};
ghost use Rattle.paged_image.specs.WriteSet.{has};
ghost use Rattle.paged_image.specs.Image.{content, content-bounded, written_of, owned_of, shared_in};
ghost use Rattle.paged_image.specs.Changes.{Marks};

use super::PagedImage;
use guest_model::{Memory, StoreFault};

impl Memory for PagedImage {
    ghost REFUSES = { true };

    ghost bytes = { content };

    ghost written = { λ t q. has (written_of t) (q / 4096) };

    const REFUSES: bool = true;

    #[inline]
    fn load8(&self, a: u32) -> Option<u8> {
        let piece = self.piece(a, 1)?;
        Some(piece[0])
    }

    #[inline]
    fn load16(&self, a: u32) -> Option<u16> {
        match self.piece(a, 2) {
            Some(piece) => Some(u16::from_le_bytes([piece[0], piece[1]])),
            None => self.load16_across(a),
        }
    }

    #[inline]
    fn load32(&self, a: u32) -> Option<u32> {
        match self.piece(a, 4) {
            Some(piece) => Some(u32::from_le_bytes([piece[0], piece[1], piece[2], piece[3]])),
            None => self.load32_across(a),
        }
    }

    /// Stores one byte.
    #[inline]
    fn store8(&mut self, a: u32, v: u8) -> Result<(), StoreFault>
        ensures stores { Stores true (content self.old) (content self.new) a (v ∷ []) result }
        ensures kept { Keeps (λ q. has (written_of self.old) (q / 4096)) (content self.old) (λ q. has (written_of self.new) (q / 4096)) (content self.new) }
        ensures marks { Marks (written_of self.old) (written_of self.new) a 1 result }
        ensures owned { owned_of self.new ≤ owned_of self.old + shared_in self.old a 1 }
    {
        self.put(a, &[v])
    }

    /// Stores two bytes.
    #[inline]
    fn store16(&mut self, a: u32, v: u16) -> Result<(), StoreFault>
        ensures stores { Stores true (content self.old) (content self.new) a (to_le_bytes w16 v) result }
        ensures kept { Keeps (λ q. has (written_of self.old) (q / 4096)) (content self.old) (λ q. has (written_of self.new) (q / 4096)) (content self.new) }
        ensures marks { Marks (written_of self.old) (written_of self.new) a 2 result }
        ensures owned { owned_of self.new ≤ owned_of self.old + shared_in self.old a 2 }
    {
        self.put(a, &v.to_le_bytes())
    }

    /// Stores four bytes.
    #[inline]
    fn store32(&mut self, a: u32, v: u32) -> Result<(), StoreFault>
        ensures stores { Stores true (content self.old) (content self.new) a (to_le_bytes w32 v) result }
        ensures kept { Keeps (λ q. has (written_of self.old) (q / 4096)) (content self.old) (λ q. has (written_of self.new) (q / 4096)) (content self.new) }
        ensures marks { Marks (written_of self.old) (written_of self.new) a 4 result }
        ensures owned { owned_of self.new ≤ owned_of self.old + shared_in self.old a 4 }
    {
        self.put(a, &v.to_le_bytes())
    }

    fn mapped(&self, a: u32, n: u32) -> bool {
        self.is_mapped(a, n as usize)
    }

    /// Stores these bytes from `a` on, page by page, or none of them.
    fn copy_in(&mut self, a: u32, from: &[u8]) -> Result<(), StoreFault>
        requires { length from.now < 2 ^ 32 }
        ensures stores { Stores true (content self.old) (content self.new) a from.now result }
        ensures kept { Keeps (λ q. has (written_of self.old) (q / 4096)) (content self.old) (λ q. has (written_of self.new) (q / 4096)) (content self.new) }
        ensures marks { Marks (written_of self.old) (written_of self.new) a (length from.now) result }
        ensures owned { owned_of self.new ≤ owned_of self.old + shared_in self.old a (length from.now) }
    {
        self.put(a, from)
    }

    fn copy_out(&self, a: u32, into: &mut [u8]) -> bool {
        self.fill(a, into)
    }

    ghost bounded = { content-bounded };
}

impl PagedImage {
    /// Two bytes on two pages, or none.
    #[cold]
    #[inline(never)]
    fn load16_across(&self, a: u32) -> Option<u16>
        ensures { result ≡ load w16 (content self.now) a }
    {
        let mut bytes = [0; 2];
        if self.fill(a, &mut bytes) {
            Some(u16::from_le_bytes(bytes))
        } else {
            None
        }
    }

    /// Four bytes on two pages, or none.
    #[cold]
    #[inline(never)]
    fn load32_across(&self, a: u32) -> Option<u32>
        ensures { result ≡ load w32 (content self.now) a }
    {
        let mut bytes = [0; 4];
        if self.fill(a, &mut bytes) {
            Some(u32::from_le_bytes(bytes))
        } else {
            None
        }
    }
}
