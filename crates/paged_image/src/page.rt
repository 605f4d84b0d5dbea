ghost use Rattle.std.specs.Prelude.{◌≡◌, ◌+◌, ◌≤◌, ◌++◌, length, take, drop};

use guest_model::PAGE_SIZE;

/// How many bytes a page has, as a length.
pub const PAGE_BYTES: usize = PAGE_SIZE as usize;

/// One page of guest memory. Its first address is a multiple of 4,096.
#[derive(Clone, Copy)]
pub struct Page {
    pub bytes: [u8; PAGE_BYTES],
    ghost whole: { length bytes ≡ 4096 },
}

impl Page {
    /// A page of these bytes.
    pub fn from_slice(from: &[u8]) -> Page
        requires { length from.now ≡ 4096 }
        ensures { result.bytes ≡ from.now }
    {
        let mut bytes = [0; PAGE_BYTES];
        bytes.copy_from_slice(from);
        Page { bytes }
    }

    /// Puts the bytes of `from` in place of as many bytes from `offset` on.
    #[inline]
    pub fn overwrite(&mut self, offset: usize, from: &[u8])
        requires { offset + length from.now ≤ 4096 }
        ensures { self.new.bytes ≡ take offset self.old.bytes ++ from.now ++ drop (offset + length from.now) self.old.bytes }
    {
        self.bytes[offset..offset + from.len()].copy_from_slice(from);
    }
}
