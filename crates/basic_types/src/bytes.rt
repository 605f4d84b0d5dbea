ghost use Rattle.std.specs.Prelude.{◌≡◌, ℕ, ◌+◌, ◌≤◌, ◌==◌, List, [], ◌++◌, length, take, drop, OnOk, OnErr};

use crate::no_memory::NoMemory;
use std::alloc::Global;
use std::marker::Model;

/// A list of bytes that grows at its end.
///
/// Contracts see the list alone. The room behind it is not part of the value.
#[derive(Debug, Drop)]
pub struct Bytes {
    bytes: Vec<u8>,
}

impl Model for Bytes {
    ghost use Rattle.std.specs.Prelude.{List, ℕ};

    ghost Value = { List ℕ };

    ghost view = { λ b. b.bytes.items };
}

impl Bytes {
    /// No bytes. Nothing is allocated.
    #[inline]
    pub fn new(alloc: Global) -> Bytes
        ensures { result ≡ [] }
    {
        Bytes {
            bytes: Vec::new(alloc),
        }
    }

    /// The bytes of `bytes`, which are not copied.
    #[inline]
    pub fn from_vec(bytes: Vec<u8>) -> Bytes
        ensures { result ≡ bytes.items }
    {
        Bytes { bytes }
    }

    /// Gives the bytes back as a `Vec`, without a copy.
    #[inline]
    pub fn into_vec(self) -> Vec<u8>
        ensures { result.items ≡ self }
    {
        let Bytes { bytes } = self;
        bytes
    }

    #[inline]
    pub fn as_slice(&self) -> &[u8]
        ensures { result.now ≡ self.now }
    {
        self.bytes.as_slice()
    }

    #[inline]
    pub fn len(&self) -> usize
        ensures { result ≡ length self.now }
    {
        self.bytes.len()
    }

    #[inline]
    pub fn is_empty(&self) -> bool
        ensures { result ≡ (length self.now == 0) }
    {
        self.bytes.is_empty()
    }

    /// Adds the bytes of `from` at the end.
    ///
    /// # Errors
    /// `NoMemory` where there is no room for them; the list is then as before.
    #[inline]
    pub fn append(&mut self, from: &[u8]) -> Result<(), NoMemory>
        ensures ok { OnOk result (self.new ≡ self.old ++ from.now) }
        ensures err { OnErr result (self.new ≡ self.old) }
    {
        self.bytes.extend_from_slice(from)?;
        Ok(())
    }

    /// Puts the bytes of `from` in place of as many bytes from index `at` on.
    #[inline]
    pub fn overwrite(&mut self, at: usize, from: &[u8])
        requires { at + length from.now ≤ length self.old }
        ensures { self.new ≡ take at self.old ++ from.now ++ drop (at + length from.now) self.old }
    {
        self.bytes[at..at + from.len()].copy_from_slice(from);
    }
}

#[cfg(test)]
mod tests {
    use super::Bytes;
    use std::test::Fail;

    #[test]
    fn appends_and_overwrites(rt: HostRuntime) -> Result<(), Fail> {
        let mut bytes = Bytes::new(rt.alloc());
        assert!(rt; bytes.is_empty());
        bytes.append(b"one two")?;
        bytes.append(b"!")?;
        assert_eq!(rt; bytes.len(), 8);
        bytes.overwrite(4, b"TWO");
        assert_eq!(rt; bytes.as_slice(), b"one TWO!".as_slice());
        assert_eq!(rt; Bytes::from_vec(bytes.into_vec()).len(), 8);
        Ok(())
    }
}
