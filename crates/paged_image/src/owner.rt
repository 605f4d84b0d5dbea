ghost use Rattle.std.specs.Prelude.{◌≡◌, ◌+◌, ◌≤◌, false, length, slice_range, IsTrue, MatchBool, OnOk, OnErr, IfOk, IfSome, IfNone};
ghost use Rattle.paged_image.specs.Owner.{page_bytes, is_own, overwritten};

use crate::page::{PAGE_BYTES, Page};
use basic_types::NoMemory;
use core::mem;
use std::alloc::Global;
use std::sync::Arc;

/// The bytes of a blank page.
pub static ZEROS: [u8; PAGE_BYTES] = [0; PAGE_BYTES];

/// Who may write a page: the one image that owns it, or none of the images that share it.
#[derive(Drop)]
pub enum Owner {
    Own(Box<Page>),
    Shared(Arc<Box<Page>>),
    /// A page of zeros, which takes no memory and has no count of owners.
    Blank,
}

impl Owner {
    #[inline]
    pub fn bytes(&self) -> &[u8; PAGE_BYTES]
        ensures { result.now ≡ page_bytes self.now }
    {
        match self {
            Owner::Own(page) => &page.bytes,
            Owner::Shared(page) => &page.bytes,
            Owner::Blank => &ZEROS,
        }
    }

    /// The `n` bytes from `offset` on.
    #[inline]
    pub fn piece(&self, offset: usize, n: usize) -> &[u8]
        requires { offset + n ≤ 4096 }
        ensures { result.now ≡ slice_range (page_bytes self.now) offset (offset + n) }
    {
        &self.bytes()[offset..offset + n]
    }

    #[inline]
    pub fn is_own(&self) -> bool
        ensures { result ≡ is_own self.now }
    {
        match self {
            Owner::Own(_) => true,
            Owner::Shared(_) | Owner::Blank => false,
        }
    }

    /// Writes into an own page, and only there.
    #[inline]
    pub fn overwrite(&mut self, offset: usize, from: &[u8]) -> bool
        requires { offset + length from.now ≤ 4096 }
        ensures own { is_own self.new ≡ is_own self.old }
        ensures answer { result ≡ is_own self.old }
        ensures written { MatchBool result (page_bytes self.new ≡ overwritten (page_bytes self.old) offset from.now) (self.new ≡ self.old) }
    {
        match self {
            Owner::Own(page) => {
                page.overwrite(offset, from);
                true
            }
            Owner::Shared(_) | Owner::Blank => false,
        }
    }

    /// Takes a copy of a shared page.
    ///
    /// # Errors
    /// `NoMemory` where there is no room for it; nothing has changed then.
    #[cold]
    #[inline(never)]
    pub fn make_own(&mut self, alloc: Global) -> Result<(), NoMemory>
        ensures bytes { page_bytes self.new ≡ page_bytes self.old }
        ensures ok { OnOk result (IsTrue (is_own self.new)) }
        ensures err { OnErr result (self.new ≡ self.old) }
    {
        let own = Box::new(
            alloc,
            Page {
                bytes: *self.bytes(),
            },
        )?;
        *self = Owner::Own(own);
        Ok(())
    }

    /// Shares the page, without a copy of it, and gives one more owner of it.
    ///
    /// # Errors
    /// `NoMemory` where the count of owners finds no room; the page may be shared by then.
    pub fn share(&mut self, alloc: Global) -> Result<Owner, NoMemory>
        ensures bytes { page_bytes self.new ≡ page_bytes self.old }
        ensures ok { IfOk result (λ other. (is_own self.new ≡ false) × (is_own other ≡ false) × (page_bytes other ≡ page_bytes self.old)) }
        ensures err { OnErr result (IsTrue (is_own self.new) → IsTrue (is_own self.old)) }
    {
        match mem::replace_with(
            self,
            alloc,
            |owner: Owner, alloc: Global| owner.into_shared(alloc),
        ) {
            Some(other) => Ok(other),
            None => Err(NoMemory),
        }
    }

    /// The page shared, and one more owner of it where there is room for that.
    fn into_shared(self, alloc: Global) -> (Owner, Option<Owner>)
        ensures bytes { page_bytes result.0 ≡ page_bytes self }
        ensures other { IfSome result.1 (λ other. (is_own result.0 ≡ false) × (is_own other ≡ false) × (page_bytes other ≡ page_bytes self)) }
        ensures none { IfNone result.1 (IsTrue (is_own result.0) → IsTrue (is_own self)) }
    {
        match self {
            Owner::Own(page) => match Arc::new(alloc, page) {
                Ok(shared) => {
                    let other = one_more(&shared);
                    (Owner::Shared(shared), other)
                }
                Err(failed) => (Owner::Own(failed.value), None),
            },
            Owner::Shared(shared) => {
                let other = one_more(&shared);
                (Owner::Shared(shared), other)
            }
            Owner::Blank => (Owner::Blank, Some(Owner::Blank)),
        }
    }
}

/// One more owner of a shared page, where there is room for its count.
fn one_more(shared: &Arc<Box<Page>>) -> Option<Owner>
    ensures { IfSome result (λ other. (is_own other ≡ false) × (page_bytes other ≡ shared.now.value.value.bytes)) }
{
    match Arc::try_clone(shared) {
        Ok(other) => Some(Owner::Shared(other)),
        Err(_) => None,
    }
}
