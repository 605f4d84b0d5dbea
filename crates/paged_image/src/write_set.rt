ghost use Rattle.std.specs.Prelude.{◌≡◌, ℕ, ◌<◌, ◌==◌, ◌||◌, [], AllPairs, OnOk, OnErr};
ghost use Rattle.paged_image.specs.WriteSet.{has};

use basic_types::NoMemory;
use std::alloc::Global;
use std::marker::Model;

/// Page numbers, each below the next, which contracts see as the list of them.
#[derive(Debug, Drop)]
pub struct WriteSet {
    pages: Vec<u32>,
}

impl Model for WriteSet {
    ghost use Rattle.std.specs.Prelude.{List, ℕ, AllPairs, ◌<◌};

    ghost Value = { List ℕ };

    ghost view = { λ s. s.pages.items };

    ghost invariant = { λ s. AllPairs (λ p q. p < q) s.pages.items };
}

impl WriteSet {
    /// No pages. Nothing is allocated.
    pub(crate) fn new(alloc: Global) -> WriteSet
        ensures { result ≡ [] }
    {
        WriteSet {
            pages: Vec::new(alloc),
        }
    }

    /// The page numbers, from the lowest on.
    pub fn as_slice(&self) -> &[u32]
        ensures pages { result.now ≡ self.now }
        ensures rising { AllPairs (λ p q. p < q) self.now }
    {
        self.pages.as_slice()
    }

    /// Adds a page, which may be there already.
    ///
    /// # Errors
    /// `NoMemory` where there is no room for it; the set is then as before.
    pub(crate) fn insert(&mut self, page: u32) -> Result<(), NoMemory>
        ensures ok { OnOk result ((q : ℕ) → has self.new q ≡ (has self.old q || (page == q))) }
        ensures err { OnErr result (self.new ≡ self.old) }
    {
        match self.pages.binary_search(&page) {
            Ok(_) => Ok(()),
            Err(at) => {
                self.pages.insert(at, page)?;
                Ok(())
            }
        }
    }
}
