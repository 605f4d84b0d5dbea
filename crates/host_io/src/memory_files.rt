ghost use Rattle.std.specs.Prelude.{◌≡◌, ◌≢◌, ℕ, ◌≤◌, ◌||◌, List, Some, None, is_none, is_err, IfSome, OnOk, OnErr, string_bytes};
ghost use Rattle.std.specs.Io.{ReadsAtMost};
ghost use Rattle.host_io.specs.Faults.{CountsFaults};
ghost use Rattle.host_io.specs.Reads.{ReadsFile};
ghost use Rattle.host_io.specs.CallCount.{no_calls, fails_next, after_call};
ghost use Rattle.host_io.specs.InMemory.{file_of, told_of, calls_of, Fills};

use crate::calls::Calls;
use crate::failed::Failed;
use crate::files::Files;
use crate::fill::fill;
use basic_types::{Bytes, NoMemory};
use std::alloc::Global;
use std::collections::BTreeMap;

/// Files in memory. Chosen calls of `read` fail, and so do those for a name that is not there.
#[derive(Debug, Drop)]
pub struct MemoryFiles {
    files: BTreeMap<String, Bytes>,
    calls: Calls,
}

impl MemoryFiles {
    /// No files. The calls of `read` whose numbers are in `failing` will fail, the first being 0.
    pub fn new(alloc: Global, failing: Vec<u64>) -> MemoryFiles
        ensures files { (name : List ℕ) → file_of result name ≡ None }
        ensures calls { calls_of result ≡ no_calls failing.items }
    {
        MemoryFiles {
            files: BTreeMap::new(alloc),
            calls: Calls::new(failing),
        }
    }

    /// Puts the bytes under the name, in place of earlier ones.
    ///
    /// # Errors
    /// `NoMemory` where there is no room for the name; all is then as before.
    #[tactic(auto, using(std::proofs::lemmas::Map::Text::text_keys))]
    pub fn add(&mut self, name: String, bytes: Bytes) -> Result<(), NoMemory>
        ensures put { OnOk result (file_of self.new (string_bytes name) ≡ Some bytes) }
        ensures others { (other : List ℕ) → other ≢ string_bytes name → file_of self.new other ≡ file_of self.old other }
        ensures err { OnErr result ((any : List ℕ) → file_of self.new any ≡ file_of self.old any) }
        ensures calls { calls_of self.new ≡ calls_of self.old }
    {
        self.files.insert(name, bytes)?;
        Ok(())
    }
}

impl Files for MemoryFiles {
    ghost contents = { told_of };

    ghost faults = { λ f. (calls_of f).faults };

    fn read(&mut self, name: &str, at: u64, into: &mut [u8]) -> Result<usize, Failed>
        ensures bound { ReadsAtMost result into.new }
        ensures bytes { ReadsFile (told_of self.old name.now) at into.new result }
        ensures held { told_of self.new ≡ told_of self.old }
        ensures counted { CountsFaults (calls_of self.old).faults (calls_of self.new).faults result }
        ensures grows { (calls_of self.old).faults ≤ (calls_of self.new).faults }
        ensures files { file_of self.new ≡ file_of self.old }
        ensures fails { is_err result ≡ (fails_next (calls_of self.old) || is_none (file_of self.old name.now)) }
        ensures fills { IfSome (file_of self.old name.now) (λ file. Fills file at into.new result) }
        ensures calls { calls_of self.new ≡ after_call (calls_of self.old) result }
    {
        if self.calls.fails_next() {
            return self.calls.fail();
        }
        match self.files.get(name) {
            Some(file) => self.calls.succeed(fill(file.as_slice(), at, into)),
            None => self.calls.fail(),
        }
    }
}
