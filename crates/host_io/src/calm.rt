ghost use Rattle.std.specs.Prelude.{◌≡◌, ◌≢◌, ◌≤◌, ◌++◌, ℕ, List, [], min, length, take, Some, IsOk, OnOk, OnErr, string_bytes};
ghost use Rattle.std.specs.Io.{ReadsAtMost};
ghost use Rattle.std.specs.Io.KnownBytes.{ReadConsumes};
ghost use Rattle.host_io.specs.Reads.{ReadsFile};
ghost use Rattle.host_io.specs.InMemory.{calm_file_of, Fills};

use crate::failed::Failed;
use crate::files::Files;
use crate::fill::fill;
use crate::source::Source;
use basic_types::{Bytes, NoMemory};
use std::alloc::Global;
use std::collections::BTreeMap;
use std::marker::Model;

/// Files in memory of which no call fails. A name that is not there reads as empty.
#[derive(Debug, Drop)]
pub struct CalmFiles {
    files: BTreeMap<String, Bytes>,
}

impl CalmFiles {
    /// No files.
    pub fn new(alloc: Global) -> CalmFiles
        ensures { (name : List ℕ) → calm_file_of result name ≡ [] }
    {
        CalmFiles {
            files: BTreeMap::new(alloc),
        }
    }

    /// Puts the bytes under the name, in place of earlier ones.
    ///
    /// # Errors
    /// `NoMemory` where there is no room for the name; all is then as before.
    #[tactic(auto, using(std::proofs::lemmas::Map::Text::text_keys))]
    pub fn add(&mut self, name: String, bytes: Bytes) -> Result<(), NoMemory>
        ensures put { OnOk result (calm_file_of self.new (string_bytes name) ≡ bytes) }
        ensures others { (other : List ℕ) → other ≢ string_bytes name → calm_file_of self.new other ≡ calm_file_of self.old other }
        ensures err { OnErr result ((any : List ℕ) → calm_file_of self.new any ≡ calm_file_of self.old any) }
    {
        self.files.insert(name, bytes)?;
        Ok(())
    }
}

impl Files for CalmFiles {
    ghost contents = { λ f name. Some (calm_file_of f name) };

    ghost faults = { λ _. 0 };

    fn read(&mut self, name: &str, at: u64, into: &mut [u8]) -> Result<usize, Failed>
        ensures bound { ReadsAtMost result into.new }
        ensures bytes { ReadsFile (Some (calm_file_of self.old name.now)) at into.new result }
        ensures held { self.new ≡ self.old }
        ensures ok { IsOk result }
        ensures fills { Fills (calm_file_of self.old name.now) at into.new result }
    {
        match self.files.get(name) {
            Some(file) => Ok(fill(file.as_slice(), at, into)),
            None => Ok(0),
        }
    }
}

/// A source in memory of which no call fails.
#[derive(Debug, Drop)]
pub struct CalmSource {
    bytes: Bytes,
    place: usize,
}

impl Model for CalmSource {
    ghost use Rattle.std.specs.Prelude.{◌≤◌, ℕ, List, length, drop};

    ghost Value = { List ℕ };

    ghost view = { λ s. drop s.place s.bytes };

    ghost invariant = { λ s. s.place ≤ length s.bytes };
}

impl CalmSource {
    /// All of `bytes` are left.
    pub fn new(bytes: Bytes) -> CalmSource
        ensures { result ≡ bytes }
    {
        CalmSource { bytes, place: 0 }
    }

    /// Gives as many of the first bytes that are left as `into` has places for.
    pub(crate) fn give(&mut self, into: &mut [u8]) -> usize
        ensures count { result ≡ min (length self.old) (length into.new) }
        ensures exact { result ≡ length (take result into.new) }
        ensures bytes { self.old ≡ take result into.new ++ self.new }
    {
        let count = fill(self.bytes.as_slice(), self.place as u64, into);
        self.place += count;
        count
    }
}

impl Source for CalmSource {
    ghost remaining = { λ s. Some s };

    ghost faults = { λ _. 0 };

    fn read(&mut self, into: &mut [u8]) -> Result<usize, Failed>
        ensures bound { ReadsAtMost result into.new }
        ensures bytes { ReadConsumes (Some self.old) (Some self.new) result into.new }
        ensures ok { IsOk result }
        ensures fills { Fills self.old 0 into.new result }
    {
        Ok(self.give(into))
    }
}
