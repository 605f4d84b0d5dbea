//! A flat memory: areas of bytes, each looked for in turn.

ghost use Rattle.std.specs.Prelude.{◌≡◌, IfOk};
ghost use Rattle.guest_model.specs.AreaMap.{areas_bytes, IsLayout};

use crate::access::{copy_across, mapped_across, paste, paste_across, piece_at};
use crate::areas::Area;
use crate::memory::{Memory, StoreFault};
use basic_types::{Bytes, NoMemory};
use std::alloc::Global;

/// Memory as areas of bytes. It takes host memory only when it is made; stores never do.
#[derive(Drop)]
pub struct FlatMemory {
    alloc: Global,
    areas: Vec<Area>,
    ghost layout: { IsLayout areas.items },
}

impl FlatMemory {
    ghost use Rattle.std.specs.Prelude.{◌≡◌, IfOk};
    ghost use Rattle.guest_model.specs.AreaMap.{areas_bytes, IsLayout};
    ghost use Rattle.guest_model.specs.Flat.{flat_bytes};

    /// A memory that holds these bytes.
    ///
    /// # Errors
    /// `NoMemory` where there is no room for them.
    pub fn from_areas(alloc: Global, areas: &[Area]) -> Result<FlatMemory, NoMemory>
        requires { IsLayout areas.now }
        ensures { IfOk result (λ m. flat_bytes m ≡ areas_bytes areas.now) }
    {
        let areas = copy_areas(alloc, areas)?;
        Ok(FlatMemory { alloc, areas })
    }

    /// A memory of its own with the same bytes.
    ///
    /// # Errors
    /// `NoMemory` where there is no room for them.
    pub fn copy(&self) -> Result<FlatMemory, NoMemory>
        ensures { IfOk result (λ m. flat_bytes m ≡ flat_bytes self.now) }
    {
        FlatMemory::from_areas(self.alloc, self.areas.as_slice())
    }
}

/// A copy of these areas.
fn copy_areas(alloc: Global, areas: &[Area]) -> Result<Vec<Area>, NoMemory>
    ensures { IfOk result (λ v. v.items ≡ areas.now) }
{
    let mut copies = Vec::with_capacity(alloc, areas.len())?;
    for area in areas {
        let mut bytes = Bytes::new(alloc);
        bytes.append(area.bytes.as_slice())?;
        copies.push(Area {
            base: area.base,
            bytes,
        })?;
    }
    Ok(copies)
}

impl FlatMemory {
    ghost use Rattle.std.specs.Prelude.{◌≡◌, ◌^◌, ◌<◌, false, length};
    ghost use Rattle.guest_model.specs.Flat.{flat_bytes};
    ghost use Rattle.guest_model.specs.ByteMap.{CopiesOut, Stores};

    /// Stores these bytes from `a` on; most ranges lie in one area.
    #[inline]
    fn put(&mut self, a: u32, from: &[u8]) -> Result<(), StoreFault>
        requires { length from.now < 2 ^ 32 }
        ensures { Stores false (flat_bytes self.old) (flat_bytes self.new) a from.now result }
    {
        if paste(&mut self.areas, a, from) {
            return Ok(());
        }
        paste_across(&mut self.areas, a, from)
    }

    /// Fills `into` with the bytes from `a` on.
    #[inline]
    fn fill(&self, a: u32, into: &mut [u8]) -> bool
        requires { length into.old < 2 ^ 32 }
        ensures { CopiesOut (flat_bytes self.now) a into.old into.new result }
    {
        match piece_at(self.areas.as_slice(), a, into.len()) {
            Some(piece) => {
                into.copy_from_slice(piece);
                true
            }
            None => copy_across(self.areas.as_slice(), a, into),
        }
    }
}

impl Memory for FlatMemory {
    ghost use Rattle.std.specs.Prelude.{◌≡◌, true, false};
    ghost use Rattle.guest_model.specs.Flat.{flat_bytes};
    ghost use Rattle.guest_model.specs.AreaMap.{areas_bytes-bounded};

    ghost REFUSES = { false };

    ghost bytes = { flat_bytes };

    ghost written = { λ _ _. true };

    ghost bounded = { λ m q h. areas_bytes-bounded m.areas.items q m.layout.within h };

    const REFUSES: bool = false;

    #[inline]
    #[tactic(auto, unfolding(crate::specs::ByteMap::load))]
    fn load8(&self, a: u32) -> Option<u8> {
        let mut bytes = [0; 1];
        if self.fill(a, &mut bytes) {
            Some(bytes[0])
        } else {
            None
        }
    }

    #[inline]
    #[tactic(auto, unfolding(crate::specs::ByteMap::load))]
    fn load16(&self, a: u32) -> Option<u16> {
        let mut bytes = [0; 2];
        if self.fill(a, &mut bytes) {
            Some(u16::from_le_bytes(bytes))
        } else {
            None
        }
    }

    #[inline]
    #[tactic(auto, unfolding(crate::specs::ByteMap::load))]
    fn load32(&self, a: u32) -> Option<u32> {
        let mut bytes = [0; 4];
        if self.fill(a, &mut bytes) {
            Some(u32::from_le_bytes(bytes))
        } else {
            None
        }
    }

    #[inline]
    fn store8(&mut self, a: u32, v: u8) -> Result<(), StoreFault> {
        self.put(a, &[v])
    }

    #[inline]
    fn store16(&mut self, a: u32, v: u16) -> Result<(), StoreFault> {
        self.put(a, &v.to_le_bytes())
    }

    #[inline]
    fn store32(&mut self, a: u32, v: u32) -> Result<(), StoreFault> {
        self.put(a, &v.to_le_bytes())
    }

    fn mapped(&self, a: u32, n: u32) -> bool {
        let areas = self.areas.as_slice();
        if piece_at(areas, a, n as usize).is_some() {
            return true;
        }
        mapped_across(areas, a, n as usize)
    }

    fn copy_in(&mut self, a: u32, from: &[u8]) -> Result<(), StoreFault> {
        self.put(a, from)
    }

    fn copy_out(&self, a: u32, into: &mut [u8]) -> bool {
        self.fill(a, into)
    }
}
