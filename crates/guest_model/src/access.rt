//! Reads and writes of ranges in a list of areas.

ghost use Rattle.std.specs.Prelude.{◌≡◌, ◌+◌, ◌^◌, ◌<◌, ◌≤◌, false, IsTrue, length, IfSome, IfNone};
ghost use Rattle.guest_model.specs.ByteMap.{mapped, CopiesOut, Stores};
ghost use Rattle.guest_model.specs.AreaMap.{areas_bytes, IsLayout};
ghost use Rattle.guest_model.specs.Place.{IsPlace, HasNoPlace, IsPiece, Pastes};

use crate::areas::Area;
use crate::memory::StoreFault;

/// In the area `index`, from `offset` on.
#[derive(Clone, Copy)]
pub struct Place {
    pub index: usize,
    pub offset: usize,
}

/// The place of the `n` bytes from `a` on, where one area has all of them and the first of them is there.
#[inline]
pub fn locate(areas: &[Area], a: u32, n: usize) -> Option<Place>
    requires { IsLayout areas.now }
    ensures found { IfSome result (λ p. IsPlace areas.now a n p) }
    ensures none { IfNone result (HasNoPlace areas.now a n) }
{
    for (index, area) in areas.iter().enumerate() {
        if area.base <= a {
            let offset = (a - area.base) as usize;
            let len = area.bytes.len();
            if offset < len && n <= len - offset {
                return Some(Place { index, offset });
            }
        }
    }
    None
}

/// The `n` bytes from `a` on, where one area has all of them.
#[inline]
pub fn piece_at(areas: &[Area], a: u32, n: usize) -> Option<&[u8]>
    requires { IsLayout areas.now }
    ensures { IfSome result (λ p. IsPiece (areas_bytes areas.now) a n p.now) }
{
    let place = locate(areas, a, n)?;
    let bytes = areas[place.index].bytes.as_slice();
    Some(&bytes[place.offset..place.offset + n])
}

/// Writes these bytes from `a` on, where one area has all of the range.
#[inline]
pub fn paste(areas: &mut [Area], a: u32, from: &[u8]) -> bool
    requires { IsLayout areas.old }
    ensures pastes { Pastes areas.old areas.new a from.now result }
    ensures layout { IsLayout areas.new }
{
    match locate(areas, a, from.len()) {
        Some(place) => {
            let area = &mut areas[place.index];
            area.bytes.overwrite(place.offset, from);
            true
        }
        None => false,
    }
}

/// The byte at `a`, None where no area has it.
pub fn byte_at(areas: &[Area], a: u32) -> Option<u8>
    requires { IsLayout areas.now }
    ensures { result ≡ areas_bytes areas.now a }
{
    let place = locate(areas, a, 1)?;
    let bytes = areas[place.index].bytes.as_slice();
    Some(bytes[place.offset])
}

/// The `n` bytes from `a` on are there, whichever areas have them.
#[cold]
pub fn mapped_across(areas: &[Area], a: u32, n: usize) -> bool
    requires layout { IsLayout areas.now }
    requires count { n < 2 ^ 32 }
    ensures value { result ≡ mapped (areas_bytes areas.now) a n }
    ensures bound { IsTrue result → a + n ≤ 2 ^ 32 }
{
    if a as u64 + n as u64 > 1 << 32 {
        return false;
    }
    for k in 0..n {
        if byte_at(areas, a + k as u32).is_none() {
            return false;
        }
    }
    true
}

/// Fills `into` with the bytes from `a` on, whichever areas have them.
#[cold]
pub fn copy_across(areas: &[Area], a: u32, into: &mut [u8]) -> bool
    requires layout { IsLayout areas.now }
    requires count { length into.old < 2 ^ 32 }
    ensures { CopiesOut (areas_bytes areas.now) a into.old into.new result }
{
    if !mapped_across(areas, a, into.len()) {
        return false;
    }
    for k in 0..into.len() {
        into[k] = byte_at(areas, a + k as u32).unwrap_or(0);
    }
    true
}

/// Writes these bytes from `a` on, whichever areas have the range.
#[cold]
pub fn paste_across(areas: &mut [Area], a: u32, from: &[u8]) -> Result<(), StoreFault>
    requires layout { IsLayout areas.old }
    requires count { length from.now < 2 ^ 32 }
    ensures stores { Stores false (areas_bytes areas.old) (areas_bytes areas.new) a from.now result }
    ensures layout { IsLayout areas.new }
{
    if !mapped_across(areas, a, from.len()) {
        return Err(StoreFault::Unmapped);
    }
    for k in 0..from.len() {
        paste(areas, a + k as u32, &from[k..k + 1]);
    }
    Ok(())
}
