//! The checks of the ELF header.

ghost use Rattle.std.specs.Prelude.{◌≡◌, ◌≤◌, length, OnOk};
ghost use Rattle.guest_model.specs.ImageFault.{lacks_magic, lacks_version, has_bad_table, header_fault};
ghost use Rattle.elf32_loader.specs.FaultOf.{Checks};
ghost use Rattle.elf32_loader.specs.HeaderTable.{HasTable};

use crate::fault::ImageFault;
use crate::fields::{half_at, word_at};
use crate::table::{ENTRY_SIZE, MOST_SEGMENTS};

/// How many bytes the ELF header has.
const HEADER_SIZE: usize = 52;

const CLASS_32: u8 = 1;

const LITTLE_ENDIAN: u8 = 1;

const VERSION: u8 = 1;

const EXECUTABLE: u16 = 2;

const RISC_V: u16 = 243;

/// The header has no fault, and the file has its program header table.
pub fn check_header(bytes: &[u8]) -> Result<(), ImageFault>
    ensures fault { Checks (header_fault bytes.now) result }
    ensures table { OnOk result (HasTable bytes.now) }
{
    if bytes.len() < HEADER_SIZE {
        return Err(ImageFault::Short);
    }
    if lacks_magic(bytes) {
        return Err(ImageFault::Magic);
    }
    if bytes[4] != CLASS_32 {
        return Err(ImageFault::Class);
    }
    if bytes[5] != LITTLE_ENDIAN {
        return Err(ImageFault::ByteOrder);
    }
    if lacks_version(bytes) {
        return Err(ImageFault::Version);
    }
    if half_at(bytes, 16) != EXECUTABLE {
        return Err(ImageFault::Kind);
    }
    if half_at(bytes, 18) != RISC_V {
        return Err(ImageFault::Machine);
    }
    if has_bad_table(bytes) {
        return Err(ImageFault::Headers);
    }
    Ok(())
}

/// The file doesn't begin with the four bytes of ELF.
fn lacks_magic(bytes: &[u8]) -> bool
    requires { 52 ≤ length bytes.now }
    ensures { result ≡ lacks_magic bytes.now }
{
    !(bytes[0] == 0x7F && bytes[1] == b'E' && bytes[2] == b'L' && bytes[3] == b'F')
}

/// The version in the identification or the one in the header is not 1.
fn lacks_version(bytes: &[u8]) -> bool
    requires { 52 ≤ length bytes.now }
    ensures { result ≡ lacks_version bytes.now }
{
    !(bytes[6] == VERSION && word_at(bytes, 20) == u32::from(VERSION))
}

/// The program header table has entries of another size, none or too many, or passes the file's end.
fn has_bad_table(bytes: &[u8]) -> bool
    requires { 52 ≤ length bytes.now }
    ensures value { result ≡ has_bad_table bytes.now }
{
    let start = word_at(bytes, 28) as usize;
    let count = half_at(bytes, 44) as usize;
    half_at(bytes, 42) as usize != ENTRY_SIZE
        || count == 0
        || MOST_SEGMENTS < count
        || bytes.len() < start + ENTRY_SIZE * count
}
