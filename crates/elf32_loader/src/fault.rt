use std::alloc::{AllocError, AllocFailed};
use thiserror::Error;

/// Why an image was refused: the first fault in this order, or want of memory.
///
/// A place is that of a program header in the table, from 0; of several the least is named. Only segments of the type
/// PT_LOAD are loaded.
#[derive(Clone, Copy, Debug, PartialEq, Eq, Error)]
pub enum ImageFault {
    /// The file has fewer than 52 bytes.
    #[error("short")]
    Short,
    /// It doesn't begin with 7F 45 4C 46.
    #[error("magic")]
    Magic,
    /// It isn't of 32 bits.
    #[error("class")]
    Class,
    /// It isn't little-endian.
    #[error("byte order")]
    ByteOrder,
    /// A version, in the identification or in e_version, is not 1.
    #[error("version")]
    Version,
    /// It is no executable (ET_EXEC).
    #[error("kind")]
    Kind,
    /// It isn't for RISC-V.
    #[error("machine")]
    Machine,
    /// The program header table has entries of another size than 32, none or more than 64, or passes the file's end.
    #[error("headers")]
    Headers,
    /// The header at this place is PT_DYNAMIC or PT_INTERP.
    #[error("dynamic {0}")]
    Dynamic(u16),
    /// The segment at this place has less memory than file bytes, file bytes past the file's end, or memory past 2^32.
    #[error("segment {0}")]
    Segment(u16),
    /// The segments at these two places, the lower one first, share a byte address.
    #[error("overlap {0} {1}")]
    Overlap(u16, u16),
    /// The segment at this place shares a byte address with the stack.
    #[error("stack overlap {0}")]
    StackOverlap(u16),
    /// The pages of the segments, counted one segment at a time, and the stack's 256 are more than 8,192.
    #[error("too large")]
    TooLarge,
    /// The entry is no multiple of 4, or lies in no page of a segment or of the stack.
    #[error("entry")]
    Entry,
    /// The host's memory ran out; the image has no fault.
    #[error("no memory")]
    NoMemory,
}

impl From<AllocError> for ImageFault {
    ghost use Rattle.std.specs.Prelude.{◌≡◌};
    ghost use Rattle.elf32_loader.specs.declared.fault.ImageFault.TheVariants.{NoMemory};

    ghost from_gives = { λ _ e. e ≡ NoMemory };

    fn from(_refusal: AllocError) -> ImageFault {
        ImageFault::NoMemory
    }
}

impl<T: Drop> From<AllocFailed<T>> for ImageFault {
    ghost use Rattle.std.specs.Prelude.{◌≡◌};
    ghost use Rattle.elf32_loader.specs.declared.fault.ImageFault.TheVariants.{NoMemory};

    ghost from_gives = { λ _ e. e ≡ NoMemory };

    fn from(_refusal: AllocFailed<T>) -> ImageFault {
        ImageFault::NoMemory
    }
}
