//! The fault of an image as text.

use elf32_loader::ImageFault;
use std::fmt;

/// A fault of an image, which prints as its name with the places of the program headers that it names.
#[derive(Debug, Clone, Copy, PartialEq, Eq)]
pub struct FaultText(pub ImageFault);

impl fmt::Display for FaultText {
    ghost use Rattle.std.specs.Prelude.{Some};
    ghost use Rattle.fault_text.specs.FaultTexts.{fault_text};

    ghost output = { λ t. Some (fault_text t.0) };

    fn fmt<W: fmt::Write>(&self, f: &mut fmt::Formatter<W>) -> fmt::Result {
        match self.0 {
            ImageFault::Short => write!(f, "short"),
            ImageFault::Magic => write!(f, "magic"),
            ImageFault::Class => write!(f, "class"),
            ImageFault::ByteOrder => write!(f, "byte order"),
            ImageFault::Version => write!(f, "version"),
            ImageFault::Kind => write!(f, "kind"),
            ImageFault::Machine => write!(f, "machine"),
            ImageFault::Headers => write!(f, "headers"),
            ImageFault::Dynamic(i) => write!(f, "dynamic {i}"),
            ImageFault::Segment(i) => write!(f, "segment {i}"),
            ImageFault::Overlap(i, j) => write!(f, "overlap {i} {j}"),
            ImageFault::StackOverlap(i) => write!(f, "stack overlap {i}"),
            ImageFault::TooLarge => write!(f, "too large"),
            ImageFault::Entry => write!(f, "entry"),
            ImageFault::NoMemory => write!(f, "no memory"),
        }
    }
}
