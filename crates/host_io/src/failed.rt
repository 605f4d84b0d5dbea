use std::error::Error;
use std::fmt;

/// A call of a file, a source or a sink failed. The object's count of faults tells it too.
#[derive(Clone, Copy, Debug, PartialEq, Eq)]
pub struct Failed;

impl fmt::Display for Failed {
    fn fmt<W: fmt::Write>(&self, f: &mut fmt::Formatter<W>) -> fmt::Result {
        write!(f, "input or output failed")
    }
}

impl Error for Failed {}
