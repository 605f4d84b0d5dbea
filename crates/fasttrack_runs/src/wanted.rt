//! Bytes that a sink must get, in pieces.

use crate::bytes::{Blocks, append_line};
use crate::fault::Fault;
use std::alloc::Global;

/// The bytes that a sink must get. Each line that makes some of them is a piece: one call of the sink.
#[derive(Drop)]
pub struct Pieces {
    bytes: Vec<u8>,
    /// How many bytes stand before each piece.
    starts: Vec<usize>,
}

impl Pieces {
    pub fn new(alloc: Global) -> Pieces {
        Pieces {
            bytes: Vec::new(alloc),
            starts: Vec::new(alloc),
        }
    }

    /// Appends the piece that a line makes.
    pub fn read_line(&mut self, alloc: Global, blocks: &Blocks, line: &str) -> Result<(), Fault> {
        self.starts.push(self.bytes.len())?;
        append_line(alloc, blocks, &mut self.bytes, line)
    }

    /// All bytes.
    pub fn all(&self) -> &[u8] {
        self.bytes.as_slice()
    }

    /// How many bytes stand before each piece.
    pub fn starts(&self) -> &[usize] {
        self.starts.as_slice()
    }

    /// The first so many bytes, or all where there are fewer.
    pub fn first(&self, count: usize) -> &[u8] {
        self.bytes.as_slice().get(..count).unwrap_or(self.all())
    }
}
