use basic_types::Bytes;
use std::marker::Model;

/// What one instruction wrote.
#[derive(Debug, Drop)]
pub struct Piece {
    /// The number of the instruction, counted from 1 at the start of its track.
    pub number: u64,
    /// The stream: 1 or 2.
    pub stream: u8,
    pub bytes: Bytes,
}

impl Model for Piece {
    ghost use Rattle.speculation.specs.Run.{Piece};

    ghost Value = { Piece };

    ghost view = { λ p. record { number = p.number; stream = p.stream; bytes = p.bytes } };
}
