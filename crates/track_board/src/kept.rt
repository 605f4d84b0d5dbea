//! The board as the value of a lock.

use crate::board::Board;
use board_lock::Kept;
use elf32_loader::Loaded;
use speculation::{Entry, Settings};
use std::collections::LinkedList;

/// The part of a board that no call changes. No value of it is made.
pub struct Program {
    pub settings: Settings,
    pub loaded: Loaded,
    pub input: LinkedList<u8>,
}

impl Kept for Board {
    type Item = Entry;

    type Fixed = Program;

    ghost use Rattle.speculation.specs.Loans.{owner_of};
    ghost use Rattle.track_board.specs.Owners.{program_of};

    ghost fixed = { program_of };

    ghost entries = { λ b. b.entries };

    ghost belongs = { owner_of };

    fn length(&self) -> u64 {
        self.entries.len() as u64
    }
}
