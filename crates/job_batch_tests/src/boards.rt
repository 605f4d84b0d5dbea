//! Boards of small programs.

ghost use Rattle.std.specs.Prelude.{◌≡◌, ◌≤◌, ◌+◌, ◌^◌, All, IfOk, OnOk, length};
ghost use Rattle.job_batch.specs.Ends.{IsFresh};

use basic_types::Bytes;
use elf32_loader::load;
use std::alloc::Global;
use std::sync::Arc;
use std::test::Fail;
use track_board::{Board, Settings};

/// A board of this image, without input, with at most two open regions.
fn board_of(alloc: Global, image: &[u8], budget: u64) -> Result<Board, Fail>
    requires { budget ≤ 2 ^ 40 }
    ensures { IfOk result IsFresh }
{
    let loaded = load(alloc, image)?;
    let input = Arc::new(alloc, Bytes::new(alloc))?;
    let settings = Settings { tracks: 2, budget };
    Ok(Board::new(alloc, &loaded, input, settings)?)
}

/// Adds such a board.
pub fn add(alloc: Global, boards: &mut Vec<Board>, image: &[u8], budget: u64) -> Result<(), Fail>
    requires budget { budget ≤ 2 ^ 40 }
    requires fresh { All IsFresh boards.old.items }
    ensures fresh { OnOk result (All IsFresh boards.new.items) }
    ensures more { OnOk result (length boards.new.items ≡ length boards.old.items + 1) }
{
    boards.push(board_of(alloc, image, budget)?)?;
    Ok(())
}
