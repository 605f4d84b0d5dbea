//! The jobs of a batch.

ghost use Rattle.std.specs.Prelude.{◌≡◌};

use std::marker::Model;
use track_board::Board;

/// The boards of the jobs of a batch, numbered from 0.
#[derive(Drop)]
pub struct Jobs {
    boards: Vec<Board>,
}

impl Model for Jobs {
    ghost use Rattle.std.specs.Prelude.{List};
    ghost use Rattle.track_board.specs.Value.{Posted};

    ghost Value = { List Posted };

    ghost view = { λ j. j.boards.items };
}

impl Jobs {
    pub fn from_vec(boards: Vec<Board>) -> Jobs
        ensures { result ≡ boards.items }
    {
        Jobs { boards }
    }

    pub(crate) fn into_boards(self) -> Vec<Board>
        ensures { result.items ≡ self }
    {
        let Jobs { boards } = self;
        boards
    }
}
