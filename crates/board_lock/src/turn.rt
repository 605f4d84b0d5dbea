//! Access to the value of a turn.
ghost use Rattle.std.specs.Prelude.{◌≡◌};
ghost use Rattle.std.specs.Borrow.{Lends, sem};
ghost use Rattle.board_lock.specs.contracts.pass.Turn.{the_row};

use crate::pass::Turn;

impl<T> Turn<T> {
    /// The value. When the borrow ends, the turn has what was written through it.
    pub fn get(&mut self) -> &mut T
        ensures* writes_back { sem 𝓛 (Lends (the_row T.row) T.row self.entry result (λ w. w)) }
        ensures value { result.now ≡ self.old }
    {
        &mut self.value
    }
}
