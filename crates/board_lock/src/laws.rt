//! What the contracts of the lock's calls say together.
ghost use Rattle.std.specs.Prelude.{List, [], ◌∷◌};
ghost use Rattle.atomic_table.specs.Seated.{TableId};
ghost use Rattle.board_lock.specs.Passes.{first_pass};
ghost use Rattle.board_lock.specs.Seats.{Call, after_calls, AreApart};

use crate::kept::Kept;

/// Whatever passes enter, leave and are split, no two passes of one lock have one seat number, and
/// no seat number is above 2^64 - 2.
pub fn law_of_seats<T: Kept>(value: &T)
    ensures { (lock : TableId) (calls : List (Call T.Item))
        → AreApart (after_calls (first_pass T.fixed T.entries lock value.now ∷ []) calls) }
{
    let _ = value;
}
