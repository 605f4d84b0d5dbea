//! Doing all that is due.

ghost use Rattle.std.specs.Prelude.{◌≡◌, ℕ, None, IfOk, OnErr, MatchResult};

use crate::board::Board;
use basic_types::NoMemory;
use speculation::Entry;

impl Board {
    ghost use Rattle.track_board.specs.Value.{IsKnown};
    ghost use Rattle.track_board.specs.Settles.{Settles, SettlesOne, due_of};

    /// Does the due events, one after another, until none is due, and answers their number.
    ///
    /// # Errors
    /// `NoMemory`, after some whole events. The same call may be made again, and does the rest.
    pub fn settle(&mut self) -> Result<u64, NoMemory>
        ensures ok { IfOk result (λ n. Settles n self.old self.new × (due_of self.new ≡ None)) }
        ensures err { OnErr result ((n : ℕ) × Settles n self.old self.new) }
        ensures known { IsKnown self.new }
    {
        let before = self.entries.len();
        while self.settle_one()?.is_some() {}
        Ok((self.entries.len() - before) as u64)
    }

    /// Does the one event that is due, and answers its entry: None exactly where none is due.
    ///
    /// # Errors
    /// `NoMemory`, and then the board is as before.
    pub fn settle_one(&mut self) -> Result<Option<Entry>, NoMemory>
        ensures one { MatchResult result (SettlesOne self.old self.new) (λ _. self.new ≡ self.old) }
        ensures known { IsKnown self.new }
    {
        let Some(due) = self.find_due() else {
            return Ok(None);
        };
        self.act(due)?;
        Ok(Some(self.entries[self.entries.len() - 1]))
    }
}
