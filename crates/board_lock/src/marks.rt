//! A small value for a lock: a list of marks, each a pair of a seat and a number.
ghost use Rattle.std.specs.Prelude.{◌≡◌, [], ◌∷◌, ◌++◌, List, ℕ, false, OnOk, OnErr};

use crate::kept::Kept;
use crate::lock::TurnLock;
use crate::pass::Pass;
use basic_types::NoMemory;
use std::alloc::Global;
use std::sync::Wait;

/// Marks under a name that no turn changes.
#[derive(Drop)]
pub struct Marks {
    pub name: u64,
    pub marks: Vec<(u64, u64)>,
}

impl Kept for Marks {
    type Item = (u64, u64);

    type Fixed = u64;

    ghost use Rattle.std.specs.Prelude.{Some};

    ghost fixed = { λ m. m.name };

    ghost entries = { λ m. m.marks.items };

    ghost belongs = { λ _ mark. Some mark.0 };

    fn length(&self) -> u64 {
        self.marks.len() as u64
    }
}

impl Marks {
    pub fn new(alloc: Global, name: u64) -> Marks
        ensures marks { result.marks.items ≡ [] }
        ensures name { result.name ≡ name }
    {
        Marks {
            name,
            marks: Vec::new(alloc),
        }
    }

    /// Appends a mark.
    pub fn add(&mut self, seat: u64, number: u64) -> Result<(), NoMemory>
        ensures ok { OnOk result
            (self.new.marks.items ≡ self.old.marks.items ++ (seat, number) ∷ []) }
        ensures err { OnErr result (self.new.marks.items ≡ self.old.marks.items) }
        ensures name { self.new.name ≡ self.old.name }
    {
        self.marks.push((seat, number))?;
        Ok(())
    }
}

/// A turn in which the pass appends a mark of its seat, behind all that others appended before.
pub fn append<R: Wait>(
    rt: &R,
    lock: &TurnLock<Marks>,
    pass: &mut Pass<Marks>,
    number: u64,
) -> Result<(), NoMemory>
    requires lock { pass.old.lock ≡ lock.now }
    requires idle { pass.old.in_turn ≡ false }
    ensures pass { pass.new ≡ record pass.old { seen = pass.new.seen } }
    ensures ok { OnOk result ((others : List (ℕ × ℕ))
        × (pass.new.seen ≡ pass.old.seen ++ others ++ (pass.old.seat, number) ∷ [])) }
{
    let seat = pass.seat();
    let mut turn = lock.enter(rt, pass);
    let added = turn.get().add(seat, number);
    lock.leave(turn, pass);
    added
}
