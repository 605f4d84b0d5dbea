//! Laws about definitions, each the contract of a function that does nothing.

ghost use Rattle.std.specs.Prelude.{◌≡◌, Some, None, []};
ghost use Rattle.guest_model.specs.Difference.{difference};
ghost use Rattle.guest_model.specs.MachineState.{MachineState};
ghost use Rattle.guest_model.specs.Registers.{IsRegFile};
ghost use Rattle.guest_model.specs.declared.difference.Difference.{Difference};
ghost use Rattle.difference_text.specs.Differences.{differences_lines};
ghost use Rattle.difference_text.specs.FirstLine.{BeginsWith, first_words};

/// The first line tells of the first difference, which is the one that a row names; and states without a difference have no
/// line.
pub fn the_first_line_is_the_first_difference()
    ensures first { (a b : MachineState) (d : Difference) → IsRegFile a.regs → IsRegFile b.regs → difference a b ≡ Some d → BeginsWith (differences_lines a b) (first_words d) }
    ensures none { (a b : MachineState) → IsRegFile a.regs → IsRegFile b.regs → difference a b ≡ None → differences_lines a b ≡ [] }
{}
