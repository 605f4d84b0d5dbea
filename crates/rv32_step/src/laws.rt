//! What is known of every step.

ghost use Rattle.std.specs.Prelude.{ℕ, List};
ghost use Rattle.guest_model.specs.MachineState.{MachineState};
ghost use Rattle.rv32_step.specs.FastStep.{IsFastStep};

/// A law: `fast` bears on the step at FastTrack alone.
#[tactic(auto, using(crate::proofs::FastSteps::is_fast_step))]
pub fn fast_step_law()
    ensures { (input : List ℕ) (s : MachineState) → IsFastStep input s }
{}
