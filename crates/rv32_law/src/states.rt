//! What the states of a program keep, each the contract of a function that does nothing.

ghost use Rattle.std.specs.Prelude.{◌≡◌, ◌≢◌, ℕ, ◌+◌, ◌*◌, ◌^◌, ◌≤◌, Bool, List, ◌++◌, Some, None, length};
ghost use Rattle.speculation.specs.declared.tracks.Kind.{Kind};
ghost use Rattle.speculation.specs.declared.history.Settings.{Settings};
ghost use Rattle.speculation.specs.declared.history.Entry.{Entry};
ghost use Rattle.speculation.specs.Run.{Piece, fresh, go, out, pieces};
ghost use Rattle.speculation.specs.Tracks.{point};
ghost use Rattle.speculation.specs.Core.{Core, held_size, verified};
ghost use Rattle.speculation.specs.Law.{Exact, IsHistory};
ghost use Rattle.guest_model.specs.AreaMap.{areas_bytes, IsLayout};
ghost use Rattle.guest_model.specs.Difference.{difference};
ghost use Rattle.guest_model.specs.Image.{start_of};
ghost use Rattle.guest_model.specs.MachineState.{MachineState};
ghost use Rattle.guest_model.specs.Rv32.{rv32, answer_one};
ghost use Rattle.guest_model.specs.Step.{step};
ghost use Rattle.guest_model.specs.declared.areas.Area.{Area};
ghost use Rattle.guest_model.specs.declared.difference.Difference.{Difference};
ghost use Rattle.guest_model.specs.declared.end.End.{End};
ghost use Rattle.guest_model.specs.declared.end.End.TheVariants.{Spent};
ghost use Rattle.guest_model.specs.declared.state.Heap.{Heap};
ghost use Rattle.rv32_law.specs.GuestStates.{IsGuestState, SharesLayout, KeepsState, StepKeeps};

/// The program of areas that end at 2^32 at the latest starts in a guest state.
pub fn programs_start_in_guest_states()
    ensures { (input : List ℕ) (entry : ℕ) (areas : List Area) (heap : Heap) → IsLayout areas →
        IsGuestState input (start_of (record { entry = entry; memory = areas_bytes areas; heap = heap })) }
{}

/// One instruction leads from a guest state to a guest state with the same layout, whatever the opening call is answered.
pub fn steps_keep_states()
    ensures step { (fast : Bool) (input : List ℕ) (s : MachineState) → IsGuestState input s → StepKeeps input s (step fast input s) }
    ensures answer { (input : List ℕ) (s : MachineState) → IsGuestState input s → KeepsState input s (answer_one s) }
{}

/// A run, and the track of every kind, stands in a guest state with the layout of its start, and no end that it met is
/// that a budget was spent.
pub fn runs_keep_states()
    ensures runs { (input : List ℕ) (s : MachineState) (n : ℕ) → IsGuestState input s → KeepsState input s (go (rv32 input) (fresh s) n).state }
    ensures tracks { (input : List ℕ) (kind : Kind) (s : MachineState) (own : ℕ) → IsGuestState input s →
        KeepsState input s (point (rv32 input) kind s own).state }
    ensures ends { (input : List ℕ) (kind : Kind) (s : MachineState) (own : ℕ) (e : End) → IsGuestState input s →
        (point (rv32 input) kind s own).end ≡ Some e → e ≢ Spent }
{}

/// No difference is missed between guest states of one layout, and none is found in one state. So the premise of the law
/// of histories holds of every program that starts in a guest state.
pub fn no_difference_is_missed()
    ensures none { (input : List ℕ) (s t : MachineState) → IsGuestState input s → IsGuestState input t → SharesLayout s t →
        difference s t ≡ None → s ≡ t }
    ensures same { (s : MachineState) → difference s s ≡ None }
    ensures exact { (input : List ℕ) (start : MachineState) → IsGuestState input start → Exact (rv32 input) start }
{}

/// One instruction writes at most 2^20 bytes, so a run of at most 2^40 instructions writes at most 2^60.
pub fn output_is_bounded()
    ensures run { (input : List ℕ) (s : MachineState) (n : ℕ) → IsGuestState input s → length (out (rv32 input) (fresh s) n) ≤ n * 2 ^ 20 }
    ensures held { (input : List ℕ) (s : MachineState) (n : ℕ) (given held : List Piece) → IsGuestState input s →
        given ++ held ≡ pieces (rv32 input) (fresh s) 0 n → held_size held ≤ n * 2 ^ 20 }
    ensures history { (input : List ℕ) (b : Settings) (start : MachineState) (entries : List Entry) (c : Core MachineState End Difference) →
        IsGuestState input start → IsHistory (rv32 input) b start entries c → length (c.released ++ verified b c) ≤ b.budget * 2 ^ 20 }
{}
