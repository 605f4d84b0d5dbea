//! What holds of all tracks, each the contract of a function that does nothing.

ghost use Rattle.std.specs.Prelude.{◌≡◌, ◌≤◌, ℕ, List, length};
ghost use Rattle.speculation.specs.declared.tracks.Kind.{Kind};
ghost use Rattle.speculation.specs.declared.history.Settings.{Settings};
ghost use Rattle.speculation.specs.Core.{at_boundary, most_slice};
ghost use Rattle.speculation.specs.Events.{left_over, slice};
ghost use Rattle.guest_model.specs.MachineState.{MachineState};
ghost use Rattle.guest_model.specs.Rv32.{rv32};
ghost use Rattle.guest_model.specs.declared.state.State.{State};
ghost use Rattle.held_output.specs.Held.{Rises};
ghost use Rattle.paged_image.specs.declared.image.PagedImage.{PagedImage};
ghost use Rattle.track_state.specs.declared.track.Track.{Track};
ghost use Rattle.track_state.specs.Kept.{KeepsStart, AreComparable};
ghost use Rattle.track_state.specs.Views.{TrackView, core_track, begun, is_at_boundary, IsTrack};
ghost use Rattle.track_state.specs.Runs.{RunsOver, run_length};

/// Every track keeps its start outside of the pages that it wrote. So two states that keep one start can be compared.
#[tactic(auto, using(crate::proofs::OnTracks::are_comparable))]
pub fn tracks_keep_their_starts()
    ensures tracks { (t : Track) → IsTrack t }
    ensures comparable { (start : MachineState) (a b : State PagedImage) → KeepsStart start a → KeepsStart start b → AreComparable a b }
{}

/// A track that begins runs over every input that is as long as its start has read, and a track that begins where another
/// stands runs over each input that the other runs over. So does a track that gave some of its first pieces away.
pub fn tracks_run_over_inputs()
    ensures begun { (input : List ℕ) (kind : Kind) (s : MachineState) (budget : ℕ) → s.place ≤ length input → RunsOver input (begun kind s budget) }
    ensures from { (input : List ℕ) (kind : Kind) (t : TrackView) → RunsOver input t → RunsOver input (begun kind t.state t.budget) }
    ensures left { (input : List ℕ) (limit : ℕ) (t : TrackView) → Rises t.held → RunsOver input t → RunsOver input (record t { held = left_over limit t.held }) }
{}

/// Where a track stands at its boundary, so does that of the theory, and a run of at most `most_slice` instructions takes
/// the theory's slice.
#[tactic(auto, using(crate::proofs::OnTracks::boundary_is, crate::proofs::OnTracks::length_slice))]
pub fn tracks_are_those_of_the_theory()
    ensures boundary { (input : List ℕ) (t : TrackView) → RunsOver input t → at_boundary (rv32 input) (core_track t) ≡ is_at_boundary t }
    ensures slice { (input : List ℕ) (b : Settings) (t : TrackView) → t.budget ≡ b.budget → run_length input t most_slice ≡ slice (rv32 input) b (core_track t) }
{}
