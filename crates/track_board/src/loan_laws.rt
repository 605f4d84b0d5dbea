//! What a seat may count on while other seats act, each the contract of a function that does nothing.

ghost use Rattle.std.specs.Prelude.{◌≡◌, ◌≢◌, ℕ, List, if◌then◌else◌};
ghost use Rattle.speculation.specs.declared.tracks.Name.{Name};
ghost use Rattle.speculation.specs.declared.history.Entry.TheVariants as E;
ghost use Rattle.speculation.specs.Run.{Mark};
ghost use Rattle.speculation.specs.Core.{most_slice, over};
ghost use Rattle.track_state.specs.Views.{view_of};
ghost use Rattle.track_state.specs.Runs.{RanOn, run_length};
ghost use Rattle.track_board.specs.declared.loan.Loan.{Loan};
ghost use Rattle.track_board.specs.declared.loan.Back.{Back};
ghost use Rattle.track_board.specs.Value.{Posted, IsKnown, core_of, posted};
ghost use Rattle.track_board.specs.Loans.{IsLoanOf, IsLent, IsReturned};
ghost use Rattle.track_board.specs.Settles.{Settles, released_with};
ghost use Rattle.track_board.specs.Others.{OthersAct, IsOut, MayComeHome};

/// A track that was lent is out with its seat. It may come home once it was run by one slice.
pub fn loans_come_home()
    ensures out { (v w : Posted) (seat : ℕ) (loan : Loan) → IsLent v w seat loan → IsOut w seat loan }
    ensures home { (v : Posted) (seat : ℕ) (loan ran : Loan) (n : ℕ) → IsOut v seat loan → ran.name ≡ loan.name →
        n ≡ run_length loan.input (view_of loan.track) most_slice →
        RanOn loan.input (view_of loan.track) (view_of ran.track) n → MayComeHome v seat ran }
{}

/// While only others act a loan stays out with its seat, and what may come home still may: either no discard drops the track,
/// and then it is the live track of its name, or nothing is asked of it. The name stays lent to the seat, whatever became of the track.
pub fn loans_stay_lent()
    ensures out { (v w : Posted) (seat : ℕ) (loan : Loan) → IsKnown v → IsKnown w → OthersAct seat v w → IsOut v seat loan → IsOut w seat loan }
    ensures home { (v w : Posted) (seat : ℕ) (loan : Loan) → IsKnown v → IsKnown w → OthersAct seat v w → MayComeHome v seat loan → MayComeHome w seat loan }
    ensures lent { (v w : Posted) (seat : ℕ) (n : Name) → IsKnown v → IsKnown w → OthersAct seat v w → IsLoanOf v seat n → IsLoanOf w seat n }
{}

/// Due events belong to no seat, what is released to seat 0, and what goes out or halts the board to the seat that did it.
pub fn others_act()
    ensures settle { (seat n : ℕ) (v w : Posted) → Settles n v w → OthersAct seat v w }
    ensures release { (seat : ℕ) (v w : Posted) (bytes : List Mark) → 0 ≢ seat → w ≡ released_with v bytes → OthersAct seat v w }
    ensures lend { (seat other : ℕ) (v w : Posted) (loan : Loan) → other ≢ seat → IsLent v w other loan → OthersAct seat v w }
    ensures halt { (seat other : ℕ) (v w : Posted) → other ≢ seat → w ≡ (if over (core_of v) then v else posted v (E.Halt other)) → OthersAct seat v w }
    ensures after { (seat : ℕ) (u v w : Posted) → OthersAct seat u v → OthersAct seat v w → OthersAct seat u w }
{}

/// What comes home, or is given up, belongs to the seat that had it.
pub fn others_end_their_loans()
    ensures back { (seat other : ℕ) (v w : Posted) (n : Name) (result : Back) → IsKnown v → other ≢ seat → IsLoanOf v other n → IsReturned v w n result → OthersAct seat v w }
    ensures gone { (seat other : ℕ) (v w : Posted) (n : Name) → IsKnown v → other ≢ seat → IsLoanOf v other n → w ≡ posted v (E.Gone n) → OthersAct seat v w }
{}
