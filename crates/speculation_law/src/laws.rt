//! The laws of histories at the toy machine, each the contract of a function that does nothing.
ghost use Rattle.std.specs.Prelude.{◌≡◌, ◌<◌, ℕ, List, ◌++◌, Some, None, false, IsTrue};
ghost use Rattle.speculation.specs.declared.tracks.Name.{Name};
ghost use Rattle.speculation.specs.declared.tracks.OpenLoan.{OpenLoan};
ghost use Rattle.speculation.specs.declared.history.Settings.{Settings};
ghost use Rattle.speculation.specs.declared.history.Entry.{Entry};
ghost use Rattle.speculation.specs.declared.toy.Instruction.{Instruction};
ghost use Rattle.speculation.specs.declared.toy.State.{State};
ghost use Rattle.speculation.specs.declared.toy.End.{End};
ghost use Rattle.speculation.specs.declared.toy.Difference.{Difference};
ghost use Rattle.speculation.specs.Record.{alone, IsPrefixOf};
ghost use Rattle.speculation.specs.Verdicts.{Seen, Judged, judge, verdict};
ghost use Rattle.speculation.specs.Ledger.{Row, ledger};
ghost use Rattle.speculation.specs.Core.{Core, Finished, find_loan};
ghost use Rattle.speculation.specs.Events.{lendable, core_run};
ghost use Rattle.speculation.specs.Law.{IsHistory, IsPartial, IsComplete};
ghost use Rattle.speculation.specs.Serial.{first_lendable, serial_next, IsSerial};
ghost use Rattle.speculation.specs.Loans.{IsForeign};
ghost use Rattle.speculation.specs.Toy.{toy};
ghost use Rattle.speculation_law.specs.Sees.{Sees};
ghost use Rattle.speculation_law.specs.Naming.{Sound};
ghost use Rattle.speculation_law.specs.Totals.{Totalled};
ghost use Rattle.speculation_law.specs.Fates.{TrackStays};
ghost use Rattle.speculation_law.specs.Serial.{HasFinished, IsAllowed, IsSerialSoFar};

/// Of every legal history, what came out and what may come out is a prefix of what the program alone writes within the
/// budget, and the rows are a prefix of its ledger. Where the history has a finish, end and count are the program's own,
/// and both are whole. Nothing is said of who gets on, of time, or of memory.
pub fn law_of_histories()
    ensures partial { (program : List Instruction) (b : Settings) (start : State) (entries : List Entry) (c : Core State End Difference) →
        IsHistory (toy program) b start entries c → IsPartial (toy program) b start c }
    ensures complete { (program : List Instruction) (b : Settings) (start : State) (entries : List Entry) (c : Core State End Difference) (f : Finished End) →
        IsHistory (toy program) b start entries c → c.finish ≡ Some f → IsComplete (toy program) b start c f }
{}

/// The facts of the core of every legal history: where its tracks stand, their names, and the bounds of its numbers.
pub fn histories_are_sound()
    ensures { (program : List Instruction) (b : Settings) (start : State) (entries : List Entry) (c : Core State End Difference) →
        IsHistory (toy program) b start entries c → Sound (toy program) b start c }
{}

/// What begins a legal history is legal.
pub fn histories_begin_with_histories()
    ensures { (program : List Instruction) (b : Settings) (start : State) (entries rest : List Entry) (c : Core State End Difference) →
        IsHistory (toy program) b start (entries ++ rest) c → (d : Core State End Difference) × IsHistory (toy program) b start entries d }
{}

/// The judge's answer is the verdict, wherever what it sees of the fast version is true.
pub fn judge_gives_the_verdict()
    ensures { (program : List Instruction) (s : State) (n : ℕ) (seen : Seen Difference) (j : Judged Difference) →
        Sees (toy program) s n seen → judge n seen ≡ Some j → j ≡ verdict (toy program) s n }
{}

/// The path count is what the rows' savings leave of the instructions of the program alone.
pub fn path_count_is_within()
    ensures { (program : List Instruction) (start : State) (budget : ℕ) (rows : List (Row Difference)) →
        IsPrefixOf rows (ledger (toy program) start budget) → Totalled (alone (toy program) start budget).count rows }
{}

/// A loan stays while only others act, and its track with it, unless the first discard that follows drops it.
pub fn loans_stay()
    ensures { (program : List Instruction) (b : Settings) (start : State) (before rest : List Entry) (c d : Core State End Difference) (n : Name) (l : OpenLoan) →
        IsHistory (toy program) b start before c → core_run (toy program) b (Some c) rest ≡ Some d →
        find_loan n c.loans ≡ Some l → IsForeign l.seat before rest → TrackStays n l rest c d }
{}

/// Only seat 0 releases.
pub fn others_release_nothing()
    ensures { (program : List Instruction) (b : Settings) (before rest : List Entry) (c d : Core State End Difference) →
        core_run (toy program) b (Some c) rest ≡ Some d → IsForeign 0 before rest → d.released ≡ c.released }
{}

/// What comes next in the serial history is allowed after every legal history.
pub fn serial_steps_are_allowed()
    ensures { (program : List Instruction) (b : Settings) (start : State) (entries xs : List Entry) (c : Core State End Difference) →
        IsHistory (toy program) b start entries c → serial_next (toy program) b c ≡ Some xs → IsAllowed (toy program) b c xs }
{}

/// There is one serial history and no other. Where at least one region may be open, it has a finish, and nothing that is
/// verified is left.
pub fn serial_history_ends()
    ensures exists { (program : List Instruction) (b : Settings) (start : State) → (entries : List Entry) × IsSerial (toy program) b start entries }
    ensures only { (program : List Instruction) (b : Settings) (start : State) (entries others : List Entry) →
        IsSerial (toy program) b start entries → IsSerial (toy program) b start others → entries ≡ others }
    ensures finished { (program : List Instruction) (b : Settings) (start : State) (entries : List Entry) (h : IsSerial (toy program) b start entries) →
        0 < b.tracks → HasFinished b h.core }
{}

/// The serial history grows by what comes next, and is whole where nothing does.
pub fn serial_history_grows()
    ensures grows { (program : List Instruction) (b : Settings) (start : State) (entries xs : List Entry) (c : Core State End Difference) →
        IsSerialSoFar (toy program) b start entries → IsHistory (toy program) b start entries c →
        serial_next (toy program) b c ≡ Some xs → IsSerialSoFar (toy program) b start (entries ++ xs) }
    ensures whole { (program : List Instruction) (b : Settings) (start : State) (entries : List Entry) (c : Core State End Difference) →
        IsSerialSoFar (toy program) b start entries → IsHistory (toy program) b start entries c →
        serial_next (toy program) b c ≡ None → IsSerial (toy program) b start entries }
{}

/// The first lendable name is lendable, and where there is none, no name is.
pub fn first_lendable_is_found()
    ensures found { (program : List Instruction) (b : Settings) (c : Core State End Difference) (n : Name) →
        first_lendable (toy program) b c c.regions ≡ Some n → IsTrue (lendable (toy program) b c n) }
    ensures none { (program : List Instruction) (b : Settings) (c : Core State End Difference) (n : Name) →
        first_lendable (toy program) b c c.regions ≡ None → lendable (toy program) b c n ≡ false }
{}
