//! The laws of histories at the guest machine, each the contract of a function that does nothing. Where the verdict on two
//! states matters, the program starts in a guest state, as every program of an image does.

ghost use Rattle.std.specs.Prelude.{◌≡◌, ◌<◌, ℕ, List, ◌++◌, Some, None, false, IsTrue};
ghost use Rattle.speculation.specs.declared.tracks.Name.{Name};
ghost use Rattle.speculation.specs.declared.tracks.OpenLoan.{OpenLoan};
ghost use Rattle.speculation.specs.declared.history.Settings.{Settings};
ghost use Rattle.speculation.specs.declared.history.Entry.{Entry};
ghost use Rattle.speculation.specs.Record.{alone, IsPrefixOf};
ghost use Rattle.speculation.specs.Verdicts.{Seen, Judged, judge, verdict};
ghost use Rattle.speculation.specs.Ledger.{Row, ledger};
ghost use Rattle.speculation.specs.Core.{Core, Finished, find_loan};
ghost use Rattle.speculation.specs.Events.{lendable, core_run};
ghost use Rattle.speculation.specs.Law.{IsHistory, IsPartial, IsComplete};
ghost use Rattle.speculation.specs.Serial.{first_lendable, serial_next, IsSerial};
ghost use Rattle.speculation.specs.Loans.{IsForeign};
ghost use Rattle.guest_model.specs.MachineState.{MachineState};
ghost use Rattle.guest_model.specs.Rv32.{rv32};
ghost use Rattle.guest_model.specs.declared.difference.Difference.{Difference};
ghost use Rattle.guest_model.specs.declared.end.End.{End};
ghost use Rattle.rv32_law.specs.GuestStates.{IsGuestState};
ghost use Rattle.speculation_law.specs.Sees.{Sees};
ghost use Rattle.speculation_law.specs.Naming.{Sound};
ghost use Rattle.speculation_law.specs.Totals.{Totalled};
ghost use Rattle.speculation_law.specs.Fates.{TrackStays};
ghost use Rattle.speculation_law.specs.Serial.{HasFinished, IsAllowed, IsSerialSoFar};

/// Of every legal history, what came out and what may come out is a prefix of what the program alone writes within the
/// budget, and the rows are a prefix of its ledger. Where the history has a finish, end and count are the program's own,
/// and both are whole. Nothing is said of who gets on, of time, or of memory.
pub fn law_of_histories()
    ensures partial { (input : List ℕ) (b : Settings) (start : MachineState) (entries : List Entry) (c : Core MachineState End Difference) →
        IsGuestState input start → IsHistory (rv32 input) b start entries c → IsPartial (rv32 input) b start c }
    ensures complete { (input : List ℕ) (b : Settings) (start : MachineState) (entries : List Entry) (c : Core MachineState End Difference) (f : Finished End) →
        IsGuestState input start → IsHistory (rv32 input) b start entries c → c.finish ≡ Some f → IsComplete (rv32 input) b start c f }
{}

/// The facts of the core of every legal history: where its tracks stand, their names, and the bounds of its numbers.
pub fn histories_are_sound()
    ensures { (input : List ℕ) (b : Settings) (start : MachineState) (entries : List Entry) (c : Core MachineState End Difference) →
        IsGuestState input start → IsHistory (rv32 input) b start entries c → Sound (rv32 input) b start c }
{}

/// What begins a legal history is legal.
pub fn histories_begin_with_histories()
    ensures { (input : List ℕ) (b : Settings) (start : MachineState) (entries rest : List Entry) (c : Core MachineState End Difference) →
        IsHistory (rv32 input) b start (entries ++ rest) c → (d : Core MachineState End Difference) × IsHistory (rv32 input) b start entries d }
{}

/// The judge's answer is the verdict, wherever what it sees of the fast version is true.
pub fn judge_gives_the_verdict()
    ensures { (input : List ℕ) (s : MachineState) (n : ℕ) (seen : Seen Difference) (j : Judged Difference) →
        Sees (rv32 input) s n seen → judge n seen ≡ Some j → j ≡ verdict (rv32 input) s n }
{}

/// The path count is what the rows' savings leave of the instructions of the program alone.
pub fn path_count_is_within()
    ensures { (input : List ℕ) (start : MachineState) (budget : ℕ) (rows : List (Row Difference)) →
        IsPrefixOf rows (ledger (rv32 input) start budget) → Totalled (alone (rv32 input) start budget).count rows }
{}

/// A loan stays while only others act, and its track with it, unless the first discard that follows drops it.
pub fn loans_stay()
    ensures { (input : List ℕ) (b : Settings) (start : MachineState) (before rest : List Entry) (c d : Core MachineState End Difference) (n : Name) (l : OpenLoan) →
        IsGuestState input start → IsHistory (rv32 input) b start before c → core_run (rv32 input) b (Some c) rest ≡ Some d →
        find_loan n c.loans ≡ Some l → IsForeign l.seat before rest → TrackStays n l rest c d }
{}

/// Only seat 0 releases.
pub fn others_release_nothing()
    ensures { (input : List ℕ) (b : Settings) (before rest : List Entry) (c d : Core MachineState End Difference) →
        core_run (rv32 input) b (Some c) rest ≡ Some d → IsForeign 0 before rest → d.released ≡ c.released }
{}

/// What comes next in the serial history is allowed after every legal history.
pub fn serial_steps_are_allowed()
    ensures { (input : List ℕ) (b : Settings) (start : MachineState) (entries xs : List Entry) (c : Core MachineState End Difference) →
        IsGuestState input start → IsHistory (rv32 input) b start entries c → serial_next (rv32 input) b c ≡ Some xs → IsAllowed (rv32 input) b c xs }
{}

/// There is one serial history and no other. Where at least one region may be open, it has a finish, and nothing that is
/// verified is left.
pub fn serial_history_ends()
    ensures exists { (input : List ℕ) (b : Settings) (start : MachineState) → IsGuestState input start →
        (entries : List Entry) × IsSerial (rv32 input) b start entries }
    ensures only { (input : List ℕ) (b : Settings) (start : MachineState) (entries others : List Entry) → IsGuestState input start →
        IsSerial (rv32 input) b start entries → IsSerial (rv32 input) b start others → entries ≡ others }
    ensures finished { (input : List ℕ) (b : Settings) (start : MachineState) (entries : List Entry) (h : IsSerial (rv32 input) b start entries) →
        IsGuestState input start → 0 < b.tracks → HasFinished b h.core }
{}

/// The serial history grows by what comes next, and is whole where nothing does.
pub fn serial_history_grows()
    ensures grows { (input : List ℕ) (b : Settings) (start : MachineState) (entries xs : List Entry) (c : Core MachineState End Difference) →
        IsGuestState input start → IsSerialSoFar (rv32 input) b start entries → IsHistory (rv32 input) b start entries c →
        serial_next (rv32 input) b c ≡ Some xs → IsSerialSoFar (rv32 input) b start (entries ++ xs) }
    ensures whole { (input : List ℕ) (b : Settings) (start : MachineState) (entries : List Entry) (c : Core MachineState End Difference) →
        IsGuestState input start → IsSerialSoFar (rv32 input) b start entries → IsHistory (rv32 input) b start entries c →
        serial_next (rv32 input) b c ≡ None → IsSerial (rv32 input) b start entries }
{}

/// The first lendable name is lendable, and where there is none, no name is.
pub fn first_lendable_is_found()
    ensures found { (input : List ℕ) (b : Settings) (c : Core MachineState End Difference) (n : Name) →
        first_lendable (rv32 input) b c c.regions ≡ Some n → IsTrue (lendable (rv32 input) b c n) }
    ensures none { (input : List ℕ) (b : Settings) (c : Core MachineState End Difference) (n : Name) →
        first_lendable (rv32 input) b c c.regions ≡ None → lendable (rv32 input) b c n ≡ false }
{}
