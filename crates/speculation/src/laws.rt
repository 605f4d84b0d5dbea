//! The laws of runs at the toy machine, each the contract of a function that does nothing.
ghost use Rattle.std.specs.Prelude.{◌≡◌, ℕ, ◌+◌, List, ◌++◌, Some};
ghost use Rattle.speculation.specs.declared.toy.Instruction.{Instruction};
ghost use Rattle.speculation.specs.declared.toy.State.{State};
ghost use Rattle.speculation.specs.declared.toy.End.{End};
ghost use Rattle.speculation.specs.Run.{Point, Mark, go, pieces, out, taken, stream_bytes};
ghost use Rattle.speculation.specs.Record.{run, grown, IsPrefixOf};
ghost use Rattle.speculation.specs.Toy.{toy};

/// A run of a + b instructions is the run of a and then that of b from the point to which the first led, and an end
/// that was met stays.
pub fn runs_split()
    ensures points { (program : List Instruction) (p : Point State End) (a b : ℕ) →
        go (toy program) p (a + b) ≡ go (toy program) (go (toy program) p a) b }
    ensures pieces { (program : List Instruction) (p : Point State End) (k a b : ℕ) →
        pieces (toy program) p k (a + b) ≡ pieces (toy program) p k a ++ pieces (toy program) (go (toy program) p a) (k + a) b }
    ensures outputs { (program : List Instruction) (p : Point State End) (a b : ℕ) →
        out (toy program) p (a + b) ≡ out (toy program) p a ++ out (toy program) (go (toy program) p a) b }
    ensures counts { (program : List Instruction) (p : Point State End) (a b : ℕ) →
        taken (toy program) p (a + b) ≡ taken (toy program) p a + taken (toy program) (go (toy program) p a) b }
    ensures ends { (program : List Instruction) (p : Point State End) (a b : ℕ) (e : End) →
        (go (toy program) p a).end ≡ Some e → go (toy program) p (a + b) ≡ go (toy program) p a }
{}

/// The record of a run that is taken from the first instruction on is the run that grows at its end.
pub fn records_are_grown()
    ensures { (program : List Instruction) (s : State) (n : ℕ) → run (toy program) s n ≡ grown (toy program) s n }
{}

/// What begins an output begins each of its streams.
pub fn streams_keep_prefixes()
    ensures { (stream : ℕ) (xs ys : List Mark) → IsPrefixOf xs ys → IsPrefixOf (stream_bytes stream xs) (stream_bytes stream ys) }
{}
