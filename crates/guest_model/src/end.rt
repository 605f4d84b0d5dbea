//! How a program ends.

/// Why an instruction could not be carried out. It then changes nothing.
#[derive(Debug, Clone, Copy, PartialEq, Eq)]
pub enum Trap {
    /// A jump or a taken branch to a target that is no multiple of 4.
    Misaligned,
    /// The word at pc is unmapped.
    FetchUnmapped,
    /// The word at pc is no instruction of RV32I or M.
    Illegal,
    /// EBREAK.
    Breakpoint,
    /// A load of an unmapped byte, also into x0.
    LoadUnmapped,
    /// A store to an unmapped byte.
    StoreUnmapped,
}

/// The end of a run.
#[derive(Debug, Clone, Copy, PartialEq, Eq)]
pub enum End {
    /// The program ended by the exit service with this code.
    Exit(u32),
    /// The instruction at this pc trapped.
    Trap(Trap, u32),
    /// The budget of instructions was spent before the program ended.
    Spent,
}
