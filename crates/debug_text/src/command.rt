//! What a line of a script asks for.

/// What a line asks for.
#[derive(Clone, Copy)]
pub enum Command {
    /// So many times all events of the least cycle, 1 to 1,000,000.
    Step(u32),
    /// All events below a cycle of at most 549,755,813,888.
    RunTo(u64),
    /// Back to one of the kept states: 1 is the newest.
    Back(u64),
    /// The registers of the 68000.
    Regs,
    /// Bytes: the address of the first, and how many, 1 to 256.
    Mem(u32, u32),
    /// Instructions: the address of the first, which is even, and how many, 1 to 256.
    Dis(u32, u32),
    /// The addresses of the last instructions that were begun, and how many, 1 to 256.
    Trace(u32),
    /// The registers of the 68000 as JSON.
    Report,
}

/// Why a line asks for nothing.
#[derive(Clone, Copy, PartialEq, Eq, Debug)]
pub enum Misread {
    /// It begins with no command's word, or it has a byte that is not ASCII.
    UnknownWord,
    /// A number is missing, is one too many, is no number or out of range.
    BadNumber,
}

/// The word that a line begins with.
#[derive(Clone, Copy)]
pub(crate) enum CommandWord {
    Step,
    Run,
    Back,
    Regs,
    Mem,
    Dis,
    Trace,
    Report,
}
