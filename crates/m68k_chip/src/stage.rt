/// What the next event of the 68000 is.
///
/// Source: this project's profile.
#[derive(Clone, Copy, PartialEq, Eq, Debug)]
pub enum Stage {
    /// A sample of the interrupt level, at the start of an instruction.
    Sample,
    /// A shared access of an instruction or exception that has begun.
    Access,
    /// A word of a transfer.
    Word,
}
