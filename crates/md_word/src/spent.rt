/// What the time of an instruction depends on beside the operation itself. Source: M68000 User's Manual, section
/// 8.
#[derive(Clone, Copy, PartialEq, Eq, Debug)]
pub struct Spent {
    /// A branch was taken, or a condition held.
    pub taken: bool,
    /// The counter of a DBcc expired.
    pub expired: bool,
    /// The number of registers moved, the shift count, or for a multiplication the number of ones
    /// or of unlike neighbours in the source.
    pub count: u8,
    /// Which exception ended the instruction, by its vector number; 0 for none, and 3 also where
    /// the processor halted.
    pub cause: u8,
    /// How many shared accesses were made, at most 32.
    pub accesses: u8,
}
