use crate::digests::Digests;

/// What is reported of a run from power-on that keeps no file.
#[derive(Clone, Copy)]
pub struct Summary {
    /// How many frames were finished.
    pub frames: u64,
    /// How many accesses were made.
    pub accesses: u64,
    /// Where the 68000 is halted, the start of what halted it.
    pub halted: Option<u64>,
    /// The digests of what the run made.
    pub digests: Digests,
}
