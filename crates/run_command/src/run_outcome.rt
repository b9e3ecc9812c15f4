use md_args::Output;

/// What a run results in, once its start is found.
#[derive(Clone, Copy)]
pub enum RunOutcome {
    /// It ended well.
    Done {
        /// The cycle at which it began.
        from: u64,
        /// How many frames were finished.
        frames: u64,
        /// How many accesses were made.
        accesses: u64,
        /// Where the 68000 is halted, the start of what halted it.
        halted: Option<u64>,
    },
    /// An output could not be written.
    WriteFault(Output),
    /// Memory ran out before the last output was begun.
    Memory,
}
