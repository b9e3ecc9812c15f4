/// A file that a command reads.
#[derive(Clone, Copy)]
pub enum Input {
    /// The first one: the cartridge, what a conversion reads, or a source.
    First,
    /// The recording of a run.
    Recording,
    /// The saved state with which a run begins.
    State,
    /// The script of a session of the debugger, or what two players press.
    Script,
}

/// A file that a command writes.
#[derive(Clone, Copy)]
pub enum Output {
    /// The frames of a run.
    Frames,
    /// The sound of a run.
    Sound,
    /// The journal of a run.
    Journal,
    /// The saved state at the end of a run.
    Save,
    /// What a conversion or an assembly makes.
    Target,
    /// The list of an assembly.
    Listing,
}
