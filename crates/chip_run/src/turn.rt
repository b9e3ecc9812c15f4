use md_word::Key;

/// The answer of a section.
#[derive(Clone, Copy, PartialEq, Eq, Debug)]
pub enum Turn {
    /// The chip made its event, but for its private work, which is due.
    Moved,
    /// The chip's event lies below the run's end and waits for this bound of another chip.
    Blocked { other: u8, bound: Key },
    /// The chip's next event does not lie below the run's end.
    Finished,
}
