use md_word::Key;

/// What a chip did under the lock, before its private work.
pub(crate) enum Stepped<P> {
    /// The locked part of its access.
    Performed,
    /// It read the pins of its sample, and may make samples of them before this key.
    Sampled { pins: P, end: Key },
    /// Its event waits for this bound of another chip.
    Blocked { other: u8, bound: Key },
    /// Its next event does not lie below the run's end.
    Finished,
}
