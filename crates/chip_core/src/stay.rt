use md_word::Key;

/// What a chip did that made its access and further events after it.
#[derive(Clone, Copy)]
pub struct Stay {
    /// How many events these were: 1 or more.
    pub events: u64,
    /// The key of the last of them, where it may have changed the pins of the chip that sleeps.
    pub woke: Option<Key>,
}
