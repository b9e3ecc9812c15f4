/// An event of a core, with the number of its chip.
#[derive(Clone, Copy, PartialEq, Eq, Debug)]
pub enum Event {
    /// The chip's bound becomes the key of its next event.
    Announce(u8),
    /// The chip makes its next access, and its private work up to the event after it.
    Perform(u8),
    /// The chip makes its next sample, and its private work up to the event after it.
    Sample(u8),
}
