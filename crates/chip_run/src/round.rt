/// The answer of [`Bus::wait_turn`](crate::Bus::wait_turn).
#[derive(Clone, Copy, PartialEq, Eq, Debug)]
pub enum Round {
    /// The chip of this number made its event and its private work.
    Moved(u8),
    /// No held chip's next event lies below the run's end.
    Finished,
}
