/// Why the turns of the held chips stop.
#[derive(Clone, Copy)]
pub enum Led {
    /// The chip of this number made its event, but for its private work, which is worth offloading.
    WorthOffloading(u8),
    /// The chip of this number, which has the next turn, is not held.
    Away(u8),
    /// No chip has a turn any more before the run's end.
    Ended,
}
