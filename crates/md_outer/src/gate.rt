/// A place that each worker passes in each round for each of its chips that is not finished,
/// outside the lock.
///
/// A pass changes nothing that the machine's result depends on: it is lent the gate alone. A gate
/// that waits holds workers back.
pub trait Gate: Sync {
    /// Lets a worker pass for the chip with this number. `turn` counts the earlier passes for this
    /// chip in this segment.
    fn pass(&self, chip: u8, turn: u64);
}

/// The gate that is always open: `pass` returns at once.
#[derive(Clone, Copy)]
pub struct FreeGate;

impl Gate for FreeGate {
    fn pass(&self, _chip: u8, _turn: u64) {}
}
