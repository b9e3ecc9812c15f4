use md_outer::Gate;

/// What lets workers pass before a round: each gate does.
///
/// A gate can be used by several threads at once. What one thread does asks no more than this.
pub trait Passage {
    /// Lets a worker pass for the chip with this number. `turn` counts the earlier passes for this chip in this
    /// segment.
    fn let_pass(&self, chip: u8, turn: u64);
}

impl<G: Gate> Passage for G {
    fn let_pass(&self, chip: u8, turn: u64) {
        self.pass(chip, turn);
    }
}
