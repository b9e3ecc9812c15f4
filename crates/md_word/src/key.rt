ghost use Rattle.std.specs.Prelude.{◌≡◌};
ghost use Rattle.md_word.specs.Keys.{key_lt};

/// The place of an event in the order of the whole machine: Chandy and Misra's time stamp.
///
/// Keys are ordered by cycle and then by chip, so the keys of two chips are never equal.
#[derive(Clone, Copy, PartialEq, Eq, Debug)]
pub struct Key {
    /// The cycle of the master clock, counted from power-on.
    pub cycle: u64,
    /// The number of the chip: 0 the 68000, 1 the Z80, 2 the drawing half of the VDP, 3 the FM
    /// synthesis, 4 the PSG synthesis.
    pub chip: u8,
}

impl Key {
    /// Whether this key comes before the other.
    pub fn is_below(&self, other: &Key) -> bool
        ensures { result ≡ key_lt self.now other.now }
    {
        self.cycle < other.cycle || self.cycle == other.cycle && self.chip < other.chip
    }
}
