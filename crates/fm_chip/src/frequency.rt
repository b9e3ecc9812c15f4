/// A frequency as the registers hold it.
///
/// Source: Yamaha, YM2608 Application Manual, F-number and block.
#[derive(Clone, Copy)]
pub struct Frequency {
    /// Below 2,048.
    pub fnum: u32,
    /// The octave, below 8.
    pub block: u32,
}
