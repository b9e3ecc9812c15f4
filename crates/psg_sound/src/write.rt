use arrayvec::ArrayVec;
use md_word::Key;

/// A byte written to the PSG. Source: Texas Instruments, SN76489AN data sheet, control registers.
#[derive(Clone, Copy)]
pub struct PsgWrite {
    /// The cycle of the write, its stamp, and the chip that wrote: 0 the 68000, 1 the Z80.
    pub key: Key,
    pub value: u8,
}

/// Writes to the PSG, at most 1,024.
pub type PsgList = ArrayVec<PsgWrite, 1024>;

impl Default for PsgWrite {
    fn default() -> PsgWrite {
        PsgWrite {
            key: Key { cycle: 0, chip: 0 },
            value: 0,
        }
    }
}
