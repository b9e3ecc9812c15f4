/// A shared access of the 68000. Addresses are below 2^24, and bytes of words are big-endian. Source: M68000
/// User's Manual, the bus; Genesis Technical Overview, the memory map.
#[derive(Clone, Copy, PartialEq, Eq, Debug)]
pub enum Request68 {
    Read8(u32),
    Read16(u32),
    Write8(u32, u8),
    Write16(u32, u16),
    /// Acknowledges the interrupt of this level.
    Ack(u8),
    /// The next word of a transfer to the VDP.
    Word(u16),
}

/// A transfer of words to the VDP, which the 68000 makes after the instruction that started it. Source: Genesis
/// Technical Overview, DMA.
#[derive(Clone, Copy, PartialEq, Eq, Debug)]
pub struct Transfer {
    /// The address of the next word, even and below 2^24.
    pub source: u32,
    /// How many words are left, 1 to 65,536.
    pub words: u32,
    /// The master cycles until the next word.
    pub cost: u16,
}

/// What a shared access of the 68000 answers.
#[derive(Clone, Copy, PartialEq, Eq, Debug)]
pub struct Answer68 {
    /// The value read; a byte is in the low half; 0 for a write and an acknowledge.
    pub value: u16,
    /// The transfer that a write started.
    pub transfer: Option<Transfer>,
    /// For a transferred word, the master cycles until the next.
    pub cost: u16,
}
