ghost use Rattle.std.specs.Prelude.{◌<◌};

/// How many bytes the Z80's RAM has. Source: Genesis Technical Overview, the memory map of the Z80.
pub const SUB_RAM_SIZE: usize = 8_192;

/// What moves between the Z80 and the bus when the bus is granted: each memory has one owner.
#[derive(Drop)]
pub struct Parcel {
    /// The 8 KiB of RAM.
    pub ram: Box<[u8; SUB_RAM_SIZE]>,
    /// The bank register: the window shows the 32 KiB of the 68000's space from here times 8000h.
    pub bank: u16,
    pub ghost bank_in_range: { bank < 512 },
}

/// A shared access of the Z80. Addresses are the Z80's. Source: Genesis Technical Overview, the memory map of the
/// Z80.
#[derive(Drop)]
pub enum Request80 {
    Read(u16),
    Write(u16, u8),
    /// Hands the RAM over, where the bus is still requested.
    Yield(Parcel),
    /// Takes the RAM back, where the bus is no longer requested.
    Take,
}

/// What a shared access of the Z80 answers.
#[derive(Drop)]
pub enum Answer80 {
    Value(u8),
    Done,
    /// The RAM is the Z80's.
    Back(Parcel),
}
