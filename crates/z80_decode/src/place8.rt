/// The place of an operand of 8 bits: a register, a byte of memory, or the instruction itself.
///
/// Source: Zilog UM0080, "Z80 Instruction Description"; the halves of IX and IY are this project's
/// profile.
#[derive(Clone, Copy)]
pub enum Place8 {
    A,
    B,
    C,
    D,
    E,
    H,
    L,
    /// The upper half of IX.
    Ixh,
    /// The lower half of IX.
    Ixl,
    /// The upper half of IY.
    Iyh,
    /// The lower half of IY.
    Iyl,
    /// (BC)
    AtBc,
    /// (DE)
    AtDe,
    /// (HL)
    AtHl,
    /// (IX+d): d in two's complement.
    AtIx(u8),
    /// (IY+d): d in two's complement.
    AtIy(u8),
    /// (nn)
    At(u16),
    /// n, a source alone.
    Number(u8),
}
