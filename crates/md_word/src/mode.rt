/// An addressing mode of the 68000 with its extension words read.
///
/// A number is that of the mode's register, of eight. An index is given by three fields: which
/// register it is (0 to 7 for D0 to D7, 8 to 15 for A0 to A7), whether all 32 bits of it count, and
/// the displacement byte. Source: M68000 Programmer's Reference Manual, section 2.
#[derive(Clone, Copy)]
pub enum Mode {
    /// Dn
    Data(u8),
    /// An
    Address(u8),
    /// (An)
    Indirect(u8),
    /// (An)+
    PostInc(u8),
    /// −(An)
    PreDec(u8),
    /// d16(An)
    Displaced(u8, u16),
    /// d8(An,Xn)
    Indexed(u8, u8, bool, u8),
    /// xxx.W
    AbsShort(u16),
    /// xxx.L
    AbsLong(u32),
    /// d16(PC)
    PcDisplaced(u16),
    /// d8(PC,Xn)
    PcIndexed(u8, bool, u8),
    /// #
    Immediate(u32),
}
