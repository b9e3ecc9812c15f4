/// An operand as it is written. M68000 Programmer's Reference Manual, section 2.2, "Effective Addressing Modes". Register
/// numbers are below 8 unless said; numbers have 32 bits, and what does not fit is cut off later.
#[derive(Clone, Copy)]
pub enum Form {
    /// No operand.
    Nothing,
    /// A register of sixteen: 0 to 7 the data registers, 8 to 15 the address registers.
    Register(u8),
    /// The status register.
    Sr,
    /// The condition codes.
    Ccr,
    /// The user stack pointer.
    Usp,
    /// A list of registers as the bits of D0 to A7, and as those of A7 to D0.
    Registers(u16, u16),
    /// (An)
    Indirect(u8),
    /// (An)+
    PostInc(u8),
    /// -(An)
    PreDec(u8),
    /// d16(An)
    Displaced(u8, u32),
    /// d8(An,Xn): the base, the index register of sixteen, whether all 32 bits of it count, the displacement.
    Indexed(u8, u8, bool, u32),
    /// xxx.W
    Short(u32),
    /// xxx.L
    Long(u32),
    /// d16(PC)
    PcDisplaced(u32),
    /// d8(PC,Xn), likewise.
    PcIndexed(u8, bool, u32),
    /// #n
    Immediate(u32),
    /// A number alone: the target of a branch.
    Bare(u32),
}
