/// Where an operand is.
///
/// Source: M68000 Programmer's Reference Manual, section 2.2.
#[derive(Clone, Copy, PartialEq, Eq, Debug)]
pub enum Place {
    /// In a register: 0 to 7 for D0 to D7, 8 to 15 for A0 to A7.
    Register(u8),
    /// In memory, at an address of 32 bits.
    Memory(u32),
    /// In the instruction: the operand itself.
    Immediate(u32),
    /// A word or long at an odd address, which is an address error.
    Odd(u32),
}
