/// The displacement of BRA, BSR and Bcc, in two's complement, from the address after the
/// instruction's first word.
///
/// Source: M68000 Programmer's Reference Manual, section 4, Bcc.
#[derive(Clone, Copy)]
pub enum Displacement {
    /// In the first word.
    Byte(u8),
    /// In a word of its own, where the byte in the first word is 0.
    Word(u16),
}
