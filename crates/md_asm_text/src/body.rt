/// What a line has after its label.
#[derive(Clone, Copy, PartialEq, Eq)]
pub enum Body {
    /// Blanks alone.
    Nothing,
    /// `org`: the place becomes this, of 32 bits.
    Org(u32),
    /// `cpu 68000`: the address is the place.
    Main,
    /// `cpu z80`: the address is this here, and rises with the place. It is of 32 bits as it is read; below 10000h it fits.
    Sub(u32),
    /// `dc.w`: words, the high byte first.
    Words,
    /// `db`: bytes.
    Bytes,
    /// An instruction, or a line that is none.
    Instruction,
    /// A colon after text that is no name.
    Bad,
}
