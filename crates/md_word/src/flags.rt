/// The 68000's condition codes, the low five bits of its status register. Source: M68000 Programmer's Reference
/// Manual, section 1.1.
#[derive(Clone, Copy, PartialEq, Eq, Debug)]
pub struct Flags {
    /// Extend, bit 4.
    pub x: bool,
    /// Negative, bit 3.
    pub n: bool,
    /// Zero, bit 2.
    pub z: bool,
    /// Overflow, bit 1.
    pub v: bool,
    /// Carry, bit 0.
    pub c: bool,
}
