/// HL, or the index register that a prefix DD or FD puts in its place.
///
/// Source: Zilog UM0080, "Z80 Instruction Description".
#[derive(Clone, Copy)]
pub enum Index {
    Hl,
    /// DD
    Ix,
    /// FD
    Iy,
}
