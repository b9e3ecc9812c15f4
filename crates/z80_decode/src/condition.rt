/// A condition of the Z80 that jumps, calls and returns test, in the order of its code, 0 to 7.
///
/// Source: Zilog UM0080, "Jump Group".
#[derive(Clone, Copy)]
pub enum Condition {
    /// NZ
    NonZero,
    /// Z
    Zero,
    /// NC
    NonCarry,
    /// C
    Carry,
    /// PO
    ParityOdd,
    /// PE
    ParityEven,
    /// P
    Positive,
    /// M
    Negative,
}
