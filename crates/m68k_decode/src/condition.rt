/// A condition of the 68000 that Bcc, DBcc and Scc test, in the order of its code, 0 to 15.
///
/// Source: M68000 Programmer's Reference Manual, table 3-19.
#[derive(Clone, Copy)]
pub enum Condition {
    /// T, 0
    True,
    /// F, 1
    False,
    /// HI, 2
    High,
    /// LS, 3
    LowOrSame,
    /// CC, 4
    CarryClear,
    /// CS, 5
    CarrySet,
    /// NE, 6
    NotEqual,
    /// EQ, 7
    Equal,
    /// VC, 8
    OverflowClear,
    /// VS, 9
    OverflowSet,
    /// PL, 10
    Plus,
    /// MI, 11
    Minus,
    /// GE, 12
    GreaterOrEqual,
    /// LT, 13
    LessThan,
    /// GT, 14
    GreaterThan,
    /// LE, 15
    LessOrEqual,
}
