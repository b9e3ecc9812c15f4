// The vector numbers of the exceptions in which an instruction can end. M68000 User's Manual,
// section 6.2.1.

/// ILLEGAL, and each opcode that is no instruction.
pub const ILLEGAL_INSTRUCTION: u8 = 4;
/// A division by zero.
pub const ZERO_DIVIDE: u8 = 5;
/// CHK of a value that is out of bounds.
pub const OUT_OF_BOUNDS: u8 = 6;
/// TRAPV where V is set.
pub const OVERFLOW: u8 = 7;
/// A privileged instruction in user mode.
pub const PRIVILEGE_VIOLATION: u8 = 8;
/// An opcode whose first digit is A.
pub const LINE_A: u8 = 10;
/// An opcode whose first digit is F.
pub const LINE_F: u8 = 11;
/// TRAP 0; the other fifteen follow.
pub const TRAP: u8 = 32;
