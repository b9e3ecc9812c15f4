use md_word::Flags;

/// What an operation gives: a value of its size, and the condition codes after it.
///
/// Source: M68000 Programmer's Reference Manual, section 3.2.
#[derive(Clone, Copy)]
pub struct Out {
    /// What is written to the target; of an operation that only sets flags, the target as it was.
    pub value: u32,
    pub flags: Flags,
}
