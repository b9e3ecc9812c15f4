use arrayvec::ArrayVec;

/// The outcome of an exception.
///
/// Source: M68000 User's Manual, section 6.
#[derive(Drop)]
pub enum Frame {
    /// The words in the order in which they are pushed.
    Words(ArrayVec<u16, 7>),
    /// The processor halts, and pushes nothing.
    Halted,
}
