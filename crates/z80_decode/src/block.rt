/// How a block instruction steps through memory, and whether it repeats: I, D, IR, DR.
///
/// Source: Zilog UM0080, "Exchange, Block Transfer, and Search Group".
#[derive(Clone, Copy)]
pub enum Block {
    /// One step up.
    Increment,
    /// One step down.
    Decrement,
    /// Steps up until its counter is 0.
    IncrementRepeat,
    /// Steps down until its counter is 0.
    DecrementRepeat,
}
