/// What an instruction or an interrupt waits for, with the answers that it has.
#[derive(Clone, Copy)]
pub enum Need {
    /// It has ended.
    Nothing,
    /// The answer to a read.
    Read,
    /// The answer to a write.
    Write,
}
