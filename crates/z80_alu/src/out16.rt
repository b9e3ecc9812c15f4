/// What an operation of 16 bits gives.
#[derive(Clone, Copy)]
pub struct Out16 {
    pub value: u16,
    /// The flags after it.
    pub f: u8,
}
