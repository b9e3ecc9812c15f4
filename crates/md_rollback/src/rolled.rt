use crate::LineFault;

/// What is reported after the last frame of a session.
#[derive(Clone, Copy)]
pub struct Rolled {
    /// How many frames were made.
    pub frames: u64,
    /// How many are confirmed.
    pub confirmed: u64,
    /// The SHA-256 of the bytes of the machine's saved state.
    pub digest: [u8; 32],
}

/// The outcome of a script.
#[derive(Clone, Copy)]
pub enum Completion {
    /// Each of its lines was obeyed.
    Done(Rolled),
    /// The line of this number, from 1 on, is refused.
    Refused(u64, LineFault),
    NoMemory,
}
