use crate::Key;

/// A chip's next event: an access to the shared part of the machine, or a sample of its input pins.
#[derive(Clone, Copy, PartialEq, Eq, Debug)]
pub struct Next {
    pub key: Key,
    /// Whether the event is a sample.
    pub sample: bool,
}

/// The record of one shared access in the journal.
#[derive(Clone, Copy, PartialEq, Eq, Debug)]
pub struct Entry {
    pub key: Key,
    /// What was accessed, by its number in the journal's format, 0 to 12.
    pub kind: u8,
    /// The address, or the number of the line or of the batch.
    pub address: u32,
    /// The value that was read, written or reported.
    pub value: u16,
}
