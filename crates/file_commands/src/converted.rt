use md_vgm::VgmFault;

/// What a conversion results in.
#[derive(Clone, Copy, PartialEq, Eq, Debug)]
pub enum Converted {
    /// The output was written, with so many bytes.
    Made(u64),
    /// The input could not be read, or there is no such file.
    Unread,
    /// The input is longer than 67,108,864 bytes.
    TooLong,
    /// The input is invalid at an offset in it.
    Refused(VgmFault),
    /// The output could not be written.
    Unwritten,
    /// Memory ran out before the output was begun.
    NoMemory,
}
