/// What the assembling of a file results in.
#[derive(Clone, Copy, PartialEq, Eq, Debug)]
pub enum Completion {
    /// The image was written, with so many bytes, and the list, if it is asked for.
    Made(u64),
    /// The source could not be read, or there is no such file.
    Unread,
    /// The source is longer than 1,048,576 bytes.
    TooLong,
    /// A line of the source, counted from 1, is refused, for this kind of fault, from 1 to 9.
    Refused(u32, u8),
    /// The image could not be written.
    Unwritten,
    /// The list could not be written.
    Unlisted,
    /// Memory ran out: no file has changed, or the output is empty.
    NoMemory,
}
