use md_asm_text::Body;

/// A line that has bytes.
#[derive(Drop)]
pub(crate) struct Entry<'a> {
    /// Its number, from 1.
    pub(crate) line: u32,
    /// Its place in the image, from 0.
    pub(crate) place: u32,
    /// The address at its place.
    pub(crate) address: u32,
    /// Its length in bytes.
    pub(crate) long: usize,
    /// Whether it is in text of the Z80.
    pub(crate) z80: bool,
    pub(crate) body: Body,
    pub(crate) text: &'a [u8],
    /// Its bytes, where it has no name; `None` if it is patched once all names are known.
    pub(crate) bytes: Option<Vec<u8>>,
}
