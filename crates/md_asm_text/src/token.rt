/// A token of an instruction's text.
#[derive(Clone, Copy)]
pub enum Token<'a> {
    /// Letters, digits, underscores and dollar signs that are neither a number nor a name.
    Word(&'a [u8]),
    /// A dollar sign and one to eight hexadecimal digits of either case: a number of 32 bits.
    Number(u32),
    /// The name of a place: a letter, then letters, digits and underscores, 3 to 32 in all.
    Name(&'a [u8]),
    /// Any other character.
    Mark(u8),
}
