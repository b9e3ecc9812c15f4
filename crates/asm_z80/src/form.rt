/// An operand as it is written.
#[derive(Clone, Copy)]
pub(crate) enum Form80<'a> {
    /// No operand.
    Nothing,
    /// A word.
    Worded(&'a [u8]),
    /// A word in brackets.
    AtWord(&'a [u8]),
    /// A word in brackets with a displacement.
    Displaced(&'a [u8], u32),
    /// A number.
    Bare(u32),
    /// A number in brackets.
    AtNumber(u32),
}
