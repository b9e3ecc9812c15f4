/// What a command takes, by its name.
#[derive(Clone, Copy)]
pub(crate) enum Parameter<'a> {
    /// A positional word that has to be there.
    Word(&'a str),
    /// An option without a value. Where it is given, its value is empty.
    Flag(&'a str),
    /// An option that has to be there.
    Wanted(&'a str),
    /// An option.
    Option(&'a str),
}
