/// What is made of a file.
#[derive(Clone, Copy, PartialEq, Eq, Debug)]
pub enum Product {
    /// The VGM file of a journal.
    Vgm,
    /// The sound file of a VGM file.
    Sound,
}

/// What the words of a conversion ask for: a file that is made of another one.
#[derive(Clone, Copy)]
pub struct ConvertWords<'a> {
    pub product: Product,
    /// The name of the file that is read.
    pub input: &'a str,
    /// The name of the file that is written, another one.
    pub output: &'a str,
    /// Whether the master clock is that of PAL.
    pub pal: bool,
}
