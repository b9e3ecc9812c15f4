/// The outcome of a line once all names have their values.
#[derive(Drop)]
pub enum Settled {
    /// Its bytes.
    Good(Vec<u8>),
    /// A name is defined in no line.
    Unknown,
    /// The value of a name does not fit.
    Unfit,
    /// A displacement lies outside its form.
    Far,
}
