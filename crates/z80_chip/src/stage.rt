/// What the next event of the Z80 is.
#[derive(Clone, Copy, PartialEq, Eq, Debug)]
pub enum Stage {
    /// A sample of its pins.
    Sample,
    /// A shared access of an instruction or interrupt that has begun.
    Access,
    /// It hands its RAM over to the bus.
    Yield,
    /// It takes its RAM back from the bus.
    Take,
}
