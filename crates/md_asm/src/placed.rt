/// Where an instruction of an image is.
#[derive(Clone, Copy, PartialEq, Eq, Debug, Drop)]
pub struct Placed {
    /// Its place in the image, from 0.
    pub place: u32,
    /// The address at which its text is read: the place, or that of the Z80, below 10000h.
    pub address: u32,
    /// Whether it is one of the Z80.
    pub z80: bool,
}
