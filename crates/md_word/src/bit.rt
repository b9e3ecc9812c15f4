/// The number of a bit of a byte, which BIT, RES and SET name.
#[derive(Clone, Copy)]
pub enum Bit {
    Bit0,
    Bit1,
    Bit2,
    Bit3,
    Bit4,
    Bit5,
    Bit6,
    Bit7,
}
