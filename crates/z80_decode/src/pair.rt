/// A register of 16 bits. Source: Zilog UM0080, "CPU Register".
#[derive(Clone, Copy)]
pub enum Pair {
    Bc,
    De,
    Hl,
    Sp,
    Af,
    Ix,
    Iy,
}
