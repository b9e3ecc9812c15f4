/// The mode that an interrupt is taken in. Source: Zilog UM0080, "Interrupt Response".
#[derive(Clone, Copy)]
pub enum InterruptMode {
    Mode0,
    Mode1,
    Mode2,
}
