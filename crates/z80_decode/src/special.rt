/// A register that only LD with A reaches. Source: Zilog UM0080, "8-Bit Load Group".
#[derive(Clone, Copy)]
pub enum Special {
    /// I, the page of interrupts
    Interrupt,
    /// R, the refresh of memory
    Refresh,
}
