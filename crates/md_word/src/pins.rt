ghost use Rattle.std.specs.Prelude.{IsTrue, ◌==◌, ◌||◌};

/// The interrupt pins of the 68000, as it samples them before an instruction. Source: M68000 User's Manual, the
/// signals.
#[derive(Clone, Copy)]
pub struct Pins68 {
    /// The interrupt level: 0 none, 4 horizontal, 6 vertical.
    pub level: u8,
    pub ghost known: { IsTrue (level == 0 || level == 4 || level == 6) },
}

/// The pins of the Z80, as it samples them before an instruction. Source: Zilog UM0080, the pins.
#[derive(Clone, Copy, PartialEq, Eq, Debug)]
pub struct Pins80 {
    /// The bus is requested for the 68000.
    pub request: bool,
    /// The reset is held.
    pub reset: bool,
    /// How often the reset was written, from power-on.
    pub resets: u64,
    /// The master cycle from which the latest interrupt is asked for.
    pub int_from: u64,
    /// The master cycle from which it is asked for no longer.
    pub int_to: u64,
}
