ghost use Rattle.std.specs.Prelude.{◌≤◌};

/// What the words of a session of two players ask for.
#[derive(Clone, Copy)]
pub struct RollbackWords<'a> {
    /// The name of the cartridge.
    pub rom: &'a str,
    /// The name of what they press, another one.
    pub inputs: &'a str,
    /// How many frames it continues beyond those of which both players' buttons are known, 1 to 16.
    pub window: u32,
    ghost some_window: { 1 ≤ window },
    ghost few_window: { window ≤ 16 },
}
