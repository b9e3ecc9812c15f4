ghost use Rattle.std.specs.Prelude.{◌≡◌};
ghost use Rattle.bus_shared.specs.Registers as registers;

/// A register of the input/output area, A10000h to A1001Fh. Each is at an odd address, and the
/// even address before it acts as the same. Source: Genesis Technical Overview, the I/O area.
#[derive(Clone, Copy, PartialEq, Eq, Debug)]
pub enum Register {
    /// The version of the console, A10001h.
    Version,
    /// The data of pad 1's port, A10003h.
    Data1,
    /// The data of pad 2's port, A10005h.
    Data2,
    /// The data of the expansion port, A10007h, to which nothing is connected.
    DataExpansion,
    /// The control of pad 1's port, A10009h.
    Control1,
    /// The control of pad 2's port, A1000Bh.
    Control2,
    /// The others: they read 0 and ignore writes.
    Unused,
}

impl Register {
    /// The register at an address of the area.
    #[tactic(auto, unfolding(crate::specs::Registers::register_at))]
    pub fn at(address: u32) -> Register
        ensures { result ≡ registers.register_at address }
    {
        match address % 0x20 / 2 {
            0 => Register::Version,
            1 => Register::Data1,
            2 => Register::Data2,
            3 => Register::DataExpansion,
            4 => Register::Control1,
            5 => Register::Control2,
            _ => Register::Unused,
        }
    }
}
