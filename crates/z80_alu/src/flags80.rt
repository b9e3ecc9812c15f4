ghost use Rattle.std.specs.Prelude.{◌≡◌};

/// The flags of the Z80.
///
/// Source: Zilog UM0080, "Flag Register".
#[derive(Clone, Copy)]
pub struct Flags80 {
    /// Sign, bit 7 of F.
    pub s: bool,
    /// Zero, bit 6.
    pub z: bool,
    /// Half carry, bit 4.
    pub h: bool,
    /// Parity or overflow, bit 2.
    pub pv: bool,
    /// Add or subtract, bit 1.
    pub n: bool,
    /// Carry, bit 0.
    pub c: bool,
}

impl Flags80 {
    ghost use Rattle.z80_alu.specs.Flags.{flags_of, byte_of};

    /// The flags of F.
    #[inline(always)]
    #[tactic(auto, unfolding(crate::specs::Flags::flags_of))]
    pub fn of(f: u8) -> Self
        ensures { result ≡ flags_of f }
    {
        Flags80 {
            s: f >> 7 & 1 == 1,
            z: f >> 6 & 1 == 1,
            h: f >> 4 & 1 == 1,
            pv: f >> 2 & 1 == 1,
            n: f >> 1 & 1 == 1,
            c: f & 1 == 1,
        }
    }

    /// F with these flags, and bits 5 and 3 as 0.
    #[inline(always)]
    #[tactic(auto, unfolding(crate::specs::Flags::byte_of))]
    pub fn byte(self) -> u8
        ensures { result ≡ byte_of self }
    {
        128 * u8::from(self.s)
            + 64 * u8::from(self.z)
            + 16 * u8::from(self.h)
            + 4 * u8::from(self.pv)
            + 2 * u8::from(self.n)
            + u8::from(self.c)
    }
}
