ghost use Rattle.std.specs.Prelude.{◌≡◌};
ghost use Rattle.m68k_exec.specs.Sample.Entries as entries;

use md_word::SUPERVISOR;

/// The vector number of the address error.
pub const ADDRESS_ERROR: u8 = 3;

/// The vector number of the interrupt of level 0, which there is not; the others follow.
const AUTOVECTOR: u8 = 24;

/// All bits of the status register but T.
const UNTRACED: u16 = 0x7fff;

/// All bits of the status register but T and the interrupt mask.
const UNMASKED: u16 = 0x78ff;

/// An exception that begins.
///
/// Source: M68000 User's Manual, section 6.
#[derive(Clone, Copy)]
pub enum Exception {
    /// A word or long at an odd address: the first word of the instruction, the address, and
    /// whether it was to be read.
    AddressError(u16, u32, bool),
    /// An interrupt of this level, 1 to 7.
    Interrupt(u8),
    /// Another, with the number of its vector.
    Numbered(u8),
}

impl Exception {
    /// The number of its vector.
    pub fn number(self) -> u8
        requires { entries.IsException self }
        ensures { result ≡ entries.number_of self }
    {
        match self {
            Exception::AddressError(..) => ADDRESS_ERROR,
            Exception::Interrupt(level) => AUTOVECTOR + level,
            Exception::Numbered(number) => number,
        }
    }

    /// The status register that its handler finds: S is set and T cleared, and an interrupt sets
    /// the mask to its level.
    pub fn status(self, sr: u16) -> u16
        requires { entries.IsException self }
        ensures { result ≡ entries.status_in self sr }
    {
        match self {
            Exception::Interrupt(level) => {
                sr & UNMASKED | SUPERVISOR | (u16::from(level) * 0x100)
            }
            _ => sr & UNTRACED | SUPERVISOR,
        }
    }
}
