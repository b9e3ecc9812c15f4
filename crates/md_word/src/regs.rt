ghost use Rattle.std.specs.Prelude.{◌≡◌, ◌<◌};
ghost use Rattle.md_word.specs.Fields.{address_of, flags_of, is_supervisor, register_of, with_address, with_flags, with_register};

use crate::Flags;

/// The status register's trace bit.
pub const TRACE: u16 = 0x8000;
/// The status register's supervisor bit.
pub const SUPERVISOR: u16 = 0x2000;

/// The registers of the 68000. Source: M68000 Programmer's Reference Manual, section 1.1.
#[derive(Clone, Copy)]
pub struct Regs {
    /// D0 to D7
    pub d: [u32; 8],
    /// A0 to A6; A7 is one of the two stack pointers.
    pub a: [u32; 7],
    /// The user's stack pointer.
    pub usp: u32,
    /// The supervisor's stack pointer.
    pub ssp: u32,
    pub pc: u32,
    /// The status register: T bit 15, S bit 13, the interrupt mask bits 10 to 8, and the flags.
    pub sr: u16,
}

impl Regs {
    /// Whether the processor is in supervisor mode.
    pub fn is_supervisor(&self) -> bool
        ensures { result ≡ is_supervisor self.now }
    {
        let sr = self.sr;
        sr >> 13 & 1 == 1
    }

    /// The condition codes.
    #[tactic(auto, unfolding(crate::specs::Fields::flags_of))]
    pub fn flags(&self) -> Flags
        ensures { result ≡ flags_of self.now }
    {
        let sr = self.sr;
        Flags {
            x: sr >> 4 & 1 == 1,
            n: sr >> 3 & 1 == 1,
            z: sr >> 2 & 1 == 1,
            v: sr >> 1 & 1 == 1,
            c: sr & 1 == 1,
        }
    }

    /// Sets the condition codes, and leaves the rest of the status register.
    #[inline(always)]
    #[tactic(auto, unfolding(crate::specs::Fields::with_flags))]
    pub fn set_flags(&mut self, flags: Flags)
        ensures { self.new ≡ with_flags self.old flags }
    {
        let sr = self.sr;
        self.sr = sr / 32 * 32
            + u16::from(flags.x) * 16
            + u16::from(flags.n) * 8
            + u16::from(flags.z) * 4
            + u16::from(flags.v) * 2
            + u16::from(flags.c);
    }

    /// Address register `number`, 0 to 7; the last is the active stack pointer.
    #[tactic(auto, unfolding(crate::specs::Fields::address_of))]
    pub fn address(&self, number: u8) -> u32
        requires { number < 8 }
        ensures { result ≡ address_of self.now number }
    {
        if number < 7 {
            self.a[usize::from(number)]
        } else if self.is_supervisor() {
            self.ssp
        } else {
            self.usp
        }
    }

    /// Sets address register `number`, 0 to 7; the last is the active stack pointer.
    #[tactic(auto, unfolding(crate::specs::Fields::with_address))]
    pub fn set_address(&mut self, number: u8, value: u32)
        requires { number < 8 }
        ensures { self.new ≡ with_address self.old number value }
    {
        if number < 7 {
            self.a[usize::from(number)] = value;
        } else if self.is_supervisor() {
            self.ssp = value;
        } else {
            self.usp = value;
        }
    }

    /// Register `number`: 0 to 7 the data registers, 8 to 15 the address registers.
    #[tactic(auto, unfolding(crate::specs::Fields::register_of))]
    pub fn register(&self, number: u8) -> u32
        requires { number < 16 }
        ensures { result ≡ register_of self.now number }
    {
        if number < 8 {
            self.d[usize::from(number)]
        } else {
            self.address(number - 8)
        }
    }

    /// Sets register `number`: 0 to 7 the data registers, 8 to 15 the address registers.
    #[tactic(auto, unfolding(crate::specs::Fields::with_register))]
    pub fn set_register(&mut self, number: u8, value: u32)
        requires { number < 16 }
        ensures { self.new ≡ with_register self.old number value }
    {
        if number < 8 {
            self.d[usize::from(number)] = value;
        } else {
            self.set_address(number - 8, value);
        }
    }
}
