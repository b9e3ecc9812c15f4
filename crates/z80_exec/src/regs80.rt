ghost use Rattle.std.specs.Prelude.{◌≡◌, ◌/◌, ◌%◌};
ghost use Rattle.z80_exec.specs.Access.Parts as parts;
ghost use Rattle.z80_exec.specs.Sample.Entries.{after_reset};

use z80_decode::{Index, InterruptMode, Pair, Place8};

/// The registers of the Z80. Of a pair the first register is the upper byte.
///
/// Source: Zilog UM0080, "CPU Register" and "Interrupt Response".
#[derive(Clone, Copy)]
pub struct Regs80 {
    /// A and F.
    pub af: u16,
    pub bc: u16,
    pub de: u16,
    pub hl: u16,
    /// The second set, AF' to HL'.
    pub af2: u16,
    pub bc2: u16,
    pub de2: u16,
    pub hl2: u16,
    pub ix: u16,
    pub iy: u16,
    pub sp: u16,
    pub pc: u16,
    /// The page of the table of interrupts.
    pub i: u8,
    /// The refresh of memory: its low seven bits rise with each opcode.
    pub r: u8,
    /// Whether interrupts are enabled.
    pub iff1: bool,
    /// IFF1 as it was before an interrupt that cannot be masked.
    pub iff2: bool,
    pub mode: InterruptMode,
}

impl Regs80 {
    /// What a reset leaves: PC, I, R, the interrupts' flags and mode are 0, and all other registers
    /// have all bits set, which is this project's profile.
    pub fn reset(&mut self)
        ensures { self.new ≡ after_reset }
    {
        *self = Regs80 {
            af: 0xffff,
            bc: 0xffff,
            de: 0xffff,
            hl: 0xffff,
            af2: 0xffff,
            bc2: 0xffff,
            de2: 0xffff,
            hl2: 0xffff,
            ix: 0xffff,
            iy: 0xffff,
            sp: 0xffff,
            pc: 0,
            i: 0,
            r: 0,
            iff1: false,
            iff2: false,
            mode: InterruptMode::Mode0,
        };
    }

    /// The accumulator.
    pub(crate) fn a(&self) -> u8
        ensures { result ≡ parts.a_of self.now }
    {
        high(self.af)
    }

    /// F
    pub(crate) fn f(&self) -> u8
        ensures { result ≡ parts.f_of self.now }
    {
        low(self.af)
    }

    /// Sets the accumulator and F.
    #[tactic(auto, unfolding(crate::specs::Access::Parts::with_af))]
    pub(crate) fn set_af(&mut self, a: u8, f: u8)
        ensures { self.new ≡ parts.with_af a f self.old }
    {
        self.af = u16::from(a) * 0x100 + u16::from(f);
    }

    /// Sets F.
    #[tactic(auto, unfolding(crate::specs::Access::Parts::with_f))]
    pub(crate) fn set_f(&mut self, f: u8)
        ensures { self.new ≡ parts.with_f f self.old }
    {
        self.af = with_low(self.af, f);
    }

    /// A register of 16 bits.
    #[tactic(auto, unfolding(crate::specs::Access::Parts::pair_of))]
    pub(crate) fn pair(&self, pair: Pair) -> u16
        ensures { result ≡ parts.pair_of pair self.now }
    {
        match pair {
            Pair::Bc => self.bc,
            Pair::De => self.de,
            Pair::Hl => self.hl,
            Pair::Sp => self.sp,
            Pair::Af => self.af,
            Pair::Ix => self.ix,
            Pair::Iy => self.iy,
        }
    }

    /// Sets a register of 16 bits.
    #[tactic(auto, unfolding(crate::specs::Access::Parts::with_pair))]
    pub(crate) fn set_pair(&mut self, pair: Pair, value: u16)
        ensures { self.new ≡ parts.with_pair pair value self.old }
    {
        match pair {
            Pair::Bc => self.bc = value,
            Pair::De => self.de = value,
            Pair::Hl => self.hl = value,
            Pair::Sp => self.sp = value,
            Pair::Af => self.af = value,
            Pair::Ix => self.ix = value,
            Pair::Iy => self.iy = value,
        }
    }

    /// A register of 8 bits, or a number of the instruction; 0 of a place in memory.
    #[tactic(auto, unfolding(crate::specs::Access::Parts::byte_of))]
    pub(crate) fn byte(&self, place: Place8) -> u8
        ensures { result ≡ parts.byte_of place self.now }
    {
        match place {
            Place8::A => high(self.af),
            Place8::B => high(self.bc),
            Place8::C => low(self.bc),
            Place8::D => high(self.de),
            Place8::E => low(self.de),
            Place8::H => high(self.hl),
            Place8::L => low(self.hl),
            Place8::Ixh => high(self.ix),
            Place8::Ixl => low(self.ix),
            Place8::Iyh => high(self.iy),
            Place8::Iyl => low(self.iy),
            Place8::Number(number) => number,
            _ => 0,
        }
    }

    /// Sets a register of 8 bits, and nothing for another place.
    #[tactic(auto, unfolding(crate::specs::Access::Parts::with_byte))]
    pub(crate) fn set_byte(&mut self, place: Place8, value: u8)
        ensures { self.new ≡ parts.with_byte place value self.old }
    {
        match place {
            Place8::A => self.af = with_high(self.af, value),
            Place8::B => self.bc = with_high(self.bc, value),
            Place8::C => self.bc = with_low(self.bc, value),
            Place8::D => self.de = with_high(self.de, value),
            Place8::E => self.de = with_low(self.de, value),
            Place8::H => self.hl = with_high(self.hl, value),
            Place8::L => self.hl = with_low(self.hl, value),
            Place8::Ixh => self.ix = with_high(self.ix, value),
            Place8::Ixl => self.ix = with_low(self.ix, value),
            Place8::Iyh => self.iy = with_high(self.iy, value),
            Place8::Iyl => self.iy = with_low(self.iy, value),
            _ => {}
        }
    }
}

/// The upper byte of a word.
#[inline(always)]
pub(crate) fn high(word: u16) -> u8
    ensures { result ≡ parts.high word }
{
    (word / 0x100) as u8
}

/// The lower byte of a word.
#[inline(always)]
pub(crate) fn low(word: u16) -> u8
    ensures { result ≡ parts.low word }
{
    (word % 0x100) as u8
}

/// A word with another upper byte.
#[inline(always)]
pub(crate) fn with_high(word: u16, value: u8) -> u16
    ensures { result ≡ parts.with_high word value }
{
    u16::from(value) * 0x100 + word % 0x100
}

/// A word with another lower byte.
#[inline(always)]
pub(crate) fn with_low(word: u16, value: u8) -> u16
    ensures { result ≡ parts.with_low word value }
{
    word / 0x100 * 0x100 + u16::from(value)
}

/// HL, or the index register in its place.
#[inline(always)]
pub(crate) fn pair_at(index: Index) -> Pair
    ensures { result ≡ parts.pair_at index }
{
    match index {
        Index::Hl => Pair::Hl,
        Index::Ix => Pair::Ix,
        Index::Iy => Pair::Iy,
    }
}

/// So far from an address, by a byte in two's complement.
#[tactic(auto, using(std::proofs::lemmas::Int::ints, std::proofs::lemmas::Bool::Decides::nat_tests), unfolding(crate::specs::Access::Parts::displaced, md_word::specs::Width::signed_of))]
pub(crate) fn displaced(address: u16, distance: u8) -> u16
    ensures { result ≡ parts.displaced address distance }
{
    if distance < 0x80 {
        address.wrapping_add(u16::from(distance))
    } else {
        address.wrapping_sub(0x100 - u16::from(distance))
    }
}
