ghost use Rattle.std.specs.Prelude.{◌≡◌, ◌+◌, ◌%◌, ◌^◌, ◌<◌, ◌≤◌, ◌≤ℤ◌, pos, negsuc};
ghost use Rattle.md_word.specs.Fields.{merged};
ghost use Rattle.md_word.specs.Width.{half_of, modulus_of, width_of, signed_of, extended};
ghost use Rattle.md_word.specs.Width as meaning;

/// The size of an operand of the 68000.
#[derive(Clone, Copy, PartialEq, Eq, Debug)]
pub enum Size {
    /// 8 bits
    Byte,
    /// 16 bits
    Word,
    /// 32 bits
    Long,
}

impl Size {
    /// The width in bits: 8, 16 or 32.
    pub fn width(self) -> u8
        ensures { result ≡ width_of self }
    {
        match self {
            Size::Byte => 8,
            Size::Word => 16,
            Size::Long => 32,
        }
    }

    /// How many values there are of this size: 2 to the power of the width.
    pub fn modulus(self) -> u64
        ensures value { result ≡ modulus_of self }
        ensures some { 0 < result }
    {
        match self {
            Size::Byte => 0x100,
            Size::Word => 0x1_0000,
            Size::Long => 0x1_0000_0000,
        }
    }

    /// The least value with its sign bit set.
    pub fn half(self) -> u32
        ensures value { result ≡ half_of self }
        ensures twice { result + result ≡ modulus_of self }
    {
        match self {
            Size::Byte => 0x80,
            Size::Word => 0x8000,
            Size::Long => 0x8000_0000,
        }
    }

    /// The low part of a value, of this size.
    pub fn low(self, value: u32) -> u32
        ensures value { result ≡ value % modulus_of self }
        ensures below { result < modulus_of self }
    {
        match self {
            Size::Byte => value % 0x100,
            Size::Word => value % 0x1_0000,
            Size::Long => value,
        }
    }

    /// A register after a write of this size: its upper part stays.
    #[tactic(auto, unfolding(crate::specs::Fields::merged))]
    pub fn merge(self, old: u32, value: u32) -> u32
        requires { value < modulus_of self }
        ensures { result ≡ merged self old value }
    {
        old - self.low(old) + value
    }

    /// The value in two's complement.
    #[tactic(auto, using(std::proofs::lemmas::Int::ints, std::proofs::lemmas::Bool::Decides::nat_tests), unfolding(crate::specs::Width::signed_of))]
    pub fn signed(self, value: u32) -> i64
        requires { value < modulus_of self }
        ensures value { result ≡ signed_of self value }
        ensures zero { result ≡ pos 0 → value ≡ 0 }
        ensures least { negsuc 0x7fff_ffff ≤ℤ result }
        ensures greatest { result ≤ℤ pos 0x7fff_ffff }
    {
        let negative = value >= self.half();
        if negative {
            i64::from(value) - self.modulus() as i64
        } else {
            i64::from(value)
        }
    }

    /// Whether a sum of this size with a carry leaves the range of two's complement.
    #[inline(always)]
    #[tactic(auto, using(std::proofs::lemmas::Int::ints, std::proofs::lemmas::Bool::Decides::nat_tests), unfolding(crate::specs::Width::sum_overflows, crate::specs::Width::fits, crate::specs::Width::signed_of))]
    pub fn sum_overflows(self, a: u32, b: u32, carry: bool) -> bool
        requires a { a < modulus_of self }
        requires b { b < modulus_of self }
        ensures { result ≡ meaning.sum_overflows self a b carry }
    {
        let half = u64::from(self.half());
        let sum = u64::from(a) + u64::from(b) + u64::from(carry);
        match (a < self.half(), b < self.half()) {
            (true, true) => sum >= half,
            (false, false) => sum < self.modulus() + half,
            _ => false,
        }
    }

    /// Whether a difference of this size with a borrow leaves the range of two's complement.
    #[inline(always)]
    #[tactic(auto, using(std::proofs::lemmas::Int::ints, std::proofs::lemmas::Bool::Decides::nat_tests), unfolding(crate::specs::Width::difference_overflows, crate::specs::Width::fits, crate::specs::Width::signed_of))]
    pub fn difference_overflows(self, a: u32, b: u32, borrow: bool) -> bool
        requires a { a < modulus_of self }
        requires b { b < modulus_of self }
        ensures { result ≡ meaning.difference_overflows self a b borrow }
    {
        let half = u64::from(self.half());
        let taken = u64::from(b) + u64::from(borrow);
        match (a < self.half(), b < self.half()) {
            (false, true) => u64::from(a) < taken + half,
            (true, false) => u64::from(a) + half >= taken,
            _ => false,
        }
    }
}

/// The 32-bit value whose low part of the size is this one's, with the sign extended.
#[tactic(auto, using(std::proofs::lemmas::Int::ints, std::proofs::lemmas::Bool::Decides::nat_tests), unfolding(crate::specs::Width::extended, crate::specs::Width::signed_of))]
pub fn extend(value: u32, size: Size) -> u32
    ensures { result ≡ extended size value }
{
    let low = size.low(value);
    match size {
        Size::Byte => if low < 0x80 { low } else { low + 0xffff_ff00 },
        Size::Word => if low < 0x8000 { low } else { low + 0xffff_0000 },
        Size::Long => low,
    }
}
