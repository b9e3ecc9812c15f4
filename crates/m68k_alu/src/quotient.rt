ghost use Rattle.std.specs.Prelude.{◌≡◌};

use md_word::Flags;

/// What a division of a long by a word gives.
///
/// Source: M68000 Programmer's Reference Manual, section 4, DIVS and DIVU.
#[derive(Clone, Copy)]
pub enum Quotient {
    /// The divisor is 0.
    Zero,
    /// The quotient has no place in a word.
    Overflow,
    /// The remainder in the upper word and the quotient in the lower.
    Value(u32),
}

impl Quotient {
    ghost use Rattle.m68k_alu.specs.Division.{flags_after};

    /// The condition codes after a division. N and Z are the quotient's. An overflow sets V and
    /// clears C; a division by 0 clears C; the rest stays, as this project's profile has it.
    #[tactic(auto, using(std::proofs::lemmas::Bool::Decides::nat_tests), unfolding(crate::specs::Division::flags_after))]
    pub fn flags(self, flags: Flags) -> Flags
        ensures { result ≡ flags_after self flags }
    {
        match self {
            Quotient::Zero => Flags { c: false, ..flags },
            Quotient::Overflow => Flags {
                v: true,
                c: false,
                ..flags
            },
            Quotient::Value(value) => {
                let quotient = value % 0x1_0000;
                Flags {
                    x: flags.x,
                    n: quotient >= 0x8000,
                    z: quotient == 0,
                    v: false,
                    c: false,
                }
            }
        }
    }
}
