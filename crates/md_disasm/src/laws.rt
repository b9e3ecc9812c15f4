//! Laws of texts, as calls that do nothing but ensure them.

ghost use Rattle.std.specs.Prelude.{◌≡◌, ◌^◌, ◌<◌, ℕ};
ghost use Rattle.z80_decode.specs.declared.place8.Place8.{Place8};
ghost use Rattle.md_disasm.specs.Digits.{two_digits, four_digits, eight_digits};
ghost use Rattle.md_disasm.specs.Operands80.{place_text};
ghost use Rattle.md_disasm.specs.Reported.{IsByteOrWord};

/// The digits of a number determine it: those of a byte, of a word and of a long.
pub fn digits_are_reported()
    ensures byte { (a b : ℕ) → a < 2 ^ 8 → b < 2 ^ 8 → two_digits a ≡ two_digits b → a ≡ b }
    ensures word { (a b : ℕ) → a < 2 ^ 16 → b < 2 ^ 16 → four_digits a ≡ four_digits b → a ≡ b }
    ensures long { (a b : ℕ) → a < 2 ^ 32 → b < 2 ^ 32 → eight_digits a ≡ eight_digits b → a ≡ b }
{}

/// No two operands of 8 bits of the Z80 have one text.
pub fn places_are_reported()
    ensures { (p q : Place8) → IsByteOrWord p → IsByteOrWord q → place_text p ≡ place_text q → p ≡ q }
{}
