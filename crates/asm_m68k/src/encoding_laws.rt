//! Laws of encoding, each the contract of a call that does nothing.

ghost use Rattle.std.specs.Prelude.{◌≡◌, ◌<◌, ◌∷◌, ◌++◌, ℕ, List};
ghost use Rattle.m68k_decode.specs.Instructions.{instruction_of};
ghost use Rattle.asm_m68k.specs.Encoding.{encoded};

/// The words of what words decode to decode to the same instruction, whatever follows them.
pub fn encoding_is_decoded()
    ensures { (word : ℕ) (tail rest : List ℕ) → word < 65536 → instruction_of (encoded (instruction_of (word ∷ tail)).op ++ rest) ≡ instruction_of (word ∷ tail) }
{}
