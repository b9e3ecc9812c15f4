//! Laws of encoding, each the contract of a call that does nothing.

ghost use Rattle.std.specs.Prelude.{◌≡◌, ◌++◌, List, ℕ, IsTrue};
ghost use Rattle.z80_decode.specs.Instructions.{instruction_of};
ghost use Rattle.asm_z80.specs.Coded80.{AreBytes, is_whole};
ghost use Rattle.asm_z80.specs.Encoding80.{encoded};

/// The bytes of what bytes decode to decode to the same instruction, whatever follows them; and they
/// are bytes. Nothing is said of a prefix that is alone.
pub fn encoding_is_decoded()
    ensures same { (bytes rest : List ℕ) → AreBytes bytes → AreBytes rest → IsTrue (is_whole (instruction_of bytes).op) → instruction_of (encoded (instruction_of bytes).op ++ rest) ≡ instruction_of bytes }
    ensures are_bytes { (bytes : List ℕ) → AreBytes bytes → AreBytes (encoded (instruction_of bytes).op) }
{}
