//! Laws of reading, each the contract of a call that does nothing.

ghost use Rattle.std.specs.Prelude.{◌≡◌, ◌<◌, ◌≤◌, ◌++◌, ℕ, List, false, length};
ghost use Rattle.z80_decode.specs.Instructions.{instruction_of};
ghost use Rattle.md_disasm.specs.Texts80.{text_of};
ghost use Rattle.md_asm_text.specs.Tokens.{Token, tokens};
ghost use Rattle.asm_z80.specs.Coded80.{AreBytes};
ghost use Rattle.asm_z80.specs.Encoding80.{encoded};
ghost use Rattle.asm_z80.specs.Checked.{tried};
ghost use Rattle.asm_z80.specs.Instruction.{is_db};

/// The bytes that are tried for the text of an instruction decode to that instruction, and bytes that
/// say a text and are tried for it say it whatever follows them.
pub fn texts_are_read()
    ensures back { (bytes rest : List ℕ) (at : ℕ) → AreBytes bytes → AreBytes rest → at < 65536 → is_db (instruction_of bytes).op ≡ false
        → instruction_of (tried (tokens (text_of (instruction_of bytes) at)) at ++ rest) ≡ instruction_of bytes }
    ensures round_trips { (bytes more rest : List ℕ) (line_tokens : List Token) (at : ℕ) → AreBytes (bytes ++ more) → AreBytes rest → at < 65536
        → bytes ≡ tried line_tokens at → tokens (text_of (instruction_of (bytes ++ more)) at) ≡ line_tokens → instruction_of (bytes ++ rest) ≡ instruction_of (bytes ++ more) }
{}

/// The bytes of what bytes decode to are as many as it takes of them, and four at the most.
pub fn codes_have_their_length()
    ensures long { (bytes : List ℕ) → AreBytes bytes → length (encoded (instruction_of bytes).op) ≡ (instruction_of bytes).length }
    ensures few { (bytes : List ℕ) → AreBytes bytes → (instruction_of bytes).length ≤ 4 }
{}
