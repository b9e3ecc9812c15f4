//! Laws of reading, each the contract of a call that does nothing.

ghost use Rattle.std.specs.Prelude.{◌≡◌, ◌<◌, ◌∷◌, ◌++◌, ℕ, List};
ghost use Rattle.m68k_decode.specs.Instructions.{instruction_of};
ghost use Rattle.m68k_decode.specs.Nested.{nested};
ghost use Rattle.md_disasm.specs.Texts68.{text_of};
ghost use Rattle.md_asm_text.specs.Tokens.{Token, tokens};
ghost use Rattle.asm_m68k.specs.Checked.{tried};
ghost use Rattle.asm_m68k.specs.Table.{AreWords, IsInstruction};

/// The words that are tried for the text of an instruction decode to that instruction, and words that
/// say a text and are tried for it say it whatever follows them.
pub fn texts_are_read()
    ensures back { (word : ℕ) (tail rest : List ℕ) (at : ℕ) → word < 65536 → IsInstruction (nested word) → AreWords (word ∷ tail) → at < 4294967296
        → instruction_of (tried (tokens (text_of (instruction_of (word ∷ tail)) at)) at ++ rest) ≡ instruction_of (word ∷ tail) }
    ensures round_trips { (word : ℕ) (tail more rest : List ℕ) (line_tokens : List Token) (at : ℕ) → word < 65536 → IsInstruction (nested word) → AreWords (word ∷ tail ++ more) → at < 4294967296
        → word ∷ tail ≡ tried line_tokens at → tokens (text_of (instruction_of (word ∷ tail ++ more)) at) ≡ line_tokens → instruction_of (word ∷ tail ++ rest) ≡ instruction_of (word ∷ tail ++ more) }
{}
