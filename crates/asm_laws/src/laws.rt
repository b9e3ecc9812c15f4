//! Laws of the definitions that the contracts cite, each on a call that does nothing else.

ghost use Rattle.std.specs.Prelude.{◌≡◌, ◌<◌, ◌∷◌, ◌++◌, ℕ, List, None, Some, false, slice_index};
ghost use Rattle.m68k_decode.specs.Instructions as main;
ghost use Rattle.m68k_decode.specs.Nested.{nested};
ghost use Rattle.z80_decode.specs.Instructions as sub;
ghost use Rattle.md_disasm.specs.Texts68 as main_texts;
ghost use Rattle.md_disasm.specs.Texts80 as sub_texts;
ghost use Rattle.md_asm_text.specs.Tokens.{Token, tokens};
ghost use Rattle.asm_m68k.specs.RoundTrips.{Says as MainSays};
ghost use Rattle.asm_m68k.specs.Table.{AreWords, IsInstruction};
ghost use Rattle.asm_z80.specs.Coded80.{AreBytes};
ghost use Rattle.asm_z80.specs.Instruction.{is_db};
ghost use Rattle.md_asm.specs.Codes.{main_code, sub_code};
ghost use Rattle.asm_laws.specs.Chosen.{AreChosen, AreLeast, Says};

/// Whatever words or bytes decode to, its text at an address is assembled there to words or bytes that decode to it,
/// whatever follows them.
pub fn texts_are_assembled()
    ensures main { (word : ℕ) (tail : List ℕ) (at : ℕ) → word < 65536 → IsInstruction (nested word) → AreWords (word ∷ tail) → at < 4294967296
        → (words : List ℕ) × (main_code (tokens (main_texts.text_of (main.instruction_of (word ∷ tail)) at)) at ≡ Some words)
        × ((rest : List ℕ) → main.instruction_of (words ++ rest) ≡ main.instruction_of (word ∷ tail)) }
    ensures sub { (bytes : List ℕ) (at : ℕ) → AreBytes bytes → at < 65536 → is_db (sub.instruction_of bytes).op ≡ false
        → (found : List ℕ) × (sub_code (tokens (sub_texts.text_of (sub.instruction_of bytes) at)) at ≡ Some found)
        × ((rest : List ℕ) → AreBytes rest → sub.instruction_of (found ++ rest) ≡ sub.instruction_of bytes) }
{}

/// What tokens are assembled to at an address has a text there with these tokens, whatever follows it, for both
/// processors.
pub fn codes_say_their_line()
    ensures main { (line_tokens : List Token) (words rest : List ℕ) (at : ℕ) → AreWords words → at < 4294967296 → main_code line_tokens at ≡ Some words
        → tokens (main_texts.text_of (main.instruction_of (words ++ rest)) at) ≡ line_tokens }
    ensures sub { (line_tokens : List Token) (bytes rest : List ℕ) (at : ℕ) → AreBytes bytes → AreBytes rest → at < 65536 → sub_code line_tokens at ≡ Some bytes
        → tokens (sub_texts.text_of (sub.instruction_of (bytes ++ rest)) at) ≡ line_tokens }
{}

/// What tokens are assembled to is chosen among all words or bytes that say them there; where nothing is found, none
/// do.
pub fn codes_are_chosen()
    ensures main { (line_tokens : List Token) (words : List ℕ) (at : ℕ) → AreWords words → at < 4294967296 → main_code line_tokens at ≡ Some words → AreLeast words line_tokens at }
    ensures main_none { (line_tokens : List Token) (at : ℕ) → at < 4294967296 → main_code line_tokens at ≡ None
        → (words : List ℕ) → AreWords words → IsInstruction (nested (slice_index words 0)) → MainSays words line_tokens at → ⊥ }
    ensures sub { (line_tokens : List Token) (bytes : List ℕ) (at : ℕ) → AreBytes bytes → at < 65536 → sub_code line_tokens at ≡ Some bytes → AreChosen bytes line_tokens at }
    ensures sub_none { (line_tokens : List Token) (at : ℕ) → at < 65536 → sub_code line_tokens at ≡ None → (bytes : List ℕ) → AreBytes bytes → Says bytes line_tokens at → ⊥ }
{}
