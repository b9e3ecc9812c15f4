//! Laws of the definitions that the contracts cite, each on a call that does nothing else.

ghost use Rattle.std.specs.Prelude.{◌≡◌, ◌↔◌, ◌+◌, ◌%◌, ◌<◌, ◌≤◌, ◌∷◌, ℕ, Bool, List, Some, false};
ghost use Rattle.m68k_decode.specs.Instructions as main;
ghost use Rattle.z80_decode.specs.Instructions as sub;
ghost use Rattle.md_disasm.specs.Texts68 as main_texts;
ghost use Rattle.md_disasm.specs.Texts80 as sub_texts;
ghost use Rattle.md_asm_text.specs.Tokens.{Number, Token};
ghost use Rattle.asm_m68k.specs.Table.{AreWords};
ghost use Rattle.asm_z80.specs.Coded80.{AreBytes};
ghost use Rattle.asm_z80.specs.Instruction.{is_db};
ghost use Rattle.md_asm_text.specs.declared.body.Body.TheVariants.{Instruction};
ghost use Rattle.md_asm.specs.Contents.{misfit, size};
ghost use Rattle.md_asm.specs.Places.{image_limit};
ghost use Rattle.md_asm.specs.Assembly.{AssemblyOutcome, Done, Failed, assembly};
ghost use Rattle.md_asm.specs.declared.placed.Placed.{Placed};
ghost use Rattle.asm_laws.specs.Places.{bytes_from, words_from};
ghost use Rattle.asm_laws.specs.Faults.{IsFaulty};
ghost use Rattle.asm_laws.specs.Fitting.{FitsLines};
ghost use Rattle.md_asm.specs.Forms.{HasNumber, IsForm, StandsIn};
ghost use Rattle.md_asm.specs.Ranges.{IsInRange};
ghost use Rattle.asm_laws.specs.Sources.{KeepsInstruction, main_source, sub_source};

use crate::assemblies::image_says_its_lines;
use md_asm::laws::known_bytes;

/// Whatever words or bytes decode to, but what the Z80's text writes as a directive: a source of its text at an address
/// has an image, and what is there decodes to it. For the 68000 the address is even, and its bytes stay below 400000h.
pub fn sources_are_assembled()
    ensures main { (word : ℕ) (tail : List ℕ) (at : ℕ) → word < 65536 → AreWords (word ∷ tail) → at % 2 ≡ 0
        → at + (main.instruction_of (word ∷ tail)).length ≤ image_limit
        → (image : List ℕ) × (lines : List Placed) × (assembly (main_source at (main_texts.text_of (main.instruction_of (word ∷ tail)) at)) ≡ Done image lines)
        × (main.instruction_of (words_from image at) ≡ main.instruction_of (word ∷ tail)) }
    ensures sub { (bytes : List ℕ) (at : ℕ) → AreBytes bytes → at < 65536 → is_db (sub.instruction_of bytes).op ≡ false
        → (image : List ℕ) × (lines : List Placed) × (assembly (sub_source at (sub_texts.text_of (sub.instruction_of bytes) at)) ≡ Done image lines)
        × (sub.instruction_of (bytes_from image 0) ≡ sub.instruction_of bytes) }
{}

/// So the image of a source of one instruction holds that instruction; and a source that is refused is none.
pub fn instructions_are_kept()
    ensures { (source : List ℕ) (outcome : AssemblyOutcome) → assembly source ≡ outcome → KeepsInstruction source outcome }
{}

/// A line that is no directive has a length exactly where it has the form of some instruction, which is as long; and a number
/// fits exactly where some instruction of the line's form has it at its place, at some address.
pub fn forms_are_known()
    ensures size { (z80 : Bool) (line_tokens : List Token) (long : ℕ) → (size z80 Instruction line_tokens ≡ Some long) ↔ IsForm z80 line_tokens long }
    ensures fits { (z80 : Bool) (line_tokens : List Token) (place n : ℕ) → HasNumber z80 line_tokens place n → misfit z80 line_tokens place (Number n) ≡ false }
    ensures fits_only { (z80 : Bool) (line_tokens : List Token) (place n : ℕ) → n < 4294967296 → StandsIn line_tokens place (Number n) → misfit z80 line_tokens place (Number n) ≡ false
        → HasNumber z80 line_tokens place n }
{}

/// The numbers that instructions of a line's form have at a place are those in the range of that place: a byte, a word or a
/// long, 1 to 8, 0 to 15, a multiple of 8 up to 38h, a displacement or an address, by the operand that the place lies in.
pub fn numbers_have_their_range()
    ensures { (z80 : Bool) (line_tokens : List Token) (place n : ℕ) → HasNumber z80 line_tokens place n ↔ IsInRange z80 line_tokens place n }
{}

/// In a source that has an image each number of an instruction, with the value of each name, is in the range of its place.
pub fn numbers_are_in_range(image: &[u8])
    ensures { (source : List ℕ) (lines : List Placed) → assembly source ≡ Done image.now lines → FitsLines source }
{
    known_bytes(image);
    image_says_its_lines(image);
}

/// What a source's fault says. A line of kind 1 has the form of no instruction. A line of kind 2 or 8 has a number that does
/// not fit a directive, or that is out of the range of its place, where no instruction of the line's form has it. A line of
/// kind 9 has the form of an instruction, but is no instruction's text at its address.
pub fn faults_are_right()
    ensures { (source : List ℕ) (line kind : ℕ) → assembly source ≡ Failed line kind → IsFaulty source line kind }
{}
