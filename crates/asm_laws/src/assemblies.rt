//! Laws of the definitions that the contracts cite, each on a call that does nothing else.

ghost use Rattle.std.specs.Prelude.{◌≡◌, ℕ, List};
ghost use Rattle.md_asm.specs.Assembly.{Done, assembly};
ghost use Rattle.md_asm.specs.declared.placed.Placed.{Placed};
ghost use Rattle.asm_laws.specs.Lines.{SaysLines};

use crate::laws::{codes_are_chosen, texts_are_assembled};
use md_asm::laws::known_bytes;

/// In the image of a source each line that is an instruction is at its place: what is decoded there has, at its address,
/// the text of the line, each name replaced by its number; it is the instruction that has this text there; and of all
/// bytes that have it the chosen ones are there.
pub fn image_says_its_lines(image: &[u8])
    ensures { (source : List ℕ) (lines : List Placed) → assembly source ≡ Done image.now lines → SaysLines source image.now lines }
{
    known_bytes(image);
    texts_are_assembled();
    codes_are_chosen();
}
