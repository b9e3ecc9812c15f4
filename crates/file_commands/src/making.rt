ghost use Rattle.std.specs.Prelude.{◌≡◌, ◌≤◌, ◌⊎◌, ℕ, List, IfErr, IfOk, length};
ghost use Rattle.md_vgm.specs.Outcomes.{Failed as NotMade, Made as Bytes};
ghost use Rattle.md_args.specs.Shown.{shown_conversion};
ghost use Rattle.file_commands.specs.Conversions.{IsOutcome, IsPlayableIn, limit};

use md_args::{ConvertWords, Product};
use md_vgm::{VgmFault, from_journal, play};
use std::alloc::Global;

/// What the words ask to be made of bytes: of a journal a VGM file, of a VGM file its sound. It fails where the bytes are
/// invalid at an offset, which the fault names, or where memory runs out.
pub(crate) fn make(
    alloc: Global,
    words: &ConvertWords<'_>,
    bytes: &[u8],
) -> Result<Vec<u8>, VgmFault>
    requires { length bytes.now ≤ limit }
    ensures made { IfOk result (λ made. IsOutcome (shown_conversion words.now) bytes.now (Bytes made.items)) }
    ensures fault { IfErr result (λ fault. IsOutcome (shown_conversion words.now) bytes.now (NotMade fault)
        ⊎ ((fault ≡ VgmFault.NoMemory) × ((made : List ℕ) × IsOutcome (shown_conversion words.now) bytes.now (Bytes made)))) }
    // A VGM file that is made of a journal is refused, when it is played, for its length alone.
    ensures playable { IfOk result (λ made. IsPlayableIn (shown_conversion words.now) made.items) }
{
    match words.product {
        Product::Vgm => from_journal(alloc, bytes, words.pal),
        Product::Sound => play(alloc, bytes, words.pal),
    }
}
