//! Laws of the definitions that the contracts cite, each on a call that does nothing else.

ghost use Rattle.std.specs.Prelude.{◌≡◌, ℕ, List};
ghost use Rattle.asm_m68k.specs.Table.{AreWords};
ghost use Rattle.asm_z80.specs.Coded80.{AreBytes};
ghost use Rattle.md_asm.specs.Assembly.{Done, assembly};
ghost use Rattle.md_asm.specs.Held.{HoldsLines};
ghost use Rattle.md_asm.specs.declared.placed.Placed.{Placed};

/// In the image of a source each line that has bytes has them at its place, and no other line has changed them.
pub fn images_hold_their_lines()
    ensures { (source image : List ℕ) (lines : List Placed) → assembly source ≡ Done image lines → HoldsLines source image lines }
{}

/// Bytes are bytes.
pub fn known_bytes(bytes: &[u8])
    ensures { AreBytes bytes.now }
{
    let _bytes = bytes;
}

/// Words are words.
pub fn known_words(words: &[u16])
    ensures { AreWords words.now }
{
    let _words = words;
}
