ghost use Rattle.std.specs.Prelude.{◌≡◌, ◌⊎◌, ◌+◌, ◌≤◌, ◌++◌, true, false, length, vec_len, vec_capacity};
ghost use Rattle.md_word.specs.Region.{picture_length};
ghost use Rattle.md_files.specs.Ppm.{ppm_head};

use crate::put::put;

/// Appends the 15 bytes of the header of a picture of 320 by 224 dots, or of 320 by 240 on PAL.
///
/// The picture is a raw Netpbm PPM whose colours go from 0 to 255. There is room for the header.
#[tactic(auto, unfolding(crate::specs::Ppm::ppm_head))]
pub fn ppm_head(pal: bool, into: &mut Vec<u8>)
    requires { vec_len into.old + 15 ≤ vec_capacity into.old }
    ensures bytes { into.new.items ≡ into.old.items ++ ppm_head pal }
    ensures length { vec_len into.new ≡ vec_len into.old + 15 }
    ensures room { vec_capacity into.new ≡ vec_capacity into.old }
{
    if pal {
        put(b"P6\n320 240\n255\n", into);
    } else {
        put(b"P6\n320 224\n255\n", into);
    }
}

/// Appends the 215,040 bytes of a picture after its header, or the 230,400 of one for PAL: red, green and
/// blue of each dot, row by row from the top, each row from the left. There is room for them, and no
/// memory is taken.
pub fn put_frame(rgb: &[u8], into: &mut Vec<u8>)
    requires whole { (length rgb.now ≡ picture_length false) ⊎ (length rgb.now ≡ picture_length true) }
    requires room { vec_len into.old + length rgb.now ≤ vec_capacity into.old }
    ensures bytes { into.new.items ≡ into.old.items ++ rgb.now }
    ensures length { vec_len into.new ≡ vec_len into.old + length rgb.now }
    ensures room { vec_capacity into.old ≤ vec_capacity into.new }
{
    into.extend_from_slice(rgb).unwrap();
}
