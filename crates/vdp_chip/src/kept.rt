ghost use Rattle.std.specs.Prelude.{◌≡◌, ℕ, ◌<◌, ◌≤◌, List, length};
ghost use Rattle.md_word.specs.Region.{scanline_length};
ghost use Rattle.md_word.specs.Region as region;
ghost use Rattle.vdp_planes.specs.View.{AllColours, seen};
ghost use Rattle.vdp_chip.specs.Picture.{cleared, drawn, finished, memory_length, scanline_of};
ghost use Rattle.vdp_chip.specs.Kept.{kept_frame};
ghost use Rattle.vdp_chip.specs.declared.kept.Kept.TheVariants as kinds;

use crate::picture::{PICTURE, clear, draw_scanline, put_scanline};
use md_word::region::rows;
use std::mem::swap;
use vdp_planes::{Dots, Scene};

/// Where the finished frame is.
#[derive(Clone, Copy)]
pub enum Kept {
    /// There is none.
    Nowhere,
    /// It is the picture, of which no further line is drawn.
    Picture,
    /// It was set aside when the next picture began.
    Aside,
}

/// Makes room for a scanline: line 0 begins a picture, and the one before is set aside where it is kept.
/// The answer is where the frame is then.
#[tactic(auto, unfolding(crate::specs::Picture::cleared))]
fn make_room(
    pal: bool,
    line: u32,
    kept: Kept,
    picture: &mut Box<[u8; PICTURE]>,
    aside: &mut Box<[u8; PICTURE]>,
) -> Kept
    requires line { line < region.rows pal }
    requires free { kept ≡ kinds.Picture → 0 < line → region.rows pal < line }
    requires picture { length picture.old.value ≡ memory_length }
    requires aside { length aside.old.value ≡ memory_length }
    ensures picture { picture.new.value ≡ cleared line picture.old.value }
    ensures frame { (p : List ℕ) → kept_frame pal result p aside.new.value ≡ kept_frame pal kept picture.old.value aside.old.value }
    ensures whole { length aside.new.value ≡ memory_length }
    ensures put_aside { result ≡ kinds.Picture → region.rows pal ≤ line }
{
    match kept {
        Kept::Nowhere => {
            begin(line, picture);
            Kept::Nowhere
        }
        Kept::Picture => {
            swap(picture, aside);
            clear(picture);
            Kept::Aside
        }
        Kept::Aside => {
            begin(line, picture);
            Kept::Aside
        }
    }
}

/// Line 0 begins a picture.
#[tactic(auto, unfolding(crate::specs::Picture::cleared))]
fn begin(line: u32, picture: &mut [u8; PICTURE])
    requires { length picture.old ≡ memory_length }
    ensures { picture.new ≡ cleared line picture.old }
{
    if line == 0 {
        clear(picture);
    }
}

/// Makes the picture and the frame those after the event of this line. The answer is where the frame
/// is then.
#[tactic(auto, unfolding(crate::specs::Picture::drawn, crate::specs::Picture::finished))]
pub fn draw(
    pal: bool,
    scene: &Scene,
    line: u32,
    sprites: &Dots,
    kept: Kept,
    picture: &mut Box<[u8; PICTURE]>,
    aside: &mut Box<[u8; PICTURE]>,
) -> Kept
    requires colours { AllColours sprites.now }
    requires free { kept ≡ kinds.Picture → 0 < line → region.rows pal < line }
    requires picture { length picture.old.value ≡ memory_length }
    requires aside { length aside.old.value ≡ memory_length }
    ensures picture { picture.new.value ≡ drawn pal line (scanline_of (seen scene.now) sprites.now line) (cleared line picture.old.value) }
    ensures frame { kept_frame pal result picture.new.value aside.new.value ≡ finished pal line picture.new.value (kept_frame pal kept picture.old.value aside.old.value) }
    ensures whole { length aside.new.value ≡ memory_length }
    ensures free { result ≡ kinds.Picture → region.rows pal ≤ line }
{
    if line < rows(pal) {
        let kept = make_room(pal, line, kept, picture, aside);
        draw_scanline(scene, line, sprites, picture);
        return kept;
    }
    if line == rows(pal) {
        Kept::Picture
    } else {
        kept
    }
}

/// The same with a row that is drawn.
#[tactic(auto, unfolding(crate::specs::Picture::drawn, crate::specs::Picture::finished))]
pub fn place(
    pal: bool,
    line: u32,
    scanline: &[u8],
    kept: Kept,
    picture: &mut Box<[u8; PICTURE]>,
    aside: &mut Box<[u8; PICTURE]>,
) -> Kept
    requires scanline { length scanline.now ≡ scanline_length }
    requires free { kept ≡ kinds.Picture → 0 < line → region.rows pal < line }
    requires picture { length picture.old.value ≡ memory_length }
    requires aside { length aside.old.value ≡ memory_length }
    ensures picture { picture.new.value ≡ drawn pal line scanline.now (cleared line picture.old.value) }
    ensures frame { kept_frame pal result picture.new.value aside.new.value ≡ finished pal line picture.new.value (kept_frame pal kept picture.old.value aside.old.value) }
    ensures whole { length aside.new.value ≡ memory_length }
    ensures free { result ≡ kinds.Picture → region.rows pal ≤ line }
{
    if line < rows(pal) {
        let kept = make_room(pal, line, kept, picture, aside);
        put_scanline(scanline, line, picture);
        return kept;
    }
    if line == rows(pal) {
        Kept::Picture
    } else {
        kept
    }
}
