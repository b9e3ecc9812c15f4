ghost use Rattle.std.specs.Prelude.{◌≡◌, ◌<◌, length};
ghost use Rattle.md_word.specs.Region.{scanline_length};
ghost use Rattle.vdp_sprites.specs.Lines.{note_on};
ghost use Rattle.vdp_ahead.specs.Lines.{scanline_on};

use vdp_chip::{clear_dots, fill_scanline};
use vdp_planes::{LineView, SpriteNote};
use vdp_sprites::draw_line_sprites;

/// Draws a scanline of the picture as a view has it: what the sprites of its line set.
#[tactic(auto, using(crate::proofs::Drawn::scanline_drawn))]
pub(crate) fn draw_line(view: &LineView, line: u32, scanline: &mut [u8]) -> SpriteNote
    requires line { line < 240 }
    requires whole { length scanline.old ≡ scanline_length }
    ensures scanline { scanline.new ≡ scanline_on line view.now }
    ensures note { result ≡ note_on line view.now }
{
    let scene = view.scene();
    let mut dots = clear_dots();
    let note = draw_line_sprites(&scene, line, &mut dots);
    fill_scanline(&scene, line, &dots, scanline);
    note
}
