ghost use Rattle.std.specs.Prelude.{◌≡◌, ℕ, ◌<◌};
ghost use Rattle.md_word.specs.Region.{picture_width};
ghost use Rattle.vdp_planes.specs.View.{AllColours, display_height, dot_at, seen};
ghost use Rattle.vdp_sprites.specs.Lines.{note_on};
ghost use Rattle.vdp_sprites.specs.Sprites.{sprite_dot};

use crate::draw::draw_sprites;
use vdp_planes::{Dots, Scene, SpriteNote};

/// Draws the sprites of a line of the display over clear dots: what they set. After the lines of the display
/// nothing is drawn or set.
#[tactic(auto, unfolding(crate::specs::Lines::note_on))]
pub fn draw_line_sprites(scene: &Scene, line: u32, dots: &mut Dots) -> SpriteNote
    requires { AllColours dots.old }
    ensures note { result ≡ note_on line (seen scene.now) }
    ensures dots { line < display_height (seen scene.now) → (x : ℕ) → x < picture_width → dot_at dots.new x ≡ sprite_dot (seen scene.now) line x }
    ensures colours { AllColours dots.new }
{
    if line < scene.height() {
        return draw_sprites(scene, line, dots);
    }
    SpriteNote {
        overflow: false,
        collision: false,
    }
}
