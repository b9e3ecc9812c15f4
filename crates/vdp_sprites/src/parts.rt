ghost use Rattle.std.specs.Prelude.{◌≡◌, ℕ, ◌+◌, ◌-◌, ◌*◌, ◌%◌, ◌^◌, ◌<◌, ◌≤◌, Bool, List, nat_lt, sum_by};
ghost use Rattle.md_word.specs.Region.{picture_width};
ghost use Rattle.vdp_planes.specs.View.{seen};
ghost use Rattle.vdp_sprites.specs.Drawn.{pixel_dot};
ghost use Rattle.vdp_sprites.specs.Sprites.{own_dot, within};
ghost use Rattle.vdp_sprites.specs.declared.sprite.Sprite.{Sprite as TheSprite};

use crate::chosen::Found;
use crate::sprite::Sprite;
use vdp_planes::{Dot, Scene, pixel, row_pixels};

/// A place within a sprite of so many pixels, from the other side where it is flipped.
#[inline(always)]
#[tactic(auto, unfolding(crate::specs::Sprites::within))]
fn within(flip: bool, pixels: u32, n: u32) -> u32
    requires n { n < 2 ^ 16 }
    requires pixels { pixels < 2 ^ 16 }
    ensures value { result ≡ within flip pixels n }
    ensures below { result < 2 ^ 16 }
{
    if flip {
        pixels.saturating_sub(n + 1)
    } else {
        n
    }
}

/// The pixels of a sprite in a line, of the cell that has the place x. Its cells run down, then right; a
/// flip turns the whole.
#[inline(always)]
pub fn cell_pixels(scene: &Scene, y: u32, sprite: Sprite, x: u32) -> u32
    requires line { y < 240 }
    requires place { x < picture_width }
    requires left { sprite.x ≤ x + 128 }
    requires right { x + 128 < sprite.x + 8 * sprite.width }
    ensures { (i : ℕ) → x ≤ i → i < x + 8 - (x + 128 - sprite.x) % 8
        → pixel_dot sprite result ((x + 128 - sprite.x) % 8 + (i - x)) ≡ own_dot (seen scene.now) y sprite i }
{
    let name = u32::from(sprite.name);
    let height = u32::from(sprite.height);
    let flip = name / 2048 % 2 == 1;
    let left = x + 128 - u32::from(sprite.x);
    let top = (y + 128).saturating_sub(u32::from(sprite.y));
    let across = within(flip, u32::from(sprite.width), left / 8);
    let down = within(name / 4096 % 2 == 1, 8 * height, top);
    row_pixels(
        scene,
        (name + across * height + down / 8) % 2048,
        down % 8,
        flip,
    )
}

/// The dot of a sprite by one of eight pixels.
#[inline(always)]
#[tactic(auto, unfolding(crate::specs::Drawn::pixel_dot))]
pub fn pixel_dot(sprite: Sprite, pixels: u32, column: u32) -> Dot
    requires { column < 8 }
    ensures value { result ≡ pixel_dot sprite pixels column }
    ensures below { result.colour < 64 }
{
    let palette = sprite.name / 8192 % 4 * 16;
    let colour = palette + pixel(pixels, column);
    Dot::new(colour as u8, sprite.name / 32768 % 2 == 1)
}

/// Whether the chosen sprites have more pixels than a line counts.
pub fn too_wide(width: u32, found: &Found) -> bool
    ensures { result ≡ nat_lt width (sum_by (λ (s : TheSprite). 8 * s.width) found.now.items) }
{
    let mut left = width;
    for sprite in found.as_slice() {
        let pixels = 8 * u32::from(sprite.width);
        if left < pixels {
            return true;
        }
        left -= pixels;
    }
    false
}
