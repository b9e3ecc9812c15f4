ghost use Rattle.std.specs.Prelude.{◌≡◌, ◌+◌, ◌*◌, ◌/◌, ◌%◌, ◌<◌, ◌≤◌, IfSome};
ghost use Rattle.vdp_planes.specs.View.{register, seen, word_at};
ghost use Rattle.vdp_sprites.specs.Sprites.{covers, most_chosen, most_listed, next_of, sprite_at, table_base};

use vdp_planes::register::{MODE_4, SPRITES};
use vdp_planes::{Scene, word};

/// A sprite of the table. Source: Genesis Technical Overview, sprites.
#[derive(Clone, Copy)]
pub struct Sprite {
    /// The line of its upper edge, plus 128: 0 to 511.
    pub y: u16,
    /// The place of its left edge, plus 128: 0 to 511.
    pub x: u16,
    /// Priority, palette, flips and the first pattern, as in a plane's name.
    pub name: u16,
    /// In cells, 1 to 4.
    pub width: u8,
    /// In cells, 1 to 4.
    pub height: u8,
    /// The number of the next sprite in the list, 0 for none.
    pub link: u8,
}

impl Default for Sprite {
    fn default() -> Sprite {
        Sprite {
            y: 0,
            x: 0,
            name: 0,
            width: 0,
            height: 0,
            link: 0,
        }
    }
}

/// How many sprites the list has at most.
#[inline(always)]
#[tactic(auto, unfolding(crate::specs::Sprites::most_listed))]
pub fn most_listed(scene: &Scene) -> u32
    ensures value { result ≡ most_listed (seen scene.now) }
    ensures most { result ≤ 80 }
{
    if scene.registers[MODE_4] % 2 == 1 {
        80
    } else {
        64
    }
}

/// How many sprites a line shows at most.
#[inline(always)]
#[tactic(auto, unfolding(crate::specs::Sprites::most_chosen))]
pub fn most_chosen(scene: &Scene) -> usize
    ensures value { result ≡ most_chosen (seen scene.now) }
    ensures most { result ≤ 20 }
{
    if scene.registers[MODE_4] % 2 == 1 {
        20
    } else {
        16
    }
}

/// The address of the table of sprites in VRAM.
#[inline(always)]
#[tactic(auto, unfolding(crate::specs::Sprites::table_base))]
fn table_base(scene: &Scene) -> u32
    ensures value { result ≡ table_base (seen scene.now) }
    ensures below { result < 65536 }
{
    let base = u32::from(scene.registers[SPRITES]);
    if scene.registers[MODE_4] % 2 == 1 {
        base / 2 % 64 * 1024
    } else {
        base % 128 * 512
    }
}

/// The sprite of this number.
#[inline(always)]
#[tactic(auto, unfolding(crate::specs::Sprites::sprite_at))]
pub fn sprite_at(scene: &Scene, number: u32) -> Sprite
    requires { number < 128 }
    ensures { result ≡ sprite_at (seen scene.now) number }
{
    let at = table_base(scene) + 8 * number;
    let y = word(scene, at);
    let size = word(scene, at + 2);
    let name = word(scene, at + 4);
    let x = word(scene, at + 6);
    Sprite {
        y: (y % 512) as u16,
        x: (x % 512) as u16,
        name: name as u16,
        width: (size / 1024 % 4 + 1) as u8,
        height: (size / 256 % 4 + 1) as u8,
        link: (size % 128) as u8,
    }
}

/// The number of the next sprite in the list. `None`: the list ends here.
#[inline(always)]
#[tactic(auto, unfolding(crate::specs::Sprites::next_of))]
pub fn next_of(scene: &Scene, sprite: Sprite) -> Option<u32>
    ensures value { result ≡ next_of (seen scene.now) sprite }
    ensures below { IfSome result (λ n. n < 80) }
{
    let link = u32::from(sprite.link);
    if link == 0 || link >= most_listed(scene) {
        None
    } else {
        Some(link)
    }
}

/// Whether a sprite covers line `y`.
#[inline(always)]
#[tactic(auto, unfolding(crate::specs::Sprites::covers))]
pub fn covers(y: u32, sprite: Sprite) -> bool
    requires { y < 240 }
    ensures { result ≡ covers y sprite }
{
    let top = u32::from(sprite.y);
    top <= y + 128 && y + 128 < top + 8 * u32::from(sprite.height)
}
