ghost use Rattle.std.specs.Prelude.{◌≡◌, ℕ, ◌+◌, ◌-◌, ◌*◌, ◌%◌, ◌<◌, ◌≤◌, ◌||◌, ◌&&◌, Bool, true, false, not, ◌==◌, min, length, slice_set, List, []};
ghost use Rattle.md_word.specs.Region.{picture_width};
ghost use Rattle.vdp_planes.specs.Dots.{Dot as DotValue};
ghost use Rattle.vdp_planes.specs.declared.view.LineView.{LineView as View};
ghost use Rattle.vdp_planes.specs.View.{AllColours, clear, dot_at, seen};
ghost use Rattle.vdp_planes.specs.Planes.{width_of};
ghost use Rattle.vdp_planes.specs.Mixing.{is_opaque};
ghost use Rattle.vdp_sprites.specs.Sprites.{Part, collides, overflow, parts, parts_from, reaches, sprite_dot};
ghost use Rattle.vdp_sprites.specs.Drawn.{IsLine, IsOver, IsReach, IsRun, over, part_of};

use crate::chosen::{Found, choose};
use crate::parts::{cell_pixels, pixel_dot, too_wide};
use crate::sprite::Sprite;
use vdp_planes::{Dot, Dots, LineView, PICTURE_WIDTH, Scene, SpriteNote, width_of};

/// Index 0 is transparent.
#[inline(always)]
#[tactic(auto, unfolding(vdp_planes::specs::Mixing::is_opaque))]
fn is_opaque(dot: Dot) -> bool
    ensures { result ≡ is_opaque dot }
{
    dot.colour() % 16 != 0
}

/// A dot drawn where nothing opaque is yet.
#[inline(always)]
#[tactic(auto, unfolding(crate::specs::Drawn::over))]
fn over(below: Dot, dot: Dot) -> Dot
    ensures { result ≡ over below dot }
{
    if is_opaque(dot) && !is_opaque(below) {
        dot
    } else {
        below
    }
}

/// Whether two opaque dots have met.
#[inline(always)]
fn meeting(hit: bool, below: Dot, dot: Dot) -> bool
    ensures { result ≡ (hit || (is_opaque below && is_opaque dot)) }
{
    hit || (is_opaque(below) && is_opaque(dot))
}

/// The places of a line that the pixels of a part reach.
#[tactic(auto, unfolding(crate::specs::Sprites::reaches))]
fn span_of(sprite: Sprite, pixels: u32, width: u32) -> (u32, u32)
    requires width { width ≤ picture_width }
    requires pixels { pixels ≤ picture_width }
    ensures { IsReach (part_of sprite pixels) width result.0 result.1 }
{
    let left = u32::from(sprite.x);
    let last = (left + pixels).saturating_sub(128).min(width);
    let first = left.saturating_sub(128).min(last);
    (first, last)
}

/// The place after the cell of a sprite that has the place x, none after `to`.
#[inline(always)]
fn cell_end(sprite: Sprite, x: u32, to: u32) -> u32
    requires within { to ≤ picture_width }
    requires order { x < to }
    requires left { sprite.x ≤ x + 128 }
    ensures further { x < result }
    ensures most { result ≤ to }
    ensures cell { result ≤ x + 8 - (x + 128 - sprite.x) % 8 }
{
    let left = x + 128 - u32::from(sprite.x);
    (x + 8 - left % 8).min(to)
}

/// Draws dots of a sprite from these pixels, the one in `column` at `from`; the answer is `hit`, or true
/// where one met another.
#[inline(always)]
fn draw_run(
    sprite: Sprite,
    pixels: u32,
    column: u32,
    from: u32,
    to: u32,
    mut hit: bool,
    out: &mut Dots,
) -> bool
    requires order { from ≤ to }
    requires within { to ≤ picture_width }
    requires cell { column + to ≤ from + 8 }
    ensures { (view : View) (y : ℕ) (part : Part) (old : List DotValue) (before : Bool) → IsRun view y part sprite pixels column from to
        → IsOver view y from part old out.old before hit
        → IsOver view y to part old out.new before result }
{
    for x in from..to {
        let below = out[x as usize];
        let dot = pixel_dot(sprite, pixels, column + (x - from));
        out[x as usize] = over(below, dot);
        hit = meeting(hit, below, dot);
    }
    hit
}

/// Draws the eight dots of a cell's row: their number is known to the compiler.
#[inline(always)]
fn draw_whole(sprite: Sprite, pixels: u32, from: u32, mut hit: bool, out: &mut Dots) -> bool
    requires within { from + 8 ≤ picture_width }
    ensures { (view : View) (y : ℕ) (part : Part) (old : List DotValue) (before : Bool) → IsRun view y part sprite pixels 0 from (from + 8)
        → IsOver view y from part old out.old before hit
        → IsOver view y (from + 8) part old out.new before result }
{
    let at = from as usize;
    for column in 0..8 {
        let below = out[at + column as usize];
        let dot = pixel_dot(sprite, pixels, column);
        out[at + column as usize] = over(below, dot);
        hit = meeting(hit, below, dot);
    }
    hit
}

/// Draws dots of a sprite that are in one cell; the answer is `hit`, or true where one met another.
#[inline(always)]
fn draw_cell(
    scene: &Scene,
    y: u32,
    sprite: Sprite,
    from: u32,
    to: u32,
    hit: bool,
    out: &mut Dots,
) -> bool
    requires line { y < 240 }
    requires order { from < to }
    requires within { to ≤ picture_width }
    requires left { sprite.x ≤ from + 128 }
    requires right { from + 128 < sprite.x + 8 * sprite.width }
    requires cell { to ≤ from + 8 - (from + 128 - sprite.x) % 8 }
    ensures { (part : Part) (old : List DotValue) (before : Bool) → part.sprite ≡ sprite
        → ((x : ℕ) → from ≤ x → x < to → reaches part x ≡ true)
        → IsOver (seen scene.now) y from part old out.old before hit
        → IsOver (seen scene.now) y to part old out.new before result }
{
    let pixels = cell_pixels(scene, y, sprite, from);
    let column = (from + 128 - u32::from(sprite.x)) % 8;
    // a whole cell apart: its number of dots is known to the compiler
    if to == from + 8 {
        draw_whole(sprite, pixels, from, hit, out)
    } else {
        draw_run(sprite, pixels, column, from, to, hit, out)
    }
}

/// Draws the part of a sprite that shows; the answer is `hit`, or true where it met another.
fn draw_part(
    scene: &Scene,
    y: u32,
    sprite: Sprite,
    pixels: u32,
    width: u32,
    mut hit: bool,
    out: &mut Dots,
) -> bool
    requires line { y < 240 }
    requires width { width ≤ picture_width }
    requires pixels { pixels ≤ picture_width }
    requires part { pixels ≤ 8 * sprite.width }
    requires whole { length out.old ≡ picture_width }
    ensures { IsOver (seen scene.now) y width (part_of sprite pixels) out.old out.new hit result }
{
    // a copy stays in registers, since no dot is written over it
    let scene = *scene;
    let (first, last) = span_of(sprite, pixels, width);
    let mut x = first;
    while x < last {
        let end = cell_end(sprite, x, last);
        hit = draw_cell(&scene, y, sprite, x, end, hit, out);
        x = end;
    }
    hit
}

/// Whether a sprite hides itself and all after it.
#[inline(always)]
fn hides(seen: bool, sprite: Sprite) -> bool
    ensures { result ≡ (seen && (sprite.x == 0)) }
{
    seen && sprite.x == 0
}

/// Whether an X other than 0 has been seen.
#[inline(always)]
fn seen_with(seen: bool, sprite: Sprite) -> bool
    ensures { result ≡ (seen || not (sprite.x == 0)) }
{
    seen || sprite.x != 0
}

/// Draws the chosen sprites over a clear line; true: two have met.
fn draw_parts(scene: &Scene, y: u32, width: u32, found: &Found, out: &mut Dots) -> bool
    requires line { y < 240 }
    requires width { width ≡ width_of (seen scene.now) }
    requires most { width ≤ picture_width }
    requires none { IsLine (seen scene.now) y [] out.old false }
    ensures { IsLine (seen scene.now) y (parts_from width false found.now.items) out.new result }
{
    let mut left = width;
    let mut before = false;
    let mut hit = false;
    for sprite in found.as_slice() {
        if hides(before, *sprite) {
            return hit;
        }
        let pixels = 8 * u32::from(sprite.width);
        hit = draw_part(scene, y, *sprite, left.min(pixels), width, hit, out);
        left = left.saturating_sub(pixels);
        before = seen_with(before, *sprite);
    }
    hit
}

/// Whether one of two is so.
#[inline(always)]
fn either(a: bool, b: bool) -> bool
    ensures { result ≡ (a || b) }
{
    a || b
}

/// Clears the line.
fn clear_line(out: &mut Dots)
    ensures whole { length out.new ≡ picture_width }
    ensures clear { (x : ℕ) → x < picture_width → dot_at out.new x ≡ clear }
{
    for x in 0..PICTURE_WIDTH {
        out[x] = Dot::new(0, false);
    }
}

/// The dots of the sprites on line `y`, whether the display is on or off, and what they set. In the
/// 256 mode the dots from 256 on are clear.
pub fn sprite_line(view: &LineView, y: u32, out: &mut Dots) -> SpriteNote
    requires { y < 240 }
    ensures dots { (x : ℕ) → x < picture_width → dot_at out.new x ≡ sprite_dot view.now y x }
    ensures below { AllColours out.new }
    ensures overflow { result.overflow ≡ overflow view.now y }
    ensures collision { result.collision ≡ collides view.now y (parts view.now y) }
{
    draw_sprites(&view.scene(), y, out)
}

/// `sprite_line` from borrowed registers and memories.
pub fn draw_sprites(scene: &Scene, y: u32, out: &mut Dots) -> SpriteNote
    requires { y < 240 }
    ensures dots { (x : ℕ) → x < picture_width → dot_at out.new x ≡ sprite_dot (seen scene.now) y x }
    ensures below { AllColours out.new }
    ensures overflow { result.overflow ≡ overflow (seen scene.now) y }
    ensures collision { result.collision ≡ collides (seen scene.now) y (parts (seen scene.now) y) }
{
    clear_line(out);
    let width = width_of(scene);
    let mut found = Found::new();
    let further = choose(scene, y, &mut found);
    let wide = too_wide(width, &found);
    let collision = draw_parts(scene, y, width, &found, out);
    SpriteNote {
        overflow: either(further, wide),
        collision,
    }
}
