ghost use Rattle.std.specs.Prelude.{◌≡◌, ℕ, ◌<◌, ◌≤◌, Bool, true, false, length};
ghost use Rattle.md_word.specs.Region.{picture_width};
ghost use Rattle.vdp_planes.specs.View.{AllColours, IsFilled, clear, dot_at, seen};
ghost use Rattle.vdp_planes.specs.Planes.{plane_dot, scrolled_dot, width_of, window_dot};
ghost use Rattle.vdp_planes.specs.Scrolls.{IsScroll};
ghost use Rattle.vdp_planes.specs.Lines.{clear_at};

use crate::scroll::{Scroll, draw_scrolled, scroll_of};
use crate::view::{Dot, Dots, LineView, PICTURE_WIDTH, Scene};
use crate::window::{draw_window, split_of, width_of};

/// Draws line `y` of plane A with the window, or of plane B where `second` is set. In the 256 mode
/// the dots from 256 on are clear. Source: Genesis Technical Overview, scrolling and the window.
pub fn plane_line(view: &LineView, y: u32, second: bool, out: &mut Dots)
    requires { y < 240 }
    ensures dots { (x : ℕ) → x < picture_width → dot_at out.new x ≡ plane_dot view.now second y x }
    ensures below { AllColours out.new }
{
    draw_plane(&view.scene(), y, second, out);
}

/// `plane_line` from borrowed registers and memories.
pub fn draw_plane(scene: &Scene, y: u32, second: bool, out: &mut Dots)
    requires { y < 240 }
    ensures dots { (x : ℕ) → x < picture_width → dot_at out.new x ≡ plane_dot (seen scene.now) second y x }
    ensures below { AllColours out.new }
{
    let width = width_of(scene);
    let scroll = scroll_of(scene, y, second);
    draw_dots(scene, &scroll, width, out);
    clear_from(width, out);
}

/// Draws the dots of the picture.
fn draw_dots(scene: &Scene, scroll: &Scroll, width: u32, out: &mut Dots)
    requires scroll { IsScroll (seen scene.now) scroll.now }
    requires width { width ≡ width_of (seen scene.now) }
    requires within { width ≤ picture_width }
    requires whole { length out.old ≡ picture_width }
    ensures { IsFilled clear 0 width out.old out.new (plane_dot (seen scene.now) scroll.now.second scroll.now.y) }
{
    if scroll.second {
        draw_scrolled(scene, scroll, 0, width, out);
    } else {
        draw_first(scene, scroll, width, out);
    }
}

/// Draws plane A with the window.
fn draw_first(scene: &Scene, scroll: &Scroll, width: u32, out: &mut Dots)
    requires scroll { IsScroll (seen scene.now) scroll.now }
    requires plane { scroll.now.second ≡ false }
    requires width { width ≡ width_of (seen scene.now) }
    requires within { width ≤ picture_width }
    requires whole { length out.old ≡ picture_width }
    ensures { IsFilled clear 0 width out.old out.new (plane_dot (seen scene.now) false scroll.now.y) }
{
    let split = split_of(scene, scroll.y);
    if split.left {
        draw_window(scene, scroll.y, 0, split.edge, out);
        draw_scrolled(scene, scroll, split.edge, width, out);
    } else {
        draw_scrolled(scene, scroll, 0, split.edge, out);
        draw_window(scene, scroll.y, split.edge, width, out);
    }
}

/// Clears the dots from a place on.
#[tactic(auto, using(crate::proofs::Filled::filled_one))]
fn clear_from(from: u32, out: &mut Dots)
    requires within { from ≤ picture_width }
    ensures { IsFilled clear from picture_width out.old out.new clear_at }
{
    for x in from..PICTURE_WIDTH as u32 {
        out[x as usize] = Dot::new(0, false);
    }
}
