ghost use Rattle.std.specs.Prelude.{◌≡◌, ℕ, ◌+◌, ◌-◌, ◌/◌, ◌%◌, ◌*◌, ◌<◌, ◌≤◌, ◌^◌, length, nat_le, nat_lt};
ghost use Rattle.md_word.specs.Region.{picture_width};
ghost use Rattle.vdp_planes.specs.View.{IsFilled, clear, has_bit, register, seen};
ghost use Rattle.vdp_planes.specs.Planes.{in_window, side, width_of, window_dot, window_place};
ghost use Rattle.vdp_planes.specs.Scrolls.{IsSplit};

use crate::cells::cell_run;
use crate::fields::word;
use crate::register::{MODE_4, WINDOW, WINDOW_ACROSS, WINDOW_DOWN};
use crate::view::{Dots, PICTURE_WIDTH, Scene};

/// How many dots the picture is wide: 320 or 256.
#[inline(always)]
#[tactic(auto, unfolding(crate::specs::Planes::width_of))]
pub fn width_of(scene: &Scene) -> u32
    ensures value { result ≡ width_of (seen scene.now) }
    ensures most { result ≤ picture_width }
{
    if scene.registers[MODE_4] % 2 == 1 {
        PICTURE_WIDTH as u32
    } else {
        256
    }
}

/// The address of the window's name at a point.
#[inline(always)]
#[tactic(auto, unfolding(crate::specs::Planes::window_place))]
fn window_place(scene: &Scene, y: u32, x: u32) -> u32
    requires line { y < 240 }
    requires within { x < picture_width }
    ensures value { result ≡ window_place (seen scene.now) y x }
    ensures below { result < 2 ^ 18 }
{
    let base = u32::from(scene.registers[WINDOW]);
    if scene.registers[MODE_4] % 2 == 1 {
        base / 4 % 16 * 4096 + 2 * ((y / 8 * 64 + x / 8) % 4096)
    } else {
        base / 2 % 32 * 2048 + 2 * ((y / 8 * 32 + x / 8) % 4096)
    }
}

/// Draws the dots of the window from `x` on, as `scrolled_cell` does those of a plane.
#[inline(always)]
fn window_cell(scene: &Scene, y: u32, x: u32, to: u32, out: &mut Dots) -> u32
    requires line { y < 240 }
    requires order { x < to }
    requires within { to ≤ picture_width }
    ensures drawn { IsFilled clear x result out.old out.new (window_dot (seen scene.now) y) }
    ensures further { x < result }
    ensures most { result ≤ to }
{
    let name = word(scene, window_place(scene, y, x));
    let next = (x + 8 - x % 8).min(to);
    cell_run(scene, name, x % 8, y % 8, x, next, out);
    next
}

/// Draws the dots of the window from one place to another.
pub fn draw_window(scene: &Scene, y: u32, from: u32, to: u32, out: &mut Dots)
    requires line { y < 240 }
    requires whole { length out.old ≡ picture_width }
    requires order { from ≤ to }
    requires within { to ≤ picture_width }
    ensures { IsFilled clear from to out.old out.new (window_dot (seen scene.now) y) }
{
    let scene = *scene;
    let mut x = from;
    while x < to {
        x = window_cell(&scene, y, x, to, out);
    }
}

/// How a line of plane A is split: the window covers one end of it, nothing or all.
#[derive(Drop)]
pub struct Split {
    /// The window is left of `edge`.
    pub left: bool,
    /// 0 to the width.
    pub edge: u32,
}

/// The split of line `y`.
#[tactic(auto, unfolding(crate::specs::Planes::in_window, crate::specs::Planes::side))]
pub fn split_of(scene: &Scene, y: u32) -> Split
    ensures { IsSplit (seen scene.now) y result }
{
    let width = width_of(scene);
    let across = scene.registers[WINDOW_ACROSS];
    let down = scene.registers[WINDOW_DOWN];
    let edge = u32::from(down) % 32 * 8;
    let whole = if down / 128 % 2 == 1 {
        y >= edge
    } else {
        y < edge
    };
    if whole {
        return Split {
            left: true,
            edge: width,
        };
    }
    Split {
        left: across / 128 % 2 == 0,
        edge: (u32::from(across) % 32 * 16).min(width),
    }
}
