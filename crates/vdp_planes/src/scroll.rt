ghost use Rattle.std.specs.Prelude.{◌≡◌, ℕ, ◌+◌, ◌-◌, ◌/◌, ◌%◌, ◌*◌, ◌<◌, ◌≤◌, ◌^◌, length, true};
ghost use Rattle.md_word.specs.Region.{picture_width};
ghost use Rattle.vdp_planes.specs.View.{IsFilled, clear, has_bit, register, seen};
ghost use Rattle.vdp_planes.specs.Planes.{down, name_place, plane_number, point_y, scroll_place, scrolled_dot};
ghost use Rattle.vdp_planes.specs.Rows.{KeepsRow};
ghost use Rattle.vdp_planes.specs.Scrolls.{IsScroll};

use crate::cells::{CellRow, NO_ROW, cell_row, cell_run};
use crate::fields::{cells, even_word, word, wrapped};
use crate::register::{MODE_3, PLANE_A, PLANE_B, PLANE_SIZE, SCROLLS};
use crate::view::{Dots, Scene};

/// What stays the same along a line of a plane.
#[derive(Clone, Copy)]
pub struct Scroll {
    /// The line.
    pub y: u32,
    /// Plane B.
    pub second: bool,
    /// The address of the plane's names.
    pub base: u32,
    /// What is added to x: 65,536 less the scroll entry.
    pub shift: u32,
    /// Two bits for the width.
    pub across: u32,
    /// Two bits for the height.
    pub down: u32,
    /// The first entry of the vertical scroll.
    pub number: u32,
    /// Whether each 16 dots have a vertical scroll of their own.
    pub by_columns: bool,
}

/// The line whose scroll entry a line takes.
#[tactic(auto, unfolding(crate::specs::Planes::scroll_place))]
fn scroll_place(mode: u32, y: u32) -> u32
    requires { y < 240 }
    ensures value { result ≡ scroll_place mode y }
    ensures below { result < 240 }
{
    match mode {
        2 => y - y % 8,
        3 => y,
        _ => 0,
    }
}

/// 0 for plane A, 1 for plane B.
#[tactic(auto, unfolding(crate::specs::Planes::plane_number))]
fn plane_number(second: bool) -> u32
    ensures value { result ≡ plane_number second }
    ensures below { result < 2 }
{
    if second { 1 } else { 0 }
}

/// What stays the same along line `y` of a plane.
#[tactic(auto, unfolding(crate::specs::Planes::across, crate::specs::Planes::plane_base))]
pub fn scroll_of(scene: &Scene, y: u32, second: bool) -> Scroll
    requires { y < 240 }
    ensures scroll { IsScroll (seen scene.now) result }
    ensures line { result.y ≡ y }
    ensures plane { result.second ≡ second }
{
    let number = plane_number(second);
    let place = scroll_place(u32::from(scene.registers[MODE_3]) % 4, y);
    let entry = word(
        scene,
        u32::from(scene.registers[SCROLLS]) % 64 * 1024 + 4 * place + 2 * number,
    );
    let base = if second {
        u32::from(scene.registers[PLANE_B]) % 8 * 8192
    } else {
        u32::from(scene.registers[PLANE_A]) / 8 % 8 * 8192
    };
    let sides = u32::from(scene.registers[PLANE_SIZE]);
    Scroll {
        y,
        second,
        base,
        shift: 65_536 - entry,
        across: sides % 4,
        down: sides / 16 % 4,
        number,
        by_columns: scene.registers[MODE_3] / 4 % 2 == 1,
    }
}

/// The vertical scroll at a place of the line.
#[inline(always)]
#[tactic(auto, unfolding(crate::specs::Planes::down, crate::specs::Planes::plane_number))]
fn down(scene: &Scene, scroll: &Scroll, x: u32) -> u32
    requires scroll { IsScroll (seen scene.now) scroll.now }
    requires within { x < picture_width }
    ensures value { result ≡ down (seen scene.now) scroll.now.second x }
    ensures below { result < 65536 }
{
    let column = if scroll.by_columns { 2 * (x / 16) } else { 0 };
    u32::from(scene.vsram[(scroll.number + column) as usize])
}

/// The place up to which the vertical scroll is that of `x`, or one after it, where all is the same.
#[inline(always)]
fn column_end(scroll: &Scroll, x: u32, to: u32) -> u32
    requires order { x < to }
    requires within { to ≤ picture_width }
    ensures column { scroll.now.by_columns ≡ true → result ≤ x + 16 - x % 16 }
    ensures further { x < result }
{
    if scroll.by_columns {
        x + 16 - x % 16
    } else {
        to
    }
}

/// Draws the dots of the plane from `x` on: those of one cell, none of them at `to` or after it.
/// `py` is the point of the plane down, the same for all. The answer is the place after them.
#[inline(always)]
#[tactic(auto, unfolding(crate::specs::Planes::name_place, crate::specs::Planes::point_x))]
fn scrolled_cell(scene: &Scene, scroll: &Scroll, py: u32, x: u32, to: u32, out: &mut Dots) -> u32
    requires scroll { IsScroll (seen scene.now) scroll.now }
    requires order { x < to }
    requires within { to ≤ picture_width }
    requires tall { py < 1024 }
    requires down { (i : ℕ) → x ≤ i → i < to → py ≡ point_y (seen scene.now) scroll.now.second scroll.now.y i }
    ensures drawn { IsFilled clear x result out.old out.new (scrolled_dot (seen scene.now) scroll.now.second scroll.now.y) }
    ensures further { x < result }
    ensures most { result ≤ to }
    ensures next { result < to → (result + scroll.now.shift) % 8 ≡ 0 }
{
    let px = wrapped(x + scroll.shift, scroll.across);
    let index = (py / 8 * cells(scroll.across) + px / 8) % 4096;
    let name = even_word(scene, scroll.base / 2 + index);
    let next = (x + 8 - px % 8).min(to);
    cell_run(scene, name, px % 8, py % 8, x, next, out);
    next
}

/// Draws the eight dots of a cell that begins at `x`. `py` is the point of the plane down, the same for all.
#[inline(always)]
#[tactic(auto, unfolding(crate::specs::Planes::name_place, crate::specs::Planes::point_x))]
fn whole_cell(scene: &Scene, scroll: &Scroll, py: u32, x: u32, kept: &mut CellRow, out: &mut Dots)
    requires scroll { IsScroll (seen scene.now) scroll.now }
    requires within { x + 8 ≤ picture_width }
    requires whole { length out.old ≡ picture_width }
    requires tall { py < 1024 }
    requires begins { (x + scroll.now.shift) % 8 ≡ 0 }
    requires down { (i : ℕ) → x ≤ i → i < x + 8 → py ≡ point_y (seen scene.now) scroll.now.second scroll.now.y i }
    requires kept { KeepsRow (seen scene.now) (py % 8) kept.old }
    ensures drawn { IsFilled clear x (x + 8) out.old out.new (scrolled_dot (seen scene.now) scroll.now.second scroll.now.y) }
    ensures kept { KeepsRow (seen scene.now) (py % 8) kept.new }
{
    let px = wrapped(x + scroll.shift, scroll.across);
    let index = (py / 8 * cells(scroll.across) + px / 8) % 4096;
    let name = even_word(scene, scroll.base / 2 + index);
    cell_row(scene, name, py % 8, x, kept, out);
}

/// Draws the dots of the plane from one place to another, all with one vertical scroll: cells that begin
/// where another ends are drawn whole.
#[inline(always)]
#[tactic(auto, unfolding(crate::specs::Planes::point_y))]
fn draw_column(scene: &Scene, scroll: &Scroll, from: u32, to: u32, out: &mut Dots)
    requires scroll { IsScroll (seen scene.now) scroll.now }
    requires whole { length out.old ≡ picture_width }
    requires order { from < to }
    requires within { to ≤ picture_width }
    requires column { scroll.now.by_columns ≡ true → to ≤ from + 16 - from % 16 }
    ensures { IsFilled clear from to out.old out.new (scrolled_dot (seen scene.now) scroll.now.second scroll.now.y) }
{
    let py = wrapped(scroll.y + down(scene, scroll, from), scroll.down);
    let mut x = scrolled_cell(scene, scroll, py, from, to, out);
    let mut kept = NO_ROW;
    while x + 8 <= to {
        whole_cell(scene, scroll, py, x, &mut kept, out);
        x += 8;
    }
    if x < to {
        scrolled_cell(scene, scroll, py, x, to, out);
    }
}

/// Draws the dots of the plane from one place to another.
pub fn draw_scrolled(scene: &Scene, scroll: &Scroll, from: u32, to: u32, out: &mut Dots)
    requires scroll { IsScroll (seen scene.now) scroll.now }
    requires whole { length out.old ≡ picture_width }
    requires order { from ≤ to }
    requires within { to ≤ picture_width }
    ensures { IsFilled clear from to out.old out.new (scrolled_dot (seen scene.now) scroll.now.second scroll.now.y) }
{
    // copies stay in registers, since no dot is written over them
    let scene = *scene;
    let scroll = *scroll;
    let mut x = from;
    while x < to {
        let end = column_end(&scroll, x, to).min(to);
        draw_column(&scene, &scroll, x, end, out);
        x = end;
    }
}
