ghost use Rattle.std.specs.Prelude.{◌≡◌, ℕ, ◌/◌, ◌%◌, ◌*◌, ◌+◌, ◌-◌, ◌<◌, ◌≤◌, ◌^◌, length, slice_index};
ghost use Rattle.md_word.specs.Region.{picture_width};
ghost use Rattle.vdp_planes.specs.View.{IsFilled, clear, has_bit, seen};
ghost use Rattle.vdp_planes.specs.Planes.{pattern_index, pixel_dot, pixel_of, run_dot, turned};
ghost use Rattle.vdp_planes.specs.Rows.{AreWords, IsCellRow, KeepsRow};

use crate::view::{Dot, Dots, Scene};

/// A row of a cell, ready to be drawn: neighbours often have the same name, and then it is made once.
#[derive(Clone, Copy)]
pub struct CellRow {
    /// The name, 65,536 where there is no row yet.
    pub(crate) name: u32,
    /// The pixels as the digits of a number, the left one the highest.
    pub(crate) pixels: u32,
    /// The words of the left four dots, the left one lowest, and of the right four.
    pub(crate) left: u64,
    pub(crate) right: u64,
}

/// No row yet.
pub const NO_ROW: CellRow = CellRow {
    name: 65_536,
    pixels: 0,
    left: 0,
    right: 0,
};

/// Moves a number of 16 bits to four places, 20 bits apart.
const FOUR_APART: u64 = 0x1000_0100_0010_0001;

/// The lowest digits of four numbers of 16 bits.
const LOW_DIGITS: u64 = 0x000f_000f_000f_000f;

/// One in each of four numbers of 16 bits.
const FOUR_ONES: u64 = 0x0001_0001_0001_0001;

/// The right pixels of four bytes.
const RIGHT_PIXELS: u32 = 0x0f0f_0f0f;

/// A row or column, from the other side where it is flipped.
#[inline(always)]
#[tactic(auto, unfolding(crate::specs::Planes::turned))]
fn turned(flip: bool, n: u32) -> u32
    requires { n < 8 }
    ensures value { result ≡ turned flip n }
    ensures below { result < 8 }
{
    if flip { 7 - n } else { n }
}

/// Four bytes as a number, the first the highest.
#[inline(always)]
fn joined(b0: u8, b1: u8, b2: u8, b3: u8) -> u32
    ensures { result ≡ b0 * 16777216 + b1 * 65536 + b2 * 256 + b3 }
{
    u32::from(b0) * 16_777_216 + u32::from(b1) * 65_536 + u32::from(b2) * 256 + u32::from(b3)
}

/// The same four bytes, the last the highest.
#[inline(always)]
fn reversed(row: u32) -> u32
    ensures { (b0 b1 b2 b3 : ℕ) → b0 < 256 → b1 < 256 → b2 < 256 → b3 < 256 → row ≡ b3 * 16777216 + b2 * 65536 + b1 * 256 + b0
        → result ≡ b0 * 16777216 + b1 * 65536 + b2 * 256 + b3 }
{
    row.swap_bytes()
}

/// Each byte's two pixels changed about.
#[inline(always)]
fn swapped(row: u32) -> u32
    ensures { (b0 b1 b2 b3 : ℕ) → b0 < 256 → b1 < 256 → b2 < 256 → b3 < 256 → row ≡ b3 * 16777216 + b2 * 65536 + b1 * 256 + b0
        → result ≡ (b3 % 16 * 16 + b3 / 16) * 16777216 + (b2 % 16 * 16 + b2 / 16) * 65536 + (b1 % 16 * 16 + b1 / 16) * 256 + (b0 % 16 * 16 + b0 / 16) }
{
    let left = row / 16 & RIGHT_PIXELS;
    let right = row & RIGHT_PIXELS;
    right * 16 + left
}

/// The eight pixels of a row of a pattern as a number's digits, the left one the highest, or the
/// lowest where the row is flipped.
#[inline(always)]
pub fn row_pixels(scene: &Scene, pattern: u32, row: u32, flip: bool) -> u32
    requires pattern { pattern < 2048 }
    requires row { row < 8 }
    ensures { (c : ℕ) → c < 8 → pixel_of result c ≡ pattern_index (seen scene.now) pattern (turned flip c) row }
{
    let at = (pattern * 32 + row * 4) as usize;
    let b0 = scene.vram[at];
    let b1 = scene.vram[at + 1];
    let b2 = scene.vram[at + 2];
    let b3 = scene.vram[at + 3];
    let row = joined(b3, b2, b1, b0);
    let forward = reversed(row);
    let backward = swapped(row);
    if flip { backward } else { forward }
}

/// A digit of these, the left one first.
#[inline(always)]
#[tactic(auto, unfolding(crate::specs::Planes::pixel_of))]
pub fn pixel(pixels: u32, column: u32) -> u16
    requires { column < 8 }
    ensures value { result ≡ pixel_of pixels column }
    ensures below { result < 16 }
{
    ((pixels << (4 * column)) >> 28) as u16
}

/// The word of a transparent dot of a name.
#[inline(always)]
fn base(name: u32) -> u16
    requires { name < 2 ^ 16 }
    ensures value { result ≡ name / 32768 % 2 * 256 + name / 8192 % 4 * 16 }
    ensures below { result < 496 }
{
    (name / 32768 % 2 * 256 + name / 8192 % 4 * 16) as u16
}

/// Draws dots of this name from these pixels, the one in `column` at `from`, up to `to`.
#[inline(always)]
#[tactic(auto, using(crate::proofs::Filled::filled_one))]
fn pixel_run(name: u32, pixels: u32, column: u32, from: u32, to: u32, out: &mut Dots)
    requires name { name < 2 ^ 16 }
    requires order { from ≤ to }
    requires within { to ≤ picture_width }
    requires cell { column + to ≤ from + 8 }
    ensures { IsFilled clear from to out.old out.new (pixel_dot name pixels column from) }
{
    let base = base(name);
    for x in from..to {
        out[x as usize] = Dot::of_word(base + pixel(pixels, column + (x - from)));
    }
}

/// The words of four dots in one number, the left one lowest: the four digits are moved apart by one
/// multiplication, and the word of a transparent dot is added to each.
#[inline(always)]
fn four_words(digits: u32, base: u16) -> u64
    requires digits { digits < 2 ^ 16 }
    requires base { base < 496 }
    ensures { (c : ℕ) → c < 4 → result / 2 ^ (16 * c) % 65536 ≡ base + digits / 2 ^ (12 - 4 * c) % 16 }
{
    let apart = u64::from(digits).wrapping_mul(FOUR_APART) / 4096 & LOW_DIGITS;
    apart + u64::from(base) * FOUR_ONES
}

/// Writes four dots of a cell's row, those from `column` on, at their places after `from`.
#[inline(always)]
fn put_four(name: u32, pixels: u32, words: u64, column: u32, from: u32, out: &mut Dots)
    requires column { column ≤ 4 }
    requires within { from + 8 ≤ picture_width }
    requires whole { length out.old ≡ picture_width }
    requires words { AreWords name pixels column words }
    ensures { IsFilled clear (from + column) (from + column + 4) out.old out.new (pixel_dot name pixels 0 from) }
{
    // no loop, so that the compiler stores the four at once
    let at = from as usize + column as usize;
    out[at] = Dot::of_word((words % 65_536) as u16);
    out[at + 1] = Dot::of_word((words / 65_536 % 65_536) as u16);
    out[at + 2] = Dot::of_word((words / 4_294_967_296 % 65_536) as u16);
    out[at + 3] = Dot::of_word((words / 281_474_976_710_656 % 65_536) as u16);
}

/// A row of this name with these pixels.
#[inline(always)]
fn row_with(name: u32, pixels: u32) -> CellRow
    requires { name < 2 ^ 16 }
    ensures name { result.name ≡ name }
    ensures pixels { result.pixels ≡ pixels }
    ensures left { AreWords name pixels 0 result.left }
    ensures right { AreWords name pixels 4 result.right }
{
    let base = base(name);
    CellRow {
        name,
        pixels,
        left: four_words(pixels / 65_536, base),
        right: four_words(pixels % 65_536, base),
    }
}

/// A row of the cell of this name.
#[inline(always)]
fn row_of(scene: &Scene, name: u32, row: u32) -> CellRow
    requires name { name < 2 ^ 16 }
    requires row { row < 8 }
    ensures name { result.name ≡ name }
    ensures row { IsCellRow (seen scene.now) row result }
{
    let line = turned(name / 4096 % 2 == 1, row);
    let pixels = row_pixels(scene, name % 2048, line, name / 2048 % 2 == 1);
    row_with(name, pixels)
}

/// Makes the row that of the cell of this name, unless it is.
#[inline(always)]
fn turn_to(scene: &Scene, name: u32, row: u32, kept: &mut CellRow)
    requires name { name < 2 ^ 16 }
    requires row { row < 8 }
    requires kept { KeepsRow (seen scene.now) row kept.old }
    ensures name { kept.new.name ≡ name }
    ensures row { IsCellRow (seen scene.now) row kept.new }
{
    if kept.name != name {
        *kept = row_of(scene, name, row);
    }
}

/// Draws the eight dots of a row.
#[inline(always)]
fn put_row(row: &CellRow, from: u32, out: &mut Dots)
    requires left { AreWords row.now.name row.now.pixels 0 row.now.left }
    requires right { AreWords row.now.name row.now.pixels 4 row.now.right }
    requires within { from + 8 ≤ picture_width }
    requires whole { length out.old ≡ picture_width }
    ensures { IsFilled clear from (from + 8) out.old out.new (pixel_dot row.now.name row.now.pixels 0 from) }
{
    put_four(row.name, row.pixels, row.left, 0, from, out);
    put_four(row.name, row.pixels, row.right, 4, from, out);
}

/// Draws the eight dots of a row of the cell of this name, and keeps the row.
#[inline(always)]
pub fn cell_row(scene: &Scene, name: u32, row: u32, from: u32, kept: &mut CellRow, out: &mut Dots)
    requires name { name < 2 ^ 16 }
    requires row { row < 8 }
    requires within { from + 8 ≤ picture_width }
    requires whole { length out.old ≡ picture_width }
    requires kept { KeepsRow (seen scene.now) row kept.old }
    ensures drawn { IsFilled clear from (from + 8) out.old out.new (run_dot (seen scene.now) name 0 row from) }
    ensures kept { KeepsRow (seen scene.now) row kept.new }
{
    turn_to(scene, name, row, kept);
    put_row(kept, from, out);
}

/// Draws the dots of a row of the cell of this name, the one in `column` at `from`, up to `to`.
#[inline(always)]
pub fn cell_run(scene: &Scene, name: u32, column: u32, row: u32, from: u32, to: u32, out: &mut Dots)
    requires name { name < 2 ^ 16 }
    requires row { row < 8 }
    requires order { from ≤ to }
    requires within { to ≤ picture_width }
    requires cell { column + to ≤ from + 8 }
    ensures { IsFilled clear from to out.old out.new (run_dot (seen scene.now) name column row from) }
{
    let line = turned(name / 4096 % 2 == 1, row);
    let pixels = row_pixels(scene, name % 2048, line, name / 2048 % 2 == 1);
    // a whole cell apart: its number of dots is known to the compiler
    if to == from + 8 {
        put_row(&row_with(name, pixels), from, out);
    } else {
        pixel_run(name, pixels, column, from, to, out);
    }
}
