ghost use Rattle.std.specs.Prelude.{◌≡◌, ℕ, ◌+◌, ◌-◌, ◌*◌, ◌/◌, ◌%◌, ◌<◌, ◌≤◌, [], length, slice_index, slice_index_or};
ghost use Rattle.md_word.specs.Region.{picture_width, scanline_length};
ghost use Rattle.vdp_planes.specs.View.{AllColours, IsFilled, register, seen};
ghost use Rattle.vdp_planes.specs.Planes.{width_of};
ghost use Rattle.vdp_planes.specs.Mixing.{IsSpan, back_at, backdrop, backdrop_byte, in_picture, index_at, index_of, line_byte, mixed_at, part, printed_byte, shaded_at, unshaded_at};

use crate::colours::{Rgb, Shade, fill_shown, rgb_of};
use crate::mix::{index_of, shaded, unshaded};
use crate::register::{BACKDROP, MODE_4};
use crate::view::{Dots, LineView, PICTURE_WIDTH, Scene};
use crate::window::width_of;

/// Mixes the dots of a line of plane A, plane B and the sprites into its 960 bytes: red, green and
/// blue of 320 dots. The borders of the 256 mode, and all where the display is off, show the
/// backdrop. Source: Genesis Technical Overview, priority; the bytes of a level are this project's
/// profile.
pub fn mix_line(view: &LineView, a: &Dots, b: &Dots, s: &Dots, rgb: &mut [u8])
    requires a { AllColours a.now }
    requires b { AllColours b.now }
    requires s { AllColours s.now }
    requires room { length rgb.old ≡ scanline_length }
    ensures { (n : ℕ) → n < scanline_length → slice_index rgb.new n ≡ line_byte view.now a.now b.now s.now n }
{
    mix_dots(&view.scene(), a, b, s, rgb);
}

/// `mix_line` from borrowed registers and memories.
pub fn mix_dots(scene: &Scene, a: &Dots, b: &Dots, s: &Dots, rgb: &mut [u8])
    requires a { AllColours a.now }
    requires b { AllColours b.now }
    requires s { AllColours s.now }
    requires room { length rgb.old ≡ scanline_length }
    ensures { (n : ℕ) → n < scanline_length → slice_index rgb.new n ≡ line_byte (seen scene.now) a.now b.now s.now n }
{
    if scene.is_shown() {
        mix_shown(scene, a, b, s, rgb);
    } else {
        fill_row(scene, rgb);
    }
}

/// Writes the backdrop's colour into each dot of the line, sixteen dots at a time.
#[tactic(auto, unfolding(crate::specs::Mixing::backdrop, crate::specs::Mixing::backdrop_byte))]
fn fill_row(scene: &Scene, rgb: &mut [u8])
    requires room { length rgb.old ≡ scanline_length }
    ensures { (n : ℕ) → n < scanline_length → slice_index rgb.new n ≡ backdrop_byte (seen scene.now) n }
{
    let back = scene.registers[BACKDROP] % 64;
    let colour = rgb_of(scene, usize::from(back), Shade::Normal);
    let dots = sixteen_dots(&colour);
    for x in 0..20 {
        rgb[48 * x..48 * x + 48].copy_from_slice(&dots);
    }
}

/// The bytes of sixteen dots of one colour, in a call of its own: they are then copied as they lie in memory, where the
/// compiler would else store each byte of the line by itself.
#[inline(never)]
fn sixteen_dots(colour: &Rgb) -> [u8; 48]
    ensures whole { length result ≡ 48 }
    ensures value { (n : ℕ) → n < 48 → slice_index result n ≡ part colour.now (n % 3) }
{
    let mut dots = [0; 48];
    for x in 0..16 {
        dots[3 * x] = colour.red;
        dots[3 * x + 1] = colour.green;
        dots[3 * x + 2] = colour.blue;
    }
    dots
}

/// Mixes a line whose dots show, dot by dot.
fn mix_shown(scene: &Scene, a: &Dots, b: &Dots, s: &Dots, rgb: &mut [u8])
    requires a { AllColours a.now }
    requires b { AllColours b.now }
    requires s { AllColours s.now }
    requires room { length rgb.old ≡ scanline_length }
    ensures { (n : ℕ) → n < scanline_length → slice_index rgb.new n ≡ line_byte (seen scene.now) a.now b.now s.now n }
{
    let mut table = [[0; 4]; 192];
    fill_shown(scene, &mut table);
    let mut line = [0; PICTURE_WIDTH];
    mix_indexes(scene, a, b, s, &mut line);
    print(&table, &line, rgb);
}

/// The picture's place on the line; none of it where the display is off.
#[tactic(auto, unfolding(crate::specs::Mixing::in_picture, crate::specs::Mixing::border_of, crate::specs::Planes::width_of))]
fn span_of(scene: &Scene) -> (usize, usize)
    ensures { IsSpan (seen scene.now) result.0 result.1 }
{
    if !scene.is_shown() {
        return (0, 0);
    }
    if scene.registers[MODE_4] % 2 == 1 {
        (0, PICTURE_WIDTH)
    } else {
        (32, 288)
    }
}

/// The index of what each dot of the line shows.
fn mix_indexes(scene: &Scene, a: &Dots, b: &Dots, s: &Dots, line: &mut [u8; PICTURE_WIDTH])
    requires a { AllColours a.now }
    requires b { AllColours b.now }
    requires s { AllColours s.now }
    ensures whole { length line.new ≡ picture_width }
    ensures value { (x : ℕ) → x < picture_width → slice_index line.new x ≡ index_at (seen scene.now) a.now b.now s.now x }
    ensures below { (x : ℕ) → x < picture_width → slice_index line.new x < 192 }
{
    let back = scene.registers[BACKDROP] % 64;
    let (from, to) = span_of(scene);
    fill_back(back, 0, from, line);
    fill_mixed(scene, a, b, s, from, to, line);
    fill_back(back, to, PICTURE_WIDTH, line);
}

/// The dots of the picture, with or without shadow and highlight.
fn fill_mixed(
    scene: &Scene,
    a: &Dots,
    b: &Dots,
    s: &Dots,
    from: usize,
    to: usize,
    line: &mut [u8; PICTURE_WIDTH],
)
    requires a { AllColours a.now }
    requires b { AllColours b.now }
    requires s { AllColours s.now }
    requires order { from ≤ to }
    requires within { to ≤ picture_width }
    requires whole { length line.old ≡ picture_width }
    ensures { IsFilled 0 from to line.old line.new (mixed_at (seen scene.now) a.now b.now s.now from) }
{
    let back = scene.registers[BACKDROP] % 64;
    if scene.registers[MODE_4] / 8 % 2 == 1 {
        fill_shaded(back, a, b, s, from, to, line);
    } else {
        fill_unshaded(back, a, b, s, from, to, line);
    }
}

/// The backdrop.
#[tactic(auto, using(crate::proofs::Filled::filled_one))]
fn fill_back(back: u8, from: usize, to: usize, line: &mut [u8; PICTURE_WIDTH])
    requires back { back < 64 }
    requires order { from ≤ to }
    requires within { to ≤ picture_width }
    requires whole { length line.old ≡ picture_width }
    ensures { IsFilled 0 from to line.old line.new (back_at back) }
{
    let index = index_of(back, Shade::Normal);
    for x in from..to {
        line[x] = index;
    }
}

/// Dots with shadow and highlight.
#[tactic(auto, using(crate::proofs::Filled::filled_one))]
fn fill_shaded(
    back: u8,
    a: &Dots,
    b: &Dots,
    s: &Dots,
    from: usize,
    to: usize,
    line: &mut [u8; PICTURE_WIDTH],
)
    requires back { back < 64 }
    requires a { AllColours a.now }
    requires b { AllColours b.now }
    requires s { AllColours s.now }
    requires order { from ≤ to }
    requires within { to ≤ picture_width }
    requires whole { length line.old ≡ picture_width }
    ensures { IsFilled 0 from to line.old line.new (shaded_at back a.now b.now s.now from) }
{
    for x in from..to {
        let dot = x - from;
        line[x] = shaded(back, a[dot], b[dot], s[dot]);
    }
}

/// Dots without.
#[tactic(auto, using(crate::proofs::Filled::filled_one))]
fn fill_unshaded(
    back: u8,
    a: &Dots,
    b: &Dots,
    s: &Dots,
    from: usize,
    to: usize,
    line: &mut [u8; PICTURE_WIDTH],
)
    requires back { back < 64 }
    requires a { AllColours a.now }
    requires b { AllColours b.now }
    requires s { AllColours s.now }
    requires order { from ≤ to }
    requires within { to ≤ picture_width }
    requires whole { length line.old ≡ picture_width }
    ensures { IsFilled 0 from to line.old line.new (unshaded_at back a.now b.now s.now from) }
{
    for x in from..to {
        let dot = x - from;
        line[x] = unshaded(back, a[dot], b[dot], s[dot]);
    }
}

/// Writes the bytes of the colours of these indices, four dots at a time. Each dot but the last is
/// written with one byte more, which the next dot's first then replaces.
#[tactic(auto, using(crate::proofs::Printed::dot_printed))]
fn print(table: &[[u8; 4]; 192], line: &[u8; PICTURE_WIDTH], rgb: &mut [u8])
    requires indices { (x : ℕ) → x < picture_width → slice_index line.now x < 192 }
    requires entries { (x : ℕ) → x < picture_width → length (slice_index_or table.now (slice_index line.now x) []) ≡ 4 }
    requires room { length rgb.old ≡ scanline_length }
    ensures { (n : ℕ) → n < scanline_length → slice_index rgb.new n ≡ printed_byte table.now line.now n }
{
    for x in 0..79 {
        let at = 12 * x;
        let first = table[usize::from(line[4 * x])];
        print_dot(&first, at, rgb);
        let second = table[usize::from(line[4 * x + 1])];
        print_dot(&second, at + 3, rgb);
        let third = table[usize::from(line[4 * x + 2])];
        print_dot(&third, at + 6, rgb);
        let fourth = table[usize::from(line[4 * x + 3])];
        print_dot(&fourth, at + 9, rgb);
    }
    for x in 316..319 {
        let dot = table[usize::from(line[x])];
        print_dot(&dot, 3 * x, rgb);
    }
    let [red, green, blue, _] = table[usize::from(line[319])];
    rgb[957] = red;
    rgb[958] = green;
    rgb[959] = blue;
}

/// Writes the bytes of a dot at a place, and one more.
#[inline(always)]
fn print_dot(dot: &[u8; 4], at: usize, rgb: &mut [u8])
    requires within { at < 957 }
    requires dot { length dot.now ≡ 4 }
    requires whole { length rgb.old ≡ scanline_length }
    ensures whole { length rgb.new ≡ scanline_length }
    ensures before { (n : ℕ) → n < at → slice_index rgb.new n ≡ slice_index rgb.old n }
    ensures dot { (n : ℕ) → n < 3 → slice_index rgb.new (at + n) ≡ slice_index dot.now n }
{
    rgb[at..at + 4].copy_from_slice(dot);
}
