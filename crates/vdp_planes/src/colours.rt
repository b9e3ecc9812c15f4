ghost use Rattle.std.specs.Prelude.{◌≡◌, ℕ, ◌+◌, ◌*◌, ◌/◌, ◌%◌, ◌<◌, ◌≤◌, [], length, slice_index_or};
ghost use Rattle.vdp_planes.specs.View.{seen};
ghost use Rattle.vdp_planes.specs.Mixing.{IsSeen, ShadedColour, at_shade, entry_of, index_of, printed, rgb_of, shade_number, table_colour};

use crate::register::MODE_4;
use crate::view::Scene;

/// How bright a colour is shown. Source: Genesis Technical Overview, shadow and highlight.
#[derive(Clone, Copy)]
pub enum Shade {
    Shadow,
    Normal,
    Highlight,
}

/// The three bytes of a dot of the picture, in this order.
#[derive(Clone, Copy)]
pub struct Rgb {
    pub red: u8,
    pub green: u8,
    pub blue: u8,
}

/// A level of the colour memory, 0 to 7, as a byte.
#[inline(always)]
fn printed(shade: Shade, level: u8) -> u8
    requires { level < 8 }
    ensures { result ≡ printed shade level }
{
    match shade {
        Shade::Shadow => 18 * level,
        Shade::Normal => 36 * level,
        Shade::Highlight => 126 + 18 * level,
    }
}

/// A colour of the colour memory in a shade.
#[inline(always)]
#[tactic(auto, unfolding(crate::specs::Mixing::rgb_of))]
pub fn rgb_of(scene: &Scene, colour: usize, shade: Shade) -> Rgb
    requires { colour < 64 }
    ensures { result ≡ rgb_of (seen scene.now) (at_shade colour shade) }
{
    let word = scene.cram[colour];
    Rgb {
        red: printed(shade, (word / 2 % 8) as u8),
        green: printed(shade, (word / 32 % 8) as u8),
        blue: printed(shade, (word / 512 % 8) as u8),
    }
}

/// The three levels of a colour of the colour memory, red the lowest byte.
#[inline(always)]
fn levels_of(word: u16) -> u32
    ensures { result ≡ word / 2 % 8 + word / 32 % 8 * 256 + word / 512 % 8 * 65536 }
{
    let word = u32::from(word);
    word / 2 % 8 + word / 32 % 8 * 256 + word / 512 % 8 * 65536
}

/// The bytes of a colour in a shade, and one that no dot shows, so that a dot is written at once. All
/// three levels are multiplied at once: none is more than 252.
#[inline(always)]
#[tactic(auto, unfolding(crate::specs::Mixing::rgb_of))]
fn entry_of(scene: &Scene, colour: usize, shade: Shade) -> [u8; 4]
    requires { colour < 64 }
    ensures { result ≡ entry_of (rgb_of (seen scene.now) (at_shade colour shade)) }
{
    let levels = levels_of(scene.cram[colour]);
    let bytes = match shade {
        Shade::Shadow => 18 * levels,
        Shade::Normal => 36 * levels,
        Shade::Highlight => 0x7e_7e7e + 18 * levels,
    };
    bytes.to_le_bytes()
}

/// The colours that the line can show: the 64 in shadow, normal and highlighted, or, without shadow
/// and highlight, the 64 normal ones alone.
pub fn fill_shown(scene: &Scene, table: &mut [[u8; 4]; 192])
    requires whole { length table.old ≡ 192 }
    ensures { (s : ShadedColour) → s.colour < 64 → IsSeen (seen scene.now) s.shade
        → slice_index_or table.new (index_of s) [] ≡ entry_of (rgb_of (seen scene.now) s) }
{
    if scene.registers[MODE_4] / 8 % 2 == 1 {
        fill_table(scene, table);
    } else {
        fill_shade(scene, Shade::Normal, 64, table);
    }
}

/// All 192 colours.
fn fill_table(scene: &Scene, table: &mut [[u8; 4]; 192])
    requires whole { length table.old ≡ 192 }
    ensures { (n : ℕ) → n < 192 → slice_index_or table.new n [] ≡ entry_of (table_colour (seen scene.now) n) }
{
    fill_shade(scene, Shade::Shadow, 0, table);
    fill_shade(scene, Shade::Normal, 64, table);
    fill_shade(scene, Shade::Highlight, 128, table);
}

/// Fills the part of the table for a shade, which begins at `from`.
#[inline(always)]
fn fill_shade(scene: &Scene, shade: Shade, from: usize, table: &mut [[u8; 4]; 192])
    requires from { from ≡ 64 * shade_number shade }
    requires below { from < 129 }
    requires whole { length table.old ≡ 192 }
    ensures whole { length table.new ≡ 192 }
    ensures colours { (n : ℕ) → n < 64 → slice_index_or table.new (from + n) [] ≡ entry_of (rgb_of (seen scene.now) (at_shade n shade)) }
    ensures before { (n : ℕ) → n < from → slice_index_or table.new n [] ≡ slice_index_or table.old n [] }
{
    for n in 0..64 {
        table[from + n] = entry_of(scene, n, shade);
    }
}
