ghost use Rattle.std.specs.Prelude.{◌≡◌, ℕ, ◌<◌, true, false, length, slice_index, slice_set};
ghost use Rattle.md_word.specs.Region.{picture_width, scanline_length};
ghost use Rattle.vdp_planes.specs.Planes.{plane_dot};
ghost use Rattle.vdp_planes.specs.View.{AllColours, clear, dot_at, has_bit, register, seen};
ghost use Rattle.vdp_chip.specs.Picture.{blank, line_scanline, memory_length, scanline_of, with_scanline, without_bit_6};

use vdp_planes::register::MODE_2;
use vdp_planes::{Dot, Dots, PICTURE_WIDTH, SCANLINE_LENGTH, Scene, draw_plane, mix_dots};

/// Bytes that a picture takes: as many as one for PAL has.
pub const PICTURE: usize = 230_400;

/// Clears the picture.
pub fn clear(picture: &mut [u8; PICTURE])
    requires { length picture.old ≡ memory_length }
    ensures { picture.new ≡ blank }
{
    picture.fill(0);
}

/// Draws the dots of both planes on a line. Where the display is off none of them shows, and they stay
/// as they are.
fn draw_planes(scene: &Scene, line: u32, a: &mut Dots, b: &mut Dots)
    requires line { line < 240 }
    requires colours { AllColours a.old }
    requires others { AllColours b.old }
    ensures first { has_bit (register (seen scene.now) 1) 64 ≡ true
        → (x : ℕ) → x < picture_width → dot_at a.new x ≡ plane_dot (seen scene.now) false line x }
    ensures second { has_bit (register (seen scene.now) 1) 64 ≡ true
        → (x : ℕ) → x < picture_width → dot_at b.new x ≡ plane_dot (seen scene.now) true line x }
    ensures colours { AllColours a.new }
    ensures others { AllColours b.new }
{
    if scene.is_shown() {
        draw_plane(scene, line, false, a);
        draw_plane(scene, line, true, b);
    }
}

/// The dots of a line on which nothing is drawn yet.
pub fn clear_dots() -> Dots
    ensures dots { (x : ℕ) → x < picture_width → dot_at result x ≡ clear }
    ensures colours { AllColours result }
{
    [Dot::new(0, false); PICTURE_WIDTH]
}

/// Fills a scanline of the picture from the two planes and the sprites' dots. After the lines of the display
/// it shows the backdrop.
#[tactic(auto, unfolding(crate::specs::Picture::scanline_of, crate::specs::Picture::on_scanline, crate::specs::Picture::hidden))]
pub fn fill_scanline(scene: &Scene, line: u32, sprites: &Dots, scanline: &mut [u8])
    requires line { line < 240 }
    requires colours { AllColours sprites.now }
    requires whole { length scanline.old ≡ scanline_length }
    ensures { scanline.new ≡ scanline_of (seen scene.now) sprites.now line }
{
    if line < scene.height() {
        fill_line(scene, line, sprites, scanline);
    } else {
        let registers = without_display(scene.registers);
        let hidden = Scene {
            registers: &registers,
            vram: scene.vram,
            cram: scene.cram,
            vsram: scene.vsram,
            pal: scene.pal,
            tall: scene.tall,
        };
        fill_line(&hidden, line, sprites, scanline);
    }
}

/// The registers with the display off.
fn without_display(registers: &[u8; 24]) -> [u8; 24]
    ensures { result ≡ slice_set registers.now 1 (without_bit_6 (slice_index registers.now 1)) }
{
    let mut off = *registers;
    off[MODE_2] = registers[MODE_2] / 128 * 128 + registers[MODE_2] % 64;
    off
}

/// Fills a row with a line as a scene has it.
fn fill_line(scene: &Scene, line: u32, sprites: &Dots, scanline: &mut [u8])
    requires line { line < 240 }
    requires colours { AllColours sprites.now }
    requires whole { length scanline.old ≡ scanline_length }
    ensures { scanline.new ≡ line_scanline (seen scene.now) sprites.now line }
{
    let mut a = clear_dots();
    let mut b = clear_dots();
    draw_planes(scene, line, &mut a, &mut b);
    mix_dots(scene, &a, &b, sprites, scanline);
}

/// Draws a scanline of the picture in its place.
pub fn draw_scanline(scene: &Scene, line: u32, sprites: &Dots, picture: &mut [u8; PICTURE])
    requires line { line < 240 }
    requires colours { AllColours sprites.now }
    requires whole { length picture.old ≡ memory_length }
    ensures { picture.new ≡ with_scanline line (scanline_of (seen scene.now) sprites.now line) picture.old }
{
    let at = line as usize * SCANLINE_LENGTH;
    fill_scanline(scene, line, sprites, &mut picture[at..at + SCANLINE_LENGTH]);
}

/// Writes a scanline into the picture.
pub fn put_scanline(scanline: &[u8], line: u32, picture: &mut [u8; PICTURE])
    requires line { line < 240 }
    requires scanline { length scanline.now ≡ scanline_length }
    requires whole { length picture.old ≡ memory_length }
    ensures { picture.new ≡ with_scanline line scanline.now picture.old }
{
    let at = line as usize * SCANLINE_LENGTH;
    picture[at..at + SCANLINE_LENGTH].copy_from_slice(scanline);
}
