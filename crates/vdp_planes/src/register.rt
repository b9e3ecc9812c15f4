// The numbers of the registers that the picture is drawn by. Source: Genesis Technical Overview, the
// VDP's registers.

pub use vdp_ports::register::MODE_2;

/// The nametable of plane A: bits 5 to 3.
pub const PLANE_A: usize = 2;
/// The nametable of the window: bits 5 to 1.
pub const WINDOW: usize = 3;
/// The nametable of plane B: bits 2 to 0.
pub const PLANE_B: usize = 4;
/// The table of sprites: bits 6 to 0.
pub const SPRITES: usize = 5;
/// The backdrop's colour: bits 5 to 0.
pub const BACKDROP: usize = 7;
/// Bit 2 vertical scroll by columns, bits 1 and 0 the horizontal scroll.
pub const MODE_3: usize = 11;
/// Bit 0 the 320 mode, bit 3 shadow and highlight.
pub const MODE_4: usize = 12;
/// The table of horizontal scrolls: bits 5 to 0.
pub const SCROLLS: usize = 13;
/// The planes' width in bits 1 and 0, their height in bits 5 and 4.
pub const PLANE_SIZE: usize = 16;
/// The window's edge across: bits 4 to 0; bit 7 the side.
pub const WINDOW_ACROSS: usize = 17;
/// The window's edge down: bits 4 to 0; bit 7 the side.
pub const WINDOW_DOWN: usize = 18;
