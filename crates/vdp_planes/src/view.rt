ghost use Rattle.std.specs.Prelude.{◌≡◌, ◌<◌, ◌≤◌, ◌%◌};
ghost use Rattle.vdp_planes.specs.View.{display_height, has_bit, register, seen, view_of};
ghost use Rattle.vdp_planes.specs.Dots.{dot_of, word_of};

use md_word::region::height;
use std::marker::Model;
use vdp_ports::register::is_shown;
use vdp_ports::{VRAM_SIZE, VdpState};

/// How many dots a scanline of a picture has. In the 256 mode 32 on each side are borders.
pub const PICTURE_WIDTH: usize = 320;

/// How many bytes it has: red, green and blue of each dot.
pub const SCANLINE_LENGTH: usize = 3 * PICTURE_WIDTH;

/// The dots of a plane or of the sprites on a scanline, from the left.
pub type Dots = [Dot; PICTURE_WIDTH];

/// What a line of a picture is drawn from: the registers and memories of the VDP at the line's event,
/// and the height of its display. The region is that of the picture. It takes 64 KiB: keep it in a box.
/// Source: Genesis Technical Overview, the VDP.
#[derive(Drop)]
pub struct LineView {
    pub registers: [u8; 24],
    pub vram: [u8; VRAM_SIZE],
    pub cram: [u16; 64],
    pub vsram: [u16; 40],
    /// Whether the picture is one for PAL.
    pub pal: bool,
    /// Whether the display has 240 lines, where the picture has them.
    pub tall: bool,
}

/// The same, borrowed from where it is.
#[derive(Clone, Copy)]
pub struct Scene<'a> {
    pub registers: &'a [u8; 24],
    pub vram: &'a [u8; VRAM_SIZE],
    pub cram: &'a [u16; 64],
    pub vsram: &'a [u16; 40],
    pub pal: bool,
    pub tall: bool,
}

/// A dot of a plane or of the sprites. A plane's dot has its name's priority also where it is
/// transparent. A contract sees its colour and its priority.
#[derive(Clone, Copy)]
pub struct Dot {
    /// The colour, and 256 more with priority.
    word: u16,
}

impl Model for Dot {
    ghost use Rattle.std.specs.Prelude.{ℕ, ◌<◌};
    ghost use Rattle.std.proofs.Common.{ap, arith};
    ghost use Rattle.vdp_planes.specs.Dots.{Dot as TheDot, dot_of, word_of};

    ghost Value = { TheDot };

    ghost view = { λ d. dot_of d.word };

    ghost invariant = { λ d. d.word < 512 };

    ghost inverse = { λ d. record { word = word_of d } };

    ghost inverse_ok = { λ d h. ap (λ (w : ℕ). record { word = w }) (Prim.grind (arith, h)) };
}

impl Dot {
    /// A dot of a colour, palette · 16 + index, 0 to 63; index 0 is transparent.
    #[inline(always)]
    pub fn new(colour: u8, priority: bool) -> Dot
        ensures colour { result.colour ≡ colour }
        ensures priority { result.priority ≡ priority }
    {
        if priority {
            Dot::of_word(u16::from(colour) + 256)
        } else {
            Dot::of_word(u16::from(colour))
        }
    }

    /// The dot that a word holds.
    #[inline(always)]
    pub(crate) fn of_word(word: u16) -> Dot
        requires { word < 512 }
        ensures { result ≡ dot_of word }
    {
        Dot { word }
    }

    /// The word that holds this dot.
    #[inline(always)]
    pub(crate) fn word(self) -> u16
        ensures value { result ≡ word_of self }
        ensures below { result < 512 }
    {
        self.word
    }

    /// Palette · 16 + index.
    #[inline(always)]
    pub fn colour(self) -> u8
        ensures { result ≡ self.colour }
    {
        (self.word % 256) as u8
    }

    /// Whether it is before others.
    #[inline(always)]
    pub fn priority(self) -> bool
        ensures { result ≡ self.priority }
    {
        self.word >= 256
    }
}

impl LineView {
    /// This view, borrowed.
    pub fn scene(&self) -> Scene<'_>
        ensures { seen result ≡ self.now }
    {
        Scene {
            registers: &self.registers,
            vram: &self.vram,
            cram: &self.cram,
            vsram: &self.vsram,
            pal: self.pal,
            tall: self.tall,
        }
    }
}

/// The VDP's registers and memories, borrowed as they are, for a picture of a region.
pub fn scene_of(state: &VdpState, pal: bool) -> Scene<'_>
    ensures { seen result ≡ view_of pal state.now }
{
    Scene {
        registers: &state.registers,
        vram: &state.vram,
        cram: &state.cram,
        vsram: &state.vsram,
        pal,
        tall: state.tall,
    }
}

/// Fills a view with the VDP's registers, memories and height: a copy of 64 KiB. Its region stays.
pub fn fill_view(view: &mut LineView, state: &VdpState)
    ensures { view.new ≡ view_of view.old.pal state.now }
{
    view.registers = state.registers;
    view.vram = *state.vram;
    view.cram = state.cram;
    view.vsram = state.vsram;
    view.tall = state.tall;
}

impl<'a> Scene<'a> {
    /// The lines of the display, 224 or 240; after them the scanlines of the picture show the backdrop.
    #[inline]
    pub fn height(&self) -> u32
        ensures value { result ≡ display_height (seen self.now) }
        ensures few { result ≤ 240 }
    {
        height(self.pal && self.tall)
    }

    /// Whether the display is on.
    #[inline]
    pub fn is_shown(&self) -> bool
        ensures { result ≡ has_bit (register (seen self.now) 1) 64 }
    {
        is_shown(self.registers)
    }
}

/// What the sprites of a line have set in the status. Source: Genesis Technical Overview, the VDP's status.
#[derive(Clone, Copy, PartialEq, Eq, Debug)]
pub struct SpriteNote {
    /// More sprites or pixels than a line shows.
    pub overflow: bool,
    /// Two opaque dots of sprites at one place.
    pub collision: bool,
}
