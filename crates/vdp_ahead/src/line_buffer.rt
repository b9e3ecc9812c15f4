ghost use Rattle.std.specs.Prelude.{◌≡◌, ℕ, ◌+◌, ◌<◌, ◌≤◌, true, length};
ghost use Rattle.vdp_planes.specs.View.{display_height, view_of};
ghost use Rattle.vdp_sprites.specs.Lines.{note_on};
ghost use Rattle.vdp_ahead.specs.Lines.{scanline_on};
ghost use Rattle.vdp_ahead.specs.LineBuffers.{LineBufferValue};

use crate::line::draw_line;
use md_word::NoMemory;
use std::alloc::Global;
use std::marker::Model;
use vdp_planes::{LineView, SCANLINE_LENGTH, SpriteNote, fill_view};
use vdp_ports::{VRAM_SIZE, VdpState};

/// The scanlines of a picture at most.
const SCANLINES: usize = 240;

/// A line buffer: pre-rendered lines of a picture from one to another, with the view that they are drawn from,
/// some 300 KB.
#[derive(Drop)]
pub struct LineBuffer {
    view: LineView,
    from: u32,
    to: u32,
    until: u32,
    scanlines: [[u8; SCANLINE_LENGTH]; SCANLINES],
    notes: [SpriteNote; SCANLINES],
}

impl Model for LineBuffer {
    ghost use Rattle.vdp_ahead.specs.LineBuffers.{AreDrawn, LineBufferValue};

    ghost Value = { LineBufferValue };

    ghost view = { λ s. record { view = s.view; from = s.from; to = s.to; until = s.until } };

    ghost invariant = { λ s. AreDrawn (record { view = s.view; from = s.from; to = s.to; until = s.until }) s.scanlines s.notes };
}

impl LineBuffer {
    /// A buffer without a line. The only error is out of memory.
    pub fn blank(alloc: Global) -> Result<Box<LineBuffer>, NoMemory> {
        let line_buffer = LineBuffer {
            view: LineView {
                registers: [0; 24],
                vram: [0; VRAM_SIZE],
                cram: [0; 64],
                vsram: [0; 40],
                pal: false,
                tall: false,
            },
            from: 0,
            to: 0,
            until: 0,
            scanlines: [[0; SCANLINE_LENGTH]; SCANLINES],
            notes: [SpriteNote {
                overflow: false,
                collision: false,
            }; SCANLINES],
        };
        match Box::new(alloc, line_buffer) {
            Ok(line_buffer) => Ok(line_buffer),
            Err(_) => Err(NoMemory),
        }
    }

    /// Takes the VDP's registers and memories as they are, for the lines of a picture of a region from `from` on
    /// and below `until`, of which none is drawn yet: a copy of 64 KiB.
    pub fn begin(&mut self, state: &VdpState, pal: bool, from: u32, until: u32)
        requires { from ≤ 240 }
        ensures { self.new ≡ record { view = view_of pal state.now; from = from; to = from; until = until } }
    {
        self.from = from;
        self.to = from;
        self.until = until;
        self.view.pal = pal;
        fill_view(&mut self.view, state);
    }

    /// Draws the next line.
    fn draw_next(&mut self)
        requires below { self.old.to < display_height self.old.view }
        requires few { self.old.to < 240 }
        ensures { self.new ≡ record self.old { to = self.old.to + 1 } }
    {
        let line = self.to;
        let scanline = &mut self.scanlines[line as usize];
        let note = draw_line(&self.view, line, scanline);
        self.notes[line as usize] = note;
        self.to = line + 1;
    }

    /// Draws the lines of the display that the buffer is for and that are not drawn.
    pub fn draw(&mut self)
        ensures same { self.new ≡ record self.old { to = self.new.to } }
        ensures all { (y : ℕ) → y < self.old.until → y < display_height self.old.view → y < self.new.to }
    {
        let end = self.view.scene().height().min(self.until);
        for _ in self.to..end {
            self.draw_next();
        }
    }

    /// Whether the VDP is as the view shows it.
    pub fn is_of(&self, state: &VdpState) -> bool
        ensures same { result ≡ true → self.now.view ≡ view_of self.now.view.pal state.now }
        ensures found { self.now.view ≡ view_of self.now.view.pal state.now → result ≡ true }
    {
        self.view.tall == state.tall
            && self.view.registers == state.registers
            && self.view.cram == state.cram
            && self.view.vsram == state.vsram
            && self.view.vram == *state.vram
    }

    /// Whether a line of a picture of a region is drawn.
    pub fn has(&self, line: u32, pal: bool) -> bool
        ensures region { result ≡ true → self.now.view.pal ≡ pal }
        ensures from { result ≡ true → self.now.from ≤ line }
        ensures to { result ≡ true → line < self.now.to }
        ensures found { self.now.view.pal ≡ pal → self.now.from ≤ line → line < self.now.to → result ≡ true }
    {
        self.view.pal == pal && self.from <= line && line < self.to
    }

    /// The scanline of a line, 960 bytes of red, green and blue.
    pub fn scanline(&self, line: u32) -> &[u8]
        requires from { self.now.from ≤ line }
        requires to { line < self.now.to }
        ensures { result.now ≡ scanline_on line self.now.view }
    {
        &self.scanlines[line as usize]
    }

    /// What the sprites of a line set.
    pub fn note(&self, line: u32) -> SpriteNote
        requires from { self.now.from ≤ line }
        requires to { line < self.now.to }
        ensures { result ≡ note_on line self.now.view }
    {
        self.notes[line as usize]
    }
}
