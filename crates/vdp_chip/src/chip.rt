ghost use Rattle.std.specs.Prelude.{◌≡◌, ◌<◌, List, IfOk, None, true, false, option_copied};
ghost use Rattle.md_word.specs.Clock.{cycle_limit};
ghost use Rattle.vdp_planes.specs.View.{AllColours, seen};
ghost use Rattle.vdp_planes.specs.Dots.{Dot};
ghost use Rattle.vdp_planes.specs.declared.view.LineView.{LineView};
ghost use Rattle.vdp_time.specs.Lines.{line_of};
ghost use Rattle.vdp_chip.specs.Picture.{blank, scanline_of};
ghost use Rattle.vdp_chip.specs.RendererState.{IsRendererState, answered, at_power_on, line_drawn, next_of};

use crate::kept::{Kept, draw, place};
use crate::picture::PICTURE;
use md_word::clock::LINE;
use md_word::region::picture_length;
use md_word::{Key, Next, NoMemory};
use std::alloc::Global;
use std::marker::Model;
use vdp_planes::{Dot, Dots, LineView, Scene, SpriteNote};
use vdp_ports::VRAM_SIZE;
use vdp_time::line_of;

/// The number of this chip.
const RENDERER_STATE: u8 = 2;

/// The VDP renderer. Its events are the lines, each 3,420 master cycles after the one before: those of
/// lines 0 to 223, on PAL 0 to 239, draw a scanline of the picture, the event of the next
/// line finishes the frame, and the others draw nothing. Contracts see the cycle of the next event, the note
/// of the last line's sprites, whether the view is there, the picture, the frame that is kept and the
/// region.
///
/// All memory, about 500 KB, is taken at making. Source: Genesis Technical Overview, the display; the
/// places of the events are this project's profile.
#[derive(Drop)]
pub struct ChipVdp {
    pub(crate) next: u64,
    pub(crate) view: Option<Box<LineView>>,
    pub(crate) note: SpriteNote,
    pub(crate) picture: Box<[u8; PICTURE]>,
    pub(crate) aside: Box<[u8; PICTURE]>,
    pub(crate) kept: Kept,
    pub(crate) pal: bool,
}

impl Model for ChipVdp {
    ghost use Rattle.std.specs.Prelude.{is_some};
    ghost use Rattle.vdp_chip.specs.RendererState.{RendererState, IsRendererState};
    ghost use Rattle.vdp_chip.specs.Kept.{IsKept, kept_frame};

    ghost Value = { RendererState };

    ghost view = { λ c. record { next = c.next; note = c.note; has_view = is_some c.view; picture = c.picture.value; frame = kept_frame c.pal c.kept c.picture.value c.aside.value; pal = c.pal } };

    ghost invariant = { λ c. IsRendererState (record { next = c.next; note = c.note; has_view = is_some c.view; picture = c.picture.value; frame = kept_frame c.pal c.kept c.picture.value c.aside.value; pal = c.pal }) × IsKept c.pal c.kept c.next c.aside.value };
}

impl ChipVdp {
    /// The chip at power-on, of a region: the picture is black, no frame is kept, and the event of line 0 comes at
    /// cycle 0. The only error is out of memory.
    pub fn power_on(alloc: Global, pal: bool) -> Result<ChipVdp, NoMemory>
        ensures { IfOk result (λ chip. chip ≡ at_power_on pal) }
    {
        let view = empty_view(alloc, pal)?;
        let picture = black(alloc)?;
        let aside = black(alloc)?;
        Ok(with_memory(view, picture, aside, pal))
    }

    /// The next line's event.
    pub fn next(&self) -> Next
        ensures value { result ≡ next_of self.now }
        ensures renderer_state { IsRendererState self.now }
    {
        Next {
            key: Key {
                cycle: self.next,
                chip: RENDERER_STATE,
            },
            sample: false,
        }
    }

    /// Whether the view is here, and not away to be filled.
    pub fn has_view(&self) -> bool
        ensures { result ≡ self.now.has_view }
    {
        self.view.is_some()
    }

    /// Whether the picture is one for PAL.
    #[inline]
    pub fn pal(&self) -> bool
        ensures { result ≡ self.now.pal }
    {
        self.pal
    }

    /// What the sprites of the last line have set.
    pub fn note(&self) -> SpriteNote
        ensures { result ≡ self.now.note }
    {
        self.note
    }

    /// Gives the view of this region, to be filled with the VDP's registers and memories, and what the
    /// sprites of the last line have set. What else the view holds is left open.
    pub fn request(&mut self) -> (Box<LineView>, SpriteNote)
        requires { self.old.has_view ≡ true }
        ensures note { result.1 ≡ self.old.note }
        ensures region { result.0.value.pal ≡ self.old.pal }
        ensures gone { self.new ≡ record self.old { has_view = false } }
    {
        if let Some(mut view) = self.view.take() {
            view.pal = self.pal;
            (view, self.note)
        } else {
            unreachable!()
        }
    }

    /// Makes the event of the next line, and takes the view back: the line is drawn from it and from
    /// the dots of the line's sprites. The note of those is kept for the next request.
    #[tactic(auto, unfolding(crate::specs::RendererState::answered))]
    pub fn answer_with(&mut self, view: Box<LineView>, sprites: &Dots, note: SpriteNote)
        requires view { self.old.has_view ≡ false }
        requires colours { AllColours sprites.now }
        requires cycle { self.old.next < cycle_limit }
        ensures { self.new ≡ answered view.value sprites.now note self.old }
    {
        self.draw_line(&view.scene(), sprites, note);
        self.view = Some(view);
    }

    /// `answer_with` from borrowed registers and memories: the view stays where it is.
    #[tactic(auto, unfolding(crate::specs::RendererState::line_drawn, crate::specs::RendererState::picture_after))]
    pub fn draw_line(&mut self, scene: &Scene, sprites: &Dots, note: SpriteNote)
        requires colours { AllColours sprites.now }
        requires cycle { self.old.next < cycle_limit }
        ensures { self.new ≡ line_drawn (seen scene.now) sprites.now note self.old }
    {
        let line = line_of(self.next, self.pal);
        self.kept = draw(
            self.pal,
            scene,
            line,
            sprites,
            self.kept,
            &mut self.picture,
            &mut self.aside,
        );
        self.note = note;
        self.next += LINE;
    }

    /// `draw_line` with the scanline of the picture as it results, and what the line's sprites have set.
    #[tactic(auto, unfolding(crate::specs::RendererState::line_drawn, crate::specs::RendererState::picture_after))]
    pub fn place_line(&mut self, scanline: &[u8], note: SpriteNote)
        requires scanline { (view : LineView) × (sprites : List Dot) × (scanline.now ≡ scanline_of view sprites (line_of self.old.next self.old.pal)) }
        requires cycle { self.old.next < cycle_limit }
        ensures { (view : LineView) (sprites : List Dot) → scanline.now ≡ scanline_of view sprites (line_of self.old.next self.old.pal)
            → self.new ≡ line_drawn view sprites note self.old }
    {
        let line = line_of(self.next, self.pal);
        self.kept = place(
            self.pal,
            line,
            scanline,
            self.kept,
            &mut self.picture,
            &mut self.aside,
        );
        self.note = note;
        self.next += LINE;
    }

    /// The latest frame that was finished and not dropped: 224 scanlines, on PAL 240, of 320
    /// dots of red, green and blue, a byte each. Lines that are drawn later do not change it. `None`: no frame
    /// is kept.
    pub fn frame(&self) -> Option<&[u8]>
        ensures { option_copied result ≡ self.now.frame }
    {
        match self.kept {
            Kept::Nowhere => None,
            Kept::Picture => Some(&self.picture[..picture_length(self.pal)]),
            Kept::Aside => Some(&self.aside[..picture_length(self.pal)]),
        }
    }

    /// Lets the frame go. The picture stays.
    pub fn drop_frame(&mut self)
        ensures { self.new ≡ record self.old { frame = None } }
    {
        self.kept = Kept::Nowhere;
    }
}

/// The chip at power-on with its memory.
fn with_memory(
    view: Box<LineView>,
    picture: Box<[u8; PICTURE]>,
    aside: Box<[u8; PICTURE]>,
    pal: bool,
) -> ChipVdp
    requires picture { picture.value ≡ blank }
    requires aside { aside.value ≡ blank }
    ensures { result ≡ at_power_on pal }
{
    ChipVdp {
        next: 0,
        view: Some(view),
        note: SpriteNote {
            overflow: false,
            collision: false,
        },
        picture,
        aside,
        kept: Kept::Nowhere,
        pal,
    }
}

/// A picture without a row.
pub(crate) fn black(alloc: Global) -> Result<Box<[u8; PICTURE]>, NoMemory>
    ensures { IfOk result (λ picture. picture.value ≡ blank) }
{
    match Box::new(alloc, [0; PICTURE]) {
        Ok(picture) => Ok(picture),
        Err(_) => Err(NoMemory),
    }
}

/// A view for a picture of a region, of a VDP whose registers and memories are 0.
pub(crate) fn empty_view(alloc: Global, pal: bool) -> Result<Box<LineView>, NoMemory> {
    let view = LineView {
        registers: [0; 24],
        vram: [0; VRAM_SIZE],
        cram: [0; 64],
        vsram: [0; 40],
        pal,
        tall: false,
    };
    match Box::new(alloc, view) {
        Ok(view) => Ok(view),
        Err(_) => Err(NoMemory),
    }
}
