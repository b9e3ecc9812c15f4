ghost use Rattle.std.specs.Prelude.{◌≡◌, ◌<◌, IfOk, IsSome, None, true, false, is_some, not, option_copied, IfSome, length};
ghost use Rattle.md_word.specs.Clock.{cycle_limit};
ghost use Rattle.vdp_chip.specs.RendererState.{next_of};
ghost use Rattle.md_word.specs.Region.{picture_length};
ghost use Rattle.vdp_planes.specs.View.{seen};
ghost use Rattle.md_chips.specs.Lines as lines;
ghost use Rattle.md_chips.specs.Rules as rules;

use crate::chips::ahead::Ahead;
use bus_shared::{Request, Shared, carry_out, start_line};
use md_word::{Entry, Next, NoMemory};
use std::alloc::Global;
use std::marker::Model;
use std::sync::Arc;
use vdp_ahead::{DoubleBuffer, LineBuffer};
use vdp_chip::{ChipVdp, clear_dots};
use vdp_planes::{LineView, Scene, SpriteNote};
use vdp_sprites::draw_line_sprites;
use vdp_time::line_of;

/// The drawing half of the VDP, chip 2: an access at each line. Between the two halves of an access it
/// keeps the view that the board has filled.
#[derive(Drop)]
pub struct RendererChip {
    chip: ChipVdp,
    view: Option<Box<LineView>>,
    /// Lines that are drawn ahead of their events.
    ahead: Ahead,
}

impl Model for RendererChip {
    ghost use Rattle.std.specs.Prelude.{◌≡◌, IfSome, is_some, not, option_map};
    ghost use Rattle.md_chips.specs.Lines.{reported_view};
    ghost use Rattle.md_chips.specs.Parts.{RendererValue};

    ghost Value = { RendererValue };

    ghost view = { λ c. record { chip = c.chip; view = option_map (λ v. reported_view c.chip.next v.value) c.view } };

    ghost invariant = { λ c. (c.chip.has_view ≡ not (is_some c.view)) × IfSome c.view (λ v. v.value.pal ≡ c.chip.pal) };
}

impl RendererChip {
    ghost use Rattle.md_chips.specs.Parts.{IsRenderer};

    /// A drawing half between two events, of which no frame is kept.
    pub(crate) fn new(alloc: Global, chip: ChipVdp) -> Result<RendererChip, NoMemory>
        requires { chip.has_view ≡ true }
        ensures { IfOk result (λ renderer. renderer ≡ record { chip = record chip { frame = None }; view = None }) }
    {
        let mut chip = chip;
        chip.drop_frame();
        Ok(RendererChip {
            chip,
            view: None,
            ahead: Ahead::new(alloc)?,
        })
    }

    #[tactic(auto, using(crate::specs::LineLaws::is_drawn))]
    pub(crate) fn next(&self) -> Next
        ensures value { result ≡ next_of self.now.chip }
        ensures renderer { IsRenderer self.now }
    {
        self.chip.next()
    }

    /// The part of a line's event that needs the board: the view is filled.
    #[tactic(auto, using(crate::specs::LineLaws::reported_filled, crate::specs::LineLaws::filled_region), unfolding(bus_shared::specs::Accesses::carried))]
    pub(crate) fn perform(&mut self, shared: &mut Shared) -> Entry
        requires { self.old.chip.next < cycle_limit }
        ensures chip { self.new ≡ (rules.renderer_perform self.old shared.old).chip }
        ensures shared { shared.new ≡ (rules.renderer_perform self.old shared.old).shared }
        ensures entry { result ≡ (rules.renderer_perform self.old shared.old).entry }
    {
        let key = self.chip.next().key;
        let (view, note) = lent_view(&mut self.chip, &mut self.view);
        let (answer, entry) = carry_out(shared, key, Request::Line(view, note));
        self.view = answer.line_view();
        entry
    }

    /// Draws the line from the view that was filled.
    pub(crate) fn advance(&mut self)
        requires view { IsSome self.old.view }
        requires cycle { self.old.chip.next < cycle_limit }
        ensures { self.new ≡ rules.renderer_advance self.old }
    {
        if let Some(view) = self.view.take() {
            renderer_lent(&mut self.chip, view);
        }
    }

    /// Both halves of a line's event. Where the view is here, the line is drawn straight from the board, or was
    /// drawn ahead.
    pub(crate) fn access(&mut self, shared: &mut Shared) -> Entry
        requires { self.old.chip.next < cycle_limit }
        ensures chip { self.new ≡ rules.renderer_advance (rules.renderer_perform self.old shared.old).chip }
        ensures shared { shared.new ≡ (rules.renderer_perform self.old shared.old).shared }
        ensures entry { result ≡ (rules.renderer_perform self.old shared.old).entry }
    {
        match &self.view {
            Some(_) => {
                let entry = self.perform(shared);
                self.advance();
                entry
            }
            None => {
                let key = self.chip.next().key;
                let entry = start_line(shared, key, self.chip.note());
                let pal = self.chip.pal();
                if self.ahead.is_watched() {
                    self.ahead.exchange(line_of(key.cycle, pal), pal, shared);
                }
                if draw_line(&mut self.chip, shared.line_buffer(), &shared.scene(pal)) {
                    self.ahead.was_of_use();
                }
                entry
            }
        }
    }

    /// Where line buffers go to be drawn ahead, for one who draws.
    pub(crate) fn double_buffer(&self) -> Option<Arc<DoubleBuffer>> {
        self.ahead.double_buffer()
    }

    pub(crate) fn chip(&self) -> &ChipVdp
        ensures { result.now ≡ self.now.chip }
    {
        &self.chip
    }

    /// The frame that was finished last and not dropped.
    pub(crate) fn frame(&self) -> Option<&[u8]>
        ensures value { option_copied result ≡ self.now.chip.frame }
        ensures size { IfSome self.now.chip.frame (λ picture. length picture ≡ picture_length self.now.chip.pal) }
    {
        self.chip.next();
        self.chip.frame()
    }

    /// Lets the frame go.
    pub(crate) fn drop_frame(&mut self)
        ensures { self.new ≡ record self.old { chip = record self.old.chip { frame = None } } }
    {
        self.chip.drop_frame();
    }
}

/// The view that is to be filled, from the one of two places where it is, and what the sprites of the
/// last line have set.
fn lent_view(chip: &mut ChipVdp, view: &mut Option<Box<LineView>>) -> (Box<LineView>, SpriteNote)
    requires here { chip.old.has_view ≡ not (is_some view.old) }
    requires region { IfSome view.old (λ v. v.value.pal ≡ chip.old.pal) }
    ensures note { result.1 ≡ chip.old.note }
    ensures region { result.0.value.pal ≡ chip.old.pal }
    ensures chip { chip.new ≡ record chip.old { has_view = false } }
    ensures view { view.new ≡ None }
{
    match view.take() {
        Some(view) => (view, chip.note()),
        None => chip.request(),
    }
}

/// Draws the next line from the view, which returns with it.
#[tactic(auto, using(crate::specs::LineLaws::lent_drawn))]
fn renderer_lent(chip: &mut ChipVdp, view: Box<LineView>)
    requires view { chip.old.has_view ≡ false }
    requires region { view.value.pal ≡ chip.old.pal }
    requires cycle { chip.old.next < cycle_limit }
    ensures { chip.new ≡ record (lines.drawn_from (lines.reported_view chip.old.next view.value) chip.old) { has_view = true } }
{
    let mut dots = clear_dots();
    let line = line_of(chip.next().key.cycle, chip.pal());
    let note = draw_line_sprites(&view.scene(), line, &mut dots);
    chip.answer_with(view, &dots, note);
}

/// Draws the next line of a scene, or takes it from a line buffer that was drawn ahead; answers whether it
/// was taken.
fn draw_line(chip: &mut ChipVdp, line_buffer: Option<&LineBuffer>, scene: &Scene) -> bool
    requires view { chip.old.has_view ≡ true }
    requires region { (seen scene.now).pal ≡ chip.old.pal }
    requires line_buffer { IfSome line_buffer (λ s. s.now.view ≡ record (seen scene.now) { pal = s.now.view.pal }) }
    requires cycle { chip.old.next < cycle_limit }
    ensures { chip.new ≡ record (lines.drawn_from (lines.reported_view chip.old.next (seen scene.now)) (record chip.old { has_view = false })) { has_view = true } }
{
    if let Some(line_buffer) = line_buffer {
        if place_ahead(chip, line_buffer) {
            return true;
        }
    }
    renderer_straight(chip, scene);
    false
}

/// Takes the next line from a line buffer, if it was drawn there; answers whether it was.
fn place_ahead(chip: &mut ChipVdp, line_buffer: &LineBuffer) -> bool
    requires view { chip.old.has_view ≡ true }
    requires cycle { chip.old.next < cycle_limit }
    ensures placed { result ≡ true → line_buffer.now.view.pal ≡ chip.old.pal }
    ensures drawn { result ≡ true → chip.new ≡ record (lines.drawn_from (lines.reported_view chip.old.next line_buffer.now.view) (record chip.old { has_view = false })) { has_view = true } }
    ensures not { result ≡ false → chip.new ≡ chip.old }
{
    let line = line_of(chip.next().key.cycle, chip.pal());
    if !line_buffer.has(line, chip.pal()) {
        return false;
    }
    chip.place_line(line_buffer.scanline(line), line_buffer.note(line));
    true
}

/// Draws the next line straight from a scene: the view stays where it is.
#[tactic(auto, using(crate::specs::LineLaws::straight_drawn))]
fn renderer_straight(chip: &mut ChipVdp, scene: &Scene)
    requires view { chip.old.has_view ≡ true }
    requires region { (seen scene.now).pal ≡ chip.old.pal }
    requires cycle { chip.old.next < cycle_limit }
    ensures { chip.new ≡ record (lines.drawn_from (lines.reported_view chip.old.next (seen scene.now)) (record chip.old { has_view = false })) { has_view = true } }
{
    let mut dots = clear_dots();
    let line = line_of(chip.next().key.cycle, chip.pal());
    let note = draw_line_sprites(scene, line, &mut dots);
    chip.draw_line(scene, &dots, note);
}
