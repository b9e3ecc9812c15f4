// Lines as they are drawn, and the chip that makes the picture of them.
ghost use Rattle.std.specs.Prelude.{◌<◌, IfOk};

use crate::vdp::video::Video;
use md_word::clock::LAST_CYCLE;
use row_lines::{Answer, RowError, arguments, word};
use std::alloc::Global;
use vdp_chip::clear_dots;
use vdp_planes::{Dots, PICTURE_WIDTH, SCANLINE_LENGTH, fill_view, mix_line, plane_line};
use vdp_sprites::sprite_line;
use vdp_time::line_of;

/// A line of the picture.
fn line_number(line: u32) -> Result<u32, RowError>
    ensures { IfOk result (λ found. found < 240) }
{
    if line < 240 {
        Ok(line)
    } else {
        Err(RowError::NoSuchLine)
    }
}

/// Writes how often a colour occurs, and which.
fn tell_run(count: u64, colour: u8, answer: &mut Answer) -> Result<(), RowError> {
    answer.say_number(count)?;
    answer.say("of")?;
    answer.say_number(u64::from(colour))
}

/// Writes the colours of dots, from the left.
fn tell_runs(dots: &Dots, answer: &mut Answer) -> Result<(), RowError> {
    let mut colour = dots[0].colour();
    let mut count = 0u64;
    for dot in dots {
        if dot.colour() != colour {
            tell_run(count, colour, answer)?;
            count = 0;
            colour = dot.colour();
        }
        count = count.wrapping_add(1);
    }
    tell_run(count, colour, answer)
}

impl Video {
    pub(crate) fn obey_renderer_state(
        &mut self,
        alloc: Global,
        verb: &str,
        rest: &str,
        answer: &mut Answer,
    ) -> Result<(), RowError> {
        match verb {
            "plane" => self.tell_plane(rest, answer),
            "sprites" => self.tell_sprites(rest, answer),
            "draw" => self.draw(rest),
            "lines" => self.make_lines(rest),
            "backdrops" => self.make_backdrops(rest),
            "frame" => self.tell_frame(rest, answer),
            "dot" => self.tell_dot(rest, answer),
            "drop" => self.drop_frame(rest),
            "vram" => self.copy_memory(rest),
            _ => self.obey_line_buffer(alloc, verb, rest, answer),
        }
    }

    fn obey_line_buffer(
        &mut self,
        alloc: Global,
        verb: &str,
        rest: &str,
        answer: &mut Answer,
    ) -> Result<(), RowError> {
        match verb {
            "sheet" => self.begin_line_buffer(rest),
            "ahead" => self.draw_ahead(rest),
            "has" => self.tell_lines(rest, answer),
            "drawn" => self.tell_drawn(rest, answer),
            "fits" => self.tell_fits(rest, answer),
            _ => self.obey_saved(alloc, verb, rest, answer),
        }
    }

    /// The colour and the priority of a dot of plane A.
    fn tell_plane(&mut self, rest: &str, answer: &mut Answer) -> Result<(), RowError> {
        let [line, x, _, _] = arguments(rest, "dd")?;
        let line = line_number(line)?;
        let mut dots = clear_dots();
        fill_view(&mut self.view, &self.vdp);
        plane_line(&self.view, line, false, &mut dots);
        let dot = dots[x as usize % PICTURE_WIDTH];
        answer.say_number(u64::from(dot.colour()))?;
        answer.say_bit(dot.priority())
    }

    /// What the sprites of a line set, and their dots.
    fn tell_sprites(&mut self, rest: &str, answer: &mut Answer) -> Result<(), RowError> {
        let line = line_number(arguments(rest, "d")?[0])?;
        let mut dots = clear_dots();
        fill_view(&mut self.view, &self.vdp);
        let note = sprite_line(&self.view, line, &mut dots);
        answer.say_bit(note.overflow)?;
        answer.say_bit(note.collision)?;
        tell_runs(&dots, answer)
    }

    /// Draws a line from a view into the bytes.
    fn draw(&mut self, rest: &str) -> Result<(), RowError> {
        let line = line_number(arguments(rest, "d")?[0])?;
        let mut a = clear_dots();
        let mut b = clear_dots();
        let mut sprites = clear_dots();
        let mut row = [1; SCANLINE_LENGTH];
        fill_view(&mut self.view, &self.vdp);
        plane_line(&self.view, line, false, &mut a);
        plane_line(&self.view, line, true, &mut b);
        sprite_line(&self.view, line, &mut sprites);
        mix_line(&self.view, &a, &b, &sprites, &mut row);
        self.buffer.copy(&row)
    }

    /// Makes the event of the chip's next line from the VDP as it is.
    fn make_line(&mut self) -> Result<(), RowError> {
        let cycle = self.chip.next().key.cycle;
        if !self.chip.has_view() || cycle >= LAST_CYCLE {
            return Err(RowError::NoSuchLine);
        }
        let line = line_of(cycle, self.vdp.pal);
        let (mut view, _) = self.chip.request();
        fill_view(&mut view, &self.vdp);
        let mut sprites = clear_dots();
        let note = sprite_line(&view, line % 240, &mut sprites);
        self.chip.answer_with(view, &sprites, note);
        Ok(())
    }

    /// Makes so many lines' events.
    fn make_lines(&mut self, rest: &str) -> Result<(), RowError> {
        for _ in 0..arguments(rest, "d")?[0] {
            self.make_line()?;
        }
        Ok(())
    }

    /// Makes a line's event for each of these colours, which is colour 0 there.
    fn make_backdrops(&mut self, rest: &str) -> Result<(), RowError> {
        for text in rest.split_whitespace() {
            self.vdp.cram[0] = word(text)?;
            self.make_line()?;
        }
        Ok(())
    }

    /// How many bytes the frame has that is kept, or that there is none.
    fn tell_frame(&self, rest: &str, answer: &mut Answer) -> Result<(), RowError> {
        arguments(rest, "")?;
        match self.chip.frame() {
            Some(frame) => answer.say_number(frame.len() as u64),
            None => answer.say("none"),
        }
    }

    /// The bytes of a dot of the frame that is kept.
    fn tell_dot(&self, rest: &str, answer: &mut Answer) -> Result<(), RowError> {
        let [y, x, _, _] = arguments(rest, "dd")?;
        let at = SCANLINE_LENGTH * (y % 240) as usize + 3 * (x as usize % PICTURE_WIDTH);
        let frame = self.chip.frame().unwrap_or(&[]);
        match frame.get(at..at + 3) {
            Some(dot) => answer.say_bytes(dot),
            None => answer.say("none"),
        }
    }

    fn drop_frame(&mut self, rest: &str) -> Result<(), RowError> {
        arguments(rest, "")?;
        self.chip.drop_frame();
        Ok(())
    }

    /// Copies the video memory into the bytes.
    fn copy_memory(&mut self, rest: &str) -> Result<(), RowError> {
        arguments(rest, "")?;
        self.buffer.copy(self.vdp.vram.as_slice())
    }
}
