// Lines that are rendered ahead of their events.
use crate::vdp::video::Video;
use row_lines::{Answer, RowError, arguments};

impl Video {
    /// Begins a line buffer with the VDP as it is, for the lines from one on and below another.
    pub(crate) fn begin_line_buffer(&mut self, rest: &str) -> Result<(), RowError> {
        let [from, until, _, _] = arguments(rest, "dd")?;
        if from > 240 {
            return Err(RowError::NoSuchLine);
        }
        let pal = self.vdp.pal;
        self.line_buffer.begin(&self.vdp, pal, from, until);
        Ok(())
    }

    /// Draws the lines of the buffer.
    pub(crate) fn draw_ahead(&mut self, rest: &str) -> Result<(), RowError> {
        arguments(rest, "")?;
        self.line_buffer.draw();
        Ok(())
    }

    /// Whether the buffer has a line of a picture of a region.
    pub(crate) fn tell_lines(&self, rest: &str, answer: &mut Answer) -> Result<(), RowError> {
        let [line, pal, _, _] = arguments(rest, "db")?;
        answer.say_bit(self.line_buffer.has(line, pal == 1))
    }

    /// What the sprites of a line that is drawn set; its scanline goes into the bytes.
    pub(crate) fn tell_drawn(&mut self, rest: &str, answer: &mut Answer) -> Result<(), RowError> {
        let line = arguments(rest, "d")?[0];
        if !self.line_buffer.has(line, self.vdp.pal) {
            return answer.say("none");
        }
        let note = self.line_buffer.note(line);
        answer.say_bit(note.overflow)?;
        answer.say_bit(note.collision)?;
        self.buffer.copy(self.line_buffer.scanline(line))
    }

    /// Whether the VDP is as the buffer shows it.
    pub(crate) fn tell_fits(&self, rest: &str, answer: &mut Answer) -> Result<(), RowError> {
        arguments(rest, "")?;
        answer.say_bit(self.line_buffer.is_of(&self.vdp))
    }
}
