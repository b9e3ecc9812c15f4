// Counters, blanking and the events of lines.
use crate::vdp::video::Video;
use md_word::clock::LINE;
use row_lines::{Answer, RowError, arguments};
use vdp_time::{blank, frame_of, hv, line_of, start_line};

impl Video {
    pub(crate) fn tell_counters(&self, rest: &str, answer: &mut Answer) -> Result<(), RowError> {
        let [cycle, wide, pal, tall] = arguments(rest, "dbbb")?;
        let counters = hv(u64::from(cycle), wide == 1, pal == 1, tall == 1);
        answer.say_word(u32::from(counters))
    }

    /// The frame and the line of a cycle.
    pub(crate) fn tell_place(&self, rest: &str, answer: &mut Answer) -> Result<(), RowError> {
        let [cycle, pal, _, _] = arguments(rest, "db")?;
        let cycle = u64::from(cycle);
        answer.say_number(frame_of(cycle, pal == 1))?;
        answer.say_number(u64::from(line_of(cycle, pal == 1)))
    }

    /// HB and VB.
    pub(crate) fn tell_blank(&self, rest: &str, answer: &mut Answer) -> Result<(), RowError> {
        let [cycle, display, pal, tall] = arguments(rest, "dbbb")?;
        let (hb, vb) = blank(u64::from(cycle), display == 1, pal == 1, tall == 1);
        answer.say_bit(hb)?;
        answer.say_bit(vb)
    }

    /// The event of the line that begins at a cycle.
    pub(crate) fn start(&mut self, rest: &str) -> Result<(), RowError> {
        start_line(&mut self.vdp, u64::from(arguments(rest, "d")?[0]));
        Ok(())
    }

    /// The interrupts that the event of a line raises: 4 the horizontal one, 6 the vertical one, 10 both.
    fn raised(&mut self, line: u32) -> u64 {
        self.vdp.horizontal = false;
        self.vdp.vertical = false;
        start_line(&mut self.vdp, u64::from(line) * LINE);
        4 * u64::from(self.vdp.horizontal) + 6 * u64::from(self.vdp.vertical)
    }

    /// The interrupts that lines raise, from one on and below another.
    pub(crate) fn tell_interrupts(
        &mut self,
        rest: &str,
        answer: &mut Answer,
    ) -> Result<(), RowError> {
        let [from, to, _, _] = arguments(rest, "dd")?;
        for line in from..to {
            answer.say_number(self.raised(line))?;
        }
        Ok(())
    }
}
