// The starts of lines.
ghost use Rattle.std.specs.Prelude.{◌≡◌};

use crate::board::fixture::Board;
use bus_shared::{Request, carry_out, pins68, start_line};
use md_word::clock::LINE;
use md_word::{Key, Request68};
use row_lines::{Answer, RowError, arguments};
use std::alloc::{AllocError, Global};
use vdp_planes::{LineView, SpriteNote};

/// A view of which nothing is filled.
fn blank_view(alloc: Global) -> Result<Box<LineView>, AllocError> {
    let view = LineView {
        registers: [7; 24],
        vram: [7; 65536],
        cram: [7; 64],
        vsram: [7; 40],
        pal: false,
        tall: false,
    };
    Ok(Box::new(alloc, view)?)
}

const NONE_SET: SpriteNote = SpriteNote {
    overflow: false,
    collision: false,
};

/// The key of a line.
fn key_of(cycle: u32) -> Key
    ensures { result.cycle ≡ cycle }
{
    Key {
        cycle: u64::from(cycle),
        chip: 2,
    }
}

impl Board {
    /// Starts the line of a cycle after one whose sprites have set overflow or collision, and answers the kind of its
    /// entry, its number and the interrupt level.
    pub(crate) fn start(&mut self, rest: &str, answer: &mut Answer) -> Result<(), RowError> {
        let [cycle, overflow, collision, _] = arguments(rest, "dbb")?;
        let note = SpriteNote {
            overflow: overflow == 1,
            collision: collision == 1,
        };
        self.entry = start_line(&mut self.shared, key_of(cycle), note);
        answer.say_number(u64::from(self.entry.kind))?;
        answer.say_number(u64::from(self.entry.address))?;
        answer.say_number(u64::from(self.entry.value))
    }

    /// Starts a line and takes the interrupt of its level: answers the line's number and the level, as the entry has them,
    /// the level of the pins, and that after the interrupt is taken.
    fn take_interrupt(&mut self, cycle: u32, answer: &mut Answer) -> Result<(), RowError> {
        let entry = start_line(&mut self.shared, key_of(cycle), NONE_SET);
        let level = pins68(&self.shared).level;
        self.access(cycle, Request68::Ack(level));
        answer.say_number(u64::from(entry.address))?;
        answer.say_number(u64::from(entry.value))?;
        answer.say_number(u64::from(level))?;
        answer.say_number(u64::from(pins68(&self.shared).level))
    }

    /// Takes the interrupts of the lines from one on and below another.
    pub(crate) fn tell_interrupts(
        &mut self,
        rest: &str,
        answer: &mut Answer,
    ) -> Result<(), RowError> {
        let [from, to, _, _] = arguments(rest, "dd")?;
        for line in from..to {
            self.take_interrupt(line.wrapping_mul(LINE as u32), answer)?;
        }
        Ok(())
    }

    /// Starts a line with a view of bytes and words of 7, and answers of what it is then a byte of video memory, register
    /// 1, colour 1 and vertical scroll 1.
    pub(crate) fn tell_view(
        &mut self,
        alloc: Global,
        rest: &str,
        answer: &mut Answer,
    ) -> Result<(), RowError> {
        let [cycle, place, _, _] = arguments(rest, "dl")?;
        let request = Request::Line(blank_view(alloc)?, NONE_SET);
        let (reported, entry) = carry_out(
            &mut self.shared,
            Key {
                cycle: u64::from(cycle),
                chip: 2,
            },
            request,
        );
        self.entry = entry;
        match reported.line_view() {
            Some(view) => tell_parts(&view, place, answer),
            None => Err(RowError::NoSuchLine),
        }
    }
}

fn tell_parts(view: &LineView, place: u32, answer: &mut Answer) -> Result<(), RowError> {
    answer.say_bytes(&[view.vram[place as usize % 65536]])?;
    answer.say_bytes(&[view.registers[1]])?;
    answer.say_word(u32::from(view.cram[1]))?;
    answer.say_word(u32::from(view.vsram[1]))
}
