use row_lines::{Answer, Buffer, Fixture, RowError, arguments, first_word};
use std::alloc::{AllocError, Global};
use vdp_ahead::LineBuffer;
use vdp_chip::ChipVdp;
use vdp_planes::LineView;
use vdp_ports::VdpState;

/// The VDP of a row, the chip that draws its picture, a view of it, a buffer of pre-rendered lines, and
/// bytes.
#[derive(Drop)]
pub(crate) struct Video {
    pub(crate) alloc: Global,
    pub(crate) vdp: VdpState,
    pub(crate) chip: ChipVdp,
    pub(crate) view: Box<LineView>,
    pub(crate) line_buffer: Box<LineBuffer>,
    pub(crate) buffer: Buffer,
}

/// A view of which nothing is filled.
fn blank_view(alloc: Global) -> Result<Box<LineView>, AllocError> {
    let view = LineView {
        registers: [0; 24],
        vram: [0; 65536],
        cram: [0; 64],
        vsram: [0; 40],
        pal: false,
        tall: false,
    };
    Ok(Box::new(alloc, view)?)
}

impl Video {
    pub(crate) fn power_on(alloc: Global) -> Result<Video, AllocError> {
        let view = blank_view(alloc)?;
        let line_buffer = LineBuffer::blank(alloc)?;
        let vdp = VdpState::power_on(alloc, false)?;
        let chip = ChipVdp::power_on(alloc, false)?;
        Ok(Video {
            alloc,
            vdp,
            chip,
            view,
            line_buffer,
            buffer: Buffer::new(alloc),
        })
    }

    /// Begins again with a VDP and a picture of a region; bytes stay.
    fn restart(&mut self, alloc: Global, pal: bool, rest: &str) -> Result<(), RowError> {
        arguments(rest, "")?;
        self.view.pal = pal;
        self.vdp = VdpState::power_on(alloc, pal)?;
        self.chip = ChipVdp::power_on(alloc, pal)?;
        Ok(())
    }
}

impl Video {
    /// Carries out a line, and puts the answer together that it asks for.
    fn carry_out(&mut self, said: &str, answer: &mut Answer) -> Result<(), RowError> {
        let alloc = self.alloc;
        let (verb, rest) = first_word(said);
        if verb.contains("=") {
            return self.set_all(said);
        }
        match verb {
            "ntsc" => self.restart(alloc, false, rest),
            "pal" => self.restart(alloc, true, rest),
            "control" => self.write_control(rest, answer),
            "write" => self.write_data(rest),
            "read" => self.read_data(rest, answer),
            "status" => self.read_status(rest, answer),
            "word" => self.transfer(rest),
            "settle" => self.settle(rest),
            _ => self.obey_time(alloc, verb, rest, answer),
        }
    }

    fn obey_time(
        &mut self,
        alloc: Global,
        verb: &str,
        rest: &str,
        answer: &mut Answer,
    ) -> Result<(), RowError> {
        match verb {
            "busy" => self.tell_busy(rest, answer),
            "level" => self.tell_level(rest, answer),
            "acknowledge" => self.acknowledge(rest),
            "counters" => self.tell_counters(rest, answer),
            "place" => self.tell_place(rest, answer),
            "blank" => self.tell_blank(rest, answer),
            "start" => self.start(rest),
            "interrupts" => self.tell_interrupts(rest, answer),
            _ => self.obey_renderer_state(alloc, verb, rest, answer),
        }
    }
}

impl Fixture for Video {
    fn begin(&mut self) -> Result<(), RowError> {
        self.buffer.clear();
        self.restart(self.alloc, false, "")
    }

    fn obey(&mut self, line: &str) -> Result<(), RowError> {
        let mut answer = Answer::new(self.alloc);
        self.carry_out(line, &mut answer)
    }

    fn answer(&mut self, asked: &str, _wanted: &str) -> Result<String, RowError> {
        let mut answer = Answer::new(self.alloc);
        self.carry_out(asked, &mut answer)?;
        answer.finish()
    }
}
