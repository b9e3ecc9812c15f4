// The bytes of saved states that keep the VDP and its renderer.
use crate::vdp::video::Video;
use md_word::Unspell;
use row_lines::{Answer, RowError, arguments};
use std::alloc::Global;
use vdp_chip::{ChipVdp, RENDERER_STATE_SIZE};
use vdp_ports::{VDP_SIZE, VdpState};

/// Writes why bytes are no state.
fn tell_refusal(error: Unspell, answer: &mut Answer) -> Result<(), RowError> {
    match error {
        Unspell::Rule { place } => answer.say_number(place),
        Unspell::NoMemory => Err(RowError::Memory),
    }
}

impl Video {
    pub(crate) fn obey_saved(
        &mut self,
        alloc: Global,
        verb: &str,
        rest: &str,
        answer: &mut Answer,
    ) -> Result<(), RowError> {
        match verb {
            "save-vdp" => self.save_vdp(alloc, rest),
            "save-drawing" => self.save_renderer_state(alloc, rest),
            "load-vdp" => self.load_vdp(alloc, rest, answer),
            "load-drawing" => self.load_renderer_state(alloc, rest, answer),
            "zeros" | "hold" | "length" | "bytes" | "held" | "same" => {
                self.buffer.obey(alloc, verb, rest, answer)
            }
            _ if rest.is_empty() => self.tell(verb, answer),
            _ => Err(RowError::NoSuchLine),
        }
    }

    /// Replaces the bytes by those of a state at a cycle that keep the VDP.
    fn save_vdp(&mut self, alloc: Global, rest: &str) -> Result<(), RowError> {
        let at = arguments(rest, "d")?[0];
        let mut bytes = Vec::with_capacity(alloc, VDP_SIZE)?;
        self.vdp.spell(u64::from(at), &mut bytes);
        self.buffer.take(bytes);
        Ok(())
    }

    /// The same of the renderer; the frame that is kept, if one is, follows.
    fn save_renderer_state(&mut self, alloc: Global, rest: &str) -> Result<(), RowError> {
        let at = arguments(rest, "d")?[0];
        let mut bytes = Vec::with_capacity(alloc, RENDERER_STATE_SIZE)?;
        self.chip.spell(u64::from(at), &mut bytes);
        self.buffer.take(bytes);
        self.buffer.append(self.chip.frame().unwrap_or(&[]))
    }

    /// Takes the VDP that the bytes keep in a state at a cycle: answers the offset at which they are invalid, if
    /// they are.
    fn load_vdp(&mut self, alloc: Global, rest: &str, answer: &mut Answer) -> Result<(), RowError> {
        let at = u64::from(self.buffer.cycle_of(alloc, rest)?);
        match VdpState::unspell(alloc, self.buffer.bytes(), at, self.vdp.pal) {
            Ok(vdp) => {
                self.vdp = vdp;
                answer.say("ok")
            }
            Err(error) => tell_refusal(error, answer),
        }
    }

    fn load_renderer_state(
        &mut self,
        alloc: Global,
        rest: &str,
        answer: &mut Answer,
    ) -> Result<(), RowError> {
        let at = u64::from(self.buffer.cycle_of(alloc, rest)?);
        match ChipVdp::unspell(alloc, self.buffer.bytes(), at, self.vdp.pal) {
            Ok(chip) => {
                self.chip = chip;
                answer.say("ok")
            }
            Err(error) => tell_refusal(error, answer),
        }
    }
}
