use crate::sound::chips::Sound;
use crate::sound::vgm::{body, head, play};
use crate::sound::voices::{key, mixed, phase_step, sample, tick, voice};
use row_lines::{Fixture, RowError, first_word};
use std::alloc::Global;

/// The answer to a question that concerns no chip of the row.
fn answer_of(alloc: Global, verb: &str, words: &str) -> Result<String, RowError> {
    match verb {
        "wave" => sample(alloc, words),
        "step" => phase_step(alloc, words),
        "channel" => voice(alloc, words),
        "tick" => tick(alloc, words),
        "key" => key(alloc, words),
        "mix" => mixed(alloc, words),
        "body" => body(alloc, words),
        "head" => head(alloc, words),
        "play" => play(alloc, words),
        _ => Err(RowError::NoSuchLine),
    }
}

impl Fixture for Sound {
    fn begin(&mut self) -> Result<(), RowError> {
        self.restart();
        self.forget();
        Ok(())
    }

    fn obey(&mut self, line: &str) -> Result<(), RowError> {
        let (verb, words) = first_word(line);
        match verb {
            "psg" => self.write_psg(words),
            "fm" => self.write_fm(words),
            "reset" => self.reset(words),
            "restart" => Ok(self.restart()),
            "keep" => Ok(self.keep()),
            _ => Err(RowError::NoSuchLine),
        }
    }

    fn answer(&mut self, asked: &str, wanted: &str) -> Result<String, RowError> {
        let (verb, words) = first_word(asked);
        match verb {
            "status" => self.status(words),
            "take" => self.take(words),
            "batch" => self.batch(words),
            "levels" => self.tell_levels(),
            "sides" => self.tell_sides(),
            "heard" => self.tell_heard(),
            "state" => self.state(words),
            "spell" => self.spell(words, wanted),
            "again" => self.again(words),
            _ => answer_of(self.alloc, verb, words),
        }
    }
}
