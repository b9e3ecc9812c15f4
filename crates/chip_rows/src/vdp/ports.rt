// The ports, and what is in progress.
use crate::vdp::video::Video;
use row_lines::{Answer, RowError, arguments, byte, parted, word};
use vdp_dma::{busy, settle, transfer_word};

/// A cycle.
fn cycle_of(text: &str) -> Result<u32, RowError> {
    Ok(arguments(text, "d")?[0])
}

/// Writes the source and the words of the transfer that starts, if one does.
fn tell_transfer(started: Option<(u32, u32)>, answer: &mut Answer) -> Result<(), RowError> {
    match started {
        None => answer.say("none"),
        Some((source, words)) => {
            answer.say_word(source)?;
            answer.say_number(u64::from(words))
        }
    }
}

impl Video {
    /// Control words at a cycle.
    pub(crate) fn write_control(
        &mut self,
        rest: &str,
        answer: &mut Answer,
    ) -> Result<(), RowError> {
        let (cycle, words) = parted(rest, ' ')?;
        let cycle = cycle_of(cycle)?;
        let mut started = None;
        for text in words.split_whitespace() {
            started = self.vdp.control_write(u64::from(cycle), word(text)?);
        }
        tell_transfer(started, answer)
    }

    /// Words at the data port at a cycle.
    pub(crate) fn write_data(&mut self, rest: &str) -> Result<(), RowError> {
        let (cycle, words) = parted(rest, ' ')?;
        let cycle = cycle_of(cycle)?;
        for text in words.split_whitespace() {
            self.vdp.data_write(u64::from(cycle), word(text)?);
        }
        Ok(())
    }

    pub(crate) fn read_data(&mut self, rest: &str, answer: &mut Answer) -> Result<(), RowError> {
        arguments(rest, "")?;
        answer.say_word(u32::from(self.vdp.data_read()))
    }

    /// The status, with nothing busy and no blanking.
    pub(crate) fn read_status(&mut self, rest: &str, answer: &mut Answer) -> Result<(), RowError> {
        arguments(rest, "")?;
        answer.say_word(u32::from(self.vdp.control_read(false, false, false)))
    }

    /// A word of a transfer.
    pub(crate) fn transfer(&mut self, rest: &str) -> Result<(), RowError> {
        transfer_word(&mut self.vdp, word(rest)?);
        Ok(())
    }

    pub(crate) fn settle(&mut self, rest: &str) -> Result<(), RowError> {
        settle(&mut self.vdp, u64::from(cycle_of(rest)?));
        Ok(())
    }

    pub(crate) fn tell_busy(&self, rest: &str, answer: &mut Answer) -> Result<(), RowError> {
        answer.say_bit(busy(&self.vdp, u64::from(cycle_of(rest)?)))
    }

    pub(crate) fn tell_level(&self, rest: &str, answer: &mut Answer) -> Result<(), RowError> {
        arguments(rest, "")?;
        answer.say_number(u64::from(self.vdp.level()))
    }

    pub(crate) fn acknowledge(&mut self, rest: &str) -> Result<(), RowError> {
        self.vdp.acknowledge(byte(rest)?);
        Ok(())
    }
}
