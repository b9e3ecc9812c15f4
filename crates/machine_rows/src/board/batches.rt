// Batches of the sound chips: the writes that they are handed.
use crate::board::fixture::Board;
use bus_shared::{Request, carry_out};
use fm_port::{FmList, FmWrite};
use md_word::Key;
use psg_sound::{PsgList, PsgWrite};
use row_lines::{Answer, RowError, arguments};
use std::alloc::{AllocError, Global};

/// Answers a write's cycle, chip, port, register and value.
fn tell_fm(write: &FmWrite, answer: &mut Answer) -> Result<(), RowError> {
    answer.say_number(write.key.cycle)?;
    answer.say_number(u64::from(write.key.chip))?;
    answer.say_number(u64::from(write.port))?;
    answer.say_bytes(&[write.register])?;
    answer.say_bytes(&[write.value])
}

/// Answers a write's cycle and value.
fn tell_psg(write: &PsgWrite, answer: &mut Answer) -> Result<(), RowError> {
    answer.say_number(write.key.cycle)?;
    answer.say_bytes(&[write.value])
}

fn fm_list(alloc: Global) -> Result<Box<FmList>, AllocError> {
    Ok(Box::new(alloc, FmList::new())?)
}

fn psg_list(alloc: Global) -> Result<Box<PsgList>, AllocError> {
    Ok(Box::new(alloc, PsgList::new())?)
}

impl Board {
    /// Hands a batch of the FM chip at a cycle its writes, and answers their number and each of them.
    pub(crate) fn take_fm(
        &mut self,
        alloc: Global,
        rest: &str,
        answer: &mut Answer,
    ) -> Result<(), RowError> {
        let key = Key {
            cycle: u64::from(arguments(rest, "d")?[0]),
            chip: 3,
        };
        let list = fm_list(alloc)?;
        let (reported, entry) = carry_out(&mut self.shared, key, Request::Fm(list));
        self.entry = entry;
        let list = reported.fm_list().ok_or(RowError::NoSuchLine)?;
        answer.say_number(list.len() as u64)?;
        for write in list.as_slice() {
            tell_fm(write, answer)?;
        }
        Ok(())
    }

    /// The same of the PSG.
    pub(crate) fn take_psg(
        &mut self,
        alloc: Global,
        rest: &str,
        answer: &mut Answer,
    ) -> Result<(), RowError> {
        let key = Key {
            cycle: u64::from(arguments(rest, "d")?[0]),
            chip: 4,
        };
        let list = psg_list(alloc)?;
        let (reported, entry) = carry_out(&mut self.shared, key, Request::Psg(list));
        self.entry = entry;
        let list = reported.psg_list().ok_or(RowError::NoSuchLine)?;
        answer.say_number(list.len() as u64)?;
        for write in list.as_slice() {
            tell_psg(write, answer)?;
        }
        Ok(())
    }
}
