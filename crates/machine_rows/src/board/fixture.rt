use bus_shared::{Shared, pins68, pins80};
use md_pads::Recording;
use md_word::{Entry, Key, Parcel};
use row_lines::{Answer, Buffer, Fixture, RowError, arguments, bytes, first_word};
use std::alloc::{AllocError, Global};
use std::sync::Arc;
use vdp_ahead::LineBuffer;

/// The board of a row, the entry of its last access, the Z80's RAM and a line buffer that are not on the board, and
/// bytes.
#[derive(Drop)]
pub(crate) struct Board {
    pub(crate) alloc: Global,
    pub(crate) shared: Shared,
    pub(crate) entry: Entry,
    pub(crate) parcel: Option<Parcel>,
    pub(crate) line_buffer: Option<Box<LineBuffer>>,
    pub(crate) buffer: Buffer,
}

/// No entry.
const NO_ENTRY: Entry = Entry {
    key: Key { cycle: 0, chip: 0 },
    kind: 0,
    address: 0,
    value: 0,
};

fn shared(alloc: Global, recording: Recording) -> Result<Arc<Recording>, AllocError> {
    Ok(Arc::new(alloc, recording)?)
}

/// A recording of no frame.
pub(crate) fn empty(alloc: Global) -> Result<Arc<Recording>, AllocError> {
    shared(alloc, Recording::empty(alloc))
}

/// The bytes of a recording: eight letters, and the others in hexadecimal.
fn bytes_of(alloc: Global, text: &str) -> Result<Vec<u8>, RowError> {
    let Some((letters, others)) = text.split_once(' ') else {
        return Err(RowError::NoSuchLine);
    };
    let mut read = letters.as_bytes().to_vec(alloc)?;
    read.extend_from_slice(&bytes(alloc, others)?)?;
    Ok(read)
}

/// A recording of a text.
fn recording(alloc: Global, text: &str) -> Result<Arc<Recording>, RowError> {
    if text.is_empty() {
        return Ok(empty(alloc)?);
    }
    match Recording::read(alloc, &bytes_of(alloc, text)?) {
        Ok(recording) => Ok(shared(alloc, recording)?),
        Err(_) => Err(RowError::NoSuchLine),
    }
}

impl Board {
    pub(crate) fn power_on(alloc: Global) -> Result<Board, AllocError> {
        Ok(Board {
            alloc,
            shared: Shared::power_on(alloc, empty(alloc)?, false)?,
            entry: NO_ENTRY,
            parcel: None,
            line_buffer: None,
            buffer: Buffer::new(alloc),
        })
    }

    /// Begins again with a board of a region and a recording; bytes stay.
    fn restart(&mut self, alloc: Global, pal: bool, text: &str) -> Result<(), RowError> {
        self.parcel = None;
        self.line_buffer = None;
        self.entry = NO_ENTRY;
        self.shared = Shared::power_on(alloc, recording(alloc, text)?, pal)?;
        Ok(())
    }

    /// The kind, the address and the value of the last entry.
    fn tell_entry(&self, rest: &str, answer: &mut Answer) -> Result<(), RowError> {
        arguments(rest, "")?;
        answer.say_number(u64::from(self.entry.kind))?;
        answer.say_word(self.entry.address)?;
        answer.say_word(u32::from(self.entry.value))
    }

    /// The interrupt level of the 68000.
    fn tell_level(&self, rest: &str, answer: &mut Answer) -> Result<(), RowError> {
        arguments(rest, "")?;
        answer.say_number(u64::from(pins68(&self.shared).level))
    }

    /// The Z80's reset and how often it was held.
    fn tell_reset(&self, rest: &str, answer: &mut Answer) -> Result<(), RowError> {
        arguments(rest, "")?;
        let pins = pins80(&self.shared);
        answer.say_bit(pins.reset)?;
        answer.say_number(pins.resets)
    }

    /// The interval of the Z80's latest interrupt.
    fn tell_interval(&self, rest: &str, answer: &mut Answer) -> Result<(), RowError> {
        arguments(rest, "")?;
        let pins = pins80(&self.shared);
        answer.say_number(pins.int_from)?;
        answer.say_number(pins.int_to)
    }
}

impl Board {
    /// Carries out a line, and puts the answer together that it asks for.
    fn carry_out(&mut self, said: &str, answer: &mut Answer) -> Result<(), RowError> {
        let alloc = self.alloc;
        let (verb, rest) = first_word(said);
        match verb {
            "ntsc" => self.restart(alloc, false, rest),
            "pal" => self.restart(alloc, true, rest),
            "68k" => self.access_all(rest, answer),
            "z80" => self.access_by_z80(alloc, rest, answer),
            "entry" => self.tell_entry(rest, answer),
            "level" => self.tell_level(rest, answer),
            "reset" => self.tell_reset(rest, answer),
            "interval" => self.tell_interval(rest, answer),
            "line" => self.start(rest, answer),
            "interrupts" => self.tell_interrupts(rest, answer),
            "view" => self.tell_view(alloc, rest, answer),
            "fm" => self.take_fm(alloc, rest, answer),
            "psg" => self.take_psg(alloc, rest, answer),
            _ => self.obey_saved(alloc, verb, rest, answer),
        }
    }
}

impl Fixture for Board {
    fn begin(&mut self) -> Result<(), RowError> {
        self.buffer.clear();
        self.restart(self.alloc, false, "")
    }

    fn obey(&mut self, line: &str) -> Result<(), RowError> {
        let mut answer = Answer::new(self.alloc);
        self.carry_out(line, &mut answer)
    }

    fn answer(&mut self, asked: &str, _wanted: &str) -> Result<String, RowError> {
        let mut answer = Answer::new(self.alloc);
        self.carry_out(asked, &mut answer)?;
        answer.finish()
    }
}
