use crate::depots::Stores;
use crate::pads::Pads;
use crate::players::Players;
use crate::{cartridges, kept, lines, replies, rings};
use row_lines::{Fixture, RowError, bytes, first_word, hexadecimal, parted, readable, repeats};
use std::alloc::Global;

/// What a row is carried out on.
#[derive(Drop)]
pub(crate) struct Parts {
    alloc: Global,
    /// A file that the row makes.
    file: Vec<u8>,
    stores: Stores,
    pads: Pads,
    players: Players,
}

/// A text as an answer.
pub(crate) fn reported(alloc: Global, text: &str) -> Result<String, RowError> {
    Ok(String::from_str(alloc, text)?)
}

/// `yes` or `no`.
pub(crate) fn yes_or_no(alloc: Global, is_so: bool) -> Result<String, RowError> {
    reported(alloc, if is_so { "yes" } else { "no" })
}

/// Puts bytes over those from a place on, which is hexadecimal.
fn put(into: &mut [u8], place: &str, values: &[u8]) -> Result<(), RowError> {
    let place = readable(usize::try_from(hexadecimal(place)?))?;
    let rest = into.get_mut(place..).ok_or(RowError::NoSuchLine)?;
    let part = rest.get_mut(..values.len()).ok_or(RowError::NoSuchLine)?;
    part.copy_from_slice(values);
    Ok(())
}

impl Parts {
    pub(crate) fn new(alloc: Global) -> Parts {
        Parts {
            alloc,
            file: Vec::new(alloc),
            stores: Stores::new(alloc),
            pads: Pads::new(),
            players: Players::new(),
        }
    }

    /// The row's file is made of these bytes.
    fn make_file(&mut self, text: &str) -> Result<(), RowError> {
        self.file = repeats(self.alloc, text)?;
        Ok(())
    }

    /// Bytes of the row's file, and their place in hexadecimal.
    fn write(&mut self, text: &str) -> Result<(), RowError> {
        let (place, digits) = parted(text, ' ')?;
        let values = bytes(self.alloc, digits)?;
        put(&mut self.file, place, &values)
    }

    /// The same, of a text.
    fn write_text(&mut self, text: &str) -> Result<(), RowError> {
        let (place, values) = parted(text, ' ')?;
        put(&mut self.file, place, values.as_bytes())
    }

    /// What is answered where the row's file is asked.
    fn answer_of_file(&mut self, verb: &str, rest: &str, wanted: &str) -> Result<String, RowError> {
        let alloc = self.alloc;
        match verb {
            "cartridge" => cartridges::accept(alloc, &self.file),
            "image" => cartridges::image(alloc, &self.file),
            "header" => cartridges::header(alloc, &self.file),
            "demo" => cartridges::demo(alloc, rest),
            "picture" => cartridges::picture(alloc, &self.file, wanted),
            _ => self.pads.answer(alloc, &self.file, verb, rest),
        }
    }

    /// What is answered where one of the small parts is asked.
    fn answer_of_part(&mut self, verb: &str, rest: &str, wanted: &str) -> Result<String, RowError> {
        let alloc = self.alloc;
        match verb {
            "command" => lines::command(alloc, rest),
            "press" => lines::press(alloc, rest),
            "reply" => replies::reply(alloc, rest),
            "ring" => rings::kept(alloc, rest),
            "player" => self.players.answer(alloc, rest),
            "kept" => kept::kept(alloc, rest),
            "depot" => self.stores.answer(alloc, rest),
            "sink" => self.stores.answer_of_sink(alloc, rest),
            _ => self.answer_of_file(verb, rest, wanted),
        }
    }
}

impl Fixture for Parts {
    fn begin(&mut self) -> Result<(), RowError> {
        self.file = Vec::new(self.alloc);
        self.stores = Stores::new(self.alloc);
        self.pads = Pads::new();
        self.players = Players::new();
        Ok(())
    }

    fn obey(&mut self, line: &str) -> Result<(), RowError> {
        let alloc = self.alloc;
        let (verb, rest) = first_word(line);
        match verb {
            "file" => self.make_file(rest),
            "write" => self.write(rest),
            "text" => self.write_text(rest),
            "depot" => self.stores.obey(alloc, rest),
            "port" => self.pads.obey(rest),
            _ => Err(RowError::NoSuchLine),
        }
    }

    fn answer(&mut self, asked: &str, wanted: &str) -> Result<String, RowError> {
        let (verb, rest) = first_word(asked);
        self.answer_of_part(verb, rest, wanted)
    }
}
