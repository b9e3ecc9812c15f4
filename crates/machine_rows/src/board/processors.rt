// Accesses of the 68000 and of the Z80.
use crate::board::fixture::Board;
use bus_shared::{Request, carry_out};
use md_word::{Answer68, Answer80, Key, Parcel, Request68, Request80};
use row_lines::{Answer, RowError, arguments, byte, long, parted, word};
use std::alloc::Global;
use z80_parcel::first;

/// A read of the 68000, `r:A10001` of a byte and `R:C00004` of a word.
fn read_of(place: &str) -> Result<Request68, RowError> {
    let Some((kind, address)) = place.split_once(':') else {
        return Err(RowError::NoSuchLine);
    };
    let address = long(address)?;
    match kind {
        "r" => Ok(Request68::Read8(address)),
        "R" => Ok(Request68::Read16(address)),
        _ => Err(RowError::NoSuchLine),
    }
}

/// The acknowledge of an interrupt's level, `ACK=6`, or a word of a transfer, `WORD=1234`.
fn signal_of(name: &str, value: &str) -> Result<Request68, RowError> {
    match name {
        "ACK" => Ok(Request68::Ack(byte(value)?)),
        "WORD" => Ok(Request68::Word(word(value)?)),
        _ => Err(RowError::NoSuchLine),
    }
}

/// A write of the 68000, `w:A10009=40` of a byte and `W:C00004=8114` of a word.
fn write_of(place: &str, value: &str) -> Result<Request68, RowError> {
    let Some((kind, address)) = place.split_once(':') else {
        return signal_of(place, value);
    };
    let address = long(address)?;
    match kind {
        "w" => Ok(Request68::Write8(address, byte(value)?)),
        "W" => Ok(Request68::Write16(address, word(value)?)),
        _ => Err(RowError::NoSuchLine),
    }
}

fn request_of(text: &str) -> Result<Request68, RowError> {
    match text.split_once('=') {
        Some((place, value)) => write_of(place, value),
        None => read_of(text),
    }
}

/// Writes what the 68000 is answered: the value, a transfer that starts, and the cycles to its next word.
fn tell(reported: &Answer68, answer: &mut Answer) -> Result<(), RowError> {
    answer.say_word(u32::from(reported.value))?;
    if let Some(transfer) = reported.transfer {
        answer.say_word(transfer.source)?;
        answer.say_number(u64::from(transfer.words))?;
        return answer.say_number(u64::from(transfer.cost));
    }
    if reported.cost > 0 {
        answer.say_number(u64::from(reported.cost))?;
    }
    Ok(())
}

/// A cycle, and what follows it.
fn cycle_of(rest: &str) -> Result<(u32, &str), RowError> {
    let Some((cycle, following)) = rest.split_once(' ') else {
        return Err(RowError::NoSuchLine);
    };
    Ok((arguments(cycle, "d")?[0], following))
}

impl Board {
    /// Carries out an access of the 68000 at a cycle.
    pub(crate) fn access(&mut self, cycle: u32, request: Request68) -> Option<Answer68> {
        let key = Key {
            cycle: u64::from(cycle),
            chip: 0,
        };
        let (reported, entry) = carry_out(&mut self.shared, key, Request::Main(request));
        self.entry = entry;
        reported.main()
    }

    /// Carries out accesses of the 68000 at a cycle, and writes what the last is answered.
    pub(crate) fn access_all(&mut self, rest: &str, answer: &mut Answer) -> Result<(), RowError> {
        let (cycle, accesses) = cycle_of(rest)?;
        for text in accesses.split_whitespace() {
            answer.clear();
            match self.access(cycle, request_of(text)?) {
                Some(reported) => tell(&reported, answer)?,
                None => return Err(RowError::NoSuchLine),
            }
        }
        Ok(())
    }

    /// Carries out an access of the Z80 at a cycle.
    fn carry_out_by_z80(&mut self, cycle: u32, request: Request80) -> Option<Answer80> {
        let key = Key {
            cycle: u64::from(cycle),
            chip: 1,
        };
        let (reported, entry) = carry_out(&mut self.shared, key, Request::Sub(request));
        self.entry = entry;
        reported.sub()
    }

    /// The Z80's RAM, which is all 0 where it was not given back before.
    fn parcel(&mut self, alloc: Global) -> Result<Parcel, RowError> {
        match self.parcel.take() {
            Some(parcel) => Ok(parcel),
            None => Ok(first(alloc)?),
        }
    }

    /// A request of the Z80: `r:4003`, `w:4001=FF`, `yield` or `take`.
    fn request80_of(&mut self, alloc: Global, text: &str) -> Result<Request80, RowError> {
        if text == "yield" {
            return Ok(Request80::Yield(self.parcel(alloc)?));
        }
        if text == "take" {
            return Ok(Request80::Take);
        }
        if let Some(address) = text.strip_prefix("r:") {
            return Ok(Request80::Read(word(address)?));
        }
        let (place, value) = parted(text, '=')?;
        let address = place.strip_prefix("w:").ok_or(RowError::NoSuchLine)?;
        Ok(Request80::Write(word(address)?, byte(value)?))
    }

    /// Carries out an access of the Z80, and writes what it is answered: a value, `done`, or `back` with its RAM.
    pub(crate) fn access_by_z80(
        &mut self,
        alloc: Global,
        rest: &str,
        answer: &mut Answer,
    ) -> Result<(), RowError> {
        let (cycle, text) = cycle_of(rest)?;
        let request = self.request80_of(alloc, text)?;
        match self.carry_out_by_z80(cycle, request) {
            Some(Answer80::Value(value)) => answer.say_bytes(&[value]),
            Some(Answer80::Done) => answer.say("done"),
            Some(Answer80::Back(parcel)) => {
                self.parcel = Some(parcel);
                answer.say("back")
            }
            None => Err(RowError::NoSuchLine),
        }
    }
}
