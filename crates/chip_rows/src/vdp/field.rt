// What the VDP holds, by name: `R1` a register, `C17` a colour, `S39` a vertical scroll, `@C000` video memory,
// and what is in progress.
use crate::vdp::video::Video;
use row_lines::{Answer, RowError, arguments, byte, hexadecimal, put, word};

fn place_of(number: &str) -> Result<usize, RowError> {
    Ok(arguments(number, "d")?[0] as usize)
}

impl Video {
    fn set_register(&mut self, number: &str, value: &str) -> Result<(), RowError> {
        let place = place_of(number)?;
        let value = byte(value)?;
        if place >= 24 {
            return Err(RowError::NoSuchName);
        }
        self.vdp.registers[place] = value;
        Ok(())
    }

    fn set_colour(&mut self, number: &str, value: &str) -> Result<(), RowError> {
        let place = place_of(number)?;
        let value = word(value)?;
        if place >= 64 {
            return Err(RowError::NoSuchName);
        }
        self.vdp.cram[place] = value;
        Ok(())
    }

    fn set_scroll(&mut self, number: &str, value: &str) -> Result<(), RowError> {
        let place = place_of(number)?;
        let value = word(value)?;
        if place >= 40 {
            return Err(RowError::NoSuchName);
        }
        self.vdp.vsram[place] = value;
        Ok(())
    }

    fn set_interrupt(&mut self, name: &str, value: &str) -> Result<(), RowError> {
        let pending = arguments(value, "b")?[0] == 1;
        match name {
            "vertical" => self.vdp.vertical = pending,
            "horizontal" => self.vdp.horizontal = pending,
            _ => return Err(RowError::NoSuchName),
        }
        Ok(())
    }

    /// Sets what has a name.
    fn set(&mut self, name: &str, value: &str) -> Result<(), RowError> {
        if let Some(number) = name.strip_prefix("R") {
            return self.set_register(number, value);
        }
        if let Some(number) = name.strip_prefix("C") {
            return self.set_colour(number, value);
        }
        if let Some(number) = name.strip_prefix("S") {
            return self.set_scroll(number, value);
        }
        if let Some(address) = name.strip_prefix("@") {
            let place = hexadecimal(address)?;
            return put(self.alloc, self.vdp.vram.as_mut_slice(), place, value);
        }
        self.set_interrupt(name, value)
    }

    /// Sets all that a line names.
    pub(crate) fn set_all(&mut self, said: &str) -> Result<(), RowError> {
        for word in said.split_whitespace() {
            let Some((name, value)) = word.split_once('=') else {
                return Err(RowError::NoSuchLine);
            };
            self.set(name, value)?;
        }
        Ok(())
    }

    fn tell_register(&self, number: &str, answer: &mut Answer) -> Result<(), RowError> {
        let place = place_of(number)?;
        match self.vdp.registers.get(place) {
            Some(value) => answer.say_bytes(&[*value]),
            None => Err(RowError::NoSuchName),
        }
    }

    /// What has a name and is a number in decimal.
    fn number_of(&self, name: &str) -> Option<u64> {
        match name {
            "left" => Some(u64::from(self.vdp.left)),
            "stamp" => Some(self.vdp.next_stamp),
            "kind" => Some(u64::from(self.vdp.dma_kind)),
            "vertical" => Some(u64::from(self.vdp.vertical)),
            "horizontal" => Some(u64::from(self.vdp.horizontal)),
            "tall" => Some(u64::from(self.vdp.tall)),
            "from" => Some(self.vdp.int_from),
            "to" => Some(self.vdp.int_to),
            "next" => Some(self.chip.next().key.cycle),
            _ => None,
        }
    }

    /// Writes what has a name.
    pub(crate) fn tell(&self, name: &str, answer: &mut Answer) -> Result<(), RowError> {
        if let Some(number) = name.strip_prefix("R") {
            return self.tell_register(number, answer);
        }
        match name {
            "address" => answer.say_word(u32::from(self.vdp.a)),
            "puts" => answer.say_word(u32::from(self.vdp.address)),
            _ => answer.say_number(self.number_of(name).ok_or(RowError::NoSuchLine)?),
        }
    }
}
