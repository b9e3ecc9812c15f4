// Both sound chips with their ports.
use fm_chip::FmSynth;
use fm_port::{FmList, FmPort};
use md_word::Key;
use md_word::clock::BATCH;
use psg_sound::{PsgList, PsgPort, PsgSynth};
use row_lines::{RowError, byte, number, parted, text_of};
use std::alloc::{AllocError, Global};
use std::fmt::Write;

/// No cycle of a row is above this.
pub const FAR: u64 = 1 << 40;

/// The chips of a row, and what was heard of them.
#[derive(Drop)]
pub struct Sound {
    pub alloc: Global,
    pub psg_port: PsgPort,
    pub psg: PsgSynth,
    pub fm_port: FmPort,
    pub fm: FmSynth,
    /// The levels of the PSG and the sides of the FM chip in the last batch.
    levels: [i32; 16],
    sides: [(i32, i32); 16],
    /// Those of all batches, and of those that were kept.
    heard: String,
    kept: String,
}

/// A cycle, and the processor that writes: 0 the 68000, 1 the Z80.
fn key_of(cycle: u64, chip: &str) -> Result<Key, RowError> {
    match chip {
        "0" => Ok(Key { cycle, chip: 0 }),
        "1" => Ok(Key { cycle, chip: 1 }),
        _ => Err(RowError::NoSuchLine),
    }
}

/// How many writes the ports handed on.
fn counts(alloc: Global, psg: &PsgList, fm: &FmList) -> Result<String, RowError> {
    Ok(format!(in alloc; "psg {} fm {}", psg.len(), fm.len())?)
}

impl Sound {
    pub fn power_on(alloc: Global) -> Sound {
        Sound {
            alloc,
            psg_port: PsgPort::power_on(),
            psg: PsgSynth::power_on(),
            fm_port: FmPort::power_on(),
            fm: FmSynth::power_on(),
            levels: [0; 16],
            sides: [(0, 0); 16],
            heard: String::new(alloc),
            kept: String::new(alloc),
        }
    }

    /// Begins again at power-on; what was kept stays.
    pub fn restart(&mut self) {
        self.psg_port = PsgPort::power_on();
        self.psg = PsgSynth::power_on();
        self.fm_port = FmPort::power_on();
        self.fm = FmSynth::power_on();
        self.heard = String::new(self.alloc);
    }

    /// Keeps nothing.
    pub fn forget(&mut self) {
        self.kept = String::new(self.alloc);
    }

    /// Keeps what was heard, and begins again.
    pub fn keep(&mut self) {
        self.kept = std::mem::replace(&mut self.heard, String::new(self.alloc));
        self.restart();
    }

    /// Writes bytes to the PSG: `CYCLE PROCESSOR BYTE..`.
    pub fn write_psg(&mut self, words: &str) -> Result<(), RowError> {
        let (cycle, words) = parted(words, ' ')?;
        let (chip, bytes) = parted(words, ' ')?;
        let key = key_of(number(cycle)?, chip)?;
        for value in bytes.split(' ') {
            self.write_psg_byte(key, byte(value)?)?;
        }
        Ok(())
    }

    fn write_psg_byte(&mut self, key: Key, value: u8) -> Result<(), RowError> {
        if key.chip > 1 {
            return Err(RowError::NoSuchLine);
        }
        self.psg_port.write(key, value);
        Ok(())
    }

    /// Writes bytes to the FM chip: `CYCLE PROCESSOR ADDRESS=BYTE..`, or the same at each cycle `FROM..TO`.
    pub fn write_fm(&mut self, words: &str) -> Result<(), RowError> {
        let (cycles, words) = parted(words, ' ')?;
        let (chip, writes) = parted(words, ' ')?;
        let (from, to) = cycles.split_once("..").unwrap_or((cycles, cycles));
        for cycle in number(from)?..=number(to)? {
            self.write_fm_bytes(key_of(cycle, chip)?, writes)?;
        }
        Ok(())
    }

    fn write_fm_bytes(&mut self, key: Key, writes: &str) -> Result<(), RowError> {
        for write in writes.split(' ') {
            self.write_fm_byte(key, write)?;
        }
        Ok(())
    }

    fn write_fm_byte(&mut self, key: Key, write: &str) -> Result<(), RowError> {
        let (address, value) = parted(write, '=')?;
        let (address, value) = (byte(address)?, byte(value)?);
        if address > 3 || key.chip > 1 || key.cycle > FAR {
            return Err(RowError::NoSuchLine);
        }
        self.fm_port.write(key, address, value);
        Ok(())
    }

    /// Resets the FM chip at a cycle.
    pub fn reset(&mut self, cycle: &str) -> Result<(), RowError> {
        let cycle = number(cycle)?;
        self.fm_port.reset(Key { cycle, chip: 0 });
        Ok(())
    }

    /// What the FM chip's port shows at a cycle.
    pub fn status(&mut self, cycle: &str) -> Result<String, RowError> {
        let cycle = number(cycle)?;
        if cycle > FAR {
            return Err(RowError::NoSuchLine);
        }
        let status = self.fm_port.status(cycle);
        Ok(format!(in self.alloc; "{status:02X}")?)
    }

    /// How many writes the ports hand on below a cycle.
    pub fn take(&mut self, cycle: &str) -> Result<String, RowError> {
        let cycle = number(cycle)?;
        let (mut psg, mut fm) = (PsgList::new(), FmList::new());
        self.psg_port.take(cycle, &mut psg);
        self.fm_port.take(cycle, &mut fm);
        counts(self.alloc, &psg, &fm)
    }

    /// Makes a batch: how many writes the ports handed on for it.
    pub fn batch(&mut self, batch: &str) -> Result<String, RowError> {
        let batch = number(batch)?;
        if batch > FAR / BATCH {
            return Err(RowError::NoSuchLine);
        }
        let (mut psg, mut fm) = (PsgList::new(), FmList::new());
        self.psg_port.take((batch + 1) * BATCH, &mut psg);
        self.fm_port.take((batch + 1) * BATCH, &mut fm);
        self.psg.batch(16 * batch, &psg, &mut self.levels);
        self.fm.batch(16 * batch, &fm, &mut self.sides);
        self.hear()?;
        counts(self.alloc, &psg, &fm)
    }

    fn hear(&mut self) -> Result<(), RowError> {
        let levels = self.tell_levels()?;
        self.heard.push_str(&levels)?;
        let sides = self.tell_sides()?;
        Ok(self.heard.push_str(&sides)?)
    }

    /// The levels of the PSG in the last batch.
    pub fn tell_levels(&self) -> Result<String, RowError> {
        let mut text = String::new(self.alloc);
        for level in self.levels {
            write!(text, "{level} ")?;
        }
        text_of(self.alloc, text.trim_end())
    }

    /// The sums of the left and the right side of the FM chip in the last batch.
    pub fn tell_sides(&self) -> Result<String, RowError> {
        let mut text = String::new(self.alloc);
        for (left, right) in self.sides {
            write!(text, "{left},{right} ")?;
        }
        text_of(self.alloc, text.trim_end())
    }

    /// Whether the same was heard as was kept.
    pub fn tell_heard(&self) -> Result<String, RowError> {
        let is_same = !self.kept.is_empty() && self.heard.as_str() == self.kept.as_str();
        let reported = if is_same {
            "as kept"
        } else {
            "other than kept"
        };
        text_of(self.alloc, reported)
    }
}
