// The bytes of a saved state that keep the chips and their ports.
use crate::sound::chips::{FAR, Sound};
use fm_chip::FmSynth;
use fm_port::{FmPort, PORT_SIZE};
use md_word::Unspell;
use psg_sound::{PsgPort, PsgSynth};
use row_lines::{RowError, compared, decimal_of, number, parted, pieces};

/// A chip, and a cycle.
fn chip_and_cycle(words: &str) -> Result<(&str, u64), RowError> {
    let (chip, cycle) = parted(words, ' ')?;
    Ok((chip, number(cycle)?))
}

impl Sound {
    fn read_psg_port(&mut self, bytes: &[u8], at: u64) -> Result<(), Unspell> {
        self.psg_port = PsgPort::unspell(self.alloc, bytes, at)?;
        Ok(())
    }

    fn read_psg(&mut self, bytes: &[u8], at: u64) -> Result<(), Unspell> {
        self.psg = PsgSynth::unspell(self.alloc, bytes, at)?;
        Ok(())
    }

    fn read_fm_port(&mut self, bytes: &[u8], at: u64) -> Result<(), Unspell> {
        self.fm_port = FmPort::unspell(self.alloc, bytes, at.min(FAR))?;
        Ok(())
    }

    fn read_fm(&mut self, bytes: &[u8], at: u64) -> Result<(), Unspell> {
        self.fm = FmSynth::unspell(self.alloc, bytes, at)?;
        Ok(())
    }

    /// Reads a chip of bytes.
    fn read(&mut self, chip: &str, bytes: &[u8], at: u64) -> Result<(), Unspell> {
        match chip {
            "psg-port" => self.read_psg_port(bytes, at),
            "psg" => self.read_psg(bytes, at),
            "fm-port" => self.read_fm_port(bytes, at),
            _ => self.read_fm(bytes, at),
        }
    }

    /// The bytes that keep a chip.
    fn spelled(&self, chip: &str, at: u64) -> Result<Vec<u8>, RowError> {
        // The FM chip's port is the longest of the four.
        let mut bytes = Vec::with_capacity(self.alloc, PORT_SIZE)?;
        match chip {
            "psg-port" => self.psg_port.spell(at, &mut bytes),
            "psg" => self.psg.spell(at, &mut bytes),
            "fm-port" => self.fm_port.spell(at.min(FAR), &mut bytes),
            "fm" => self.fm.spell(at, &mut bytes),
            _ => return Err(RowError::NoSuchName),
        }
        Ok(bytes)
    }

    /// `reported` where a chip is spelled by these bytes.
    fn compare(
        &self,
        chip: &str,
        at: u64,
        bytes: &[u8],
        reported: &str,
    ) -> Result<String, RowError> {
        compared(self.alloc, &self.spelled(chip, at)?, bytes, reported)
    }

    /// Reads a chip of bytes: `kept` where it is spelled by the same bytes, or the offset at which they are refused.
    fn read_again(&mut self, chip: &str, bytes: &[u8], at: u64) -> Result<String, RowError> {
        match self.read(chip, bytes, at) {
            Ok(()) => self.compare(chip, at, bytes, "kept"),
            Err(Unspell::Rule { place }) => decimal_of(self.alloc, "refused ", place),
            Err(Unspell::NoMemory) => Err(RowError::Memory),
        }
    }

    /// The same of the bytes of a line.
    pub fn state(&mut self, words: &str) -> Result<String, RowError> {
        let (chip, words) = parted(words, ' ')?;
        let (at, text) = parted(words, ' ')?;
        let bytes = pieces(self.alloc, text)?;
        self.read_again(chip, &bytes, number(at)?)
    }

    /// The same of the bytes that keep it: it continues as what is read.
    pub fn again(&mut self, words: &str) -> Result<String, RowError> {
        let (chip, at) = chip_and_cycle(words)?;
        let bytes = self.spelled(chip, at)?;
        self.read_again(chip, &bytes, at)
    }

    /// Whether a chip is spelled by the bytes that are wanted.
    pub fn spell(&mut self, words: &str, wanted: &str) -> Result<String, RowError> {
        let (chip, at) = chip_and_cycle(words)?;
        self.compare(chip, at, &pieces(self.alloc, wanted)?, wanted)
    }
}
