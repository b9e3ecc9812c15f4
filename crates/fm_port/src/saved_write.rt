ghost use Rattle.std.specs.Prelude.{◌≡◌, map};
ghost use Rattle.md_fields.specs.Fields.{seen};
ghost use Rattle.fm_port.specs.PortSpelling as meaning;

use crate::write::{FmWrite, RESET};
use md_fields::{Field, are_zeros, put, u8_at, u64_at};
use md_word::Key;
use sound_writes::{MOST, WriteEntry};

/// How many bytes keep a write.
pub const WRITE: usize = 12;

/// The numbers that a saved state keeps of a write, whatever they are.
#[derive(Clone, Copy)]
pub struct SavedWrite {
    pub cycle: u64,
    pub chip: u8,
    pub port: u8,
    pub register: u8,
    pub value: u8,
}

impl SavedWrite {
    /// The fields in their order.
    fn fields(&self) -> [Field<'_>; 5]
        ensures { map seen result ≡ meaning.write_fields self.now }
    {
        [
            Field::Quad(self.cycle, true),
            Field::Byte(self.chip, true),
            Field::Byte(self.port, true),
            Field::Byte(self.register, true),
            Field::Byte(self.value, true),
        ]
    }
}

impl WriteEntry for SavedWrite {
    type Write = FmWrite;

    ghost size = { 12 };

    ghost fields = { meaning.write_fields };

    ghost entry = { meaning.write_at };

    ghost key_of = { meaning.key_of };

    ghost is_right = { meaning.is_write };

    ghost saved_of = { meaning.saved_write_of };

    ghost write_of = { meaning.write_from };

    fn of(write: &FmWrite) -> SavedWrite {
        SavedWrite {
            cycle: write.key.cycle,
            chip: write.key.chip,
            port: write.port,
            register: write.register,
            value: write.value,
        }
    }

    fn read(entries: &[u8], index: usize) -> SavedWrite {
        let place = WRITE * index;
        SavedWrite {
            cycle: u64_at(entries, place),
            chip: u8_at(entries, place + 8),
            port: u8_at(entries, place + 9),
            register: u8_at(entries, place + 10),
            value: u8_at(entries, place + 11),
        }
    }

    fn are_unused(entries: &[u8], index: usize) -> bool {
        are_zeros(&entries[WRITE * index..WRITE * MOST])
    }

    fn key(&self) -> Key {
        Key {
            cycle: self.cycle,
            chip: self.chip,
        }
    }

    /// Whether this is a byte for one of the two ports, or a reset, which is the 68000's and has no
    /// register and no value.
    fn is_right(&self) -> bool {
        self.port < RESET
            || self.port == RESET && self.chip == 0 && self.register == 0 && self.value == 0
    }

    fn write(&self) -> FmWrite {
        FmWrite {
            key: self.key(),
            port: self.port.min(RESET),
            register: self.register,
            value: self.value,
        }
    }

    #[tactic(auto, unfolding(md_fields::specs::Fields::spelling))]
    fn put(&self, into: &mut Vec<u8>) {
        put(&self.fields(), into);
    }

    #[tactic(auto, unfolding(md_fields::specs::Fields::AreWithin))]
    fn known(&self) {
        let _cycle = self.cycle;
        let _chip = self.chip;
        let _port = self.port;
        let _register = self.register;
        let _value = self.value;
    }
}
