ghost use Rattle.std.specs.Prelude.{◌≡◌, true, map};
ghost use Rattle.md_fields.specs.Fields.{seen};
ghost use Rattle.psg_sound.specs.PortSpelling as meaning;

use crate::write::PsgWrite;
use md_fields::{Field, are_zeros, put, u8_at, u64_at};
use md_word::Key;
use sound_writes::{MOST, WriteEntry};

/// How many bytes keep a write.
pub const WRITE: usize = 10;

impl PsgWrite {
    /// A write as fields: its cycle, its chip and its value.
    fn fields(&self) -> [Field<'_>; 3]
        ensures { map seen result ≡ meaning.write_fields self.now }
    {
        [
            Field::Quad(self.key.cycle, true),
            Field::Byte(self.key.chip, true),
            Field::Byte(self.value, true),
        ]
    }
}

impl WriteEntry for PsgWrite {
    type Write = PsgWrite;

    ghost size = { 10 };

    ghost fields = { meaning.write_fields };

    ghost entry = { meaning.write_at };

    ghost key_of = { meaning.key_of };

    ghost is_right = { λ w. true };

    ghost saved_of = { λ w. w };

    ghost write_of = { λ w. w };

    fn of(write: &PsgWrite) -> PsgWrite {
        *write
    }

    fn read(entries: &[u8], index: usize) -> PsgWrite {
        let place = WRITE * index;
        PsgWrite {
            key: Key {
                cycle: u64_at(entries, place),
                chip: u8_at(entries, place + 8),
            },
            value: u8_at(entries, place + 9),
        }
    }

    fn are_unused(entries: &[u8], index: usize) -> bool {
        are_zeros(&entries[WRITE * index..WRITE * MOST])
    }

    fn key(&self) -> Key {
        self.key
    }

    fn is_right(&self) -> bool {
        true
    }

    fn write(&self) -> PsgWrite {
        *self
    }

    #[tactic(auto, unfolding(md_fields::specs::Fields::spelling))]
    fn put(&self, into: &mut Vec<u8>) {
        put(&self.fields(), into);
    }

    #[tactic(auto, unfolding(md_fields::specs::Fields::AreWithin))]
    fn known(&self) {
        let _cycle = self.key.cycle;
        let _chip = self.key.chip;
        let _value = self.value;
    }
}
