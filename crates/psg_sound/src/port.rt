ghost use Rattle.std.specs.Prelude.{◌≡◌, ◌<◌, []};
ghost use Rattle.psg_sound.specs.Port.{IsPort, held_with, left_from, taken_below};
ghost use Rattle.std.specs.List.{list_all};
ghost use Rattle.sound_writes.specs.Keys.{is_before_next as before_next};

use crate::write::{PsgList, PsgWrite};
use md_word::Key;
use sound_writes::{are_before_next, take_below};
use std::marker::Model;

/// The PSG's port: the writes that its synthesis has not taken. Contracts see their list, at most
/// 1,024 in the order in which they were written.
///
/// The list lies in the value itself, about 24 KiB: keep a port behind a `Box` where it is moved.
/// To take writes costs their number, and no memory.
#[derive(Drop)]
pub struct PsgPort {
    pub(crate) writes: PsgList,
}

impl Model for PsgPort {
    ghost use Rattle.std.specs.Prelude.{List};
    ghost use Rattle.psg_sound.specs.Port.{IsPort};
    ghost use Rattle.psg_sound.specs.declared.write.PsgWrite.{PsgWrite as Write};

    ghost Value = { List Write };

    ghost view = { λ p. p.writes.items };

    ghost invariant = { λ p. IsPort p.writes.items };
}

impl PsgPort {
    /// A port that holds no write.
    pub fn power_on() -> PsgPort
        ensures empty { result ≡ [] }
        ensures port { IsPort result }
    {
        PsgPort {
            writes: PsgList::new(),
        }
    }

    /// Holds a byte that a processor writes: `key` is that of chip 0 or 1. It is lost where 1,024
    /// writes are held.
    pub fn write(&mut self, key: Key, value: u8)
        requires { key.chip < 2 }
        ensures held { self.new ≡ held_with self.old key value }
        ensures port { IsPort self.new }
    {
        if !self.writes.is_full() {
            self.writes.push(PsgWrite { key, value });
        }
    }

    /// Whether each held write is its processor's gap before the next event of that processor, at
    /// least: the 68000's is at `main`, the Z80's at `sub`.
    pub fn is_before_next(&self, main: u64, sub: u64) -> bool
        ensures { result ≡ list_all (λ w. before_next main sub w.key) self.now }
    {
        are_before_next::<PsgWrite>(self.writes.as_slice(), main, sub)
    }

    /// Empties `into` and moves the writes stamped below `cycle` there, in their order; the others
    /// stay.
    pub fn take(&mut self, cycle: u64, into: &mut PsgList)
        ensures taken { into.new.items ≡ taken_below cycle self.old }
        ensures left { self.new ≡ left_from cycle self.old }
        ensures port { IsPort self.new }
        ensures list { IsPort into.new.items }
    {
        take_below::<PsgWrite>(&mut self.writes, cycle, into);
    }
}
