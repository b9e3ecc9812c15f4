ghost use Rattle.std.specs.Prelude.{◌≡◌, ◌+◌, ◌<◌, ◌≤◌, ℕ, length};
ghost use Rattle.fm_port.specs.Port as meaning;
ghost use Rattle.fm_port.specs.Port.{IsInOrder, IsPort, held_with, left_from, taken_below};
ghost use Rattle.fm_port.specs.Timers.{both_settled};
ghost use Rattle.fm_port.specs.Timers as timers;
ghost use Rattle.std.specs.List.{list_all};
ghost use Rattle.md_word.specs.Clock.{cycle_limit};
ghost use Rattle.sound_writes.specs.Keys.{is_before_next as before_next};

use crate::saved_write::SavedWrite;
use crate::timers::Timers;
use crate::write::{FmList, FmWrite, RESET};
use md_word::Key;
use sound_writes::{are_before_next, take_below};
use std::marker::Model;

/// The FM chip's port: two latches of register numbers, the timers, and the writes that the synthesis
/// has not taken, at most 1,024. Contracts see these.
///
/// The list lies in the value itself, about 24 KiB: keep a port behind a `Box` where it is moved.
///
/// Source: Sega, Genesis Software Manual, FM addresses.
#[derive(Drop)]
pub struct FmPort {
    pub(crate) first: u8,
    pub(crate) second: u8,
    pub(crate) timers: Timers,
    pub(crate) writes: FmList,
}

impl Model for FmPort {
    ghost use Rattle.fm_port.specs.Port.{Port, IsPort};

    ghost Value = { Port };

    ghost view = { λ p. record { first = p.first; second = p.second; timers = p.timers; writes = p.writes.items } };

    ghost invariant = { λ p. IsPort (record {
      first = p.first;
      second = p.second;
      timers = p.timers;
      writes = p.writes.items;
    }) };
}

impl FmPort {
    /// The port at power-on: it holds no write, and all else is 0.
    pub fn power_on() -> FmPort
        ensures value { result ≡ meaning.at_power_on }
        ensures port { IsPort result }
    {
        FmPort {
            first: 0,
            second: 0,
            timers: Timers::power_on(),
            writes: FmList::new(),
        }
    }

    /// Takes a byte that a processor writes to an address, 0 to 3, at a cycle of at most 2^50: `key` is
    /// that of chip 0 or 1.
    ///
    /// Addresses 0 and 2 latch a register of the first and the second port, 1 and 3 write it. A write
    /// is held for the synthesis; where 1,024 are held it is lost there, and still reaches the timers.
    #[tactic(auto, unfolding(crate::specs::Port::written))]
    pub fn write(&mut self, key: Key, address: u8, value: u8)
        requires chip { key.chip < 2 }
        requires cycle { key.cycle ≤ cycle_limit }
        requires address { address < 4 }
        ensures value { self.new ≡ meaning.written key address value self.old }
        ensures port { IsPort self.new }
        ensures order { (low high : ℕ) → IsInOrder low (key.cycle + 1) self.old.writes → low ≤ key.cycle
            → key.cycle < high → IsInOrder low high self.new.writes }
    {
        match address {
            0 => self.first = value,
            2 => self.second = value,
            1 => {
                self.timers.write(key.cycle, self.first, value);
                let write = FmWrite {
                    key,
                    port: 0,
                    register: self.first,
                    value,
                };
                hold(&mut self.writes, &write);
            }
            _ => {
                let write = FmWrite {
                    key,
                    port: 1,
                    register: self.second,
                    value,
                };
                hold(&mut self.writes, &write);
            }
        }
    }

    /// Resets the chip by a write of the 68000: latches and timers become 0, and the reset is held
    /// after the writes.
    #[tactic(auto, unfolding(crate::specs::Port::reset))]
    pub fn reset(&mut self, key: Key)
        requires { key.chip ≡ 0 }
        ensures value { self.new ≡ meaning.reset key self.old }
        ensures port { IsPort self.new }
        ensures order { (low high : ℕ) → IsInOrder low (key.cycle + 1) self.old.writes → low ≤ key.cycle
            → key.cycle < high → IsInOrder low high self.new.writes }
    {
        self.first = 0;
        self.second = 0;
        self.timers = Timers::power_on();
        let write = FmWrite {
            key,
            port: RESET,
            register: 0,
            value: 0,
        };
        hold(&mut self.writes, &write);
    }

    /// What a read shows at a cycle of at most 2^50: bit 0 timer A's flag, bit 1 timer B's. The
    /// overflows below the cycle are made, and one at the very cycle counts.
    pub fn status(&mut self, cycle: u64) -> u8
        requires { cycle ≤ cycle_limit }
        ensures value { result ≡ timers.status cycle (both_settled cycle self.old.timers) }
        ensures after { self.new ≡ record self.old { timers = both_settled cycle self.old.timers } }
        ensures port { IsPort self.new }

        // Overflows that are made here and later are those that are made later alone.
        ensures later { (later : ℕ) → cycle ≤ later
            → both_settled later self.new.timers ≡ both_settled later self.old.timers }
    {
        self.timers.settle(cycle);
        self.timers.status(cycle)
    }

    /// Whether each held write is its processor's gap before the next event of that processor, at
    /// least: the 68000's is at `main`, the Z80's at `sub`.
    pub fn is_before_next(&self, main: u64, sub: u64) -> bool
        ensures { result ≡ list_all (λ w. before_next main sub w.key) self.now.writes }
    {
        are_before_next::<SavedWrite>(self.writes.as_slice(), main, sub)
    }

    /// Empties `into` and moves the writes stamped below `cycle` there, in their order; the others
    /// stay. It costs their number, and takes no memory.
    pub fn take(&mut self, cycle: u64, into: &mut FmList)
        ensures taken { into.new.items ≡ taken_below cycle self.old.writes }
        ensures left { self.new ≡ record self.old { writes = left_from cycle self.old.writes } }
        ensures port { IsPort self.new }
        ensures order { (low high : ℕ) → IsInOrder low high self.old.writes → IsInOrder low cycle into.new.items }
        ensures left_order { (low high : ℕ) → IsInOrder low high self.old.writes → IsInOrder cycle high self.new.writes }
    {
        take_below::<SavedWrite>(&mut self.writes, cycle, into);
    }
}

/// Holds a write, which is lost where 1,024 are held.
fn hold(writes: &mut FmList, write: &FmWrite)
    requires { length writes.old.items ≤ 1024 }
    ensures { writes.new.items ≡ held_with writes.old.items write.now }
{
    if !writes.is_full() {
        writes.push(*write);
    }
}
