//! The Z80's bus request and reset, and its RAM, which the board has while the bus is granted. Source:
//! Genesis Technical Overview, the Z80's bus request and reset.
ghost use Rattle.std.specs.Prelude.{◌≡◌, ◌≤◌};
ghost use Rattle.bus_shared.specs.Accesses as accesses;
ghost use Rattle.bus_shared.specs.Lines as lines;
ghost use Rattle.z80_parcel.specs.Parcels.{store_of};
ghost use Rattle.z80_parcel.specs.Requests.{answer_value80_of};

use crate::entries::sub_entry;
use crate::shared::Shared;
use md_word::{Answer80, Entry, Key, Parcel};
use z80_parcel::known;

impl Shared {
    /// Bit 8 of the word that the bus request reads.
    pub(crate) fn request_bit(&self) -> u8
        ensures value { result ≡ lines.request_bit self.now }
        ensures bit { result ≤ 1 }
    {
        let granted = self.request && self.parcel.is_some();
        if granted { 0 } else { 1 }
    }

    /// Sets or clears the request for the Z80's bus.
    pub(crate) fn write_request(&mut self, bit: u8)
        ensures { self.new ≡ lines.requested self.old bit }
    {
        self.request = bit == 1;
    }

    /// Holds the Z80's reset, which is counted and resets the FM chip, or releases it.
    pub(crate) fn write_reset(&mut self, key: Key, bit: u8)
        requires { key.chip ≡ 0 }
        ensures { self.new ≡ lines.reset_written self.old key bit }
    {
        if bit == 0 {
            self.reset = true;
            self.resets = self.resets.saturating_add(1);
            self.fm.reset(key);
        } else {
            self.reset = false;
        }
    }

    /// Takes the Z80's RAM where the bus is still requested, else gives it back.
    pub(crate) fn yield_parcel(&mut self, key: Key, parcel: Parcel) -> (Answer80, Entry)
        ensures answer { answer_value80_of result.0 ≡ (accesses.yielded self.old.request self.old key (store_of parcel)).answer }
        ensures entry { result.1 ≡ (accesses.yielded self.old.request self.old key (store_of parcel)).entry }
        ensures board { self.new ≡ (accesses.yielded self.old.request self.old key (store_of parcel)).board }
    {
        known(&parcel);
        if self.request {
            self.parcel = Some(parcel);
            (Answer80::Done, sub_entry(key, 8, 0, 1))
        } else {
            (Answer80::Back(parcel), sub_entry(key, 8, 0, 0))
        }
    }

    /// Gives the Z80 its RAM back where the bus is no longer requested and has it.
    pub(crate) fn take_parcel(&mut self, key: Key) -> (Answer80, Entry)
        ensures answer { answer_value80_of result.0 ≡ (accesses.taken_back self.old.request self.old.store self.old key).answer }
        ensures entry { result.1 ≡ (accesses.taken_back self.old.request self.old.store self.old key).entry }
        ensures board { self.new ≡ (accesses.taken_back self.old.request self.old.store self.old key).board }
    {
        if self.request {
            return (Answer80::Done, sub_entry(key, 9, 0, 0));
        }
        match self.parcel.take() {
            Some(parcel) => (Answer80::Back(parcel), sub_entry(key, 9, 0, 1)),
            None => (Answer80::Done, sub_entry(key, 9, 0, 0)),
        }
    }
}
