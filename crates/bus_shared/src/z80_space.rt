//! The Z80's space, as the 68000 reaches it while the bus is granted, and the sound chips in it. Source:
//! Genesis Technical Overview, the Z80's area.
ghost use Rattle.std.specs.Prelude.{◌≡◌, ◌<◌, ◌≤◌};
ghost use Rattle.md_word.specs.Clock.{cycle_limit};
ghost use Rattle.bus_shared.specs.Accesses as accesses;
ghost use Rattle.bus_shared.specs.Fm as fm;
ghost use Rattle.bus_shared.specs.Z80Space as space;

use crate::fm::is_fm;
use crate::shared::Shared;
use md_word::Key;
use z80_parcel::{RAM_END, read, store_byte};

/// The PSG's address, as the Z80 sees it.
pub(crate) const PSG80: u16 = 0x7f11;

/// The byte that is read where nothing answers.
pub(crate) const OPEN_BYTE: u8 = 0xff;

impl Shared {
    /// What the 68000 reads in the Z80's space.
    pub(crate) fn read_space(&mut self, cycle: u64, at: u16) -> u8
        requires { cycle ≤ cycle_limit }
        ensures value { result ≡ space.space_byte (space.granted self.old.request self.old.store) self.old cycle at }
        ensures board { self.new ≡ space.space_read (space.granted self.old.request self.old.store) self.old cycle at }
    {
        match &self.parcel {
            Some(parcel) if self.request => {
                if at < RAM_END {
                    read(at, parcel)
                } else {
                    self.read_chip(cycle, at)
                }
            }
            _ => OPEN_BYTE,
        }
    }

    /// What a read beside the Z80's RAM gives: the FM chip's status, or all ones.
    pub(crate) fn read_chip(&mut self, cycle: u64, at: u16) -> u8
        requires { cycle ≤ cycle_limit }
        ensures value { result ≡ fm.chip_byte self.old cycle at }
        ensures board { self.new ≡ fm.chip_read self.old cycle at }
    {
        if is_fm(at) {
            self.fm.status(cycle)
        } else {
            OPEN_BYTE
        }
    }

    pub(crate) fn write_psg(&mut self, key: Key, value: u8)
        requires { key.chip < 2 }
        ensures { self.new ≡ space.with_psg self.old key value }
    {
        self.psg.write(key, value);
    }

    pub(crate) fn write_fm(&mut self, key: Key, at: u16, value: u8)
        requires chip { key.chip < 2 }
        requires soon { key.cycle ≤ cycle_limit }
        ensures { self.new ≡ fm.with_fm self.old key at value }
    {
        self.fm.write(key, (at % 4) as u8, value);
    }

    /// Writes a byte in the Z80's space.
    pub(crate) fn write_space(&mut self, key: Key, at: u16, value: u8)
        requires chip { key.chip < 2 }
        requires soon { key.cycle ≤ cycle_limit }
        ensures { self.new ≡ space.space_written (space.granted self.old.request self.old.store) self.old key at value }
    {
        match &mut self.parcel {
            Some(parcel) if self.request => {
                if at == PSG80 {
                    self.write_psg(key, value);
                } else if is_fm(at) {
                    self.write_fm(key, at, value);
                } else {
                    store_byte(at, value, parcel);
                }
            }
            _ => {}
        }
    }

    /// Carries out a byte that the Z80 writes: the PSG and the FM chip take their own.
    pub(crate) fn sub_write(&mut self, key: Key, at: u16, value: u8)
        requires chip { key.chip < 2 }
        requires soon { key.cycle ≤ cycle_limit }
        ensures { self.new ≡ accesses.sub_written self.old key at value }
    {
        if at == PSG80 {
            self.write_psg(key, value);
        } else if is_fm(at) {
            self.write_fm(key, at, value);
        }
    }
}
