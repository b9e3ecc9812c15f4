ghost use Rattle.std.specs.Prelude.{◌≡◌, ◌^◌, ◌≤◌};
ghost use Rattle.bus_shared.specs.Entries as entries;

use md_word::clock::BATCH;
use md_word::{Entry, Key, Request68};
use vdp_time::line_of;

/// The entry of an access of the 68000 that gave this value, with the VDP's address before it.
pub(crate) fn main_entry(key: Key, request: Request68, given: u16, a: u16) -> Entry
    ensures { result ≡ entries.main_entry key request given a }
{
    let (kind, address, value) = match request {
        Request68::Read8(address) => (0, address, given),
        Request68::Read16(address) => (1, address, given),
        Request68::Write8(address, value) => (2, address, u16::from(value)),
        Request68::Write16(address, value) => (3, address, value),
        Request68::Ack(level) => (4, 0, u16::from(level)),
        Request68::Word(value) => (5, u32::from(a), value),
    };
    Entry {
        key,
        kind,
        address,
        value,
    }
}

/// The entry of an access of the Z80.
pub(crate) fn sub_entry(key: Key, kind: u8, address: u16, value: u8) -> Entry
    ensures { result ≡ entries.sub_entry key kind address value }
{
    Entry {
        key,
        kind,
        address: u32::from(address),
        value: u16::from(value),
    }
}

/// The entry of the start of a line: its number in a frame of the region, and the 68000's interrupt
/// level after it.
pub(crate) fn line_entry(pal: bool, key: Key, level: u8) -> Entry
    ensures { result ≡ entries.line_entry pal key level }
{
    Entry {
        key,
        kind: 10,
        address: line_of(key.cycle, pal),
        value: u16::from(level),
    }
}

/// The entry of a batch of the FM synthesis that took so many writes.
pub(crate) fn fm_entry(key: Key, taken: u16) -> Entry
    ensures { result ≡ entries.batch_entry 11 key taken }
{
    Entry {
        key,
        kind: 11,
        address: batch_number(key.cycle),
        value: taken,
    }
}

/// The entry of a batch of the PSG synthesis that took so many writes.
pub(crate) fn psg_entry(key: Key, taken: u16) -> Entry
    ensures { result ≡ entries.batch_entry 12 key taken }
{
    Entry {
        key,
        kind: 12,
        address: batch_number(key.cycle),
        value: taken,
    }
}

/// The number of the batch at a cycle, as the journal has it.
fn batch_number(cycle: u64) -> u32
    ensures { result ≡ entries.batch_number cycle }
{
    (cycle / BATCH % 0x1_0000_0000) as u32
}
