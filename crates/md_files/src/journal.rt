ghost use Rattle.std.specs.Prelude.{◌≡◌, ◌+◌, ◌≤◌, ◌++◌, vec_len, vec_capacity};
ghost use Rattle.md_files.specs.Journal.{entry_bytes};

use crate::put::put;
use byteorder::{BigEndian, ByteOrder};
use md_word::Entry;

/// Appends the 16 bytes of one record of the journal: cycle (8), chip, kind, address (4), value
/// (2), high byte first.
#[tactic(auto, unfolding(crate::specs::Journal::entry_bytes))]
pub fn put_entry(entry: &Entry, into: &mut Vec<u8>)
    requires { vec_len into.old + 16 ≤ vec_capacity into.old }
    ensures bytes { into.new.items ≡ into.old.items ++ entry_bytes entry.now }
    ensures length { vec_len into.new ≡ vec_len into.old + 16 }
    ensures room { vec_capacity into.new ≡ vec_capacity into.old }
{
    let mut bytes = [0; 16];
    BigEndian::write_u64(&mut bytes, entry.key.cycle);
    bytes[8] = entry.key.chip;
    bytes[9] = entry.kind;
    BigEndian::write_u32(&mut bytes[10..], entry.address);
    BigEndian::write_u16(&mut bytes[14..], entry.value);
    put(&bytes, into);
}
