ghost use Rattle.std.specs.Prelude.{◌≡◌, ◌+◌, ◌*◌, ◌≤◌, ◌<◌, ◌&&◌, ◌++◌, length, map, vec_len, vec_capacity};
ghost use Rattle.std.specs.List.{list_all};
ghost use Rattle.sound_writes.specs.Entries.{AreFit, entries_bytes, entries_from};
ghost use Rattle.sound_writes.specs.Held.{left_from, limit, taken_below};
ghost use Rattle.sound_writes.specs.Keys as keys;
ghost use Rattle.sound_writes.specs.Keys.{are_kept};
ghost use Rattle.sound_writes.specs.Ports.{are_writes};

use crate::earliest::{Earliest, is_before_next};
use arrayvec::ArrayVec;
use md_word::Key;

/// How many writes a port holds, at most.
pub const MOST: usize = 1_024;

/// What a saved state keeps of a write that a port holds.
pub trait WriteEntry: Copy {
    ghost use Rattle.std.specs.Prelude.{ℕ, Bool, List, drop};
    ghost use Rattle.md_word.specs.declared.key.Key.{Key as KeyValue};
    ghost use Rattle.md_fields.specs.Fields.{AreWithin, Field, spelling};
    ghost use Rattle.md_fields.specs.Padding.{are_zeros};

    /// The write that a port holds.
    type Write: Copy + Default;

    /// How many bytes an entry has.
    ghost size: { ℕ };

    /// Its fields.
    ghost fields: { Self → List Field };

    /// The entry at an offset of bytes.
    ghost entry: { ℕ → List ℕ → Self };

    /// The key by which its write is ordered: the cycle, and the chip that made it.
    ghost key_of: { Self → KeyValue };

    /// Whether there is a write of which it is kept.
    ghost is_right: { Self → Bool };

    /// What is kept of a write, and the write of which it is kept.
    ghost saved_of: { Self.Write → Self };

    ghost write_of: { Self → Self.Write };

    /// What is kept of a write.
    fn of(write: &Self::Write) -> Self
        ensures { result ≡ saved_of write.now };

    /// The entry of an index, below 1,024.
    fn read(entries: &[u8], index: usize) -> Self
        requires below { index < limit }
        requires there { length entries.now ≡ size * limit }
        ensures { result ≡ entry (size * index) entries.now };

    /// Whether the entries from an index on, at most 1,024, are 0.
    fn are_unused(entries: &[u8], index: usize) -> bool
        requires most { index ≤ limit }
        requires there { length entries.now ≡ size * limit }
        ensures { result ≡ are_zeros (drop (size * index) entries.now) };

    /// The key by which its write is ordered.
    fn key(&self) -> Key
        ensures { result ≡ key_of self.now };

    /// Whether there is a write of which it is kept.
    fn is_right(&self) -> bool
        ensures { result ≡ is_right self.now };

    /// The write of which it is kept.
    fn write(&self) -> Self::Write
        ensures { result ≡ write_of self.now };

    /// Appends its bytes. There is room for them.
    fn put(&self, into: &mut Vec<u8>)
        requires { vec_len into.old + size ≤ vec_capacity into.old }
        ensures bytes { into.new.items ≡ into.old.items ++ spelling (fields self.now) }
        ensures length { vec_len into.new ≡ vec_len into.old + size }
        ensures room { vec_capacity into.old ≤ vec_capacity into.new };

    /// Known: each number fits its field.
    fn known(&self)
        ensures { AreWithin (fields self.now) };
}

/// Appends the bytes of writes, one after another. There is room for them.
pub fn put_writes<W: WriteEntry>(writes: &[W::Write], into: &mut Vec<u8>)
    requires { vec_len into.old + W.size * length writes.now ≤ vec_capacity into.old }
    ensures bytes { into.new.items ≡ into.old.items ++ entries_bytes W.fields (map W.saved_of writes.now) }
    ensures length { vec_len into.new ≡ vec_len into.old + W.size * length writes.now }
    ensures room { vec_capacity into.old ≤ vec_capacity into.new }
{
    let mut rest = writes;
    while let [write, after @ ..] = rest {
        W::of(write).put(into);
        rest = after;
    }
}

/// Known: each number of each write fits its field.
pub fn known_writes<W: WriteEntry>(writes: &[W::Write])
    ensures { AreFit W.fields (map W.saved_of writes.now) }
{
    let mut rest = writes;
    while let [write, after @ ..] = rest {
        W::of(write).known();
        rest = after;
    }
}

/// Whether so many entries are those of writes that a port holds at a cycle, and zeros are after them.
pub fn are_saved<W: WriteEntry>(entries: &[u8], count: usize, at: u64) -> bool
    requires there { length entries.now ≡ W.size * limit }
    ensures { result ≡ are_writes W.size W.entry (λ es. list_all W.is_right es && are_kept at (map W.key_of es)) count entries.now }
{
    if count > MOST {
        return false;
    }
    are_right::<W>(entries, count)
        && have_kept_keys::<W>(entries, count, at)
        && W::are_unused(entries, count)
}

/// Whether there is a write for each of the first so many entries.
fn are_right<W: WriteEntry>(entries: &[u8], count: usize) -> bool
    requires most { count ≤ limit }
    requires there { length entries.now ≡ W.size * limit }
    ensures { result ≡ list_all W.is_right (entries_from W.size W.entry count 0 entries.now) }
{
    for index in 0..count {
        if !W::read(entries, index).is_right() {
            return false;
        }
    }
    true
}

/// Whether the first so many entries have keys that a port holds at a cycle.
fn have_kept_keys<W: WriteEntry>(entries: &[u8], count: usize, at: u64) -> bool
    requires most { count ≤ limit }
    requires there { length entries.now ≡ W.size * limit }
    ensures { result ≡ are_kept at (map W.key_of (entries_from W.size W.entry count 0 entries.now)) }
{
    let mut earliest = Earliest::following_batch(at);
    for index in 0..count {
        let key = W::read(entries, index).key();
        if !earliest.fits(&key, at) {
            return false;
        }
        earliest = earliest.after(&key);
    }
    true
}

/// Makes a list the writes of the first so many entries.
pub fn read_writes<W: WriteEntry>(entries: &[u8], count: usize, into: &mut ArrayVec<W::Write, MOST>)
    requires most { count ≤ limit }
    requires there { length entries.now ≡ W.size * limit }
    ensures { into.new.items ≡ map W.write_of (entries_from W.size W.entry count 0 entries.now) }
{
    into.clear();
    for index in 0..count {
        into.push(W::read(entries, index).write());
    }
}

/// Empties a list and moves there the writes stamped below a cycle, in their order; the others stay.
pub fn take_below<W: WriteEntry>(
    writes: &mut ArrayVec<W::Write, MOST>,
    cycle: u64,
    into: &mut ArrayVec<W::Write, MOST>,
)
    ensures taken { into.new.items ≡ taken_below (λ w. (W.key_of (W.saved_of w)).cycle) cycle writes.old.items }
    ensures left { writes.new.items ≡ left_from (λ w. (W.key_of (W.saved_of w)).cycle) cycle writes.old.items }
{
    into.clear();
    for write in writes.as_slice() {
        if W::of(write).key().cycle < cycle {
            into.push(*write);
        }
    }
    writes.retain(|write| W::of(write).key().cycle >= cycle);
}

/// Whether each write is its processor's gap before the next event of that processor, at least: the
/// 68000's next is at `main`, the Z80's at `sub`.
pub fn are_before_next<W: WriteEntry>(writes: &[W::Write], main: u64, sub: u64) -> bool
    ensures { result ≡ list_all (λ w. keys.is_before_next main sub (W.key_of (W.saved_of w))) writes.now }
{
    writes
        .iter()
        .all(|write| is_before_next(&W::of(write).key(), main, sub))
}
