ghost use Rattle.std.specs.Prelude.{◌≡◌, ◌+◌, ◌≤◌, ◌<◌, IfOk, length, true};
ghost use Rattle.md_asm.specs.SeenCodes.{names_seen, settled_seen};
ghost use Rattle.md_asm.specs.Kept.{FitsAt, IsKept};
ghost use Rattle.md_asm.specs.Places as places;
ghost use Rattle.md_asm.specs.Rounds as rounds;
ghost use Rattle.md_asm.specs.Seen.{patched_seen, slot_seen};

use crate::entry::Entry;
use crate::kind::Kind;
use crate::{Names, Settled, resolve, settle};
use md_asm_text::split;
use md_word::NoMemory;
use std::alloc::Global;

/// Writes bytes at a place of a memory.
#[tactic(auto, unfolding(crate::specs::Places::put))]
fn put(memory: &mut [u8], place: usize, bytes: &[u8])
    requires { place + length bytes.now ≤ length memory.old }
    ensures { memory.new ≡ places.put memory.old place bytes.now }
{
    memory[place..place + bytes.len()].copy_from_slice(bytes);
}

/// The outcome of a line, with all names known. It fails where memory runs out.
fn settled_entry<'a>(
    alloc: Global,
    names: &Names<'a>,
    entry: &Entry<'a>,
) -> Result<Settled, NoMemory>
    requires { entry.now.z80 ≡ true → entry.now.address < 65536 }
    ensures { IfOk result (λ settled. settled_seen settled ≡ rounds.settled_slot (names_seen names.now) (slot_seen entry.now)) }
{
    let line_tokens = split(alloc, entry.text)?;
    let resolved = resolve(alloc, names, line_tokens.as_slice())?;
    settle(
        alloc,
        entry.z80,
        entry.body,
        entry.long,
        resolved.as_slice(),
        entry.address,
    )
}

/// Writes the bytes of a line at its place, `None`; or the kind of fault for which it has none.
fn put_settled(settled: Settled, place: u32, memory: &mut [u8]) -> Option<Kind>
    requires { FitsAt (settled_seen settled) place (length memory.old) }
    ensures { patched_seen result memory.new ≡ rounds.put_settled memory.old place (settled_seen settled) }
{
    match settled {
        Settled::Good(bytes) => {
            put(memory, place as usize, bytes.as_slice());
            None
        }
        Settled::Unknown => Some(Kind::UnknownName),
        Settled::Unfit => Some(Kind::DoesNotFit),
        Settled::Far => Some(Kind::Far),
    }
}

/// Writes the bytes of a line into a memory, and patches them first if they depend on a name: `None`, or the kind of fault
/// for which it has none. It fails where memory runs out.
pub(crate) fn patch<'a>(
    alloc: Global,
    names: &Names<'a>,
    entry: &Entry<'a>,
    memory: &mut [u8],
) -> Result<Option<Kind>, NoMemory>
    requires kept { IsKept entry.now }
    requires whole { length memory.old ≡ places.image_limit }
    ensures { IfOk result (λ fault. patched_seen fault memory.new ≡ rounds.with_slot (names_seen names.now) memory.old (slot_seen entry.now)) }
{
    if let Some(bytes) = &entry.bytes {
        put(memory, entry.place as usize, bytes.as_slice());
        return Ok(None);
    }
    let settled = settled_entry(alloc, names, entry)?;
    Ok(put_settled(settled, entry.place, memory))
}
