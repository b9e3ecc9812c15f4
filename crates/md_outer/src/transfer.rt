// Whole pieces to a writer, and files of a limited length from a reader.
ghost use Rattle.std.specs.Prelude.{◌≡◌, ◌≤◌, ◌<◌, ◌+◌, length, IfOk, OnOk, OnErr, IfSome, IsErrOf};
ghost use Rattle.std.specs.Io.KnownBytes.{Appends};
ghost use Rattle.md_outer.specs.Transfer.{AppendsPart, TakesAtMost, AddsPart};

use crate::{Failed, Fetch};
use std::alloc::Global;
use std::io::{Read, Write};

/// How many bytes a read asks for at most.
const PART: usize = 4096;

/// Writes the whole piece. A write that fails, or takes nothing, ends it with a prefix written.
pub(crate) fn write_whole<W: Write>(to: &mut W, piece: &[u8]) -> Result<(), Failed>
    ensures whole { OnOk result (Appends (W.contents to.old) (W.contents to.new) piece.now) }
    ensures part { OnErr result (AppendsPart piece.now (W.contents to.old) (W.contents to.new)) }
{
    let mut rest = piece;
    'writing: while !rest.is_empty() {
        match to.write(rest) {
            Ok(0) | Err(_) => return Err(Failed),
            Ok(count) => rest = &rest[count..],
        }
    }
    Ok(())
}

/// Reads to the end, or up to one byte past the limit, and counts the bytes. A read that gives nothing is the
/// end.
pub(crate) fn read_to_limit<F: Read>(
    alloc: Global,
    from: &mut F,
    limit: u64,
    count: &mut u64,
) -> Result<Vec<u8>, Fetch>
    ensures within { IfOk result (λ bytes. length bytes.items ≤ limit) }
    ensures whole { IfOk result (λ bytes. IfSome (F.remaining from.old) (λ all. bytes.items ≡ all)) }
    ensures too_long { IsErrOf result Fetch.TooLong → IfSome (F.remaining from.old) (λ all. limit < length all) }
    ensures takes { TakesAtMost (limit + 1) (F.remaining from.old) (F.remaining from.new) count.old count.new }
{
    let mut bytes = Vec::new(alloc);
    'reading: while bytes.len() as u64 <= limit {
        let most = (limit - bytes.len() as u64).min(PART as u64 - 1) as usize + 1;
        if !read_part(from, most, &mut bytes, count)? {
            return Ok(bytes);
        }
    }
    Err(Fetch::TooLong)
}

/// Adds what one read gives, at most `most` bytes, and counts them. Answers whether it gave any.
fn read_part<F: Read>(
    from: &mut F,
    most: usize,
    bytes: &mut Vec<u8>,
    count: &mut u64,
) -> Result<bool, Fetch>
    requires { (0 < most) × (most ≤ 4096) }
    ensures part { IfOk result (λ more. AddsPart most more (F.remaining from.old) (F.remaining from.new) bytes.old.items bytes.new.items count.old count.new) }
    ensures takes { TakesAtMost most (F.remaining from.old) (F.remaining from.new) count.old count.new }
    ensures too_long { IsErrOf result Fetch.TooLong → ⊥ }
{
    let mut part = [0; PART];
    let window = &mut part[..most];
    match from.read(window) {
        Ok(given) => {
            *count = count.saturating_add(given as u64);
            bytes.extend_from_slice(&window[..given])?;
            Ok(given > 0)
        }
        Err(_) => Err(Fetch::Failed),
    }
}
