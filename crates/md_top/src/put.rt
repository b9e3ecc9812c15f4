ghost use Rattle.std.specs.Prelude.{◌++◌};
ghost use Rattle.md_outer.specs.Outside.{PutsText};

use md_outer::{Failed, Sink};

/// Puts a text and bytes after it.
pub(crate) fn put_two<S: Sink>(out: &mut S, first: &str, second: &[u8]) -> Result<(), Failed>
    ensures { PutsText S.observable (first.now ++ second.now) (S.state out.old) (S.state out.new) result }
{
    match out.put(first.as_bytes()) {
        Ok(()) => out.put(second),
        Err(failed) => Err(failed),
    }
}

/// Puts a text, bytes and a text, one after the other.
pub(crate) fn put_three<S: Sink>(
    out: &mut S,
    first: &str,
    second: &[u8],
    third: &str,
) -> Result<(), Failed>
    ensures { PutsText S.observable (first.now ++ second.now ++ third.now) (S.state out.old) (S.state out.new) result }
{
    match put_two(out, first, second) {
        Ok(()) => out.put(third.as_bytes()),
        Err(failed) => Err(failed),
    }
}
