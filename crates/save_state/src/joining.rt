ghost use Rattle.std.specs.Prelude.{◌≡◌, ◌≤◌, ◌+◌, true, length, if◌then◌else◌, Ok, Err};
ghost use Rattle.save_state.specs.Joining as joining;
ghost use Rattle.save_state.specs.Layout.{are_ordered};

use crate::layout::{Part, place_of};
use md_word::Unspell;

/// The answer of an item's reader, with its offset in the state in place of that in the item's parts. It fails
/// as the reader did.
pub fn placed<T: Drop>(parts: &[Part], answer: Result<T, Unspell>) -> Result<T, Unspell>
    requires { are_ordered 0 parts.now ≡ true }
    ensures { result ≡ joining.placed parts.now answer }
{
    match answer {
        Ok(value) => Ok(value),
        Err(Unspell::Rule { place }) => Err(Unspell::Rule {
            place: place_of(parts, place),
        }),
        Err(Unspell::NoMemory) => Err(Unspell::NoMemory),
    }
}

/// Both values. Where one reader fails, they fail as it does; where both do, at the lesser offset, but out of
/// memory comes first.
pub fn both<A: Drop, B: Drop>(
    first: Result<A, Unspell>,
    second: Result<B, Unspell>,
) -> Result<(A, B), Unspell>
    ensures { result ≡ joining.both first second }
{
    match first {
        Ok(a) => match second {
            Ok(b) => Ok((a, b)),
            Err(fault) => Err(fault),
        },
        Err(fault) => match second {
            Ok(_) => Err(fault),
            Err(other) => Err(lesser(fault, other)),
        },
    }
}

fn lesser(fault: Unspell, other: Unspell) -> Unspell
    ensures { result ≡ joining.lesser fault other }
{
    match (fault, other) {
        (Unspell::Rule { place: p }, Unspell::Rule { place: q }) => Unspell::Rule {
            place: p.min(q),
        },
        _ => Unspell::NoMemory,
    }
}

/// The answer, where a rule holds. Else it fails at the lesser offset of the rule and the answer's fault; out
/// of memory comes first.
pub fn with_rule<T: Drop>(
    answer: Result<T, Unspell>,
    holds: bool,
    place: usize,
) -> Result<T, Unspell>
    ensures { result ≡ joining.with_rule answer holds place }
{
    if holds {
        return answer;
    }
    let broken = Unspell::Rule {
        place: place as u64,
    };
    match answer {
        Ok(_) => Err(broken),
        Err(fault) => Err(lesser(fault, broken)),
    }
}
