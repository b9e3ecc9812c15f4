ghost use Rattle.std.specs.Prelude.{◌≡◌};
ghost use Rattle.m68k_alu.specs.Results as results;

use crate::Out;
use md_word::{Flags, Size};

/// A value with N and Z by it.
#[tactic(auto, using(std::proofs::lemmas::Bool::Decides::nat_tests), unfolding(crate::specs::Results::shown))]
pub fn shown(size: Size, value: u32, x: bool, v: bool, c: bool) -> Out
    ensures shown { result ≡ results.shown size value x v c }
    ensures value { result.value ≡ value }
    ensures overflow { result.flags.v ≡ v }
{
    Out {
        value,
        flags: Flags {
            x,
            n: value >= size.half(),
            z: value == 0,
            v,
            c,
        },
    }
}

/// A value with N and Z by it, V and C cleared, and X as it was.
#[tactic(auto, unfolding(crate::specs::Results::moved))]
pub fn moved(size: Size, value: u32, flags: Flags) -> Out
    ensures moved { result ≡ results.moved size value flags }
    ensures value { result.value ≡ value }
{
    shown(size, value, flags.x, false, false)
}

/// The same with Z only cleared.
#[tactic(auto, unfolding(crate::specs::Results::zero_kept))]
pub fn zero_kept(old: Flags, out: Out) -> Out
    ensures kept { result ≡ results.zero_kept old out }
    ensures value { result.value ≡ out.value }
{
    Out {
        value: out.value,
        flags: Flags {
            z: old.z && out.flags.z,
            ..out.flags
        },
    }
}
