ghost use Rattle.std.specs.Prelude.{◌≡◌};
ghost use Rattle.m68k_decode.specs.Instructions as instructions;
ghost use Rattle.m68k_decode.specs.Rows as rows;
ghost use Rattle.m68k_decode.specs.Ops.{IsInstruction};

use crate::{Decoded, Op};

/// A first word that is no instruction.
#[tactic(auto, unfolding(crate::specs::Instructions::unmatched))]
pub fn unmatched(words: &[u16; 5], into: &mut Decoded)
    ensures value { into.new ≡ instructions.unmatched words.now }
    ensures instruction { IsInstruction into.new }
{
    let word = words[0];
    let op = match word >> 12 {
        10 => Op::LineA(word),
        15 => Op::LineF(word),
        _ => Op::Illegal(word),
    };
    *into = Decoded::of_words(1, op)
}

/// ILLEGAL, whose place is that of TAS #.
#[tactic(auto, unfolding(crate::specs::Instructions::made))]
pub fn illegal(words: &[u16; 5], into: &mut Decoded)
    ensures value { into.new ≡ instructions.made rows.Illegal words.now }
    ensures instruction { IsInstruction into.new }
{
    let word = words[0];
    *into = Decoded::of_words(1, Op::Illegal(word))
}
