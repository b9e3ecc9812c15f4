//! Stages by their numbers, and the answers as 32 words.
ghost use Rattle.std.specs.Prelude.{◌≡◌, ◌≤◌, length};
ghost use Rattle.md_fields.specs.Padding as padding;
ghost use Rattle.m68k_chip.specs.Numbers.{stage_number as number_by, stage_of as stage_by};

use crate::stage::Stage;

/// The stages of an access and of a word of a transfer.
pub const ACCESS: u8 = 1;

pub const WORD: u8 = 2;

pub fn stage_number(stage: Stage) -> u8
    ensures { result ≡ number_by stage }
{
    match stage {
        Stage::Sample => 0,
        Stage::Access => ACCESS,
        Stage::Word => WORD,
    }
}

pub fn stage_of(number: u8) -> Stage
    ensures { result ≡ stage_by number }
{
    match number {
        0 => Stage::Sample,
        1 => Stage::Access,
        _ => Stage::Word,
    }
}

/// The answers, and 0 in the places that are not used.
pub fn padded(answers: &[u16]) -> [u16; 32]
    requires { length answers.now ≤ 32 }
    ensures value { result ≡ padding.padded 32 answers.now }
    ensures size { length result ≡ 32 }
{
    let mut all = [0; 32];
    all[..answers.len()].copy_from_slice(answers);
    all
}
