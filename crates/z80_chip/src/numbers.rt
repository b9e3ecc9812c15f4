//! Stages and interrupt modes by their numbers, and the answers as four bytes.
ghost use Rattle.std.specs.Prelude.{◌≡◌, ◌+◌, ◌≤◌, length, take, drop};
ghost use Rattle.md_fields.specs.Padding as padding;
ghost use Rattle.z80_chip.specs.Saved as rules;

use crate::stage::Stage;
use z80_decode::InterruptMode;

/// The number of the stage of an access.
pub const ACCESS: u8 = 1;

/// The number of a stage.
pub fn stage_number(stage: Stage) -> u8
    ensures { result ≡ rules.stage_number stage }
{
    match stage {
        Stage::Sample => 0,
        Stage::Access => ACCESS,
        Stage::Yield => 2,
        Stage::Take => 3,
    }
}

/// The stage of a number; above 2 a take.
pub fn stage_of(number: u8) -> Stage
    ensures { result ≡ rules.stage_of number }
{
    match number {
        0 => Stage::Sample,
        1 => Stage::Access,
        2 => Stage::Yield,
        _ => Stage::Take,
    }
}

/// The number that IM gives an interrupt mode.
pub fn mode_number(mode: InterruptMode) -> u8
    ensures { result ≡ rules.mode_number mode }
{
    match mode {
        InterruptMode::Mode0 => 0,
        InterruptMode::Mode1 => 1,
        InterruptMode::Mode2 => 2,
    }
}

/// The interrupt mode of a number; above 1 mode 2.
pub fn mode_of(number: u8) -> InterruptMode
    ensures { result ≡ rules.mode_of number }
{
    match number {
        0 => InterruptMode::Mode0,
        1 => InterruptMode::Mode1,
        _ => InterruptMode::Mode2,
    }
}

/// The answers, and 0 in the places that are not used.
pub fn padded(answers: &[u8]) -> [u8; 4]
    requires { length answers.now ≤ 4 }
    ensures { result ≡ padding.padded 4 answers.now }
{
    let mut all = [0; 4];
    all[..answers.len()].copy_from_slice(answers);
    all
}

/// Four bytes from a place on.
pub fn four_at(bytes: &[u8], place: usize) -> [u8; 4]
    requires { place + 4 ≤ length bytes.now }
    ensures { result ≡ take 4 (drop place bytes.now) }
{
    let mut four = [0; 4];
    four.copy_from_slice(&bytes[place..place + 4]);
    four
}
