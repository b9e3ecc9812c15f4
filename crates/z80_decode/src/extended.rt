ghost use Rattle.std.specs.Prelude.{◌≡◌};
ghost use Rattle.z80_decode.specs.Nested as nested;

use crate::fields::{pair_of, place, word};
use crate::{Block, Decoded80, Index, InterruptMode, Op80, Special};

/// An opcode that is no instruction.
fn undefined(opcode: u8) -> Decoded80
    ensures { result ≡ nested.undefined opcode }
{
    Decoded80::of_bytes(2, Op80::Undefined(opcode))
}

/// IN r,(C) and OUT (C),r.
#[tactic(auto, unfolding(crate::specs::Nested::ports))]
fn ports(opcode: u8) -> Decoded80
    ensures { result ≡ nested.ports opcode }
{
    let register = place(Index::Hl, opcode >> 3 & 7, 0);
    match (opcode >> 3 & 7, opcode & 7) {
        (6, _) => undefined(opcode),
        (_, 0) => Decoded80::of_bytes(2, Op80::Input(register)),
        (_, _) => Decoded80::of_bytes(2, Op80::Output(register)),
    }
}

/// ADC and SBC of HL, LD dd,(nn) and LD (nn),dd.
#[tactic(auto, unfolding(crate::specs::Nested::pairs_extended))]
fn pairs(opcode: u8, first: u8, second: u8) -> Decoded80
    ensures { result ≡ nested.pairs_extended opcode first second }
{
    let pair = pair_of(Index::Hl, opcode >> 4 & 3);
    let address = word(first, second);
    match (opcode & 7, opcode >> 3 & 1) {
        (2, 1) => Decoded80::of_bytes(2, Op80::AddPairWithCarry(pair)),
        (2, _) => Decoded80::of_bytes(2, Op80::SubtractPairWithCarry(pair)),
        (_, 1) => Decoded80::of_bytes(4, Op80::LoadPairExtended(pair, address)),
        (_, _) => Decoded80::of_bytes(4, Op80::StorePairExtended(address, pair)),
    }
}

/// NEG, RETN, RETI and IM.
#[tactic(auto, unfolding(crate::specs::Nested::modes))]
fn modes(opcode: u8) -> Decoded80
    ensures { result ≡ nested.modes opcode }
{
    match opcode {
        0x44 => Decoded80::of_bytes(2, Op80::Negate),
        0x45 => Decoded80::of_bytes(2, Op80::ReturnFromNonMaskable),
        0x4d => Decoded80::of_bytes(2, Op80::ReturnFromInterrupt),
        0x46 => Decoded80::of_bytes(2, Op80::SetInterruptMode(InterruptMode::Mode0)),
        0x56 => Decoded80::of_bytes(2, Op80::SetInterruptMode(InterruptMode::Mode1)),
        0x5e => Decoded80::of_bytes(2, Op80::SetInterruptMode(InterruptMode::Mode2)),
        _ => undefined(opcode),
    }
}

/// LD with I and R, RRD and RLD.
#[tactic(auto, unfolding(crate::specs::Nested::specials))]
fn specials(opcode: u8) -> Decoded80
    ensures { result ≡ nested.specials opcode }
{
    match opcode >> 3 & 7 {
        0 => Decoded80::of_bytes(2, Op80::LoadToSpecial(Special::Interrupt)),
        1 => Decoded80::of_bytes(2, Op80::LoadToSpecial(Special::Refresh)),
        2 => Decoded80::of_bytes(2, Op80::LoadFromSpecial(Special::Interrupt)),
        3 => Decoded80::of_bytes(2, Op80::LoadFromSpecial(Special::Refresh)),
        4 => Decoded80::of_bytes(2, Op80::RotateDigitsRight),
        5 => Decoded80::of_bytes(2, Op80::RotateDigitsLeft),
        _ => undefined(opcode),
    }
}

/// How a block instruction steps.
#[tactic(auto, unfolding(crate::specs::Nested::block_of))]
fn block_of(code: u8) -> Block
    ensures { result ≡ nested.block_of code }
{
    match code {
        0 => Block::Increment,
        1 => Block::Decrement,
        2 => Block::IncrementRepeat,
        _ => Block::DecrementRepeat,
    }
}

/// A block instruction.
#[tactic(auto, unfolding(crate::specs::Nested::block_op))]
fn block_op(code: u8, block: Block) -> Op80
    ensures { result ≡ nested.block_op code block }
{
    match code {
        0 => Op80::BlockLoad(block),
        1 => Op80::BlockCompare(block),
        2 => Op80::BlockInput(block),
        _ => Op80::BlockOutput(block),
    }
}

/// The instruction after the prefix ED.
#[tactic(auto, unfolding(crate::specs::Nested::extended))]
pub fn extended(opcode: u8, first: u8, second: u8) -> Decoded80
    ensures { result ≡ nested.extended opcode first second }
{
    match (opcode >> 5, opcode & 7) {
        (2 | 3, 0 | 1) => ports(opcode),
        (2 | 3, 2 | 3) => pairs(opcode, first, second),
        (2 | 3, 4..=6) => modes(opcode),
        (2 | 3, _) => specials(opcode),
        (5, 0..=3) => Decoded80::of_bytes(2, block_op(opcode & 7, block_of(opcode >> 3 & 3))),
        _ => undefined(opcode),
    }
}
